//! The bytes of one datagram of a script, put together line by line, each with CRLF in place of its LF.
ghost use Rattle.std.specs.Prelude.{◌≡◌, ◌≤◌, ◌<◌, ◌+◌, ◌++◌, ◌∷◌, [], ℕ, length, take, drop, vec_len, OnOk, IfSome, MatchOption};
ghost use Rattle.httparse.specs.Pieces.{AllPassBetween, IsRunIn};
ghost use Rattle.sip_replay_script.specs.Gathered.{is_inside, AddsLines, CopiesLine, CopiesLines};

use std::alloc::{AllocError, Global};
use std::marker::Model;
use std::simd::prelude::*;

/// So many bytes are looked at and copied at once.
pub(crate) const LANES: usize = 16;

/// How much room is made at first.
const FIRST_ROOM: usize = 2048;

/// One byte more than a datagram has. What comes behind isn't kept: a datagram over 65,507 bytes is
/// refused as too long, whatever its bytes are.
pub(crate) const KEPT: usize = 65_508;

/// The bytes of a datagram, which are gathered line by line at the front of room that is longer: so a line is copied while
/// its end is looked for. Seen as these bytes.
#[derive(Drop)]
pub struct Gathered {
    room: Vec<u8>,
    count: usize,
}

impl Model for Gathered {
    ghost use Rattle.std.specs.Prelude.{ℕ, List, ◌≤◌, take, vec_len};

    ghost Value = { List ℕ };

    ghost view = { λ g. take g.count g.room.items };

    ghost invariant = { λ g. (g.count ≤ vec_len g.room) × (vec_len g.room ≤ 65508) };
}

/// The first LF among the bytes from a place on that are looked at at once.
#[inline(always)]
fn end_in_lanes(text: &[u8], at: usize) -> Option<usize>
    requires { at + 16 ≤ length text.now }
    ensures { MatchOption result (AllPassBetween is_inside text.now at (at + 16)) (λ run. IsRunIn is_inside text.now at 16 run × (run < 16)) }
{
    let lanes = u8x16::from_slice(&text[at..]);
    let ends = lanes.simd_eq(u8x16::splat(b'\n')).to_bitmask();
    if ends == 0 {
        None
    } else {
        Some(ends.trailing_zeros() as usize)
    }
}

/// Copies so many bytes from a place on to a place of the room. Behind them the room stays.
#[inline(always)]
pub(crate) fn copy_lanes(text: &[u8], from: usize, room: &mut [u8], to: usize)
    requires from { from + 16 ≤ length text.now }
    requires to { to + 16 ≤ length room.old }
    ensures copied { take (to + 16) room.new ≡ take to room.old ++ take 16 (drop from text.now) }
    ensures len { length room.new ≡ length room.old }
{
    u8x16::from_slice(&text[from..]).copy_to_slice(&mut room[to..]);
}

/// Copies the line at a place of a text to a place of the room, if LF is found to end it by a limit; how many bytes it has. The
/// room behind it may change.
#[inline(always)]
fn copy_line(text: &[u8], from: usize, room: &mut [u8], to: usize, limit: usize) -> Option<usize>
    requires text { (from ≤ limit) × (limit + 16 ≤ length text.now) }
    requires room { to + limit + 18 ≤ length room.old + from }
    ensures copied { MatchOption result (take to room.new ≡ take to room.old) (CopiesLine (drop from text.now) room.old room.new to) }
    ensures len { length room.new ≡ length room.old }
    ensures within { IfSome result (λ count. from + count + 1 ≤ length text.now) }
{
    let mut done = 0;
    loop {
        let end = end_in_lanes(text, from + done);
        copy_lanes(text, from + done, room, to + done);
        if let Some(run) = end {
            return Some(done + run);
        }
        done += LANES;
        if from + done > limit {
            return None;
        }
    }
}

/// Puts bytes at a place of the room.
#[inline(always)]
fn put_at(room: &mut [u8], at: usize, bytes: &[u8])
    requires { at + length bytes.now ≤ length room.old }
    ensures put { take (at + length bytes.now) room.new ≡ take at room.old ++ bytes.now }
    ensures len { length room.new ≡ length room.old }
{
    room[at..at + bytes.len()].copy_from_slice(bytes);
}

/// Puts CRLF at a place of the room.
#[inline(always)]
#[tactic(auto, using(crate::proofs::Gathering::two_put))]
fn put_end(room: &mut [u8], at: usize)
    requires { at + 2 ≤ length room.old }
    ensures put { take (at + 2) room.new ≡ take at room.old ++ 13 ∷ 10 ∷ [] }
    ensures len { length room.new ≡ length room.old }
{
    room[at] = b'\r';
    room[at + 1] = b'\n';
}

/// How many bytes of a text were passed, which are so many lines, each with its LF.
#[derive(Clone, Copy)]
pub(crate) struct Passed {
    pub count: usize,
    pub lines: usize,
}

/// Copies lines at the front of a text to a place of the room, each with CRLF behind it, up to one that begins with a dot, isn't
/// found to end, or may not find room. The room behind them may change.
#[inline(never)]
fn copy_lines(text: &[u8], room: &mut [u8], at: usize) -> Passed
    requires at { at ≤ length room.old }
    requires few { length text.now ≤ 8192 }
    ensures copied { CopiesLines text.now room.old room.new at result.count result.lines }
    ensures fits { at + result.count + result.lines ≤ length room.old }
    ensures len { length room.new ≡ length room.old }
{
    let mut count: usize = 0;
    let mut lines: usize = 0;
    if text.len() < LANES || room.len() - at < LANES + 2 {
        return Passed { count, lines };
    }
    let limit = (text.len() - LANES).min((room.len() - at - LANES - 2) / 2);
    while count <= limit && text[count] != b'.' {
        let to = at + count + lines;
        let Some(length) = copy_line(text, count, room, to, limit) else {
            break;
        };
        put_end(room, to + length);
        count += length + 1;
        lines += 1;
    }
    Passed { count, lines }
}

/// Makes the room long enough for so many bytes.
#[inline(never)]
fn grow(room: &mut Vec<u8>, wanted: usize) -> Result<(), AllocError>
    requires { (wanted ≤ 65508) × (vec_len room.old ≤ 65508) }
    ensures same { (n : ℕ) → n ≤ vec_len room.old → take n room.new.items ≡ take n room.old.items }
    ensures enough { OnOk result (wanted ≤ vec_len room.new) }
    ensures more { vec_len room.old ≤ vec_len room.new }
    ensures most { vec_len room.new ≤ 65508 }
{
    if wanted <= room.len() {
        return Ok(());
    }
    let doubled = (room.len() * 2).max(FIRST_ROOM);
    room.resize(doubled.max(wanted).min(KEPT), 0)
}

impl Gathered {
    /// No bytes, and no room.
    pub fn new(alloc: Global) -> Self
        ensures { result ≡ [] }
    {
        Gathered {
            room: Vec::new(alloc),
            count: 0,
        }
    }

    /// Goes back to no bytes. The room stays.
    pub(crate) fn clear(&mut self)
        ensures { self.new ≡ [] }
    {
        self.count = 0;
    }

    /// The bytes.
    pub fn as_slice(&self) -> &[u8]
        ensures bytes { result.now ≡ self.now }
        ensures short { length result.now ≤ 65508 }
    {
        &self.room[..self.count]
    }

    /// Adds bytes at the end.
    pub(crate) fn extend(&mut self, part: &[u8]) -> Result<(), AllocError>
        requires { length self.old + length part.now ≤ 65508 }
        ensures { OnOk result (self.new ≡ self.old ++ part.now) }
    {
        grow(&mut self.room, self.count + part.len())?;
        put_at(self.room.as_mut_slice(), self.count, part);
        self.count += part.len();
        Ok(())
    }

    /// Adds lines at the front of a text, each with CRLF in place of its LF, as long as the room is for them, none begins with
    /// a dot, and they are found to end; which were passed.
    #[inline(always)]
    pub(crate) fn add_lines(&mut self, text: &[u8]) -> Passed
        requires { length text.now ≤ 8192 }
        ensures { AddsLines text.now self.old self.new result.count result.lines }
    {
        let passed = copy_lines(text, self.room.as_mut_slice(), self.count);
        self.count += passed.count + passed.lines;
        passed
    }
}
