//! What is read of a file and not given yet, and the lines that are made in the place of others.
ghost use Rattle.std.specs.Prelude.{◌≡◌, ◌≤◌, ◌<◌, ◌+◌, ◌++◌, ◌&&◌, [], ℕ, List, true, false, not, length, take, drop};
ghost use Rattle.std.specs.Prelude.{vec_len, option_map, IfOk, IfErr, OnOk, OnErr};
ghost use Rattle.std.specs.Io.KnownBytes.{Consumes, Keeps, IsAtEnd};
ghost use Rattle.std.specs.IoError.{error_kind};
ghost use Rattle.sip_replay_script.specs.Devices.{IsFault};
ghost use Rattle.sip_record_omitted.specs.Holding.{ahead, nothing_held, IsKnown, IsReady, IsSettled, IsShort};
ghost use Rattle.sip_record_omitted.specs.Holding.{MakesLines, PassesMade, PassesRead};

use crate::front::{Front, front_of};
use crate::part::{move_front, part_of_line, put_front};
use sip_replay_script::TellingReader;
use std::alloc::{AllocError, Global};
use std::io;
use std::marker::Model;

/// How many bytes are asked for at a time.
const BUFFER: usize = 8192;

/// The line of a datagram that was left out, with its LF.
const LEFT_OUT: [u8; 54] = *b"text 0 0.0.0.0:1 00000000000000000000000000000000 \\00\n";

/// How many bytes that has.
const MADE: usize = 54;

/// What is read and not given yet, in room that is made once.
#[derive(Drop)]
pub(crate) struct Held {
    buffer: Vec<u8>,
    start: usize,
    end: usize,
    inside: bool,
    lines: u64,
    given: usize,
    added: u64,
}

impl Model for Held {
    ghost use Rattle.std.specs.Prelude.{◌≡◌, ◌≤◌, ◌<◌, vec_len};
    ghost use Rattle.std.specs.List.{slice_range};
    ghost use Rattle.sip_record_omitted.specs.Holding.{Holding};

    ghost Value = { Holding };

    ghost view = { λ h. record {
      lines = h.lines;
      given = h.given;
      inside = h.inside;
      unread = slice_range h.buffer.items h.start h.end;
      added = h.added;
    } };

    ghost invariant = { λ h. (h.start ≤ h.end) × (h.end ≤ 8192) × (vec_len h.buffer ≡ 8192) × (h.given < 54) };
}

fn zeros(alloc: Global, count: usize) -> Result<Vec<u8>, AllocError>
    ensures { IfOk result (λ v. vec_len v ≡ count) }
{
    vec![in alloc; 0; count]
}

/// Whether there is a byte.
fn is_some(bytes: &[u8]) -> bool
    ensures some { result ≡ true → 1 ≤ length bytes.now }
    ensures none { result ≡ false → bytes.now ≡ [] }
{
    !bytes.is_empty()
}

/// Whether a line goes on of which a part was given that ends with LF, or doesn't.
fn goes_on(inside: bool, ends: bool) -> bool
    ensures { result ≡ (inside && not ends) }
{
    inside && !ends
}

/// Asks a reader for bytes behind those that stand in a room already, where there is room; how many came, 0 at its end.
fn ask_behind<I: TellingReader>(inner: &mut I, room: &mut [u8], end: usize) -> io::Result<usize>
    requires { end < length room.old }
    ensures kept { take end room.new ≡ take end room.old }
    ensures within { IfOk result (λ count. end + count ≤ length room.new) }
    ensures bytes { IfOk result (λ count. Consumes (I.remaining inner.old) (I.remaining inner.new)
        (take count (drop end room.new))) }
    ensures over { IfOk result (λ count. count ≡ 0 → IsAtEnd (I.remaining inner.new)) }
    ensures unread { OnErr result (Keeps (I.remaining inner.old) (I.remaining inner.new)) }
    ensures failed { IfErr result (λ e. IsFault (error_kind e) → I.has_failed inner.new) }
{
    inner.ask(&mut room[end..])
}

impl Held {
    /// Nothing read, and nothing to be given. `AllocError` is the only refusal.
    pub(crate) fn new(alloc: Global) -> Result<Held, AllocError>
        ensures { IfOk result (λ held. held ≡ nothing_held) }
    {
        let buffer = zeros(alloc, BUFFER)?;
        Ok(Held {
            buffer,
            start: 0,
            end: 0,
            inside: false,
            lines: 0,
            given: 0,
            added: 0,
        })
    }

    /// How many lines more were given, or are to be given, than were read.
    pub(crate) fn added(&self) -> u64
        ensures { result ≡ self.now.added }
    {
        self.added
    }

    /// The bytes that were read and not given yet.
    fn unread(&self) -> &[u8]
        ensures { result.now ≡ self.now.unread }
    {
        &self.buffer[self.start..self.end]
    }

    /// Takes a line of so many bytes at the front for so many lines of left out datagrams.
    #[tactic(auto, using(crate::proofs::Parts::behind_line))]
    fn make(&mut self, count: u64, size: usize)
        requires { size < length self.old.unread }
        ensures { MakesLines self.old self.new count size }
    {
        self.start = self.start + size + 1;
        self.lines = count;
        self.given = 0;
        self.added = self.added.saturating_add(count.saturating_sub(1));
    }

    /// Whether something can be given at once, where a line begins. One that stands for datagrams is taken for them.
    #[tactic(auto, using(crate::proofs::Ahead::made_same, crate::proofs::Ahead::made_ready, crate::proofs::Ahead::size_within, crate::proofs::Ahead::stays_same))]
    fn look_at_line(&mut self) -> bool
        requires { (self.old.lines ≡ 0) × (self.old.inside ≡ false) }
        ensures same { (rest : List ℕ) → ahead self.new rest ≡ ahead self.old rest }
        ensures ready { result ≡ true → IsReady self.new }
        ensures short { result ≡ false → (self.new ≡ self.old) × IsShort self.old }
    {
        match front_of(self.unread()) {
            Front::Omitted { count, size } => {
                self.make(count, size);
                true
            }
            Front::Stays => {
                self.inside = true;
                true
            }
            Front::Short => false,
        }
    }

    /// Whether something can be given at once.
    #[tactic(auto, using(crate::proofs::Ahead::none_short))]
    fn look(&mut self) -> bool
        ensures same { (rest : List ℕ) → ahead self.new rest ≡ ahead self.old rest }
        ensures ready { result ≡ true → IsReady self.new }
        ensures short { result ≡ false → (self.new ≡ self.old) × IsShort self.old }
    {
        if self.lines > 0 {
            return true;
        }
        if self.inside {
            return is_some(self.unread());
        }
        self.look_at_line()
    }

    /// Reads more behind what was read; how many bytes, 0 at the end.
    #[tactic(auto, using(crate::proofs::Ahead::keeps_read, crate::proofs::Ahead::keeps_moved, crate::proofs::Parts::grown_range))]
    fn read_more<I: TellingReader>(&mut self, inner: &mut I) -> io::Result<usize>
        requires { length self.old.unread < 28 }
        ensures kept { Keeps (option_map (ahead self.old) (I.remaining inner.old))
            (option_map (ahead self.new) (I.remaining inner.new)) }
        ensures grown { IfOk result (λ count. length self.new.unread ≡ length self.old.unread + count) }
        ensures over { IfOk result (λ count. count ≡ 0 → (self.new ≡ self.old) × IsAtEnd (I.remaining inner.new)) }
        ensures failed { IfErr result (λ e. IsFault (error_kind e) → I.has_failed inner.new) }
    {
        let size = self.end - self.start;
        move_front(self.buffer.as_mut_slice(), self.start, self.end);
        self.start = 0;
        self.end = size;
        let count = ask_behind(inner, self.buffer.as_mut_slice(), size)?;
        self.end = size + count;
        Ok(count)
    }

    /// At the end of what can be read: what is left stays as it is.
    #[tactic(auto, using(crate::proofs::Ahead::ended_same))]
    fn finish(&mut self)
        requires { IsShort self.old }
        ensures same { ahead self.new [] ≡ ahead self.old [] }
        ensures settled { IsSettled self.new }
        ensures lines { self.new.lines ≡ 0 }
        ensures unread { self.new.unread ≡ self.old.unread }
        ensures inside { 1 ≤ length self.new.unread → self.new.inside ≡ true }
    {
        if is_some(self.unread()) {
            self.inside = true;
        }
    }

    /// Reads until it is known what can be given.
    #[tactic(auto, using(crate::proofs::Ahead::keeps_same, crate::proofs::Ahead::keeps_on, crate::proofs::Ahead::keeps_ended, crate::proofs::Ahead::ready_known, crate::proofs::Ahead::ended_known))]
    pub(crate) fn settle<I: TellingReader>(&mut self, inner: &mut I) -> io::Result<()>
        ensures kept { Keeps (option_map (ahead self.old) (I.remaining inner.old))
            (option_map (ahead self.new) (I.remaining inner.new)) }
        ensures known { OnOk result (IsKnown self.new (I.remaining inner.new)) }
        ensures failed { IfErr result (λ e. IsFault (error_kind e) → I.has_failed inner.new) }
    {
        'looks: loop {
            if self.look() {
                return Ok(());
            }
            if self.read_more(inner)? == 0 {
                self.finish();
                return Ok(());
            }
        }
    }

    /// So many bytes of the first line that was made are given.
    fn pass_made(&mut self, count: usize)
        requires { (1 ≤ self.old.lines) × (self.old.given + count ≤ 54) }
        ensures { PassesMade self.old self.new count }
    {
        let given = self.given + count;
        if given == MADE {
            self.lines -= 1;
            self.given = 0;
        } else {
            self.given = given;
        }
    }

    /// Gives of the first line that was made as much as there is room for; how many bytes.
    #[tactic(auto, using(crate::proofs::Ahead::made_given))]
    fn give_made(&mut self, room: &mut [u8]) -> usize
        requires { 1 ≤ self.old.lines }
        ensures within { result ≤ length room.new }
        ensures given { (rest : List ℕ) → ahead self.old rest ≡ take result room.new ++ ahead self.new rest }
        ensures some { 1 ≤ length room.old → 1 ≤ result }
    {
        let given = self.given;
        let count = room.len().min(MADE - given);
        put_front(room, &LEFT_OUT[given..given + count]);
        self.pass_made(count);
        count
    }

    /// So many bytes that were read are given, and whether the line in which they stand goes on.
    #[tactic(auto, using(crate::proofs::Parts::behind_part))]
    fn pass_read(&mut self, count: usize, inside: bool)
        requires { count ≤ length self.old.unread }
        ensures { PassesRead self.old self.new count inside }
    {
        self.start += count;
        self.inside = inside;
    }

    /// Gives of what was read as much as there is room for, up to the end of a line; how many bytes.
    #[tactic(auto, using(crate::proofs::Ahead::read_given, crate::proofs::Ahead::none_given))]
    fn give_read(&mut self, room: &mut [u8]) -> usize
        requires { (self.old.lines ≡ 0) × (self.old.inside ≡ false → self.old.unread ≡ []) }
        ensures within { result ≤ length room.new }
        ensures given { (rest : List ℕ) → ahead self.old rest ≡ take result room.new ++ ahead self.new rest }
        ensures some { 1 ≤ length self.old.unread → 1 ≤ length room.old → 1 ≤ result }
    {
        let unread = self.unread();
        let part = part_of_line(unread, room.len());
        put_front(room, &unread[..part.count]);
        let inside = goes_on(self.inside, part.ends);
        self.pass_read(part.count, inside);
        part.count
    }

    /// Gives of what can be given as much as there is room for, of one line at most; how many bytes.
    #[tactic(auto, using(crate::proofs::Ahead::ready_read))]
    pub(crate) fn give(&mut self, room: &mut [u8]) -> usize
        requires { IsSettled self.old }
        ensures within { result ≤ length room.new }
        ensures given { (rest : List ℕ) → ahead self.old rest ≡ take result room.new ++ ahead self.new rest }
        ensures some { IsReady self.old → 1 ≤ length room.old → 1 ≤ result }
    {
        if self.lines > 0 {
            return self.give_made(room);
        }
        self.give_read(room)
    }
}
