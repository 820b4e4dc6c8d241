//! The text of a datagram's bytes in a line `text`, written: runs of printable bytes are copied while their end is looked for.
ghost use Rattle.std.specs.Prelude.{◌≡◌, ◌≤◌, ◌<◌, ◌+◌, ◌-◌, ◌*◌, ◌++◌, ◌∷◌, [], length, take, drop, slice_index, true, false};
ghost use Rattle.hex.specs.Hex.{lower_digits};
ghost use Rattle.sip_replay_script.specs.Escaped.{byte_text, escaped, is_plain, text_with};

use crate::gathered::{LANES, copy_lanes};
use crate::plain::{is_plain_byte, plain_in_lanes};

/// The hexadecimal digits, in lower case.
static DIGITS: [u8; 16] = *b"0123456789abcdef";

/// The digit of a value.
#[inline]
fn digit(value: u8) -> u8
    requires { value < 16 }
    ensures { result ≡ slice_index lower_digits value }
{
    DIGITS[value as usize]
}

/// Puts a byte that stands for itself at a place of the room; where it ends.
#[inline(always)]
#[tactic(auto, using(crate::proofs::Escaping::plain_put))]
fn put_plain(room: &mut [u8], at: usize, byte: u8) -> usize
    requires room { at < length room.old }
    requires plain { is_plain byte ≡ true }
    ensures put { take result room.new ≡ take at room.old ++ byte_text byte }
    ensures end { result ≡ at + 1 }
    ensures len { length room.new ≡ length room.old }
{
    room[at] = byte;
    at + 1
}

/// Puts `\` and the letter of a byte at a place of the room; where they end.
#[inline(always)]
#[tactic(auto, using(crate::proofs::Escaping::letter_put))]
fn put_letter(room: &mut [u8], at: usize, byte: u8, letter: u8) -> usize
    requires room { at + 2 ≤ length room.old }
    requires letter { byte_text byte ≡ 92 ∷ letter ∷ [] }
    ensures put { take result room.new ≡ take at room.old ++ byte_text byte }
    ensures end { result ≡ at + 2 }
    ensures len { length room.new ≡ length room.old }
{
    room[at] = b'\\';
    room[at + 1] = letter;
    at + 2
}

/// Puts `\` and the digits of a byte at a place of the room; where they end.
#[inline(always)]
#[tactic(auto, using(crate::proofs::Escaping::digits_put))]
fn put_digits(room: &mut [u8], at: usize, byte: u8, high: u8, low: u8) -> usize
    requires room { at + 3 ≤ length room.old }
    requires digits { byte_text byte ≡ 92 ∷ high ∷ low ∷ [] }
    ensures put { take result room.new ≡ take at room.old ++ byte_text byte }
    ensures end { result ≡ at + 3 }
    ensures len { length room.new ≡ length room.old }
{
    room[at] = b'\\';
    room[at + 1] = high;
    room[at + 2] = low;
    at + 3
}

/// Puts the text of a byte that doesn't stand for itself at a place of the room; where it ends.
#[inline(always)]
#[tactic(auto, using(crate::proofs::ByteTexts::cr_text, crate::proofs::ByteTexts::lf_text, crate::proofs::ByteTexts::mark_text, crate::proofs::ByteTexts::other_text))]
fn put_escape(room: &mut [u8], at: usize, byte: u8) -> usize
    requires other { is_plain byte ≡ false }
    requires room { at + 3 ≤ length room.old }
    ensures put { take result room.new ≡ take at room.old ++ byte_text byte }
    ensures within { (at < result) × (result ≤ at + 3) }
    ensures len { length room.new ≡ length room.old }
{
    if byte == b'\r' {
        return put_letter(room, at, byte, b'r');
    }
    if byte == b'\n' {
        return put_letter(room, at, byte, b'n');
    }
    if byte == b'\\' {
        return put_letter(room, at, byte, b'\\');
    }
    put_digits(room, at, byte, digit(byte / 16), digit(byte % 16))
}

/// Puts the text of a byte at a place of the room; where it ends.
#[inline]
fn put_one(room: &mut [u8], at: usize, byte: u8) -> usize
    requires { at + 3 ≤ length room.old }
    ensures put { take result room.new ≡ take at room.old ++ byte_text byte }
    ensures within { (at < result) × (result ≤ at + 3) }
    ensures len { length room.new ≡ length room.old }
{
    if is_plain_byte(byte) {
        return put_plain(room, at, byte);
    }
    put_escape(room, at, byte)
}

/// How many bytes of a datagram were put, and how many bytes their text has.
#[derive(Clone, Copy)]
struct Portion {
    count: usize,
    size: usize,
}

/// Puts the text of the next bytes at a place of the room: of those that are looked at at once, up to the first that doesn't
/// stand for itself, and of that. The room behind it may change.
#[inline(always)]
fn put_lanes(room: &mut [u8], at: usize, bytes: &[u8], from: usize) -> Portion
    requires from { from + 16 ≤ length bytes.now }
    requires at { at + 48 ≤ length room.old }
    ensures put { text_with room.new (at + result.size) (drop (from + result.count) bytes.now)
        ≡ text_with room.old at (drop from bytes.now) }
    ensures some { 1 ≤ result.count }
    ensures within { from + result.count ≤ length bytes.now }
    ensures fits { result.size ≤ 3 * result.count }
    ensures len { length room.new ≡ length room.old }
{
    copy_lanes(bytes, from, room, at);
    let run = plain_in_lanes(bytes, from);
    if run < LANES {
        let end = put_escape(room, at + run, bytes[from + run]);
        return Portion {
            count: run + 1,
            size: end - at,
        };
    }
    Portion {
        count: LANES,
        size: LANES,
    }
}

/// Puts the text of all bytes but the last few, which aren't looked at at once.
#[inline(always)]
fn put_by_lanes(room: &mut [u8], at: usize, bytes: &[u8]) -> Portion
    requires { at + 3 * length bytes.now ≤ length room.old }
    ensures put { text_with room.new (at + result.size) (drop result.count bytes.now) ≡ text_with room.old at bytes.now }
    ensures within { result.count ≤ length bytes.now }
    ensures fits { result.size ≤ 3 * result.count }
    ensures len { length room.new ≡ length room.old }
{
    let mut count: usize = 0;
    let mut size: usize = 0;
    'by_lanes: while bytes.len() - count >= LANES {
        let more = put_lanes(room, at + size, bytes, count);
        count += more.count;
        size += more.size;
    }
    Portion { count, size }
}

/// Puts the text of the bytes from a place on, one by one; where it ends.
#[inline(always)]
fn put_rest(room: &mut [u8], at: usize, bytes: &[u8], from: usize) -> usize
    requires from { from ≤ length bytes.now }
    requires at { at + 3 * (length bytes.now - from) ≤ length room.old }
    ensures put { take result room.new ≡ text_with room.old at (drop from bytes.now) }
    ensures within { result ≤ at + 3 * (length bytes.now - from) }
    ensures len { length room.new ≡ length room.old }
{
    let mut done = from;
    let mut end = at;
    while done < bytes.len() {
        end = put_one(room, end, bytes[done]);
        done += 1;
    }
    end
}

/// Puts the text of a datagram at a place of the room; where it ends. Each byte takes three of the room at most. The room behind
/// it may change.
pub fn put_escaped(room: &mut [u8], at: usize, bytes: &[u8]) -> usize
    requires { at + 3 * length bytes.now ≤ length room.old }
    ensures put { take result room.new ≡ take at room.old ++ escaped bytes.now }
    ensures within { result ≤ at + 3 * length bytes.now }
    ensures len { length room.new ≡ length room.old }
{
    let front = put_by_lanes(room, at, bytes);
    put_rest(room, at + front.size, bytes, front.count)
}
