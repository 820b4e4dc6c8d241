//! What the first line of an event says: its words, and the moments, addresses and numbers that they hold.
//! How events are written is in `event_text`.
ghost use Rattle.std.specs.Prelude.{◌≡◌, ◌≤◌, ◌<◌, ◌+◌, length, IfOk, IfSome, Some, None, MatchOption, codes, true, false, take, drop, option_map};
ghost use Rattle.std.specs.Str.{bytes_eq};
ghost use Rattle.memchr.specs.Find.{IsFirstByte, is_byte};
ghost use Rattle.sip_text.specs.Numbers;
ghost use Rattle.sip_text.specs.Splits.{split_at_byte};
ghost use Rattle.sip_replay_script.specs.Script;
ghost use Rattle.sip_replay_script.specs.Script.{IsNumberBefore, IsSourceBefore, IsWordBefore, SaysAtOnce};
ghost use Rattle.sip_replay_script.specs.declared.script.EventLine.TheVariants.{Head, Whole};
ghost use Rattle.sip_event.specs.declared.event.Event.TheVariants.{Time};

use crate::unescaped::text_bytes;
use memchr::memchr_iter;
use sip_digest::word_of;
use sip_event::{Event, Ticket};
use sip_text::{hex_bytes, plain_decimal, plain_decimal_below, same_bytes, split_once};
use sip_uri::{Addr, addr_of};
use std::alloc::{AllocError, Global};

/// The first moment that is too large, in milliseconds.
const TOO_LARGE: u64 = 0x4000_0000_0000_0000;

/// The most bytes that an address in front of a space has, with the space.
const LONGEST_SOURCE: usize = 22;

/// A datagram without its bytes: the moment in milliseconds, the word of a nonce, and the source.
#[derive(Clone, Copy)]
pub struct DatagramHead {
    pub at: u64,
    pub word: u128,
    pub from: Addr,
}

/// What the first line of an event says.
#[derive(Drop)]
pub enum EventLine {
    /// A datagram whose bytes stand in the lines that follow.
    Head(DatagramHead),
    /// An event that the line holds whole.
    Whole(Event),
}

/// A moment that the server takes.
fn at_of(text: &[u8]) -> Option<u64>
    ensures { result ≡ Script.at_of text.now }
{
    plain_decimal_below(text, TOO_LARGE)
}

fn branch_of(digits: &[u8]) -> Option<u32>
    ensures { result ≡ Numbers.plain_decimal_below 0x1_0000_0000 digits.now }
{
    let number = plain_decimal_below(digits, 0x1_0000_0000)?;
    Some(number as u32)
}

fn ticket_of(text: &[u8]) -> Option<Ticket>
    ensures { result ≡ Script.ticket_of text.now }
{
    let (datagram, branch) = split_once(text, b'/')?;
    let datagram = plain_decimal(datagram)?;
    let branch = branch_of(branch)?;
    Some(Ticket { datagram, branch })
}

fn head_of(at: &[u8], from: &[u8], word: &[u8]) -> Option<DatagramHead>
    ensures { result ≡ Script.head_of at.now from.now word.now }
{
    let at = at_of(at)?;
    let from = addr_of(from)?;
    let word = word_of(word)?;
    Some(DatagramHead { at, word, from })
}

/// The place of the first space, of a text with much behind it.
fn first_space(text: &[u8]) -> Option<usize>
    ensures { IsFirstByte (is_byte 32) text.now result }
{
    memchr_iter(b' ', text).next()
}

/// What stands before the first space, and what follows it, of such a text.
fn split_at_space(text: &[u8]) -> Option<(&[u8], &[u8])>
    ensures { option_map (λ x. (x.0.now, x.1.now)) result ≡ split_at_byte 32 text.now }
{
    let place = first_space(text)?;
    let (front, rest) = text.split_at(place);
    let (_, rest) = rest.split_first()?;
    Some((front, rest))
}

/// The head behind the word `datagram`.
fn datagram_head(text: &[u8]) -> Option<DatagramHead>
    ensures { MatchOption result (Script.datagram_line text.now ≡ None) (λ head. Script.datagram_line text.now ≡ Some (Head head)) }
{
    let (at, rest) = split_once(text, b' ')?;
    let (from, word) = split_at_space(rest)?;
    head_of(at, from, word)
}

/// What follows the word `datagram` and a space, if a text begins with them.
#[tactic(auto, using(crate::proofs::DatagramWord::too_short))]
fn behind_datagram(text: &[u8]) -> Option<&[u8]>
    ensures { MatchOption result (bytes_eq (take 9 text.now) (codes "datagram ") ≡ false)
        (λ rest. (bytes_eq (take 9 text.now) (codes "datagram ") ≡ true) × (rest.now ≡ drop 9 text.now)) }
{
    if text.len() >= 9 && same_bytes(&text[..9], b"datagram ") {
        Some(&text[9..])
    } else {
        None
    }
}

fn datagram_line(text: &[u8]) -> Option<EventLine>
    ensures { result ≡ Script.datagram_line text.now }
{
    match datagram_head(text) {
        Some(head) => Some(EventLine::Head(head)),
        None => None,
    }
}

fn time_line(text: &[u8]) -> Option<EventLine>
    ensures { result ≡ Script.time_line text.now }
{
    let at = at_of(text)?;
    Some(EventLine::Whole(Event::Time { at }))
}

fn fault_line(text: &[u8]) -> Option<EventLine>
    ensures { result ≡ Script.fault_line text.now }
{
    let (at, ticket) = split_once(text, b' ')?;
    let at = at_of(at)?;
    let ticket = ticket_of(ticket)?;
    Some(EventLine::Whole(Event::Fault { at, ticket }))
}

/// The head behind the word `text` or `hex`, and what stands behind it.
fn head_parts(text: &[u8]) -> Option<(DatagramHead, &[u8])>
    ensures { MatchOption result (Script.head_parts text.now ≡ None) (λ parts. Script.head_parts text.now ≡ Some (parts.0, parts.1.now)) }
{
    let (at, rest) = split_once(text, b' ')?;
    let (from, rest) = split_at_space(rest)?;
    let (word, behind) = split_once(rest, b' ')?;
    let head = head_of(at, from, word)?;
    Some((head, behind))
}

fn text_line(alloc: Global, text: &[u8]) -> Result<Option<EventLine>, AllocError>
    ensures { IfOk result (λ line. line ≡ Script.text_line text.now) }
{
    let Some((head, escaped)) = head_parts(text) else {
        return Ok(None);
    };
    match text_bytes(alloc, escaped)? {
        Some(bytes) => Ok(Some(EventLine::Whole(Event::Datagram {
            at: head.at,
            word: head.word,
            from: head.from,
            bytes,
        }))),
        None => Ok(None),
    }
}

fn hex_line(alloc: Global, text: &[u8]) -> Result<Option<EventLine>, AllocError>
    ensures { IfOk result (λ line. line ≡ Script.hex_line text.now) }
{
    let Some((head, digits)) = head_parts(text) else {
        return Ok(None);
    };
    match hex_bytes(alloc, digits)? {
        Some(bytes) => Ok(Some(EventLine::Whole(Event::Datagram {
            at: head.at,
            word: head.word,
            from: head.from,
            bytes,
        }))),
        None => Ok(None),
    }
}

/// What a line says whose first word isn't `datagram`.
fn line_of_kind(alloc: Global, kind: &[u8], rest: &[u8]) -> Result<Option<EventLine>, AllocError>
    requires { bytes_eq kind.now (codes "datagram") ≡ false }
    ensures { IfOk result (λ line. line ≡ Script.line_of_kind kind.now rest.now) }
{
    if same_bytes(kind, b"text") {
        return text_line(alloc, rest);
    }
    if same_bytes(kind, b"hex") {
        return hex_line(alloc, rest);
    }
    if same_bytes(kind, b"time") {
        return Ok(time_line(rest));
    }
    if same_bytes(kind, b"fault") {
        return Ok(fault_line(rest));
    }
    Ok(None)
}

/// The number that at most so many decimal digits without leading zeros write from a place on, in front of a mark, and the place
/// behind that. None says nothing.
#[inline(always)]
#[tactic(auto, using(crate::proofs::HeadAtOnce::no_digits, crate::proofs::HeadAtOnce::one_more, crate::proofs::HeadAtOnce::fits, crate::proofs::HeadAtOnce::number_is, crate::proofs::HeadAtOnce::number_before))]
fn number_before(text: &[u8], from: usize, most: usize, mark: u8) -> Option<(u64, usize)>
    requires { (from + most < length text.now) × (most ≤ 19) }
    ensures number { IfSome result (λ found. IsNumberBefore text.now from mark found.0 found.1) }
    ensures most { IfSome result (λ found. found.1 ≤ from + most + 1) }
{
    let mut number: u64 = 0;
    let mut count: usize = 0;
    while text[from + count] != mark {
        if count == most {
            return None;
        }
        if !text[from + count].is_ascii_digit() {
            return None;
        }
        number = number * 10 + u64::from(text[from + count] - b'0');
        count += 1;
    }
    if count == 0 || count > 1 && text[from] == b'0' {
        return None;
    }
    Some((number, from + count + 1))
}

/// The address in front of a space, and the place behind that. At least as many bytes follow as such an address has.
#[inline(always)]
#[tactic(auto, using(crate::proofs::HeadAtOnce::source_before))]
fn source_before_space(text: &[u8], from: usize) -> Option<(Addr, usize)>
    requires { from ≤ length text.now }
    ensures { IfSome result (λ found. IsSourceBefore text.now from found.0 found.1) }
{
    if text.len() - from < LONGEST_SOURCE {
        return None;
    }
    let (first, at) = number_before(text, from, 3, b'.')?;
    let (second, at) = number_before(text, at, 3, b'.')?;
    let (third, at) = number_before(text, at, 3, b'.')?;
    let (fourth, at) = number_before(text, at, 3, b':')?;
    let (port, next) = number_before(text, at, 5, b' ')?;
    if first > 255 || second > 255 || third > 255 || fourth > 255 {
        return None;
    }
    if port == 0 || port > 65535 {
        return None;
    }
    let ip = [first as u8, second as u8, third as u8, fourth as u8];
    let port = port as u16;
    Some((Addr { ip, port }, next))
}

/// The word in front of LF, and the place of that.
#[inline(always)]
fn word_before_end(text: &[u8], from: usize) -> Option<(u128, usize)>
    requires { from ≤ length text.now }
    ensures { IfSome result (λ found. IsWordBefore text.now from found.0 found.1) }
{
    if text.len() - from <= 32 || text[from + 32] != b'\n' {
        return None;
    }
    let word = word_of(&text[from..from + 32])?;
    Some((word, from + 32))
}

/// The head that a line `datagram AT IP:PORT WORD` at the front of a text says, and how many bytes that line has, which LF ends.
/// It is read from one end to the other, its end found on the way: most lines are one. None says nothing.
#[inline(never)]
pub(crate) fn head_at_once(text: &[u8]) -> Option<(DatagramHead, usize)>
    ensures { IfSome result (λ found. SaysAtOnce text.now (Head found.0) found.1) }
{
    if text.len() < 29 || !same_bytes(&text[..9], b"datagram ") {
        return None;
    }
    let (at, next) = number_before(text, 9, 19, b' ')?;
    if at >= TOO_LARGE {
        return None;
    }
    let (from, next) = source_before_space(text, next)?;
    let (word, count) = word_before_end(text, next)?;
    Some((DatagramHead { at, word, from }, count))
}

/// The moment that a line `time AT` at the front of a text says, and how many bytes that line has, which LF ends. None says nothing.
#[inline(always)]
pub(crate) fn time_at_once(text: &[u8]) -> Option<(u64, usize)>
    ensures { IfSome result (λ found. SaysAtOnce text.now (Whole (Time found.0)) found.1) }
{
    if text.len() < 25 || !same_bytes(&text[..5], b"time ") {
        return None;
    }
    let (at, next) = number_before(text, 5, 19, b'\n')?;
    if at >= TOO_LARGE {
        return None;
    }
    Some((at, next - 1))
}

/// What an event's first line says: `datagram AT IP:PORT WORD`, `text AT IP:PORT WORD TEXT`, `hex AT IP:PORT WORD DIGITS`,
/// `time AT` or `fault AT D/K`; `None` where it is any other line. Moments are in milliseconds below 2^62.
pub fn line_of(alloc: Global, text: &[u8]) -> Result<Option<EventLine>, AllocError>
    ensures { IfOk result (λ line. line ≡ Script.line_of text.now) }
{
    if let Some(rest) = behind_datagram(text) {
        return Ok(datagram_line(rest));
    }
    match split_once(text, b' ') {
        Some((kind, rest)) => line_of_kind(alloc, kind, rest),
        None => Ok(None),
    }
}

/// A line of a datagram without the `.` that it may begin with.
pub fn unstuffed(line: &[u8]) -> &[u8]
    ensures { result.now ≡ Script.unstuffed line.now }
{
    if !line.is_empty() && line[0] == b'.' {
        &line[1..]
    } else {
        line
    }
}
