//! Tokens and decimal numbers (RFC 3261 25.1), and texts compared with and without case (7.3.1).
ghost use Rattle.std.specs.Prelude.{◌≡◌, ◌↔◌, ◌==◌, length, take_while, IsTrue, IfOk};
ghost use Rattle.std.specs.Char.{to_ascii_lowercase};
ghost use Rattle.std.specs.Str.{bytes_eq};
ghost use Rattle.std.specs.List.{list_all};
ghost use Rattle.sip_text.specs.Words.{is_token_text, token_at, behind_token, decimal_of, without_case, is_same_text};

use crate::bytes::Bytes;
use std::alloc::{AllocError, Global};

/// For each byte `1` if it may stand in a token, else `0`: one look-up is cheaper than the comparisons.
static TOKEN_BYTES: [u8; 256] = *b"\
    00000000000000000000000000000000\
    01000101001101101111111111000000\
    01111111111111111111111111100001\
    11111111111111111111111111100010\
    00000000000000000000000000000000\
    00000000000000000000000000000000\
    00000000000000000000000000000000\
    00000000000000000000000000000000";

/// Whether a byte may stand in a token (RFC 3261 25.1).
#[inline]
fn is_token_byte(byte: u8) -> bool
    ensures { result ≡ Rattle.sip_text.specs.Words.is_token_byte byte }
{
    TOKEN_BYTES[byte as usize] == b'1'
}

fn all_token_bytes(bytes: &[u8]) -> bool
    ensures { result ≡ list_all Rattle.sip_text.specs.Words.is_token_byte bytes.now }
{
    for byte in bytes {
        if !is_token_byte(*byte) {
            return false;
        }
    }
    true
}

/// Whether the bytes are a token (RFC 3261 25.1): one or more letters, digits and the ten marks.
pub fn is_token(bytes: &[u8]) -> bool
    ensures { result ≡ is_token_text bytes.now }
{
    if bytes.is_empty() {
        return false;
    }
    all_token_bytes(bytes)
}

/// How many bytes of a token stand at the front of a text. Two are looked at in a turn, which costs less for each.
#[inline(never)]
fn token_length(bytes: &[u8]) -> usize
    ensures { result ≡ length (take_while Rattle.sip_text.specs.Words.is_token_byte bytes.now) }
{
    let mut at = 0;
    while at + 1 < bytes.len() {
        if !is_token_byte(bytes[at]) {
            return at;
        }
        if !is_token_byte(bytes[at + 1]) {
            return at + 1;
        }
        at += 2;
    }
    if at < bytes.len() && is_token_byte(bytes[at]) {
        return at + 1;
    }
    at
}

/// The bytes of a token at the front of a text, which may be none, and what follows them. Takes no memory.
pub fn split_token(bytes: &[u8]) -> (&[u8], &[u8])
    ensures token { result.0.now ≡ token_at bytes.now }
    ensures rest { result.1.now ≡ behind_token bytes.now }
{
    bytes.split_at(token_length(bytes))
}

/// The number that one or more decimal digits write (RFC 3261 25.1, `1*DIGIT`), if it is below 2^64;
/// leading zeros may stand. None of any other text.
#[tactic(auto, using(crate::proofs::Decimals::decimal_is, std::proofs::lemmas::List::at_drop_more, std::proofs::lemmas::List::drop_all))]
pub fn decimal(bytes: &[u8]) -> Option<u64>
    ensures { result ≡ decimal_of bytes.now }
{
    if bytes.is_empty() {
        return None;
    }
    let mut number: u64 = 0;
    for byte in bytes {
        if !byte.is_ascii_digit() {
            return None;
        }
        number = number
            .checked_mul(10)?
            .checked_add(u64::from(*byte - b'0'))?;
    }
    Some(number)
}

/// Whether two bytes are equal, the letters `A` to `Z` compared without case.
#[inline]
fn same_letter(left: u8, right: u8) -> bool
    ensures { result ≡ (to_ascii_lowercase left == to_ascii_lowercase right) }
{
    left == right || left.eq_ignore_ascii_case(&right)
}

/// Whether two texts are equal, the letters `A` to `Z` compared without case, as names and tokens are
/// (RFC 3261 7.3.1).
pub fn same_no_case(left: &[u8], right: &[u8]) -> bool
    ensures { result ≡ is_same_text left.now right.now }
{
    if left.len() != right.len() {
        return false;
    }
    for at in 0..left.len() {
        if !same_letter(left[at], right[at]) {
            return false;
        }
    }
    true
}

/// Whether two texts are equal, byte by byte. Takes no memory.
pub fn same_bytes(left: &[u8], right: &[u8]) -> bool
    ensures value { result ≡ bytes_eq left.now right.now }
    ensures equal { IsTrue result ↔ (left.now ≡ right.now) }
{
    if left.len() != right.len() {
        return false;
    }
    for at in 0..left.len() {
        if left[at] != right[at] {
            return false;
        }
    }
    true
}

/// Whether no byte of a text is a capital letter.
fn is_lower_case(text: &[u8]) -> bool
    ensures { result ≡ list_all (λ b. to_ascii_lowercase b == b) text.now }
{
    for byte in text {
        if byte.to_ascii_lowercase() != *byte {
            return false;
        }
    }
    true
}

/// A text, byte by byte in lower case.
fn lowered(alloc: Global, text: &[u8]) -> Result<Bytes, AllocError>
    ensures { IfOk result (λ lower. lower ≡ without_case text.now) }
{
    let mut lower = Bytes::with_room(alloc, text.len())?;
    for byte in text {
        lower.push(byte.to_ascii_lowercase())?;
    }
    Ok(lower)
}

/// A text with the letters `A` to `Z` in lower case: most are so already, and are copied whole. `AllocError` is the only
/// refusal.
#[tactic(auto, using(crate::proofs::LowerCase::lower_is_itself))]
pub fn lower_case(alloc: Global, text: &[u8]) -> Result<Bytes, AllocError>
    ensures { IfOk result (λ lower. lower ≡ without_case text.now) }
{
    if is_lower_case(text) {
        return Bytes::copy(alloc, text);
    }
    lowered(alloc, text)
}
