//! The bytes of a datagram, read from its text in a line `text`. Each datagram has one text there, and any other is refused.
ghost use Rattle.std.specs.Prelude.{◌≡◌, ◌<◌, length, IfOk, IfSome, None, MatchOption};
ghost use Rattle.sip_digest.specs.NonceText;
ghost use Rattle.sip_replay_script.specs.Escaped;
ghost use Rattle.sip_replay_script.specs.Escaped.{unescaped, unescaped_from, with_byte, BeginsOther, Mark, Digit};

use crate::plain::{first_other, is_plain_byte};
use sip_text::Bytes;
use std::alloc::{AllocError, Global};

/// The byte that a letter behind `\` stands for.
fn letter_byte(letter: u8) -> Option<u8>
    ensures { result ≡ Escaped.letter_byte letter }
{
    if letter == b'r' {
        return Some(b'\r');
    }
    if letter == b'n' {
        return Some(b'\n');
    }
    if letter == b'\\' {
        return Some(b'\\');
    }
    None
}

/// The value of a hexadecimal digit in lower case.
fn lower_value(digit: u8) -> Option<u8>
    ensures value { result ≡ NonceText.lower_value digit }
    ensures small { IfSome result (λ value. value < 16) }
{
    match digit {
        b'0'..=b'9' => Some(digit - b'0'),
        b'a'..=b'f' => Some(digit - 87),
        _ => None,
    }
}

/// Whether a byte is written with its digits.
fn has_digits(byte: u8) -> bool
    ensures { result ≡ Escaped.has_digits byte }
{
    !is_plain_byte(byte) && byte != b'\r' && byte != b'\n' && byte != b'\\'
}

/// A byte, if it is.
fn if_digits(byte: u8) -> Option<u8>
    ensures { result ≡ Escaped.if_digits byte }
{
    if has_digits(byte) { Some(byte) } else { None }
}

/// The byte that two digits behind `\` stand for.
fn digits_byte(high: u8, low: u8) -> Option<u8>
    ensures { result ≡ Escaped.digits_byte high low }
{
    let high = lower_value(high)?;
    let low = lower_value(low)?;
    if_digits(16 * high + low)
}

/// The byte of an escape whose second digit stands at the front, and what follows it.
#[tactic(auto, using(crate::proofs::Unescaping::digit_only, crate::proofs::Unescaping::digit_said, crate::proofs::Unescaping::digit_bad))]
fn behind_digit(high: u8, text: &[u8]) -> Option<(u8, &[u8])>
    ensures { MatchOption result (unescaped_from text.now (Digit high) ≡ None)
        (λ x. (unescaped_from text.now (Digit high) ≡ with_byte x.0 (unescaped x.1.now)) × (length x.1.now < length text.now)) }
{
    let (low, rest) = text.split_first()?;
    let byte = digits_byte(high, *low)?;
    Some((byte, rest))
}

/// The byte of an escape of which what stands behind its `\` is at the front, and what follows it.
#[tactic(auto, using(crate::proofs::Unescaping::mark_only, crate::proofs::Unescaping::letter_said, crate::proofs::Unescaping::letter_goes))]
fn behind_mark(text: &[u8]) -> Option<(u8, &[u8])>
    ensures { MatchOption result (unescaped_from text.now Mark ≡ None)
        (λ x. (unescaped_from text.now Mark ≡ with_byte x.0 (unescaped x.1.now)) × (length x.1.now < length text.now)) }
{
    let (letter, rest) = text.split_first()?;
    if let Some(byte) = letter_byte(*letter) {
        return Some((byte, rest));
    }
    let (byte, rest) = behind_digit(*letter, rest)?;
    Some((byte, rest))
}

/// The byte of an escape at the front, and what follows it.
#[tactic(auto, using(crate::proofs::Unescaping::none_first, crate::proofs::Unescaping::other_first, crate::proofs::Unescaping::mark_goes))]
fn escape_at(text: &[u8]) -> Option<(u8, &[u8])>
    requires { BeginsOther text.now }
    ensures { MatchOption result (unescaped text.now ≡ None)
        (λ x. (unescaped text.now ≡ with_byte x.0 (unescaped x.1.now)) × (length x.1.now < length text.now)) }
{
    let (mark, rest) = text.split_first()?;
    if *mark != b'\\' {
        return None;
    }
    let (byte, rest) = behind_mark(rest)?;
    Some((byte, rest))
}

/// The bytes that a whole text says. Runs of printable ones are copied at once.
fn unescape(alloc: Global, text: &[u8]) -> Result<Option<Bytes>, AllocError>
    ensures { IfOk result (λ bytes. bytes ≡ unescaped text.now) }
{
    let mut bytes = Bytes::with_room(alloc, text.len())?;
    let mut rest = text;
    while let Some(at) = first_other(rest) {
        let (plain, escape) = rest.split_at(at);
        bytes.extend(plain)?;
        let Some((byte, after)) = escape_at(escape) else {
            return Ok(None);
        };
        bytes.push(byte)?;
        rest = after;
    }
    bytes.extend(rest)?;
    Ok(Some(bytes))
}

/// The bytes that the text of a line says, one at least. None of any other text; `AllocError` is the only refusal.
pub(crate) fn text_bytes(alloc: Global, text: &[u8]) -> Result<Option<Bytes>, AllocError>
    ensures { IfOk result (λ bytes. bytes ≡ Escaped.text_bytes_of text.now) }
{
    if text.is_empty() {
        return Ok(None);
    }
    unescape(alloc, text)
}
