//! Quoted text (RFC 3261 25.1, `quoted-string`): where it ends, what it says, and whether a text is one.
ghost use Rattle.std.specs.Prelude.{◌≡◌, ◌<◌, [], ◌∷◌, ◌++◌, true, length, is_some, Some, IfSome, MatchOption};
ghost use Rattle.sip_text.specs.Escapes.{unquoted, inside_quotes, with_front, at_end, plain_front};
ghost use Rattle.sip_text.specs.Reading.{Reads};
ghost use Rattle.sip_text.specs.Cuts as Cuts;
ghost use Rattle.sip_text.specs.declared.cuts.Quoting.TheVariants.{Inside};

use crate::bytes::Bytes;
use crate::error::TextError;
use memchr::memchr2;
use std::alloc::Global;

/// The byte that stands at the front of a quoted text's rest, and what follows it. None at its end.
fn quoted_byte(rest: &[u8]) -> Option<(u8, &[u8])>
    ensures { MatchOption result (inside_quotes rest.now ≡ at_end rest.now)
        (λ x. (length x.1.now < length rest.now) × (inside_quotes rest.now ≡ with_front (x.0 ∷ []) (inside_quotes x.1.now))) }
{
    let (first, after) = rest.split_first()?;
    if *first == b'"' {
        return None;
    }
    let (second, behind) = after.split_first()?;
    if *first == b'\\' {
        Some((*second, behind))
    } else {
        Some((*first, after))
    }
}

/// What quoted text says: the bytes between its quotes, each `\` standing for the byte behind it
/// (RFC 3261 25.1, `quoted-string`). Refused `Unbalanced` where the text is not a `"`, such bytes and a
/// `"`, `NoMemory` where memory runs out.
pub fn unquote(alloc: Global, text: &[u8]) -> Result<Bytes, TextError>
    ensures { Reads (λ bytes. bytes) TextError.Unbalanced result (unquoted text.now) }
{
    let Some((b'"', inside)) = text.split_first() else {
        return Err(TextError::Unbalanced);
    };
    let mut bytes = Bytes::with_room(alloc, inside.len())?;
    let mut rest = inside;
    while let Some((byte, after)) = quoted_byte(rest) {
        bytes.push(byte)?;
        rest = after;
    }
    match rest {
        [b'"'] => Ok(bytes),
        _ => Err(TextError::Unbalanced),
    }
}

/// How many bytes stand before the `"` that ends the quoted text which goes on here (RFC 3261 25.1, `quoted-string`): what has
/// neither `"` nor `\` is passed over by a search. None where it isn't ended. Takes no memory.
#[tactic(auto, using(crate::proofs::QuoteEnds::begun, crate::proofs::QuoteEnds::ended, crate::proofs::QuoteEnds::pair_open, crate::proofs::QuoteEnds::never_ended))]
pub(crate) fn quote_end(inside: &[u8]) -> Option<usize>
    ensures end { result ≡ Cuts.quote_end Inside inside.now }
    ensures within { IfSome result (λ n. n < length inside.now) }
{
    let mut rest = inside;
    while let Some(at) = memchr2(b'"', b'\\', rest) {
        let (_, stop) = rest.split_at(at);
        if stop[0] == b'"' {
            return Some(inside.len() - stop.len());
        }
        if stop.len() < 2 {
            return None;
        }
        let (_, behind) = stop.split_at(2);
        rest = behind;
    }
    None
}

/// The quoted text that a text begins with (RFC 3261 25.1, `quoted-string`), its quotes among it, and what follows. None where it
/// begins with none. Takes no memory.
#[tactic(auto, using(crate::proofs::QuoteEnds::quoted_whole, crate::proofs::QuoteEnds::front_quoted))]
pub fn split_quoted(text: &[u8]) -> Option<(&[u8], &[u8])>
    ensures whole { IfSome result (λ x. text.now ≡ x.0.now ++ x.1.now) }
    ensures quoted { IfSome result (λ x. is_some (unquoted x.0.now) ≡ true) }
{
    let Some((b'"', inside)) = text.split_first() else {
        return None;
    };
    let end = quote_end(inside)?;
    Some(text.split_at(end + 2))
}

/// Whether a text is quoted text (RFC 3261 25.1, `quoted-string`).
#[tactic(auto, using(crate::proofs::QuoteEnds::is_whole, crate::proofs::QuoteEnds::is_open))]
pub fn is_quoted(text: &[u8]) -> bool
    ensures { result ≡ is_some (unquoted text.now) }
{
    let Some((b'"', inside)) = text.split_first() else {
        return false;
    };
    match quote_end(inside) {
        Some(end) => end + 1 == inside.len(),
        None => false,
    }
}

/// How many bytes stand for themselves at the front of a text.
fn plain_length(bytes: &[u8]) -> usize
    ensures { result ≡ length (plain_front bytes.now) }
{
    for at in 0..bytes.len() {
        if bytes[at] == b'"' || bytes[at] == b'\\' {
            return at;
        }
    }
    bytes.len()
}

/// The rest of quoted text before its last `"`, where each byte of it stands for itself.
fn plain_inside(inside: &[u8]) -> Option<&[u8]>
    ensures { IfSome result (λ part. inside_quotes inside.now ≡ Some part.now) }
{
    let (front, behind) = inside.split_at(plain_length(inside));
    if behind == b"\"".as_slice() {
        Some(front)
    } else {
        None
    }
}

/// What quoted text says where it stands so between the quotes, as a part of the text. None of quoted text with a
/// `\`, and of any other text.
pub fn plain_quoted(text: &[u8]) -> Option<&[u8]>
    ensures { IfSome result (λ part. unquoted text.now ≡ Some part.now) }
{
    let Some((b'"', inside)) = text.split_first() else {
        return None;
    };
    plain_inside(inside)
}
