//! Texts cut at a byte outside quoted text (RFC 3261 25.1: `quoted-string`), or behind their first word. Lists are cut in `lists`.
ghost use Rattle.std.specs.Prelude.{◌≡◌, ◌<◌, ◌∷◌, length, take_while, option_map, IfSome};
ghost use Rattle.sip_text.specs.Cuts as Definitions;
ghost use Rattle.sip_text.specs.Cuts.{parts_at, parts_behind, is_full, word_at, behind_word};

use crate::lists::{is_space_or_tab, without_front_blanks};
use crate::quotes::quote_end;

/// Where a byte stands as to quoted text, in definitions alone: no code goes byte by byte through it.
pub enum Quoting {
    Outside,
    Inside,
    Escaped,
}

/// What stands before the first of a byte outside quoted text (RFC 3261 25.1, `quoted-string`), and what
/// follows it. Quoted text is passed over as a whole. Takes no memory.
#[tactic(auto, using(crate::proofs::CutsOutside::split_ends, crate::proofs::CutsOutside::split_goes_on, crate::proofs::CutsOutside::split_nowhere))]
pub fn split_outside(bytes: &[u8], mark: u8) -> Option<(&[u8], &[u8])>
    ensures { option_map (λ x. (x.0.now, x.1.now)) result ≡ Definitions.split_outside mark bytes.now }
{
    let mut at = 0;
    while at < bytes.len() {
        let byte = bytes[at];
        if byte == mark {
            return Some((&bytes[..at], &bytes[at + 1..]));
        }
        if byte == b'"' {
            let (_, inside) = bytes.split_at(at + 1);
            let end = quote_end(inside)?;
            at += end + 2;
            continue;
        }
        at += 1;
    }
    None
}

/// The part of a text before the first of a byte outside quoted text, and what follows that byte, if it is there.
/// Takes no memory.
#[tactic(auto, using(crate::proofs::CutsOutside::parts_split, crate::proofs::CutsOutside::one_part, crate::proofs::CutsOutside::is_shorter))]
pub fn first_part(bytes: &[u8], mark: u8) -> (&[u8], Option<&[u8]>)
    ensures parts { parts_at mark bytes.now ≡ result.0.now ∷ parts_behind mark (option_map (λ x. x.now) result.1) }
    ensures shorter { IfSome result.1 (λ rest. length rest.now < length bytes.now) }
{
    match split_outside(bytes, mark) {
        Some((part, rest)) => (part, Some(rest)),
        None => (bytes, None),
    }
}

fn length_of_word(bytes: &[u8]) -> usize
    ensures { result ≡ length (take_while is_full bytes.now) }
{
    for at in 0..bytes.len() {
        if is_space_or_tab(bytes[at]) {
            return at;
        }
    }
    bytes.len()
}

/// The bytes before the first space or tab, and what follows the spaces and tabs there.
pub fn split_word(bytes: &[u8]) -> (&[u8], &[u8])
    ensures word { result.0.now ≡ word_at bytes.now }
    ensures rest { result.1.now ≡ behind_word bytes.now }
{
    let (word, rest) = bytes.split_at(length_of_word(bytes));
    (word, without_front_blanks(rest))
}
