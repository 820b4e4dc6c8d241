ghost use Rattle.std.specs.Prelude.{◌≡◌, ◌<◌, true, Some, [], ◌∷◌, length, IfSome};
ghost use Rattle.sip_text.specs.Lists.{cut, between_cuts};
ghost use Rattle.sip_text.specs.declared.lists.ListState.TheVariants.{Outside};

use crate::lists::is_space_or_tab;
use crate::quotes::quote_end;
use memchr::{memchr, memchr3};

/// What follows the quoted text, or the bracket, that begins a text. None where neither does, or it isn't ended.
#[tactic(auto, using(crate::proofs::OneItem::behind_quoted, crate::proofs::OneItem::behind_bracketed, crate::proofs::OneItem::shorter))]
fn behind_enclosed(text: &[u8]) -> Option<&[u8]>
    ensures one { IfSome result (λ rest. between_cuts Outside rest.now ≡ Some (rest.now ∷ []) → between_cuts Outside text.now ≡ Some (text.now ∷ [])) }
    ensures shorter { IfSome result (λ rest. length rest.now < length text.now) }
{
    match text.split_first() {
        Some((b'"', inside)) => {
            let end = quote_end(inside)?;
            let (_, rest) = inside.split_at(end + 1);
            Some(rest)
        }
        Some((b'<', inside)) => {
            let end = memchr(b'>', inside)?;
            let (_, rest) = inside.split_at(end + 1);
            Some(rest)
        }
        _ => None,
    }
}

/// Whether no comma of a text stands outside quoted text and brackets, each of which is ended: what has none of these bytes is passed
/// over by a search.
#[tactic(auto, using(crate::proofs::OneItem::none_cuts, crate::proofs::OneItem::goes_on))]
fn has_no_cut(text: &[u8]) -> bool
    ensures { result ≡ true → between_cuts Outside text.now ≡ Some (text.now ∷ []) }
{
    let mut rest = text;
    while let Some(at) = memchr3(b',', b'"', b'<', rest) {
        let (_, enclosed) = rest.split_at(at);
        let Some(behind) = behind_enclosed(enclosed) else {
            return false;
        };
        rest = behind;
    }
    true
}

/// Whether a text is seen at once to be a list of one item, which is all of it; `false` says nothing. Takes no memory.
#[tactic(auto, using(crate::proofs::OneItem::tight_item))]
pub fn is_one_item(text: &[u8]) -> bool
    ensures { result ≡ true → cut text.now ≡ Some (text.now ∷ []) }
{
    if text.is_empty() {
        return false;
    }
    if is_space_or_tab(text[0]) {
        return false;
    }
    if is_space_or_tab(text[text.len() - 1]) {
        return false;
    }
    has_no_cut(text)
}
