ghost use Rattle.std.specs.Prelude.{◌≡◌, ◌++◌, codes, option_map, IfOk, IfSome, Some};
ghost use Rattle.std.specs.Option.{option_and_then};
ghost use Rattle.sip_header.specs.NameAddr.{name_addr_of};
ghost use Rattle.sip_header.specs.Parameters.{tag_of};
ghost use Rattle.sip_dialog_updates.specs.Tag.{SaysTag};

use sip_header::{tag_of, written_address_of};
use sip_text::split_token;
use sip_uri::plain_uri_at;
use std::alloc::{AllocError, Global};

/// Values of more bytes are read as any is, so that none is read twice.
const USUAL_LENGTH: usize = 256;

/// What follows a `;tag=` at the front of a text, if one stands there so.
#[inline]
fn behind_tag(text: &[u8]) -> Option<&[u8]>
    ensures { IfSome result (λ rest. text.now ≡ codes ";tag=" ++ rest.now) }
{
    let Some((b';', rest)) = text.split_first() else {
        return None;
    };
    let Some((b't', rest)) = rest.split_first() else {
        return None;
    };
    let Some((b'a', rest)) = rest.split_first() else {
        return None;
    };
    let Some((b'g', rest)) = rest.split_first() else {
        return None;
    };
    let Some((b'=', rest)) = rest.split_first() else {
        return None;
    };
    Some(rest)
}

/// The tag that stands alone behind an address, and is a token. None says nothing.
#[inline]
#[tactic(auto, using(crate::proofs::PlainTags::says_tag))]
fn one_tag(rest: &[u8]) -> Option<&[u8]>
    ensures { IfSome result (λ tag. SaysTag rest.now tag.now) }
{
    let text = behind_tag(rest)?;
    let (tag, behind) = split_token(text);
    if tag.is_empty() {
        return None;
    }
    if !behind.is_empty() {
        return None;
    }
    Some(tag)
}

/// The tag of an address as most are written that have one: a URI in brackets without parameters of its own, and the tag
/// alone behind it. None says nothing.
fn plain_tag(value: &[u8]) -> Option<&[u8]>
    ensures { IfSome result (λ tag. option_and_then (λ address. tag_of address.parameters) (name_addr_of value.now) ≡ Some tag.now) }
{
    if USUAL_LENGTH < value.len() {
        return None;
    }
    let Some((b'<', text)) = value.split_first() else {
        return None;
    };
    let (_, _, closing) = plain_uri_at(text)?;
    let Some((b'>', rest)) = closing.split_first() else {
        return None;
    };
    let tag = one_tag(rest)?;
    Some(tag)
}

/// The tag of an address in any form. It stands apart, so that no room is made for an address where none is read.
#[inline(never)]
fn any_tag(alloc: Global, value: &[u8]) -> Result<Option<&[u8]>, AllocError>
    ensures { IfOk result (λ tag. option_map (λ x. x.now) tag ≡ option_and_then (λ address. tag_of address.parameters) (name_addr_of value.now)) }
{
    match written_address_of(alloc, value)? {
        Some(address) => Ok(tag_of(address.parameters())),
        None => Ok(None),
    }
}

/// The tag of the value of a field that holds an address, as To does (RFC 3261 19.3). None where it has none, or is malformed.
pub(crate) fn written_tag_of(alloc: Global, value: &[u8]) -> Result<Option<&[u8]>, AllocError>
    ensures { IfOk result (λ tag. option_map (λ x. x.now) tag ≡ option_and_then (λ address. tag_of address.parameters) (name_addr_of value.now)) }
{
    if let Some(tag) = plain_tag(value) {
        return Ok(Some(tag));
    }
    any_tag(alloc, value)
}
