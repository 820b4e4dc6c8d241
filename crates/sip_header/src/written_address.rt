//! Addresses of From and To, of which the plainest are read without a URI being made. `name_addr` reads every form.
ghost use Rattle.std.specs.Prelude.{◌≡◌, true, option_map, IfOk, IfSome, Some, None};
ghost use Rattle.std.specs.Str.{byte};
ghost use Rattle.sip_text.specs.Splits.{split_at_byte};
ghost use Rattle.sip_uri.specs.Aor as Aors;
ghost use Rattle.sip_header.specs.NameAddr.{name_addr_of, sip_uri};
ghost use Rattle.sip_header.specs.WrittenAddress.{uri_kept, IsOpened, IsAddressBy};

use crate::name_addr::{AnyUri, NameAddr, name_addr_of};
use crate::parameters::{Parameters, parameters_from, plain_end};
use crate::written_uri::WrittenUri;
use sip_text::{split_once, split_quoted, without_front_blanks};
use sip_uri::Aor;
use sip_uri_ref::UriRef;
use std::alloc::{AllocError, Global};
use std::marker::Model;

/// The address that a field says, whose URI is lent: of the plainest none is made.
#[derive(Drop)]
pub struct WrittenAddress<'a> {
    uri: WrittenUri<'a>,
    parameters: Parameters<'a>,
}

impl<'a> Model for WrittenAddress<'a> {
    ghost use Rattle.sip_header.specs.declared.name_addr.NameAddr.{NameAddr};
    ghost use Rattle.sip_header.specs.WrittenAddress.{uri_kept};

    ghost Value = { NameAddr };

    ghost view = { λ a. record { uri = uri_kept a.uri; parameters = a.parameters } };
}

impl<'a> WrittenAddress<'a> {
    ghost use Rattle.std.specs.Prelude.{is_some};

    /// Its parameters.
    #[inline]
    pub fn parameters(&self) -> &Parameters<'a>
        ensures { result.now ≡ self.now.parameters }
    {
        &self.parameters
    }

    /// Whether its URI is a SIP or SIPS URI.
    #[inline]
    pub fn is_sip(&self) -> bool
        ensures { result ≡ is_some (sip_uri self.now.uri) }
    {
        match &self.uri {
            WrittenUri::Sip(_) => true,
            WrittenUri::Other(_) => false,
        }
    }

    /// The address of record of its URI, if that is a SIP or SIPS URI (RFC 3261 10.3 step 5). `AllocError` is the only
    /// refusal.
    pub fn aor(&self, alloc: Global) -> Result<Option<Aor>, AllocError>
        ensures { IfOk result (λ aor. aor ≡ option_map (λ u. Aors.aor_of u) (sip_uri self.now.uri)) }
    {
        match &self.uri {
            WrittenUri::Sip(uri) => Ok(Some(uri.aor(alloc)?)),
            WrittenUri::Other(_) => Ok(None),
        }
    }
}

/// The URI of an address of any form: a SIP or SIPS one in a block of its own.
fn kept<'v>(alloc: Global, uri: AnyUri<'v>) -> Result<WrittenUri<'v>, AllocError>
    ensures { IfOk result (λ kept. uri_kept kept ≡ uri.entry) }
{
    match uri {
        AnyUri::Sip(uri) => Ok(WrittenUri::Sip(UriRef::made(alloc, uri)?)),
        AnyUri::Other(text) => Ok(WrittenUri::Other(text)),
    }
}

/// An address whose URI was made.
fn made<'v>(alloc: Global, address: NameAddr<'v>) -> Result<WrittenAddress<'v>, AllocError>
    ensures { IfOk result (λ made. made ≡ address.entry) }
{
    let (uri, parameters) = address.into_parts();
    let uri = kept(alloc, uri)?;
    Ok(WrittenAddress { uri, parameters })
}

/// Longer values are read as any is, so that none is read twice.
const USUAL_LENGTH: usize = 256;

/// What follows the `<` that stands behind a quoted display name and blanks, or nothing. None says nothing.
fn behind_name(value: &[u8]) -> Option<&[u8]>
    ensures { IfSome result (λ text. IsOpened value.now text.now) }
{
    let (_, behind) = split_quoted(value)?;
    let Some((b'<', text)) = without_front_blanks(behind).split_first() else {
        return None;
    };
    Some(text)
}

/// What follows the `<` of an address, behind a display name that is quoted or none. None says nothing.
#[inline(always)]
#[tactic(auto, using(crate::proofs::WrittenAddresses::opened_alone))]
fn behind_opening(value: &[u8]) -> Option<&[u8]>
    ensures { IfSome result (λ text. IsOpened value.now text.now) }
{
    match value.split_first() {
        Some((b'<', text)) => Some(text),
        _ => behind_name(value),
    }
}

/// The plain URI of an address in brackets, and what follows the first `;` behind it. None says nothing.
#[inline(always)]
fn bracketed_uri(value: &[u8]) -> Option<(UriRef<'_>, Option<&[u8]>)>
    ensures { IfSome result (λ x. IsAddressBy value.now x.0 (option_map (λ y. y.now) x.1)) }
{
    let text = behind_opening(value)?;
    let (uri, closing) = UriRef::plain_at(text)?;
    let Some((b'>', rest)) = closing.split_first() else {
        return None;
    };
    let behind = plain_end(rest)?;
    Some((uri, behind))
}

/// Whether no `<` stands in a text.
fn has_no_bracket(text: &[u8]) -> bool
    ensures { result ≡ true → split_at_byte (byte "<") text.now ≡ None }
{
    split_once(text, b'<').is_none()
}

/// The plain URI of an address without brackets, and what follows its `;`, in which there is no `<`. None says nothing.
fn bare_uri(value: &[u8]) -> Option<(UriRef<'_>, Option<&[u8]>)>
    ensures { IfSome result (λ x. IsAddressBy value.now x.0 (option_map (λ y. y.now) x.1)) }
{
    let (uri, rest) = UriRef::plain_at(value)?;
    if !has_no_bracket(rest) {
        return None;
    }
    let behind = plain_end(rest)?;
    Some((uri, behind))
}

/// The plain URI of an address, in brackets or without, and what follows the first `;` behind it. None says nothing.
#[inline(always)]
fn plain_uri(value: &[u8]) -> Option<(UriRef<'_>, Option<&[u8]>)>
    ensures { IfSome result (λ x. IsAddressBy value.now x.0 (option_map (λ y. y.now) x.1)) }
{
    match value.split_first() {
        Some((b'<', _)) => bracketed_uri(value),
        Some((b'"', _)) => bracketed_uri(value),
        _ => bare_uri(value),
    }
}

/// An address as phones write it: a URI without parameters of its own, in brackets, with a quoted display name in front or none, or
/// without brackets, and header parameters behind. Each byte is read once. None says nothing.
fn plain_address(value: &[u8]) -> Option<WrittenAddress<'_>>
    ensures { IfSome result (λ address. name_addr_of value.now ≡ Some address) }
{
    if USUAL_LENGTH < value.len() {
        return None;
    }
    let (uri, behind) = plain_uri(value)?;
    let parameters = parameters_from(behind)?;
    let uri = WrittenUri::Sip(uri);
    Some(WrittenAddress { uri, parameters })
}

/// What the value of a field says that holds an address of any form. It stands apart, so that no room is made for a URI where
/// none is read.
#[inline(never)]
fn any_address(alloc: Global, value: &[u8]) -> Result<Option<WrittenAddress<'_>>, AllocError>
    ensures { IfOk result (λ found. found ≡ name_addr_of value.now) }
{
    match name_addr_of(alloc, value)? {
        Some(address) => Ok(Some(made(alloc, address)?)),
        None => Ok(None),
    }
}

/// What the value of a field says that holds an address, as `name_addr_of` does. None where it is malformed. `AllocError`
/// is the only refusal.
#[inline(always)]
pub fn written_address_of(
    alloc: Global,
    value: &[u8],
) -> Result<Option<WrittenAddress<'_>>, AllocError>
    ensures { IfOk result (λ found. found ≡ name_addr_of value.now) }
{
    if let Some(address) = plain_address(value) {
        return Ok(Some(address));
    }
    any_address(alloc, value)
}
