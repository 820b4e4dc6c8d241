//! What of a request that goes on is the same for all its targets (RFC 3261 16.4, 16.6): the Request-URI, and Max-Forwards lowered.
ghost use Rattle.std.specs.Prelude.{◌≡◌, IfOk, codes, false};
ghost use Rattle.std.specs.Option.{option_map_or};
ghost use Rattle.std.specs.Str.{bytes_eq};
ghost use Rattle.sip_text.specs.Splits.{split_at_byte};
ghost use Rattle.sip_edit.specs.Onward as Spec;
ghost use Rattle.sip_edit.specs.Lowering as Lowering;
ghost use Rattle.sip_header_credentials.specs.Credentials.{credentials_of, is_realm};

use sip_header_credentials::credentials_of;
use sip_message_fields::{FieldName, Value, ViewField};
use sip_message_form::View;
use sip_route::header::MaxForwards;
use sip_route::{Own, uri_left};
use sip_text::{Bytes, same_bytes, split_once};
use sip_uri::{UriError, parse_uri, write_uri};
use std::alloc::{AllocError, Global};

/// Whether what stands before the first `:` is `sip` in lower case.
fn has_plain_scheme(uri: &[u8]) -> bool
    ensures { result ≡ option_map_or (λ x. bytes_eq x.0 (codes "sip")) (split_at_byte 58 uri.now) false }
{
    match split_once(uri, b':') {
        Some((scheme, _)) => same_bytes(scheme, b"sip"),
        None => false,
    }
}

/// A SIP or SIPS URI with its scheme in lower case; another as it is. What has that scheme so is the same, whether it is a
/// URI or not.
#[tactic(auto, using(crate::proofs::Plain::stays))]
fn written_uri(alloc: Global, uri: &[u8]) -> Result<Bytes, AllocError>
    ensures { IfOk result (λ text. text ≡ Spec.written_uri uri.now) }
{
    if has_plain_scheme(uri) {
        return Bytes::copy(alloc, uri);
    }
    match parse_uri(alloc, uri) {
        Ok(uri) => write_uri(alloc, &uri),
        Err(UriError::NoMemory) => Err(AllocError),
        Err(_) => Bytes::copy(alloc, uri),
    }
}

/// The Request-URI with which a request goes on whose target is its own Request-URI: without this server's own part of
/// the way, and with its scheme in lower case (RFC 3261 16.4, 16.5). `AllocError` is the only refusal.
pub fn onward_uri(alloc: Global, own: &Own, request: &View<'_>) -> Result<Bytes, AllocError>
    ensures { IfOk result (λ uri. uri ≡ Spec.onward_uri own.now request.now) }
{
    let uri = uri_left(alloc, own, request)?;
    written_uri(alloc, uri.as_slice())
}

/// Whether a realm was named, and is this one.
fn is_realm(realm: &[u8], said: &Option<Value<'_>>) -> bool
    ensures { result ≡ is_realm realm.now said.now }
{
    match said {
        Some(said) => said.as_slice() == realm,
        None => false,
    }
}

/// Whether a value is well-formed Digest credentials of this realm. It stands apart, so that for a field of another name no
/// room is made for parameters.
#[inline(never)]
fn are_for_realm(alloc: Global, realm: &[u8], value: &[u8]) -> Result<bool, AllocError>
    ensures { IfOk result (λ are_for. are_for ≡ option_map_or (λ c. is_realm realm.now c.realm) (credentials_of value.now) false) }
{
    match credentials_of(alloc, value)? {
        Some(credentials) => Ok(is_realm(realm, &credentials.realm)),
        None => Ok(false),
    }
}

/// Whether a field has well-formed Digest credentials for a proxy of this realm (RFC 3261 22.3). `AllocError` is the only
/// refusal.
pub fn is_for_realm(alloc: Global, realm: &[u8], field: &ViewField<'_>) -> Result<bool, AllocError>
    ensures { IfOk result (λ is_for. is_for ≡ Spec.is_for_realm realm.now field.now) }
{
    if !field.name().is_same(&FieldName::ProxyAuthorization) {
        return Ok(false);
    }
    are_for_realm(alloc, realm, field.value().as_slice())
}

/// The hops that are left to a request, if it says how many it has (RFC 3261 16.6 step 3).
pub fn hops_left(hops: MaxForwards) -> Option<u8>
    ensures { result ≡ Lowering.hops_left hops }
{
    match hops {
        MaxForwards::Hops(hops) => Some(hops.saturating_sub(1)),
        MaxForwards::Absent | MaxForwards::Malformed => None,
    }
}
