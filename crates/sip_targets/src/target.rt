//! One target of a request (RFC 3261 16.5): the Request-URI that a contact becomes, and the address at which it is.
//! Which targets a request has is said in `target_set`.
ghost use Rattle.std.specs.Prelude.{◌≡◌, ◌⊎◌, [], codes, true, not, filter, IfOk, OnOk};
ghost use Rattle.sip_uri.specs.Uri.{IsValid};
ghost use Rattle.sip_location.specs.KeptBinding.{uri_in, IsUriText};
ghost use Rattle.sip_targets.specs.Target as Definitions;
ghost use Rattle.sip_targets.specs.Target.{target_for};

use crate::target_uri::TargetUri;
use sip_hops::Hops;
use sip_text::{Bytes, Items};
use sip_uri::{Addr, Uri, UriError, UriParameter, parse_uri, write_uri};
use sip_uri_equality::says_same_no_case;
use sip_uri_ref::UriRef;
use std::alloc::{AllocError, Global};

/// A place that a request is sent to (RFC 3261 16.5).
pub struct Target {
    /// The Request-URI that goes there.
    pub uri: TargetUri,
    /// None: nothing can be sent, and the branch counts as answered 503.
    pub address: Option<Addr>,
}

/// Written out, so that it is proved once and not wherever one is dropped.
impl Drop for Target {
    fn drop(self) {
        let Target { uri: _, address: _ } = self;
    }
}

/// Whether a parameter is the `method` parameter, escapes in its name resolved.
fn is_method(parameter: &UriParameter) -> bool
    ensures { result ≡ Definitions.is_method parameter.now }
{
    says_same_no_case(parameter.name.as_slice(), b"method")
}

fn copied_parameter(parameter: &UriParameter) -> Result<UriParameter, AllocError>
    ensures { IfOk result (λ copy. copy ≡ parameter.now) }
{
    parameter.clone()
}

/// Copies of some parameters, without the `method` parameter.
fn without_method(
    alloc: Global,
    parameters: &[UriParameter],
) -> Result<Items<UriParameter>, AllocError>
    ensures { IfOk result (λ kept. kept ≡ filter (λ p. not (Definitions.is_method p)) parameters.now) }
{
    let mut kept = Items::new(alloc);
    for parameter in parameters {
        if !is_method(parameter) {
            kept.push(copied_parameter(parameter)?)?;
        }
    }
    Ok(kept)
}

/// Makes the Request-URI for a contact of its URI, which stays where it is: without `method` and without URI headers, which
/// no Request-URI has (RFC 3261 19.1.1, table 1).
fn make_target(alloc: Global, uri: &mut Uri) -> Result<(), AllocError>
    ensures { OnOk result (uri.new ≡ Definitions.target_uri uri.old) }
{
    uri.parameters = without_method(alloc, uri.parameters.as_slice())?;
    uri.headers = Items::new(alloc);
    Ok(())
}

/// The URI that a text writes.
fn uri_of(alloc: Global, text: &[u8]) -> Result<Uri, AllocError>
    requires { IsUriText text.now }
    ensures says { IfOk result (λ uri. uri ≡ uri_in text.now) }
    ensures valid { IfOk result (λ uri. IsValid uri) }
{
    match parse_uri(alloc, text) {
        Ok(uri) => Ok(uri),
        Err(UriError::NoMemory | UriError::Scheme | UriError::Syntax) => Err(AllocError),
    }
}

/// The target for a contact of any form. It stands apart, so that no room is made for a URI where none is read.
#[inline(never)]
#[tactic(auto, using(crate::proofs::Contacts::is_target_text))]
fn target_read(alloc: Global, contact: &[u8], hops: &Hops) -> Result<Target, AllocError>
    requires { IsUriText contact.now }
    ensures { IfOk result (λ target. target ≡ target_for hops.now.addresses (uri_in contact.now)) }
{
    let mut uri = uri_of(alloc, contact)?;
    make_target(alloc, &mut uri)?;
    let address = hops.address_of(&uri);
    let uri = TargetUri::of(alloc, write_uri(alloc, &uri)?)?;
    Ok(Target { uri, address })
}

/// Whether what follows a plain URI is nothing, or `transport=udp` alone.
fn ends_place(end: &[u8]) -> bool
    ensures { result ≡ true → (end.now ≡ []) ⊎ (end.now ≡ codes ";transport=udp") }
{
    match end.split_first() {
        None => true,
        Some(_) => end == b";transport=udp".as_slice(),
    }
}

impl Target {
    /// The target for the contact of a text, at the address of its URI if it has one. `AllocError` is the only refusal.
    #[tactic(auto, using(crate::proofs::Contacts::placed_target))]
    pub(crate) fn for_contact(
        alloc: Global,
        contact: &[u8],
        hops: &Hops,
    ) -> Result<Self, AllocError>
        requires { IsUriText contact.now }
        ensures { IfOk result (λ target. target ≡ target_for hops.now.addresses (uri_in contact.now)) }
    {
        let Some((uri, end)) = UriRef::plain_at(contact) else {
            return target_read(alloc, contact, hops);
        };
        if !ends_place(end) {
            return target_read(alloc, contact, hops);
        }
        let address = hops.address_at(uri.host(), uri.port().unwrap_or(5060));
        let uri = TargetUri::of(alloc, Bytes::copy(alloc, contact)?)?;
        Ok(Target { uri, address })
    }
}
