//! The targets of a request by what policy decided (RFC 3261 16.5): the live bindings, a hop, or nowhere, and why.
ghost use Rattle.std.specs.Prelude.{◌≡◌, map, IfOk};
ghost use Rattle.std.specs.Option.{option_map_or};
ghost use Rattle.sip_targets.specs.declared.targets.Targets.TheVariants.{NotFound};
ghost use Rattle.sip_targets.specs.Target.{target_for};
ghost use Rattle.sip_targets.specs.Targets as Definitions;

use crate::request_uri::RequestUri;
use crate::target::Target;
use crate::targets::Targets;
use sip_base::Shared;
use sip_hops::Hops;
use sip_location::{BindingRef, LiveBindings};
use sip_policy::Decision;
use sip_text::Items;
use sip_uri::{Addr, Uri};
use std::alloc::{AllocError, Global};

/// The target for a binding.
fn target_at(alloc: Global, binding: &BindingRef<'_>, hops: &Hops) -> Result<Target, AllocError>
    ensures { IfOk result (λ target. target ≡ target_for hops.now.addresses binding.now.uri) }
{
    Target::for_contact(alloc, binding.uri_text(), hops)
}

/// One target for each binding, in their order.
fn list_targets(
    alloc: Global,
    bindings: LiveBindings<'_>,
    hops: &Hops,
) -> Result<Items<Target>, AllocError>
    ensures { IfOk result (λ targets. targets ≡ map (target_for hops.now.addresses) (map (λ binding. binding.uri) bindings.entry)) }
{
    let mut left = bindings;
    let mut targets = Items::new(alloc);
    while let Some(binding) = left.next() {
        let target = target_at(alloc, &binding, hops)?;
        targets.push(target)?;
    }
    Ok(targets)
}

/// One target for each live binding; without one the user is unavailable.
fn targets_at(alloc: Global, bindings: LiveBindings<'_>, hops: &Hops) -> Result<Targets, AllocError>
    ensures { IfOk result (λ targets. targets ≡ Definitions.targets_at hops.now.addresses (map (λ binding. binding.uri) bindings.entry)) }
{
    let targets = list_targets(alloc, bindings, hops)?;
    if targets.as_slice().is_empty() {
        return Ok(Targets::Unavailable);
    }
    Ok(Targets::Bindings(targets))
}

/// A Request-URI as it came, at the address of a hop, if it has one.
fn target_by(alloc: Global, uri: Uri, address: Option<Addr>) -> Result<Targets, AllocError>
    ensures { IfOk result (λ targets. targets ≡ Definitions.target_by uri address) }
{
    match address {
        Some(address) => {
            let uri = Shared::new(alloc, uri)?;
            Ok(Targets::Hop(uri, address))
        }
        None => Ok(Targets::NotFound),
    }
}

/// The target by a hop. It stands apart, so that no room is made for a URI where none is made.
#[inline(never)]
fn targets_by(
    alloc: Global,
    request_uri: &RequestUri<'_>,
    address: Option<Addr>,
) -> Result<Targets, AllocError>
    ensures { IfOk result (λ targets. targets ≡ option_map_or (λ uri. Definitions.target_by uri address) request_uri.now NotFound) }
{
    match request_uri.to_uri(alloc)? {
        Some(uri) => target_by(alloc, uri, address),
        None => Ok(Targets::NotFound),
    }
}

/// Where a request goes that policy decided about (RFC 3261 16.5): without a SIP or SIPS URI nowhere; by a hop whoever is
/// called, and not found where the tables have no such hop; else to the live bindings of its address of record, if that is
/// known as a configured user's in an own domain. One that is denied or challenged goes nowhere. `AllocError` is the only
/// refusal.
#[tactic(auto, using(crate::proofs::Deciding::for_nothing, crate::proofs::Deciding::for_callee, crate::proofs::Deciding::for_denied, crate::proofs::Deciding::for_challenged, crate::proofs::Deciding::by_hop))]
pub fn targets_of(
    alloc: Global,
    decision: &Decision,
    is_known: bool,
    request_uri: &RequestUri<'_>,
    bindings: LiveBindings<'_>,
    hops: &Hops,
) -> Result<Targets, AllocError>
    ensures { IfOk result (λ targets. targets ≡ Definitions.targets_for decision.now is_known request_uri.now
        (map (λ binding. binding.uri) bindings.entry) hops.now.hops hops.now.addresses) }
{
    if !request_uri.is_some() {
        return Ok(Targets::NotFound);
    }
    match decision {
        Decision::Via(_, place) => targets_by(alloc, request_uri, hops.hop(*place)),
        Decision::Allow(_) => {
            if is_known {
                targets_at(alloc, bindings, hops)
            } else {
                Ok(Targets::NotFound)
            }
        }
        Decision::Deny(_) | Decision::Challenge => Ok(Targets::Bindings(Items::new(alloc))),
    }
}
