//! The branches with which a request begins: one for each target (RFC 3261 16.6), or the one in its dialog (16.12).
ghost use Rattle.std.specs.Prelude.{◌≡◌, ◌+◌, ◌<◌, ◌^◌, length, is_some, if◌then◌else◌, ◌∷◌, [], false, Some, None, IfOk};
ghost use Rattle.model_steps.specs.state.declared.branch.Phase.TheVariants.{Unheard, Ended};
ghost use Rattle.model_steps.specs.state.State as States;
ghost use Rattle.sip_targets.specs.Targets.{target_list};
ghost use Rattle.sip_context_branches.specs.context_model.Opening as Definitions;

use model_steps::state::{Branch, Phase, Server};
use sip_base::Shared;
use sip_context::state::first_resend;
use sip_edit::onward_uri;
use sip_message_form::View;
use sip_targets::{Target, Targets};
use sip_text::{Bytes, Items};
use sip_timers::T1;
use sip_uri::{Addr, Uri, write_uri};
use std::alloc::{AllocError, Global};

/// The phase of a branch that is sent now to an address, if it has one.
fn first_phase(now: u64, address: Option<Addr>) -> Phase
    requires { now + 32000 < 2 ^ 64 }
    ensures { result ≡ (if is_some address then Unheard (now + 32000) else Ended) }
{
    match address {
        Some(_) => Phase::Unheard {
            until: now + 64 * T1,
        },
        None => Phase::Ended,
    }
}

/// A branch of a number that is sent now with a Request-URI to an address, if it has one.
fn new_branch(now: u64, number: u32, uri: Shared<Bytes>, address: Option<Addr>) -> Branch
    requires { now + 32000 < 2 ^ 64 }
    ensures { result ≡ record {
      number = number;
      is_cancel = false;
      uri = uri;
      address = address;
      wants_cancel = false;
      phase = if is_some address then Unheard (now + 32000) else Ended;
      final_to = None;
      again = States.first_resend now;
    } }
{
    Branch {
        number,
        is_cancel: false,
        uri,
        address,
        wants_cancel: false,
        phase: first_phase(now, address),
        final_to: None,
        again: first_resend(now),
    }
}

/// The branch of a number to a target, whose text it owns with it.
fn branch_to(now: u64, number: u32, target: &Target) -> Result<Branch, AllocError>
    requires { now + 32000 < 2 ^ 64 }
    ensures { IfOk result (λ branch. branch ≡ Definitions.branch_to now number target.now) }
{
    let uri = target.uri.text().clone()?;
    Ok(new_branch(now, number, uri, target.address))
}

/// The branches to targets, numbered from 1.
fn branches_from(alloc: Global, now: u64, targets: &[Target]) -> Result<Items<Branch>, AllocError>
    requires now { now + 32000 < 2 ^ 64 }
    requires count { length targets.now + 1 < 2 ^ 32 }
    ensures { IfOk result (λ branches. branches ≡ Definitions.branches_from now 1 targets.now) }
{
    let mut branches = Items::with_room(alloc, targets.len())?;
    let mut number = 1;
    for target in targets {
        branches.push(branch_to(now, number, target)?)?;
        number += 1;
    }
    Ok(branches)
}

/// The one branch to the hop of a rule.
fn hop_branch(
    alloc: Global,
    now: u64,
    uri: &Uri,
    address: Addr,
) -> Result<Items<Branch>, AllocError>
    requires { now + 32000 < 2 ^ 64 }
    ensures { IfOk result (λ branches. branches ≡ Definitions.branches_from now 1 (record { uri = uri.now; address = Some address } ∷ [])) }
{
    let uri = Shared::new(alloc, write_uri(alloc, uri)?)?;
    let mut branches = Items::new(alloc);
    branches.push(new_branch(now, 1, uri, Some(address)))?;
    Ok(branches)
}

/// One branch for each target, in their order, numbered from 1; one without an address has ended (RFC 3261 16.6, 16.9).
/// `AllocError` is the only refusal.
pub(crate) fn branches_to(
    alloc: Global,
    now: u64,
    targets: &Targets,
) -> Result<Items<Branch>, AllocError>
    requires now { now + 32000 < 2 ^ 64 }
    requires count { length (target_list targets.now) + 1 < 2 ^ 32 }
    ensures { IfOk result (λ branches. branches ≡ Definitions.branches_from now 1 (target_list targets.now)) }
{
    match targets {
        Targets::Bindings(targets) => branches_from(alloc, now, targets.as_slice()),
        Targets::Hop(uri, address) => hop_branch(alloc, now, uri.get(), *address),
        Targets::NotFound | Targets::Unavailable => Ok(Items::new(alloc)),
    }
}

/// The branch of a request in a dialog: its own Request-URI, to the address that the dialog holds (RFC 3261 16.12).
/// `AllocError` is the only refusal.
pub(crate) fn dialog_branch(
    alloc: Global,
    server: &Server,
    now: u64,
    request: &View<'_>,
    address: Addr,
) -> Result<Branch, AllocError>
    requires { now + 32000 < 2 ^ 64 }
    ensures { IfOk result (λ branch. branch ≡ Definitions.dialog_branch server.now now request.now address) }
{
    let uri = onward_uri(alloc, &server.config.own, request)?;
    Ok(new_branch(now, 1, Shared::new(alloc, uri)?, Some(address)))
}
