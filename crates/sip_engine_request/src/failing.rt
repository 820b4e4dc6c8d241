//! Packets that couldn't be sent (RFC 3261 16.9): the branch of a ticket has failed if nothing was heard of it, and else nothing changes.
ghost use Rattle.std.specs.Prelude.{◌≡◌, ◌≤◌, ◌<◌, ◌^◌, ℕ, List, length, slice_get, position, None, Some, IsOk, IsSome, IfNone, IfOk, IfSome, OnOk, OnErr};
ghost use Rattle.sip_proxy.specs.fork.Firing.{KeepsOrder};
ghost use Rattle.sip_proxy.specs.Proxy.{MayCome};
ghost use Rattle.sip_proxy.specs.context_model.Branches.{is_unheard, send_failed};
ghost use Rattle.sip_proxy.specs.fork.Places.{branch_at};
ghost use Rattle.sip_proxy.specs.fork.Keeping.{IsKeptAs};
ghost use Rattle.sip_dialog_updates.specs.DialogUpdates.{beginnings};
ghost use Rattle.sip_proxy.specs.steps_model.Effect.{changed};
ghost use Rattle.sip_proxy.specs.steps_model.Step.{Does, IsFault, is_failed, moment_of};
ghost use Rattle.sip_dialog_updates.specs.state.declared.branch.Branch.{Branch};
ghost use Rattle.sip_dialog_updates.specs.state.declared.open_request.OpenRequest.{OpenRequest};
ghost use Rattle.sip_engine_request.specs.Faults.{failed_of};
ghost use Rattle.sip_engine_request.specs.TimeSteps.{IsDraftOf};

use crate::drafting::branch_of;
use crate::stepping::{change, pass};
use sip_dialog_updates::state::{Branch, OpenRequest, Phase};
use sip_event::{StepOut, Ticket};
use sip_proxy::context::Input;
use sip_proxy::{Configured, EventDraft, Proxy};
use sip_timers::Timers;
use std::alloc::{AllocError, Global};

/// Places at which an open request and its branch are found are places of theirs.
fn found_places_are_within()
    ensures request { (requests : List OpenRequest) (place branch : ℕ) → IsSome (branch_at requests (place, branch)) → place < length requests }
    ensures branch { (requests : List OpenRequest) (place branch : ℕ) (r : OpenRequest) → IsSome (branch_at requests (place, branch))
        → slice_get requests place ≡ Some r → branch < length r.branches }
{}

/// Whether nothing was heard of a branch.
fn is_unheard(phase: Phase) -> bool
    ensures { result ≡ is_unheard phase }
{
    match phase {
        Phase::Unheard { .. } => true,
        Phase::Heard { .. } => false,
        Phase::Cancelled { .. } => false,
        Phase::Done { .. } => false,
        Phase::Ended => false,
    }
}

/// Whether a branch is the one of a number, and nothing was heard of it.
fn is_failed(number: u32, branch: &Branch) -> bool
    ensures { result ≡ is_failed number branch.now }
{
    !branch.is_cancel && branch.number == number && is_unheard(branch.phase)
}

/// The place of the branch of a number, if nothing was heard of it.
fn failed_place(request: &OpenRequest, number: u32) -> Option<usize>
    ensures { result ≡ position (is_failed number) request.now.branches }
{
    request
        .branches
        .as_slice()
        .iter()
        .position(|branch| is_failed(number, branch))
}

/// The places of the open request of a ticket and of the branch that it names, if nothing was heard of that. Takes no
/// memory.
fn find_failed<T: Timers>(proxy: &Proxy<T>, ticket: Ticket) -> Option<(usize, usize)>
    ensures some { IfSome result (λ places. IsSome (branch_at proxy.now.state.requests places)) }
    ensures is { IfSome result (λ places. branch_at proxy.now.state.requests places ≡ failed_of ticket proxy.now.state.requests) }
    ensures none { IfNone result (failed_of ticket proxy.now.state.requests ≡ None) }
{
    let place = proxy.find_number(ticket.datagram)?;
    let branch = failed_place(proxy.get(place), ticket.branch)?;
    Some((place, branch))
}

/// Drafts what becomes of the open request at a place whose branch at a place could not be sent to. `AllocError` is the
/// only refusal.
fn draft_fault<T: Timers>(
    alloc: Global,
    configured: &Configured<'_>,
    proxy: &Proxy<T>,
    now: u64,
    place: usize,
    branch: usize,
) -> Result<EventDraft, AllocError>
    requires found { IsSome (branch_at proxy.now.state.requests (place, branch)) }
    requires later { proxy.now.state.moment ≤ now }
    requires small { now < 2 ^ 62 }
    ensures draft { IfOk result (λ draft. (found : OpenRequest × Branch) → branch_at proxy.now.state.requests (place, branch) ≡ Some found
        → IsDraftOf configured.now.hops.now.addresses configured.now.server.now now (send_failed configured.now.server.now now found.0 found.1) draft) }
    ensures kept { IfOk result (λ draft. (r : OpenRequest) → slice_get proxy.now.state.requests place ≡ Some r → IsKeptAs now r draft.change) }
    ensures few { IfOk result (λ draft. beginnings draft.drafted.updates ≤ 1) }
{
    found_places_are_within();
    let branch = branch_of(proxy.get(place), branch);
    proxy.draft_input(alloc, configured, now, place, Input::SendFault { branch })
}

/// The branch at a place of the open request at a place could not be sent to. `AllocError` is the only refusal; nothing is
/// changed then.
fn fail<T: Timers>(
    alloc: Global,
    configured: &Configured<'_>,
    proxy: &mut Proxy<T>,
    now: u64,
    place: usize,
    branch: usize,
) -> Result<StepOut, AllocError>
    requires found { IsSome (branch_at proxy.old.state.requests (place, branch)) }
    requires moment { MayCome proxy.old.state now }
    ensures does { IfOk result (λ out. (found : OpenRequest × Branch) → branch_at proxy.old.state.requests (place, branch) ≡ Some found
        → Does configured.now.server.now proxy.old.state now
        (changed configured.now.server.now now proxy.old.state (send_failed configured.now.server.now now found.0 found.1)) out
        proxy.new.state) }
    ensures at_moment { IfOk result (λ out. out.at ≡ now) }
    ensures moment { IfOk result (λ out. proxy.new.state.moment ≡ now) }
    ensures next_stays { IfOk result (λ out. proxy.new.state.next ≡ proxy.old.state.next) }
    ensures unchanged { OnErr result (proxy.new.state ≡ proxy.old.state) }
    ensures timers { OnErr result (proxy.new.timers ≡ proxy.old.timers) }
    ensures queue { OnOk result (KeepsOrder proxy.old.timers proxy.new.timers proxy.new.state.requests) }
    ensures secrets { proxy.new.secrets ≡ proxy.old.secrets }
{
    found_places_are_within();
    let draft = draft_fault(alloc, configured, proxy, now, place, branch)?;
    change(alloc, proxy, now, place, draft)
}

/// A packet could not be sent: the branch that its ticket names counts as 503, if nothing was heard of it (RFC 3261 16.9);
/// any other fault changes the moment alone, and takes no memory. `AllocError` is the only refusal; nothing is changed then.
pub fn fault<T: Timers>(
    alloc: Global,
    configured: &Configured<'_>,
    proxy: &mut Proxy<T>,
    now: u64,
    ticket: Ticket,
) -> Result<StepOut, AllocError>
    requires moment { MayCome proxy.old.state now }
    ensures step { IfOk result (λ out. (at : ℕ) → now ≡ moment_of proxy.old.state at
        → IsFault configured.now.server.now proxy.old.state at ticket out proxy.new.state) }
    ensures never_refused { failed_of ticket proxy.old.state.requests ≡ None → IsOk result }
    ensures at_moment { IfOk result (λ out. out.at ≡ now) }
    ensures moment { IfOk result (λ out. proxy.new.state.moment ≡ now) }
    ensures next_stays { IfOk result (λ out. proxy.new.state.next ≡ proxy.old.state.next) }
    ensures unchanged { OnErr result (proxy.new.state ≡ proxy.old.state) }
    ensures timers { OnErr result (proxy.new.timers ≡ proxy.old.timers) }
    ensures queue { OnOk result (KeepsOrder proxy.old.timers proxy.new.timers proxy.new.state.requests) }
    ensures secrets { proxy.new.secrets ≡ proxy.old.secrets }
{
    if let Some((place, branch)) = find_failed(proxy, ticket) {
        return fail(alloc, configured, proxy, now, place, branch);
    }
    Ok(pass(alloc, proxy, now))
}
