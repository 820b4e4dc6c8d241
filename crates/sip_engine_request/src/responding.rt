//! The step of a response whose branch was found (RFC 3261 16.7, 17.1). What it makes of the open request is said in `sip_context`.
ghost use Rattle.std.specs.Prelude.{◌≡◌, ◌≤◌, ◌<◌, ◌^◌, ℕ, List, length, slice_get, Some, IsSome, IfOk, OnOk, OnErr};
ghost use Rattle.sip_proxy.specs.fork.Firing.{KeepsOrder};
ghost use Rattle.sip_proxy.specs.Proxy.{IsComing};
ghost use Rattle.sip_proxy.specs.verdict.context_model.Branches.{responded};
ghost use Rattle.sip_proxy.specs.fork.Places.{branch_at};
ghost use Rattle.sip_proxy.specs.fork.Keeping.{IsKeptAs};
ghost use Rattle.sip_dialog_updates.specs.DialogUpdates.{beginnings};
ghost use Rattle.sip_proxy.specs.steps_model.Effect.{counted, effect_of};
ghost use Rattle.sip_proxy.specs.steps_model.Step.{Does};
ghost use Rattle.sip_proxy.specs.forwarding.Arrivals.{arrival_of};
ghost use Rattle.sip_proxy.specs.verdict.context_model.Retransmission.{acked_again};
ghost use Rattle.sip_dialog_updates.specs.state.declared.branch.Branch.{Branch};
ghost use Rattle.sip_dialog_updates.specs.state.declared.open_request.OpenRequest.{OpenRequest};
ghost use Rattle.sip_proxy.specs.verdict.verdict_model.Verdict.{Respond};
ghost use Rattle.sip_engine_request.specs.OpenSteps.{IsDraftOf};

use crate::counting::change;
use sip_dialog_updates::state::{Branch, OpenRequest};
use sip_event::StepOut;
use sip_proxy::context::Input;
use sip_proxy::{Configured, EventDraft, Proxy, ReceivedResponse};
use sip_timers::Timers;
use std::alloc::{AllocError, Global};

/// Places at which an open request and its branch are found are places of theirs.
fn found_places_are_within()
    ensures request { (requests : List OpenRequest) (place branch : ℕ) → IsSome (branch_at requests (place, branch)) → place < length requests }
    ensures branch { (requests : List OpenRequest) (place branch : ℕ) (r : OpenRequest) → IsSome (branch_at requests (place, branch))
        → slice_get requests place ≡ Some r → branch < length r.branches }
{}

/// The branch of an open request at a place.
fn branch_of(open_request: &OpenRequest, branch: usize) -> &Branch
    requires { branch < length open_request.now.branches }
    ensures { slice_get open_request.now.branches branch ≡ Some result.now }
{
    &open_request.branches.as_slice()[branch]
}

/// Drafts what a response of a status makes of the open request at a place, to whose branch at a place it came.
/// `AllocError` is the only refusal.
fn draft_response<T: Timers>(
    alloc: Global,
    configured: &Configured<'_>,
    proxy: &Proxy<T>,
    response: &ReceivedResponse<'_>,
    place: usize,
    branch: usize,
) -> Result<EventDraft, AllocError>
    requires found { IsSome (branch_at proxy.now.state.requests (place, branch)) }
    requires later { proxy.now.state.moment ≤ response.now.arrival.now }
    requires small { response.now.arrival.now < 2 ^ 62 }
    ensures draft { IfOk result (λ draft. (found : OpenRequest × Branch) → branch_at proxy.now.state.requests (place, branch) ≡ Some found
        → IsDraftOf configured.now.hops.now.addresses configured.now.server.now response.now.arrival.now found.0
        (responded configured.now.server.now response.now.arrival.now found.0 found.1 response.now.status response.now.message.now)
        (acked_again configured.now.server.now found.0 found.1 response.now.status) draft) }
    ensures kept { IfOk result (λ draft. (r : OpenRequest) → slice_get proxy.now.state.requests place ≡ Some r → IsKeptAs response.now.arrival.now r draft.change) }
    ensures few { IfOk result (λ draft. beginnings draft.drafted.updates ≤ 1) }
{
    found_places_are_within();
    let branch = branch_of(proxy.get(place), branch);
    let input = Input::Response {
        branch,
        status: response.status,
        response: response.message,
    };
    proxy.draft_input(alloc, configured, response.arrival.now, place, input)
}

/// The step of a response that came to a branch of an open request, by their places as [`Proxy::find_branch`]
/// gives them: ACKs go first, then what goes to the caller, then CANCELs; a further 300 to 699 to an INVITE gets its ACK
/// again (RFC 3261 16.7, 17.1). `AllocError` is the only refusal; nothing is changed then.
pub fn take_response<T: Timers>(
    alloc: Global,
    configured: &Configured<'_>,
    proxy: &mut Proxy<T>,
    response: &ReceivedResponse<'_>,
    place: usize,
    branch: usize,
) -> Result<StepOut, AllocError>
    requires coming { IsComing proxy.old.state response.now.arrival }
    requires found { IsSome (branch_at proxy.old.state.requests (place, branch)) }
    ensures does { IfOk result (λ out. (found : OpenRequest × Branch) → branch_at proxy.old.state.requests (place, branch) ≡ Some found
        → Does configured.now.server.now proxy.old.state response.now.arrival.now
        (effect_of configured.now.server.now (arrival_of response.now.arrival) response.now.message.now
        (Respond found.0 found.1 response.now.status) (counted (arrival_of response.now.arrival) proxy.old.state)) out proxy.new.state) }
    ensures unchanged { OnErr result (proxy.new.state ≡ proxy.old.state) }
    ensures timers { OnErr result (proxy.new.timers ≡ proxy.old.timers) }
    ensures queue { OnOk result (KeepsOrder proxy.old.timers proxy.new.timers proxy.new.state.requests) }
    ensures secrets { proxy.new.secrets ≡ proxy.old.secrets }
{
    found_places_are_within();
    let draft = draft_response(alloc, configured, proxy, response, place, branch)?;
    change(alloc, proxy, response.arrival, place, draft)
}
