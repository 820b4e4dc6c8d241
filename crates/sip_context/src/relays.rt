//! Which responses go to the caller at once (RFC 3261 16.7 step 5; RFC 6026 7.1), and how they go or are kept, without this server's Via
//! (16.7 step 3).
ghost use Rattle.std.specs.Prelude.{◌≡◌, ◌&&◌, ◌||◌, ◌==◌, not, Some, None, IfOk};
ghost use Rattle.sip_edit.specs.OwnVia.{without_top_via};
ghost use Rattle.sip_context_branches.specs.state.State as States;
ghost use Rattle.sip_context_branches.specs.context_model.Branches as Contexts;

use crate::side::{is_accepted, is_answering};
use sip_base::Shared;
use sip_best::Final;
use sip_context_branches::is_final;
use sip_context_branches::state::{
    Branch, KeptAnswer, OpenRequest, Phase, Upward, is_invite, is_success,
};
use sip_edit::kept_without_via;
use sip_message_form::{Kept, View};
use std::alloc::{AllocError, Global};

/// A response without its top Via, which is kept.
fn kept_response(alloc: Global, response: &View<'_>) -> Result<Shared<Kept>, AllocError>
    ensures { IfOk result (λ answer. answer ≡ without_top_via response.now) }
{
    Shared::new(alloc, kept_without_via(alloc, response)?)
}

/// A response without its top Via, which goes on at once.
fn written_response(alloc: Global, response: &View<'_>) -> Result<KeptAnswer, AllocError>
    ensures { IfOk result (λ answer. answer ≡ without_top_via response.now) }
{
    Ok(KeptAnswer::of(kept_response(alloc, response)?))
}

/// An answer from a branch, as it goes to the caller (RFC 3261 16.7 step 3).
fn relayed_from(branch: &Branch, status: u16, message: KeptAnswer) -> Upward
    ensures { result ≡ record { status = status; message = message; target = branch.now.address } }
{
    Upward {
        status,
        message,
        target: branch.address,
    }
}

/// Whether a provisional response goes to the caller: no 100 does, and none after the final answer of its branch or of
/// the request (RFC 3261 16.7 step 5).
fn relays_provisional(request: &OpenRequest, branch: &Branch, status: u16) -> bool
    ensures { result ≡ (not (status == 100) && not (States.is_final branch.now.phase) && States.is_answering request.now.side) }
{
    status != 100 && !is_final(branch.phase) && is_answering(request.side)
}

/// A provisional response from a branch as it goes to the caller, if it does.
pub(crate) fn relayed_provisional(
    alloc: Global,
    request: &OpenRequest,
    branch: &Branch,
    status: u16,
    response: &View<'_>,
) -> Result<Option<Upward>, AllocError>
    ensures { IfOk result (λ up. up ≡ Contexts.relayed_provisional request.now branch.now status response.now) }
{
    if !relays_provisional(request, branch, status) {
        return Ok(None);
    }
    let message = written_response(alloc, response)?;
    Ok(Some(relayed_from(branch, status, message)))
}

/// Whether a final response goes to the caller at once: the first 2xx, and each further one of an INVITE while its
/// transaction lives (RFC 3261 16.7 step 5, RFC 6026 7.1).
fn relays_success(request: &OpenRequest, status: u16) -> bool
    ensures { result ≡ (States.is_success status && (States.is_answering request.now.side || Contexts.is_accepted request.now)) }
{
    is_success(status) && (is_answering(request.side) || is_accepted(request))
}

/// A 2xx from a branch as it goes to the caller, if it does.
pub(crate) fn relayed_success(
    alloc: Global,
    request: &OpenRequest,
    branch: &Branch,
    status: u16,
    response: &View<'_>,
) -> Result<Option<Upward>, AllocError>
    ensures { IfOk result (λ up. up ≡ Contexts.relayed_success request.now branch.now status response.now) }
{
    if !relays_success(request, status) {
        return Ok(None);
    }
    let message = written_response(alloc, response)?;
    Ok(Some(relayed_from(branch, status, message)))
}

/// The final answer of a branch, of which nothing goes to the caller at once, as it is kept.
pub(crate) fn kept_final(
    alloc: Global,
    status: u16,
    response: &View<'_>,
) -> Result<Final, AllocError>
    ensures { IfOk result (λ answer. answer ≡ Contexts.final_of status response.now) }
{
    let message = kept_response(alloc, response)?;
    Ok(Final {
        status,
        message: Some(message),
    })
}

/// A further final response of a branch as it goes to the caller, if it does: a 2xx of an INVITE whose branch gave one
/// before.
pub(crate) fn further(
    alloc: Global,
    request: &OpenRequest,
    branch: &Branch,
    status: u16,
    response: &View<'_>,
) -> Result<Option<Upward>, AllocError>
    ensures { IfOk result (λ up. up ≡ Contexts.further request.now branch.now branch.now.phase status response.now) }
{
    match branch.phase {
        Phase::Done { status: first, .. } => {
            if is_invite(request) && is_success(first) {
                relayed_success(alloc, request, branch, status, response)
            } else {
                Ok(None)
            }
        }
        _ => Ok(None),
    }
}
