//! Responses that came to a branch (RFC 3261 16.7, 17.1; RFC 6026 7): what becomes of the branch, and whether the search ends.
//! Which of them go to the caller is said in `relays`.
ghost use Rattle.std.specs.Prelude.{◌≡◌, ◌<◌, ◌+◌, ◌^◌, ◌&&◌, ◌||◌, [], IfOk, OnOk};
ghost use Rattle.sip_message_form.specs.declared.message.Message.{Message};
ghost use Rattle.sip_context_branches.specs.state.State as States;
ghost use Rattle.sip_context_branches.specs.state.declared.branch.Phase.TheVariants.{Done};
ghost use Rattle.sip_context_branches.specs.context_model.Branches as Contexts;
ghost use Rattle.sip_context_branches.specs.Early.{IsEarly};
ghost use Rattle.sip_context.specs.Sent.{change_of};

use crate::finals::keep_final;
use crate::relays::{further, kept_final, relayed_provisional, relayed_success};
use crate::sent::Sent;
use crate::settling::{settle, settle_alone};
use crate::side::is_answering;
use crate::target_packets::ack_packets;
use sip_base::Shared;
use sip_best::Final;
use sip_context_branches::state::{
    Branch, OpenRequest, Phase, Server, Upward, is_decline, is_failure, is_invite, is_provisional,
    is_success,
};
use sip_context_branches::{invite_heard, is_final, mark, other_heard, set_final, set_phase};
use sip_event::Packet;
use sip_message_fields::FieldName;
use sip_message_form::View;
use sip_text::{Bytes, Items};
use sip_timers::{T1, T4};
use std::alloc::{AllocError, Global};

/// The phase after a provisional response, by the request's method (RFC 3261 17.1).
fn heard(request: &OpenRequest, now: u64, status: u16, phase: Phase) -> Phase
    requires now { now + 185000 < 2 ^ 64 }
    requires early { IsEarly phase }
    ensures { result ≡ Contexts.heard request.now now status phase }
{
    if is_invite(request) {
        invite_heard(now, status, phase)
    } else {
        other_heard(phase)
    }
}

/// How long a branch with a final answer takes more of them, in milliseconds.
fn linger(request: &OpenRequest) -> u64
    ensures { result ≡ Contexts.linger request.now }
{
    if is_invite(request) { 64 * T1 } else { T4 }
}

/// Whether this server acknowledges an answer of a status: an INVITE's that is no 2xx (RFC 3261 17.1.1.3).
fn is_acknowledged(request: &OpenRequest, status: u16) -> bool
    ensures { result ≡ (States.is_invite request.now && States.is_failure status) }
{
    is_invite(request) && is_failure(status)
}

/// Whether an answer of a status ends the search: a 2xx or 6xx of an INVITE (RFC 3261 16.7 step 10).
fn ends_search(request: &OpenRequest, status: u16) -> bool
    ensures { result ≡ (States.is_invite request.now && (States.is_success status || States.is_decline status)) }
{
    is_invite(request) && (is_success(status) || is_decline(status))
}

/// To of a final answer that this server acknowledges, if it has one.
fn acked_to(
    alloc: Global,
    request: &OpenRequest,
    status: u16,
    response: &View<'_>,
) -> Result<Option<Shared<Bytes>>, AllocError>
    ensures { IfOk result (λ to. to ≡ Contexts.acked_to request.now status response.now) }
{
    if !is_acknowledged(request, status) {
        return Ok(None);
    }
    match response.fields().first(&FieldName::To) {
        Some(to) => Ok(Some(Shared::new(alloc, Bytes::copy(alloc, to)?)?)),
        None => Ok(None),
    }
}

/// The ACK of a final answer, if this server acknowledges it.
fn acks_of(
    alloc: Global,
    server: &Server,
    request: &OpenRequest,
    branch: &Branch,
    status: u16,
    response: &View<'_>,
) -> Result<Items<Packet>, AllocError>
    ensures { IfOk result (λ packets. packets ≡ Contexts.acks_of server.now request.now branch.now status response.now) }
{
    let mut acks = Items::new(alloc);
    if !is_acknowledged(request, status) {
        return Ok(acks);
    }
    let to = response.fields().first(&FieldName::To);
    ack_packets(alloc, &mut acks, server, false, request, branch, to)?;
    Ok(acks)
}

/// A branch is done by its first final answer.
fn finish_branch(
    alloc: Global,
    now: u64,
    request: &mut OpenRequest,
    branch: &Branch,
    status: u16,
    response: &View<'_>,
) -> Result<(), AllocError>
    requires { now + 32000 < 2 ^ 64 }
    ensures { OnOk result (request.new ≡ Contexts.with_phase (Contexts.told_to request.old branch.now status response.now)
        (Done (now + Contexts.linger request.old) status) request.old) }
{
    let until = now + linger(request);
    let to = acked_to(alloc, request, status, response)?;
    set_final(
        &mut request.branches,
        branch,
        &to,
        Phase::Done { until, status },
    )?;
    Ok(())
}

/// The first final answer of a branch came: the branch is done, the answer is kept, and the search ends if it is to.
fn finish(
    alloc: Global,
    now: u64,
    request: &mut OpenRequest,
    branch: &Branch,
    answer: Final,
    response: &View<'_>,
) -> Result<(), AllocError>
    requires { now + 32000 < 2 ^ 64 }
    ensures { OnOk result (request.new ≡ Contexts.search_ended request.old answer.status (Contexts.with_final answer
        (Contexts.with_phase (Contexts.told_to request.old branch.now answer.status response.now)
        (Done (now + Contexts.linger request.old) answer.status) request.old))) }
{
    let status = answer.status;
    finish_branch(alloc, now, request, branch, status, response)?;
    keep_final(request, answer)?;
    if ends_search(request, status) {
        mark(&mut request.branches);
    }
    Ok(())
}

/// The first final answer of a branch came, which goes to the caller at once, so that none is kept: the branch is done, and
/// the search ends if it is to.
fn finish_relayed(
    alloc: Global,
    now: u64,
    request: &mut OpenRequest,
    branch: &Branch,
    status: u16,
    response: &View<'_>,
) -> Result<(), AllocError>
    requires { now + 32000 < 2 ^ 64 }
    ensures { OnOk result (request.new ≡ Contexts.search_ended request.old status
        (Contexts.with_phase (Contexts.told_to request.old branch.now status response.now) (Done (now + Contexts.linger request.old) status)
        request.old)) }
{
    finish_branch(alloc, now, request, branch, status, response)?;
    if ends_search(request, status) {
        mark(&mut request.branches);
    }
    Ok(())
}

/// A provisional response came from a target.
fn hear_target(
    alloc: Global,
    server: &Server,
    now: u64,
    request: &mut OpenRequest,
    branch: &Branch,
    status: u16,
    response: &View<'_>,
) -> Result<Sent, AllocError>
    requires now { now + 185000 < 2 ^ 64 }
    requires early { IsEarly branch.now.phase }
    ensures { IfOk result (λ sent. change_of request.new sent
        ≡ Contexts.settled server.now now [] (Contexts.relayed_provisional request.old branch.now status response.now)
        (Contexts.with_phase branch.now (Contexts.heard request.old now status branch.now.phase) request.old)) }
{
    let relayed = relayed_provisional(alloc, request, branch, status, response)?;
    let phase = heard(request, now, status, branch.phase);
    set_phase(&mut request.branches, branch, phase)?;
    let sent = settle(alloc, server, now, Items::new(alloc), relayed, request)?;
    Ok(sent)
}

/// One more final response came from a target that gave one.
fn hear_further(
    alloc: Global,
    server: &Server,
    now: u64,
    request: &mut OpenRequest,
    branch: &Branch,
    status: u16,
    response: &View<'_>,
) -> Result<Sent, AllocError>
    requires { now + 32000 < 2 ^ 64 }
    ensures { IfOk result (λ sent. change_of request.new sent
        ≡ Contexts.settled server.now now [] (Contexts.further request.old branch.now branch.now.phase status response.now) request.old) }
{
    let relayed = further(alloc, request, branch, status, response)?;
    let sent = settle(alloc, server, now, Items::new(alloc), relayed, request)?;
    Ok(sent)
}

/// The first final answer of a branch came, of which nothing goes to the caller at once: it is kept while none went before.
#[tactic(auto, using(crate::proofs::Settled::not_kept))]
fn finish_untold(
    alloc: Global,
    now: u64,
    request: &mut OpenRequest,
    branch: &Branch,
    status: u16,
    response: &View<'_>,
) -> Result<(), AllocError>
    requires { now + 32000 < 2 ^ 64 }
    ensures { OnOk result (request.new ≡ Contexts.with_answer request.old branch.now now status response.now) }
{
    if !is_answering(request.side) {
        return finish_relayed(alloc, now, request, branch, status, response);
    }
    let answer = kept_final(alloc, status, response)?;
    finish(alloc, now, request, branch, answer, response)
}

/// The first final response of a target is taken: what of it goes to the caller at once, if anything does. It is kept only if
/// nothing does, since what goes to the caller leaves no answer kept.
#[tactic(auto, using(crate::proofs::Settled::final_told, crate::proofs::Settled::final_untold))]
fn take_final(
    alloc: Global,
    now: u64,
    open_request: &mut OpenRequest,
    branch: &Branch,
    status: u16,
    response: &View<'_>,
) -> Result<Option<Upward>, AllocError>
    requires { now + 32000 < 2 ^ 64 }
    ensures relayed { IfOk result (λ up. up ≡ Contexts.relayed_success open_request.old branch.now status response.now) }
    ensures told { IfOk result (λ up. Contexts.after_upward now up open_request.new
        ≡ Contexts.after_upward now up (Contexts.with_answer open_request.old branch.now now status response.now)) }
{
    let relayed = relayed_success(alloc, open_request, branch, status, response)?;
    match relayed {
        Some(up) => {
            finish_relayed(alloc, now, open_request, branch, status, response)?;
            Ok(Some(up))
        }
        None => {
            finish_untold(alloc, now, open_request, branch, status, response)?;
            Ok(None)
        }
    }
}

/// The first final response came from a target.
fn hear_final(
    alloc: Global,
    server: &Server,
    now: u64,
    request: &mut OpenRequest,
    branch: &Branch,
    status: u16,
    response: &View<'_>,
) -> Result<Sent, AllocError>
    requires { now + 32000 < 2 ^ 64 }
    ensures { IfOk result (λ sent. change_of request.new sent
        ≡ Contexts.settled server.now now (Contexts.acks_of server.now request.old branch.now status response.now)
        (Contexts.relayed_success request.old branch.now status response.now) (Contexts.with_answer request.old branch.now now status response.now)) }
{
    let acks = acks_of(alloc, server, request, branch, status, response)?;
    let relayed = take_final(alloc, now, request, branch, status, response)?;
    let sent = settle(alloc, server, now, acks, relayed, request)?;
    Ok(sent)
}

/// A response to a CANCEL of this server goes nowhere.
fn hear_cancel(
    alloc: Global,
    server: &Server,
    now: u64,
    request: &mut OpenRequest,
    branch: &Branch,
    status: u16,
) -> Result<Sent, AllocError>
    requires { now + 32000 < 2 ^ 64 }
    ensures { IfOk result (λ sent. (m : Message) → change_of request.new sent
        ≡ Contexts.cancel_responded server.now now request.old branch.now status m) }
{
    if is_provisional(status) {
        set_phase(&mut request.branches, branch, other_heard(branch.phase))?;
        let sent = settle_alone(alloc, server, now, request)?;
        return Ok(sent);
    }
    if is_final(branch.phase) {
        let sent = settle_alone(alloc, server, now, request)?;
        return Ok(sent);
    }
    let until = now + T4;
    set_phase(&mut request.branches, branch, Phase::Done { until, status })?;
    let sent = settle_alone(alloc, server, now, request)?;
    Ok(sent)
}

/// A response to the request of a target.
fn hear_request(
    alloc: Global,
    server: &Server,
    now: u64,
    request: &mut OpenRequest,
    branch: &Branch,
    status: u16,
    response: &View<'_>,
) -> Result<Sent, AllocError>
    requires now { now + 185000 < 2 ^ 64 }
    requires early { IsEarly branch.now.phase }
    ensures { IfOk result (λ sent. change_of request.new sent ≡ Contexts.target_responded server.now now request.old branch.now status response.now) }
{
    if is_provisional(status) {
        return hear_target(alloc, server, now, request, branch, status, response);
    }
    if is_final(branch.phase) {
        return hear_further(alloc, server, now, request, branch, status, response);
    }
    hear_final(alloc, server, now, request, branch, status, response)
}

/// Takes a response of a status that came to a branch. A provisional one other than 100, and the first 2xx, go to the
/// caller at once, as does each further 2xx of an INVITE while its transaction lives; another final one is acknowledged
/// if the request is an INVITE, and waits until every branch has one. A 2xx or 6xx of an INVITE ends the search: the
/// other branches are cancelled. A response to a CANCEL goes nowhere (RFC 3261 16.7; RFC 6026 7). `AllocError` is the
/// only refusal.
pub(crate) fn take_response(
    alloc: Global,
    server: &Server,
    now: u64,
    request: &mut OpenRequest,
    branch: &Branch,
    status: u16,
    response: &View<'_>,
) -> Result<Sent, AllocError>
    requires now { now + 185000 < 2 ^ 64 }
    requires early { IsEarly branch.now.phase }
    ensures { IfOk result (λ sent. change_of request.new sent ≡ Contexts.responded server.now now request.old branch.now status response.now) }
{
    if branch.is_cancel {
        let sent = hear_cancel(alloc, server, now, request, branch, status)?;
        return Ok(sent);
    }
    hear_request(alloc, server, now, request, branch, status, response)
}
