//! When the best answer goes to the caller, and what is kept of an answer that went (RFC 3261 16.7 steps 5 and 6, 17.2).
//! Which answer is the best is said in `sip_best`.
ghost use Rattle.std.specs.Prelude.{◌≡◌, ◌<◌, ◌+◌, ◌^◌, ◌++◌, ◌∷◌, [], ◌&&◌, option_map, IfOk, OnOk};
ghost use Rattle.sip_best.specs.Best.{best_of};
ghost use Rattle.sip_message_form.specs.Text.{text_of};
ghost use Rattle.sip_context_branches.specs.state.State as States;
ghost use Rattle.sip_context_branches.specs.context_model.Branches as Contexts;

use crate::caller_packets::written_answer;
use crate::side::{is_answering, side_after};
use sip_best::{Final, best};
use sip_context_branches::all_final;
use sip_context_branches::state::{
    AnswerText, KeptAnswer, LastAnswer, OpenRequest, Server, Upward, first_resend, is_invite,
    is_provisional, is_success,
};
use sip_text::Items;
use std::alloc::{AllocError, Global};

/// The message of an answer with its text, which is made here if none came.
fn message_of(
    alloc: Global,
    server: &Server,
    request: &OpenRequest,
    answer: Final,
) -> Result<KeptAnswer, AllocError>
    ensures { IfOk result (λ message. message ≡ (Contexts.upward_of server.now request.now answer).message) }
{
    match answer.message {
        Some(message) => Ok(KeptAnswer::of(message)),
        None => written_answer(alloc, server, request, answer.status),
    }
}

/// The best answer, as it goes to the caller: one that came, or one that is made here.
fn upward_of(
    alloc: Global,
    server: &Server,
    request: &OpenRequest,
    answer: Final,
) -> Result<Upward, AllocError>
    ensures { IfOk result (λ up. up ≡ Contexts.upward_of server.now request.now answer) }
{
    let status = answer.status;
    let message = message_of(alloc, server, request, answer)?;
    Ok(Upward {
        status,
        message,
        target: None,
    })
}

/// Whether the best answer goes to the caller now: every branch has a final one, and none went before (RFC 3261 16.7
/// steps 5 and 6).
fn is_time(request: &OpenRequest) -> bool
    ensures { result ≡ (States.is_answering request.now.side && Contexts.all_final request.now) }
{
    is_answering(request.side) && all_final(request.branches.as_slice())
}

/// The best of the answers that are kept, as it goes to the caller, if there is one.
#[inline(never)]
fn best_kept(
    alloc: Global,
    server: &Server,
    request: &OpenRequest,
) -> Result<Option<Upward>, AllocError>
    ensures { IfOk result (λ up. up ≡ option_map (Contexts.upward_of server.now request.now) (best_of request.now.finals)) }
{
    match best(alloc, request.finals.as_slice())? {
        None => Ok(None),
        Some(answer) => Ok(Some(upward_of(alloc, server, request, answer)?)),
    }
}

/// The best answer, if it goes to the caller now.
pub(crate) fn best_upward(
    alloc: Global,
    server: &Server,
    request: &OpenRequest,
) -> Result<Option<Upward>, AllocError>
    ensures { IfOk result (λ up. up ≡ Contexts.best_upward server.now request.now) }
{
    if !is_time(request) {
        return Ok(None);
    }
    best_kept(alloc, server, request)
}

/// The bytes of an answer that are kept, to be sent again: none of a 2xx to an INVITE (RFC 3261 13.3.1.4, RFC 6026
/// 7.1).
fn kept_text(alloc: Global, request: &OpenRequest, up: &Upward) -> Result<AnswerText, AllocError>
    ensures { IfOk result (λ text. text ≡ (Contexts.last_answer request.now up.now.status (text_of up.now.message)).text) }
{
    if is_invite(request) && is_success(up.status) {
        return Ok(AnswerText::none());
    }
    AnswerText::copy(alloc, up.message.text())
}

/// The answer that was sent last.
fn last_answer(alloc: Global, request: &OpenRequest, up: &Upward) -> Result<LastAnswer, AllocError>
    ensures { IfOk result (λ answer. answer ≡ Contexts.last_answer request.now up.now.status (text_of up.now.message)) }
{
    let text = kept_text(alloc, request, up)?;
    Ok(LastAnswer {
        status: up.status,
        text,
    })
}

/// An answer goes to the caller: it is the last one, and the first final one begins to close the request (RFC 3261 17.2).
/// `AllocError` is the only refusal.
fn answered(
    alloc: Global,
    now: u64,
    request: &mut OpenRequest,
    up: &Upward,
) -> Result<(), AllocError>
    requires { now + 32000 < 2 ^ 64 }
    ensures { OnOk result (request.new ≡ Contexts.answered now up.now request.old) }
{
    request.answer = Some(last_answer(alloc, request, up)?);
    request.side = side_after(now, request.side, up.status);
    request.again = first_resend(now);
    if !is_provisional(up.status) {
        request.finals = Items::new(alloc);
    }
    Ok(())
}

/// What goes to the caller.
#[inline(never)]
fn tell_one(
    alloc: Global,
    now: u64,
    open_request: &mut OpenRequest,
    told: &mut Items<Upward>,
    up: Upward,
) -> Result<(), AllocError>
    requires { now + 32000 < 2 ^ 64 }
    ensures request { OnOk result (open_request.new ≡ Contexts.answered now up open_request.old) }
    ensures told { OnOk result (told.new ≡ told.old ++ up ∷ []) }
{
    answered(alloc, now, open_request, &up)?;
    told.push(up)
}

/// What goes to the caller, if anything does.
#[inline(always)]
pub(crate) fn tell(
    alloc: Global,
    now: u64,
    open_request: &mut OpenRequest,
    told: &mut Items<Upward>,
    up: Option<Upward>,
) -> Result<(), AllocError>
    requires { now + 32000 < 2 ^ 64 }
    ensures request { OnOk result (open_request.new ≡ Contexts.after_upward now up open_request.old) }
    ensures told { OnOk result (told.new ≡ told.old ++ Contexts.upward_list up) }
{
    match up {
        None => Ok(()),
        Some(up) => tell_one(alloc, now, open_request, told, up),
    }
}
