//! Each input of an open request, handed to the module that takes it; what goes again is taken here.
ghost use Rattle.std.specs.Prelude.{◌≡◌, ◌<◌, ◌+◌, ◌^◌, [], IfOk, option_map, true};
ghost use Rattle.sip_context_branches.specs.Early.{IsEarly};
ghost use Rattle.sip_context_branches.specs.context_model.Branches as Contexts;
ghost use Rattle.sip_context_branches.specs.context_model.Sending as Sendings;
ghost use Rattle.sip_context.specs.Sent.{change_of};
ghost use Rattle.sip_context_branches.specs.context_model.Retransmission;
ghost use Rattle.sip_context.specs.Inputs.{IsFit, changing, outcome, outcome_of, repeating};

use crate::acknowledging::take_ack;
use crate::caller_packets::answer_to;
use crate::cancelling::take_cancel;
use crate::deadlines::{pass_branch, pass_side};
use crate::faults::take_fault;
use crate::input::Input;
use crate::responses::take_response;
use crate::sent::Sent;
use crate::state::{Branch, OpenRequest, Server};
use crate::target_packets::{ack_packets, branch_packets};
use sip_base::Shared;
use sip_context_branches::{answer_again, answer_went, branch_went, is_acked_again};
use sip_event::Packet;
use sip_message_form::View;
use sip_text::{Bytes, Items};
use std::alloc::{AllocError, Global};

/// What a change sends, with what goes again beside it.
fn with_copies(sent: Sent, copies: Items<Packet>) -> Sent
    ensures { (r : OpenRequest) → outcome r result ≡ changing (change_of r sent) copies }
{
    let Sent {
        acks,
        upward,
        cancels,
        copies: _,
    } = sent;
    Sent {
        acks,
        upward,
        cancels,
        copies,
    }
}

/// What only goes again.
fn again(alloc: Global, copies: Items<Packet>) -> Sent
    ensures { (r : OpenRequest) → outcome r result ≡ repeating r copies }
{
    Sent {
        acks: Items::new(alloc),
        upward: Items::new(alloc),
        cancels: Items::new(alloc),
        copies,
    }
}

/// The bytes of a text that is there.
fn bytes_of(text: &Option<Shared<Bytes>>) -> Option<&[u8]>
    ensures { option_map (λ value. value.now) result ≡ text.now }
{
    match text {
        Some(text) => Some(text.get().as_slice()),
        None => None,
    }
}

/// The ACK of the final answer of a branch, again, where one more came.
fn acked_again(
    alloc: Global,
    server: &Server,
    request: &OpenRequest,
    branch: &Branch,
    status: u16,
) -> Result<Items<Packet>, AllocError>
    ensures { IfOk result (λ packets. packets ≡ Retransmission.acked_again server.now request.now branch.now status) }
{
    let mut packets = Items::new(alloc);
    if !is_acked_again(request, branch, status) {
        return Ok(packets);
    }
    ack_packets(
        alloc,
        &mut packets,
        server,
        true,
        request,
        branch,
        bytes_of(&branch.final_to),
    )?;
    Ok(packets)
}

/// The last answer, again.
fn answered_again(alloc: Global, request: &OpenRequest) -> Result<Items<Packet>, AllocError>
    ensures { IfOk result (λ packets. packets ≡ Retransmission.answers_again request.now request.now.answer) }
{
    let mut packets = Items::new(alloc);
    let Some(text) = answer_again(request) else {
        return Ok(packets);
    };
    packets.push(answer_to(true, request, Bytes::copy(alloc, text)?))?;
    Ok(packets)
}

/// What a branch sends, again.
fn sent_again(
    alloc: Global,
    server: &Server,
    request: &OpenRequest,
    branch: &Branch,
) -> Result<Items<Packet>, AllocError>
    ensures { IfOk result (λ packets. packets ≡ Sendings.branch_packets server.now true request.now branch.now) }
{
    let mut packets = Items::new(alloc);
    branch_packets(alloc, &mut packets, server, true, request, branch)?;
    Ok(packets)
}

/// A response of a status came to a branch.
fn hear(
    alloc: Global,
    server: &Server,
    now: u64,
    request: &mut OpenRequest,
    branch: &Branch,
    status: u16,
    response: &View<'_>,
) -> Result<Sent, AllocError>
    requires now { now + 185000 < 2 ^ 64 }
    requires early { IsEarly branch.now.phase }
    ensures { IfOk result (λ sent. outcome request.new sent
        ≡ changing (Contexts.responded server.now now request.old branch.now status response.now)
        (Retransmission.acked_again server.now request.old branch.now status)) }
{
    let copies = acked_again(alloc, server, request, branch, status)?;
    let sent = take_response(alloc, server, now, request, branch, status, response)?;
    Ok(with_copies(sent, copies))
}

/// The deadline of a branch passes.
fn expire_branch(
    alloc: Global,
    server: &Server,
    now: u64,
    request: &mut OpenRequest,
    branch: &Branch,
) -> Result<Sent, AllocError>
    requires { now + 32000 < 2 ^ 64 }
    ensures { IfOk result (λ sent. outcome request.new sent ≡ changing (Contexts.overdue server.now now request.old branch.now) []) }
{
    let sent = pass_branch(alloc, server, now, request, branch)?;
    Ok(with_copies(sent, Items::new(alloc)))
}

/// The deadline of the answering side passes.
/// In the server no deadline comes to it: the room above ends the side where it stands.
fn expire_side(
    alloc: Global,
    server: &Server,
    now: u64,
    request: &mut OpenRequest,
) -> Result<Sent, AllocError>
    requires { now + 32000 < 2 ^ 64 }
    ensures { IfOk result (λ sent. outcome request.new sent ≡ changing (Contexts.side_overdue server.now now request.old) []) }
{
    let sent = pass_side(alloc, server, now, request)?;
    Ok(with_copies(sent, Items::new(alloc)))
}

/// The request of a branch of which nothing was heard could not be sent.
fn fail(
    alloc: Global,
    server: &Server,
    now: u64,
    request: &mut OpenRequest,
    branch: &Branch,
) -> Result<Sent, AllocError>
    requires { now + 32000 < 2 ^ 64 }
    ensures { IfOk result (λ sent. outcome request.new sent ≡ changing (Contexts.send_failed server.now now request.old branch.now) []) }
{
    let sent = take_fault(alloc, server, now, request, branch)?;
    Ok(with_copies(sent, Items::new(alloc)))
}

/// The caller cancels.
fn cancel(
    alloc: Global,
    server: &Server,
    now: u64,
    request: &mut OpenRequest,
) -> Result<Sent, AllocError>
    requires { now + 32000 < 2 ^ 64 }
    ensures { IfOk result (λ sent. outcome request.new sent ≡ changing (Contexts.cancelled server.now now request.old) []) }
{
    let sent = take_cancel(alloc, server, now, request)?;
    Ok(with_copies(sent, Items::new(alloc)))
}

/// The caller acknowledges the final answer.
fn acknowledge(alloc: Global, now: u64, request: &mut OpenRequest) -> Sent
    requires { now + 5000 < 2 ^ 64 }
    ensures { outcome request.new result ≡ repeating (Contexts.acknowledged now request.old) [] }
{
    take_ack(now, request);
    again(alloc, Items::new(alloc))
}

/// What a branch sends goes again.
fn repeat_branch(
    alloc: Global,
    server: &Server,
    request: &mut OpenRequest,
    branch: &Branch,
) -> Result<Sent, AllocError>
    requires { branch.now.again.due + 32000 < 2 ^ 64 }
    ensures { IfOk result (λ sent. outcome request.new sent
        ≡ repeating (Retransmission.with_resend branch.now request.old) (Sendings.branch_packets server.now true request.old branch.now)) }
{
    let copies = sent_again(alloc, server, request, branch)?;
    branch_went(request, branch);
    Ok(again(alloc, copies))
}

/// The last answer goes again.
fn repeat_answer(alloc: Global, request: &mut OpenRequest) -> Result<Sent, AllocError>
    requires { request.old.again.due + 32000 < 2 ^ 64 }
    ensures { IfOk result (λ sent. outcome request.new sent
        ≡ repeating (record request.old { again = Retransmission.answer_next request.old })
        (Retransmission.answers_again request.old request.old.answer)) }
{
    let copies = answered_again(alloc, request)?;
    answer_went(request);
    Ok(again(alloc, copies))
}

/// Takes what happens to an open request. `AllocError` is the only refusal, and says nothing of the request.
pub fn take_input(
    alloc: Global,
    server: &Server,
    now: u64,
    request: &mut OpenRequest,
    input: Input<'_>,
) -> Result<Sent, AllocError>
    requires now { now + 185000 < 2 ^ 64 }
    requires fit { IsFit request.old input }
    ensures { IfOk result (λ sent. outcome request.new sent ≡ outcome_of server.now now request.old input.entry) }
{
    match input {
        Input::Response {
            branch,
            status,
            response,
        } => hear(alloc, server, now, request, branch, status, response),
        Input::BranchDeadline { branch } => expire_branch(alloc, server, now, request, branch),
        Input::SideDeadline => expire_side(alloc, server, now, request),
        Input::SendFault { branch } => fail(alloc, server, now, request, branch),
        Input::Cancel => cancel(alloc, server, now, request),
        Input::Ack => Ok(acknowledge(alloc, now, request)),
        Input::BranchAgain { branch } => repeat_branch(alloc, server, request, branch),
        Input::AnswerAgain => repeat_answer(alloc, request),
    }
}
