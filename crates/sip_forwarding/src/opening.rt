//! What is sent when a request is opened (RFC 3261 16.2, 16.6): its 100, the best answer where no branch can be sent to, its branches.
ghost use Rattle.std.specs.Prelude.{◌≡◌, ◌+◌, ◌<◌, ◌^◌, ◌++◌, [], false, is_some, Some, IfOk, OnOk};
ghost use Rattle.std.specs.List.{flat_map, list_any};
ghost use Rattle.model_steps.specs.state.declared.branch.Branch.{Branch};
ghost use Rattle.sip_message_form.specs.Text.{text_of};
ghost use Rattle.sip_context_branches.specs.state.State as States;
ghost use Rattle.sip_context_branches.specs.context_model.Opening as Definitions;
ghost use Rattle.sip_context_branches.specs.context_model.Sending as Sendings;
ghost use Rattle.sip_context.specs.Sent.{change_of};
ghost use Rattle.model_steps.specs.Effect as Effects;

use crate::packets::{change_packets, put_packets};
use model_steps::state::{AnswerText, Branch, LastAnswer, OpenRequest, Server, Upward};
use sip_context::state::{first_resend, is_invite};
use sip_context::{Sent, answer_to, made_answer, packets_of_branches, settle_alone};
use sip_event::Packet;
use sip_message_fields::Fields;
use sip_text::{Bytes, Items};
use std::alloc::{AllocError, Global};

/// Whether one of some branches has an address.
fn goes_anywhere(branches: &[Branch]) -> bool
    ensures { result ≡ list_any (λ (b : Branch). is_some b.address) branches.now }
{
    for branch in branches {
        if branch.address.is_some() {
            return true;
        }
    }
    false
}

/// Whether a request gets a 100 first: an INVITE that is sent to anybody (RFC 3261 16.2).
fn is_tried(request: &OpenRequest) -> bool
    ensures { result ≡ Definitions.is_tried request.now }
{
    is_invite(request) && goes_anywhere(request.branches.as_slice())
}

/// The text of the 100 of a request.
fn trying_text(alloc: Global, server: &Server, request: &OpenRequest) -> Result<Bytes, AllocError>
    ensures { IfOk result (λ text. text
        ≡ text_of (Sendings.made_answer server.now request.now.number
        request.now.request.message request.now.request.source 100 [])) }
{
    let extras = Fields::new(alloc);
    made_answer(
        alloc,
        server,
        request.number,
        request.request.get(),
        100,
        &extras,
    )
}

/// A 100 of this text went to the caller: the request has no final answer, as before.
fn was_tried(now: u64, request: &mut OpenRequest, text: AnswerText)
    requires { now + 32000 < 2 ^ 64 }
    ensures { request.new ≡ record request.old { answer = Some (record { status = 100; text = text }); again = States.first_resend now } }
{
    request.answer = Some(LastAnswer { status: 100, text });
    request.again = first_resend(now);
}

/// A request that gets a 100 is answered so.
#[tactic(auto, using(crate::proofs::Trying::request_after, crate::proofs::Trying::packet_sent))]
fn try_first(
    alloc: Global,
    out: &mut Items<Packet>,
    server: &Server,
    now: u64,
    open_request: &mut OpenRequest,
) -> Result<(), AllocError>
    requires { now + 32000 < 2 ^ 64 }
    ensures request { OnOk result (open_request.new ≡ Definitions.tried now (Definitions.trying server.now open_request.old) open_request.old) }
    ensures packets { OnOk result (out.new ≡ out.old ++ Effects.upward_packets open_request.old (Definitions.trying server.now open_request.old)) }
{
    if !is_tried(open_request) {
        return Ok(());
    }
    let text = trying_text(alloc, server, open_request)?;
    let kept = AnswerText::copy(alloc, text.as_slice())?;
    out.push(answer_to(false, open_request, text))?;
    was_tried(now, open_request, kept);
    Ok(())
}

/// What a request becomes that is sent to its branches, behind its 100.
fn begin(
    alloc: Global,
    out: &mut Items<Packet>,
    server: &Server,
    now: u64,
    request: &mut OpenRequest,
) -> Result<Sent, AllocError>
    requires { now + 32000 < 2 ^ 64 }
    ensures change { IfOk result (λ sent. change_of request.new sent ≡ Definitions.opening server.now now request.old) }
    ensures packets { OnOk result (out.new ≡ out.old ++ Effects.upward_packets request.old (Definitions.trying server.now request.old)) }
{
    try_first(alloc, out, server, now, request)?;
    let sent = settle_alone(alloc, server, now, request)?;
    Ok(sent)
}

/// The requests to the branches.
fn requests_of(
    alloc: Global,
    server: &Server,
    request: &OpenRequest,
) -> Result<Items<Packet>, AllocError>
    ensures { IfOk result (λ packets. packets ≡ flat_map (Sendings.branch_packets server.now false request.now) request.now.branches) }
{
    let mut packets = Items::new(alloc);
    packets_of_branches(
        alloc,
        &mut packets,
        server,
        false,
        request,
        request.branches.as_slice(),
    )?;
    Ok(packets)
}

/// Sends a request to its branches: an INVITE that goes to anybody gets a 100 first, then the best answer goes to the
/// caller where none of the branches can be sent to, then the requests go to the branches that can (RFC 3261 16.2, 16.6;
/// the order is this project's profile). Adds the packets, and gives what went to the caller behind the 100, of which
/// dialogs learn. `AllocError` is the only refusal.
pub(crate) fn take_opening(
    alloc: Global,
    server: &Server,
    now: u64,
    open_request: &mut OpenRequest,
    out: &mut Items<Packet>,
) -> Result<Items<Upward>, AllocError>
    requires { now + 32000 < 2 ^ 64 }
    ensures request { OnOk result (open_request.new ≡ (Definitions.opening server.now now open_request.old).request) }
    ensures upward { IfOk result (λ upward. upward ≡ (Definitions.opening server.now now open_request.old).upward) }
    ensures packets { OnOk result (out.new ≡ out.old ++ Effects.opening_packets server.now now open_request.old) }
{
    let mut requests = requests_of(alloc, server, open_request)?;
    let sent = begin(alloc, out, server, now, open_request)?;
    let upward = change_packets(alloc, out, open_request, sent)?;
    put_packets(alloc, out, &mut requests)?;
    Ok(upward)
}
