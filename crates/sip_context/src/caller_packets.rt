//! The answers to a request, as packets to where its top Via says (RFC 3261 18.2.2); those made here are written, too (8.2.6).
ghost use Rattle.std.specs.Prelude.{◌≡◌, [], IfOk};
ghost use Rattle.sip_message_form.specs.Text.{text_of};
ghost use Rattle.sip_edit_response.specs.Reply.{reply_of};
ghost use Rattle.sip_context_branches.specs.context_model.Sending as Spec;

use sip_context_branches::context_model::state::{KeptAnswer, KeptRequest, OpenRequest, Server};
use sip_edit_response::{ToTag, reply_view, respond, to_tag};
use sip_event::{Packet, Ticket};
use sip_message_fields::Fields;
use sip_message_form::View;
use sip_text::Bytes;
use std::alloc::{AllocError, Global};

/// The packet of an answer, of which this is the text, to a request that came in the datagram of a number (RFC 3261 18.2.2).
/// Takes no memory.
pub fn answer_packet(again: bool, number: u64, request: &KeptRequest, text: Bytes) -> Packet
    ensures { result ≡ Spec.answer_packet again number request.now.message request.now.source text }
{
    Packet {
        to: request.reply_to(),
        bytes: text,
        ticket: Ticket {
            datagram: number,
            branch: 0,
        },
        again,
    }
}

/// The packet of an answer to an open request, of which this is the text. Takes no memory.
pub fn answer_to(again: bool, open_request: &OpenRequest, text: Bytes) -> Packet
    ensures { result ≡ Spec.answer_to again open_request.now text }
{
    let request = open_request.request.get();
    answer_packet(again, open_request.number, request, text)
}

/// The text of an answer that is made here to a request that came in the datagram of a number (RFC 3261 8.2.6): with this
/// status and these further fields. `AllocError` is the only refusal.
pub fn made_answer(
    alloc: Global,
    server: &Server,
    number: u64,
    request: &KeptRequest,
    status: u16,
    extras: &Fields,
) -> Result<Bytes, AllocError>
    ensures { IfOk result (λ text. text ≡ text_of (Spec.made_answer server.now number request.now.message request.now.source status extras.now)) }
{
    let tag = ToTag {
        boot: server.word,
        number,
    };
    respond(
        alloc,
        request.message(),
        request.received_via(),
        status,
        tag,
        extras,
    )
}

/// A response to a request without further fields, kept with its text.
fn written_reply(
    alloc: Global,
    request: &View<'_>,
    status: u16,
    to_tag: &[u8],
) -> Result<KeptAnswer, AllocError>
    ensures { IfOk result (λ written. written ≡ reply_of request.now status to_tag.now []) }
{
    let extras = Fields::new(alloc);
    let answer = reply_view(alloc, request, status, to_tag, &extras)?;
    KeptAnswer::of_view(alloc, &answer)
}

/// The answer of a status that is made here to an open request, as a message that is kept with its text. `AllocError` is
/// the only refusal.
pub fn written_answer(
    alloc: Global,
    server: &Server,
    open_request: &OpenRequest,
    status: u16,
) -> Result<KeptAnswer, AllocError>
    ensures { IfOk result (λ written. written ≡ Spec.made_answer server.now open_request.now.number
        open_request.now.request.message open_request.now.request.source status []) }
{
    let request = open_request.request.get();
    let received = request.with_top_via(alloc, request.received_via())?;
    let tag = to_tag(alloc, server.word, open_request.number)?;
    written_reply(alloc, &received, status, tag.as_slice())
}
