//! A request that is answered at once, and is open from then on for its copies (RFC 3261 8.2.6, 17.2).
//! Which status and which fields its answer has is decided by who calls.
ghost use Rattle.std.specs.Prelude.{◌≡◌, ◌+◌, ◌<◌, ◌^◌, false, Some, IfOk};
ghost use Rattle.sip_message_form.specs.Text.{text_of};
ghost use Rattle.sip_transaction_table.specs.Key.{key_of};
ghost use Rattle.sip_context_branches.specs.context_model.Opening as Definitions;
ghost use Rattle.sip_context_branches.specs.context_model.Sending as Sendings;
ghost use Rattle.sip_forwarding.specs.Arrivals.{arrived};

use crate::arrival::{Arrival, arriving};
use model_steps::state::{AnswerText, KeptRequest, LastAnswer, OpenRequest, Server, Side};
use sip_base::Shared;
use sip_context::{answer_packet, made_answer};
use sip_event::Packet;
use sip_message_fields::Fields;
use sip_timers::T1;
use sip_transaction_table::TransactionKey;
use std::alloc::{AllocError, Global};

/// A final answer that is given at once: its packet, and the request that is open from then on.
#[derive(Drop)]
pub struct Replied {
    pub packet: Packet,
    pub request: OpenRequest,
}

/// An answer that is made here: its packet, and what is kept of it.
#[derive(Drop)]
struct Made {
    packet: Packet,
    answer: LastAnswer,
}

/// Makes the answer of a status with further fields.
fn make(
    alloc: Global,
    server: &Server,
    arrival: Arrival,
    request: &KeptRequest,
    status: u16,
    extras: &Fields,
) -> Result<Made, AllocError>
    ensures packet { IfOk result (λ made. made.packet ≡ Sendings.answer_packet false arrival.number request.now.message request.now.source
        (text_of (Sendings.made_answer server.now arrival.number request.now.message request.now.source status extras.now))) }
    ensures answer { IfOk result
        (λ made. made.answer ≡ record {
          status = status;
          text = text_of
              (Sendings.made_answer server.now arrival.number request.now.message request.now.source status extras.now);
        }) }
{
    let text = made_answer(alloc, server, arrival.number, request, status, extras)?;
    let kept = AnswerText::copy(alloc, text.as_slice())?;
    let packet = answer_packet(false, arrival.number, request, text);
    let answer = LastAnswer { status, text: kept };
    Ok(Made { packet, answer })
}

/// A request that came and was answered at once.
fn closing(
    alloc: Global,
    arrival: Arrival,
    key: Shared<TransactionKey>,
    request: Shared<KeptRequest>,
    answer: LastAnswer,
) -> OpenRequest
    requires key { key_of request.message ≡ Some key }
    requires now { arrival.now + 32000 < 2 ^ 64 }
    ensures { result ≡ Definitions.closing (arrived arrival request) request.message answer.status answer.text }
{
    let mut open_request = arriving(alloc, arrival, key, request);
    open_request.answer = Some(answer);
    open_request.side = Side::Closing {
        until: arrival.now + 64 * T1,
    };
    open_request
}

/// A request that came gets its final answer of a status at once, made here with further fields: the packet of the answer,
/// and the request, which is open from then on (RFC 3261 8.2.6, 17.2). Its source is the one that it was kept with.
/// `AllocError` is the only refusal.
pub fn reply(
    alloc: Global,
    server: &Server,
    arrival: Arrival,
    key: Shared<TransactionKey>,
    request: Shared<KeptRequest>,
    status: u16,
    extras: &Fields,
) -> Result<Replied, AllocError>
    requires key { key_of request.message ≡ Some key }
    requires now { arrival.now + 32000 < 2 ^ 64 }
    ensures packet { IfOk result (λ replied. replied.packet ≡ Sendings.answer_packet false arrival.number request.message request.source
        (text_of (Sendings.made_answer server.now arrival.number request.message request.source status extras.now))) }
    ensures request { IfOk result (λ replied. replied.request ≡ Definitions.closing (arrived arrival request) request.message status
        (text_of (Sendings.made_answer server.now arrival.number request.message request.source status extras.now))) }
{
    let made = make(alloc, server, arrival, request.get(), status, extras)?;
    let packet = made.packet;
    let request = closing(alloc, arrival, key, request, made.answer);
    Ok(Replied { packet, request })
}
