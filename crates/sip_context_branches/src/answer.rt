ghost use Rattle.std.specs.Prelude.{◌≡◌, ◌+◌, ◌<◌, ◌^◌, [], ◌∷◌, Some, true, option_map, if◌then◌else◌};
ghost use Rattle.std.specs.Option.{option_to_list};
ghost use Rattle.model_context.specs.Branches;
ghost use Rattle.model_context.specs.Sending.{answer_to};
ghost use Rattle.model_context.specs.Retransmission;

use crate::wait::resend_after;
use model_context::state::{
    LastAnswer, OpenRequest, Resend, Side, is_failure, is_invite, is_success,
};
use sip_timers::T2;

/// Whether the last answer may still be sent again.
fn is_lasting(side: Side) -> bool
    ensures { result ≡ Retransmission.is_lasting side }
{
    match side {
        Side::Answering => true,
        Side::Closing { until: _ } => true,
        Side::Acknowledged { until: _ } => false,
        Side::Closed => false,
    }
}

/// Whether a final answer was sent of which no ACK came.
fn is_closing(side: Side) -> bool
    ensures { result ≡ Branches.is_closing side }
{
    match side {
        Side::Answering => false,
        Side::Closing { until: _ } => true,
        Side::Acknowledged { until: _ } => false,
        Side::Closed => false,
    }
}

/// Whether the last answer is a 300 to 699.
fn was_refused(request: &OpenRequest) -> bool
    ensures { result ≡ Branches.was_refused request.now.answer }
{
    match &request.answer {
        Some(answer) => is_failure(answer.status),
        None => false,
    }
}

/// Whether an answer goes again: while its transaction takes copies of the request, and no 2xx to an INVITE.
fn goes_again(request: &OpenRequest, answer: &LastAnswer) -> bool
    ensures { Retransmission.answers_again request.now (Some answer.now) ≡ (if result then answer_to true request.now answer.now.text ∷ [] else []) }
{
    is_lasting(request.side) && !(is_invite(request) && is_success(answer.status))
}

/// The text that a copy of an open request gets, and that goes again by itself when it is due: that of the last answer,
/// but not of a 2xx to an INVITE, which its core sends again, and none once an ACK came or the transaction ended
/// (RFC 3261 13.3.1.4, 17.2). Takes no memory.
pub fn answer_again(request: &OpenRequest) -> Option<&[u8]>
    ensures { option_to_list (option_map (λ text. answer_to true request.now text.now) result)
        ≡ Retransmission.answers_again request.now request.now.answer }
{
    match &request.answer {
        Some(answer) => {
            if goes_again(request, answer) {
                Some(answer.text.as_slice())
            } else {
                None
            }
        }
        None => None,
    }
}

/// Whether the last answer goes again by itself: a 300 to 699 to an INVITE does until its ACK comes (RFC 3261 17.2.1).
fn insists(request: &OpenRequest) -> bool
    ensures { result ≡ Retransmission.insists request.now }
{
    is_invite(request) && is_closing(request.side) && was_refused(request)
}

/// The moment in milliseconds at which the last answer of an open request goes again by itself, if it does: a 300 to 699
/// to an INVITE until its ACK comes (RFC 3261 17.2.1: Timer G). Takes no memory.
pub fn answer_due(request: &OpenRequest) -> Option<u64>
    ensures { result ≡ Retransmission.answer_due request.now }
{
    if insists(request) {
        Some(request.again.due)
    } else {
        None
    }
}

/// When the last answer goes again once it went: after twice the wait, but at most 4,000 ms (RFC 3261 17.2.1: Timer G).
pub(crate) fn answer_next(request: &OpenRequest) -> Resend
    requires { request.now.again.due + 32000 < 2 ^ 64 }
    ensures { result ≡ Retransmission.answer_next request.now }
{
    resend_after(T2, request.again)
}
