ghost use Rattle.std.specs.Prelude.{◌≡◌, ◌+◌, ◌<◌, ◌^◌};
ghost use Rattle.sip_context_branches.specs.state.State as States;
ghost use Rattle.sip_context_branches.specs.context_model.Branches as Contexts;
ghost use Rattle.sip_context.specs.Sides;

use sip_context_branches::state::{
    LastAnswer, OpenRequest, Resend, Side, is_failure, is_invite, is_provisional, is_success,
};
use sip_timers::T1;

/// Whether a request has no final answer yet.
pub fn is_answering(side: Side) -> bool
    ensures { result ≡ States.is_answering side }
{
    matches!(side, Side::Answering)
}

/// Whether a final answer was sent, and its transaction lives.
fn is_closing(side: Side) -> bool
    ensures { result ≡ Contexts.is_closing side }
{
    matches!(side, Side::Closing { .. })
}

/// Whether the answer that was sent last is a 2xx.
fn has_success(answer: &Option<LastAnswer>) -> bool
    ensures { result ≡ Contexts.has_success answer.now }
{
    match answer {
        None => false,
        Some(answer) => is_success(answer.status),
    }
}

/// Whether the answer that was sent last is one of 300 to 699.
pub(crate) fn was_refused(answer: &Option<LastAnswer>) -> bool
    ensures { result ≡ Contexts.was_refused answer.now }
{
    match answer {
        None => false,
        Some(answer) => is_failure(answer.status),
    }
}

/// Whether a request is an INVITE whose 2xx went to the caller, while its transaction lives (RFC 6026 7.1: Accepted).
pub fn is_accepted(request: &OpenRequest) -> bool
    ensures { result ≡ Contexts.is_accepted request.now }
{
    is_invite(request) && is_closing(request.side) && has_success(&request.answer)
}

/// The answering side after an answer of a status went to the caller.
pub(crate) fn side_after(now: u64, side: Side, status: u16) -> Side
    requires { now + 32000 < 2 ^ 64 }
    ensures { result ≡ Sides.side_after now side status }
{
    if is_answering(side) && !is_provisional(status) {
        Side::Closing {
            until: now + 64 * T1,
        }
    } else {
        side
    }
}
