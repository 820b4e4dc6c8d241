ghost use Rattle.std.specs.Prelude.{◌≡◌, ◌<◌, ◌+◌, ◌^◌};
ghost use Rattle.sip_context_branches.specs.context_model.Branches as Contexts;

use crate::side::was_refused;
use sip_context_branches::state::{OpenRequest, Side, is_invite};
use sip_timers::T4;

/// The answering side after an ACK of its final answer.
fn acknowledged_side(now: u64, side: Side) -> Side
    requires { now + 5000 < 2 ^ 64 }
    ensures { result ≡ Contexts.acknowledged_side now side }
{
    match side {
        Side::Closing { .. } => Side::Acknowledged { until: now + T4 },
        other => other,
    }
}

/// The ACK of a final answer of an INVITE that is no 2xx: the answer goes again no more, and the side ends when Timer I
/// does. Any other ACK changes nothing (RFC 3261 17.2.1). Takes no memory.
pub(crate) fn take_ack(now: u64, request: &mut OpenRequest)
    requires { now + 5000 < 2 ^ 64 }
    ensures { request.new ≡ Contexts.acknowledged now request.old }
{
    if is_invite(request) && was_refused(&request.answer) {
        request.side = acknowledged_side(now, request.side);
    }
}
