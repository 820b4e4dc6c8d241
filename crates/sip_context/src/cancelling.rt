ghost use Rattle.std.specs.Prelude.{◌≡◌, ◌<◌, ◌+◌, ◌^◌, IfOk};
ghost use Rattle.sip_context_branches.specs.context_model.Branches as Contexts;
ghost use Rattle.sip_context.specs.Sent.{change_of};

use crate::sent::Sent;
use crate::settling::settle_alone;
use crate::side::is_answering;
use sip_context_branches::mark;
use sip_context_branches::state::{OpenRequest, Server, is_invite};
use std::alloc::{AllocError, Global};

/// A CANCEL from the caller: an INVITE without a final answer is cancelled, each branch once a provisional response
/// came from it, and nothing else is (RFC 3261 9.1, 16.10). `AllocError` is the only refusal.
pub(crate) fn take_cancel(
    alloc: Global,
    server: &Server,
    now: u64,
    request: &mut OpenRequest,
) -> Result<Sent, AllocError>
    requires { now + 32000 < 2 ^ 64 }
    ensures { IfOk result (λ sent. change_of request.new sent ≡ Contexts.cancelled server.now now request.old) }
{
    if is_invite(request) && is_answering(request.side) {
        mark(&mut request.branches);
    }
    let sent = settle_alone(alloc, server, now, request)?;
    Ok(sent)
}
