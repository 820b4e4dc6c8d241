ghost use Rattle.std.specs.Prelude.{◌≡◌, ◌<◌, ◌+◌, ◌^◌, IfOk};
ghost use Rattle.sip_context_branches.specs.context_model.Branches as Contexts;
ghost use Rattle.sip_context.specs.Sent.{change_of};

use crate::finals::give_up;
use crate::sent::Sent;
use crate::settling::settle_alone;
use sip_context_branches::state::{Branch, OpenRequest, Server};
use std::alloc::{AllocError, Global};

/// The request of a branch of which nothing was heard could not be sent: it counts as 503 (RFC 3261 16.9).
/// `AllocError` is the only refusal.
pub(crate) fn take_fault(
    alloc: Global,
    server: &Server,
    now: u64,
    request: &mut OpenRequest,
    branch: &Branch,
) -> Result<Sent, AllocError>
    requires { now + 32000 < 2 ^ 64 }
    ensures { IfOk result (λ sent. change_of request.new sent ≡ Contexts.send_failed server.now now request.old branch.now) }
{
    give_up(request, branch, 503)?;
    let sent = settle_alone(alloc, server, now, request)?;
    Ok(sent)
}
