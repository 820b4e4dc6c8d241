ghost use Rattle.std.specs.Prelude.{◌≡◌, ◌<◌, ◌+◌, ◌^◌, IfOk, OnOk};
ghost use Rattle.sip_context_branches.specs.state.declared.branch.Phase.TheVariants.{Heard};
ghost use Rattle.sip_context_branches.specs.context_model.Branches as Contexts;
ghost use Rattle.sip_context.specs.Sent.{change_of};

use crate::finals::{end, give_up};
use crate::sent::Sent;
use crate::settling::settle_alone;
use sip_context_branches::state::{Branch, OpenRequest, Phase, Server, Side, is_invite};
use sip_context_branches::want_cancel;
use std::alloc::{AllocError, Global};

/// Timer C of a branch to a target that was heard: an INVITE is to be cancelled, another request counts as 408
/// (RFC 3261 16.8, 17.1.2.2).
fn expire_heard(request: &mut OpenRequest, branch: &Branch, until: u64) -> Result<(), AllocError>
    ensures { OnOk result (request.new ≡ Contexts.target_overdue request.old branch.now (Heard until)) }
{
    if is_invite(request) {
        want_cancel(&mut request.branches, branch);
        Ok(())
    } else {
        give_up(request, branch, 408)
    }
}

/// What becomes of a branch to a target at its deadline.
fn expire_target(request: &mut OpenRequest, branch: &Branch) -> Result<(), AllocError>
    ensures { OnOk result (request.new ≡ Contexts.target_overdue request.old branch.now branch.now.phase) }
{
    match branch.phase {
        Phase::Unheard { .. } => give_up(request, branch, 408),
        Phase::Heard { until } => expire_heard(request, branch, until),
        Phase::Cancelled { .. } => give_up(request, branch, 487),
        Phase::Done { .. } => end(request, branch),
        Phase::Ended => Ok(()),
    }
}

/// What becomes of a branch at its deadline.
fn expire(request: &mut OpenRequest, branch: &Branch) -> Result<(), AllocError>
    ensures { OnOk result (request.new ≡ Contexts.branch_overdue request.old branch.now) }
{
    if branch.is_cancel {
        end(request, branch)
    } else {
        expire_target(request, branch)
    }
}

/// The deadline of a branch passes: an INVITE that was heard is to be cancelled (Timer C), one that was sent a CANCEL
/// counts as 487, and one that gave no final answer as 408; a CANCEL, and a branch that was done, end with nothing
/// (RFC 3261 16.8, 17.1). `AllocError` is the only refusal.
pub(crate) fn pass_branch(
    alloc: Global,
    server: &Server,
    now: u64,
    request: &mut OpenRequest,
    branch: &Branch,
) -> Result<Sent, AllocError>
    requires { now + 32000 < 2 ^ 64 }
    ensures { IfOk result (λ sent. change_of request.new sent ≡ Contexts.overdue server.now now request.old branch.now) }
{
    expire(request, branch)?;
    let sent = settle_alone(alloc, server, now, request)?;
    Ok(sent)
}

/// The deadline of the answering side passes: its transaction ends (RFC 3261 17.2: Timers H, I and J; RFC 6026: L).
/// `AllocError` is the only refusal. In the server no deadline comes to it: the room above ends the side where it stands.
pub(crate) fn pass_side(
    alloc: Global,
    server: &Server,
    now: u64,
    request: &mut OpenRequest,
) -> Result<Sent, AllocError>
    requires { now + 32000 < 2 ^ 64 }
    ensures { IfOk result (λ sent. change_of request.new sent ≡ Contexts.side_overdue server.now now request.old) }
{
    request.side = Side::Closed;
    let sent = settle_alone(alloc, server, now, request)?;
    Ok(sent)
}
