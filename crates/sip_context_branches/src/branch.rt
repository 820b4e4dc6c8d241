//! One branch of an open request: told from others, turned to another phase, and cancelled (RFC 3261 9.1).
ghost use Rattle.std.specs.Prelude.{◌≡◌, ◌+◌, ◌<◌, ◌^◌, true, if◌then◌else◌, IfOk, OnOk};
ghost use Rattle.model_context.specs.Branches as Contexts;

use crate::phase::{is_final, is_ready};
use model_context::state::{Branch, Phase, Resend, first_resend};
use sip_base::Shared;
use sip_text::Bytes;
use sip_timers::T1;
use std::alloc::AllocError;

/// Whether two branches are one: their numbers and whether they are CANCELs agree.
pub fn is_same_branch(left: &Branch, right: &Branch) -> bool
    ensures { result ≡ Contexts.is_same_branch left.now right.now }
{
    left.number == right.number && left.is_cancel == right.is_cancel
}

/// Gives a branch a phase, To of its final answer, and what another one says of when it goes again.
fn give_phase(
    place: &mut Branch,
    branch: &Branch,
    final_to: &Option<Shared<Bytes>>,
    phase: Phase,
) -> Result<(), AllocError>
    ensures { OnOk result (place.new ≡ Contexts.turned (record branch.now { final_to = final_to.now }) phase place.old) }
{
    place.final_to = final_to.clone()?;
    place.phase = phase;
    place.again = branch.again;
    Ok(())
}

/// Does so if both are one branch.
pub(crate) fn give_phase_if_same(
    place: &mut Branch,
    branch: &Branch,
    final_to: &Option<Shared<Bytes>>,
    phase: Phase,
) -> Result<(), AllocError>
    ensures { OnOk result (place.new ≡ Contexts.phased (record branch.now { final_to = final_to.now }) phase place.old) }
{
    if is_same_branch(place, branch) {
        give_phase(place, branch, final_to, phase)
    } else {
        Ok(())
    }
}

/// A branch is to be cancelled if it is this one.
pub(crate) fn want_same(place: &mut Branch, branch: &Branch)
    ensures { place.new ≡ (if Contexts.is_same_branch place.old branch.now then record place.old { wants_cancel = true } else place.old) }
{
    if is_same_branch(place, branch) {
        place.wants_cancel = true;
    }
}

/// A branch to a target is to be cancelled if it has no final answer.
pub(crate) fn mark_branch(branch: &mut Branch)
    ensures { branch.new ≡ Contexts.marked_branch branch.old }
{
    if !branch.is_cancel && !is_final(branch.phase) {
        branch.wants_cancel = true;
    }
}

/// Whether a branch to a target is sent its CANCEL now (RFC 3261 9.1).
pub fn is_cancellable(branch: &Branch) -> bool
    ensures { result ≡ Contexts.is_cancellable branch.now }
{
    !branch.is_cancel && branch.wants_cancel && is_ready(branch.phase)
}

/// The CANCEL of a branch, which is sent now.
pub(crate) fn cancel_branch(now: u64, branch: &Branch) -> Result<Branch, AllocError>
    requires { now + 32000 < 2 ^ 64 }
    ensures { IfOk result (λ cancel. cancel ≡ Contexts.cancel_branch now branch.now) }
{
    let mut cancel = branch.clone()?;
    cancel.is_cancel = true;
    cancel.wants_cancel = false;
    cancel.phase = Phase::Unheard {
        until: now + 64 * T1,
    };
    cancel.again = first_resend(now);
    Ok(cancel)
}

/// The branch, which is sent its CANCEL now and has some time more for its final answer.
pub(crate) fn held_branch(now: u64, branch: &Branch) -> Result<Branch, AllocError>
    requires { now + 32000 < 2 ^ 64 }
    ensures { IfOk result (λ held. held ≡ Contexts.held_branch now branch.now) }
{
    let mut held = branch.clone()?;
    held.phase = Phase::Cancelled {
        until: now + 64 * T1,
    };
    Ok(held)
}
