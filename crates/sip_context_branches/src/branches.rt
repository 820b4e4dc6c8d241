ghost use Rattle.std.specs.Prelude.{◌≡◌, true, not, if◌then◌else◌, map, filter, OnOk};
ghost use Rattle.std.specs.List.{list_all};
ghost use Rattle.model_context.specs.state.declared.branch.Branch.{Branch};
ghost use Rattle.model_context.specs.state.State as States;
ghost use Rattle.model_context.specs.Branches as Contexts;

use crate::branch::{give_phase_if_same, mark_branch, want_same};
use crate::phase::is_final;
use model_context::state::{Branch, Phase};
use sip_base::Shared;
use sip_text::{Bytes, Items};
use std::alloc::AllocError;

/// Gives one of some branches another phase, and To of its final answer.
fn give_phase_among(
    branches: &mut [Branch],
    branch: &Branch,
    final_to: &Option<Shared<Bytes>>,
    phase: Phase,
) -> Result<(), AllocError>
    ensures { OnOk result (branches.new ≡ map (Contexts.phased (record branch.now { final_to = final_to.now }) phase) branches.old) }
{
    for place in branches.iter_mut() {
        give_phase_if_same(place, branch, final_to, phase)?;
    }
    Ok(())
}

/// Gives a branch another phase, and what it says here of its ACK and of when it goes again. `AllocError` is the only
/// refusal; the branches are some of them then.
pub fn set_phase(
    branches: &mut Items<Branch>,
    branch: &Branch,
    phase: Phase,
) -> Result<(), AllocError>
    ensures { OnOk result (branches.new ≡ map (Contexts.phased branch.now phase) branches.old) }
{
    give_phase_among(branches.as_mut_slice(), branch, &branch.final_to, phase)
}

/// Gives a branch another phase, To of its final answer, with which its ACK is made, and what it says here of when it goes
/// again. `AllocError` is the only refusal; the branches are some of them then.
pub fn set_final(
    branches: &mut Items<Branch>,
    branch: &Branch,
    final_to: &Option<Shared<Bytes>>,
    phase: Phase,
) -> Result<(), AllocError>
    ensures { OnOk result (branches.new ≡ map (Contexts.phased (record branch.now { final_to = final_to.now }) phase) branches.old) }
{
    give_phase_among(branches.as_mut_slice(), branch, final_to, phase)
}

/// One of some branches is to be cancelled.
fn want_among(branches: &mut [Branch], branch: &Branch)
    ensures { branches.new ≡ map (λ (x : Branch). if Contexts.is_same_branch x branch.now then record x { wants_cancel = true } else x) branches.old }
{
    for place in branches.iter_mut() {
        want_same(place, branch);
    }
}

/// A branch is to be cancelled (RFC 3261 16.8: Timer C).
pub fn want_cancel(branches: &mut Items<Branch>, branch: &Branch)
    ensures { branches.new ≡ map (λ (x : Branch). if Contexts.is_same_branch x branch.now then record x { wants_cancel = true } else x) branches.old }
{
    want_among(branches.as_mut_slice(), branch);
}

/// Each of some branches to a target that has no final answer is to be cancelled.
fn mark_among(branches: &mut [Branch])
    ensures { branches.new ≡ map Contexts.marked_branch branches.old }
{
    for branch in branches.iter_mut() {
        mark_branch(branch);
    }
}

/// Each branch to a target that has no final answer is to be cancelled (RFC 3261 16.7 step 10, 16.10).
pub fn mark(branches: &mut Items<Branch>)
    ensures { branches.new ≡ map Contexts.marked_branch branches.old }
{
    mark_among(branches.as_mut_slice());
}

/// Whether every branch to a target has a final answer.
pub fn all_final(branches: &[Branch]) -> bool
    ensures { result ≡ list_all (λ (b : Branch). States.is_final b.phase) (filter (λ (b : Branch). not b.is_cancel) branches.now) }
{
    for branch in branches {
        if !branch.is_cancel && !is_final(branch.phase) {
            return false;
        }
    }
    true
}
