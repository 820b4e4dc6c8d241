ghost use Rattle.std.specs.Prelude.{◌≡◌, ◌==◌, true, ℕ, count_by};
ghost use Rattle.std.specs.List.{list_any};
ghost use Rattle.sip_dialog_updates.specs.state.declared.branch.Branch.{Branch};
ghost use Rattle.sip_dialog_updates.specs.state.declared.branch.Phase.TheVariants.{Ended};
ghost use Rattle.sip_dialog_updates.specs.state.declared.open_request.OpenRequest.{OpenRequest};
ghost use Rattle.sip_dialog_updates.specs.state.declared.open_request.Side.TheVariants.{Closed};
ghost use Rattle.sip_dialog_updates.specs.state.declared.server.Server.{Server};
ghost use Rattle.model_steps.specs.context_model.Branches as Contexts;
ghost use Rattle.sip_fork.specs.Quiet.{IsThrough, alone, branch_ends_alone, is_through, lingers};

use sip_context::context_branches::{is_cancellable, is_same_branch};
use sip_context::is_answering;
use sip_dialog_updates::state::{Branch, OpenRequest, Phase};

/// Whether a branch is sent a CANCEL now.
fn is_cancel_due(branches: &[Branch]) -> bool
    ensures { result ≡ list_any Contexts.is_cancellable branches.now }
{
    branches.iter().any(|branch| is_cancellable(branch))
}

/// Whether no other one of some branches is the same as one of them.
fn is_alone(branches: &[Branch], branch: &Branch) -> bool
    ensures { result ≡ (count_by (λ (x : Branch). Contexts.is_same_branch x branch.now) branches.now == 1) }
{
    let mut count: usize = 0;
    for other in branches {
        if is_same_branch(other, branch) {
            count += 1;
        }
    }
    count == 1
}

/// Whether nothing goes to the caller of a request any more by itself, and no branch is sent a CANCEL.
fn is_through(request: &OpenRequest) -> bool
    ensures exact { result ≡ is_through request.now }
    ensures through { result ≡ true → IsThrough request.now }
{
    if is_answering(request.side) {
        return false;
    }
    if is_cancel_due(request.branches.as_slice()) {
        return false;
    }
    true
}

/// Whether a branch ends by its deadline, with nothing.
#[tactic(auto, using(crate::proofs::Quietly::cancel_ends, crate::proofs::Quietly::done_ends))]
fn only_ends(branch: &Branch) -> bool
    ensures exact { result ≡ lingers branch.now }
    ensures ends { result ≡ true → (r : OpenRequest) → Contexts.branch_overdue r branch.now ≡ Contexts.with_phase branch.now Ended r }
{
    if branch.is_cancel {
        return true;
    }
    match branch.phase {
        Phase::Done { .. } => true,
        Phase::Unheard { .. } | Phase::Heard { .. } | Phase::Cancelled { .. } | Phase::Ended =>
            false,
    }
}

/// Whether the deadline of a branch does no more than to end it: nothing is sent, and nothing else of the request changes.
/// Takes no memory.
#[tactic(auto, using(crate::proofs::Quietly::branch_alone, crate::proofs::Quietly::one_by_test))]
pub(crate) fn branch_ends_quietly(request: &OpenRequest, branch: &Branch) -> bool
    ensures exact { result ≡ branch_ends_alone request.now branch.now }
    ensures quiet { result ≡ true → (server : Server) (now : ℕ)
        → Contexts.overdue server now request.now branch.now ≡ alone (Contexts.with_phase branch.now Ended request.now) }
    ensures one { result ≡ true → count_by (λ (x : Branch). Contexts.is_same_branch x branch.now) request.now.branches ≡ 1 }
{
    if !only_ends(branch) {
        return false;
    }
    if !is_through(request) {
        return false;
    }
    is_alone(request.branches.as_slice(), branch)
}

/// Whether the deadline of the answering side does no more than to close it: nothing is sent, and nothing else of the request
/// changes. Takes no memory.
#[tactic(auto, using(crate::proofs::Quietly::side_alone))]
pub(crate) fn side_ends_quietly(request: &OpenRequest) -> bool
    ensures exact { result ≡ is_through request.now }
    ensures quiet { result ≡ true → (server : Server) (now : ℕ)
        → Contexts.side_overdue server now request.now ≡ alone (record request.now { side = Closed }) }
{
    is_through(request)
}
