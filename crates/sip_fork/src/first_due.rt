//! What the timer that fires first is for: which part of which open request, and whether something goes again or a deadline passes
//! (RFC 3261 17).
ghost use Rattle.std.specs.Prelude.{◌≡◌, false, position, None, IfSome, IfNone};
ghost use Rattle.sip_dialog_updates.specs.state.State.{side_deadline, phase_deadline};
ghost use Rattle.model_steps.specs.context_model.Retransmission.{answer_due, branch_due};
ghost use Rattle.sip_fork.specs.Due.{GoesAgainBefore, IsDue, IsNotDue, IsOfOwner, is_at, is_branch_due, is_either, is_of};
ghost use Rattle.sip_timers.specs.declared.timer.Owner.TheVariants.{Server};

use sip_context::context_branches::{answer_due, branch_due};
use sip_dialog_updates::state::{Branch, OpenRequest, Phase, Side};
use sip_timers::Owner;

/// What of an open request is due: something goes again, or a deadline passes, of its answering side or of the branch at
/// a place among its branches (RFC 3261 17).
#[derive(Clone, Copy)]
pub enum Due {
    /// The last answer goes again.
    AnswerAgain,
    /// The deadline of the answering side passes.
    AnswerEnds,
    /// What the branch sends goes again.
    BranchAgain { place: usize },
    /// The deadline of the branch passes.
    BranchEnds { place: usize },
}

/// What is due first of all open requests: when, in milliseconds, of the open request at which place, and what.
#[derive(Clone, Copy)]
pub struct FirstDue {
    pub due: u64,
    pub place: usize,
    pub what: Due,
}

/// Whether a moment is this one.
fn is_at(moment: Option<u64>, due: u64) -> bool
    ensures { result ≡ is_at moment due }
{
    match moment {
        None => false,
        Some(moment) => moment == due,
    }
}

/// The deadline of the answering side.
fn side_deadline(side: Side) -> Option<u64>
    ensures { result ≡ side_deadline side }
{
    match side {
        Side::Answering => None,
        Side::Closing { until } => Some(until),
        Side::Acknowledged { until } => Some(until),
        Side::Closed => None,
    }
}

/// The deadline of a branch.
fn phase_deadline(phase: Phase) -> Option<u64>
    ensures { result ≡ phase_deadline phase }
{
    match phase {
        Phase::Unheard { until } => Some(until),
        Phase::Heard { until } => Some(until),
        Phase::Cancelled { until } => Some(until),
        Phase::Done { until, .. } => Some(until),
        Phase::Ended => None,
    }
}

/// Whether timers of this owner are those of a branch.
fn is_of(owner: Owner, branch: &Branch) -> bool
    ensures { result ≡ is_of owner branch.now }
{
    match owner {
        Owner::Server => false,
        Owner::Branch(number) => !branch.is_cancel && branch.number == number,
        Owner::Cancel(number) => branch.is_cancel && branch.number == number,
    }
}

/// What of the answering side is due at a moment.
#[tactic(auto, using(crate::proofs::Dues::at_is, crate::proofs::Dues::not_at, crate::proofs::Dues::neither))]
fn answer_what(request: &OpenRequest, due: u64) -> Option<Due>
    ensures some { IfSome result (IsDue request.now due) }
    ensures side { IfSome result (IsOfOwner request.now Server) }
    ensures again { IfSome result (GoesAgainBefore request.now due) }
    ensures none { IfNone result (is_either (answer_due request.now) (side_deadline request.now.side) due ≡ false) }
{
    if is_at(answer_due(request), due) {
        return Some(Due::AnswerAgain);
    }
    if is_at(side_deadline(request.side), due) {
        return Some(Due::AnswerEnds);
    }
    None
}

/// Whether something of a branch of this owner is due at a moment.
fn is_branch_due(request: &OpenRequest, owner: Owner, due: u64, branch: &Branch) -> bool
    ensures { result ≡ is_branch_due request.now owner due branch.now }
{
    if !is_of(owner, branch) {
        return false;
    }
    if is_at(branch_due(request, branch), due) {
        return true;
    }
    is_at(phase_deadline(branch.phase), due)
}

/// The place of the first branch of this owner of which something is due at a moment.
fn place_of(request: &OpenRequest, owner: Owner, due: u64) -> Option<usize>
    ensures { result ≡ position (is_branch_due request.now owner due) request.now.branches }
{
    request
        .branches
        .as_slice()
        .iter()
        .position(|branch| is_branch_due(request, owner, due, branch))
}

/// What of a branch of this owner is due at a moment.
fn branch_what(request: &OpenRequest, owner: Owner, due: u64) -> Option<Due>
    ensures some { IfSome result (IsDue request.now due) }
    ensures part { IfSome result (IsOfOwner request.now owner) }
    ensures again { IfSome result (GoesAgainBefore request.now due) }
    ensures none { IfNone result (position (is_branch_due request.now owner due) request.now.branches ≡ None) }
{
    let place = place_of(request, owner, due)?;
    if is_at(
        branch_due(request, &request.branches.as_slice()[place]),
        due,
    ) {
        return Some(Due::BranchAgain { place });
    }
    Some(Due::BranchEnds { place })
}

/// What of a part of an open request is due at a moment, if something is.
pub(crate) fn what_at(request: &OpenRequest, owner: Owner, due: u64) -> Option<Due>
    ensures some { IfSome result (IsDue request.now due) }
    ensures part { IfSome result (IsOfOwner request.now owner) }
    ensures again { IfSome result (GoesAgainBefore request.now due) }
    ensures none { IfNone result (IsNotDue request.now due owner) }
{
    match owner {
        Owner::Server => answer_what(request, due),
        Owner::Branch(_) => branch_what(request, owner, due),
        Owner::Cancel(_) => branch_what(request, owner, due),
    }
}
