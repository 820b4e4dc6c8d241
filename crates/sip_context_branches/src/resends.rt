ghost use Rattle.std.specs.Prelude.{◌≡◌, ◌+◌, ◌<◌, ◌^◌, map};
ghost use Rattle.model_context.specs.Branches as Contexts;
ghost use Rattle.model_context.specs.Retransmission;

use crate::answer::answer_next;
use crate::retransmission::branch_next;
use model_context::state::{Branch, OpenRequest, Resend};

/// Whether two branches are one: their numbers and whether they are CANCELs agree.
fn is_same_branch(left: &Branch, right: &Branch) -> bool
    ensures { result ≡ Contexts.is_same_branch left.now right.now }
{
    left.number == right.number && left.is_cancel == right.is_cancel
}

/// Sets when a branch goes again, if it is this one.
fn set_resend(place: &mut Branch, branch: &Branch, next: Resend)
    ensures { place.new ≡ Retransmission.resent_branch branch.now next place.old }
{
    if is_same_branch(place, branch) {
        place.again = next;
    }
}

/// Sets when one of some branches goes again.
fn set_resends(branches: &mut [Branch], branch: &Branch, next: Resend)
    ensures { branches.new ≡ map (Retransmission.resent_branch branch.now next) branches.old }
{
    for place in branches.iter_mut() {
        set_resend(place, branch, next);
    }
}

/// A branch of an open request sent again what it sends, at its moment: the next time is set. Takes no memory.
pub fn branch_went(request: &mut OpenRequest, branch: &Branch)
    requires { branch.now.again.due + 32000 < 2 ^ 64 }
    ensures { request.new ≡ Retransmission.with_resend branch.now request.old }
{
    let next = branch_next(request, branch);
    set_resends(request.branches.as_mut_slice(), branch, next);
}

/// The last answer of an open request went again, at its moment: the next time is set. Takes no memory.
pub fn answer_went(request: &mut OpenRequest)
    requires { request.old.again.due + 32000 < 2 ^ 64 }
    ensures { request.new ≡ record request.old { again = Retransmission.answer_next request.old } }
{
    request.again = answer_next(request);
}
