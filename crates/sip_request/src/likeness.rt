ghost use Rattle.std.specs.Prelude.{◌≡◌, true};
ghost use Rattle.sip_request.specs.Likeness.{AreAsFar, AreKinds, AreSidesAsFar};

use crate::branches::Kinds;
use crate::naming::was_refused;
use model_transactions::state::{Branch, OpenRequest, is_invite};

/// Whether two open requests are INVITEs, and whether they give their parts timers alike: they have one number, and both are
/// INVITEs or neither is.
pub(crate) fn kinds_of(was: &OpenRequest, next: &OpenRequest) -> Kinds
    ensures { AreKinds was.now next.now result }
{
    let was_invite = is_invite(was);
    let next_invite = is_invite(next);
    Kinds {
        was_invite,
        next_invite,
        alike: was.number == next.number && was_invite == next_invite,
    }
}

/// Whether an open request is an INVITE, of which nothing stood before.
pub(crate) fn new_kinds(next: &OpenRequest) -> Kinds
    ensures { AreKinds next.now next.now result }
{
    let invite = is_invite(next);
    Kinds {
        was_invite: invite,
        next_invite: invite,
        alike: false,
    }
}

/// Whether two branches are one, which is as far as it was.
pub(crate) fn are_as_far(was: &Branch, next: &Branch) -> bool
    ensures { result ≡ true → AreAsFar was.now next.now }
{
    was.number == next.number
        && was.is_cancel == next.is_cancel
        && was.phase.is_same(next.phase)
        && was.again.is_same(next.again)
}

/// Whether the answering sides of two open requests are as far, and both refused or neither.
pub(crate) fn are_sides_as_far(was: &OpenRequest, next: &OpenRequest) -> bool
    ensures { result ≡ true → AreSidesAsFar was.now next.now }
{
    was.side.is_same(next.side)
        && was.again.is_same(next.again)
        && was_refused(&was.answer) == was_refused(&next.answer)
}
