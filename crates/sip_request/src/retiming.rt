//! The timers of an open request moved when it changes: those of its answering side, then those of its branches (`branches`).
ghost use Rattle.std.specs.Prelude.{◌≡◌, ◌≤◌, ◌+◌, ◌^◌, [], true, length, reverse};
ghost use Rattle.sip_timers.specs.Timers.{KeysDiffer};
ghost use Rattle.sip_timers.specs.Moves.{IsHeld, Moves};
ghost use Rattle.sip_timers.specs.Setting.{SetsInOrder};
ghost use Rattle.sip_timers.specs.declared.timer.Owner.TheVariants as Of;
ghost use Rattle.model_transactions.specs.Ties.{part_timers, side_timers, timers_of};
ghost use Rattle.sip_request.specs.Likeness.{AreAlike};
ghost use Rattle.sip_request.specs.Near.{AreBefore, IsNear, most_timers};
ghost use Rattle.model_transactions.specs.Matching.{AreMatched};
ghost use Rattle.sip_request.specs.Order.{in_order, keyed};

use crate::branches::{stop_left, sync_branches};
use crate::likeness::{are_sides_as_far, kinds_of, new_kinds};
use crate::naming::side_part;
use crate::part::{set_part, stop_part, sync_part};
use model_transactions::TimerKeys;
use model_transactions::state::OpenRequest;
use sip_timers::Timers;

/// Lets the timers of the answering side stand, and no others of those that it had before. Where the requests are alike, one
/// that is as far as it was keeps its timers, and none is worked out. Gives the keys.
#[tactic(auto, using(crate::proofs::Setting::stays_in_order))]
fn retime_side<T: Timers>(
    timers: &mut T,
    was: &OpenRequest,
    keys: TimerKeys,
    next: &OpenRequest,
    alike: bool,
) -> TimerKeys
    requires alike { alike ≡ true → AreAlike was.now next.now }
    requires held { IsHeld (T.pending timers.old) (part_timers was.now.number Of.Server keys (side_timers was.now)) }
    requires room { 3 ≤ T.room timers.old }
    requires near { AreBefore (T.reached timers.old + 2 ^ 30) (side_timers next.now) }
    ensures moves { Moves (T.pending timers.old) (part_timers was.now.number Of.Server keys (side_timers was.now)) (T.pending timers.new)
        (part_timers next.now.number Of.Server result (side_timers next.now)) }
    ensures sets { SetsInOrder (T.pending timers.old) (part_timers was.now.number Of.Server keys (side_timers was.now)) (T.pending timers.new)
        (reverse (part_timers next.now.number Of.Server result (side_timers next.now))) }
    ensures left { T.room timers.old ≤ T.room timers.new + 3 }
    ensures still { T.reached timers.new ≡ T.reached timers.old }
{
    if alike && are_sides_as_far(was, next) {
        return keys;
    }
    let stood = side_part(was);
    let part = side_part(next);
    sync_part(timers, &stood, keys, &part)
}

/// Lets the timers of an open request stand, for which there is room, and no others of those that it named before. Gives
/// the keys of its answering side, and fills in those of its branches.
pub(crate) fn retime<T: Timers>(
    timers: &mut T,
    was: &OpenRequest,
    was_side: TimerKeys,
    was_keys: &[TimerKeys],
    next: &OpenRequest,
    keys: &mut [TimerKeys],
) -> TimerKeys
    requires held { IsHeld (T.pending timers.old) (timers_of was.now was_side was_keys.now) }
    requires keys { length keys.old ≡ length next.now.branches }
    requires room { most_timers next.now ≤ T.room timers.old }
    requires timed { IsNear (2 ^ 64) was.now }
    requires moments { T.reached timers.old + 2 ^ 30 ≤ 2 ^ 64 }
    requires near { IsNear (T.reached timers.old + 2 ^ 30) next.now }
    ensures moves { Moves (T.pending timers.old) (timers_of was.now was_side was_keys.now) (T.pending timers.new)
        (timers_of next.now result keys.new) }
    ensures sets { AreMatched (keyed was.now.branches was_keys.now) next.now.branches
        → SetsInOrder (T.pending timers.old) (timers_of was.now was_side was_keys.now) (T.pending timers.new) (in_order next.now result keys.new) }
    ensures left { T.room timers.old ≤ T.room timers.new + most_timers next.now }
    ensures still { T.reached timers.new ≡ T.reached timers.old }
{
    let kinds = kinds_of(was, next);
    let side = retime_side(timers, was, was_side, next, kinds.alike);
    sync_branches(timers, was, was_keys, next, keys, kinds);
    side
}

/// Sets the timers of an open request that named none.
pub(crate) fn begin<T: Timers>(
    timers: &mut T,
    next: &OpenRequest,
    keys: &mut [TimerKeys],
) -> TimerKeys
    requires apart { KeysDiffer (T.pending timers.old) }
    requires keys { length keys.old ≡ length next.now.branches }
    requires room { most_timers next.now ≤ T.room timers.old }
    requires moments { T.reached timers.old + 2 ^ 30 ≤ 2 ^ 64 }
    requires near { IsNear (T.reached timers.old + 2 ^ 30) next.now }
    ensures moves { Moves (T.pending timers.old) [] (T.pending timers.new) (timers_of next.now result keys.new) }
    ensures sets { SetsInOrder (T.pending timers.old) [] (T.pending timers.new) (in_order next.now result keys.new) }
    ensures left { T.room timers.old ≤ T.room timers.new + most_timers next.now }
    ensures still { T.reached timers.new ≡ T.reached timers.old }
{
    let part = side_part(next);
    let side = set_part(timers, &part);
    sync_branches(timers, next, &[], next, keys, new_kinds(next));
    side
}

/// Stops the timers of an open request.
pub(crate) fn end<T: Timers>(timers: &mut T, was: &OpenRequest, side: TimerKeys, keys: &[TimerKeys])
    requires held { IsHeld (T.pending timers.old) (timers_of was.now side keys.now) }
    requires timed { IsNear (2 ^ 64) was.now }
    ensures moves { Moves (T.pending timers.old) (timers_of was.now side keys.now) (T.pending timers.new) [] }
    ensures sets { SetsInOrder (T.pending timers.old) [] (T.pending timers.new) [] }
    ensures left { T.room timers.old ≤ T.room timers.new }
    ensures still { T.reached timers.new ≡ T.reached timers.old }
{
    stop_part(timers, &side_part(was), side);
    stop_left(timers, was, keys, 0);
}
