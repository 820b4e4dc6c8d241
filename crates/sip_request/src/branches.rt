//! The timers of all branches, set and stopped when their request changes: each branch is matched with the same one before.
ghost use Rattle.std.specs.Prelude.{◌≡◌, ◌≤◌, ◌<◌, ◌+◌, ◌*◌, ◌^◌, ◌++◌, [], true, length, reverse, IfSome, if◌then◌else◌};
ghost use Rattle.sip_timers.specs.Moves.{IsHeld, Moves};
ghost use Rattle.sip_timers.specs.Setting.{SetsInOrder};
ghost use Rattle.model_transactions.specs.state.declared.branch.Phase.TheVariants.{Ended};
ghost use Rattle.model_transactions.specs.Ties.{branch_timers, branches_timers, owner_of, part_timers};
ghost use Rattle.sip_request.specs.Likeness.{AreAlike, AreKinds};
ghost use Rattle.sip_request.specs.Near.{AreBefore, IsNear};
ghost use Rattle.model_transactions.specs.Matching.{AreMatched, is_next};
ghost use Rattle.sip_request.specs.Order.{branches_in_order, keyed, left_branches, met_at};
ghost use Rattle.model_transactions.specs.context_model.Branches.{is_same_branch};
ghost use Rattle.sip_request.specs.Walk.{left_timers};

use crate::likeness::are_as_far;
use crate::naming::{branch_part, branch_part_here};
use crate::part::{set_part, stop_part, sync_part};
use model_transactions::TimerKeys;
use model_transactions::state::{Branch, OpenRequest, Phase};
use sip_timers::Timers;

/// Whether an open request as it was, and as it is to be, is an INVITE, and whether both give their parts timers alike.
#[derive(Clone, Copy)]
pub(crate) struct Kinds {
    pub(crate) was_invite: bool,
    pub(crate) next_invite: bool,
    pub(crate) alike: bool,
}

/// Keys of a branch, and how many of the branches before are through.
#[derive(Clone, Copy)]
struct Synced {
    keys: TimerKeys,
    place: usize,
}

/// Whether two branches are one.
fn is_same(was: &Branch, next: &Branch) -> bool
    ensures { result ≡ is_same_branch was.now next.now }
{
    was.number == next.number && was.is_cancel == next.is_cancel
}

/// Whether the branch at a place has keys and is this one.
fn stands_at(was: &OpenRequest, keys: &[TimerKeys], place: usize, branch: &Branch) -> bool
    ensures within { result ≡ true → (place < length was.now.branches) × (place < length keys.now) }
    ensures next { result ≡ is_next (left_branches was.now keys.now place) branch.now }
{
    if place >= keys.len() {
        return false;
    }
    let branches = was.branches.as_slice();
    if place >= branches.len() {
        return false;
    }
    is_same(&branches[place], branch)
}

/// Lets the timers of a branch stand, and no others of the branch at a place if that is the same one: each is compared.
fn change_branch<T: Timers>(
    timers: &mut T,
    was: &OpenRequest,
    was_keys: &[TimerKeys],
    place: usize,
    next: &OpenRequest,
    branch: &Branch,
    kinds: Kinds,
) -> Synced
    requires kinds { AreKinds was.now next.now kinds }
    requires held { IsHeld (T.pending timers.old) (left_timers was.now was_keys.now place) }
    requires room { 3 ≤ T.room timers.old }
    requires timed { IsNear (2 ^ 64) was.now }
    requires moments { T.reached timers.old + 2 ^ 30 ≤ 2 ^ 64 }
    requires near { AreBefore (T.reached timers.old + 2 ^ 30) (branch_timers next.now branch.now) }
    ensures moves { Moves (T.pending timers.old) (left_timers was.now was_keys.now place) (T.pending timers.new)
        (part_timers next.now.number (owner_of branch.now) result.keys (branch_timers next.now branch.now)
        ++ left_timers was.now was_keys.now result.place) }
    ensures sets { SetsInOrder (T.pending timers.old) (met_at was.now was_keys.now place branch.now) (T.pending timers.new)
        (reverse (part_timers next.now.number (owner_of branch.now) result.keys (branch_timers next.now branch.now))) }
    ensures place { result.place ≡ (if is_next (left_branches was.now was_keys.now place) branch.now then place + 1 else place) }
    ensures left { T.room timers.old ≤ T.room timers.new + 3 }
    ensures still { T.reached timers.new ≡ T.reached timers.old }
{
    let part = branch_part_here(next, kinds.next_invite, branch);
    if !stands_at(was, was_keys, place, branch) {
        let keys = set_part(timers, &part);
        return Synced { keys, place };
    }
    let branches = was.branches.as_slice();
    let stood = branch_part_here(was, kinds.was_invite, &branches[place]);
    let stood_keys = was_keys[place];
    let keys = sync_part(timers, &stood, stood_keys, &part);
    Synced {
        keys,
        place: place + 1,
    }
}

/// The branch at a place, if it is this one and as far as it was: its timers stand as they are.
fn kept_at(
    was: &OpenRequest,
    keys: &[TimerKeys],
    place: usize,
    next: &OpenRequest,
    branch: &Branch,
) -> Option<Synced>
    requires { AreAlike was.now next.now }
    ensures timers { IfSome result (λ s. left_timers was.now keys.now place
        ≡ part_timers next.now.number (owner_of branch.now) s.keys (branch_timers next.now branch.now) ++ left_timers was.now keys.now s.place) }
    ensures next { IfSome result (λ s. (s.place ≡ place + 1) × (is_next (left_branches was.now keys.now place) branch.now ≡ true)) }
{
    if place >= keys.len() {
        return None;
    }
    let branches = was.branches.as_slice();
    if place >= branches.len() {
        return None;
    }
    if !are_as_far(&branches[place], branch) {
        return None;
    }
    Some(Synced {
        keys: keys[place],
        place: place + 1,
    })
}

/// Lets the timers of a branch stand, and no others of the branch at a place if that is the same one. Where
/// the requests are alike, a branch that is as far as it was keeps its timers, and none is worked out.
#[tactic(auto, using(crate::proofs::Setting::stays_in_order))]
fn sync_branch<T: Timers>(
    timers: &mut T,
    was: &OpenRequest,
    was_keys: &[TimerKeys],
    place: usize,
    next: &OpenRequest,
    branch: &Branch,
    kinds: Kinds,
) -> Synced
    requires kinds { AreKinds was.now next.now kinds }
    requires held { IsHeld (T.pending timers.old) (left_timers was.now was_keys.now place) }
    requires room { 3 ≤ T.room timers.old }
    requires timed { IsNear (2 ^ 64) was.now }
    requires moments { T.reached timers.old + 2 ^ 30 ≤ 2 ^ 64 }
    requires near { AreBefore (T.reached timers.old + 2 ^ 30) (branch_timers next.now branch.now) }
    ensures moves { Moves (T.pending timers.old) (left_timers was.now was_keys.now place) (T.pending timers.new)
        (part_timers next.now.number (owner_of branch.now) result.keys (branch_timers next.now branch.now)
        ++ left_timers was.now was_keys.now result.place) }
    ensures sets { SetsInOrder (T.pending timers.old) (met_at was.now was_keys.now place branch.now) (T.pending timers.new)
        (reverse (part_timers next.now.number (owner_of branch.now) result.keys (branch_timers next.now branch.now))) }
    ensures place { result.place ≡ (if is_next (left_branches was.now was_keys.now place) branch.now then place + 1 else place) }
    ensures left { T.room timers.old ≤ T.room timers.new + 3 }
    ensures still { T.reached timers.new ≡ T.reached timers.old }
{
    if kinds.alike {
        if let Some(kept) = kept_at(was, was_keys, place, next, branch) {
            return kept;
        }
    }
    change_branch(timers, was, was_keys, place, next, branch, kinds)
}

/// Whether the transaction of a branch has ended.
fn has_ended(branch: &Branch) -> bool
    ensures { result ≡ true → branch.now.phase ≡ Ended }
{
    matches!(branch.phase, Phase::Ended)
}

/// Stops the timers of a branch. One that has ended has none.
#[tactic(auto, using(crate::proofs::Setting::stays_in_order))]
fn stop_branch<T: Timers>(timers: &mut T, was: &OpenRequest, branch: &Branch, keys: TimerKeys)
    requires held { IsHeld (T.pending timers.old) (part_timers was.now.number (owner_of branch.now) keys (branch_timers was.now branch.now)) }
    requires early { AreBefore (2 ^ 64) (branch_timers was.now branch.now) }
    ensures moves { Moves (T.pending timers.old) (part_timers was.now.number (owner_of branch.now) keys (branch_timers was.now branch.now))
        (T.pending timers.new) [] }
    ensures sets { SetsInOrder (T.pending timers.old) [] (T.pending timers.new) [] }
    ensures left { T.room timers.old ≤ T.room timers.new }
    ensures still { T.reached timers.new ≡ T.reached timers.old }
{
    if has_ended(branch) {
        return;
    }
    stop_part(timers, &branch_part(was, branch), keys);
}

/// Stops the timers of the branch at a place.
#[tactic(auto, using(crate::proofs::Setting::stays_in_order))]
pub(crate) fn stop_at<T: Timers>(
    timers: &mut T,
    was: &OpenRequest,
    keys: &[TimerKeys],
    place: usize,
)
    requires held { IsHeld (T.pending timers.old) (left_timers was.now keys.now place) }
    requires timed { IsNear (2 ^ 64) was.now }
    ensures moves { Moves (T.pending timers.old) (left_timers was.now keys.now place) (T.pending timers.new) (left_timers was.now keys.now (place + 1)) }
    ensures sets { SetsInOrder (T.pending timers.old) [] (T.pending timers.new) [] }
    ensures left { T.room timers.old ≤ T.room timers.new }
    ensures still { T.reached timers.new ≡ T.reached timers.old }
{
    if place >= keys.len() {
        return;
    }
    let branches = was.branches.as_slice();
    if place >= branches.len() {
        return;
    }
    stop_branch(timers, was, &branches[place], keys[place]);
}

/// Stops the timers of the branches from a place on.
pub(crate) fn stop_left<T: Timers>(
    timers: &mut T,
    was: &OpenRequest,
    keys: &[TimerKeys],
    place: usize,
)
    requires held { IsHeld (T.pending timers.old) (left_timers was.now keys.now place) }
    requires timed { IsNear (2 ^ 64) was.now }
    ensures moves { Moves (T.pending timers.old) (left_timers was.now keys.now place) (T.pending timers.new) [] }
    ensures sets { SetsInOrder (T.pending timers.old) [] (T.pending timers.new) [] }
    ensures left { T.room timers.old ≤ T.room timers.new }
    ensures still { T.reached timers.new ≡ T.reached timers.old }
{
    let mut at = place;
    while at < keys.len() {
        stop_at(timers, was, keys, at);
        at += 1;
    }
}

/// Lets the timers of the branches of an open request stand, and no others of its branches before: each branch is matched
/// with the next one before that is the same. Fills in the keys.
pub(crate) fn sync_branches<T: Timers>(
    timers: &mut T,
    was: &OpenRequest,
    was_keys: &[TimerKeys],
    next: &OpenRequest,
    keys: &mut [TimerKeys],
    kinds: Kinds,
)
    requires kinds { AreKinds was.now next.now kinds }
    requires held { IsHeld (T.pending timers.old) (branches_timers was.now was.now.branches was_keys.now) }
    requires keys { length keys.old ≡ length next.now.branches }
    requires room { 3 * length next.now.branches ≤ T.room timers.old }
    requires timed { IsNear (2 ^ 64) was.now }
    requires moments { T.reached timers.old + 2 ^ 30 ≤ 2 ^ 64 }
    requires near { IsNear (T.reached timers.old + 2 ^ 30) next.now }
    ensures moves { Moves (T.pending timers.old) (branches_timers was.now was.now.branches was_keys.now) (T.pending timers.new)
        (branches_timers next.now next.now.branches keys.new) }
    ensures sets { AreMatched (keyed was.now.branches was_keys.now) next.now.branches
        → SetsInOrder (T.pending timers.old) (branches_timers was.now was.now.branches was_keys.now) (T.pending timers.new)
        (branches_in_order next.now next.now.branches keys.new) }
    ensures left { T.room timers.old ≤ T.room timers.new + 3 * length next.now.branches }
    ensures still { T.reached timers.new ≡ T.reached timers.old }
{
    let mut place = 0;
    let branches = next.branches.as_slice();
    for (i, branch) in branches.iter().enumerate() {
        let synced = sync_branch(timers, was, was_keys, place, next, branch, kinds);
        keys[i] = synced.keys;
        place = synced.place;
    }
    if place < was_keys.len() {
        stop_left(timers, was, was_keys, place);
    }
}
