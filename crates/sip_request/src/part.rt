//! The timers of one part of an open request, set and stopped: one that stays the same keeps its key and its place.
//! Which timers it has is said in `naming`.
ghost use Rattle.std.specs.Prelude.{◌≡◌, ◌≤◌, ◌<◌, ◌+◌, ◌^◌, []};
ghost use Rattle.sip_timers.specs.Moves.{IsHeld, Moves};
ghost use Rattle.sip_timers.specs.Setting.{SetsInOrder};
ghost use Rattle.model_transactions.specs.declared.timer_keys.TimerKeys.{TimerKeys};
ghost use Rattle.sip_request.specs.Order.{AreInSlots, part_in_order};
ghost use Rattle.sip_request.specs.Slots.{IsBefore, IsPartNear, name_of, part_standing, slot_timers};

use crate::slots::{change, clear, set, standing};
use model_transactions::TimerKeys;
use sip_timers::{Letter, Name, Owner, Timer, Timers};

/// The timers that a part of an open request has by its phase, each with its letter and the moment at which it is due, in
/// milliseconds. No part has more than these three.
#[derive(Clone, Copy)]
pub struct PartTimers {
    /// The timer at which something goes again: A, E or G.
    pub again: Option<(Letter, u64)>,
    /// The timer at which the transaction ends: B, D, F, H, I, J, K, L or M.
    pub last: Option<(Letter, u64)>,
    /// The proxy's own timer of a branch of an INVITE: C, or the wait for the answer to one that was sent CANCEL.
    pub call: Option<(Letter, u64)>,
}

/// A part of an open request, with its timers.
#[derive(Clone, Copy)]
pub struct RequestPart {
    /// The number of the open request.
    pub request: u64,
    /// Which part of it.
    pub owner: Owner,
    pub timers: PartTimers,
}

/// Keys of a part without timers.
pub(crate) const NO_KEYS: TimerKeys = TimerKeys {
    again: 0,
    last: 0,
    call: 0,
};

/// What a timer of a part is for.
fn name_of(part: &RequestPart, letter: Letter) -> Name
    ensures { result ≡ name_of part.now.request part.now.owner letter }
{
    Name {
        request: part.request,
        owner: part.owner,
        letter,
    }
}

/// Lets the timer of a slot of a part stand, and no other one in place of the timer of a slot of a part before: two timers
/// are compared only where both slots have one. Gives the key.
#[inline(always)]
#[tactic(auto, using(crate::proofs::Setting::stays_in_order, crate::proofs::Setting::beside_in_order))]
fn sync_slot<T: Timers>(
    timers: &mut T,
    was: &RequestPart,
    key: usize,
    stood: Option<(Letter, u64)>,
    next: &RequestPart,
    slot: Option<(Letter, u64)>,
) -> usize
    requires held { IsHeld (T.pending timers.old) (slot_timers was.now.request was.now.owner key stood) }
    requires room { 1 ≤ T.room timers.old }
    requires near { IsBefore (T.reached timers.old + 2 ^ 30) slot }
    ensures moves { Moves (T.pending timers.old) (slot_timers was.now.request was.now.owner key stood) (T.pending timers.new)
        (slot_timers next.now.request next.now.owner result slot) }
    ensures sets { SetsInOrder (T.pending timers.old) (slot_timers was.now.request was.now.owner key stood) (T.pending timers.new)
        (slot_timers next.now.request next.now.owner result slot) }
    ensures left { T.room timers.old ≤ T.room timers.new + 1 }
    ensures still { T.reached timers.new ≡ T.reached timers.old }
{
    match (stood, slot) {
        (None, None) => 0,
        (Some(_), None) => {
            stop_slot(timers, was, key, stood);
            0
        }
        (None, Some(_)) => set_slot(timers, next, slot),
        (Some((letter, due)), Some((next_letter, next_due))) => {
            let name = name_of(was, letter);
            let timer = Timer { key, due, name };
            change(timers, timer, next_due, name_of(next, next_letter))
        }
    }
}

/// Lets the timers of a part stand, for which there is room, and no others: of those that stood before, one that is the
/// same stays as it is, and another one is stopped. What is due last comes first, so that of those that are stopped at most
/// one is the first of all that stand, in whose place the next one has to be looked up. Gives the keys.
#[inline(always)]
pub(crate) fn sync_part<T: Timers>(
    timers: &mut T,
    was: &RequestPart,
    keys: TimerKeys,
    next: &RequestPart,
) -> TimerKeys
    requires held { IsHeld (T.pending timers.old) (part_standing keys was.now) }
    requires room { 3 ≤ T.room timers.old }
    requires near { IsPartNear (T.reached timers.old + 2 ^ 30) next.now.timers }
    ensures moves { Moves (T.pending timers.old) (part_standing keys was.now) (T.pending timers.new) (part_standing result next.now) }
    ensures sets { AreInSlots was.now.timers → AreInSlots next.now.timers
        → SetsInOrder (T.pending timers.old) (part_standing keys was.now) (T.pending timers.new) (part_in_order result next.now) }
    ensures left { T.room timers.old ≤ T.room timers.new + 3 }
    ensures still { T.reached timers.new ≡ T.reached timers.old }
{
    let call = sync_slot(
        timers,
        was,
        keys.call,
        was.timers.call,
        next,
        next.timers.call,
    );
    let last = sync_slot(
        timers,
        was,
        keys.last,
        was.timers.last,
        next,
        next.timers.last,
    );
    let again = sync_slot(
        timers,
        was,
        keys.again,
        was.timers.again,
        next,
        next.timers.again,
    );
    TimerKeys { again, last, call }
}

/// Sets the timer of a slot of a part, for which there is room. Gives the key.
#[inline(always)]
#[tactic(auto, using(crate::proofs::Setting::stays_in_order, crate::proofs::Setting::set_in_order))]
fn set_slot<T: Timers>(timers: &mut T, part: &RequestPart, slot: Option<(Letter, u64)>) -> usize
    requires room { 1 ≤ T.room timers.old }
    requires near { IsBefore (T.reached timers.old + 2 ^ 30) slot }
    ensures moves { Moves (T.pending timers.old) [] (T.pending timers.new) (slot_timers part.now.request part.now.owner result slot) }
    ensures sets { SetsInOrder (T.pending timers.old) [] (T.pending timers.new) (slot_timers part.now.request part.now.owner result slot) }
    ensures left { T.room timers.old ≤ T.room timers.new + 1 }
    ensures still { T.reached timers.new ≡ T.reached timers.old }
{
    match slot {
        None => 0,
        Some((letter, due)) => set(timers, due, name_of(part, letter)),
    }
}

/// Sets the timers of a part, for which there is room, in the order in which `sync_part` does. Gives the keys.
#[inline(always)]
pub(crate) fn set_part<T: Timers>(timers: &mut T, part: &RequestPart) -> TimerKeys
    requires room { 3 ≤ T.room timers.old }
    requires near { IsPartNear (T.reached timers.old + 2 ^ 30) part.now.timers }
    ensures moves { Moves (T.pending timers.old) [] (T.pending timers.new) (part_standing result part.now) }
    ensures sets { SetsInOrder (T.pending timers.old) [] (T.pending timers.new) (part_in_order result part.now) }
    ensures left { T.room timers.old ≤ T.room timers.new + 3 }
    ensures still { T.reached timers.new ≡ T.reached timers.old }
{
    let call = set_slot(timers, part, part.timers.call);
    let last = set_slot(timers, part, part.timers.last);
    let again = set_slot(timers, part, part.timers.again);
    TimerKeys { again, last, call }
}

/// Stops the timer of a slot of a part.
#[inline(always)]
fn stop_slot<T: Timers>(timers: &mut T, was: &RequestPart, key: usize, stood: Option<(Letter, u64)>)
    requires { IsHeld (T.pending timers.old) (slot_timers was.now.request was.now.owner key stood) }
    ensures moves { Moves (T.pending timers.old) (slot_timers was.now.request was.now.owner key stood) (T.pending timers.new) [] }
    ensures sets { SetsInOrder (T.pending timers.old) [] (T.pending timers.new) [] }
    ensures left { T.room timers.old ≤ T.room timers.new }
    ensures still { T.reached timers.new ≡ T.reached timers.old }
{
    let timer = standing(was.request, was.owner, key, stood);
    clear(timers, timer);
}

/// Stops the timers of a part, what is due last first.
#[inline(always)]
pub(crate) fn stop_part<T: Timers>(timers: &mut T, was: &RequestPart, keys: TimerKeys)
    requires { IsHeld (T.pending timers.old) (part_standing keys was.now) }
    ensures moves { Moves (T.pending timers.old) (part_standing keys was.now) (T.pending timers.new) [] }
    ensures sets { SetsInOrder (T.pending timers.old) [] (T.pending timers.new) [] }
    ensures left { T.room timers.old ≤ T.room timers.new }
    ensures still { T.reached timers.new ≡ T.reached timers.old }
{
    stop_slot(timers, was, keys.call, was.timers.call);
    stop_slot(timers, was, keys.last, was.timers.last);
    stop_slot(timers, was, keys.again, was.timers.again);
}
