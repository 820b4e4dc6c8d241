//! The timers that the program has: a wheel whose cost doesn't grow with the timers that stand, proved to fire as the plain list.
ghost use Rattle.std.specs.Prelude.{◌≡◌, ◌≢◌, ◌≤◌, ◌<◌, ℕ, List, [], Some, true, false, IfSome, MatchOption, length, max, if◌then◌else◌};
ghost use Rattle.sip_timers.specs.declared.timer.Timer.{Timer};
ghost use Rattle.sip_timers.specs.Timers.{keys_with, without};
ghost use Rattle.sip_timers_wheel.specs.Lists.{first_of, list_at};
ghost use Rattle.sip_timers_wheel.specs.Places.{slot_of, start_of};
ghost use Rattle.sip_timers_wheel.specs.Threads.{sooner};
ghost use Rattle.sip_timers_wheel.specs.Wheel.{IsWheel, IsFirstSlot, IsEmptyLevel, AreMoved, GoesElsewhere, pending_in};

use crate::levels::Levels;
use crate::places::{LATE, LEVELS, SLOTS, is_ahead, position, slot_of, width};
use sip_timers::laws::{earlier_fires_first, timer_stands};
use sip_timers::{Name, Timer, TimerError, Timers};
use std::alloc::Global;
use std::marker::Model;

/// The first distance past the greatest moment that was given to `pop_due` at which no timer is set, in
/// milliseconds.
const TOO_FAR: u64 = 1 << 30;

/// A timer wheel: 5 levels of 64 slots, of 1 ms each at the lowest level and 64 times as long at each further one. What is
/// due by the greatest moment that was given to `pop_due` stands in a slot of its own.
pub struct WheelTimers {
    levels: Levels,
    reached: u64,
    /// The timer that fires first, which is asked for more often than another one takes its place.
    first: Option<Timer>,
}

/// Written out, so that it is proved once and not wherever one is dropped.
impl Drop for WheelTimers {
    fn drop(self) {
        let WheelTimers {
            levels: _,
            reached: _,
            first: _,
        } = self;
    }
}

impl Model for WheelTimers {
    ghost use Rattle.sip_timers.specs.Queue.{TimerQueue};
    ghost use Rattle.sip_timers_wheel.specs.Wheel.{KnowsFirst, pending_in};

    ghost Value = { TimerQueue };

    ghost view = { λ w. record { pending = pending_in w.levels.lists; reached = w.reached; room = w.levels.room } };

    ghost invariant = { λ w. KnowsFirst w.reached w.levels.lists w.first };
}

impl Timers for WheelTimers {
    ghost pending = { λ t. t.pending };

    ghost reached = { λ t. t.reached };

    ghost room = { λ t. t.room };

    fn new(alloc: Global) -> Result<Self, TimerError> {
        Ok(WheelTimers {
            levels: Levels::new(alloc)?,
            reached: 0,
            first: None,
        })
    }

    fn reserve(&mut self, more: usize) -> Result<(), TimerError> {
        self.levels.reserve(more)?;
        Ok(())
    }

    fn add(&mut self, due: u64, name: Name) -> Result<usize, TimerError> {
        earlier_fires_first();
        timer_stands();
        if due.saturating_sub(self.reached) >= TOO_FAR {
            return Err(TimerError::TooFar);
        }
        let slot = slot_of(self.reached, due);
        let key = self.levels.push(slot, due, name)?;
        keep_sooner(&mut self.first, Timer { key, due, name });
        Ok(key)
    }

    fn cancel(&mut self, key: usize) {
        take_out(&mut self.levels, self.reached, &mut self.first, key);
    }

    fn next(&self) -> Option<(u64, Name)> {
        let first = self.first?;
        Some((first.due, first.name))
    }

    fn pop_due(&mut self, now: u64) -> Option<Timer> {
        self.reach(now);
        let first = self.first?;
        if first.due > now {
            return None;
        }
        take_out(&mut self.levels, self.reached, &mut self.first, first.key);
        Some(first)
    }
}

impl WheelTimers {
    /// Takes a moment as reached, unless a later one was.
    fn reach(&mut self, now: u64)
        ensures same { self.new.pending ≡ self.old.pending }
        ensures later { self.new.reached ≡ max self.old.reached now }
        ensures left { self.old.room ≤ self.new.room }
    {
        if self.reached < now {
            reach(&mut self.levels, self.reached, &self.first, now);
            self.reached = now;
        }
    }
}

/// The slot of the levels whose timers are due first, its first moment, and when the timer in front of it is due.
#[derive(Clone, Copy)]
struct FirstSlot {
    slot: usize,
    start: u64,
    due: u64,
}

/// The first slot of the levels that has a timer.
fn first_slot(levels: &Levels, reached: u64) -> Option<FirstSlot>
    requires { IsWheel reached levels.now.lists }
    ensures slot { MatchOption result ((level : ℕ) → level < 5 → IsEmptyLevel levels.now.lists level)
        (λ first. (end : ℕ) × IsFirstSlot reached levels.now.lists first.slot first.start end) }
    ensures front { IfSome result (λ first. slot_of reached first.due ≡ first.slot) }
{
    for level in 0..LEVELS {
        let from = ((position(level, reached) % 64 + 1) % 64) as usize;
        if let Some(offset) = levels.next_in(level, from) {
            let slot = level * SLOTS + (from + offset) % SLOTS;
            let due = levels.first_due(slot)?;
            let start = position(level, due) * width(level);
            return Some(FirstSlot { slot, start, due });
        }
    }
    None
}

/// Looks up the timer that fires first, in the place where it is kept, and remembers in its slot that it is due first there.
fn find_first(levels: &mut Levels, reached: u64, first: &mut Option<Timer>)
    requires { IsWheel reached levels.old.lists }
    ensures first { first.new ≡ first_of (pending_in levels.old.lists) }
    ensures same { levels.new.lists ≡ levels.old.lists }
    ensures left { levels.old.room ≤ levels.new.room }
{
    earlier_fires_first();
    if let Some(late) = levels.least(LATE) {
        *first = Some(late);
        return;
    }
    let Some(slot) = first_slot(levels, reached) else {
        *first = None;
        return;
    };
    levels.remember_least(slot.slot);
    *first = levels.least(slot.slot);
}

/// Takes the timer of a key out of its slot.
fn remove(levels: &mut Levels, reached: u64, key: usize)
    requires wheel { IsWheel reached levels.old.lists }
    requires present { 1 ≤ keys_with key (pending_in levels.old.lists) }
    ensures wheel { IsWheel reached levels.new.lists }
    ensures gone { pending_in levels.new.lists ≡ without key (pending_in levels.old.lists) }
    ensures once { keys_with key (pending_in levels.old.lists) ≤ 1 }
    ensures left { levels.old.room ≤ levels.new.room }
{
    earlier_fires_first();
    timer_stands();
    let due = levels.due_of(key);
    let slot = slot_of(reached, due);
    levels.remove(slot, key);
}

/// Whether a timer that is set for a moment fires before this one, if there is one.
fn is_sooner(due: u64, first: &Option<Timer>) -> bool
    ensures { (t : Timer) → t.due ≡ due → sooner first.now (Some t) ≡ (if result then Some t else first.now) }
{
    match first {
        Some(first) => due < first.due,
        None => true,
    }
}

/// Keeps a timer as the one that fires first, if it does.
fn keep_sooner(first: &mut Option<Timer>, timer: Timer)
    ensures { first.new ≡ sooner first.old (Some timer) }
{
    if is_sooner(timer.due, first) {
        *first = Some(timer);
    }
}

/// Whether a timer of another key fires first.
fn stays_first(first: &Option<Timer>, key: usize) -> bool
    ensures { MatchOption first.now (result ≡ false) (λ t. result ≡ true → t.key ≢ key) }
{
    match first {
        Some(first) => first.key != key,
        None => false,
    }
}

/// Takes the timer of a key out, where this one fires first, and keeps the one that fires first then.
fn take_out(levels: &mut Levels, reached: u64, first: &mut Option<Timer>, key: usize)
    requires wheel { IsWheel reached levels.old.lists }
    requires first { first.old ≡ first_of (pending_in levels.old.lists) }
    requires present { 1 ≤ keys_with key (pending_in levels.old.lists) }
    ensures wheel { IsWheel reached levels.new.lists }
    ensures first { first.new ≡ first_of (pending_in levels.new.lists) }
    ensures gone { pending_in levels.new.lists ≡ without key (pending_in levels.old.lists) }
    ensures once { keys_with key (pending_in levels.old.lists) ≤ 1 }
    ensures left { levels.old.room ≤ levels.new.room }
{
    remove(levels, reached, key);
    if !stays_first(first, key) {
        find_first(levels, reached, first);
    }
}

/// Whether each timer stands in a slot that begins after a moment, as the one tells that fires first.
fn are_ahead(reached: u64, first: &Option<Timer>, now: u64) -> bool
    ensures { result ≡ true → (t : Timer) → first.now ≡ Some t → (reached < t.due) × (now < start_of reached t.due) }
{
    match first {
        Some(first) => first.due > reached && is_ahead(reached, first.due, now),
        None => true,
    }
}

/// Moves the timers of each slot down that is reached by a moment, where this timer fires first.
fn reach(levels: &mut Levels, reached: u64, first: &Option<Timer>, now: u64)
    requires wheel { IsWheel reached levels.old.lists }
    requires first { first.now ≡ first_of (pending_in levels.old.lists) }
    requires later { reached ≤ now }
    ensures wheel { IsWheel now levels.new.lists }
    ensures same { pending_in levels.new.lists ≡ pending_in levels.old.lists }
    ensures left { levels.old.room ≤ levels.new.room }
{
    let mut so_far = reached;
    while so_far < now {
        so_far = move_down(levels, so_far, first, now);
    }
}

/// Moves the timers of the first slot down, where it begins by a moment, and gives the moment that is reached with this: that
/// one, unless the timer in front of the slot is due before it. Where the timer that fires first tells that no slot begins by
/// then, none is looked for.
fn move_down(levels: &mut Levels, reached: u64, first: &Option<Timer>, now: u64) -> u64
    requires wheel { IsWheel reached levels.old.lists }
    requires first { first.now ≡ first_of (pending_in levels.old.lists) }
    requires later { reached < now }
    ensures wheel { IsWheel result levels.new.lists }
    ensures further { reached < result }
    ensures within { result ≤ now }
    ensures same { pending_in levels.new.lists ≡ pending_in levels.old.lists }
    ensures left { levels.old.room ≤ levels.new.room }
{
    earlier_fires_first();
    if are_ahead(reached, first, now) {
        return now;
    }
    let Some(slot) = first_slot(levels, reached) else {
        return now;
    };
    if slot.start > now {
        return now;
    }
    let so_far = now.min(slot.due);
    empty_slot(levels, slot.slot, so_far);
    so_far
}

/// Moves each timer of a slot to that of its moment.
fn empty_slot(levels: &mut Levels, slot: usize, reached: u64)
    requires slots { (length levels.old.lists ≡ 321) × (slot < 321) }
    requires goes { GoesElsewhere reached slot levels.old.lists }
    ensures moved { (moved : List Timer) × AreMoved reached slot moved levels.old.lists levels.new.lists }
    ensures emptied { list_at levels.new.lists slot ≡ [] }
    ensures left { levels.old.room ≤ levels.new.room }
{
    while let Some(due) = levels.first_due(slot) {
        let to = slot_of(reached, due);
        levels.move_first(slot, to);
    }
}
