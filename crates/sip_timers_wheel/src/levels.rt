//! The slots of all levels, with marks that tell which have a timer. Which slot a moment belongs to is said in `places`.
ghost use Rattle.std.specs.Prelude.{◌≡◌, ◌≢◌, ◌≤◌, ◌<◌, ◌+◌, ◌==◌, ◌&&◌, not, List, [], ◌∷◌, ◌++◌, length, replicate, count_by};
ghost use Rattle.std.specs.Prelude.{slice_set, IfOk, OnOk, OnErr, MatchOption};
ghost use Rattle.sip_timers.specs.Timers.{without, keys_with, first_due};
ghost use Rattle.sip_timers.specs.declared.timer.Timer.{Timer};
ghost use Rattle.sip_timers_wheel.specs.Lists.{list_at, concat, least};
ghost use Rattle.sip_timers_wheel.specs.Marks.{IsMarkedAt};
ghost use Rattle.sip_timers_wheel.specs.Wheel.{IsEmptyLevel, IsFirstFrom};

use crate::Slots;
use crate::marks::{next_mark, with_mark, without_mark};
use crate::places::{LATE, LEVELS, SLOTS};
use sip_timers::{Name, Timer};
use std::alloc::{AllocError, Global};
use std::marker::Model;

/// The slots of the levels and that of what is late, with a word of marks for each level, which tell the slots that have
/// a timer.
#[derive(Drop)]
pub struct Levels {
    slots: Slots,
    marks: [u64; LEVELS],
}

impl Model for Levels {
    ghost use Rattle.std.specs.Prelude.{◌≡◌, length};
    ghost use Rattle.sip_timers_wheel.specs.Lists.{TimerLists};
    ghost use Rattle.sip_timers_wheel.specs.Marks.{AreMarked};

    ghost Value = { TimerLists };

    ghost view = { λ l. l.slots };

    ghost invariant = { λ l. (length l.slots.lists ≡ 321) × AreMarked l.marks l.slots.lists };
}

impl Levels {
    /// No timer in any slot.
    pub fn new(alloc: Global) -> Result<Levels, AllocError>
        ensures { IfOk result (λ l. l.lists ≡ replicate 321 []) }
    {
        Ok(Levels {
            slots: Slots::new(alloc, LATE + 1)?,
            marks: [0; LEVELS],
        })
    }

    /// Makes room, so that the next `more` timers that are pushed take no memory. Room that was there stays, also at an
    /// error.
    pub fn reserve(&mut self, more: usize) -> Result<(), AllocError>
        ensures ok { OnOk result (more ≤ self.new.room) }
        ensures kept { self.old.room ≤ self.new.room }
        ensures same { self.new.lists ≡ self.old.lists }
    {
        self.slots.reserve(more)
    }

    /// Puts a timer behind the others of a slot, and gives its key. It is refused only where memory is wanted, and then
    /// nothing changes.
    pub fn push(&mut self, slot: usize, due: u64, name: Name) -> Result<usize, AllocError>
        requires { slot < 321 }
        ensures pushed { IfOk result (λ key. self.new.lists ≡ slice_set self.old.lists slot
            (list_at self.old.lists slot ++ record { key = key; due = due; name = name } ∷ [])) }
        ensures fresh { IfOk result (λ key. keys_with key (concat self.old.lists) ≡ 0) }
        ensures err { OnErr result (self.new.lists ≡ self.old.lists) }
        ensures memory { OnErr result (self.old.room ≡ 0) }
        ensures left { self.old.room ≤ self.new.room + 1 }
        ensures spared { OnErr result (self.old.room ≤ self.new.room) }
    {
        let key = self.slots.push(slot, due, name)?;
        mark(&mut self.marks, &self.slots, slot);
        Ok(key)
    }

    /// Takes a timer of a slot out.
    pub fn remove(&mut self, slot: usize, key: usize)
        requires within { slot < 321 }
        requires present { 1 ≤ keys_with key (list_at self.old.lists slot) }
        ensures gone { self.new.lists ≡ slice_set self.old.lists slot (without key (list_at self.old.lists slot)) }
        ensures once { keys_with key (concat self.old.lists) ≤ 1 }
        ensures left { self.old.room ≤ self.new.room }
    {
        self.slots.remove(slot, key);
        mark(&mut self.marks, &self.slots, slot);
    }

    /// Moves the first timer of a slot behind the others of another one.
    pub fn move_first(&mut self, from: usize, to: usize)
        requires from_within { from < 321 }
        requires to_within { to < 321 }
        requires differ { from ≢ to }
        requires present { 1 ≤ length (list_at self.old.lists from) }
        ensures moved { (first : Timer) (rest : List Timer) → list_at self.old.lists from ≡ first ∷ rest → self.new.lists
            ≡ slice_set (slice_set self.old.lists from rest) to (list_at self.old.lists to ++ first ∷ []) }
        ensures left { self.old.room ≤ self.new.room }
    {
        self.slots.move_first(from, to);
        mark(&mut self.marks, &self.slots, from);
        mark(&mut self.marks, &self.slots, to);
    }

    /// When the first timer of a slot is due.
    pub fn first_due(&self, slot: usize) -> Option<u64>
        requires { slot < 321 }
        ensures { result ≡ first_due (list_at self.now.lists slot) }
    {
        self.slots.first_due(slot)
    }

    /// When the timer of a key is due.
    pub fn due_of(&self, key: usize) -> u64
        requires { 1 ≤ keys_with key (concat self.now.lists) }
        ensures { count_by (λ t. (t.key == key) && not (t.due == result)) (concat self.now.lists) ≡ 0 }
    {
        self.slots.due_of(key)
    }

    /// The timer of a slot that is due first.
    pub fn least(&self, slot: usize) -> Option<Timer>
        requires { slot < 321 }
        ensures { result ≡ least (list_at self.now.lists slot) }
    {
        self.slots.least(slot)
    }

    /// Looks up which timer of a slot is due first, and keeps it.
    pub fn remember_least(&mut self, slot: usize)
        requires { slot < 321 }
        ensures same { self.new.lists ≡ self.old.lists }
        ensures left { self.old.room ≤ self.new.room }
    {
        self.slots.remember_least(slot);
    }

    /// How far the first slot of a level is that has a timer, from one slot on and round.
    pub fn next_in(&self, level: usize, from: usize) -> Option<usize>
        requires { (level < 5) × (from < 64) }
        ensures { MatchOption result (IsEmptyLevel self.now.lists level) (λ offset. IsFirstFrom self.now.lists level from offset) }
    {
        let offset = next_mark(self.marks[level], from as u32)?;
        Some(offset as usize)
    }
}

/// Marks a slot of the levels by whether it has a timer.
fn mark(marks: &mut [u64; LEVELS], slots: &Slots, slot: usize)
    requires { slot < length slots.now.lists }
    ensures { IsMarkedAt marks.old marks.new slots.now.lists slot }
{
    if slot < LATE {
        let word = marks[slot / SLOTS];
        let place = (slot % SLOTS) as u32;
        marks[slot / SLOTS] = if slots.is_empty(slot) {
            without_mark(word, place)
        } else {
            with_mark(word, place)
        };
    }
}
