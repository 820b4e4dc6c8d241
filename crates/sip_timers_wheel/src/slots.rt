//! The lists of timers, one for each slot, over one slab of rows. Which moments a slot is for is said in `places`.
ghost use Rattle.std.specs.Prelude.{◌≡◌, ◌≢◌, ◌≤◌, ◌<◌, ◌+◌, ◌==◌, ◌&&◌, not, List, [], ◌∷◌, ◌++◌, length, replicate, count_by};
ghost use Rattle.std.specs.Prelude.{slice_set, Some, IfOk, OnOk, OnErr};
ghost use Rattle.sip_timers.specs.Timers.{without, keys_with, first_due};
ghost use Rattle.sip_timers.specs.declared.timer.Timer.{Timer};
ghost use Rattle.sip_timers_wheel.specs.Lists.{list_at, concat, least};
ghost use Rattle.sip_timers_wheel.specs.Threads.{lists_of, timer_of, AreHeld, SameSize};
ghost use Rattle.slab.specs.Slab.{get, ContainsKey};
ghost use Rattle.sip_timers_wheel.specs.declared.row.TimerRow.{TimerRow};

use crate::head::ListHead;
use crate::least::{least_number, least_of};
use crate::row::{RowNumber, TimerRow};
use sip_timers::{Name, Timer};
use slab::Slab;
use std::alloc::{AllocError, Global};
use std::marker::Model;

/// How many timers there is room for from the start, half as many again as requests may be open, so that those that stand
/// aren't moved while fewer do.
const ROOM: usize = 1536;

/// Lists of timers, each in a slot of its own, by a number from 0 on. Each timer has a key, which no other
/// one that stands has, in whichever slot; a key may serve again once its timer doesn't stand any more.
#[derive(Drop)]
pub struct Slots {
    rows: Slab<TimerRow>,
    heads: Vec<ListHead>,
}

impl Model for Slots {
    ghost use Rattle.std.specs.Prelude.{◌-◌};
    ghost use Rattle.slab.specs.Slab.{slab_len};
    ghost use Rattle.sip_timers_wheel.specs.Lists.{TimerLists};
    ghost use Rattle.sip_timers_wheel.specs.Threads.{lists_of, AreHeld};

    ghost Value = { TimerLists };

    ghost view = { λ s. record { lists = lists_of s.rows s.heads.items; room = s.rows.capacity - slab_len s.rows } };

    ghost invariant = { λ s. AreHeld 0 s.rows s.heads.items (lists_of s.rows s.heads.items) };
}

impl Slots {
    /// So many empty slots.
    pub fn new(alloc: Global, count: usize) -> Result<Slots, AllocError>
        ensures { IfOk result (λ s. s.lists ≡ replicate count []) }
    {
        Ok(Slots {
            rows: Slab::with_capacity(alloc, ROOM)?,
            heads: vec![in alloc; ListHead::EMPTY; count]?,
        })
    }

    /// Makes room, so that the next `more` timers that are pushed take no memory. Room that was there
    /// stays, also at an error.
    pub fn reserve(&mut self, more: usize) -> Result<(), AllocError>
        ensures ok { OnOk result (more ≤ self.new.room) }
        ensures kept { self.old.room ≤ self.new.room }
        ensures same { self.new.lists ≡ self.old.lists }
    {
        self.rows.reserve(more)
    }

    /// Puts a timer behind the others of a slot, and gives its key. It is refused only where memory is
    /// wanted, and then nothing changes.
    pub fn push(&mut self, slot: usize, due: u64, name: Name) -> Result<usize, AllocError>
        requires { slot < length self.old.lists }
        ensures pushed { IfOk result (λ key. self.new.lists ≡ slice_set self.old.lists slot
            (list_at self.old.lists slot ++ record { key = key; due = due; name = name } ∷ [])) }
        ensures fresh { IfOk result (λ key. keys_with key (concat self.old.lists) ≡ 0) }
        ensures err { OnErr result (self.new.lists ≡ self.old.lists) }
        ensures memory { OnErr result (self.old.room ≡ 0) }
        ensures left { self.old.room ≤ self.new.room + 1 }
        ensures spared { OnErr result (self.old.room ≤ self.new.room) }
    {
        let key = self.rows.insert(TimerRow {
            due,
            name,
            previous: None,
            next: None,
        })?;
        put_into(&mut self.rows, &mut self.heads, slot, RowNumber(key));
        Ok(key)
    }

    /// Takes a timer of a slot out. Its memory serves again.
    pub fn remove(&mut self, slot: usize, key: usize)
        requires within { slot < length self.old.lists }
        requires present { 1 ≤ keys_with key (list_at self.old.lists slot) }
        ensures gone { self.new.lists ≡ slice_set self.old.lists slot (without key (list_at self.old.lists slot)) }
        ensures once { keys_with key (concat self.old.lists) ≤ 1 }
        ensures left { self.old.room ≤ self.new.room }
    {
        take_from(&mut self.rows, &mut self.heads, slot, RowNumber(key));
        self.rows.remove(key);
    }

    /// Moves the first timer of a slot behind the others of another one. It keeps its key, and no memory is
    /// taken.
    pub fn move_first(&mut self, from: usize, to: usize)
        requires from_within { from < length self.old.lists }
        requires to_within { to < length self.old.lists }
        requires differ { from ≢ to }
        requires present { 1 ≤ length (list_at self.old.lists from) }
        ensures moved { (first : Timer) (rest : List Timer) → list_at self.old.lists from ≡ first ∷ rest → self.new.lists
            ≡ slice_set (slice_set self.old.lists from rest) to (list_at self.old.lists to ++ first ∷ []) }
        ensures left { self.old.room ≤ self.new.room }
    {
        if let Some(number) = self.heads[from].first {
            take_from(&mut self.rows, &mut self.heads, from, number);
            put_into(&mut self.rows, &mut self.heads, to, number);
        }
    }

    /// When the first timer of a slot is due.
    pub fn first_due(&self, slot: usize) -> Option<u64>
        requires { slot < length self.now.lists }
        ensures { result ≡ first_due (list_at self.now.lists slot) }
    {
        self.heads[slot].first.map(|number| self.rows[number.0].due)
    }

    /// When the timer of a key is due.
    pub fn due_of(&self, key: usize) -> u64
        requires { 1 ≤ keys_with key (concat self.now.lists) }
        ensures { count_by (λ t. (t.key == key) && not (t.due == result)) (concat self.now.lists) ≡ 0 }
    {
        self.rows[key].due
    }

    /// The timer of a slot that is due first, of several of one moment the one in front. It is looked up
    /// in the whole slot, unless that is in rising order or the timer is remembered.
    pub fn least(&self, slot: usize) -> Option<Timer>
        requires { slot < length self.now.lists }
        ensures { result ≡ least (list_at self.now.lists slot) }
    {
        least_of(&self.rows, &self.heads[slot])
    }

    /// Looks up which timer of a slot is due first, if that isn't known, so that `least` takes a fixed time
    /// until that one is taken out.
    pub fn remember_least(&mut self, slot: usize)
        requires { slot < length self.old.lists }
        ensures same { self.new.lists ≡ self.old.lists }
        ensures left { self.old.room ≤ self.new.room }
    {
        if self.heads[slot].known_least().is_some() {
            return;
        }
        let least = least_number(&self.rows, &self.heads[slot]);
        self.heads[slot].least = least;
    }

    /// Whether no timer is in a slot.
    pub fn is_empty(&self, slot: usize) -> bool
        requires { slot < length self.now.lists }
        ensures { result ≡ (length (list_at self.now.lists slot) == 0) }
    {
        self.heads[slot].first.is_none()
    }
}

/// Takes the row of a timer out of the list of a slot. It stays in the slab.
fn take_from(rows: &mut Slab<TimerRow>, heads: &mut [ListHead], slot: usize, number: RowNumber)
    requires held { AreHeld 0 rows.old heads.old (lists_of rows.old heads.old) }
    requires within { slot < length heads.old }
    requires present { 1 ≤ keys_with number.0 (list_at (lists_of rows.old heads.old) slot) }
    ensures held { AreHeld 1 rows.new heads.new (lists_of rows.new heads.new) }
    ensures taken { lists_of rows.new heads.new ≡ slice_set (lists_of rows.old heads.old) slot
        (without number.0 (list_at (lists_of rows.old heads.old) slot)) }
    ensures gone { keys_with number.0 (concat (lists_of rows.new heads.new)) ≡ 0 }
    ensures stands { ContainsKey rows.new number.0 }
    ensures row { get rows.new number.0 ≡ get rows.old number.0 }
    ensures size { SameSize rows.old rows.new }
{
    heads[slot].take_out(rows, number);
}

/// Puts a row that stands in no list behind the others of a slot.
fn put_into(rows: &mut Slab<TimerRow>, heads: &mut [ListHead], slot: usize, number: RowNumber)
    requires held { AreHeld 1 rows.old heads.old (lists_of rows.old heads.old) }
    requires within { slot < length heads.old }
    requires stands { ContainsKey rows.old number.0 }
    requires fresh { keys_with number.0 (concat (lists_of rows.old heads.old)) ≡ 0 }
    ensures held { AreHeld 0 rows.new heads.new (lists_of rows.new heads.new) }
    ensures put { (row : TimerRow) → get rows.old number.0 ≡ Some row → lists_of rows.new heads.new
        ≡ slice_set (lists_of rows.old heads.old) slot (list_at (lists_of rows.old heads.old) slot ++ timer_of number.0 row ∷ []) }
    ensures size { SameSize rows.old rows.new }
{
    heads[slot].put_behind(rows, number);
}
