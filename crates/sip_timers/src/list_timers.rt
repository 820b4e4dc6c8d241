//! The timers as a plain list, against which a reader can check other kinds of `Timers`. The program has a wheel (`sip_timers_wheel`).
ghost use Rattle.std.specs.Prelude.{◌≡◌, ◌≤◌, ◌<◌, ◌+◌, ◌-◌, ℕ, ◌∷◌, Some, None, OnOk, OnErr, IfSome, IfNone, MatchOption, vec_len, vec_capacity};
ghost use Rattle.sip_timers.specs.Timers.{placed, without, first_due, first_named, place_at, popped};

use crate::error::TimerError;
use crate::timer::{Name, Timer};
use crate::timers::Timers;
use std::alloc::{AllocError, Global};
use std::marker::Model;

/// The first distance past the greatest moment that was given to `pop_due` at which no timer is set, in
/// milliseconds.
const TOO_FAR: u64 = 1 << 30;

/// A plain list of timers. Each key serves once: want of keys, after 2^64 timers, counts as want of
/// memory.
pub struct ListTimers {
    /// In the order in which they fire.
    rows: Vec<Timer>,
    next_key: usize,
    reached: u64,
}

/// Written out, so that it is proved once and not wherever one is dropped.
impl Drop for ListTimers {
    fn drop(self) {
        let ListTimers {
            rows: _,
            next_key: _,
            reached: _,
        } = self;
    }
}

impl Model for ListTimers {
    ghost use Rattle.std.specs.Prelude.{◌≡◌, ◌-◌, ◌^◌, min, vec_len, vec_capacity};
    ghost use Rattle.sip_timers.specs.Timers.{keys_from};
    ghost use Rattle.sip_timers.specs.Queue.{TimerQueue};

    ghost Value = { TimerQueue };

    ghost view = { λ t. record {
      pending = t.rows.items;
      reached = t.reached;
      room = min (vec_capacity t.rows - vec_len t.rows)
          (2 ^ 64 - 1 - t.next_key);
    } };

    ghost invariant = { λ t. keys_from t.next_key t.rows.items ≡ 0 };
}

impl Timers for ListTimers {
    ghost pending = { λ t. t.pending };

    ghost reached = { λ t. t.reached };

    ghost room = { λ t. t.room };

    fn new(alloc: Global) -> Result<Self, TimerError> {
        Ok(ListTimers {
            rows: Vec::new(alloc),
            next_key: 0,
            reached: 0,
        })
    }

    fn reserve(&mut self, more: usize) -> Result<(), TimerError> {
        if more > usize::MAX - self.next_key {
            return Err(TimerError::NoMemory);
        }
        self.rows.reserve(more)?;
        Ok(())
    }

    fn add(&mut self, due: u64, name: Name) -> Result<usize, TimerError> {
        if due.saturating_sub(self.reached) >= TOO_FAR {
            return Err(TimerError::TooFar);
        }
        let key = self.next_key;
        if key == usize::MAX {
            return Err(TimerError::NoMemory);
        }
        place(&mut self.rows, Timer { key, due, name })?;
        self.next_key = key + 1;
        Ok(key)
    }

    fn cancel(&mut self, key: usize) {
        remove_key(&mut self.rows, key);
    }

    fn next(&self) -> Option<(u64, Name)> {
        first_of(&self.rows)
    }

    fn pop_due(&mut self, now: u64) -> Option<Timer> {
        if self.reached < now {
            self.reached = now;
        }
        take_first(&mut self.rows, now)
    }
}

fn place(rows: &mut Vec<Timer>, timer: Timer) -> Result<(), AllocError>
    ensures ok { OnOk result (rows.new.items ≡ placed timer rows.old.items) }
    ensures err { OnErr result (rows.new.items ≡ rows.old.items) }
    ensures full { OnErr result (vec_capacity rows.old ≤ vec_len rows.old) }
    ensures left { vec_capacity rows.old - vec_len rows.old ≤ (vec_capacity rows.new - vec_len rows.new) + 1 }
{
    let at = place_of(rows, timer.due);
    rows.insert(at, timer)?;
    Ok(())
}

/// The place of a timer of this moment: behind all that are due no later.
fn place_of(rows: &[Timer], due: u64) -> usize
    ensures { result ≡ place_at due rows.now }
{
    for (i, row) in rows.iter().enumerate() {
        if row.due > due {
            return i;
        }
    }
    rows.len()
}

fn remove_key(rows: &mut Vec<Timer>, key: usize)
    ensures gone { rows.new.items ≡ without key rows.old.items }
    ensures left { vec_capacity rows.old - vec_len rows.old ≤ vec_capacity rows.new - vec_len rows.new }
{
    rows.retain(|row| row.key != key);
}

/// When the first timer is due, and its name.
fn first_of(rows: &[Timer]) -> Option<(u64, Name)>
    ensures first { result ≡ first_named rows.now }
    ensures due { MatchOption result (first_due rows.now ≡ None) (λ first. first_due rows.now ≡ Some first.0) }
{
    rows.first().map(|row| (row.due, row.name))
}

/// The first timer, if it is due.
fn take_first(rows: &mut Vec<Timer>, now: u64) -> Option<Timer>
    ensures taken { (result, rows.new.items) ≡ popped now rows.old.items }
    ensures some { IfSome result (λ timer. (rows.old.items ≡ timer ∷ rows.new.items) × (timer.due ≤ now)) }
    ensures none { IfNone result ((rows.new.items ≡ rows.old.items) × ((due : ℕ) → first_due rows.old.items ≡ Some due → now < due)) }
    ensures left { vec_capacity rows.old - vec_len rows.old ≤ vec_capacity rows.new - vec_len rows.new }
{
    if rows.is_empty() {
        return None;
    }
    if rows[0].due <= now {
        Some(rows.remove(0))
    } else {
        None
    }
}
