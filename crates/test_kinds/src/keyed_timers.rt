use crate::keyed::{KeyedRow, drop_key, key_at, place_of};
use sip_timers::laws::timer_stands;
use sip_timers::{Name, Timer, TimerError, Timers};
use std::alloc::Global;
use std::marker::Model;

/// Timers of any kind, with the keys of those that stand in the order in which they were set, so that each of them can be
/// cancelled.
pub struct KeyedTimers<T: Timers> {
    timers: T,
    kept: Vec<KeyedRow>,
}

/// Written out, so that it is proved once and not wherever they are dropped.
impl<T: Timers> Drop for KeyedTimers<T> {
    fn drop(self) {
        let KeyedTimers { timers: _, kept: _ } = self;
    }
}

impl<T: Timers> Model for KeyedTimers<T> {
    ghost use Rattle.std.specs.Prelude.{List};
    ghost use Rattle.test_kinds.specs.declared.keyed.KeyedRow.{KeyedRow};
    ghost use Rattle.test_kinds.specs.Keys.{AreKeysOf};

    ghost Value = { List KeyedRow };

    ghost view = { λ t. t.kept.items };

    ghost invariant = { λ t. AreKeysOf t.kept.items (T.pending t.timers) };
}

impl<T: Timers> KeyedTimers<T> {
    pub fn new(alloc: Global) -> Result<Self, TimerError> {
        Ok(KeyedTimers {
            timers: T::new(alloc)?,
            kept: Vec::new(alloc),
        })
    }

    /// How many stand.
    pub fn len(&self) -> usize {
        self.kept.len()
    }

    /// Sets a timer.
    pub fn add(&mut self, due: u64, name: Name) -> Result<(), TimerError> {
        timer_stands();
        let key = self.timers.add(due, name)?;
        let request = name.request;
        self.kept.push(KeyedRow { request, key })?;
        Ok(())
    }

    /// Cancels the timer at this place of those that stand. Whether there is one.
    pub fn cancel(&mut self, place: usize) -> bool {
        match key_at(&self.kept, place) {
            Some(key) => {
                self.timers.cancel(key);
                drop_key(&mut self.kept, key);
                true
            }
            None => false,
        }
    }

    /// Cancels the timer of a request. Whether there is one.
    pub fn cancel_of(&mut self, request: u64) -> bool {
        match place_of(&self.kept, request) {
            Some(place) => self.cancel(place),
            None => false,
        }
    }

    /// When the first timer is due, and its name.
    pub fn next(&self) -> Option<(u64, Name)> {
        self.timers.next()
    }

    /// Takes the first timer out, if it is due.
    pub fn pop_due(&mut self, now: u64) -> Option<Timer> {
        let timer = self.timers.pop_due(now)?;
        drop_key(&mut self.kept, timer.key);
        Some(timer)
    }
}
