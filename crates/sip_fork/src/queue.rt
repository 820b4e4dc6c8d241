ghost use Rattle.std.specs.Prelude.{◌≡◌, ◌≤◌, max, MatchOption, Some, None};
ghost use Rattle.sip_timers.specs.Timers.{due_by, first_due, first_named};
ghost use Rattle.sip_fork.specs.Queue.{IsQueue};

use sip_timers::{Name, Timer, TimerError, Timers};
use std::alloc::Global;
use std::marker::Model;

/// Timers of any kind, of which it is known that none is due before one that stands in front of it.
#[derive(Drop)]
pub(crate) struct Queue<T: Timers> {
    timers: T,
}

impl<T: Timers> Model for Queue<T> {
    ghost use Rattle.sip_timers.specs.Queue.{TimerQueue};
    ghost use Rattle.sip_fork.specs.Queue.{IsQueue};

    ghost Value = { TimerQueue };

    ghost view = { λ q. record { pending = T.pending q.timers; reached = T.reached q.timers; room = T.room q.timers } };

    ghost invariant = { λ q. IsQueue (T.pending q.timers) };
}

impl<T: Timers> Timers for Queue<T> {
    ghost pending = { λ q. q.pending };

    ghost reached = { λ q. q.reached };

    ghost room = { λ q. q.room };

    fn new(alloc: Global) -> Result<Self, TimerError> {
        let timers = T::new(alloc)?;
        Ok(Queue { timers })
    }

    fn reserve(&mut self, more: usize) -> Result<(), TimerError> {
        self.timers.reserve(more)
    }

    fn add(&mut self, due: u64, name: Name) -> Result<usize, TimerError> {
        self.timers.add(due, name)
    }

    fn cancel(&mut self, key: usize) {
        self.timers.cancel(key);
    }

    fn next(&self) -> Option<(u64, Name)> {
        self.timers.next()
    }

    fn pop_due(&mut self, now: u64) -> Option<Timer> {
        self.timers.pop_due(now)
    }
}

impl<T: Timers> Queue<T> {
    /// When the first timer is due, and its name: none is due earlier.
    pub(crate) fn first(&self) -> Option<(u64, Name)>
        ensures first { result ≡ first_named self.now.pending }
        ensures due { MatchOption result (first_due self.now.pending ≡ None) (λ first. first_due self.now.pending ≡ Some first.0) }
        ensures order { IsQueue self.now.pending }
    {
        self.timers.next()
    }

    /// No timer is due before one that stands in front of it.
    pub(crate) fn stand_in_order(&self)
        ensures { IsQueue self.now.pending }
    {
        let _timers = &self.timers;
    }

    /// A moment comes by which no timer is due.
    pub(crate) fn reach(&mut self, moment: u64)
        requires { due_by moment self.old.pending ≡ 0 }
        ensures same { self.new.pending ≡ self.old.pending }
        ensures later { self.new.reached ≡ max self.old.reached moment }
        ensures room { self.old.room ≤ self.new.room }
    {
        let _none = self.timers.pop_due(moment);
    }
}
