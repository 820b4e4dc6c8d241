ghost use Rattle.std.specs.Prelude.{◌≡◌, ◌≤◌, ◌<◌, ◌+◌, ◌↔◌, ℕ, List, [], ◌∷◌, Some, Err, IfOk, IfErr, OnOk, OnErr, IfSome, IfNone};
ghost use Rattle.std.specs.Prelude.{MatchOption, None, max};
ghost use Rattle.sip_timers.specs.Timers.{placed, without, keys_with, first_due, first_named, popped, IsTooFar};
ghost use Rattle.sip_timers.specs.declared.timer.Timer.{Timer};
ghost use Rattle.sip_timers.specs.declared.error.TimerError.TheVariants.{NoMemory, TooFar};

use crate::error::TimerError;
use crate::timer::{Name, Timer};
use std::alloc::Global;

/// Timers, seen as the list of those that stand, in the order in which they fire.
pub trait Timers: Drop {
    // The timers that stand, the first one that fires at the head.
    ghost pending: { Self → List Timer };

    // The greatest moment that was given to `pop_due`, at first 0.
    ghost reached: { Self → ℕ };

    // So many further timers take no memory.
    ghost room: { Self → ℕ };

    /// No timer.
    fn new(alloc: Global) -> Result<Self, TimerError>
        ensures empty { IfOk result (λ timers. pending timers ≡ []) }
        ensures begins { IfOk result (λ timers. reached timers ≡ 0) }
        ensures refused { IfErr result (λ e. e ≡ NoMemory) };

    /// Makes room, so that the next `more` timers that are added take no memory. Room that was there
    /// stays, also at an error.
    fn reserve(&mut self, more: usize) -> Result<(), TimerError>
        ensures ok { OnOk result (more ≤ room self.new) }
        ensures kept { room self.old ≤ room self.new }
        ensures same { pending self.new ≡ pending self.old }
        ensures still { reached self.new ≡ reached self.old }
        ensures refused { IfErr result (λ e. e ≡ NoMemory) };

    /// Sets a timer, which fires after those of the same moment, and gives the key by which it is
    /// cancelled. A key may serve again once its timer doesn't stand any more.
    fn add(&mut self, due: u64, name: Name) -> Result<usize, TimerError>
        ensures added { IfOk result (λ key. pending self.new ≡ placed (record { key = key; due = due; name = name }) (pending self.old)) }
        ensures fresh { IfOk result (λ key. keys_with key (pending self.old) ≡ 0) }
        ensures err { OnErr result (pending self.new ≡ pending self.old) }
        ensures too_far { (result ≡ Err TooFar) ↔ IsTooFar (reached self.old) due }
        ensures memory { (result ≡ Err NoMemory) → room self.old ≡ 0 }
        ensures left { room self.old ≤ room self.new + 1 }
        ensures spared { OnErr result (room self.old ≤ room self.new) }
        ensures still { reached self.new ≡ reached self.old };

    /// Takes a timer out that stands.
    fn cancel(&mut self, key: usize)
        requires { 1 ≤ keys_with key (pending self.old) }
        ensures gone { pending self.new ≡ without key (pending self.old) }
        ensures left { room self.old ≤ room self.new }
        ensures still { reached self.new ≡ reached self.old };

    /// When the first timer is due, in milliseconds, and its name.
    fn next(&self) -> Option<(u64, Name)>
        ensures first { result ≡ first_named (pending self.now) }
        ensures due { MatchOption result (first_due (pending self.now) ≡ None) (λ first. first_due (pending self.now) ≡ Some first.0) };

    /// Takes the first timer out, if it is due.
    fn pop_due(&mut self, now: u64) -> Option<Timer>
        ensures taken { (result, pending self.new) ≡ popped now (pending self.old) }
        ensures some { IfSome result (λ timer. (pending self.old ≡ timer ∷ pending self.new) × (timer.due ≤ now)) }
        ensures none { IfNone result ((pending self.new ≡ pending self.old) × ((due : ℕ) → first_due (pending self.old) ≡ Some due → now < due)) }
        ensures left { room self.old ≤ room self.new }
        ensures later { reached self.new ≡ max (reached self.old) now };
}
