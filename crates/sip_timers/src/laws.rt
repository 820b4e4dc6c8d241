ghost use Rattle.std.specs.Prelude.{◌≡◌, ◌≤◌, ◌+◌, ℕ, Bool, List, count_by, if◌then◌else◌};
ghost use Rattle.sip_timers.specs.declared.timer.Timer.{Timer};
ghost use Rattle.sip_timers.specs.Timers.{placed, without, keys_with, Stands, AreOrdered};

/// Timers that are set and cancelled stay in the order in which they are due.
pub fn earlier_fires_first()
    ensures set { (t : Timer) (ts : List Timer) → AreOrdered ts → AreOrdered (placed t ts) }
    ensures cancelled { (key : ℕ) (ts : List Timer) → AreOrdered ts → AreOrdered (without key ts) }
{}

/// A timer that is set stands among the others, each as often as before.
pub fn timer_stands()
    ensures { (p : Timer → Bool) (t : Timer) (ts : List Timer) → count_by p (placed t ts) ≡ count_by p ts + (if p t then 1 else 0) }
{}

/// What is cancelled by the key of one timer alone is that timer.
pub fn timer_taken_out()
    ensures { (p : Timer → Bool) (t : Timer) (ts : List Timer) → keys_with t.key ts ≤ 1 → Stands t ts → count_by p ts
        ≡ count_by p (without t.key ts) + (if p t then 1 else 0) }
{}
