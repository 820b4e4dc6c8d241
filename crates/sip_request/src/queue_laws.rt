ghost use Rattle.std.specs.Prelude.{◌≡◌, List};
ghost use Rattle.sip_timers.specs.declared.timer.Timer.{Timer};
ghost use Rattle.model_transactions.specs.Queue.{Entry, queue_after};
ghost use Rattle.sip_request.specs.Queued.{entries, AreQueued};

/// Where exactly what is to stand stands after some timers were set in order, none of which stood before, what stood and stands
/// still has kept its place, and what was set stands behind what is due no later.
pub fn settings_are_queued()
    ensures { (old before new named : List Timer) (standing : List Entry) → AreQueued old before new named standing
        → entries new ≡ queue_after (entries old) standing }
{}
