ghost use Rattle.std.specs.Prelude.{ℕ, List, [], ◌∷◌, ◌++◌};
ghost use Rattle.sip_timers.specs.declared.timer.Timer.{Timer};
ghost use Rattle.sip_timers.specs.Setting.{IsNew, SetsInOrder};
ghost use Rattle.sip_timers.specs.Timers.{placed, without, AreOrdered};

/// Settings behind one another are one; where nothing was done, none was set; and where they stood in order, they do so then.
pub fn settings_join()
    ensures none { (ts before named : List Timer) → SetsInOrder ts before ts named }
    ensures both { (ts us vs before after further : List Timer) → SetsInOrder ts before us after → SetsInOrder us before vs further
        → SetsInOrder ts before vs (after ++ further) }
    ensures ordered { (ts us before named : List Timer) → SetsInOrder ts before us named → AreOrdered ts → AreOrdered us }
{}

/// A timer that is set is one that is set in order, and so is none where one is stopped.
pub fn one_is_set()
    ensures started { (ts before : List Timer) (t : Timer) → IsNew before t → SetsInOrder ts before (placed t ts) (t ∷ []) }
    ensures stopped { (ts before : List Timer) (key : ℕ) (named : List Timer) → SetsInOrder ts before (without key ts) named }
{}
