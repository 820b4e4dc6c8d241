ghost use Rattle.std.specs.Prelude.{List, [], ◌++◌};
ghost use Rattle.sip_timers.specs.declared.timer.Timer.{Timer};
ghost use Rattle.sip_timers.specs.Moves.{IsHeld, IsTied, Moves};

/// Two moves behind one another are one; where nothing was done, nothing moved; and what was set and stopped again
/// on the way needn't be named.
pub fn moves_join()
    ensures none { (ts : List Timer) → Moves ts [] ts [] }
    ensures both { (ts us vs before after further later : List Timer) → Moves ts before us after → Moves us further vs later
        → Moves ts (before ++ further) vs (after ++ later) }
    ensures passing { (ts us before after passing : List Timer) → Moves ts (before ++ passing) us (after ++ passing) → Moves ts before us after }
{}

/// While some timers are moved, the others stand.
pub fn others_stand()
    ensures first { (ts mine others : List Timer) → IsHeld ts (mine ++ others) → IsHeld ts mine }
    ensures rest { (ts us mine others after : List Timer) → IsHeld ts (mine ++ others) → Moves ts mine us after → IsHeld us (after ++ others) }
{}

/// Where exactly the named timers stand, they do so after a move, with what is named then.
pub fn ties_hold()
    ensures held { (ts named : List Timer) → IsTied ts named → IsHeld ts named }
    ensures moved { (ts us mine others after : List Timer) → IsTied ts (mine ++ others) → Moves ts mine us after → IsTied us (after ++ others) }
{}
