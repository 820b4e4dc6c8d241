ghost use Rattle.std.specs.Prelude.{◌≡◌, [], ◌∷◌};
ghost use Rattle.sip_timers.specs.declared.letter.Letter.TheVariants.{B, Cancelled, F, J};
ghost use Rattle.sip_timers.specs.declared.timer.Owner.TheVariants.{Branch, Cancel, Server};
ghost use Rattle.sip_model.specs.TimerOrderExample.{all_then, then_due};

/// An INVITE goes to two bindings; in the same millisecond the first rings, and the caller cancels. Of the four timers that are due 32
/// seconds later the one of the branch of which nothing was heard stood first; then the CANCEL was opened; then the first branch, and
/// its CANCEL, had theirs.
pub fn four_at_once()
    ensures { all_then ≡ then_due 4 (Branch 2) B ∷ then_due 6 Server J ∷ then_due 4 (Branch 1) Cancelled ∷ then_due 4 (Cancel 1) F ∷ [] }
{}
