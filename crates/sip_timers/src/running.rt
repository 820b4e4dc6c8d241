ghost use Rattle.std.specs.Prelude.{◌≡◌, ◌≤◌, ◌<◌, ◌+◌, ◌^◌, [], ◌∷◌};
ghost use Rattle.sip_timers.specs.Moves.{IsHeld, Moves};
ghost use Rattle.sip_timers.specs.Timers.{placed, without};

use crate::laws::{timer_stands, timer_taken_out};
use crate::{Name, Timer, Timers};

/// Sets a timer, for which there is room, less than 2^30 ms past the greatest moment by which one was asked for; and
/// gives it with the key by which it is stopped.
pub fn start<T: Timers>(timers: &mut T, due: u64, name: Name) -> Timer
    requires room { 1 ≤ T.room timers.old }
    requires near { due < T.reached timers.old + 2 ^ 30 }
    ensures moves { Moves (T.pending timers.old) [] (T.pending timers.new) (result ∷ []) }
    ensures placed { T.pending timers.new ≡ placed result (T.pending timers.old) }
    ensures left { T.room timers.old ≤ T.room timers.new + 1 }
    ensures still { T.reached timers.new ≡ T.reached timers.old }
    ensures due { result.due ≡ due }
    ensures name { result.name ≡ name }
{
    timer_stands();
    let key = timers.add(due, name).unwrap();
    Timer { key, due, name }
}

/// Stops a timer that stands.
pub fn stop<T: Timers>(timers: &mut T, timer: Timer)
    requires { IsHeld (T.pending timers.old) (timer ∷ []) }
    ensures moves { Moves (T.pending timers.old) (timer ∷ []) (T.pending timers.new) [] }
    ensures gone { T.pending timers.new ≡ without timer.key (T.pending timers.old) }
    ensures left { T.room timers.old ≤ T.room timers.new }
    ensures still { T.reached timers.new ≡ T.reached timers.old }
{
    timer_taken_out();
    timers.cancel(timer.key);
}
