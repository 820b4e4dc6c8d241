ghost use Rattle.std.specs.Prelude.{◌≡◌, ◌≢◌, ◌≤◌, ◌<◌, ◌+◌, ◌^◌, [], ◌∷◌, true, false};
ghost use Rattle.sip_timers.specs.declared.timer.Timer.{Timer};
ghost use Rattle.sip_timers.specs.Moves.{IsHeld, Moves};
ghost use Rattle.sip_timers.specs.Setting.{SetsInOrder};
ghost use Rattle.sip_timers.specs.Timers.{placed, without};
ghost use Rattle.sip_request.specs.Slots.{slot_timers, stood};

use sip_timers::{Letter, Name, Owner, Timer, Timers, start, stop};

/// Whether a timer is due at a moment and has a name.
fn is_the(timer: Timer, due: u64, name: Name) -> bool
    ensures same { result ≡ true → timer ≡ record { key = timer.key; due = due; name = name } }
    ensures other { result ≡ false → timer.due ≡ due → timer.name ≢ name }
{
    timer.due == due && timer.name == name
}

/// Sets a timer, and gives its key.
pub(crate) fn set<T: Timers>(timers: &mut T, due: u64, name: Name) -> usize
    requires room { 1 ≤ T.room timers.old }
    requires near { due < T.reached timers.old + 2 ^ 30 }
    ensures moves { Moves (T.pending timers.old) [] (T.pending timers.new) (record { key = result; due = due; name = name } ∷ []) }
    ensures placed { T.pending timers.new ≡ placed (record { key = result; due = due; name = name }) (T.pending timers.old) }
    ensures left { T.room timers.old ≤ T.room timers.new + 1 }
    ensures still { T.reached timers.new ≡ T.reached timers.old }
{
    let timer = start(timers, due, name);
    timer.key
}

/// Stops a timer, and sets another one.
fn replace<T: Timers>(timers: &mut T, was: Timer, due: u64, name: Name) -> usize
    requires held { IsHeld (T.pending timers.old) (was ∷ []) }
    requires room { 1 ≤ T.room timers.old }
    requires near { due < T.reached timers.old + 2 ^ 30 }
    ensures moves { Moves (T.pending timers.old) (was ∷ []) (T.pending timers.new) (record { key = result; due = due; name = name } ∷ []) }
    ensures placed { T.pending timers.new ≡ placed (record { key = result; due = due; name = name }) (without was.key (T.pending timers.old)) }
    ensures left { T.room timers.old ≤ T.room timers.new + 1 }
    ensures still { T.reached timers.new ≡ T.reached timers.old }
{
    stop(timers, was);
    set(timers, due, name)
}

/// Sets a timer in place of another one, which stays as it is, with its key and its place in the order of firing, if it is
/// the same.
#[inline(always)]
#[tactic(auto, using(crate::proofs::Setting::stays_in_order, crate::proofs::Setting::replaced_in_order))]
pub(crate) fn change<T: Timers>(timers: &mut T, timer: Timer, due: u64, name: Name) -> usize
    requires held { IsHeld (T.pending timers.old) (timer ∷ []) }
    requires room { 1 ≤ T.room timers.old }
    requires near { due < T.reached timers.old + 2 ^ 30 }
    ensures moves { Moves (T.pending timers.old) (timer ∷ []) (T.pending timers.new) (record { key = result; due = due; name = name } ∷ []) }
    ensures sets { SetsInOrder (T.pending timers.old) (timer ∷ []) (T.pending timers.new) (record { key = result; due = due; name = name } ∷ []) }
    ensures left { T.room timers.old ≤ T.room timers.new + 1 }
    ensures still { T.reached timers.new ≡ T.reached timers.old }
{
    if is_the(timer, due, name) {
        return timer.key;
    }
    replace(timers, timer, due, name)
}

/// Stops a timer, if there is one.
#[tactic(auto, using(crate::proofs::Setting::stays_in_order, crate::proofs::Setting::stopped_in_order))]
pub(crate) fn clear<T: Timers>(timers: &mut T, was: Option<Timer>)
    requires { IsHeld (T.pending timers.old) (stood was) }
    ensures moves { Moves (T.pending timers.old) (stood was) (T.pending timers.new) [] }
    ensures sets { SetsInOrder (T.pending timers.old) [] (T.pending timers.new) [] }
    ensures left { T.room timers.old ≤ T.room timers.new }
    ensures still { T.reached timers.new ≡ T.reached timers.old }
{
    if let Some(timer) = was {
        stop(timers, timer);
    }
}

/// The timer of a slot as it stands under a key, if there is one.
pub(crate) fn standing(
    request: u64,
    owner: Owner,
    key: usize,
    slot: Option<(Letter, u64)>,
) -> Option<Timer>
    ensures { stood result ≡ slot_timers request owner key slot }
{
    let (letter, due) = slot?;
    let name = Name {
        request,
        owner,
        letter,
    };
    Some(Timer { key, due, name })
}
