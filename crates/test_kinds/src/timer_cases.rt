//! In which order timers fire, for each kind of timers alike.
use crate::case::{Case, Trial};
use crate::keyed_timers::KeyedTimers;
use sip_timers::{Letter, Name, Owner, TimerError, Timers};
use std::alloc::Global;

/// The name of a timer of the first request's first branch.
fn name(letter: Letter) -> Name {
    Name {
        request: 1,
        owner: Owner::Branch(1),
        letter,
    }
}

/// When a timer fires, and its letter.
pub(crate) type First = Option<(u64, Letter)>;

/// A call of timers, and what is wanted of it.
#[derive(Clone, Copy)]
pub(crate) enum Step {
    /// A timer is set for this moment.
    Set(u64, Letter),
    /// None is set for this moment.
    TooFar(u64),
    /// This one is the first.
    Next(First),
    /// At this moment this one fires.
    Fires(u64, First),
    /// The one that was set first is cancelled.
    Cancels,
}

/// What is tried.
pub(crate) const CASES: &[Case] = &[
    // Of timers that are set for 100, then for 100 and 40 once 99 ms are over, the last fires first, and the others in the order in
    // which they were set; and from 100 on none is set for 2^30 ms later.
    Case {
        name: "wheel_order",
        trial: Trial::Timers(&[
            Step::Set(100, Letter::A),
            Step::Fires(99, None),
            Step::Set(100, Letter::B),
            Step::Set(40, Letter::C),
            Step::Next(Some((40, Letter::C))),
            Step::Fires(100, Some((40, Letter::C))),
            Step::Fires(100, Some((100, Letter::A))),
            Step::Fires(100, Some((100, Letter::B))),
            Step::Fires(100, None),
            Step::TooFar(1_073_741_924),
            Step::Set(1_073_741_923, Letter::D),
        ]),
    },
    // Of timers that are set for 10, 5 and 5 the second and the third fire at 5, in this order, and then none. Then the first is
    // cancelled, and none stands; and from 5 on none is set for 2^30 ms later.
    Case {
        name: "timer_order",
        trial: Trial::Timers(&[
            Step::Set(10, Letter::A),
            Step::Set(5, Letter::B),
            Step::Set(5, Letter::C),
            Step::Next(Some((5, Letter::B))),
            Step::Fires(5, Some((5, Letter::B))),
            Step::Fires(5, Some((5, Letter::C))),
            Step::Fires(5, None),
            Step::Cancels,
            Step::Next(None),
            Step::TooFar(1_073_741_829),
        ]),
    },
];

/// Whether this is said of the first timer.
fn is(said: Option<(u64, Name)>, wanted: First) -> bool {
    match (said, wanted) {
        (Some((due, named)), Some((moment, letter))) => due == moment && named == name(letter),
        (None, None) => true,
        _ => false,
    }
}

fn is_too_far<T: Timers>(timers: &mut KeyedTimers<T>, due: u64) -> bool {
    matches!(timers.add(due, name(Letter::D)), Err(TimerError::TooFar))
}

fn fires<T: Timers>(timers: &mut KeyedTimers<T>, now: u64, wanted: First) -> bool {
    match timers.pop_due(now) {
        Some(timer) => is(Some((timer.due, timer.name)), wanted),
        None => is(None, wanted),
    }
}

impl Step {
    fn holds<T: Timers>(&self, timers: &mut KeyedTimers<T>) -> bool {
        match *self {
            Step::Set(due, letter) => timers.add(due, name(letter)).is_ok(),
            Step::TooFar(due) => is_too_far(timers, due),
            Step::Next(wanted) => is(timers.next(), wanted),
            Step::Fires(now, wanted) => fires(timers, now, wanted),
            Step::Cancels => timers.cancel(0),
        }
    }
}

fn all_hold<T: Timers>(timers: &mut KeyedTimers<T>, steps: &[Step]) -> bool {
    for step in steps {
        if !step.holds(timers) {
            return false;
        }
    }
    true
}

/// Whether steps come to what is wanted on new timers of a kind.
pub(crate) fn hold<T: Timers>(alloc: Global, steps: &[Step]) -> bool {
    match KeyedTimers::<T>::new(alloc) {
        Ok(mut timers) => all_hold(&mut timers, steps),
        Err(_) => false,
    }
}
