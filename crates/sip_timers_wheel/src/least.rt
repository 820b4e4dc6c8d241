ghost use Rattle.std.specs.Prelude.{◌≡◌, Some};
ghost use Rattle.sip_timers_wheel.specs.Lists.{least};
ghost use Rattle.sip_timers_wheel.specs.Threads.{list_of, IsHeld, KnowsLeast, sooner};

use crate::head::ListHead;
use crate::row::{RowNumber, TimerRow, timer_at};
use sip_timers::Timer;
use slab::Slab;

/// The timer of a list that is due first. It is looked for only where it isn't known.
#[inline(always)]
pub(crate) fn least_of(rows: &Slab<TimerRow>, head: &ListHead) -> Option<Timer>
    requires { IsHeld rows.now head.now (list_of rows.now head.now) }
    ensures { result ≡ least (list_of rows.now head.now) }
{
    if head.first.is_none() {
        return None;
    }
    match head.known_least() {
        Some(number) => Some(timer_at(rows, number)),
        None => find_least(rows, head),
    }
}

/// The number of the timer that is due first.
pub(crate) fn least_number(rows: &Slab<TimerRow>, head: &ListHead) -> Option<RowNumber>
    requires { IsHeld rows.now head.now (list_of rows.now head.now) }
    ensures { KnowsLeast result (list_of rows.now head.now) }
{
    least_of(rows, head).map(|timer| RowNumber(timer.key))
}

/// The timer of a list that is due first, after a look through all of them.
#[inline(never)]
fn find_least(rows: &Slab<TimerRow>, head: &ListHead) -> Option<Timer>
    requires { IsHeld rows.now head.now (list_of rows.now head.now) }
    ensures { result ≡ least (list_of rows.now head.now) }
{
    let mut best = None;
    let mut at = head.first;
    while let Some(number) = at {
        best = sooner(best, timer_at(rows, number));
        at = rows[number.0].next;
    }
    best
}

/// The one of two timers that is due first, at a tie the first one.
pub(crate) fn sooner(best: Option<Timer>, timer: Timer) -> Option<Timer>
    ensures { result ≡ sooner best (Some timer) }
{
    match best {
        Some(other) if timer.due >= other.due => Some(other),
        _ => Some(timer),
    }
}
