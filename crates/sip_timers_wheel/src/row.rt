ghost use Rattle.std.specs.Prelude.{◌≡◌, Some, IfSome};
ghost use Rattle.slab.specs.Slab.{ContainsKey, get, Updates};
ghost use Rattle.sip_timers_wheel.specs.declared.row.RowNumber.{RowNumber};
ghost use Rattle.sip_timers_wheel.specs.declared.row.TimerRow.{TimerRow};
ghost use Rattle.sip_timers_wheel.specs.Threads.{NextIs, PreviousIs, SameSize, timer_at};

use sip_timers::{Name, Timer};
use slab::Slab;

/// Where a row stands in the slab: the key of its timer.
#[derive(Clone, Copy)]
pub(crate) struct RowNumber(pub usize);

/// A timer, and those in front of it and behind it in its list.
#[derive(Clone, Copy)]
pub(crate) struct TimerRow {
    pub due: u64,
    pub name: Name,
    pub previous: Option<RowNumber>,
    pub next: Option<RowNumber>,
}

/// Sets which row stands behind one.
pub(crate) fn set_next(rows: &mut Slab<TimerRow>, at: Option<RowNumber>, next: Option<RowNumber>)
    requires { IfSome at (λ n. ContainsKey rows.old n.0) }
    ensures next { NextIs rows.old rows.new at next }
    ensures size { SameSize rows.old rows.new }
{
    if let Some(number) = at {
        rows[number.0].next = next;
    }
}

/// Sets which row stands in front of one.
pub(crate) fn set_previous(
    rows: &mut Slab<TimerRow>,
    at: Option<RowNumber>,
    previous: Option<RowNumber>,
)
    requires { IfSome at (λ n. ContainsKey rows.old n.0) }
    ensures previous { PreviousIs rows.old rows.new at previous }
    ensures size { SameSize rows.old rows.new }
{
    if let Some(number) = at {
        rows[number.0].previous = previous;
    }
}

/// Sets which rows stand in front of one and behind it.
pub(crate) fn set_beside(
    rows: &mut Slab<TimerRow>,
    number: RowNumber,
    previous: Option<RowNumber>,
    next: Option<RowNumber>,
)
    requires { ContainsKey rows.old number.0 }
    ensures beside { (row : TimerRow) → get rows.old number.0 ≡ Some row
        → Updates rows.old rows.new number.0 (Some (record row { previous = previous; next = next })) }
    ensures size { SameSize rows.old rows.new }
{
    let row = &mut rows[number.0];
    row.previous = previous;
    row.next = next;
}

/// The timer of a row.
pub(crate) fn timer_at(rows: &Slab<TimerRow>, number: RowNumber) -> Timer
    requires { ContainsKey rows.now number.0 }
    ensures { timer_at rows.now number ≡ Some result }
{
    let row = rows[number.0];
    Timer {
        key: number.0,
        due: row.due,
        name: row.name,
    }
}
