//! The table of calls.
ghost use Rattle.std.specs.Prelude.{◌≡◌, ◌++◌, IfOk, OnOk};
ghost use Rattle.sipd_calls.specs.Table as Definitions;

use crate::cells::{OfficeClock, clock_of, is_same_clock, push_head, push_row};
use crate::choice::CallFilter;
use crate::totals::CallTotals;
use sip_days::Call;
use sip_text::Bytes;
use std::alloc::{AllocError, Global};

/// What is known of the rows so far.
#[derive(Clone, Copy)]
pub(crate) struct Rows {
    /// The clock of the last one, if there is one.
    pub clock: Option<OfficeClock>,
    pub totals: CallTotals,
}

impl Rows {
    /// None yet.
    fn none() -> Rows
        ensures { result ≡ Definitions.no_rows }
    {
        Rows {
            clock: None,
            totals: CallTotals::new(),
        }
    }
}

/// Adds the head of the table, unless the row in front was shown by the same clock.
fn push_clock(
    alloc: Global,
    out: &mut Bytes,
    before: Option<OfficeClock>,
    clock: OfficeClock,
) -> Result<(), AllocError>
    ensures { OnOk result (out.new ≡ out.old ++ Definitions.head_between before clock) }
{
    if is_same_clock(before, clock) {
        return Ok(());
    }
    push_head(alloc, out, clock)
}

/// Adds a call's row, and what it changes.
fn push_call(alloc: Global, out: &mut Bytes, rows: Rows, call: &Call) -> Result<Rows, AllocError>
    ensures text { OnOk result (out.new ≡ out.old ++ Definitions.row_behind rows call.now) }
    ensures rows { IfOk result (λ next. next ≡ Definitions.rows_with rows call.now) }
{
    let clock = clock_of(call);
    push_clock(alloc, out, rows.clock, clock)?;
    push_row(alloc, out, call)?;
    Ok(Rows {
        clock: Some(clock),
        totals: rows.totals.counting(call),
    })
}

/// The same, if the call is shown.
fn push_shown(
    alloc: Global,
    out: &mut Bytes,
    rows: Rows,
    choice: &CallFilter<'_>,
    call: &Call,
) -> Result<Rows, AllocError>
    ensures text { OnOk result (out.new ≡ out.old ++ Definitions.shown_row choice.now rows call.now) }
    ensures rows { IfOk result (λ next. next ≡ Definitions.shown_with choice.now rows call.now) }
{
    let shown = choice.shows(alloc, call)?;
    if shown {
        return push_call(alloc, out, rows, call);
    }
    Ok(rows)
}

/// The table of the calls that are shown, in their order: a head with the year and the office's clock in front of the first row, and wherever
/// one of both changes; a row for each call; and what is counted of them. `AllocError` is the only refusal.
pub fn table_text(
    alloc: Global,
    choice: &CallFilter<'_>,
    calls: &[Call],
) -> Result<Bytes, AllocError>
    ensures { IfOk result (λ text. text ≡ Definitions.table_text choice.now calls.now) }
{
    let mut out = Bytes::new(alloc);
    let mut rows = Rows::none();
    for call in calls {
        let next = push_shown(alloc, &mut out, rows, choice, call)?;
        rows = next;
    }
    rows.totals.push(&mut out)?;
    Ok(out)
}
