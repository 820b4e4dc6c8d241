//! A row of the table, and its head.
ghost use Rattle.std.specs.Prelude.{◌≡◌, ◌++◌, OnOk};
ghost use Rattle.sipd_report.specs.Times.{offset_text};
ghost use Rattle.sipd_calls.specs.Cells as Definitions;

use crate::words::{began, push_came_of, push_ring, push_start, push_talk, ruled_text, side_text};
use sip_audit::who_word;
use sip_days::{Call, Ending};
use sip_text::Bytes;
use sipd_report::{date_of, push_offset, push_padded, push_user};
use std::alloc::{AllocError, Global};

/// A day, in seconds.
const DAY: u64 = 86_400;

/// What the head of a table says: the year, and how many minutes the office's clock is ahead of UTC.
#[derive(Clone, Copy)]
pub(crate) struct OfficeClock {
    pub year: u64,
    pub offset: i16,
}

/// The clock by which a call is shown.
pub(crate) fn clock_of(call: &Call) -> OfficeClock
    ensures { result ≡ Definitions.clock_of call.now }
{
    let date = date_of(began(call) / DAY);
    OfficeClock {
        year: date.year,
        offset: call.offset,
    }
}

/// Whether two clocks are the same.
fn is_same(before: OfficeClock, clock: OfficeClock) -> bool
    ensures { result ≡ Definitions.is_same before clock }
{
    if before.offset != clock.offset {
        return false;
    }
    before.year == clock.year
}

/// Whether the row in front was shown by the same clock.
pub(crate) fn is_same_clock(before: Option<OfficeClock>, clock: OfficeClock) -> bool
    ensures { result ≡ Definitions.is_same_clock before clock }
{
    match before {
        Some(before) => is_same(before, clock),
        None => false,
    }
}

/// Adds a cell that others follow.
pub fn push_cell(out: &mut Bytes, width: usize, text: &[u8]) -> Result<(), AllocError>
    ensures { OnOk result (out.new ≡ out.old ++ Definitions.cell width text.now) }
{
    push_padded(out, width, text)?;
    out.push(b' ')
}

/// Adds the names of the columns behind the clock's.
fn push_names(out: &mut Bytes) -> Result<(), AllocError>
    ensures { OnOk result (out.new ≡ out.old ++ Definitions.names) }
{
    out.extend(b"caller   called        rule  result    ring talk    ended\n")
}

/// Adds how far a clock is ahead of UTC.
fn push_ahead(out: &mut Bytes, clock: OfficeClock) -> Result<(), AllocError>
    ensures { OnOk result (out.new ≡ out.old ++ offset_text clock.offset) }
{
    push_offset(out, clock.offset)
}

/// Adds year and offset.
fn push_clock_name(out: &mut Bytes, clock: OfficeClock) -> Result<(), AllocError>
    ensures { OnOk result (out.new ≡ out.old ++ Definitions.clock_name clock) }
{
    out.push_decimal(clock.year)?;
    out.extend(b" UTC")?;
    push_ahead(out, clock)
}

/// Adds the head of the table.
pub(crate) fn push_head(
    alloc: Global,
    out: &mut Bytes,
    clock: OfficeClock,
) -> Result<(), AllocError>
    ensures { OnOk result (out.new ≡ out.old ++ Definitions.head_row clock) }
{
    let mut name = Bytes::new(alloc);
    push_clock_name(&mut name, clock)?;
    push_cell(out, 6, b"number")?;
    push_cell(out, 14, name.as_slice())?;
    push_names(out)
}

/// Adds the number of a call's datagram.
pub fn push_number(alloc: Global, out: &mut Bytes, number: u64) -> Result<(), AllocError>
    ensures { OnOk result (out.new ≡ out.old ++ Definitions.number_cell number) }
{
    let mut cell = Bytes::new(alloc);
    cell.push_decimal(number)?;
    push_cell(out, 6, cell.as_slice())
}

fn push_began(alloc: Global, out: &mut Bytes, call: &Call) -> Result<(), AllocError>
    ensures { OnOk result (out.new ≡ out.old ++ Definitions.start_cell call.now) }
{
    let mut cell = Bytes::new(alloc);
    push_start(&mut cell, call)?;
    push_cell(out, 14, cell.as_slice())
}

fn push_called(alloc: Global, out: &mut Bytes, call: &Call) -> Result<(), AllocError>
    ensures { OnOk result (out.new ≡ out.old ++ Definitions.called_cell call.now) }
{
    let mut cell = Bytes::new(alloc);
    push_user(&mut cell, call.decision.target.user.as_slice())?;
    push_cell(out, 13, cell.as_slice())
}

/// Adds who called whom, and when.
fn push_asked(alloc: Global, out: &mut Bytes, call: &Call) -> Result<(), AllocError>
    ensures { OnOk result (out.new ≡ out.old ++ Definitions.asked_cells call.now) }
{
    push_number(alloc, out, call.decision.number)?;
    push_began(alloc, out, call)?;
    push_cell(out, 8, who_word(&call.decision.who))?;
    push_called(alloc, out, call)
}

/// The text of a rule, `-` where none decided.
fn rule_word(rule: &Option<Bytes>) -> &[u8]
    ensures { result.now ≡ Definitions.rule_word rule.now }
{
    match rule {
        Some(rule) => rule.as_slice(),
        None => b"-",
    }
}

/// Adds the rule that decided.
pub fn push_ruled(alloc: Global, out: &mut Bytes, call: &Call) -> Result<(), AllocError>
    ensures { OnOk result (out.new ≡ out.old ++ Definitions.rule_cell call.now) }
{
    let rule = ruled_text(alloc, call.decision.outcome, call.decision.minute)?;
    push_cell(out, 5, rule_word(&rule))
}

fn push_came(alloc: Global, out: &mut Bytes, call: &Call) -> Result<(), AllocError>
    ensures { OnOk result (out.new ≡ out.old ++ Definitions.result_cell call.now) }
{
    let mut cell = Bytes::new(alloc);
    push_came_of(&mut cell, call)?;
    push_cell(out, 9, cell.as_slice())
}

fn push_rang(alloc: Global, out: &mut Bytes, ring: Option<u64>) -> Result<(), AllocError>
    ensures { OnOk result (out.new ≡ out.old ++ Definitions.ring_cell ring) }
{
    let mut cell = Bytes::new(alloc);
    push_ring(&mut cell, ring)?;
    push_cell(out, 4, cell.as_slice())
}

fn push_talked(alloc: Global, out: &mut Bytes, talk: Option<u64>) -> Result<(), AllocError>
    ensures { OnOk result (out.new ≡ out.old ++ Definitions.talk_cell talk) }
{
    let mut cell = Bytes::new(alloc);
    push_talk(&mut cell, talk)?;
    push_cell(out, 7, cell.as_slice())
}

/// Adds by which rule, what came of it, and for how long.
fn push_decided(alloc: Global, out: &mut Bytes, call: &Call) -> Result<(), AllocError>
    ensures { OnOk result (out.new ≡ out.old ++ Definitions.came_cells call.now) }
{
    push_ruled(alloc, out, call)?;
    push_came(alloc, out, call)?;
    push_rang(alloc, out, call.ring())?;
    push_talked(alloc, out, call.talk())
}

/// Who ended a call; nothing where nobody did.
fn ended_word(ending: &Option<Ending>) -> &'static [u8]
    ensures { result.now ≡ Definitions.ended_word ending.now }
{
    match ending {
        Some(ending) => side_text(ending.by_caller),
        None => b"",
    }
}

/// Adds the last cell, and the row's end.
fn push_ended(out: &mut Bytes, call: &Call) -> Result<(), AllocError>
    ensures { OnOk result (out.new ≡ out.old ++ Definitions.ended_cell call.now) }
{
    out.extend(ended_word(&call.ending))?;
    out.push(b'\n')
}

/// Adds the row of a call.
pub(crate) fn push_row(alloc: Global, out: &mut Bytes, call: &Call) -> Result<(), AllocError>
    ensures { OnOk result (out.new ≡ out.old ++ Definitions.call_row call.now) }
{
    push_asked(alloc, out, call)?;
    push_decided(alloc, out, call)?;
    push_ended(out, call)
}
