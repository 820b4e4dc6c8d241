//! The cells of an audit line as a row of the report: when, who asked and how, for what, what became of it, and by which rule: `-`
//! where none did.
ghost use Rattle.std.specs.Prelude.{◌≡◌, ◌++◌, decimal, IfOk, OnOk};
ghost use Rattle.sipd_report.specs.Rows as Definitions;

use crate::cells::Cells;
use crate::query::{Form, ruling_of};
use crate::target::put_target;
use crate::times::{push_minutes, put_time};
use sip_audit::{AuditOutcome, Record, operation_word, who_word};
use sip_text::Bytes;
use std::alloc::{AllocError, Global};

/// Adds the rule that decided, `-` for none.
pub(crate) fn put_ruling(text: &mut Bytes, ruling: Option<u32>) -> Result<(), AllocError>
    ensures { OnOk result (text.new ≡ text.old ++ Definitions.ruling_text ruling) }
{
    match ruling {
        Some(rule) => text.push_decimal(u64::from(rule)),
        None => text.push(b'-'),
    }
}

/// Adds a word and a number.
fn put_counted(text: &mut Bytes, word: &[u8], number: u64) -> Result<(), AllocError>
    ensures { OnOk result (text.new ≡ text.old ++ (word.now ++ decimal number)) }
{
    text.extend(word)?;
    text.push_decimal(number)
}

fn put_outcome(text: &mut Bytes, outcome: AuditOutcome) -> Result<(), AllocError>
    ensures { OnOk result (text.new ≡ text.old ++ Definitions.outcome_words outcome) }
{
    match outcome {
        AuditOutcome::Challenge { status } => put_counted(text, b"challenge ", u64::from(status)),
        AuditOutcome::Deny { rule: _ } => text.extend(b"deny"),
        AuditOutcome::Sent { rule: _, targets } => put_counted(text, b"sent ", u64::from(targets)),
        AuditOutcome::Answer { rule: _, status } => put_counted(
            text,
            b"answer ",
            u64::from(status),
        ),
    }
}

/// Adds what became of a request, without the number of its targets.
pub(crate) fn put_outcome_kind(text: &mut Bytes, outcome: AuditOutcome) -> Result<(), AllocError>
    ensures { OnOk result (text.new ≡ text.old ++ Definitions.outcome_kind outcome) }
{
    match outcome {
        AuditOutcome::Challenge { status } => put_counted(text, b"challenge ", u64::from(status)),
        AuditOutcome::Deny { rule: _ } => text.extend(b"deny"),
        AuditOutcome::Sent {
            rule: _,
            targets: _,
        } => text.extend(b"sent"),
        AuditOutcome::Answer { rule: _, status } => put_counted(
            text,
            b"answer ",
            u64::from(status),
        ),
    }
}

/// Adds the minute of the day at which a rule with a window decided, else `-`.
fn put_minute(text: &mut Bytes, minute: Option<u16>) -> Result<(), AllocError>
    ensures { OnOk result (text.new ≡ text.old ++ Definitions.minute_text minute) }
{
    match minute {
        Some(minute) => push_minutes(text, u64::from(minute)),
        None => text.push(b'-'),
    }
}

/// Adds to the cells who asked, when and how.
fn put_request(
    cells: &mut Cells,
    form: Form,
    offset: i16,
    record: &Record,
) -> Result<(), AllocError>
    ensures { OnOk result (cells.new ≡ Definitions.with_request form offset «record».now cells.old) }
{
    put_time(&mut cells.time, form, offset, record.at)?;
    cells.number.push_decimal(record.number)?;
    cells.method.extend(record.method.as_slice())?;
    cells.user.extend(who_word(&record.who))
}

/// Adds to the cells what was asked for, and what became of it.
fn put_decision(cells: &mut Cells, record: &Record) -> Result<(), AllocError>
    ensures { OnOk result (cells.new ≡ Definitions.with_decision «record».now cells.old) }
{
    put_target(&mut cells.target, &record.target)?;
    cells.operation.extend(operation_word(record.operation))?;
    put_ruling(&mut cells.rule, ruling_of(record.outcome))?;
    put_outcome(&mut cells.outcome, record.outcome)?;
    put_minute(&mut cells.minute, record.minute)
}

/// The cells of a record.
pub(crate) fn cells_of(
    alloc: Global,
    form: Form,
    offset: i16,
    record: &Record,
) -> Result<Cells, AllocError>
    ensures { IfOk result (λ cells. cells ≡ Definitions.cells_of form offset «record».now) }
{
    let mut cells = Cells::new(alloc);
    put_request(&mut cells, form, offset, record)?;
    put_decision(&mut cells, record)?;
    Ok(cells)
}
