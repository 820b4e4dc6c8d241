//! What the command `report` writes: a row for each record that is asked for and, in a table, what is counted of them.
ghost use Rattle.std.specs.Prelude.{◌≡◌, ◌≤◌, ◌⊎◌, true, false, IfOk, IfErr, OnOk};
ghost use Rattle.std.specs.Io.KnownBytes.{Appends};
ghost use Rattle.sip_replay_script.specs.Devices.{later, GaveUp, IsAsked};
ghost use Rattle.sip_replay_script.specs.Lines.{IsOver, IsSpent};
ghost use Rattle.sipd_report.specs.Cells;
ghost use Rattle.sipd_report.specs.Refusals.{IsRefused, LineStops, TextStops};
ghost use Rattle.sipd_report.specs.Report.{Reports, ending_text as ending_text_of, row_of};
ghost use Rattle.sipd_report.specs.Steps as Definitions;
ghost use Rattle.sipd_report.specs.Steps.{TakesLine};

use crate::cells::{heading, row_text};
use crate::ending::ending_text;
use crate::entry::told_by;
use crate::error::ReportError;
use crate::lines::next_front;
use crate::query::{Form, Query};
use crate::row::cells_of;
use crate::tally::Tally;
use sip_audit::Record;
use sip_replay_script::{ScriptLines, TellingReader, TellingWriter, hand_on, put};
use sip_text::Bytes;
use std::alloc::{AllocError, Global};

/// Writes what an audit says: the names of the columns, then a row for each record that is asked for, in its order, and in
/// a table how often each user, rule and outcome came among these, the greatest count first and equal ones in the order of
/// their texts, how many lines there are in which something stands, how many are rows, how many challenges are left out, since
/// no outcome is asked for, and how many are no audit lines, and the first 20 of these, each with its number and its first 120
/// bytes, a point for each that doesn't print. A line may begin with what journalctl writes in front of it, up to its first
/// `]: `; one that the server writes on standard error is neither an audit line nor counted as none. A line is ended by LF, the
/// last one perhaps not; one of more than 200,000 bytes is no audit line. Times are those of the office's clock as it was set at
/// that moment (`Query::zones`), with its offset; where that would be before 1970, the start of 1970. Keeps one line, and each
/// user, rule and outcome that came.
///
/// Answers how many lines are no audit lines, which CSV doesn't tell; all is handed on then. Refusals: `NoMemory`; `Read`, where
/// the reader fails or was asked 4,294,967,295 times; `Write`. What was written before a refusal stays: a front of the report,
/// at `Read` of whole rows.
#[tactic(auto, using(crate::proofs::Reported::reported_first))]
pub fn report<I: TellingReader, W: TellingWriter>(
    alloc: Global,
    query: &Query<'_>,
    input: &mut I,
    output: &mut W,
) -> Result<u64, ReportError>
    ensures reported { IfOk result (Reports query.now (I.remaining input.old) (W.contents output.old) (W.contents output.new)) }
    ensures flushed { OnOk result (W.is_flushed output.new) }
    ensures refused { IfErr result (IsRefused query.now (I.remaining input.old) (W.contents output.old) (W.contents output.new)
        (I.has_failed input.new ⊎ (I.asked input.new ≡ later 4294967295 (I.asked input.old))) (GaveUp (W.has_failed output.new) (W.called output.new))) }
    ensures asked { IsAsked 4294967295 (I.asked input.old) (I.asked input.new) }
{
    let mut lines = ScriptLines::new(alloc)?;
    let mut line = Vec::new(alloc);
    let mut tally = Tally::new(alloc);
    begin(alloc, query.form, output)?;
    while take_next(
        alloc, query, &mut lines, &mut line, &mut tally, input, output,
    )? {}
    finish(alloc, query.form, &tally, output)?;
    Ok(tally.none)
}

/// Writes the row with the names of the columns.
fn begin<W: TellingWriter>(alloc: Global, form: Form, output: &mut W) -> Result<(), ReportError>
    ensures written { OnOk result (Appends (W.contents output.old) (W.contents output.new) (Cells.row_text form Cells.column_names)) }
    ensures stopped { IfErr result (TextStops (W.contents output.old) (W.contents output.new) (Cells.row_text form Cells.column_names)
        (GaveUp (W.has_failed output.new) (W.called output.new))) }
{
    write(output, &heading(alloc, form)?)
}

/// Takes the next line, if there is one.
fn take_next<I: TellingReader, W: TellingWriter>(
    alloc: Global,
    query: &Query<'_>,
    lines: &mut ScriptLines,
    line: &mut Vec<u8>,
    tally: &mut Tally,
    input: &mut I,
    output: &mut W,
) -> Result<bool, ReportError>
    ensures taken { IfOk result (λ more. more ≡ true → TakesLine query.now lines.old lines.new (I.remaining input.old) (I.remaining input.new)
        tally.old tally.new (W.contents output.old) (W.contents output.new)) }
    ensures over { IfOk result (λ more. more ≡ false → IsOver lines.old lines.new (I.remaining input.old) (I.remaining input.new)) }
    ensures counted { IfOk result (λ more. more ≡ false → tally.new ≡ tally.old) }
    ensures silent { IfOk result (λ more. more ≡ false → W.contents output.new ≡ W.contents output.old) }
    ensures stopped { IfErr result (LineStops query.now lines.old lines.new (I.remaining input.old) (I.remaining input.new)
        (W.contents output.old) (W.contents output.new) (IsSpent (I.has_failed input.new) lines.new.asks) (GaveUp (W.has_failed output.new) (W.called output.new))) }
    ensures asked { later lines.new.asks (I.asked input.new) ≡ later lines.old.asks (I.asked input.old) }
    ensures less { lines.new.asks ≤ lines.old.asks }
{
    if !next_front(lines, input, line)? {
        return Ok(false);
    }
    take_line(alloc, query, line.as_slice(), tally, output)?;
    Ok(true)
}

/// Counts a line, and writes its row if its record is asked for.
#[tactic(auto, using(crate::proofs::LineTexts::of_its_record))]
fn take_line<W: TellingWriter>(
    alloc: Global,
    query: &Query<'_>,
    line: &[u8],
    tally: &mut Tally,
    output: &mut W,
) -> Result<(), ReportError>
    ensures counted { OnOk result (tally.new ≡ Definitions.after_line query.now line.now tally.old) }
    ensures written { OnOk result (Appends (W.contents output.old) (W.contents output.new) (Definitions.line_text query.now line.now)) }
    ensures stopped { IfErr result (TextStops (W.contents output.old) (W.contents output.new) (Definitions.line_text query.now line.now)
        (GaveUp (W.has_failed output.new) (W.called output.new))) }
{
    tally.add_line();
    if line.is_empty() {
        return Ok(());
    }
    tally.add_filled();
    match told_by(alloc, line)? {
        Some(record) => take_record(alloc, query, &record, tally, output),
        None => {
            tally.add_untold(line)?;
            Ok(())
        }
    }
}

/// Counts a record that isn't asked for, if it is left out.
fn add_unasked(
    alloc: Global,
    query: &Query<'_>,
    record: &Record,
    tally: &mut Tally,
) -> Result<(), AllocError>
    ensures { OnOk result (tally.new ≡ Definitions.with_unasked query.now «record».now tally.old) }
{
    if query.leaves_out(alloc, record)? {
        tally.add_left_out();
    }
    Ok(())
}

/// The row of a record.
fn record_row(alloc: Global, query: &Query<'_>, record: &Record) -> Result<Bytes, AllocError>
    ensures { IfOk result (λ row. row ≡ row_of query.now «record».now) }
{
    let offset = query.offset_of(record);
    let cells = cells_of(alloc, query.form, offset, record)?;
    row_text(alloc, query.form, &cells)
}

/// Counts a record and writes its row, if it is asked for.
fn take_record<W: TellingWriter>(
    alloc: Global,
    query: &Query<'_>,
    record: &Record,
    tally: &mut Tally,
    output: &mut W,
) -> Result<(), ReportError>
    ensures counted { OnOk result (tally.new ≡ Definitions.with_asked query.now «record».now tally.old) }
    ensures written { OnOk result (Appends (W.contents output.old) (W.contents output.new) (Definitions.record_text query.now «record».now)) }
    ensures stopped { IfErr result (TextStops (W.contents output.old) (W.contents output.new) (Definitions.record_text query.now «record».now)
        (GaveUp (W.has_failed output.new) (W.called output.new))) }
{
    if !query.asks_for(alloc, record)? {
        add_unasked(alloc, query, record, tally)?;
        return Ok(());
    }
    tally.add_record(alloc, record)?;
    write(output, &record_row(alloc, query, record)?)
}

/// Writes what stands behind the rows, and hands all on.
#[tactic(auto, using(crate::proofs::Fronts::front_of_all))]
fn finish<W: TellingWriter>(
    alloc: Global,
    form: Form,
    tally: &Tally,
    output: &mut W,
) -> Result<(), ReportError>
    ensures written { OnOk result (Appends (W.contents output.old) (W.contents output.new) (ending_text_of form tally.now)) }
    ensures flushed { OnOk result (W.is_flushed output.new) }
    ensures stopped { IfErr result (TextStops (W.contents output.old) (W.contents output.new) (ending_text_of form tally.now)
        (GaveUp (W.has_failed output.new) (W.called output.new))) }
{
    write(output, &ending_text(alloc, form, tally)?)?;
    match hand_on(output) {
        Ok(()) => Ok(()),
        Err(_) => Err(ReportError::Write),
    }
}

fn write<W: TellingWriter>(output: &mut W, text: &Bytes) -> Result<(), ReportError>
    ensures written { OnOk result (Appends (W.contents output.old) (W.contents output.new) text.now) }
    ensures stopped { IfErr result (TextStops (W.contents output.old) (W.contents output.new) text.now
        (GaveUp (W.has_failed output.new) (W.called output.new))) }
{
    match put(output, text.as_slice()) {
        Ok(()) => Ok(()),
        Err(_) => Err(ReportError::Write),
    }
}
