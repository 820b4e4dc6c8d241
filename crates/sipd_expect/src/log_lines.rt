//! A log that is asked again, line by line.
ghost use Rattle.std.specs.Prelude.{◌≡◌, ◌≤◌, ◌⊎◌, ◌&&◌, true, false, is_none, IfOk, IfErr, OnOk};
ghost use Rattle.std.specs.Io.KnownBytes.{Appends, Keeps};
ghost use Rattle.sipd_report.specs.declared.error.ReportError.TheVariants.{Write};
ghost use Rattle.sip_replay_script.specs.Devices.{later, GaveUp, IsAsked};
ghost use Rattle.sip_replay_script.specs.Lines.{IsOver, IsSpent};
ghost use Rattle.sipd_report.specs.Entries;
ghost use Rattle.sipd_report.specs.Refusals.{TextStops};
ghost use Rattle.sipd_expect.specs.Counts as Counted;
ghost use Rattle.sipd_expect.specs.LogTelling as Definitions;
ghost use Rattle.sipd_expect.specs.LogSteps.{AsksAgain, IsRefused, LineStops, TakesLine};

use crate::counts::Counts;
use crate::log_telling::told_by;
use sip_audit::Record;
use sip_config_types::Config;
use sip_replay_script::{ScriptLines, TellingReader, TellingWriter, hand_on, put};
use sip_text::Bytes;
use sipd_report::{ReportError, entry_of, next_front};
use std::alloc::Global;

/// Writes the lines of a log that a configuration would decide otherwise about, each with what it would decide, in their order, and nothing
/// else. A line asks as what it says: the same method, for the same address of record, at the same moment, by the same proven user; where
/// nobody was proven, or the user isn't configured, by nobody. It is decided otherwise where it was let through, denied or challenged and
/// wouldn't be, or by a rule of another number; and where it was sent on or answered here and wouldn't be, as for a user who came or
/// went since. Lines are read as a report reads them.
///
/// Answers how many lines there were; all is handed on then. Refusals: `NoMemory`; `Read`, where the reader fails or was asked 4,294,967,295
/// times; `Write`. What was written before a refusal stays: a front of what is told, at `Read` of whole lines.
#[tactic(auto, using(crate::proofs::AskedAgain::asked_first))]
pub fn ask_again<I: TellingReader, W: TellingWriter>(
    alloc: Global,
    config: &Config,
    input: &mut I,
    output: &mut W,
) -> Result<Counts, ReportError>
    ensures told { IfOk result (AsksAgain config.now (I.remaining input.old) (W.contents output.old) (W.contents output.new)) }
    ensures flushed { OnOk result (W.is_flushed output.new) }
    ensures refused { IfErr result (IsRefused config.now (I.remaining input.old) (W.contents output.old) (W.contents output.new)
        (I.has_failed input.new ⊎ (I.asked input.new ≡ later 4294967295 (I.asked input.old))) (GaveUp (W.has_failed output.new) (W.called output.new))) }
    ensures asked { IsAsked 4294967295 (I.asked input.old) (I.asked input.new) }
{
    let mut lines = ScriptLines::new(alloc)?;
    let mut line = Vec::new(alloc);
    let mut counts = Counts::new();
    while take_next(
        alloc,
        config,
        &mut lines,
        &mut line,
        &mut counts,
        input,
        output,
    )? {}
    finish(output)?;
    Ok(counts)
}

/// Takes the next line, if there is one.
fn take_next<I: TellingReader, W: TellingWriter>(
    alloc: Global,
    config: &Config,
    lines: &mut ScriptLines,
    line: &mut Vec<u8>,
    counts: &mut Counts,
    input: &mut I,
    output: &mut W,
) -> Result<bool, ReportError>
    ensures taken { IfOk result (λ more. more ≡ true → TakesLine config.now lines.old lines.new (I.remaining input.old) (I.remaining input.new)
        counts.old counts.new (W.contents output.old) (W.contents output.new)) }
    ensures over { IfOk result (λ more. more ≡ false → IsOver lines.old lines.new (I.remaining input.old) (I.remaining input.new)) }
    ensures counted { IfOk result (λ more. more ≡ false → counts.new ≡ counts.old) }
    ensures silent { IfOk result (λ more. more ≡ false → W.contents output.new ≡ W.contents output.old) }
    ensures stopped { IfErr result (LineStops config.now lines.old lines.new (I.remaining input.old) (I.remaining input.new)
        (W.contents output.old) (W.contents output.new) (IsSpent (I.has_failed input.new) lines.new.asks) (GaveUp (W.has_failed output.new) (W.called output.new))) }
    ensures asked { later lines.new.asks (I.asked input.new) ≡ later lines.old.asks (I.asked input.old) }
    ensures less { lines.new.asks ≤ lines.old.asks }
{
    if !next_front(lines, input, line)? {
        return Ok(false);
    }
    take_line(alloc, config, line.as_slice(), counts, output)?;
    Ok(true)
}

/// Whether something stands in a line.
fn is_filled(line: &[u8]) -> bool
    ensures { result ≡ Entries.is_filled line.now }
{
    match line.first() {
        Some(_) => true,
        None => false,
    }
}

/// Whether something stands in a line that has no record.
fn is_none_of(line: &[u8], entry: &Option<Record>) -> bool
    ensures { result ≡ (Entries.is_filled line.now && is_none entry.now) }
{
    is_filled(line) && entry.is_none()
}

/// Counts a line, and tells it if it would be decided otherwise.
fn take_line<W: TellingWriter>(
    alloc: Global,
    config: &Config,
    line: &[u8],
    counts: &mut Counts,
    output: &mut W,
) -> Result<(), ReportError>
    ensures counted { OnOk result (counts.new ≡ Counted.after_line config.now line.now counts.old) }
    ensures written { OnOk result (Appends (W.contents output.old) (W.contents output.new) (Definitions.line_text config.now line.now)) }
    ensures stopped { IfErr result (TextStops (W.contents output.old) (W.contents output.new) (Definitions.line_text config.now line.now)
        (GaveUp (W.has_failed output.new) (W.called output.new))) }
{
    let entry = entry_of(alloc, line)?;
    let told = told_by(alloc, config, line, &entry)?;
    *counts = counts.with_line(entry.is_some(), told.is_some(), is_none_of(line, &entry));
    match &told {
        Some(text) => write(output, text),
        None => Ok(()),
    }
}

fn write<W: TellingWriter>(output: &mut W, text: &Bytes) -> Result<(), ReportError>
    ensures written { OnOk result (Appends (W.contents output.old) (W.contents output.new) text.now) }
    ensures stopped { IfErr result (TextStops (W.contents output.old) (W.contents output.new) text.now
        (GaveUp (W.has_failed output.new) (W.called output.new))) }
{
    match put(output, text.as_slice()) {
        Ok(()) => Ok(()),
        Err(_) => Err(ReportError::Write),
    }
}

/// Hands all on.
fn finish<W: TellingWriter>(output: &mut W) -> Result<(), ReportError>
    ensures kept { Keeps (W.contents output.old) (W.contents output.new) }
    ensures flushed { OnOk result (W.is_flushed output.new) }
    ensures stopped { IfErr result (λ e. (e ≡ Write) × GaveUp (W.has_failed output.new) (W.called output.new)) }
{
    match hand_on(output) {
        Ok(()) => Ok(()),
        Err(_) => Err(ReportError::Write),
    }
}
