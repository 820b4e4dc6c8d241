//! The lines of a log, of each as much as an audit line may have, read in parts as those of a script are (`sip_replay_script`). Which
//! lines are audit lines is asked in `entry`.
ghost use Rattle.std.specs.Prelude.{◌≡◌, ◌≤◌, ◌++◌, [], true, false, length, take, count_by, IfOk, IfErr, OnOk};
ghost use Rattle.std.specs.Io.KnownBytes.{Keeps, IsAtEnd};
ghost use Rattle.sip_replay_script.specs.Devices.{later};
ghost use Rattle.sip_replay_script.specs.Lines.{is_end, pending, left, EndsAt, IsOver, IsSpent};
ghost use Rattle.sipd_report.specs.Lines.{EndsLine, GoesOn, GivesLine};
ghost use Rattle.sipd_report.specs.Refusals.{ReadStops};

use crate::error::ReportError;
use sip_replay_script::{ScriptLines, TellingReader, end_of_line};
use std::alloc::AllocError;

/// The most bytes of a line that are kept: one more than an audit line has.
const KEPT: usize = 200_001;

/// The front of the next line of a log, without its LF: 200,001 bytes of it at most; or nothing at the end of the input. Refusals:
/// `NoMemory`; `Read`, where the reader fails or was asked as often as it may be.
#[tactic(auto, using(crate::proofs::Ends::gathers_nothing))]
pub fn next_front<R: TellingReader>(
    lines: &mut ScriptLines,
    reader: &mut R,
    line: &mut Vec<u8>,
) -> Result<bool, ReportError>
    ensures given { IfOk result (λ more. more ≡ true → GivesLine lines.old lines.new (R.remaining reader.old) (R.remaining reader.new)
        line.new.items) }
    ensures over { IfOk result (λ more. more ≡ false → IsOver lines.old lines.new (R.remaining reader.old) (R.remaining reader.new)) }
    ensures stopped { IfErr result (ReadStops (IsSpent (R.has_failed reader.new) lines.new.asks)) }
    ensures asked { later lines.new.asks (R.asked reader.new) ≡ later lines.old.asks (R.asked reader.old) }
    ensures less { lines.new.asks ≤ lines.old.asks }
{
    line.clear();
    'parts: loop {
        if !is_more(lines, reader)? {
            return Ok(is_begun(line));
        }
        if take_part(lines, line)? {
            return Ok(true);
        }
    }
}

/// Whether there is an unread byte; if all were given, the reader is asked.
#[tactic(auto, using(crate::proofs::Ends::some_left))]
fn is_more<R: TellingReader>(lines: &mut ScriptLines, reader: &mut R) -> Result<bool, ReportError>
    ensures kept { OnOk result (Keeps (pending lines.old (R.remaining reader.old)) (pending lines.new (R.remaining reader.new))) }
    ensures some { IfOk result (λ more. more ≡ true → 1 ≤ length lines.new.unread) }
    ensures end { IfOk result (λ more. more ≡ false → IsAtEnd (pending lines.new (R.remaining reader.new))) }
    ensures fewer { OnOk result (left lines.new ≤ left lines.old) }
    ensures stopped { IfErr result (ReadStops (IsSpent (R.has_failed reader.new) lines.new.asks)) }
    ensures asked { later lines.new.asks (R.asked reader.new) ≡ later lines.old.asks (R.asked reader.old) }
    ensures less { lines.new.asks ≤ lines.old.asks }
{
    match lines.peek(reader) {
        Ok(Some(_)) => Ok(true),
        Ok(None) => Ok(false),
        Err(_) => Err(ReportError::Read),
    }
}

/// Moves the unread bytes up to the first LF to the line, or all of them; whether there was an LF.
fn take_part(lines: &mut ScriptLines, line: &mut Vec<u8>) -> Result<bool, AllocError>
    requires { length line.old.items ≤ 200001 }
    ensures short { OnOk result (length line.new.items ≤ 200001) }
    ensures ends { IfOk result (λ ended. ended ≡ true → EndsLine lines.old lines.new line.old.items line.new.items) }
    ensures goes_on { IfOk result (λ ended. ended ≡ false → GoesOn lines.old lines.new line.old.items line.new.items) }
    ensures asks { lines.new.asks ≡ lines.old.asks }
{
    match end_of_line(lines.unread()) {
        Some(place) => {
            take_ended(lines, line, place)?;
            Ok(true)
        }
        None => {
            take_all(lines, line)?;
            Ok(false)
        }
    }
}

/// Moves the unread bytes up to the first LF, which stands at a place, to the line, and passes it.
fn take_ended(lines: &mut ScriptLines, line: &mut Vec<u8>, place: usize) -> Result<(), AllocError>
    requires few { length line.old.items ≤ 200001 }
    requires ends { EndsAt lines.old.unread place }
    ensures short { OnOk result (length line.new.items ≤ 200001) }
    ensures ends { OnOk result (EndsLine lines.old lines.new line.old.items line.new.items) }
    ensures asks { lines.new.asks ≡ lines.old.asks }
{
    let unread = lines.unread();
    put_part(line, &unread[..place])?;
    lines.pass(place);
    Ok(())
}

/// Moves the unread bytes, none of which is LF, to the line.
fn take_all(lines: &mut ScriptLines, line: &mut Vec<u8>) -> Result<(), AllocError>
    requires few { length line.old.items ≤ 200001 }
    requires none { count_by is_end lines.old.unread ≡ 0 }
    ensures short { OnOk result (length line.new.items ≤ 200001) }
    ensures goes_on { OnOk result (GoesOn lines.old lines.new line.old.items line.new.items) }
    ensures asks { lines.new.asks ≡ lines.old.asks }
{
    let unread = lines.unread();
    let count = unread.len();
    put_part(line, unread)?;
    lines.pass_lines(count, 0);
    Ok(())
}

/// Whether something stands in a line.
fn is_begun(line: &[u8]) -> bool
    ensures begun { result ≡ true → 1 ≤ length line.now }
    ensures none { result ≡ false → line.now ≡ [] }
{
    !line.is_empty()
}

/// Adds a part to a line, as far as it is kept.
fn put_part(line: &mut Vec<u8>, part: &[u8]) -> Result<(), AllocError>
    requires { length line.old.items ≤ 200001 }
    ensures grown { OnOk result (line.new.items ≡ take 200001 (line.old.items ++ part.now)) }
    ensures short { OnOk result (length line.new.items ≤ 200001) }
{
    let count = part.len().min(KEPT - line.len());
    line.extend_from_slice(&part[..count])?;
    Ok(())
}
