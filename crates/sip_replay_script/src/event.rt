//! The next event of a script read, most from the bytes as they were read, and else line by line. What one line says is in `script`.
ghost use Rattle.std.specs.Prelude.{◌≡◌, ◌≤◌, ◌++◌, ◌∷◌, [], ℕ, List, Option, Some, true, false, length, take, OnOk, IfOk, IfErr, IfSome, IfNone, MatchOption};
ghost use Rattle.sip_replay_script.specs.Devices.{later};
ghost use Rattle.sip_replay_script.specs.Events;
ghost use Rattle.sip_replay_script.specs.Events.{BeginsOther, GivesEvent, GivesDatagram, GivesFirst, GivesSaid, GoesOnBy, KeepsAll, KeepsLines};
ghost use Rattle.sip_replay_script.specs.Events.{DatagramStops, FirstStops, ReadStops};
ghost use Rattle.sip_replay_script.specs.Lines.{left, pending, IsOver, IsSpent, PassesLine};
ghost use Rattle.sip_replay_script.specs.Script;
ghost use Rattle.sip_replay_script.specs.declared.script.EventLine.TheVariants.{Head};
ghost use Rattle.sip_replay_script.specs.declared.read_stop.ReadStop.TheVariants.{NoMemory};

use crate::cut_line::stop_at;
use crate::device::TellingReader;
use crate::gathered::{Gathered, KEPT};
use crate::lines::ScriptLines;
use crate::read_stop::ReadStop;
use crate::script::{DatagramHead, EventLine, head_at_once, line_of, time_at_once, unstuffed};
use sip_event::Event;
use sip_text::same_bytes;
use std::alloc::Global;

/// The line that begins the next event of a script; `None` at its end. Behind the head of a datagram its bytes are gathered, so
/// that they are used from there. Most lines are such a head or a moment, and are read at once. Refusals: `NoMemory`; `Cut`, where
/// what is left is the front of a text that says an event, and not the whole of it; `Damaged`, where it begins with no event and is no
/// such front; `Read`, where the reader failed or was asked 4,294,967,295 times.
#[tactic(auto, using(crate::proofs::Datagrams::at_once_fits))]
pub fn next_line<R: TellingReader>(
    alloc: Global,
    lines: &mut ScriptLines,
    reader: &mut R,
    bytes: &mut Gathered,
) -> Result<Option<EventLine>, ReadStop>
    ensures given { IfOk result (λ found. IfSome found
        (λ line. GivesEvent lines.old lines.new (R.remaining reader.old) (R.remaining reader.new) (Script.event_of line bytes.new))) }
    ensures over { IfOk result (λ found. IfNone found (IsOver lines.old lines.new (R.remaining reader.old) (R.remaining reader.new))) }
    ensures stopped { IfErr result (ReadStops (IsSpent (R.has_failed reader.new) lines.new.asks) (pending lines.old (R.remaining reader.old))) }
    ensures asked { later lines.new.asks (R.asked reader.new) ≡ later lines.old.asks (R.asked reader.old) }
    ensures less { lines.new.asks ≤ lines.old.asks }
{
    if let Some((at, count)) = time_at_once(lines.unread()) {
        lines.pass(count);
        return Ok(Some(EventLine::Whole(Event::Time { at })));
    }
    if let Some(head) = front_head(lines) {
        bytes.clear();
        gather(alloc, lines, reader, bytes)?;
        return Ok(Some(EventLine::Head(head)));
    }
    any_line(alloc, lines, reader, bytes)
}

/// The head of a datagram that the next line says, which is passed, if it stands whole among the bytes that were read and is
/// read at once. None says nothing, and passes nothing.
#[inline(always)]
#[tactic(auto, using(crate::proofs::Datagrams::at_once_fits))]
fn front_head(lines: &mut ScriptLines) -> Option<DatagramHead>
    ensures head { MatchOption result (lines.new ≡ lines.old)
        (λ head. (rest : Option (List ℕ)) → GivesSaid lines.old lines.new rest rest (Some (Head head))) }
    ensures asks { lines.new.asks ≡ lines.old.asks }
{
    let (head, count) = head_at_once(lines.unread())?;
    lines.pass(count);
    Some(head)
}

/// The same of any line.
#[inline(never)]
fn any_line<R: TellingReader>(
    alloc: Global,
    lines: &mut ScriptLines,
    reader: &mut R,
    bytes: &mut Gathered,
) -> Result<Option<EventLine>, ReadStop>
    ensures given { IfOk result (λ found. IfSome found
        (λ line. GivesEvent lines.old lines.new (R.remaining reader.old) (R.remaining reader.new) (Script.event_of line bytes.new))) }
    ensures over { IfOk result (λ found. IfNone found (IsOver lines.old lines.new (R.remaining reader.old) (R.remaining reader.new))) }
    ensures stopped { IfErr result (ReadStops (IsSpent (R.has_failed reader.new) lines.new.asks) (pending lines.old (R.remaining reader.old))) }
    ensures asked { later lines.new.asks (R.asked reader.new) ≡ later lines.old.asks (R.asked reader.old) }
    ensures less { lines.new.asks ≤ lines.old.asks }
{
    match first_line(alloc, lines, reader)? {
        EventBeginning::Over => Ok(None),
        EventBeginning::Says(None) => Err(ReadStop::Damaged),
        EventBeginning::Says(Some(EventLine::Whole(event))) => Ok(Some(EventLine::Whole(event))),
        EventBeginning::Says(Some(EventLine::Head(head))) => {
            bytes.clear();
            gather(alloc, lines, reader, bytes)?;
            Ok(Some(EventLine::Head(head)))
        }
    }
}

/// What the next line is to an event.
#[derive(Drop)]
pub(crate) enum EventBeginning {
    /// There is none.
    Over,
    /// What it says as the first of an event.
    Says(Option<EventLine>),
}

/// What the next line says as the first of an event.
pub(crate) fn first_line<R: TellingReader>(
    alloc: Global,
    lines: &mut ScriptLines,
    reader: &mut R,
) -> Result<EventBeginning, ReadStop>
    ensures given { IfOk result (λ first. GivesFirst first lines.old lines.new (R.remaining reader.old) (R.remaining reader.new)) }
    ensures stopped { IfErr result (FirstStops (IsSpent (R.has_failed reader.new) lines.new.asks) (pending lines.old (R.remaining reader.old))) }
    ensures asked { later lines.new.asks (R.asked reader.new) ≡ later lines.old.asks (R.asked reader.old) }
    ensures less { lines.new.asks ≤ lines.old.asks }
{
    if let Some(line) = lines.front() {
        let said = line_of(alloc, line)?;
        let count = line.len();
        lines.pass(count);
        return Ok(EventBeginning::Says(said));
    }
    parted_line(alloc, lines, reader)
}

/// The same of a line that reaches past the bytes that were read.
#[inline(never)]
fn parted_line<R: TellingReader>(
    alloc: Global,
    lines: &mut ScriptLines,
    reader: &mut R,
) -> Result<EventBeginning, ReadStop>
    ensures given { IfOk result (λ first. GivesFirst first lines.old lines.new (R.remaining reader.old) (R.remaining reader.new)) }
    ensures stopped { IfErr result (FirstStops (IsSpent (R.has_failed reader.new) lines.new.asks) (pending lines.old (R.remaining reader.old))) }
    ensures asked { later lines.new.asks (R.asked reader.new) ≡ later lines.old.asks (R.asked reader.old) }
    ensures less { lines.new.asks ≤ lines.old.asks }
{
    let mut line = Vec::new(alloc);
    let more = match lines.next(reader, &mut line) {
        Ok(more) => more,
        Err(stop) => return Err(stop_at(alloc, &line, stop)),
    };
    if !more {
        return Ok(EventBeginning::Over);
    }
    Ok(EventBeginning::Says(line_of(alloc, &line)?))
}

/// Gathers the bytes that the lines up to a line `.` say.
#[inline(always)]
fn gather<R: TellingReader>(
    alloc: Global,
    lines: &mut ScriptLines,
    reader: &mut R,
    bytes: &mut Gathered,
) -> Result<(), ReadStop>
    requires { bytes.old ≡ [] }
    ensures given { OnOk result (GivesDatagram lines.old lines.new (R.remaining reader.old) (R.remaining reader.new) bytes.new) }
    ensures fewer { OnOk result (left lines.new ≤ left lines.old) }
    ensures stopped { IfErr result (DatagramStops (IsSpent (R.has_failed reader.new) lines.new.asks) (pending lines.old (R.remaining reader.old))) }
    ensures asked { later lines.new.asks (R.asked reader.new) ≡ later lines.old.asks (R.asked reader.old) }
    ensures less { lines.new.asks ≤ lines.old.asks }
{
    let mut line = Vec::new(alloc);
    loop {
        if keep_lines(lines, bytes)? {
            return Ok(());
        }
        if !lines.next(reader, &mut line)? {
            return Err(ReadStop::Cut);
        }
        if is_dot(&line) {
            return Ok(());
        }
        keep_line(bytes, &line)?;
    }
}

/// What became of the next line of a datagram.
enum NextDatagramLine {
    /// It was passed, and what it says is kept.
    Kept,
    /// It is the dot behind the others, and was passed.
    Dot,
    /// It doesn't stand whole among the bytes that were read.
    Unended,
}

/// Adds what the lines say that stand whole among the bytes that were read, and passes them, up to a dot, which is passed,
/// too; whether there was a dot. Most lines do: only one that reaches past those bytes is gathered first.
#[inline(always)]
#[tactic(auto, using(crate::proofs::Datagrams::keeps_less))]
fn keep_lines(lines: &mut ScriptLines, bytes: &mut Gathered) -> Result<bool, ReadStop>
    requires { length bytes.old ≤ KEPT }
    ensures kept { IfOk result (λ ended. ended ≡ false → KeepsLines lines.old lines.new bytes.old bytes.new) }
    ensures all { IfOk result (λ ended. ended ≡ true → KeepsAll lines.old lines.new bytes.old bytes.new) }
    ensures most { OnOk result (length bytes.new ≤ KEPT) }
    ensures fewer { OnOk result (left lines.new ≤ left lines.old) }
    ensures asks { lines.new.asks ≡ lines.old.asks }
    ensures stopped { IfErr result (λ stop. stop ≡ NoMemory) }
{
    keep_plain(lines, bytes);
    loop {
        match keep_any(lines, bytes)? {
            NextDatagramLine::Kept => keep_plain(lines, bytes),
            NextDatagramLine::Dot => return Ok(true),
            NextDatagramLine::Unended => return Ok(false),
        }
    }
}

/// Passes lines that stand whole among the bytes that were read, and adds what they say, up to one that begins with a dot: most
/// of a datagram at once, where there is room for them.
#[inline(always)]
fn keep_plain(lines: &mut ScriptLines, bytes: &mut Gathered)
    requires { length bytes.old ≤ KEPT }
    ensures kept { KeepsLines lines.old lines.new bytes.old bytes.new }
    ensures most { length bytes.new ≤ KEPT }
    ensures asks { lines.new.asks ≡ lines.old.asks }
    ensures fewer { length lines.new.unread ≤ length lines.old.unread }
{
    let passed = bytes.add_lines(lines.unread());
    lines.pass_lines(passed.count, passed.lines);
}

/// Passes the next line, if it stands whole among the bytes that were read, and adds what it says, unless it is the dot.
#[inline(always)]
fn keep_any(lines: &mut ScriptLines, bytes: &mut Gathered) -> Result<NextDatagramLine, ReadStop>
    requires { length bytes.old ≤ KEPT }
    ensures next { IfOk result (λ next. GoesOnBy next lines.old lines.new bytes.old bytes.new) }
    ensures most { OnOk result (length bytes.new ≤ KEPT) }
    ensures asks { lines.new.asks ≡ lines.old.asks }
    ensures stopped { IfErr result (λ stop. stop ≡ NoMemory) }
{
    if pass_dot(lines) {
        return Ok(NextDatagramLine::Dot);
    }
    keep_other(lines, bytes)
}

/// Passes the dot, if it is the next line and stands whole among the bytes that were read; whether it was.
#[inline(always)]
#[tactic(auto, using(crate::proofs::Datagrams::passes_dot, crate::proofs::Datagrams::begins_other, crate::proofs::Datagrams::too_short))]
fn pass_dot(lines: &mut ScriptLines) -> bool
    ensures passed { result ≡ true → PassesLine lines.old lines.new (46 ∷ []) }
    ensures same { result ≡ false → lines.new ≡ lines.old }
    ensures other { result ≡ false → BeginsOther lines.old.unread }
{
    let unread = lines.unread();
    if unread.len() >= 2 && same_bytes(&unread[..2], b".\n") {
        lines.pass(1);
        return true;
    }
    false
}

/// The same of a next line that isn't the dot.
#[inline(never)]
fn keep_other(lines: &mut ScriptLines, bytes: &mut Gathered) -> Result<NextDatagramLine, ReadStop>
    requires most { length bytes.old ≤ KEPT }
    requires other { BeginsOther lines.old.unread }
    ensures next { IfOk result (λ next. GoesOnBy next lines.old lines.new bytes.old bytes.new) }
    ensures most { OnOk result (length bytes.new ≤ KEPT) }
    ensures asks { lines.new.asks ≡ lines.old.asks }
    ensures stopped { IfErr result (λ stop. stop ≡ NoMemory) }
{
    let Some(line) = lines.front() else {
        return Ok(NextDatagramLine::Unended);
    };
    let count = line.len();
    keep_line(bytes, line)?;
    lines.pass(count);
    Ok(NextDatagramLine::Kept)
}

/// Whether a line ends a datagram.
pub(crate) fn is_dot(line: &[u8]) -> bool
    ensures { result ≡ Events.is_dot line.now }
{
    line == b".".as_slice()
}

/// Adds what a line says to a datagram, as far as it is kept.
fn keep_line(bytes: &mut Gathered, line: &[u8]) -> Result<(), ReadStop>
    requires { length bytes.old ≤ KEPT }
    ensures kept { OnOk result (bytes.new ≡ take KEPT (bytes.old ++ Events.said line.now)) }
    ensures most { OnOk result (length bytes.new ≤ KEPT) }
    ensures stopped { IfErr result (λ stop. stop ≡ NoMemory) }
{
    keep(bytes, unstuffed(line))?;
    keep(bytes, b"\r\n")
}

/// Adds a part to a datagram, as far as it is kept.
fn keep(bytes: &mut Gathered, part: &[u8]) -> Result<(), ReadStop>
    requires { length bytes.old ≤ KEPT }
    ensures kept { OnOk result (bytes.new ≡ take KEPT (bytes.old ++ part.now)) }
    ensures most { OnOk result (length bytes.new ≤ KEPT) }
    ensures stopped { IfErr result (λ stop. stop ≡ NoMemory) }
{
    let room = KEPT - bytes.as_slice().len();
    if part.len() <= room {
        bytes.extend(part)?;
    } else {
        bytes.extend(&part[..room])?;
    }
    Ok(())
}
