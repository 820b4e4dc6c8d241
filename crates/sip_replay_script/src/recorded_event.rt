ghost use Rattle.std.specs.Prelude.{◌≡◌, ◌≤◌, ◌∷◌, [], OnOk, IfOk, IfErr, IfSome, IfNone};
ghost use Rattle.sip_replay_script.specs.Devices.{later};
ghost use Rattle.sip_replay_script.specs.Lines.{pending, GivesLine, IsOver, IsSpent};
ghost use Rattle.sip_replay_script.specs.Recorded;
ghost use Rattle.sip_replay_script.specs.Recorded.{DotStops, GivesRecorded, RecordStops};
ghost use Rattle.sip_replay_script.specs.Script.{datagram_at};

use crate::device::TellingReader;
use crate::event::{EventBeginning, first_line, is_dot};
use crate::lines::ScriptLines;
use crate::read_stop::ReadStop;
use crate::script::{DatagramHead, EventLine};
use sip_event::Event;
use sip_text::Bytes;
use std::alloc::Global;

/// The next event of a record; `None` at its end. A record is a script that says each event in one line, but a datagram without bytes
/// in the line that begins it and a line `.`. Refusals: `NoMemory`; `Cut`, where what is left is the front of such a text of an event,
/// and not the whole of it; `Damaged`, where it begins with none and is no such front; `Read`, where the reader failed or was asked
/// 4,294,967,295 times.
pub fn next_recorded<R: TellingReader>(
    alloc: Global,
    lines: &mut ScriptLines,
    reader: &mut R,
) -> Result<Option<Event>, ReadStop>
    ensures given { IfOk result
        (λ found. IfSome found (λ event. GivesRecorded lines.old lines.new (R.remaining reader.old) (R.remaining reader.new) event)) }
    ensures over { IfOk result (λ found. IfNone found (IsOver lines.old lines.new (R.remaining reader.old) (R.remaining reader.new))) }
    ensures stopped { IfErr result (RecordStops (IsSpent (R.has_failed reader.new) lines.new.asks) (pending lines.old (R.remaining reader.old))) }
    ensures asked { later lines.new.asks (R.asked reader.new) ≡ later lines.old.asks (R.asked reader.old) }
    ensures less { lines.new.asks ≤ lines.old.asks }
{
    match first_line(alloc, lines, reader)? {
        EventBeginning::Over => Ok(None),
        EventBeginning::Says(None) => Err(ReadStop::Damaged),
        EventBeginning::Says(Some(EventLine::Whole(event))) => Ok(Some(event)),
        EventBeginning::Says(Some(EventLine::Head(head))) => {
            pass_dot(alloc, lines, reader)?;
            Ok(Some(without_bytes(alloc, head)))
        }
    }
}

/// A datagram without bytes. Takes no memory.
fn without_bytes(alloc: Global, head: DatagramHead) -> Event
    ensures { result ≡ datagram_at head [] }
{
    Event::Datagram {
        at: head.at,
        word: head.word,
        from: head.from,
        bytes: Bytes::new(alloc),
    }
}

/// Passes the line `.` behind the line that begins such a datagram. Nothing else may stand there.
fn pass_dot<R: TellingReader>(
    alloc: Global,
    lines: &mut ScriptLines,
    reader: &mut R,
) -> Result<(), ReadStop>
    ensures passed { OnOk result (GivesLine lines.old lines.new (R.remaining reader.old) (R.remaining reader.new) (46 ∷ [])) }
    ensures stopped { IfErr result (DotStops (IsSpent (R.has_failed reader.new) lines.new.asks) (pending lines.old (R.remaining reader.old))) }
    ensures asked { later lines.new.asks (R.asked reader.new) ≡ later lines.old.asks (R.asked reader.old) }
    ensures less { lines.new.asks ≤ lines.old.asks }
{
    let mut line = Vec::new(alloc);
    let more = match lines.next(reader, &mut line) {
        Ok(more) => more,
        Err(stop) => return Err(dot_stop(&line, stop)),
    };
    if !more {
        return Err(ReadStop::Cut);
    }
    if !is_dot(&line) {
        return Err(ReadStop::Damaged);
    }
    Ok(())
}

/// Why the line `.` isn't passed where no line is; of one that was cut these are the bytes.
fn dot_stop(line: &[u8], stop: ReadStop) -> ReadStop
    ensures { result ≡ Recorded.dot_stop line.now stop }
{
    match stop {
        ReadStop::Cut if !is_dot(line) => ReadStop::Damaged,
        stop => stop,
    }
}
