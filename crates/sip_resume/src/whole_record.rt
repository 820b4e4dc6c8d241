ghost use Rattle.std.specs.Prelude.{◌≡◌, ◌≤◌, true, IfOk, IfErr};
ghost use Rattle.sip_replay_script.specs.Devices.{later};
ghost use Rattle.sip_replay_script.specs.Lines.{pending, IsSpent};
ghost use Rattle.sip_run.specs.Due.{standing_of};
ghost use Rattle.sip_resume.specs.Outputs.{outputs_of};
ghost use Rattle.sip_resume.specs.Whole.{IsRecordResumed, IsRecordUnresumed};
ghost use Rattle.sip_resume.specs.declared.record_error.RecordError.TheVariants as Refusal;

use crate::events::take_events;
use crate::record_error::RecordError;
use crate::segments::take_segment;
use sip_event::StepOut;
use sip_journal::Journal;
use sip_journal::laws::noted_segments_join;
use sip_journal::segment_laws::segments_join;
use sip_policy::Rules;
use sip_replay_print::StepSink;
use sip_replay_script::{ScriptLines, TellingReader};
use sip_run::engine::Engine;
use sip_timers::Timers;
use std::alloc::Global;

/// What a record was taken to.
#[derive(Drop)]
pub struct Resumed {
    /// How many of its lines were taken.
    pub lines: u64,
    /// The own step of the last event; none where no event was taken.
    pub last: Option<StepOut>,
}

/// Takes what stands behind the first line of a record, so that a server goes on from where it leads: events of which the record doesn't
/// hold the configuration, under that of the server, and then each configuration, of at most so many bytes, and the events behind it. What is
/// due by the moment of each event happens first; nothing that is handed out is sent, each step is shown to the sink, and each event and
/// configuration is told to the journal behind it. A record says an event in one line, but a datagram without bytes in two, of which the
/// second is `.`. One that was cut in its last event or configuration is taken up to the last whole one. The lines that are given are
/// counted on from those that were given before. Refusals: `NoMemory`; `Damaged` with the line from which on what is left says no event and
/// no configuration, and is no front of one's text; `Read`, where the reader failed or was asked as often as it may be; `Step`, where the
/// server refuses the next event: its moment is 2^62 ms or more, or a datagram's number would be; `Journal`; `TooLong`, where the next
/// configuration has more bytes; `NoConfiguration`, where its text is refused; `OtherFrame`, where it says something else of the server
/// itself, by the first such key; `Write`, where the sink gave up. The engine has taken some of the events and configurations then.
pub fn resume_record<T: Timers, R: Rules, I: TellingReader, J: Journal, S: StepSink>(
    alloc: Global,
    engine: &mut Engine<T, R>,
    lines: &mut ScriptLines,
    reader: &mut I,
    longest: usize,
    journal: &mut J,
    sink: &mut S,
) -> Result<Resumed, RecordError>
    ensures resumed { IfOk result (λ resumed. IsRecordResumed engine.old.server engine.new.server (standing_of engine.old) (standing_of engine.new)
        (pending lines.old (I.remaining reader.old)) lines.old.number (outputs_of (J.written journal.old) (S.shown sink.old)) (outputs_of (J.written journal.new) (S.shown sink.new)) resumed.lines
        resumed.last) }
    ensures refused { IfErr result (IsRecordUnresumed engine.old.server engine.new.server (standing_of engine.old) (standing_of engine.new) longest
        (IsSpent (I.has_failed reader.new) lines.new.asks) (pending lines.old (I.remaining reader.old)) lines.old.number
        (outputs_of (J.written journal.old) (S.shown sink.old)) (outputs_of (J.written journal.new) (S.shown sink.new))) }
    ensures whole { ¬ (result ≡ Err Refusal.Journal) → J.faulted journal.new ≡ J.faulted journal.old }
    ensures said { result ≡ Err Refusal.Journal → J.faulted journal.new ≡ true }
    ensures gave_up { result ≡ Err Refusal.Write → S.gave_up sink.new }
    ensures asked { later lines.new.asks (I.asked reader.new) ≡ later lines.old.asks (I.asked reader.old) }
    ensures less { lines.new.asks ≤ lines.old.asks }
    ensures secrets { engine.new.secrets ≡ engine.old.secrets }
{
    segments_join();
    noted_segments_join();
    let mut reached = take_events(alloc, engine, lines, reader, journal, sink)?;
    'segments: while !reached.is_over {
        let part = take_segment(alloc, engine, lines, reader, longest, journal, sink)?;
        reached = part.behind(reached);
    }
    Ok(Resumed {
        lines: reached.lines,
        last: reached.last,
    })
}
