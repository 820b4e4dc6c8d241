//! One configuration of a record comes into force, and the events behind it are taken (`events`).
//! How a configuration is taken is in `taking`.
ghost use Rattle.std.specs.Prelude.{◌≡◌, ◌≤◌, ℕ, List, Option, true, IfOk, IfErr, IfSome, IfNone, OnErr};
ghost use Rattle.std.specs.Io.KnownBytes.{Keeps};
ghost use Rattle.sip_replay_script.specs.Devices.{later};
ghost use Rattle.sip_replay_script.specs.Lines.{pending, IsSpent};
ghost use Rattle.sip_replay_script.specs.Recorded.{IsDamagedRecord};
ghost use Rattle.sip_segment_config.specs.Last.{EndsCut};
ghost use Rattle.sip_resume.specs.Takes.{TakesConfiguration};
ghost use Rattle.sip_run.specs.Due.{standing_of};
ghost use Rattle.sip_resume.specs.Outputs.{outputs_of};
ghost use Rattle.sip_resume.specs.RecordErrors;
ghost use Rattle.sip_resume.specs.Parts.{ReachesNext, SegmentsStop, UnbegunStops};
ghost use Rattle.sip_resume.specs.declared.record_error.RecordError.TheVariants as Refusal;

use crate::events::take_events;
use crate::parts::Reached;
use crate::record_error::RecordError;
use crate::taking::take_configuration;
use sip_journal::Journal;
use sip_journal::laws::noted_segments_join;
use sip_journal::segment_laws::segments_join;
use sip_policy::Rules;
use sip_replay_print::StepSink;
use sip_replay_script::{ScriptLines, TellingReader};
use sip_run::engine::Engine;
use sip_segment_config::SegmentStop;
use sip_text::Buffer;
use sip_timers::Timers;
use std::alloc::Global;

/// Whether a record ends where no configuration is taken.
fn end_of(stop: SegmentStop) -> Result<(), RecordError>
    ensures { result ≡ RecordErrors.end_of stop }
{
    match stop {
        SegmentStop::NoMemory => Err(RecordError::NoMemory),
        SegmentStop::Damaged(line) => Err(RecordError::Damaged(line)),
        SegmentStop::Cut(_) => Ok(()),
        SegmentStop::Read => Err(RecordError::Read),
        SegmentStop::TooLong(line) => Err(RecordError::TooLong(line)),
        SegmentStop::NoConfiguration(line, e) => Err(RecordError::NoConfiguration(line, e)),
        SegmentStop::OtherFrame(line, key) => Err(RecordError::OtherFrame(line, key)),
    }
}

/// Takes the next configuration of a record, in force from now on; none where the record ends, or was cut in it.
fn begin_segment<T: Timers, R: Rules, I: TellingReader>(
    alloc: Global,
    engine: &mut Engine<T, R>,
    lines: &mut ScriptLines,
    reader: &mut I,
    longest: usize,
) -> Result<Option<Buffer>, RecordError>
    ensures taken { IfOk result (λ found. IfSome found (λ text. TakesConfiguration engine.old engine.new lines.old lines.new
        (I.remaining reader.old) (I.remaining reader.new) text)) }
    ensures over { IfOk result (λ found. IfNone found (IfSome (pending lines.old (I.remaining reader.old)) EndsCut)) }
    ensures waits { IfOk result (λ found. IfNone found (engine.new ≡ engine.old)) }
    ensures refused { IfErr result (UnbegunStops engine.old.server longest (IsSpent (I.has_failed reader.new) lines.new.asks)
        (pending lines.old (I.remaining reader.old)) lines.old.number) }
    ensures unchanged { OnErr result (engine.new ≡ engine.old) }
    ensures asked { later lines.new.asks (I.asked reader.new) ≡ later lines.old.asks (I.asked reader.old) }
    ensures less { lines.new.asks ≤ lines.old.asks }
    ensures secrets { engine.new.secrets ≡ engine.old.secrets }
{
    match take_configuration(alloc, engine, lines, reader, longest) {
        Ok(found) => Ok(found),
        Err(stop) => {
            end_of(stop)?;
            Ok(None)
        }
    }
}

/// Takes the next configuration of a record and tells it, and then the events behind it. What is still to come was so before it was looked at.
pub(crate) fn take_segment<T: Timers, R: Rules, I: TellingReader, J: Journal, S: StepSink>(
    alloc: Global,
    engine: &mut Engine<T, R>,
    lines: &mut ScriptLines,
    reader: &mut I,
    longest: usize,
    journal: &mut J,
    sink: &mut S,
) -> Result<Reached, RecordError>
    ensures taken { (before : Option (List ℕ)) → Keeps before (pending lines.old (I.remaining reader.old))
        → IfOk result (λ reached. ReachesNext engine.old.server engine.new.server (standing_of engine.old) (standing_of engine.new) before lines.old
        lines.new (I.remaining reader.new) (outputs_of (J.written journal.old) (S.shown sink.old)) (outputs_of (J.written journal.new) (S.shown sink.new)) reached.lines reached.last reached.is_over) }
    ensures refused { (before : Option (List ℕ)) → Keeps before (pending lines.old (I.remaining reader.old))
        → IfSome before IsDamagedRecord → IfErr result (SegmentsStop engine.old.server engine.new.server (standing_of engine.old) (standing_of engine.new)
        longest (IsSpent (I.has_failed reader.new) lines.new.asks) before lines.old.number (outputs_of (J.written journal.old) (S.shown sink.old)) (outputs_of (J.written journal.new) (S.shown sink.new))) }
    ensures whole { ¬ (result ≡ Err Refusal.Journal) → J.faulted journal.new ≡ J.faulted journal.old }
    ensures said { result ≡ Err Refusal.Journal → J.faulted journal.new ≡ true }
    ensures gave_up { result ≡ Err Refusal.Write → S.gave_up sink.new }
    ensures asked { later lines.new.asks (I.asked reader.new) ≡ later lines.old.asks (I.asked reader.old) }
    ensures less { lines.new.asks ≤ lines.old.asks }
    ensures secrets { engine.new.secrets ≡ engine.old.secrets }
{
    segments_join();
    noted_segments_join();
    let before = lines.number();
    let Some(text) = begin_segment(alloc, engine, lines, reader, longest)? else {
        return Ok(Reached::over(before));
    };
    journal.configured(text.as_slice())?;
    let reached = take_events(alloc, engine, lines, reader, journal, sink)?;
    Ok(reached)
}
