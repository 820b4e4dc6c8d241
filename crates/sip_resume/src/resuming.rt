//! One event of a record taken as it was served: what is due by its moment happens first, then the event is taken and told to the journal.
//! Nothing of it is sent.
ghost use Rattle.std.specs.Prelude.{◌≡◌, ◌≤◌, [], ◌∷◌, Some, None, true, IfOk, IfErr, IfNone, IfSome, OnOk, OnErr};
ghost use Rattle.sip_model.specs.steps_model.Step.{moment_of};
ghost use Rattle.sip_run.specs.Due.{NothingDueBy, standing_of};
ghost use Rattle.sip_replay_script.specs.Devices.{later};
ghost use Rattle.sip_replay_script.specs.Lines.{pending, IsSpent};
ghost use Rattle.sip_replay_script.specs.Recorded.{GivesRecorded};
ghost use Rattle.sip_journal.specs.Record.{Notes};
ghost use Rattle.sip_resume.specs.Errors;
ghost use Rattle.sip_resume.specs.Outputs.{outputs_of};
ghost use Rattle.sip_resume.specs.Resumes.{EndsHere, FiringStops, JournalAt, ResumeStops, RunsShown, TakesNext, TakesOwn, TurnStops, UnreadStops};
ghost use Rattle.sip_resume.specs.declared.error.ResumeError.TheVariants as Refusal;

use crate::error::ResumeError;
use sip_event::{Event, StepOut};
use sip_journal::Journal;
use sip_policy::Rules;
use sip_replay_print::StepSink;
use sip_replay_script::{ReadStop, ScriptLines, TellingReader, next_recorded};
use sip_run::engine::Engine;
use sip_run::{event_moment, fire_next, take_event};
use sip_timers::Timers;
use std::alloc::Global;

/// Takes the next event of a record, if a whole one stands there, and gives its own step.
pub(crate) fn resume_next<T: Timers, R: Rules, I: TellingReader, J: Journal, S: StepSink>(
    alloc: Global,
    engine: &mut Engine<T, R>,
    lines: &mut ScriptLines,
    reader: &mut I,
    journal: &mut J,
    sink: &mut S,
) -> Result<Option<StepOut>, ResumeError>
    ensures server { engine.new.server ≡ engine.old.server }
    ensures taken { IfOk result (λ found. IfSome found (λ out. TakesNext engine.old.server (standing_of engine.old) (standing_of engine.new) lines.old
        lines.new (I.remaining reader.old) (I.remaining reader.new) (outputs_of (J.written journal.old) (S.shown sink.old))
        (outputs_of (J.written journal.new) (S.shown sink.new)) out)) }
    ensures over { IfOk result (λ found. IfNone found (IfSome (pending lines.old (I.remaining reader.old)) EndsHere)) }
    ensures waits { IfOk result (λ found. IfNone found ((engine.new ≡ engine.old) × (outputs_of (J.written journal.new) (S.shown sink.new)
        ≡ outputs_of (J.written journal.old) (S.shown sink.old)))) }
    ensures refused { IfErr result (ResumeStops engine.old.server (standing_of engine.old) (standing_of engine.new)
        (IsSpent (I.has_failed reader.new) lines.new.asks) (pending lines.old (I.remaining reader.old)) lines.old.number
        (outputs_of (J.written journal.old) (S.shown sink.old)) (outputs_of (J.written journal.new) (S.shown sink.new))) }
    ensures told { IfErr result (JournalAt (J.written journal.old) (J.written journal.new)) }
    ensures whole { ¬ (result ≡ Err Refusal.Journal) → J.faulted journal.new ≡ J.faulted journal.old }
    ensures said { result ≡ Err Refusal.Journal → J.faulted journal.new ≡ true }
    ensures gave_up { result ≡ Err Refusal.Write → S.gave_up sink.new }
    ensures asked { later lines.new.asks (I.asked reader.new) ≡ later lines.old.asks (I.asked reader.old) }
    ensures less { lines.new.asks ≤ lines.old.asks }
    ensures secrets { engine.new.secrets ≡ engine.old.secrets }
{
    let Some(event) = read_next(alloc, lines, reader)? else {
        return Ok(None);
    };
    let out = take_in_turn(engine, &event, sink)?;
    note(journal, &event)?;
    Ok(Some(out))
}

/// The next event of a record; none where it ends, or was cut in its last one. A fault of the reader is no end.
fn read_next<I: TellingReader>(
    alloc: Global,
    lines: &mut ScriptLines,
    reader: &mut I,
) -> Result<Option<Event>, ResumeError>
    ensures given { IfOk result
        (λ found. IfSome found (λ event. GivesRecorded lines.old lines.new (I.remaining reader.old) (I.remaining reader.new) event)) }
    ensures over { IfOk result (λ found. IfNone found (IfSome (pending lines.old (I.remaining reader.old)) EndsHere)) }
    ensures refused { IfErr result (UnreadStops (IsSpent (I.has_failed reader.new) lines.new.asks) (pending lines.old (I.remaining reader.old))
        lines.old.number) }
    ensures asked { later lines.new.asks (I.asked reader.new) ≡ later lines.old.asks (I.asked reader.old) }
    ensures less { lines.new.asks ≤ lines.old.asks }
{
    let first = lines.number() + 1;
    match next_recorded(alloc, lines, reader) {
        Ok(found) => Ok(found),
        Err(stop) => {
            end_at(stop, first)?;
            Ok(None)
        }
    }
}

/// Whether a record ends where no event is read that would begin with this line.
fn end_at(stop: ReadStop, first: u64) -> Result<(), ResumeError>
    ensures { result ≡ Errors.end_at stop first }
{
    match stop {
        ReadStop::NoMemory => Err(ResumeError::NoMemory),
        ReadStop::Damaged => Err(ResumeError::Damaged(first)),
        ReadStop::Cut => Ok(()),
        ReadStop::Read => Err(ResumeError::Read),
    }
}

/// Takes an event, behind all that is due by its moment, and shows these steps. Gives its own step.
fn take_in_turn<T: Timers, R: Rules, S: StepSink>(
    engine: &mut Engine<T, R>,
    event: &Event,
    sink: &mut S,
) -> Result<StepOut, ResumeError>
    ensures server { engine.new.server ≡ engine.old.server }
    ensures taken { IfOk result (TakesOwn engine.old.server (standing_of engine.old) (standing_of engine.new) event.now (S.shown sink.old) (S.shown sink.new)) }
    ensures stopped { IfErr result (TurnStops engine.old.server (standing_of engine.old) (standing_of engine.new) event.now (S.shown sink.old) (S.shown sink.new)) }
    ensures gave_up { result ≡ Err Refusal.Write → S.gave_up sink.new }
    ensures secrets { engine.new.secrets ≡ engine.old.secrets }
{
    let at = event_moment(event);
    fire_due(engine, at, sink)?;
    let out = take_event(engine, event)?;
    sink.show(&out)?;
    Ok(out)
}

/// Lets all happen that is due by a moment, and shows these steps.
fn fire_due<T: Timers, R: Rules, S: StepSink>(
    engine: &mut Engine<T, R>,
    at: u64,
    sink: &mut S,
) -> Result<(), ResumeError>
    ensures server { engine.new.server ≡ engine.old.server }
    ensures fired { OnOk result (RunsShown engine.old.server (standing_of engine.old) (standing_of engine.new) [] (Some at) (S.shown sink.old) (S.shown sink.new)) }
    ensures none_due { OnOk result (NothingDueBy (moment_of engine.new.state at) engine.new.state) }
    ensures stopped { IfErr result (FiringStops engine.old.server (standing_of engine.old) (standing_of engine.new) at (S.shown sink.old) (S.shown sink.new)) }
    ensures gave_up { result ≡ Err Refusal.Write → S.gave_up sink.new }
    ensures secrets { engine.new.secrets ≡ engine.old.secrets }
{
    while let Some(out) = fire_next(engine, at)? {
        sink.show(&out)?;
    }
    Ok(())
}

/// Tells an event to a journal.
fn note<J: Journal>(journal: &mut J, event: &Event) -> Result<(), ResumeError>
    ensures noted { OnOk result (Notes (J.written journal.old) (J.written journal.new) (event.now ∷ [])) }
    ensures refused { IfErr result (λ e. e ≡ Refusal.Journal) }
    ensures told { OnErr result (J.written journal.new ≡ None) }
    ensures whole { OnOk result (J.faulted journal.new ≡ J.faulted journal.old) }
    ensures said { OnErr result (J.faulted journal.new ≡ true) }
{
    match event {
        Event::Datagram {
            at,
            word,
            from,
            bytes,
        } => journal.heard(*at, *word, *from, bytes.as_slice())?,
        Event::Time { at } => journal.passed(*at)?,
        Event::Fault { at, ticket } => journal.failed(*at, *ticket)?,
    }
    Ok(())
}
