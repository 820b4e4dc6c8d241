//! The events of a record taken one after the other, up to its end, a cut, or a configuration that begins (`segments`).
ghost use Rattle.std.specs.Prelude.{◌≡◌, ◌≤◌, true, IfOk, IfErr};
ghost use Rattle.sip_replay_script.specs.Devices.{later};
ghost use Rattle.sip_replay_script.specs.Lines.{pending, IsSpent};
ghost use Rattle.sip_run.specs.Due.{standing_of};
ghost use Rattle.sip_resume.specs.Outputs.{outputs_of};
ghost use Rattle.sip_resume.specs.Parts.{EventsStop, GoesTo, NextStops, ReachesEnd};
ghost use Rattle.sip_resume.specs.declared.error.ResumeError.TheVariants as Refusal;

use crate::error::ResumeError;
use crate::parts::{Reached, ResumedPart};
use crate::resuming::resume_next;
use sip_journal::{Journal, Upcoming, look_ahead};
use sip_model::runs::runs_join;
use sip_policy::Rules;
use sip_replay_print::StepSink;
use sip_replay_script::{ScriptLines, TellingReader};
use sip_run::engine::Engine;
use sip_timers::Timers;
use std::alloc::Global;

/// Takes the next event of a record, if a whole one stands there.
fn take_next<T: Timers, R: Rules, I: TellingReader, J: Journal, S: StepSink>(
    alloc: Global,
    engine: &mut Engine<T, R>,
    lines: &mut ScriptLines,
    reader: &mut I,
    journal: &mut J,
    sink: &mut S,
) -> Result<ResumedPart, ResumeError>
    ensures server { engine.new.server ≡ engine.old.server }
    ensures next { IfOk result (GoesTo engine.old.server (standing_of engine.old) (standing_of engine.new) lines.old lines.new (I.remaining reader.old)
        (I.remaining reader.new) (outputs_of (J.written journal.old) (S.shown sink.old)) (outputs_of (J.written journal.new) (S.shown sink.new))) }
    ensures refused { IfErr result (NextStops engine.old.server (standing_of engine.old) (standing_of engine.new)
        (IsSpent (I.has_failed reader.new) lines.new.asks) (pending lines.old (I.remaining reader.old)) lines.old.number
        (outputs_of (J.written journal.old) (S.shown sink.old)) (outputs_of (J.written journal.new) (S.shown sink.new))) }
    ensures whole { ¬ (result ≡ Err Refusal.Journal) → J.faulted journal.new ≡ J.faulted journal.old }
    ensures said { result ≡ Err Refusal.Journal → J.faulted journal.new ≡ true }
    ensures gave_up { result ≡ Err Refusal.Write → S.gave_up sink.new }
    ensures asked { later lines.new.asks (I.asked reader.new) ≡ later lines.old.asks (I.asked reader.old) }
    ensures less { lines.new.asks ≤ lines.old.asks }
    ensures secrets { engine.new.secrets ≡ engine.old.secrets }
{
    match look_ahead(lines, reader) {
        Ok(Upcoming::Over) => Ok(ResumedPart::End),
        Ok(Upcoming::Configuration) => Ok(ResumedPart::Configuration),
        Ok(Upcoming::Event) => match resume_next(alloc, engine, lines, reader, journal, sink)? {
            Some(out) => Ok(ResumedPart::Taken(out)),
            None => Ok(ResumedPart::End),
        },
        Err(_) => Err(ResumeError::Read),
    }
}

/// Takes the events of a record up to its end, or to where no event begins.
pub(crate) fn take_events<T: Timers, R: Rules, I: TellingReader, J: Journal, S: StepSink>(
    alloc: Global,
    engine: &mut Engine<T, R>,
    lines: &mut ScriptLines,
    reader: &mut I,
    journal: &mut J,
    sink: &mut S,
) -> Result<Reached, ResumeError>
    ensures server { engine.new.server ≡ engine.old.server }
    ensures taken { IfOk result (λ reached. ReachesEnd engine.old.server (standing_of engine.old) (standing_of engine.new) lines.old lines.new
        (I.remaining reader.old) (I.remaining reader.new) (outputs_of (J.written journal.old) (S.shown sink.old)) (outputs_of (J.written journal.new) (S.shown sink.new)) reached.lines reached.last
        reached.is_over) }
    ensures refused { IfErr result (EventsStop engine.old.server (standing_of engine.old) (standing_of engine.new)
        (IsSpent (I.has_failed reader.new) lines.new.asks) (pending lines.old (I.remaining reader.old)) lines.old.number
        (outputs_of (J.written journal.old) (S.shown sink.old)) (outputs_of (J.written journal.new) (S.shown sink.new))) }
    ensures whole { ¬ (result ≡ Err Refusal.Journal) → J.faulted journal.new ≡ J.faulted journal.old }
    ensures said { result ≡ Err Refusal.Journal → J.faulted journal.new ≡ true }
    ensures gave_up { result ≡ Err Refusal.Write → S.gave_up sink.new }
    ensures asked { later lines.new.asks (I.asked reader.new) ≡ later lines.old.asks (I.asked reader.old) }
    ensures less { lines.new.asks ≤ lines.old.asks }
    ensures secrets { engine.new.secrets ≡ engine.old.secrets }
{
    runs_join();
    let mut taken = lines.number();
    let mut last = None;
    'events: loop {
        match take_next(alloc, engine, lines, reader, journal, sink)? {
            ResumedPart::Taken(out) => {
                taken = lines.number();
                last = Some(out);
            }
            ResumedPart::Configuration => {
                return Ok(Reached {
                    lines: taken,
                    last,
                    is_over: false,
                });
            }
            ResumedPart::End => {
                return Ok(Reached {
                    lines: taken,
                    last,
                    is_over: true,
                });
            }
        }
    }
}
