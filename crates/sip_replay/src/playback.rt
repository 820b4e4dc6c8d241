//! The replay of a script: its events are taken one by one, each behind what is due by its moment, and all steps are printed.
//! The replay of a record, in which the configuration may change, is in `record`.
ghost use Rattle.std.specs.Prelude.{◌≡◌, ◌≤◌, ◌⊎◌, ℕ, List, [], ◌∷◌, true, false, None, Err, IfOk, IfErr, OnOk};
ghost use Rattle.sip_model.specs.Run.{event_moment};
ghost use Rattle.sip_model.specs.steps_model.Step.{Given, IsStep, moment_of};
ghost use Rattle.sip_model.specs.TimerOrder.{IsQueueAfter, first_standing};
ghost use Rattle.sip_resume.specs.run.Due.{NothingDueBy, standing_of};
ghost use Rattle.sip_resume.specs.run.Refusals.{RefusesStep, refusal_of_event};
ghost use Rattle.sip_replay_script.specs.Devices.{later, GaveUp, IsAsked};
ghost use Rattle.sip_replay_script.specs.Lines.{pending, IsOver, IsSpent};
ghost use Rattle.sip_replay_script.specs.Script.{event_of};
ghost use Rattle.sip_replay.specs.Errors.{IsFaulted};
ghost use Rattle.sip_replay.specs.Refusals.{IsRefused, Refuses, TakingStops};
ghost use Rattle.sip_replay.specs.Replays.{server_with, IsLawfulReplay, IsReplay, Plays, PlaysNext};

use crate::due_steps::fire_due;
use crate::error::ReplayError;
use crate::stop::Stop;
use sip_config_types::Config;
use sip_event::{Boot, StepOut};
use sip_model::bounds::every_history_is_bounded;
use sip_model::laws::every_run_has_access;
use sip_model::runs::runs_join;
use sip_policy::Rules;
use sip_replay_print::{PrintRoom, print_step};
use sip_replay_script::laws::cut_event_is_none;
use sip_replay_script::{
    EventLine, Gathered, ScriptLines, TellingReader, TellingWriter, hand_on, next_line,
};
use sip_resume::engine::{Engine, StepError};
use sip_resume::run::{event_moment, take_datagram, take_event};
use sip_timers::Timers;
use std::alloc::Global;

/// Reads a script and writes what a server of a configuration hands out that starts with a word and a number: the packets of each
/// step, then the lines of its records.
/// Before each event, what is due by its moment is fired, each at its own moment; a moment below the greatest one
/// so far counts as that. Keeps no more than one event. Each valid new request outside a dialog is sent to exactly the
/// unexpired bindings or the configured hop that the first matching rule gives its proven user; bindings change or are
/// listed exactly as an allowed REGISTER says; every policy denial is a 403 whose Warning names that rule; all else sent
/// belongs to an open request or a known dialog (clause `lawful`). Refusals: `NoMemory`; `Script` with the number of the line
/// that began an event, where it isn't one, its step is refused, or more than 2^64 - 2 steps fire before it;
/// `Read`, where the reader fails or was asked 4,294,967,295 times; `Write`. What was written before a refusal
/// stays.
pub fn replay<T: Timers, R: Rules, I: TellingReader, W: TellingWriter>(
    alloc: Global,
    config: Config,
    boot: Boot,
    reader: &mut I,
    writer: &mut W,
) -> Result<(), ReplayError>
    ensures replayed { OnOk result (IsReplay config boot.word boot.first (I.remaining reader.old) (W.contents writer.old) (W.contents writer.new)) }
    ensures lawful { OnOk result (IsLawfulReplay config boot.word boot.first (I.remaining reader.old) (W.contents writer.old) (W.contents writer.new)) }
    ensures refused { IfErr result (IsRefused config boot.word boot.first (I.remaining reader.old) (W.contents writer.old) (W.contents writer.new)) }
    ensures faulted { IfErr result (IsFaulted (I.has_failed reader.new ⊎ (I.asked reader.new ≡ later 4294967295 (I.asked reader.old)))
        (GaveUp (W.has_failed writer.new) (W.called writer.new))) }
    ensures asked { IsAsked 4294967295 (I.asked reader.old) (I.asked reader.new) }
    ensures flushed { ¬ (result ≡ Err ReplayError.Write) → W.is_flushed writer.new }
{
    every_run_has_access();
    every_history_is_bounded();
    let outcome = play::<T, R, I, W>(alloc, config, boot, reader, writer);
    match hand_on(writer) {
        Ok(()) => outcome,
        Err(_) => Err(ReplayError::Write),
    }
}

#[tactic(auto, using(sip_replay_script::proofs::Calls::never_asked))]
fn play<T: Timers, R: Rules, I: TellingReader, W: TellingWriter>(
    alloc: Global,
    config: Config,
    boot: Boot,
    reader: &mut I,
    writer: &mut W,
) -> Result<(), ReplayError>
    ensures replayed { OnOk result (IsReplay config boot.word boot.first (I.remaining reader.old) (W.contents writer.old) (W.contents writer.new)) }
    ensures refused { IfErr result (Refuses (server_with config boot.word) (first_standing boot.first) 0 (I.remaining reader.old) (W.contents writer.old)
        (W.contents writer.new)) }
    ensures faulted { IfErr result (IsFaulted (I.has_failed reader.new ⊎ (I.asked reader.new ≡ later 4294967295 (I.asked reader.old)))
        (GaveUp (W.has_failed writer.new) (W.called writer.new))) }
    ensures asked { IsAsked 4294967295 (I.asked reader.old) (I.asked reader.new) }
{
    let mut engine = match Engine::<T, R>::open(alloc, config, boot) {
        Ok(engine) => engine,
        Err(_) => return Err(ReplayError::NoMemory),
    };
    let mut lines = match ScriptLines::new(alloc) {
        Ok(lines) => lines,
        Err(_) => return Err(ReplayError::NoMemory),
    };
    let mut bytes = Gathered::new(alloc);
    let mut room = PrintRoom::new();
    runs_join();
    while take_next(
        alloc,
        &mut engine,
        &mut lines,
        &mut bytes,
        &mut room,
        reader,
        writer,
    )? {}
    Ok(())
}

/// Takes the next event of the script, if there is one.
fn take_next<T: Timers, R: Rules, I: TellingReader, W: TellingWriter>(
    alloc: Global,
    engine: &mut Engine<T, R>,
    lines: &mut ScriptLines,
    bytes: &mut Gathered,
    room: &mut PrintRoom,
    reader: &mut I,
    writer: &mut W,
) -> Result<bool, ReplayError>
    ensures server { engine.new.server ≡ engine.old.server }
    ensures taken { IfOk result (λ more. more ≡ true → PlaysNext engine.old.server (standing_of engine.old) (standing_of engine.new) lines.old lines.new
        (I.remaining reader.old) (I.remaining reader.new) (W.contents writer.old) (W.contents writer.new)) }
    ensures over { IfOk result (λ more. more ≡ false → IsOver lines.old lines.new (I.remaining reader.old) (I.remaining reader.new)) }
    ensures silent { IfOk result (λ more. more ≡ false → W.contents writer.new ≡ W.contents writer.old) }
    ensures refused { IfErr result (Refuses engine.old.server (standing_of engine.old) lines.old.number (pending lines.old (I.remaining reader.old))
        (W.contents writer.old) (W.contents writer.new)) }
    ensures faulted { IfErr result (IsFaulted (IsSpent (I.has_failed reader.new) lines.new.asks)
        (GaveUp (W.has_failed writer.new) (W.called writer.new))) }
    ensures asked { later lines.new.asks (I.asked reader.new) ≡ later lines.old.asks (I.asked reader.old) }
    ensures less { lines.new.asks ≤ lines.old.asks }
{
    cut_event_is_none();
    let first = lines.number() + 1;
    let line = match next_line(alloc, lines, reader, bytes) {
        Ok(Some(line)) => line,
        Ok(None) => return Ok(false),
        Err(stop) => return Err(ReplayError::unread(stop, first)),
    };
    match take_line(alloc, engine, &line, bytes, room, writer) {
        Ok(()) => {}
        Err(stop) => return Err(ReplayError::at_line(stop, first)),
    }
    Ok(true)
}

/// Fires what is due, takes the event that a line begins, and prints all these steps. The bytes are those of a datagram.
fn take_line<T: Timers, R: Rules, W: TellingWriter>(
    alloc: Global,
    engine: &mut Engine<T, R>,
    line: &EventLine,
    bytes: &Gathered,
    room: &mut PrintRoom,
    writer: &mut W,
) -> Result<(), Stop>
    ensures server { engine.new.server ≡ engine.old.server }
    ensures taken { OnOk result (Plays engine.old.server (standing_of engine.old) (standing_of engine.new) (event_of line.now bytes.now ∷ []) None
        (W.contents writer.old) (W.contents writer.new)) }
    ensures stopped { IfErr result (TakingStops engine.old.server (standing_of engine.old) (event_of line.now bytes.now) (W.contents writer.old)
        (W.contents writer.new) (GaveUp (W.has_failed writer.new) (W.called writer.new))) }
{
    fire_due(alloc, engine, line_moment(line), writer, room)?;
    let out = own_step(engine, line, bytes)?;
    print_step(alloc, writer, room, &out)?;
    Ok(())
}

/// The moment of the event that a line begins.
fn line_moment(line: &EventLine) -> u64
    ensures { (bytes : List ℕ) → result ≡ event_moment (event_of line.now bytes) }
{
    match line {
        EventLine::Head(head) => head.at,
        EventLine::Whole(event) => event_moment(event),
    }
}

/// The event's own step.
#[inline(always)]
fn own_step<T: Timers, R: Rules>(
    engine: &mut Engine<T, R>,
    line: &EventLine,
    bytes: &Gathered,
) -> Result<StepOut, StepError>
    requires { NothingDueBy (moment_of engine.old.state (event_moment (event_of line.now bytes.now))) engine.old.state }
    ensures server { engine.new.server ≡ engine.old.server }
    ensures step { IfOk result (λ out. IsStep engine.old.server engine.old.state (Given (event_of line.now bytes.now)) out engine.new.state) }
    ensures queue { OnOk result (IsQueueAfter (standing_of engine.old) (standing_of engine.new)) }
    ensures refused { IfErr result (RefusesStep (refusal_of_event engine.old.state (event_of line.now bytes.now))) }
{
    match line {
        EventLine::Head(head) => {
            take_datagram(engine, head.at, head.word, head.from, bytes.as_slice())
        }
        EventLine::Whole(event) => take_event(engine, event),
    }
}
