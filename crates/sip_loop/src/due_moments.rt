//! What is due by a reading of the clock: each moment at which something is, the first one first, is an event of its own. All that is
//! due then happens, and the moment is taken and told to the journal, before anything of it is given to the link.
ghost use Rattle.std.specs.Prelude.{◌≡◌, ◌≤◌, ℕ, List, Option, Some, max, [], IfOk, IfErr, IfSome, IfNone, OnOk, OnErr};
ghost use Rattle.sip_model.specs.TimerOrder.{Standing};
ghost use Rattle.sip_event.specs.declared.packet.Packet.{Packet};
ghost use Rattle.sip_model.specs.steps_model.Step.{moment_of};
ghost use Rattle.sip_run.specs.engine.StepError.{refusal_at};
ghost use Rattle.sip_run.specs.engine.engine_time.Next.{IsNext};
ghost use Rattle.sip_run.specs.Due.{NothingDueBy, standing_of};
ghost use Rattle.sip_loop.specs.Courses.{Breaks, Course, FiresOne, HappensAll, HappensSome, HappensTo, IsNoFurther, IsWhyDue, LeavesFewer, Others, TakesDue, told_with, waiting_at};
ghost use Rattle.sip_loop.specs.Serving.{kept};
ghost use Rattle.sip_loop.specs.declared.serve_error.ServeError.TheVariants as Refusal;

use crate::handing::{hand_out, wait_for};
use crate::serve_error::ServeError;
use sip_event::{Packet, StepOut};
use sip_journal::Journal;
use sip_model::histories::{moment_rises, steps_stand_at_their_moments};
use sip_model::runs::what_is_due_ends;
use sip_policy::Rules;
use sip_run::engine::Engine;
use sip_run::fire_next;
use sip_text::Items;
use sip_timers::Timers;
use sip_transport::Link;
use std::alloc::Global;

/// The first moment at which something is due by another; one that goes back counts as the last one.
fn due_by<T: Timers, R: Rules>(engine: &Engine<T, R>, at: u64) -> Option<u64>
    ensures due { IfSome result (IsNext engine.now.state.requests) }
    ensures in_time { IfSome result (λ due. due ≤ max at engine.now.state.moment) }
    ensures later { IfSome result (λ due. engine.now.state.moment ≤ due) }
    ensures none { IfNone result (NothingDueBy (moment_of engine.now.state at) engine.now.state) }
{
    let Some(due) = engine.next_due() else {
        return None;
    };
    if engine.moment().max(at) < due {
        return None;
    }
    Some(due)
}

/// The first of what is due happens, at a moment at which it is.
fn fire_first<T: Timers, R: Rules>(
    engine: &mut Engine<T, R>,
    due: u64,
) -> Result<StepOut, ServeError>
    requires { IsNext engine.old.state.requests due }
    ensures server { engine.new.server ≡ engine.old.server }
    ensures fired { IfOk result (λ out. FiresOne engine.old.server (standing_of engine.old) due out (standing_of engine.new)) }
    ensures at_first { IfOk result (λ out. out.at ≡ due) }
    ensures not_refused { OnOk result (refusal_at due ≡ Option.None) }
    ensures refused { IfErr result (λ e. IsWhyDue e due) }
    ensures unchanged { OnErr result (engine.new ≡ engine.old) }
{
    moment_rises();
    steps_stand_at_their_moments();
    what_is_due_ends();
    engine.is_reached();
    let out = engine.fire(due)?;
    Ok(out)
}

/// What is due first by a moment happens, if something is.
fn fire_one<T: Timers, R: Rules>(
    engine: &mut Engine<T, R>,
    at: u64,
) -> Result<Option<StepOut>, ServeError>
    ensures server { engine.new.server ≡ engine.old.server }
    ensures fired { IfOk result (λ fired. IfSome fired (λ out. FiresOne engine.old.server (standing_of engine.old) at out (standing_of engine.new))) }
    ensures none { IfOk result (λ fired. IfNone fired (NothingDueBy (moment_of engine.old.state at) engine.old.state)) }
    ensures waits { IfOk result (λ fired. IfNone fired (engine.new ≡ engine.old)) }
    ensures refused { IfErr result (λ e. IsWhyDue e at) }
    ensures unchanged { OnErr result (engine.new ≡ engine.old) }
{
    moment_rises();
    steps_stand_at_their_moments();
    what_is_due_ends();
    engine.is_reached();
    let fired = fire_next(engine, at)?;
    Ok(fired)
}

/// All that is due by the last moment happens, and what it hands out waits from then on.
fn fire_rest<T: Timers, R: Rules>(
    engine: &mut Engine<T, R>,
    at: u64,
    waiting: &mut Items<Packet>,
) -> Result<(), ServeError>
    requires moment { engine.old.state.moment ≡ at }
    requires not_refused { refusal_at at ≡ Option.None }
    ensures server { engine.new.server ≡ engine.old.server }
    ensures fired { OnOk result ((start : Standing) (first : List Packet) → HappensAll engine.old.server start (standing_of engine.old) at first waiting.old
        → HappensAll engine.old.server start (standing_of engine.new) at first waiting.new) }
    ensures none_due { OnOk result (NothingDueBy (moment_of engine.new.state at) engine.new.state) }
    ensures stays { OnOk result (engine.new.state.moment ≡ at) }
    ensures no_further { OnOk result (IsNoFurther engine.old.state engine.new.state) }
    ensures refused { IfErr result (λ e. e ≡ Refusal.NoMemory) }
    ensures some { OnErr result ((start : Standing) → HappensTo engine.old.server start (standing_of engine.old) at
        → HappensTo engine.old.server start (standing_of engine.new) at) }
{
    while let Some(mut out) = fire_one(engine, at)? {
        wait_for(waiting, &mut out.packets)?;
    }
    Ok(())
}

/// All that is due at a moment, which is the first at which something is, happens, and the moment is taken; what that hands out
/// waits from then on.
fn take_due<T: Timers, R: Rules>(
    engine: &mut Engine<T, R>,
    due: u64,
    waiting: &mut Items<Packet>,
) -> Result<(), ServeError>
    requires { IsNext engine.old.state.requests due }
    ensures server { engine.new.server ≡ engine.old.server }
    ensures taken { OnOk result (TakesDue engine.old.server (standing_of engine.old) (standing_of engine.new) due waiting.old waiting.new) }
    ensures none_due { OnOk result (NothingDueBy engine.new.state.moment engine.new.state) }
    ensures fewer { OnOk result (LeavesFewer due engine.old.state engine.new.state) }
    ensures refused { IfErr result (HappensSome engine.old.server (standing_of engine.old) (standing_of engine.new) due) }
{
    let mut first = fire_first(engine, due)?;
    wait_for(waiting, &mut first.packets)?;
    fire_rest(engine, due, waiting)?;
    // The engine stands at that moment then, and has nothing due: it has taken it, and a step of time alone would change nothing.
    Ok(())
}

/// All that is due at a moment, which is the first at which something is, happens; the moment is taken and told to the journal; and
/// then what that hands out is given to the link.
fn serve_due<T: Timers, R: Rules, L: Link, J: Journal>(
    alloc: Global,
    engine: &mut Engine<T, R>,
    link: &mut L,
    journal: &mut J,
    due: u64,
) -> Result<(), ServeError>
    requires { IsNext engine.old.state.requests due }
    ensures server { engine.new.server ≡ engine.old.server }
    ensures receives { L.receives link.new ≡ L.receives link.old }
    ensures failures { L.failures link.new ≡ L.failures link.old }
    ensures heard { L.heard link.new ≡ L.heard link.old }
    ensures link_waits { L.waits link.new ≡ L.waits link.old }
    ensures goes { OnOk result ((others : Others) (reading : ℕ) → due ≤ max reading engine.old.state.moment
        → Course engine.old.server (standing_of engine.old) (standing_of engine.new)
        (waiting_at (Some reading) [] engine.old.state.moment) (waiting_at (Some reading) [] engine.new.state.moment)
        (told_with others (L.given link.old) (kept (J.written journal.old) (J.faulted journal.old)))
        (told_with others (L.given link.new) (kept (J.written journal.new) (J.faulted journal.new))) [] 0 0) }
    ensures fewer { OnOk result (LeavesFewer due engine.old.state engine.new.state) }
    ensures broken { IfErr result (λ e. (others : Others) (reading : ℕ) → due ≤ max reading engine.old.state.moment
        → Breaks engine.old.server (standing_of engine.old) (standing_of engine.new) (waiting_at (Some reading) [] engine.old.state.moment)
        (told_with others (L.given link.old) (kept (J.written journal.old) (J.faulted journal.old)))
        (told_with others (L.given link.new) (kept (J.written journal.new) (J.faulted journal.new))) 0 e) }
    ensures not_link { IfErr result (λ e. ¬ (e ≡ Refusal.Link)) }
    ensures journal_failed { IfErr result (λ e. e ≡ Refusal.Journal → J.written journal.new ≡ Option.None) }
{
    let mut waiting = Items::new(alloc);
    take_due(engine, due, &mut waiting)?;
    journal.passed(due)?;
    hand_out(engine, link, journal, &mut waiting)
}

/// All that is due by a reading of the clock happens so, moment by moment.
pub(crate) fn pass_due<T: Timers, R: Rules, L: Link, J: Journal>(
    alloc: Global,
    engine: &mut Engine<T, R>,
    link: &mut L,
    journal: &mut J,
    at: u64,
) -> Result<(), ServeError>
    ensures server { engine.new.server ≡ engine.old.server }
    ensures receives { L.receives link.new ≡ L.receives link.old }
    ensures failures { L.failures link.new ≡ L.failures link.old }
    ensures heard { L.heard link.new ≡ L.heard link.old }
    ensures link_waits { L.waits link.new ≡ L.waits link.old }
    ensures goes { OnOk result ((others : Others) → Course engine.old.server (standing_of engine.old) (standing_of engine.new)
        (waiting_at (Some at) [] engine.old.state.moment) (waiting_at (Some at) [] engine.new.state.moment)
        (told_with others (L.given link.old) (kept (J.written journal.old) (J.faulted journal.old)))
        (told_with others (L.given link.new) (kept (J.written journal.new) (J.faulted journal.new))) [] 0 0) }
    ensures none_due { OnOk result (NothingDueBy (moment_of engine.new.state at) engine.new.state) }
    ensures broken { IfErr result (λ e. (others : Others) → Breaks engine.old.server (standing_of engine.old) (standing_of engine.new)
        (waiting_at (Some at) [] engine.old.state.moment)
        (told_with others (L.given link.old) (kept (J.written journal.old) (J.faulted journal.old)))
        (told_with others (L.given link.new) (kept (J.written journal.new) (J.faulted journal.new))) 0 e) }
    ensures not_link { IfErr result (λ e. ¬ (e ≡ Refusal.Link)) }
    ensures journal_failed { IfErr result (λ e. e ≡ Refusal.Journal → J.written journal.new ≡ Option.None) }
{
    while let Some(due) = due_by(engine, at) {
        serve_due(alloc, engine, link, journal, due)?;
    }
    Ok(())
}
