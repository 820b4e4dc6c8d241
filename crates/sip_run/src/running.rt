//! The public call over a list of events, with all that is promised of a whole run. A script is read in `sip_replay`, a link in `sip_loop`.
ghost use Rattle.std.specs.Prelude.{◌≡◌, [], ◌∷◌, None, Some, IfErr, OnOk};
ghost use Rattle.sip_engine.specs.steps_model.Step.{moment_of};
ghost use Rattle.sip_run.specs.Due.{NothingDueBy, standing_of};
ghost use Rattle.sip_run.specs.Runs.{FiringHalts, Goes, Halts, IsRunOver, Stops, server_of};

use crate::due_step::fire_next;
use crate::outcome::Run;
use crate::taking::{event_moment, take_event};
use sip_config_types::Config;
use sip_engine::model::bounds::every_history_is_bounded;
use sip_engine::model::laws::every_run_has_access;
use sip_engine::model::runs::runs_join;
use sip_engine::{Engine, StepError};
use sip_event::{Boot, Event, StepOut};
use sip_policy::Rules;
use sip_text::Items;
use sip_timers::Timers;
use std::alloc::Global;

/// Opens a server and hands it events: what is due by an event's moment happens first, each at its own moment, then the event's
/// own step is taken. Stops at the first refusal, behind which nothing is done; a step that can't be listed counts as not taken,
/// and is refused with `NoMemory`. Each valid new request outside a dialog is sent to exactly the unexpired bindings or the
/// configured hop that the first matching rule gives its proven user; bindings change or are listed exactly as an allowed REGISTER
/// says; every policy denial is a 403 whose Warning names that rule; all else sent belongs to an open request or a known dialog
/// (`Access`, of the run's history). Nothing is sent more often than RFC 3261 lets it, of each request at most one final answer but
/// for several 2xx of an INVITE, and each request is closed in time (`IsBounded`).
pub fn run<T: Timers, R: Rules>(alloc: Global, config: Config, boot: Boot, events: &[Event]) -> Run
    ensures { IsRunOver (server_of config boot.word) boot.first events.now result.steps result.stopped }
{
    every_run_has_access();
    every_history_is_bounded();
    let mut steps = Items::new(alloc);
    let mut engine = match Engine::<T, R>::open(alloc, config, boot) {
        Ok(engine) => engine,
        Err(_) => {
            return Run {
                steps,
                stopped: Some(StepError::NoMemory),
            };
        }
    };
    match take_events(&mut engine, events, &mut steps) {
        Ok(()) => Run {
            steps,
            stopped: None,
        },
        Err(e) => Run {
            steps,
            stopped: Some(e),
        },
    }
}

/// Takes events, up to the first refusal.
fn take_events<T: Timers, R: Rules>(
    engine: &mut Engine<T, R>,
    events: &[Event],
    steps: &mut Items<StepOut>,
) -> Result<(), StepError>
    ensures taken { OnOk result (Goes engine.old.server (standing_of engine.old) (standing_of engine.new) events.now None steps.old steps.new) }
    ensures stopped { IfErr result (Stops engine.old.server (standing_of engine.old) events.now steps.old steps.new) }
{
    runs_join();
    for event in events {
        take_in_turn(engine, event, steps)?;
    }
    Ok(())
}

/// Takes an event, behind all that is due by its moment.
fn take_in_turn<T: Timers, R: Rules>(
    engine: &mut Engine<T, R>,
    event: &Event,
    steps: &mut Items<StepOut>,
) -> Result<(), StepError>
    ensures server { engine.new.server ≡ engine.old.server }
    ensures taken { OnOk result (Goes engine.old.server (standing_of engine.old) (standing_of engine.new) (event.now ∷ []) None steps.old steps.new) }
    ensures stopped { IfErr result (Halts engine.old.server (standing_of engine.old) event.now steps.old steps.new) }
{
    let at = event_moment(event);
    fire_due(engine, at, steps)?;
    let out = take_event(engine, event)?;
    steps.push(out)?;
    Ok(())
}

/// Lets all happen that is due by a moment.
fn fire_due<T: Timers, R: Rules>(
    engine: &mut Engine<T, R>,
    at: u64,
    steps: &mut Items<StepOut>,
) -> Result<(), StepError>
    ensures server { engine.new.server ≡ engine.old.server }
    ensures fired { OnOk result (Goes engine.old.server (standing_of engine.old) (standing_of engine.new) [] (Some at) steps.old steps.new) }
    ensures none_due { OnOk result (NothingDueBy (moment_of engine.new.state at) engine.new.state) }
    ensures stopped { IfErr result (FiringHalts engine.old.server (standing_of engine.old) at steps.old steps.new) }
{
    while let Some(out) = fire_next(engine, at)? {
        steps.push(out)?;
    }
    Ok(())
}
