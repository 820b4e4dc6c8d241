//! Time that passes for a server, and an event behind all that is due by its moment: each step is told.
ghost use Rattle.std.specs.Prelude.{◌≡◌, [], ◌∷◌, None, Some, IfErr, OnOk};
ghost use Rattle.sip_model.specs.steps_model.Step.{moment_of};
ghost use Rattle.sip_resume.specs.run.Due.{NothingDueBy, standing_of};
ghost use Rattle.sip_retell.specs.Retells.{RunsTold};
ghost use Rattle.sip_retell.specs.Stops.{PassingStops, TurnStops};
ghost use Rattle.sip_retell.specs.declared.error.RetellError.TheVariants as Refusal;

use crate::error::RetellError;
use sip_event::Event;
use sip_listener::Listener;
use sip_policy::Rules;
use sip_resume::engine::Engine;
use sip_resume::run::{event_moment, fire_next, take_event};
use sip_timers::Timers;

/// Lets all happen that is due by a moment in milliseconds, each in a step at its own moment, and tells these steps. So a server that was
/// brought up to a moment (`retell_record`) stands as it did then. Refusals: `NoMemory`; `Step`, where the moment is 2^62 ms or more, and
/// something is due; `Listener`, where the listener gave up. What has happened by then stays, and was told, but for the last perhaps.
pub fn pass_time<T: Timers, R: Rules, L: Listener>(
    engine: &mut Engine<T, R>,
    at: u64,
    listener: &mut L,
) -> Result<(), RetellError>
    ensures server { engine.new.server ≡ engine.old.server }
    ensures passed { OnOk result (RunsTold L.hears engine.old.server (standing_of engine.old) (standing_of engine.new) [] (Some at) listener.old listener.new) }
    ensures none_due { OnOk result (NothingDueBy (moment_of engine.new.state at) engine.new.state) }
    ensures stopped { IfErr result (PassingStops L.hears L.refuses engine.old.server (standing_of engine.old) (standing_of engine.new) at listener.old listener.new) }
    ensures gave_up { result ≡ Err Refusal.Listener → L.gave_up listener.new }
    ensures secrets { engine.new.secrets ≡ engine.old.secrets }
{
    while let Some(out) = fire_next(engine, at)? {
        listener.hear(engine.config(), None, out)?;
    }
    Ok(())
}

/// Takes an event, behind all that is due by its moment, and tells these steps.
pub(crate) fn tell_in_turn<T: Timers, R: Rules, L: Listener>(
    engine: &mut Engine<T, R>,
    event: Event,
    listener: &mut L,
) -> Result<(), RetellError>
    ensures server { engine.new.server ≡ engine.old.server }
    ensures told { OnOk result (RunsTold L.hears engine.old.server (standing_of engine.old) (standing_of engine.new) (event ∷ []) None listener.old listener.new) }
    ensures stopped { IfErr result (TurnStops L.hears L.refuses engine.old.server (standing_of engine.old) (standing_of engine.new) event listener.old listener.new) }
    ensures gave_up { result ≡ Err Refusal.Listener → L.gave_up listener.new }
    ensures secrets { engine.new.secrets ≡ engine.old.secrets }
{
    let at = event_moment(&event);
    pass_time(engine, at, listener)?;
    let out = take_event(engine, &event)?;
    listener.hear(engine.config(), Some(event), out)?;
    Ok(())
}
