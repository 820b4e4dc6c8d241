ghost use Rattle.std.specs.Prelude.{◌≡◌, IfOk, IfErr, IfSome, IfNone, OnErr};
ghost use Rattle.sip_engine.specs.steps_model.Step.{moment_of};
ghost use Rattle.sip_engine.specs.StepError.{refusal_at};
ghost use Rattle.sip_run.specs.Due.{Fires, IsDueBy, NothingDueBy, standing_of};
ghost use Rattle.sip_run.specs.Refusals.{RefusesStep};

use sip_engine::model::runs::what_is_due_ends;
use sip_engine::{Engine, StepError};
use sip_event::StepOut;
use sip_policy::Rules;
use sip_timers::Timers;

/// The first that is due by a moment in milliseconds happens, in a step at its own moment: a deadline passes, or something goes
/// again; of what is due at one moment, what the first timer that stands is for. None exactly where nothing is due by then, which takes no
/// memory and changes nothing. A moment that goes back counts as the last one. Refused where something is due: with
/// `MomentTooLarge` from 2^62, and with `NoMemory`; nothing is changed then. Each such step leaves fewer that can be taken by that
/// moment (`steps_left`), so that who calls again comes to None.
pub fn fire_next<T: Timers, R: Rules>(
    engine: &mut Engine<T, R>,
    at: u64,
) -> Result<Option<StepOut>, StepError>
    ensures server { engine.new.server ≡ engine.old.server }
    ensures fired { IfOk result (λ fired. IfSome fired (λ out. Fires engine.old.server (standing_of engine.old) at out (standing_of engine.new))) }
    ensures none { IfOk result (λ fired. IfNone fired (NothingDueBy (moment_of engine.old.state at) engine.old.state)) }
    ensures waits { IfOk result (λ fired. IfNone fired (engine.new ≡ engine.old)) }
    ensures due { OnErr result (IsDueBy (moment_of engine.old.state at) engine.old.state) }
    ensures refused { IfErr result (RefusesStep (refusal_at at)) }
    ensures unchanged { OnErr result (engine.new ≡ engine.old) }
    ensures secrets { engine.new.secrets ≡ engine.old.secrets }
{
    let Some(due) = engine.next_due() else {
        return Ok(None);
    };
    if engine.moment().max(at) < due {
        return Ok(None);
    }
    engine.is_reached();
    what_is_due_ends();
    let out = engine.fire(at)?;
    Ok(Some(out))
}
