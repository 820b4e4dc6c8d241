ghost use Rattle.std.specs.Prelude.{◌≡◌, [], Some, IfErr, OnOk};
ghost use Rattle.sip_model.specs.steps_model.Step.{moment_of};
ghost use Rattle.sip_resume.specs.run.Due.{NothingDueBy, standing_of};
ghost use Rattle.sip_replay_script.specs.Devices.{GaveUp};
ghost use Rattle.sip_replay.specs.Refusals.{FiringStops};
ghost use Rattle.sip_replay.specs.Replays.{Plays};

use crate::stop::Stop;
use sip_policy::Rules;
use sip_replay_print::{PrintRoom, print_step};
use sip_replay_script::TellingWriter;
use sip_resume::engine::Engine;
use sip_resume::run::fire_next;
use sip_timers::Timers;
use std::alloc::Global;

/// Fires what is due by a moment, each in a step at its own moment, and prints these steps.
pub fn fire_due<T: Timers, R: Rules, W: TellingWriter>(
    alloc: Global,
    engine: &mut Engine<T, R>,
    at: u64,
    writer: &mut W,
    room: &mut PrintRoom,
) -> Result<(), Stop>
    ensures server { engine.new.server ≡ engine.old.server }
    ensures fired { OnOk result (Plays engine.old.server (standing_of engine.old) (standing_of engine.new) [] (Some at) (W.contents writer.old)
        (W.contents writer.new)) }
    ensures none_due { OnOk result (NothingDueBy (moment_of engine.new.state at) engine.new.state) }
    ensures stopped { IfErr result (FiringStops engine.old.server (standing_of engine.old) at (W.contents writer.old) (W.contents writer.new)
        (GaveUp (W.has_failed writer.new) (W.called writer.new))) }
{
    while let Some(out) = fire_next(engine, at)? {
        print_step(alloc, writer, room, &out)?;
    }
    Ok(())
}
