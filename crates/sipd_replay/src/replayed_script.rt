ghost use Rattle.std.specs.Prelude.{◌≡◌};
ghost use Rattle.sipd_replay.specs.ReplayExits as Exits;

use sip_event::Boot;
use sip_policy::Rules;
use sip_replay::{ReplayError, replay};
use sip_timers::Timers;
use sipd_exit::{DeviceFault, Exit, config_of};
use std::io::{Read, Write};
use std::rt::Files;

/// What a script is replayed from.
const SCRIPT: Boot = Boot {
    word: 0,
    first: 1,
    keys: 0,
};

/// How the program ends where a replay is refused.
fn exit_of_replay(e: ReplayError) -> Exit
    ensures { result ≡ Exits.exit_of_replay e }
{
    match e {
        ReplayError::NoMemory => Exit::Memory,
        ReplayError::Script(line) => Exit::Script(line),
        ReplayError::Read | ReplayError::Write => Exit::Device(DeviceFault::Other),
    }
}

/// Replays the script of the input with the configuration of a file, or the sample, on these kinds of timers and rules.
pub fn replay_script<T: Timers, P: Rules, R: Files + AllocGlobal, I: Read, W: Write>(
    rt: &R,
    path: Option<&str>,
    input: &mut I,
    output: &mut W,
) -> Result<(), Exit> {
    let config = config_of(rt, path)?;
    match replay::<T, P, I, W>(rt.alloc(), config, SCRIPT, input, output) {
        Ok(()) => Ok(()),
        Err(e) => Err(exit_of_replay(e)),
    }
}
