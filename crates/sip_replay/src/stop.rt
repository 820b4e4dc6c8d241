ghost use Rattle.std.specs.Prelude.{◌≡◌};
ghost use Rattle.sip_replay.specs.Errors.{stop_of_print, stop_of_step};

use sip_replay_script::PrintStop;
use sip_resume::engine::StepError;

/// Why an event that was read wasn't replayed.
#[derive(Clone, Copy)]
pub(crate) enum Stop {
    /// Memory ran out.
    NoMemory,
    /// Its step, or that of what is due before it, was refused.
    Script,
    /// The writer gave up.
    Write,
}

impl From<StepError> for Stop {
    ghost from_gives = { λ refusal e. e ≡ stop_of_step refusal };

    fn from(e: StepError) -> Stop {
        match e {
            StepError::NoMemory => Stop::NoMemory,
            StepError::MomentTooLarge | StepError::Worn => Stop::Script,
        }
    }
}

impl From<PrintStop> for Stop {
    ghost from_gives = { λ stop e. e ≡ stop_of_print stop };

    fn from(stop: PrintStop) -> Stop {
        match stop {
            PrintStop::NoMemory => Stop::NoMemory,
            PrintStop::Write => Stop::Write,
        }
    }
}
