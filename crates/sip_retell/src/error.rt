ghost use Rattle.std.specs.Prelude.{◌≡◌};
ghost use Rattle.sip_retell.specs.Errors.{error_of_print, error_of_step};
ghost use Rattle.sip_retell.specs.declared.error.RetellError.TheVariants.{NoMemory};

use sip_config::ConfigError;
use sip_config_change::FrameKey;
use sip_replay_script::PrintStop;
use sip_resume::engine::StepError;
use std::alloc::{AllocError, AllocFailed};
use std::error::Error;
use std::fmt;

/// Why a record isn't told further. The lines are counted from 1, as `Lines` counts them.
#[derive(Clone, Copy, Debug)]
pub enum RetellError {
    /// Memory ran out, of the server or of the listener.
    NoMemory,
    /// The lines that begin with this one say no event and no configuration, and aren't the front of what says one.
    Damaged(u64),
    /// The reader failed, or was asked as often as it may be.
    Read,
    /// The server refuses an event's step: its moment is 2^62 ms or more, or a datagram's number would be.
    Step,
    /// The configuration that begins with this line has more bytes than it may have.
    TooLong(u64),
    /// What is said from this line on states no configuration.
    NoConfiguration(u64, ConfigError),
    /// By this key, the configuration that begins with this line is that of another server.
    OtherFrame(u64, FrameKey),
    /// The listener gave up.
    Listener,
}

impl fmt::Display for RetellError {
    fn fmt<W: fmt::Write>(&self, f: &mut fmt::Formatter<W>) -> fmt::Result {
        match self {
            RetellError::NoMemory => write!(f, "out of memory"),
            RetellError::Damaged(line) => {
                write!(f, "line {line} begins no event and no configuration")
            }
            RetellError::Read => write!(f, "the record could not be read"),
            RetellError::Step => write!(f, "moments or numbers are worn out"),
            RetellError::TooLong(line) => write!(f, "the configuration at line {line} is too long"),
            RetellError::NoConfiguration(line, e) => {
                write!(f, "the configuration at line {line} is refused: {e}")
            }
            RetellError::OtherFrame(line, key) => {
                write!(f, "the configuration at line {line} has another {key}")
            }
            RetellError::Listener => write!(f, "the steps could not be taken"),
        }
    }
}

impl Error for RetellError {}

impl From<AllocError> for RetellError {
    ghost from_gives = { λ _ e. e ≡ NoMemory };

    fn from(_e: AllocError) -> RetellError {
        RetellError::NoMemory
    }
}

impl<T: Drop> From<AllocFailed<T>> for RetellError {
    ghost from_gives = { λ _ e. e ≡ NoMemory };

    fn from(_e: AllocFailed<T>) -> RetellError {
        RetellError::NoMemory
    }
}

impl From<StepError> for RetellError {
    ghost from_gives = { λ refusal e. e ≡ error_of_step refusal };

    fn from(e: StepError) -> RetellError {
        match e {
            StepError::NoMemory => RetellError::NoMemory,
            StepError::MomentTooLarge | StepError::Worn => RetellError::Step,
        }
    }
}

impl From<PrintStop> for RetellError {
    ghost from_gives = { λ stop e. e ≡ error_of_print stop };

    fn from(stop: PrintStop) -> RetellError {
        match stop {
            PrintStop::NoMemory => RetellError::NoMemory,
            PrintStop::Write => RetellError::Listener,
        }
    }
}
