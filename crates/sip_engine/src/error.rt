ghost use Rattle.std.specs.Prelude.{◌≡◌};
ghost use Rattle.sip_engine.specs.declared.error.StepError.TheVariants.{NoMemory};

use std::alloc::{AllocError, AllocFailed};
use std::error::Error;
use std::fmt;

/// Why a step was refused; nothing changed.
#[derive(Clone, Copy, Debug, PartialEq, Eq)]
pub enum StepError {
    /// Memory ran out.
    NoMemory = 1,
    /// The moment is 2^62 ms or more.
    MomentTooLarge = 2,
    /// The datagram's number would be 2^62 or more.
    Worn = 4,
}

impl fmt::Display for StepError {
    ghost use Rattle.std.specs.Prelude.{Some};
    ghost use Rattle.sip_engine.specs.StepError.{words_of};

    ghost output = { λ e. Some (words_of e) };

    fn fmt<W: fmt::Write>(&self, f: &mut fmt::Formatter<W>) -> fmt::Result {
        match self {
            StepError::NoMemory => write!(f, "out of memory"),
            StepError::MomentTooLarge => write!(f, "the moment is too large"),
            StepError::Worn => write!(f, "the numbers of datagrams are worn out"),
        }
    }
}

impl Error for StepError {}

impl From<AllocError> for StepError {
    ghost from_gives = { λ _ e. e ≡ NoMemory };

    fn from(_e: AllocError) -> StepError {
        StepError::NoMemory
    }
}

impl<T: Drop> From<AllocFailed<T>> for StepError {
    ghost from_gives = { λ _ e. e ≡ NoMemory };

    fn from(_e: AllocFailed<T>) -> StepError {
        StepError::NoMemory
    }
}
