ghost use Rattle.std.specs.Prelude.{◌≡◌};
ghost use Rattle.sip_timers.specs.declared.error.TimerError.TheVariants.{NoMemory};

use std::alloc::{AllocError, AllocFailed};
use std::error::Error;
use std::fmt;

/// Why no timer is set.
#[derive(Clone, Copy, Debug)]
pub enum TimerError {
    /// Memory ran out.
    NoMemory = 1,
    /// It would be due 2^30 ms or more past the greatest moment that was given to `pop_due`.
    TooFar = 2,
}

impl fmt::Display for TimerError {
    ghost use Rattle.std.specs.Prelude.{Some};
    ghost use Rattle.sip_timers.specs.TimerError.{words_of};

    ghost output = { λ e. Some (words_of e) };

    fn fmt<W: fmt::Write>(&self, f: &mut fmt::Formatter<W>) -> fmt::Result {
        match self {
            TimerError::NoMemory => write!(f, "out of memory"),
            TimerError::TooFar => write!(f, "a timer due too far ahead"),
        }
    }
}

impl Error for TimerError {}

impl From<AllocError> for TimerError {
    ghost from_gives = { λ _ e. e ≡ NoMemory };

    fn from(_e: AllocError) -> TimerError {
        TimerError::NoMemory
    }
}

impl<T: Drop> From<AllocFailed<T>> for TimerError {
    ghost from_gives = { λ _ e. e ≡ NoMemory };

    fn from(_e: AllocFailed<T>) -> TimerError {
        TimerError::NoMemory
    }
}
