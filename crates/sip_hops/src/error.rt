ghost use Rattle.std.specs.Prelude.{◌≡◌};
ghost use Rattle.sip_hops.specs.declared.error.HopsError.TheVariants.{NoMemory};

use std::alloc::{AllocError, AllocFailed};
use std::error::Error;
use std::fmt;

/// Why no tables were made.
#[derive(Clone, Copy, Debug)]
pub enum HopsError {
    /// Memory ran out.
    NoMemory = 1,
}

impl fmt::Display for HopsError {
    ghost use Rattle.std.specs.Prelude.{Some};
    ghost use Rattle.sip_hops.specs.HopsError.{words_of};

    ghost output = { λ e. Some (words_of e) };

    fn fmt<W: fmt::Write>(&self, f: &mut fmt::Formatter<W>) -> fmt::Result {
        match self {
            HopsError::NoMemory => write!(f, "out of memory"),
        }
    }
}

impl Error for HopsError {}

impl From<AllocError> for HopsError {
    ghost from_gives = { λ _ e. e ≡ NoMemory };

    fn from(_e: AllocError) -> HopsError {
        HopsError::NoMemory
    }
}

impl<T: Drop> From<AllocFailed<T>> for HopsError {
    ghost from_gives = { λ _ e. e ≡ NoMemory };

    fn from(_e: AllocFailed<T>) -> HopsError {
        HopsError::NoMemory
    }
}
