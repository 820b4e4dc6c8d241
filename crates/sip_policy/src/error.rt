ghost use Rattle.std.specs.Prelude.{◌≡◌};
ghost use Rattle.sip_policy.specs.declared.error.PolicyError.TheVariants.{NoMemory};

use std::alloc::{AllocError, AllocFailed};
use std::error::Error;
use std::fmt;

/// Why users or rules are refused.
#[derive(Clone, Copy, Debug)]
pub enum PolicyError {
    /// Memory ran out.
    NoMemory = 1,
    /// Two users have the same name.
    NameTwice = 2,
}

impl fmt::Display for PolicyError {
    ghost use Rattle.std.specs.Prelude.{Some};
    ghost use Rattle.sip_policy.specs.PolicyError.{words_of};

    ghost output = { λ e. Some (words_of e) };

    fn fmt<W: fmt::Write>(&self, f: &mut fmt::Formatter<W>) -> fmt::Result {
        match self {
            PolicyError::NoMemory => write!(f, "out of memory"),
            PolicyError::NameTwice => write!(f, "two users have the same name"),
        }
    }
}

impl Error for PolicyError {}

impl From<AllocError> for PolicyError {
    ghost from_gives = { λ _ e. e ≡ NoMemory };

    fn from(_e: AllocError) -> PolicyError {
        PolicyError::NoMemory
    }
}

impl<T: Drop> From<AllocFailed<T>> for PolicyError {
    ghost from_gives = { λ _ e. e ≡ NoMemory };

    fn from(_e: AllocFailed<T>) -> PolicyError {
        PolicyError::NoMemory
    }
}
