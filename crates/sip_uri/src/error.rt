ghost use Rattle.std.specs.Prelude.{◌≡◌};
ghost use Rattle.sip_uri.specs.declared.error.UriError.TheVariants.{NoMemory};

use std::alloc::{AllocError, AllocFailed};
use std::error::Error;
use std::fmt;

/// Why bytes are no SIP or SIPS URI.
#[derive(Clone, Copy, Debug)]
pub enum UriError {
    /// Memory ran out.
    NoMemory = 1,
    /// The URI has another scheme.
    Scheme = 2,
    /// The bytes aren't of the URI grammar.
    Syntax = 3,
}

impl fmt::Display for UriError {
    ghost use Rattle.std.specs.Prelude.{Some};
    ghost use Rattle.sip_uri.specs.UriError.{words_of};

    ghost output = { λ e. Some (words_of e) };

    fn fmt<W: fmt::Write>(&self, f: &mut fmt::Formatter<W>) -> fmt::Result {
        match self {
            UriError::NoMemory => write!(f, "out of memory"),
            UriError::Scheme => write!(f, "neither a sip nor a sips URI"),
            UriError::Syntax => write!(f, "no URI"),
        }
    }
}

impl Error for UriError {}

impl From<AllocError> for UriError {
    ghost from_gives = { λ _ e. e ≡ NoMemory };

    fn from(_e: AllocError) -> UriError {
        UriError::NoMemory
    }
}

impl<T: Drop> From<AllocFailed<T>> for UriError {
    ghost from_gives = { λ _ e. e ≡ NoMemory };

    fn from(_e: AllocFailed<T>) -> UriError {
        UriError::NoMemory
    }
}
