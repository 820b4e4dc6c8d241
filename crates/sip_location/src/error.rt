ghost use Rattle.std.specs.Prelude.{◌≡◌};
ghost use Rattle.sip_location.specs.declared.error.LocationError.TheVariants.{NoMemory};

use std::alloc::{AllocError, AllocFailed};
use std::error::Error;
use std::fmt;

/// Why a registration is refused (RFC 3261 10.3). Nothing is bound, replaced or removed then.
#[derive(Clone, Copy, Debug, PartialEq, Eq)]
pub enum LocationError {
    /// Memory ran out.
    NoMemory = 1,
    /// A `*` stands beside another Contact, or Expires isn't 0.
    BadStar = 2,
    /// A contact asks for less than a minute.
    TooBrief = 3,
    /// A binding was made in the same Call-ID by a CSeq that isn't lower.
    OldCSeq = 4,
    /// The address of record would have more than 16 bindings.
    TooMany = 5,
}

impl LocationError {
    ghost use Rattle.sip_location.specs.LocationError.{words_of};

    /// What is wrong, in words.
    fn words(self) -> &'static str
        ensures { result.now ≡ words_of self }
    {
        match self {
            LocationError::NoMemory => "out of memory",
            LocationError::BadStar => "a `*` that doesn't stand alone with Expires 0",
            LocationError::TooBrief => "an interval below a minute",
            LocationError::OldCSeq => "a CSeq that isn't higher",
            LocationError::TooMany => "more than 16 bindings",
        }
    }
}

impl fmt::Display for LocationError {
    ghost use Rattle.std.specs.Prelude.{Some};
    ghost use Rattle.sip_location.specs.LocationError.{words_of};

    ghost output = { λ e. Some (words_of e) };

    fn fmt<W: fmt::Write>(&self, f: &mut fmt::Formatter<W>) -> fmt::Result {
        f.write_str(self.words())
    }
}

impl Error for LocationError {}

impl From<AllocError> for LocationError {
    ghost from_gives = { λ _ e. e ≡ NoMemory };

    fn from(_e: AllocError) -> LocationError {
        LocationError::NoMemory
    }
}

impl<T: Drop> From<AllocFailed<T>> for LocationError {
    ghost from_gives = { λ _ e. e ≡ NoMemory };

    fn from(_e: AllocFailed<T>) -> LocationError {
        LocationError::NoMemory
    }
}
