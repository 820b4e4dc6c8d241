ghost use Rattle.std.specs.Prelude.{◌≡◌};
ghost use Rattle.sip_header.specs.declared.error.HeaderError.TheVariants.{NoMemory};

use sip_message_form::fields::FieldName;
use std::alloc::{AllocError, AllocFailed};
use std::error::Error;
use std::fmt;

/// Why a field has no reading.
#[derive(Drop)]
pub enum HeaderError {
    /// 1: memory ran out.
    NoMemory,
    /// 2: the field isn't there.
    Missing(FieldName),
    /// 3: the field's value isn't in its grammar, or the field is repeated where it may stand once.
    Malformed(FieldName),
}

impl HeaderError {
    ghost use Rattle.sip_header.specs.Reading.{number_of};

    /// Its number, from 1 to 3.
    pub fn number(&self) -> u8
        ensures { result ≡ number_of self.now }
    {
        match self {
            HeaderError::NoMemory => 1,
            HeaderError::Missing(_) => 2,
            HeaderError::Malformed(_) => 3,
        }
    }
}

impl fmt::Display for HeaderError {
    ghost use Rattle.std.specs.Prelude.{Some};
    ghost use Rattle.sip_header.specs.HeaderError.{words_of};

    ghost output = { λ e. Some (words_of e) };

    fn fmt<W: fmt::Write>(&self, f: &mut fmt::Formatter<W>) -> fmt::Result {
        match self {
            HeaderError::NoMemory => write!(f, "out of memory"),
            HeaderError::Missing(_) => write!(f, "a field is missing"),
            HeaderError::Malformed(_) => write!(f, "a field is malformed"),
        }
    }
}

/// Its words alone, without what it carries.
impl fmt::Debug for HeaderError {
    fn fmt<W: fmt::Write>(&self, f: &mut fmt::Formatter<W>) -> fmt::Result {
        fmt::Display::fmt(self, f)
    }
}

impl Error for HeaderError {}

impl From<AllocError> for HeaderError {
    ghost from_gives = { λ _ e. e ≡ NoMemory };

    fn from(_e: AllocError) -> HeaderError {
        HeaderError::NoMemory
    }
}

impl<T: Drop> From<AllocFailed<T>> for HeaderError {
    ghost from_gives = { λ _ e. e ≡ NoMemory };

    fn from(_e: AllocFailed<T>) -> HeaderError {
        HeaderError::NoMemory
    }
}
