ghost use Rattle.std.specs.Prelude.{◌≡◌};
ghost use Rattle.sip_text.specs.declared.error.TextError.TheVariants.{NoMemory};

use std::alloc::{AllocError, AllocFailed};
use std::error::Error;
use std::fmt;

/// Why a text could not be taken apart: `NoMemory` where memory ran out, `Unbalanced` where a quote
/// or a bracket is open or an item is empty, `BadEscape` where a `%` begins no escape.
#[derive(Clone, Copy, Debug)]
pub enum TextError {
    NoMemory = 1,
    Unbalanced = 2,
    BadEscape = 3,
}

impl fmt::Display for TextError {
    ghost use Rattle.std.specs.Prelude.{Some};
    ghost use Rattle.sip_text.specs.TextError.{words_of};

    ghost output = { λ e. Some (words_of e) };

    fn fmt<W: fmt::Write>(&self, f: &mut fmt::Formatter<W>) -> fmt::Result {
        match self {
            TextError::NoMemory => write!(f, "out of memory"),
            TextError::Unbalanced => write!(f, "a quote, a bracket or an item is missing"),
            TextError::BadEscape => write!(f, "a bad escape"),
        }
    }
}

impl Error for TextError {}

impl From<AllocError> for TextError {
    ghost from_gives = { λ _ e. e ≡ NoMemory };

    fn from(_e: AllocError) -> TextError {
        TextError::NoMemory
    }
}

impl<T: Drop> From<AllocFailed<T>> for TextError {
    ghost from_gives = { λ _ e. e ≡ NoMemory };

    fn from(_e: AllocFailed<T>) -> TextError {
        TextError::NoMemory
    }
}
