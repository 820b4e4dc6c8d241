ghost use Rattle.std.specs.Prelude.{◌≡◌};
ghost use Rattle.sipd_report.specs.declared.error.ReportError.TheVariants.{NoMemory};

use std::alloc::{AllocError, AllocFailed};
use std::error::Error;
use std::fmt;

/// Why a report wasn't written, or not to its end.
#[derive(Clone, Copy, Debug)]
pub enum ReportError {
    /// Memory ran out.
    NoMemory = 1,
    /// The reader failed, or was asked 4,294,967,295 times.
    Read = 2,
    /// The writer failed.
    Write = 3,
}

impl fmt::Display for ReportError {
    fn fmt<W: fmt::Write>(&self, f: &mut fmt::Formatter<W>) -> fmt::Result {
        match self {
            ReportError::NoMemory => write!(f, "out of memory"),
            ReportError::Read => write!(f, "the audit lines could not be read"),
            ReportError::Write => write!(f, "the report could not be written"),
        }
    }
}

impl Error for ReportError {}

impl From<AllocError> for ReportError {
    ghost from_gives = { λ _ e. e ≡ NoMemory };

    fn from(_e: AllocError) -> ReportError {
        ReportError::NoMemory
    }
}

impl<T: Drop> From<AllocFailed<T>> for ReportError {
    ghost from_gives = { λ _ e. e ≡ NoMemory };

    fn from(_e: AllocFailed<T>) -> ReportError {
        ReportError::NoMemory
    }
}
