ghost use Rattle.std.specs.Prelude.{◌≡◌};
ghost use Rattle.sip_audit.specs.declared.error.AuditError.TheVariants.{NoMemory};

use std::alloc::{AllocError, AllocFailed};
use std::error::Error;
use std::fmt;

/// Why a line wasn't written or read.
#[derive(Clone, Copy, Debug)]
pub enum AuditError {
    /// Memory ran out.
    NoMemory = 1,
    /// The bytes are the line of no record.
    BadLine = 2,
}

impl fmt::Display for AuditError {
    ghost use Rattle.std.specs.Prelude.{Some};
    ghost use Rattle.sip_audit.specs.AuditError.{words_of};

    ghost output = { λ e. Some (words_of e) };

    fn fmt<W: fmt::Write>(&self, f: &mut fmt::Formatter<W>) -> fmt::Result {
        match self {
            AuditError::NoMemory => write!(f, "out of memory"),
            AuditError::BadLine => write!(f, "no audit line"),
        }
    }
}

impl Error for AuditError {}

impl From<AllocError> for AuditError {
    ghost from_gives = { λ _ e. e ≡ NoMemory };

    fn from(_e: AllocError) -> AuditError {
        AuditError::NoMemory
    }
}

impl<T: Drop> From<AllocFailed<T>> for AuditError {
    ghost from_gives = { λ _ e. e ≡ NoMemory };

    fn from(_e: AllocFailed<T>) -> AuditError {
        AuditError::NoMemory
    }
}
