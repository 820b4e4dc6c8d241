//! The refusals of `serve`, each made of what was refused or failed: memory, the link, a step, the journal, the log.
ghost use Rattle.std.specs.Prelude.{◌≡◌};
ghost use Rattle.sip_loop.specs.ServeErrors.{number_of_refusal, refusal_of_audit, refusal_of_step};
ghost use Rattle.sip_loop.specs.declared.serve_error.ServeError.TheVariants.{NoMemory, Journal, Link};

use crate::audit_log::AuditFault;
use sip_journal::JournalFault;
use sip_run::engine::StepError;
use sip_transport::LinkFault;
use std::alloc::{AllocError, AllocFailed};
use std::error::Error;
use std::fmt;

/// Why serving ended before its last turn. What was sent stays sent.
#[derive(Clone, Copy, Debug, PartialEq, Eq)]
pub enum ServeError {
    /// Memory ran out.
    NoMemory = 1,
    /// The link failed as it was asked for a datagram.
    Link = 5,
    /// A moment was 2^62 ms or more, or a datagram's number would have been.
    Step = 6,
    /// The journal failed.
    Journal = 7,
    /// The lines of decisions couldn't be printed.
    Audit = 8,
}

impl ServeError {
    /// The number of this refusal.
    pub fn number(&self) -> u8
        ensures { result ≡ number_of_refusal self.now }
    {
        match self {
            ServeError::NoMemory => 1,
            ServeError::Link => 5,
            ServeError::Step => 6,
            ServeError::Journal => 7,
            ServeError::Audit => 8,
        }
    }
}

impl fmt::Display for ServeError {
    fn fmt<W: fmt::Write>(&self, f: &mut fmt::Formatter<W>) -> fmt::Result {
        match self {
            ServeError::NoMemory => write!(f, "out of memory"),
            ServeError::Link => write!(f, "the link failed"),
            ServeError::Step => write!(f, "moments or numbers are worn out"),
            ServeError::Journal => write!(f, "the journal failed"),
            ServeError::Audit => write!(f, "the lines of decisions could not be printed"),
        }
    }
}

impl Error for ServeError {}

impl From<AllocError> for ServeError {
    ghost from_gives = { λ _ e. e ≡ NoMemory };

    fn from(_e: AllocError) -> ServeError {
        ServeError::NoMemory
    }
}

impl<T: Drop> From<AllocFailed<T>> for ServeError {
    ghost from_gives = { λ _ e. e ≡ NoMemory };

    fn from(_e: AllocFailed<T>) -> ServeError {
        ServeError::NoMemory
    }
}

impl From<LinkFault> for ServeError {
    ghost from_gives = { λ _ e. e ≡ Link };

    fn from(_e: LinkFault) -> ServeError {
        ServeError::Link
    }
}

impl From<JournalFault> for ServeError {
    ghost from_gives = { λ _ e. e ≡ Journal };

    fn from(_e: JournalFault) -> ServeError {
        ServeError::Journal
    }
}

impl From<AuditFault> for ServeError {
    ghost from_gives = { λ fault e. e ≡ refusal_of_audit fault };

    fn from(e: AuditFault) -> ServeError {
        match e {
            AuditFault::NoMemory => ServeError::NoMemory,
            AuditFault::Device => ServeError::Audit,
        }
    }
}

impl From<StepError> for ServeError {
    ghost from_gives = { λ refusal e. e ≡ refusal_of_step refusal };

    fn from(e: StepError) -> ServeError {
        match e {
            StepError::NoMemory => ServeError::NoMemory,
            StepError::MomentTooLarge | StepError::Worn => ServeError::Step,
        }
    }
}
