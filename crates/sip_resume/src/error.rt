ghost use Rattle.std.specs.Prelude.{◌≡◌};
ghost use Rattle.sip_resume.specs.Errors.{error_of_print, error_of_step};
ghost use Rattle.sip_resume.specs.declared.error.ResumeError.TheVariants.{NoMemory, Journal};

use sip_journal::JournalFault;
use sip_replay_script::PrintStop;
use sip_run::engine::StepError;
use std::alloc::{AllocError, AllocFailed};

/// Why a server wasn't brought to where a record leads.
#[derive(Clone, Copy)]
pub enum ResumeError {
    /// Memory ran out.
    NoMemory,
    /// The lines that begin with this one, counted from 1 behind the first line of the record, say no event as a record does, and
    /// aren't the front of what says one.
    Damaged(u64),
    /// The reader failed, or was asked 4,294,967,295 times.
    Read,
    /// The server refuses an event's step: its moment is 2^62 ms or more, or a datagram's number would be.
    Step,
    /// The journal failed.
    Journal,
    /// What the steps are shown to gave up.
    Write,
}

impl From<AllocError> for ResumeError {
    ghost from_gives = { λ _ e. e ≡ NoMemory };

    fn from(_e: AllocError) -> ResumeError {
        ResumeError::NoMemory
    }
}

impl<T: Drop> From<AllocFailed<T>> for ResumeError {
    ghost from_gives = { λ _ e. e ≡ NoMemory };

    fn from(_e: AllocFailed<T>) -> ResumeError {
        ResumeError::NoMemory
    }
}

impl From<JournalFault> for ResumeError {
    ghost from_gives = { λ _ e. e ≡ Journal };

    fn from(_e: JournalFault) -> ResumeError {
        ResumeError::Journal
    }
}

impl From<StepError> for ResumeError {
    ghost from_gives = { λ refusal e. e ≡ error_of_step refusal };

    fn from(e: StepError) -> ResumeError {
        match e {
            StepError::NoMemory => ResumeError::NoMemory,
            StepError::MomentTooLarge | StepError::Worn => ResumeError::Step,
        }
    }
}

impl From<PrintStop> for ResumeError {
    ghost from_gives = { λ stop e. e ≡ error_of_print stop };

    fn from(stop: PrintStop) -> ResumeError {
        match stop {
            PrintStop::NoMemory => ResumeError::NoMemory,
            PrintStop::Write => ResumeError::Write,
        }
    }
}
