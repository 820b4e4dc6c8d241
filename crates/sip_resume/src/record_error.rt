ghost use Rattle.std.specs.Prelude.{◌≡◌};
ghost use Rattle.sip_resume.specs.RecordErrors.{record_error_of};
ghost use Rattle.sip_resume.specs.declared.record_error.RecordError.TheVariants.{Journal};

use crate::error::ResumeError;
use sip_config::ConfigError;
use sip_config_change::FrameKey;
use sip_journal::JournalFault;
use std::error::Error;
use std::fmt;

/// Why a server wasn't brought to where a record with its configurations leads. The lines are counted from 1, as `Lines` counts them.
#[derive(Clone, Copy, Debug, PartialEq, Eq)]
pub enum RecordError {
    /// Memory ran out.
    NoMemory,
    /// The lines that begin with this one say no event and no configuration, and aren't the front of what says one.
    Damaged(u64),
    /// The reader failed, or was asked as often as it may be.
    Read,
    /// The server refuses an event's step: its moment is 2^62 ms or more, or a datagram's number would be.
    Step,
    /// The journal failed.
    Journal,
    /// The configuration that begins with this line has more bytes than it may have.
    TooLong(u64),
    /// What is said from this line on states no configuration.
    NoConfiguration(u64, ConfigError),
    /// By this key, the configuration that begins with this line is that of another server.
    OtherFrame(u64, FrameKey),
    /// What the steps are shown to gave up.
    Write,
}

impl fmt::Display for RecordError {
    fn fmt<W: fmt::Write>(&self, f: &mut fmt::Formatter<W>) -> fmt::Result {
        match self {
            RecordError::NoMemory => write!(f, "out of memory"),
            RecordError::Damaged(line) => {
                write!(f, "line {line} begins no event and no configuration")
            }
            RecordError::Read => write!(f, "the record could not be read"),
            RecordError::Step => write!(f, "moments or numbers are worn out"),
            RecordError::Journal => write!(f, "the journal failed"),
            RecordError::TooLong(line) => write!(f, "the configuration at line {line} is too long"),
            RecordError::NoConfiguration(line, e) => {
                write!(f, "the configuration at line {line} is refused: {e}")
            }
            RecordError::OtherFrame(line, key) => {
                write!(f, "the configuration at line {line} has another {key}")
            }
            RecordError::Write => write!(f, "the steps could not be written"),
        }
    }
}

impl Error for RecordError {}

impl From<ResumeError> for RecordError {
    ghost from_gives = { λ refusal e. e ≡ record_error_of refusal };

    fn from(e: ResumeError) -> RecordError {
        match e {
            ResumeError::NoMemory => RecordError::NoMemory,
            ResumeError::Damaged(line) => RecordError::Damaged(line),
            ResumeError::Read => RecordError::Read,
            ResumeError::Step => RecordError::Step,
            ResumeError::Journal => RecordError::Journal,
            ResumeError::Write => RecordError::Write,
        }
    }
}

impl From<JournalFault> for RecordError {
    ghost from_gives = { λ _ e. e ≡ Journal };

    fn from(_e: JournalFault) -> RecordError {
        RecordError::Journal
    }
}
