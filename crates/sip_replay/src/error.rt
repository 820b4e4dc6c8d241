ghost use Rattle.std.specs.Prelude.{◌≡◌};
ghost use Rattle.sip_replay.specs.Errors.{error_at, number_of_error, unread_error};

use crate::stop::Stop;
use sip_replay_script::ReadStop;
use std::error::Error;
use std::fmt;

/// Why a replay stopped.
#[derive(Clone, Copy, Debug, PartialEq, Eq)]
pub enum ReplayError {
    /// Memory ran out.
    NoMemory,
    /// The event that begins with this line, counted from 1, isn't one, or its step was refused.
    Script(u64),
    /// The reader failed, or was asked 4,294,967,295 times.
    Read,
    /// The writer failed.
    Write,
}

impl ReplayError {
    /// The refusal where no event is read that would begin with this line.
    pub(crate) fn unread(stop: ReadStop, line: u64) -> ReplayError
        ensures { result ≡ unread_error stop line }
    {
        match stop {
            ReadStop::NoMemory => ReplayError::NoMemory,
            ReadStop::Damaged | ReadStop::Cut => ReplayError::Script(line),
            ReadStop::Read => ReplayError::Read,
        }
    }

    /// The refusal of the event that begins with this line.
    pub(crate) fn at_line(stop: Stop, line: u64) -> ReplayError
        ensures { result ≡ error_at stop line }
    {
        match stop {
            Stop::NoMemory => ReplayError::NoMemory,
            Stop::Script => ReplayError::Script(line),
            Stop::Write => ReplayError::Write,
        }
    }

    /// The number of this refusal.
    pub fn number(&self) -> u8
        ensures { result ≡ number_of_error self.now }
    {
        match self {
            ReplayError::NoMemory => 1,
            ReplayError::Script(_) => 2,
            ReplayError::Read => 3,
            ReplayError::Write => 4,
        }
    }
}

impl fmt::Display for ReplayError {
    fn fmt<W: fmt::Write>(&self, f: &mut fmt::Formatter<W>) -> fmt::Result {
        match self {
            ReplayError::NoMemory => write!(f, "out of memory"),
            ReplayError::Script(line) => write!(f, "line {line} begins no event that can be taken"),
            ReplayError::Read => write!(f, "the script could not be read"),
            ReplayError::Write => write!(f, "the packets could not be written"),
        }
    }
}

impl Error for ReplayError {}
