//! All reasons for which the program ends, with the exit status and the complaint of each.
ghost use Rattle.std.specs.Prelude.{◌≡◌};
ghost use Rattle.std.specs.IoError.{error_kind};
ghost use Rattle.sipd_exit.specs.Exits.{exit_of_config, exit_of_file, exit_of_kind, status_of};
ghost use Rattle.sipd_exit.specs.declared.exit.Exit.TheVariants.{Memory};

use crate::device_fault::DeviceFault;
use sip_config::ConfigError;
use sipd_reload::{FileFault, MOST_BYTES};
use std::alloc::{AllocError, AllocFailed};
use std::{fmt, io};

/// Why the program stops.
pub enum Exit {
    /// The command line is none that it knows; the text says how to call it.
    Usage(String),
    /// The configuration is refused with this number.
    Configuration(u8),
    /// The file of the configuration has more bytes than are read of one.
    LongConfiguration,
    /// The event that begins with this line of the script.
    Script(u64),
    /// A fault of the system.
    Device(DeviceFault),
    Memory,
    /// The process may have so many bytes of stack, and more are needed.
    Stack { bytes: u64, needed: u64 },
    /// What is asked can't be answered; the text says why.
    Question(String),
    /// A file that is to be a record has no first line of one.
    NoRecord,
    /// A record was made with another configuration.
    OtherConfiguration,
    /// A record doesn't hold its configuration.
    BareRecord,
    /// This line of a record's file has the digest of other bytes than stand before it.
    Changed(u64),
    /// Of the records of a folder one isn't there that another one follows, or isn't as it was then.
    Missing,
    /// A server that runs can't take a configuration in the place of another.
    OtherFrame,
    /// What is named as the record to go on from is a named pipe.
    PipedRecord,
    /// The file of a new record can't be made.
    NewRecord,
    /// No shorter record leads where a record does.
    NoShorter,
    /// A record couldn't be written, and the server was to end then.
    Recording,
    /// A policy isn't as it is expected to be.
    Unexpected,
    /// A policy decides otherwise than that of another configuration.
    OtherPolicy,
    /// A decision isn't as it is expected to be.
    OtherDecision,
}

/// Written out, so that it is proved once and not wherever one is dropped.
impl Drop for Exit {
    fn drop(self) {
        match self {
            Exit::Usage(_) | Exit::Question(_) => {}
            Exit::Configuration(_) => {}
            Exit::Script(_) | Exit::Changed(_) => {}
            Exit::Device(_) => {}
            Exit::Stack {
                bytes: _,
                needed: _,
            } => {}
            Exit::LongConfiguration
            | Exit::Memory
            | Exit::NoRecord
            | Exit::OtherConfiguration
            | Exit::BareRecord
            | Exit::Missing
            | Exit::OtherFrame
            | Exit::PipedRecord
            | Exit::NewRecord
            | Exit::NoShorter
            | Exit::Recording
            | Exit::Unexpected
            | Exit::OtherPolicy
            | Exit::OtherDecision => {}
        }
    }
}

impl Exit {
    /// The exit status.
    pub fn status(&self) -> u8
        ensures { result ≡ status_of self.now }
    {
        match self {
            Exit::Usage(_) | Exit::Question(_) | Exit::OtherPolicy => 1,
            Exit::Configuration(_) | Exit::LongConfiguration | Exit::Unexpected => 2,
            Exit::Script(_)
            | Exit::NoRecord
            | Exit::OtherConfiguration
            | Exit::BareRecord
            | Exit::Changed(_)
            | Exit::Missing
            | Exit::OtherFrame
            | Exit::NoShorter => 3,
            Exit::Device(_) | Exit::PipedRecord | Exit::NewRecord | Exit::Recording => 4,
            Exit::Memory | Exit::Stack { .. } => 5,
            Exit::OtherDecision => 6,
        }
    }

    /// What is complained about where no value is told with it; nothing of any other.
    fn words(&self) -> &'static str {
        match self {
            Exit::Memory => "sipd: memory",
            Exit::NoRecord => "sipd: no record",
            Exit::OtherConfiguration => "sipd: the record was made with another configuration",
            Exit::BareRecord => "sipd: the record doesn't hold its configuration",
            Exit::Missing => "sipd: a record is missing, or was changed",
            Exit::OtherFrame => "sipd: a server that runs can't take it",
            Exit::PipedRecord => {
                "sipd: the record to go on from is a pipe: what comes through one is --resume -"
            }
            Exit::NewRecord => {
                "sipd: the record can't be made: its file is there already, or its folder isn't, or may not be written, or has no hard links"
            }
            Exit::NoShorter => "sipd: no shorter record leads where it does",
            Exit::Recording => "sipd: the record can't be written",
            Exit::Unexpected => "sipd: the policy isn't as expected",
            Exit::OtherPolicy => "sipd: the policy changes",
            Exit::OtherDecision => "sipd: the decision isn't as expected",
            Exit::Usage(_)
            | Exit::Configuration(_)
            | Exit::LongConfiguration
            | Exit::Script(_)
            | Exit::Device(_)
            | Exit::Stack { .. }
            | Exit::Question(_)
            | Exit::Changed(_) => "",
        }
    }
}

/// What is complained about. Of a fault of the system with a name two lines: that, and `sipd: device`.
impl fmt::Display for Exit {
    fn fmt<W: fmt::Write>(&self, f: &mut fmt::Formatter<W>) -> fmt::Result {
        match self {
            Exit::Usage(text) => write!(f, "{}", text.trim_end()),
            Exit::Device(fault) => write!(f, "{fault}sipd: device"),
            Exit::Stack { bytes, needed } => write!(
                f,
                "sipd: the stack may have {bytes} bytes, and {needed} are needed: ulimit -s, or LimitSTACK of the unit\nsipd: memory"
            ),
            Exit::Question(text) => write!(f, "sipd: {text}"),
            Exit::Configuration(number) => write!(f, "sipd: configuration refused {number}"),
            Exit::LongConfiguration => write!(
                f,
                "sipd: configuration refused: it has more than {MOST_BYTES} bytes"
            ),
            Exit::Script(line) => write!(f, "sipd: script line {line}"),
            Exit::Changed(line) => write!(
                f,
                "sipd: the record was changed: its line {line} has the digest of other bytes"
            ),
            _ => f.write_str(self.words()),
        }
    }
}

impl From<AllocError> for Exit {
    ghost from_gives = { λ _ exit. exit ≡ Memory };

    fn from(_e: AllocError) -> Exit {
        Exit::Memory
    }
}

impl<T: Drop> From<AllocFailed<T>> for Exit {
    ghost from_gives = { λ _ exit. exit ≡ Memory };

    fn from(_e: AllocFailed<T>) -> Exit {
        Exit::Memory
    }
}

/// A fault of the system, or want of memory.
impl From<io::Error> for Exit {
    ghost from_gives = { λ e exit. exit ≡ exit_of_kind (error_kind e) };

    fn from(e: io::Error) -> Exit {
        match e.kind() {
            io::ErrorKind::OutOfMemory => Exit::Memory,
            kind => Exit::Device(DeviceFault::of_kind(kind)),
        }
    }
}

/// Why the bytes of a configuration's file aren't read, once it is open.
impl From<FileFault> for Exit {
    ghost from_gives = { λ fault exit. exit ≡ exit_of_file fault };

    fn from(fault: FileFault) -> Exit {
        match fault {
            FileFault::NoMemory => Exit::Memory,
            FileFault::Gone => Exit::Device(DeviceFault::NoFile),
            FileFault::TooLong => Exit::LongConfiguration,
            FileFault::Device => Exit::Device(DeviceFault::Other),
        }
    }
}

impl From<ConfigError> for Exit {
    ghost from_gives = { λ e exit. exit ≡ exit_of_config e };

    fn from(e: ConfigError) -> Exit {
        match e {
            ConfigError::NoMemory => Exit::Memory,
            _ => Exit::Configuration(e as u8),
        }
    }
}
