ghost use Rattle.std.specs.Prelude.{◌≡◌};
ghost use Rattle.sip_segment_config.specs.Stops;

use sip_config::ConfigError;
use sip_config_change::FrameKey;
use sip_journal::ConfigurationStop;
use std::error::Error;
use std::fmt;

/// Why the next configuration of a record isn't taken. The lines are counted from 1, as `Lines` counts them.
#[derive(Clone, Copy, Debug, PartialEq, Eq)]
pub enum SegmentStop {
    /// Memory ran out.
    NoMemory,
    /// The lines that begin with this one say no configuration, also where their digest is that of other bytes, and aren't the front of
    /// what says one.
    Damaged(u64),
    /// The record was cut within the configuration that begins with this line.
    Cut(u64),
    /// The reader failed, or was asked as often as it may be.
    Read,
    /// The configuration that begins with this line has more bytes than it may have.
    TooLong(u64),
    /// What is said from this line on states no configuration.
    NoConfiguration(u64, ConfigError),
    /// By this key, the configuration that begins with this line is that of another server.
    OtherFrame(u64, FrameKey),
}

impl SegmentStop {
    /// The refusal where no configuration is read that would begin with this line.
    pub(crate) fn unread(stop: ConfigurationStop, line: u64) -> SegmentStop
        ensures { result ≡ Stops.unread stop line }
    {
        match stop {
            ConfigurationStop::NoMemory => SegmentStop::NoMemory,
            ConfigurationStop::Damaged => SegmentStop::Damaged(line),
            ConfigurationStop::Cut => SegmentStop::Cut(line),
            ConfigurationStop::Read => SegmentStop::Read,
            ConfigurationStop::TooLong => SegmentStop::TooLong(line),
        }
    }
}

impl fmt::Display for SegmentStop {
    fn fmt<W: fmt::Write>(&self, f: &mut fmt::Formatter<W>) -> fmt::Result {
        match self {
            SegmentStop::NoMemory => write!(f, "out of memory"),
            SegmentStop::Damaged(line) => write!(f, "line {line} begins no configuration"),
            SegmentStop::Cut(line) => write!(f, "the configuration at line {line} was cut"),
            SegmentStop::Read => write!(f, "the record could not be read"),
            SegmentStop::TooLong(line) => write!(f, "the configuration at line {line} is too long"),
            SegmentStop::NoConfiguration(line, e) => {
                write!(f, "the configuration at line {line} is refused: {e}")
            }
            SegmentStop::OtherFrame(line, key) => {
                write!(f, "the configuration at line {line} has another {key}")
            }
        }
    }
}

impl Error for SegmentStop {}
