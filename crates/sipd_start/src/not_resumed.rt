//! Why a server doesn't go on from a record, and the words for it. It starts anew then, or nothing is begun.
ghost use Rattle.std.specs.Prelude.{◌≡◌};
ghost use Rattle.sipd_start.specs.Stops;
ghost use Rattle.sipd_start.specs.declared.not_resumed.StartStop.TheVariants.{Exits};

use crate::opening::InFile;
use sip_config::ConfigError;
use sip_config_change::FrameKey;
use sip_resume::RecordError;
use sip_segment_config::SegmentStop;
use sipd_exit::{DeviceFault, Exit};
use sipd_old_record::line_of_file;
use std::fmt;

/// Why a server doesn't go on from where a record leads. Its lines are counted from 1, the first one too.
#[derive(Clone, Copy)]
pub enum NotResumed {
    Unreadable,
    NoRecord,
    OtherConfiguration,
    Broken,
    Left,
    /// It was cut in the configuration with which it begins.
    CutConfiguration,
    /// What is left from this line of it on is damaged; its first line, where that has another digest than its first configuration.
    Damaged(u64),
    /// Its configuration that begins with this line has more bytes than are read of one.
    TooLong(u64),
    /// Its text that begins with this line states no configuration.
    NoConfiguration(u64, ConfigError),
    /// By this key, its configuration that begins with this line is that of another server than the file's.
    OtherFrame(u64, FrameKey),
    /// It says events that a server doesn't take.
    Unlawful,
}

impl NotResumed {
    /// Whether it can't be read.
    pub fn is_unreadable(self) -> bool
        ensures { result ≡ Stops.is_unreadable self }
    {
        matches!(self, NotResumed::Unreadable)
    }
}

impl NotResumed {
    /// The same by the lines of a file, where what is said is said by those of the text that it stands for.
    pub fn in_file(self, file: &InFile) -> NotResumed {
        match self {
            NotResumed::Damaged(line) => NotResumed::Damaged(file.line(line)),
            NotResumed::TooLong(line) => NotResumed::TooLong(file.line(line)),
            NotResumed::NoConfiguration(line, e) => {
                NotResumed::NoConfiguration(file.line(line), e)
            }
            NotResumed::OtherFrame(line, key) => NotResumed::OtherFrame(file.line(line), key),
            why => why,
        }
    }
}

impl fmt::Display for NotResumed {
    fn fmt<W: fmt::Write>(&self, f: &mut fmt::Formatter<W>) -> fmt::Result {
        let words = match self {
            NotResumed::Unreadable => "it can't be read",
            NotResumed::NoRecord => "it is no record",
            NotResumed::OtherConfiguration => "it was made with another configuration",
            NotResumed::Broken => "its writing failed: it lacks events",
            NotResumed::Left => "another start went on from it",
            NotResumed::CutConfiguration => "it was cut in its first configuration",
            NotResumed::Damaged(1) => "its line 1 has another digest than its first configuration",
            NotResumed::Damaged(line) => {
                return write!(f, "its line {line} begins no event and no configuration");
            }
            NotResumed::TooLong(line) => {
                return write!(f, "its configuration at line {line} is too long");
            }
            NotResumed::NoConfiguration(line, e) => {
                return write!(f, "its configuration at line {line} is refused: {e}");
            }
            NotResumed::OtherFrame(line, key) => {
                return write!(f, "its configuration at line {line} has another {key}");
            }
            NotResumed::Unlawful => "its events aren't those of a server",
        };
        f.write_str(words)
    }
}

/// Why a server doesn't go on from a record.
#[derive(Drop)]
pub enum StartStop {
    /// It can't be had from that record, and starts anew.
    NotResumed(NotResumed),
    /// Nothing is begun.
    Exits(Exit),
}

impl From<Exit> for StartStop {
    ghost from_gives = { λ exit stop. stop ≡ Exits exit };

    fn from(exit: Exit) -> StartStop {
        StartStop::Exits(exit)
    }
}

/// Why a file isn't read as a record.
pub fn unread(exit: Exit) -> StartStop
    ensures { result ≡ Stops.unread exit }
{
    match exit {
        Exit::NoRecord { .. } => StartStop::NotResumed(NotResumed::NoRecord),
        Exit::Device(..) => StartStop::NotResumed(NotResumed::Unreadable),
        exit => StartStop::Exits(exit),
    }
}

/// Why what stands behind the first line of a record isn't taken.
pub fn untaken(e: RecordError) -> StartStop
    ensures { result ≡ Stops.untaken e }
{
    let why = match e {
        RecordError::NoMemory => return StartStop::Exits(Exit::Memory),
        RecordError::Journal => return StartStop::Exits(Exit::Recording),
        RecordError::Write => return StartStop::Exits(Exit::Device(DeviceFault::Other)),
        RecordError::Read => NotResumed::Unreadable,
        RecordError::Step => NotResumed::Unlawful,
        RecordError::Damaged(line) => NotResumed::Damaged(line_of_file(line)),
        RecordError::TooLong(line) => NotResumed::TooLong(line_of_file(line)),
        RecordError::NoConfiguration(line, e) => {
            NotResumed::NoConfiguration(line_of_file(line), e)
        }
        RecordError::OtherFrame(line, key) => NotResumed::OtherFrame(line_of_file(line), key),
    };
    StartStop::NotResumed(why)
}

/// Why the configuration with which a record begins isn't read.
pub fn unheld(stop: SegmentStop) -> StartStop
    ensures { result ≡ Stops.unheld stop }
{
    let why = match stop {
        SegmentStop::NoMemory => return StartStop::Exits(Exit::Memory),
        SegmentStop::Damaged(line) => NotResumed::Damaged(line_of_file(line)),
        SegmentStop::Cut(_) => NotResumed::CutConfiguration,
        SegmentStop::Read => NotResumed::Unreadable,
        SegmentStop::TooLong(line) => NotResumed::TooLong(line_of_file(line)),
        SegmentStop::NoConfiguration(line, e) => {
            NotResumed::NoConfiguration(line_of_file(line), e)
        }
        SegmentStop::OtherFrame(line, key) => NotResumed::OtherFrame(line_of_file(line), key),
    };
    StartStop::NotResumed(why)
}
