use sip_replay::engine::StepError;
use sip_replay_script::{PrintStop, ReadStop};
use std::alloc::{AllocError, AllocFailed};
use std::io;

/// Why the program stops.
#[derive(Clone, Copy)]
pub enum Fault {
    /// A refused step changed something.
    Changed,
    Script,
    Device,
    /// Memory ran out, and not in a step's first try.
    Memory,
}

impl Fault {
    /// The exit status.
    pub fn status(&self) -> u8 {
        match self {
            Fault::Changed => 1,
            Fault::Script => 3,
            Fault::Device => 4,
            Fault::Memory => 5,
        }
    }
}

impl From<AllocError> for Fault {
    fn from(_e: AllocError) -> Fault {
        Fault::Memory
    }
}

impl<T: Drop> From<AllocFailed<T>> for Fault {
    fn from(_e: AllocFailed<T>) -> Fault {
        Fault::Memory
    }
}

impl From<io::Error> for Fault {
    fn from(e: io::Error) -> Fault {
        match e.kind() {
            io::ErrorKind::OutOfMemory => Fault::Memory,
            _ => Fault::Device,
        }
    }
}

impl From<PrintStop> for Fault {
    fn from(stop: PrintStop) -> Fault {
        match stop {
            PrintStop::NoMemory => Fault::Memory,
            PrintStop::Write => Fault::Device,
        }
    }
}

impl From<ReadStop> for Fault {
    fn from(stop: ReadStop) -> Fault {
        match stop {
            ReadStop::NoMemory => Fault::Memory,
            ReadStop::Damaged | ReadStop::Cut => Fault::Script,
            ReadStop::Read => Fault::Device,
        }
    }
}

impl From<StepError> for Fault {
    fn from(e: StepError) -> Fault {
        match e {
            StepError::NoMemory => Fault::Memory,
            StepError::MomentTooLarge | StepError::Worn => Fault::Script,
        }
    }
}
