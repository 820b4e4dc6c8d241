ghost use Rattle.std.specs.Prelude.{◌≡◌};
ghost use Rattle.sip_replay_script.specs.declared.read_stop.ReadStop.TheVariants.{NoMemory};

use std::alloc::{AllocError, AllocFailed};

/// Why no line and no event is read.
#[derive(Clone, Copy)]
pub enum ReadStop {
    /// Memory ran out.
    NoMemory,
    /// What is left begins with no event, and is no front of one's text, either.
    Damaged,
    /// The script was cut: what is left is a front of an event's text, and not the whole of it.
    Cut,
    /// The reader failed, or was asked as often as it may be.
    Read,
}

impl From<AllocError> for ReadStop {
    ghost from_gives = { λ _ e. e ≡ NoMemory };

    fn from(_e: AllocError) -> ReadStop {
        ReadStop::NoMemory
    }
}

impl<T: Drop> From<AllocFailed<T>> for ReadStop {
    ghost from_gives = { λ _ e. e ≡ NoMemory };

    fn from(_e: AllocFailed<T>) -> ReadStop {
        ReadStop::NoMemory
    }
}
