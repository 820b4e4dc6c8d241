ghost use Rattle.std.specs.Prelude.{◌≡◌};
ghost use Rattle.sipd_reload.specs.declared.file_fault.FileFault.TheVariants.{NoMemory};
ghost use Rattle.sipd_reload.specs.File.{fault_of};

use std::alloc::AllocError;
use std::io::ErrorKind;

/// Why a file can't be looked at, or read.
#[derive(Clone, Copy, Debug, PartialEq, Eq)]
pub enum FileFault {
    /// There was no memory for its bytes.
    NoMemory = 1,
    /// There is no file of that name.
    Gone,
    /// It has more bytes than are read of a configuration: 16,777,216.
    TooLong,
    /// It may not be read, is no regular file, or the system failed.
    Device,
}

impl FileFault {
    /// Which fault an error of this kind is.
    pub fn of_kind(kind: ErrorKind) -> FileFault
        ensures { result ≡ fault_of kind }
    {
        match kind {
            ErrorKind::OutOfMemory => FileFault::NoMemory,
            ErrorKind::NotFound => FileFault::Gone,
            _ => FileFault::Device,
        }
    }
}

impl From<AllocError> for FileFault {
    ghost from_gives = { λ _ fault. fault ≡ NoMemory };

    fn from(_e: AllocError) -> FileFault {
        FileFault::NoMemory
    }
}
