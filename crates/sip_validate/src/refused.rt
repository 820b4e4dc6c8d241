ghost use Rattle.std.specs.Prelude.{◌≡◌, []};
ghost use Rattle.sip_validate.specs.declared.refused.Refused.TheVariants.{NoMemory, Status};

use sip_text::Bytes;
use std::alloc::{AllocError, AllocFailed, Global};
use std::error::Error;
use std::fmt;

/// Why a request isn't served.
#[derive(Drop)]
pub enum Refused {
    /// Memory ran out.
    NoMemory,
    /// It is answered with this status, and with this value of Unsupported, which isn't empty in a 420 alone.
    Status(u16, Bytes),
}

impl Refused {
    /// This status, without a value of Unsupported. Takes no memory.
    pub(crate) fn of(alloc: Global, status: u16) -> Self
        ensures { result ≡ Status status [] }
    {
        Refused::Status(status, Bytes::new(alloc))
    }
}

impl fmt::Display for Refused {
    ghost use Rattle.std.specs.Prelude.{Some};
    ghost use Rattle.sip_validate.specs.Refused.{words_of};

    ghost output = { λ e. Some (words_of e) };

    fn fmt<W: fmt::Write>(&self, f: &mut fmt::Formatter<W>) -> fmt::Result {
        match self {
            Refused::NoMemory => write!(f, "out of memory"),
            Refused::Status(status, _) => write!(f, "refused with {status}"),
        }
    }
}

/// Its words, as they are printed.
impl fmt::Debug for Refused {
    fn fmt<W: fmt::Write>(&self, f: &mut fmt::Formatter<W>) -> fmt::Result {
        fmt::Display::fmt(self, f)
    }
}

impl Error for Refused {}

impl From<AllocError> for Refused {
    ghost from_gives = { λ _ e. e ≡ NoMemory };

    fn from(_e: AllocError) -> Refused {
        Refused::NoMemory
    }
}

impl<T: Drop> From<AllocFailed<T>> for Refused {
    ghost from_gives = { λ _ e. e ≡ NoMemory };

    fn from(_e: AllocFailed<T>) -> Refused {
        Refused::NoMemory
    }
}
