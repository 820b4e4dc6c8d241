ghost use Rattle.std.specs.Prelude.{◌≡◌};
ghost use Rattle.sip_message.specs.declared.line_fault.LineFault.TheVariants.{NoMemory};

use sip_message_form::{ViewError, ViewRefusal};
use std::alloc::{AllocError, AllocFailed};

/// Why a line of a head is not taken: a small thing, since it stands in what each step returns.
#[derive(Clone, Copy)]
pub(crate) enum LineFault {
    NoMemory,
    BadField,
}

impl From<AllocError> for LineFault {
    ghost from_gives = { λ _ e. e ≡ NoMemory };

    fn from(_e: AllocError) -> LineFault {
        LineFault::NoMemory
    }
}

impl<T: Drop> From<AllocFailed<T>> for LineFault {
    ghost from_gives = { λ _ e. e ≡ NoMemory };

    fn from(_e: AllocFailed<T>) -> LineFault {
        LineFault::NoMemory
    }
}
