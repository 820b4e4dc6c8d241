ghost use Rattle.std.specs.Prelude.{◌≡◌};
ghost use Rattle.sip_dialog.specs.declared.error.DialogError.TheVariants.{NoMemory};

use std::alloc::{AllocError, AllocFailed};
use std::error::Error;
use std::fmt;

/// Why a dialog is not learnt.
#[derive(Clone, Copy, Debug)]
pub enum DialogError {
    /// Memory ran out.
    NoMemory = 1,
    /// 4,096 dialogs are known, and this would be one more.
    Full = 2,
}

impl fmt::Display for DialogError {
    ghost use Rattle.std.specs.Prelude.{Some};
    ghost use Rattle.sip_dialog.specs.DialogError.{words_of};

    ghost output = { λ e. Some (words_of e) };

    fn fmt<W: fmt::Write>(&self, f: &mut fmt::Formatter<W>) -> fmt::Result {
        match self {
            DialogError::NoMemory => write!(f, "out of memory"),
            DialogError::Full => write!(f, "4,096 dialogs are known"),
        }
    }
}

impl Error for DialogError {}

impl From<AllocError> for DialogError {
    ghost from_gives = { λ _ e. e ≡ NoMemory };

    fn from(_e: AllocError) -> DialogError {
        DialogError::NoMemory
    }
}

impl<T: Drop> From<AllocFailed<T>> for DialogError {
    ghost from_gives = { λ _ e. e ≡ NoMemory };

    fn from(_e: AllocFailed<T>) -> DialogError {
        DialogError::NoMemory
    }
}
