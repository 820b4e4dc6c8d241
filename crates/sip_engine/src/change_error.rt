ghost use Rattle.std.specs.Prelude.{◌≡◌};
ghost use Rattle.sip_engine.specs.declared.change_error.ChangeError.TheVariants.{NoMemory};

use sip_config_change::FrameKey;
use std::alloc::AllocError;
use std::error::Error;
use std::fmt;

/// Why another configuration wasn't taken; nothing changed.
#[derive(Clone, Copy, Debug, PartialEq, Eq)]
pub enum ChangeError {
    /// Memory ran out.
    NoMemory,
    /// By this key it would be another server to others, who know it by its Vias, its Record-Routes, and its realm; so what is open
    /// or stands would be lost.
    OtherFrame(FrameKey),
}

impl fmt::Display for ChangeError {
    fn fmt<W: fmt::Write>(&self, f: &mut fmt::Formatter<W>) -> fmt::Result {
        match self {
            ChangeError::NoMemory => write!(f, "out of memory"),
            ChangeError::OtherFrame(key) => write!(f, "{key} can't change while the server runs"),
        }
    }
}

impl Error for ChangeError {}

impl From<AllocError> for ChangeError {
    ghost from_gives = { λ _ e. e ≡ NoMemory };

    fn from(_e: AllocError) -> ChangeError {
        ChangeError::NoMemory
    }
}
