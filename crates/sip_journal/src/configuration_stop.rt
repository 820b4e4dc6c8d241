ghost use Rattle.std.specs.Prelude.{◌≡◌};
ghost use Rattle.sip_journal.specs.declared.configuration_stop.ConfigurationStop.TheVariants.{NoMemory};

use std::alloc::AllocError;

/// Why no configuration of a record is read.
#[derive(Clone, Copy)]
pub enum ConfigurationStop {
    /// Memory ran out.
    NoMemory,
    /// What is left begins with no text that says a configuration, and is no front of one: a line stands there that gives no piece of
    /// it, or the line with the digest of other bytes.
    Damaged,
    /// The record was cut: what is left is the front of such a text, and not the whole of it.
    Cut,
    /// The reader failed, or was asked as often as it may be.
    Read,
    /// The configuration has more bytes than it may have.
    TooLong,
}

impl From<AllocError> for ConfigurationStop {
    ghost from_gives = { λ _ e. e ≡ NoMemory };

    fn from(_e: AllocError) -> ConfigurationStop {
        ConfigurationStop::NoMemory
    }
}
