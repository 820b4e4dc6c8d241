ghost use Rattle.std.specs.Prelude.{◌≡◌};
ghost use Rattle.sip_config_values.specs.declared.error.ConfigError.TheVariants.{NoMemory};

use std::alloc::{AllocError, AllocFailed};
use std::error::Error;
use std::fmt;

/// Why a configuration is refused.
#[derive(Clone, Copy, Debug, PartialEq, Eq)]
pub enum ConfigError {
    /// Memory ran out.
    NoMemory = 1,
    /// The text isn't TOML.
    BadToml = 2,
    /// A key that has to be there isn't.
    MissingKey = 3,
    /// A key holds what it may not hold, or isn't known.
    BadValue = 4,
    /// Two rules have the same `id`.
    DuplicateRule = 5,
    /// A rule's `via` names a hop that isn't configured.
    UnknownHop = 6,
    /// A rule names a group that no user is in.
    UnknownGroup = 7,
    /// A list is longer than it may be.
    TooMany = 8,
}

impl ConfigError {
    ghost use Rattle.sip_config_values.specs.ConfigError.{words_of};

    /// What is wrong, in words.
    fn words(self) -> &'static str
        ensures { result.now ≡ words_of self }
    {
        match self {
            ConfigError::NoMemory => "out of memory",
            ConfigError::BadToml => "not TOML",
            ConfigError::MissingKey => "a key is missing",
            ConfigError::BadValue => "a bad value or an unknown key",
            ConfigError::DuplicateRule => "two rules have the same id",
            ConfigError::UnknownHop => "a rule names an unknown hop",
            ConfigError::UnknownGroup => "a rule names an unknown group",
            ConfigError::TooMany => "a list is too long",
        }
    }
}

impl fmt::Display for ConfigError {
    ghost use Rattle.std.specs.Prelude.{Some};
    ghost use Rattle.sip_config_values.specs.ConfigError.{words_of};

    ghost output = { λ e. Some (words_of e) };

    fn fmt<W: fmt::Write>(&self, f: &mut fmt::Formatter<W>) -> fmt::Result {
        f.write_str(self.words())
    }
}

impl Error for ConfigError {}

impl From<AllocError> for ConfigError {
    ghost from_gives = { λ _ e. e ≡ NoMemory };

    fn from(_e: AllocError) -> ConfigError {
        ConfigError::NoMemory
    }
}

impl<T: Drop> From<AllocFailed<T>> for ConfigError {
    ghost from_gives = { λ _ e. e ≡ NoMemory };

    fn from(_e: AllocFailed<T>) -> ConfigError {
        ConfigError::NoMemory
    }
}
