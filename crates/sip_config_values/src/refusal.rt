//! Why and where a configuration is refused: an error, with the table and the key at which the reading stops.
ghost use Rattle.std.specs.Prelude.{◌≡◌};
ghost use Rattle.sip_config_values.specs.declared.refusal.Refusal.TheVariants.{NoMemory};
ghost use Rattle.sip_config_values.specs.Refusals as Definitions;

use crate::error::ConfigError;
use crate::key::ConfigKey;
use crate::table_kind::TableKind;
use std::alloc::{AllocError, AllocFailed};

/// A key of a table of a file.
#[derive(Clone, Copy)]
pub struct KeyPlace {
    pub kind: TableKind,
    /// How many tables of the kind stand before that table.
    pub before: usize,
    pub key: ConfigKey,
}

/// Why a configuration is refused, and where: at the first place in reading order.
#[derive(Clone, Copy)]
pub enum Refusal {
    /// Memory ran out.
    NoMemory,
    /// A key is refused with this error.
    At(ConfigError, KeyPlace),
    /// A key that only one table may have so has what that of one before has.
    Twice(KeyPlace),
}

impl Refusal {
    /// The error alone.
    pub fn error(self) -> ConfigError
        ensures { result ≡ Definitions.error_of self }
    {
        match self {
            Refusal::NoMemory => ConfigError::NoMemory,
            Refusal::At(error, _) => error,
            Refusal::Twice(_) => ConfigError::BadValue,
        }
    }
}

impl From<AllocError> for Refusal {
    ghost from_gives = { λ _ e. e ≡ NoMemory };

    fn from(_e: AllocError) -> Refusal {
        Refusal::NoMemory
    }
}

impl<T: Drop> From<AllocFailed<T>> for Refusal {
    ghost from_gives = { λ _ e. e ≡ NoMemory };

    fn from(_e: AllocFailed<T>) -> Refusal {
        Refusal::NoMemory
    }
}

/// A key of a table of a kind, before which so many of the kind stand.
pub fn place_at(kind: TableKind, before: usize, key: ConfigKey) -> KeyPlace
    ensures { result ≡ Definitions.place kind before key }
{
    KeyPlace { kind, before, key }
}

/// What is refused at a place; want of memory has none.
fn refused_at(place: KeyPlace, error: ConfigError) -> Refusal
    ensures { result ≡ Definitions.refused_at place error }
{
    match error {
        ConfigError::NoMemory => Refusal::NoMemory,
        error => Refusal::At(error, place),
    }
}

/// What a key is read as, refused at its place.
pub fn placed<T: Drop>(
    kind: TableKind,
    before: usize,
    key: ConfigKey,
    read: Result<T, ConfigError>,
) -> Result<T, Refusal>
    ensures { result ≡ Definitions.placed kind before key read }
{
    match read {
        Ok(value) => Ok(value),
        Err(error) => Err(refused_at(place_at(kind, before, key), error)),
    }
}

/// Refuses what a reading refuses, whatever it reads.
pub fn passed<T: Drop>(
    kind: TableKind,
    before: usize,
    key: ConfigKey,
    read: Result<T, ConfigError>,
) -> Result<(), Refusal>
    ensures { result ≡ Definitions.passed kind before key read }
{
    match read {
        Ok(_) => Ok(()),
        Err(error) => Err(refused_at(place_at(kind, before, key), error)),
    }
}

/// Refuses what doesn't hold.
pub fn confirm(holds: bool, refusal: Refusal) -> Result<(), Refusal>
    ensures { result ≡ Definitions.confirmed holds refusal }
{
    if holds { Ok(()) } else { Err(refusal) }
}

/// Refuses a key of the table that was found, if one was.
pub fn none_found(
    error: ConfigError,
    kind: TableKind,
    key: ConfigKey,
    found: Option<usize>,
) -> Result<(), Refusal>
    ensures { result ≡ Definitions.none_found error kind key found }
{
    match found {
        Some(before) => Err(Refusal::At(error, place_at(kind, before, key))),
        None => Ok(()),
    }
}
