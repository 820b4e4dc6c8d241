//! The line that tells why a configuration is refused: where the reading stops, what is wrong there, and what would do.
ghost use Rattle.std.specs.Prelude.{◌≡◌, IfOk};
ghost use Rattle.toml.specs.View.{table_view};
ghost use Rattle.sipd_config_faults.specs.Mistakes as Definitions;
ghost use Rattle.sipd_config_faults.specs.Mistakes.{IsCalled, IsReadingOf, IsReadingBy, IsToldAs, TellsRefusal, TellsToml};

use crate::headers::wrong_header;
use crate::line_number::{line_at, line_number};
use crate::misplaced_keys::{list_of, strayed, unknown_at, version_of};
use crate::wanted_values::{keys_of, most_of, wanted};
use sip_config::{may_have, read_table};
use sip_config_types::Config;
use sip_config_values::{ConfigError, ConfigKey, KeyPlace, Refusal, TableKind};
use sip_text::Bytes;
use std::alloc::{AllocError, Global};
use toml::Table;

/// What is read of the text of a configuration.
#[derive(Drop)]
pub enum Reading {
    /// The configuration that it states.
    Stated(Config),
    /// Why it is refused, and a line that tells that.
    Refused(ConfigError, Bytes),
}

/// A text that is TOML, with its keys.
#[derive(Clone, Copy)]
struct Source<'a> {
    text: &'a [u8],
    whole: &'a Table,
}

/// The first key of a table that its kind doesn't have, if it may be one that is missing there.
fn misspelt<'a>(whole: &'a Table, refusal: Refusal) -> Option<&'a str> {
    match refusal {
        Refusal::At(ConfigError::MissingKey, place) => unknown_at(whole, place),
        _ => None,
    }
}

/// What the key of a place is called in its table.
fn key_text<'a>(whole: &'a Table, place: KeyPlace) -> &'a str
    ensures { IsCalled place.key result.now }
{
    match place.key {
        ConfigKey::Unknown => unknown_at(whole, place).unwrap_or(""),
        key => key.name(),
    }
}

/// A line by its number, if it was found.
fn line_text(alloc: Global, number: Option<usize>) -> Result<Bytes, AllocError>
    ensures { IfOk result (λ text. text ≡ Definitions.line_text number) }
{
    let mut text = Bytes::new(alloc);
    if let Some(number) = number {
        text.extend(b"line ")?;
        text.push_decimal(number as u64)?;
        text.extend(b": ")?;
    }
    Ok(text)
}

/// A table of a list by its number.
fn table_name(alloc: Global, kind: TableKind, before: usize) -> Result<Bytes, AllocError>
    ensures { IfOk result (λ text. text ≡ Definitions.table_name kind before) }
{
    let mut text = Bytes::new(alloc);
    text.extend(b"[[")?;
    text.extend(list_of(kind).name().as_bytes())?;
    text.extend(b"]] number ")?;
    text.push_decimal((before as u64).saturating_add(1))?;
    Ok(text)
}

/// The table of a place, nothing where it is none of a list.
fn table_text(alloc: Global, place: KeyPlace) -> Result<Bytes, AllocError>
    ensures { IfOk result (λ text. text ≡ Definitions.table_text place.kind place.before) }
{
    match place.kind {
        TableKind::Whole => Ok(Bytes::new(alloc)),
        kind => {
            let mut text = table_name(alloc, kind, place.before)?;
            text.extend(b": ")?;
            Ok(text)
        }
    }
}

/// The word in front of a key with a bad value, or of one that isn't known.
fn bad_word(key: ConfigKey) -> &'static [u8]
    ensures { result.now ≡ Definitions.bad_word key }
{
    match key {
        ConfigKey::Unknown => b"not known: ",
        _ => b"bad value of ",
    }
}

/// The word in front of a key that is refused with an error.
fn word_of(error: ConfigError, key: ConfigKey) -> &'static [u8]
    ensures { result.now ≡ Definitions.word_of error key }
{
    match error {
        ConfigError::MissingKey => b"missing: ",
        ConfigError::TooMany => b"too many of ",
        ConfigError::BadValue => bad_word(key),
        _ => b"bad value of ",
    }
}

/// Why it is, where that is always the same.
fn reason_of(error: ConfigError) -> &'static [u8]
    ensures { result.now ≡ Definitions.reason_of error }
{
    match error {
        ConfigError::DuplicateRule => b"; one before has the same",
        ConfigError::UnknownHop => b"; no [[hop]] has this name",
        ConfigError::UnknownGroup => b"; no [[user]] is in this group",
        _ => b"",
    }
}

/// The word in front of the key of a refusal.
fn word(refusal: Refusal) -> &'static [u8]
    ensures { result.now ≡ Definitions.word refusal }
{
    match refusal {
        Refusal::NoMemory => b"",
        Refusal::At(error, place) => word_of(error, place.key),
        Refusal::Twice(_) => b"bad value of ",
    }
}

/// Why it is refused, where that is always the same.
fn reason(refusal: Refusal) -> &'static [u8]
    ensures { result.now ≡ Definitions.reason refusal }
{
    match refusal {
        Refusal::NoMemory => b"",
        Refusal::At(error, _) => reason_of(error),
        Refusal::Twice(_) => b"; one before has the same",
    }
}

/// What is wrong with a key.
fn told(alloc: Global, refusal: Refusal, key: &[u8]) -> Result<Bytes, AllocError>
    ensures { IfOk result (λ text. text ≡ Definitions.told refusal key.now) }
{
    let mut text = Bytes::copy(alloc, word(refusal))?;
    text.extend(key)?;
    text.extend(reason(refusal))?;
    Ok(text)
}

/// Adds the keys that a table may have.
fn put_known(text: &mut Bytes, whole: &Table, kind: TableKind) -> Result<(), AllocError> {
    let version = version_of(whole);
    text.extend(b"; known are")?;
    for key in keys_of(kind) {
        if may_have(version, kind, key.name()) {
            text.push(b' ')?;
            text.extend(key.name().as_bytes())?;
        }
    }
    Ok(())
}

/// Adds that a key which is to stand before all tables stands in one, if it does.
fn put_strayed(
    alloc: Global,
    text: &mut Bytes,
    source: Source<'_>,
    place: KeyPlace,
) -> Result<(), AllocError> {
    let TableKind::Whole = place.kind else {
        return Ok(());
    };
    let Some(stray) = strayed(source.whole, place.key) else {
        return Ok(());
    };
    let number = line_number(source.text, stray, place.key.name().as_bytes());
    text.extend(b"; it belongs above all tables, and stands in ")?;
    text.extend(line_text(alloc, number)?.as_slice())?;
    text.extend(table_name(alloc, stray.kind, stray.before)?.as_slice())
}

/// Adds what would do.
fn put_wanted(text: &mut Bytes, place: KeyPlace) -> Result<(), AllocError> {
    text.extend(b"; wanted: ")?;
    text.extend(wanted(place).as_bytes())
}

/// Adds the key that may be the missing one, or where the missing one stands, and what would do.
fn put_missing(
    alloc: Global,
    text: &mut Bytes,
    source: Source<'_>,
    place: KeyPlace,
) -> Result<(), AllocError> {
    if let Some(key) = unknown_at(source.whole, place) {
        text.extend(b"; not known: ")?;
        text.extend(key.as_bytes())?;
    }
    put_strayed(alloc, text, source, place)?;
    put_wanted(text, place)
}

/// Adds the header of a table, or of one of a list of tables.
fn put_header(text: &mut Bytes, key: &[u8], is_list: bool) -> Result<(), AllocError> {
    let (before, behind): (&[u8], &[u8]) = if is_list {
        (b"[[", b"]]")
    } else {
        (b"[", b"]")
    };
    text.extend(before)?;
    text.extend(key)?;
    text.extend(behind)
}

/// Adds which line is the header of one table where a list of tables is meant, if one is.
fn put_wrong_header(alloc: Global, text: &mut Bytes, source: &[u8]) -> Result<(), AllocError> {
    let Some(wrong) = wrong_header(source) else {
        return Ok(());
    };
    text.extend(b"; ")?;
    text.extend(line_text(alloc, Some(wrong.number))?.as_slice())?;
    text.extend(b"in place of ")?;
    put_header(text, wrong.key, wrong.is_list)?;
    text.extend(b" write ")?;
    put_header(text, wrong.wanted, true)
}

/// Adds what would do in place of what is refused with an error.
fn put_cure(
    alloc: Global,
    text: &mut Bytes,
    source: Source<'_>,
    error: ConfigError,
    place: KeyPlace,
) -> Result<(), AllocError> {
    match (error, place.key) {
        (ConfigError::MissingKey, _) => put_missing(alloc, text, source, place),
        (ConfigError::BadValue, ConfigKey::Unknown) => put_known(text, source.whole, place.kind),
        (ConfigError::BadValue, _) => put_wanted(text, place),
        (ConfigError::TooMany, key) => {
            text.extend(b"; wanted: at most ")?;
            text.push_decimal(most_of(key))
        }
        _ => Ok(()),
    }
}

/// What would do in place of what is refused, and the end of the line.
fn cure(
    alloc: Global,
    source: Source<'_>,
    refusal: Refusal,
    place: KeyPlace,
) -> Result<Bytes, AllocError> {
    let mut text = Bytes::new(alloc);
    if let Refusal::At(error, place) = refusal {
        put_cure(alloc, &mut text, source, error, place)?;
    }
    if let TableKind::Whole = place.kind {
        put_wrong_header(alloc, &mut text, source.text)?;
    }
    text.push(b'\n')?;
    Ok(text)
}

/// The number of the line of a place: that of its key, of one that is missing that of the key which may be it.
fn number_of(source: Source<'_>, refusal: Refusal, place: KeyPlace) -> Option<usize> {
    let key = match misspelt(source.whole, refusal) {
        Some(key) => key,
        None => key_text(source.whole, place),
    };
    line_number(source.text, place, key.as_bytes())
}

/// The line that tells a refusal at a place.
fn refusal_line(
    alloc: Global,
    source: Source<'_>,
    refusal: Refusal,
    place: KeyPlace,
) -> Result<Bytes, AllocError>
    ensures { IfOk result (TellsRefusal refusal place) }
{
    let key = key_text(source.whole, place);
    let mut text = line_text(alloc, number_of(source, refusal, place))?;
    let table = table_text(alloc, place)?;
    let told = told(alloc, refusal, key.as_bytes())?;
    let cure = cure(alloc, source, refusal, place)?;
    text.extend(table.as_slice())?;
    text.extend(told.as_slice())?;
    text.extend(cure.as_slice())?;
    Ok(text)
}

/// The place of a refusal; want of memory has none.
fn place_of(refusal: Refusal) -> Option<KeyPlace>
    ensures { result ≡ Definitions.place_of refusal }
{
    match refusal {
        Refusal::NoMemory => None,
        Refusal::At(_, place) => Some(place),
        Refusal::Twice(place) => Some(place),
    }
}

/// What is said of a text that is refused.
fn refused(alloc: Global, source: Source<'_>, refusal: Refusal) -> Result<Reading, AllocError>
    ensures { IfOk result (IsToldAs refusal) }
{
    let Some(place) = place_of(refusal) else {
        return Err(AllocError);
    };
    let line = refusal_line(alloc, source, refusal, place)?;
    Ok(Reading::Refused(refusal.error(), line))
}

/// What is read of a text that is TOML.
#[tactic(auto, using(crate::proofs::Told::told_so))]
fn read_source(alloc: Global, source: Source<'_>) -> Result<Reading, AllocError>
    ensures { IfOk result (IsReadingBy (table_view source.entry.whole.now)) }
{
    match read_table(alloc, source.whole) {
        Ok(config) => Ok(Reading::Stated(config)),
        Err(refusal) => refused(alloc, source, refusal),
    }
}

/// What is wrong with a text that isn't TOML, behind the line.
fn toml_fault(alloc: Global, source: &[u8], error: &toml::de::Error) -> Result<Bytes, AllocError> {
    let mut text = Bytes::copy(alloc, error.message().as_bytes())?;
    put_wrong_header(alloc, &mut text, source)?;
    text.push(b'\n')?;
    Ok(text)
}

/// What is wrong with a text that isn't TOML.
fn toml_line(alloc: Global, source: &[u8], error: &toml::de::Error) -> Result<Bytes, AllocError>
    ensures { IfOk result TellsToml }
{
    let Some(span) = error.span() else {
        return Err(AllocError);
    };
    let fault = toml_fault(alloc, source, error)?;
    let mut text = line_text(alloc, Some(line_at(source, span.start)))?;
    text.extend(b"not TOML: ")?;
    text.extend(fault.as_slice())?;
    Ok(text)
}

/// Reads a configuration, or tells why it is refused as a line: the line, the table and the key at which the reading stops,
/// what is wrong with it, and what would do. It is refused exactly where `read_config` refuses it, with that error.
/// `AllocError` is the only refusal of this call.
pub fn read_or_tell(alloc: Global, text: &str) -> Result<Reading, AllocError>
    ensures { IfOk result (IsReadingOf text.now) }
{
    match toml::table_from_str(alloc, text) {
        Ok(table) => read_source(
            alloc,
            Source {
                text: text.as_bytes(),
                whole: &table,
            },
        ),
        Err(e) => {
            if e.is_memory() {
                return Err(AllocError);
            }
            let line = toml_line(alloc, text.as_bytes(), &e)?;
            Ok(Reading::Refused(ConfigError::BadToml, line))
        }
    }
}
