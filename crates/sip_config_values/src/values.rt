//! The value of a key, read by its kind: text, number, list, digest, address, port. What a table is to have is said in `sip_config`.
ghost use Rattle.std.specs.Prelude.{◌≡◌, ◌≤◌, option_map, IfOk};
ghost use Rattle.toml.specs.Data.{get_member};
ghost use Rattle.toml.specs.View.{view, table_view, items_view};
ghost use Rattle.sip_config_values.specs.Refusals.{Tells};
ghost use Rattle.sip_config_values.specs.Values as Definitions;

use crate::error::ConfigError;
use crate::grammar::{Grammar, are_lower_hex};
use sip_uri::{Addr, addr_of};
use toml::{Table, Value};

/// What a key holds.
pub fn find<'a>(table: &'a Table, key: &str) -> Option<&'a Value>
    ensures { option_map (λ value. view value.now) result ≡ get_member key.now (table_view table.now) }
{
    table.get(key)
}

/// What a key holds that has to be there.
pub fn needed<'a>(table: &'a Table, key: &str) -> Result<&'a Value, ConfigError>
    ensures { Tells (λ value. view value.now) result (Definitions.needed key.now (table_view table.now)) }
{
    match find(table, key) {
        Some(value) => Ok(value),
        None => Err(ConfigError::MissingKey),
    }
}

/// The bytes of a text.
pub fn text_of(value: &Value) -> Result<&[u8], ConfigError>
    ensures { Tells (λ text. text.now) result (Definitions.text_of (view value.now)) }
{
    match value.as_str() {
        Some(text) => Ok(text.as_bytes()),
        None => Err(ConfigError::BadValue),
    }
}

/// A whole number.
pub fn number_of(value: &Value) -> Result<i64, ConfigError>
    ensures { result ≡ Definitions.number_of (view value.now) }
{
    match value.as_integer() {
        Some(number) => Ok(number),
        None => Err(ConfigError::BadValue),
    }
}

/// The items of a list.
pub fn list_of(value: &Value) -> Result<&[Value], ConfigError>
    ensures { Tells (λ items. items_view items.now) result (Definitions.list_of (view value.now)) }
{
    match value.as_array() {
        Some(array) => Ok(array.as_slice()),
        None => Err(ConfigError::BadValue),
    }
}

/// The table that an item of a list is.
pub(crate) fn table_of(value: &Value) -> Result<&Table, ConfigError>
    ensures { Tells (λ table. table_view table.now) result (Definitions.table_of (view value.now)) }
{
    match value.as_table() {
        Some(table) => Ok(table),
        None => Err(ConfigError::BadValue),
    }
}

/// A text of a grammar.
pub fn text_as(value: &Value, grammar: Grammar) -> Result<&[u8], ConfigError>
    ensures { Tells (λ text. text.now) result (Definitions.text_as grammar (view value.now)) }
{
    let text = text_of(value)?;
    if grammar.accepts(text) {
        Ok(text)
    } else {
        Err(ConfigError::BadValue)
    }
}

/// So many hexadecimal digits in lower case.
pub fn digest_of<const N: usize>(value: &Value) -> Result<[u8; N], ConfigError>
    ensures { result ≡ Definitions.digest_of N (view value.now) }
{
    let text = text_of(value)?;
    if !are_lower_hex(text) {
        return Err(ConfigError::BadValue);
    }
    match <[u8; N]>::try_from(text) {
        Ok(digest) => Ok(digest),
        Err(_) => Err(ConfigError::BadValue),
    }
}

/// An address with its port.
pub fn address_of(value: &Value) -> Result<Addr, ConfigError>
    ensures { result ≡ Definitions.address_of (view value.now) }
{
    match addr_of(text_of(value)?) {
        Some(address) => Ok(address),
        None => Err(ConfigError::BadValue),
    }
}

/// A number from `low` to `most`, which is below 2^32.
fn between(low: u32, most: u32, number: i64) -> Result<u32, ConfigError>
    ensures value { result ≡ Definitions.between low most number }
    ensures within { IfOk result (λ n. n ≤ most) }
{
    match u32::try_from(number) {
        Ok(n) if low <= n && n <= most => Ok(n),
        _ => Err(ConfigError::BadValue),
    }
}

/// A whole number from `low` to `most`.
pub fn number_between(value: &Value, low: u32, most: u32) -> Result<u32, ConfigError>
    ensures value { result ≡ Definitions.number_between low most (view value.now) }
    ensures within { IfOk result (λ n. n ≤ most) }
{
    between(low, most, number_of(value)?)
}

/// A port, 1 to 65535.
pub fn port_of(value: &Value) -> Result<u16, ConfigError>
    ensures { result ≡ Definitions.port_of (view value.now) }
{
    let port = number_between(value, 1, 65_535)?;
    Ok(port as u16)
}

/// The text of a grammar that a key holds, which has to be there.
pub fn text_at<'a>(table: &'a Table, key: &str, grammar: Grammar) -> Result<&'a [u8], ConfigError>
    ensures { Tells (λ text. text.now) result (Definitions.text_at key.now grammar (table_view table.now)) }
{
    text_as(needed(table, key)?, grammar)
}

/// The items of the list that a key holds, none where it isn't there.
pub(crate) fn items_at<'a>(table: &'a Table, key: &str) -> Result<&'a [Value], ConfigError>
    ensures { Tells (λ items. items_view items.now) result (Definitions.items_at key.now (table_view table.now)) }
{
    match find(table, key) {
        Some(value) => list_of(value),
        None => Ok(&[]),
    }
}

/// The items of the list that a key holds, which has to be there and to have one item or more.
#[tactic(auto, using(crate::proofs::ValueRows::has_some))]
pub fn some_items_at<'a>(table: &'a Table, key: &str) -> Result<&'a [Value], ConfigError>
    ensures { Tells (λ items. items_view items.now) result (Definitions.some_items_at key.now (table_view table.now)) }
{
    let items = list_of(needed(table, key)?)?;
    if items.is_empty() {
        return Err(ConfigError::BadValue);
    }
    Ok(items)
}
