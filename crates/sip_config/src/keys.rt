//! Which keys the tables of a file may have in each version; any other key is refused. Their values are read elsewhere.
ghost use Rattle.std.specs.Prelude.{◌≡◌, option_map};
ghost use Rattle.std.specs.List.{list_any};
ghost use Rattle.std.specs.Str.{bytes_eq};
ghost use Rattle.toml.specs.View.{table_view, items_view};
ghost use Rattle.sip_config_values.specs.Refusals.{Tells};
ghost use Rattle.sip_config_values.specs.Rows.{all_pass};
ghost use Rattle.sip_config.specs.Keys as Definitions;

use sip_config_values::{
    ConfigError, ConfigKey, Refusal, TableKind, confirm, list_at, place_at, table_in,
};
use toml::{Table, Value};

/// The keys before all tables that both versions have.
const HEAD_KEYS: [&str; 6] = ["version", "realm", "host", "port", "address", "domains"];

/// The keys of the lists of tables.
const LIST_KEYS: [&str; 4] = ["user", "hop", "host_address", "rule"];

const USER_KEYS: [&str; 4] = ["name", "a1", "a1_sha256", "groups"];

const HOP_KEYS: [&str; 2] = ["name", "address"];

const HOST_ADDRESS_KEYS: [&str; 3] = ["host", "port", "address"];

/// The keys of a rule that both versions have.
const RULE_KEYS: [&str; 5] = ["id", "who", "op", "target", "verdict"];

/// The keys of a rule's window, which is of version 2.
const WINDOW_KEYS: [&str; 2] = ["from", "until"];

/// Whether a key is one of some words.
fn is_among(words: &[&str], key: &str) -> bool
    ensures { result ≡ list_any (λ word. bytes_eq key.now word.now) words.now }
{
    words.iter().any(|word| key == *word)
}

/// Whether a key is one of those before all tables; `offset` is of version 2.
fn is_head_key(version: u32, key: &str) -> bool
    ensures { result ≡ Definitions.is_head_key version key.now }
{
    is_among(&HEAD_KEYS, key) || (key == "offset" && version == 2)
}

/// Whether a key is of a rule; `from` and `until` are of version 2.
fn is_rule_key(version: u32, key: &str) -> bool
    ensures { result ≡ Definitions.is_rule_key version key.now }
{
    is_among(&RULE_KEYS, key) || (version == 2 && is_among(&WINDOW_KEYS, key))
}

/// Whether a table of a kind may have a key.
pub fn may_have(version: u32, kind: TableKind, key: &str) -> bool
    ensures { result ≡ Definitions.may_have version kind key.now }
{
    match kind {
        TableKind::Whole => is_head_key(version, key) || is_among(&LIST_KEYS, key),
        TableKind::User => is_among(&USER_KEYS, key),
        TableKind::Hop => is_among(&HOP_KEYS, key),
        TableKind::HostAddress => is_among(&HOST_ADDRESS_KEYS, key),
        TableKind::Rule => is_rule_key(version, key),
    }
}

/// The first key of a table that its kind doesn't have.
pub fn unknown_key(version: u32, kind: TableKind, table: &Table) -> Option<&str>
    ensures { option_map (λ key. key.now) result ≡ Definitions.unknown_key version kind (table_view table.now) }
{
    for (key, _value) in table.iter() {
        if !may_have(version, kind, key.as_str()) {
            return Some(key.as_str());
        }
    }
    None
}

/// Whether a table has no such key.
fn known(version: u32, kind: TableKind, before: usize, table: &Table) -> Result<(), Refusal>
    ensures { result ≡ Definitions.known version kind before (table_view table.now) }
{
    let unknown = unknown_key(version, kind, table).is_some();
    let refusal = Refusal::At(
        ConfigError::BadValue,
        place_at(kind, before, ConfigKey::Unknown),
    );
    confirm(!unknown, refusal)
}

/// Whether no table of a list has one.
#[tactic(auto, using(crate::proofs::Rows::pass_step, crate::proofs::Rows::pass_end))]
fn each_known(
    version: u32,
    kind: TableKind,
    list: ConfigKey,
    items: &[Value],
) -> Result<(), Refusal>
    ensures { Tells (λ done. done) result (all_pass list (Definitions.known version kind) 0 (items_view items.now)) }
{
    for (at, item) in items.iter().enumerate() {
        known(version, kind, at, table_in(list, item)?)?;
    }
    Ok(())
}

fn list_known(version: u32, kind: TableKind, list: ConfigKey, table: &Table) -> Result<(), Refusal>
    ensures { Tells (λ done. done) result (Definitions.list_known version kind list (table_view table.now)) }
{
    each_known(version, kind, list, list_at(list, table)?)
}

/// Whether a file has no unknown key.
pub(crate) fn all_known(version: u32, table: &Table) -> Result<(), Refusal>
    ensures { Tells (λ done. done) result (Definitions.all_known version (table_view table.now)) }
{
    known(version, TableKind::Whole, 0, table)?;
    list_known(version, TableKind::User, ConfigKey::Users, table)?;
    list_known(version, TableKind::Hop, ConfigKey::Hops, table)?;
    list_known(
        version,
        TableKind::HostAddress,
        ConfigKey::HostAddresses,
        table,
    )?;
    list_known(version, TableKind::Rule, ConfigKey::Rules, table)
}
