ghost use Rattle.std.specs.Prelude.{◌≡◌};
ghost use Rattle.sipd_config_faults.specs.Mistakes as Definitions;

use sip_config::{may_have, unknown_key};
use sip_config_values::{ConfigKey, KeyPlace, TableKind};
use toml::{Table, Value};

/// The kinds of tables in lists, in the order in which they are looked at.
const KINDS: [TableKind; 4] = [
    TableKind::User,
    TableKind::Hop,
    TableKind::HostAddress,
    TableKind::Rule,
];

/// The list that the tables of a kind stand in.
pub(crate) fn list_of(kind: TableKind) -> ConfigKey
    ensures { result ≡ Definitions.list_of kind }
{
    match kind {
        TableKind::Whole => ConfigKey::Unknown,
        TableKind::User => ConfigKey::Users,
        TableKind::Hop => ConfigKey::Hops,
        TableKind::HostAddress => ConfigKey::HostAddresses,
        TableKind::Rule => ConfigKey::Rules,
    }
}

/// The items of the list of tables of a kind, none where it isn't a list.
fn items_of(whole: &Table, kind: TableKind) -> &[Value] {
    match whole.get(list_of(kind).name()) {
        Some(value) => match value.as_array() {
            Some(items) => items.as_slice(),
            None => &[],
        },
        None => &[],
    }
}

/// The table of a place.
fn table_of(whole: &Table, place: KeyPlace) -> Option<&Table> {
    match place.kind {
        TableKind::Whole => Some(whole),
        kind => items_of(whole, kind).get(place.before)?.as_table(),
    }
}

/// The version of a file, 2 where none is said, which has all keys.
pub(crate) fn version_of(whole: &Table) -> u32 {
    match whole.get("version") {
        Some(value) => match value.as_integer() {
            Some(1) => 1,
            _ => 2,
        },
        None => 2,
    }
}

/// The first key of the table of a place that its kind doesn't have.
pub(crate) fn unknown_at(whole: &Table, place: KeyPlace) -> Option<&str> {
    unknown_key(version_of(whole), place.kind, table_of(whole, place)?)
}

/// Whether a table of a kind has a key that the kind doesn't have.
fn has_strayed(version: u32, kind: TableKind, table: &Table, key: ConfigKey) -> bool {
    table.get(key.name()).is_some() && !may_have(version, kind, key.name())
}

fn strayed_into(whole: &Table, kind: TableKind, key: ConfigKey) -> Option<KeyPlace> {
    let version = version_of(whole);
    for (before, item) in items_of(whole, kind).iter().enumerate() {
        if let Some(table) = item.as_table() {
            if has_strayed(version, kind, table, key) {
                return Some(KeyPlace { kind, before, key });
            }
        }
    }
    None
}

/// The table of a list that a key stands in which is of those before all tables: what stands behind the header of a table
/// is a key of that table.
pub(crate) fn strayed(whole: &Table, key: ConfigKey) -> Option<KeyPlace> {
    for kind in &KINDS {
        if let Some(place) = strayed_into(whole, *kind, key) {
            return Some(place);
        }
    }
    None
}
