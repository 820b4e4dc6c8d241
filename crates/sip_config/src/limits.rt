ghost use Rattle.std.specs.Prelude.{◌≡◌, codes};
ghost use Rattle.toml.specs.Data.{get_member, as_table};
ghost use Rattle.toml.specs.View.{view, table_view, items_view};
ghost use Rattle.sip_config_values.specs.Refusals.{Tells};
ghost use Rattle.sip_config.specs.Limits as Definitions;

use sip_config_values::{
    ConfigError, ConfigKey, Refusal, TableKind, confirm, find, none_found, place_at,
};
use toml::{Table, Value};

/// Whether what a key holds is a list of more items.
#[tactic(auto, using(crate::proofs::Rows::count_is))]
fn is_over_at(table: &Table, key: &str, most: usize) -> bool
    ensures { result ≡ Definitions.is_over_at key.now most (table_view table.now) }
{
    match find(table, key) {
        Some(value) => match value.as_array() {
            Some(items) => items.len() > most,
            None => false,
        },
        None => false,
    }
}

/// Whether a user is in more than 16 groups.
fn has_many_groups(user: &Value) -> bool
    ensures { result ≡ Definitions.has_many_groups (as_table (view user.now)) }
{
    match user.as_table() {
        Some(table) => is_over_at(table, "groups", 16),
        None => false,
    }
}

/// How many users stand before the first who is in more than 16 groups.
#[tactic(auto, using(crate::proofs::Rows::groups_step, crate::proofs::Rows::groups_end))]
fn many_groups_of(users: &[Value]) -> Option<usize>
    ensures { result ≡ Definitions.many_groups_after 0 (items_view users.now) }
{
    for (at, user) in users.iter().enumerate() {
        if has_many_groups(user) {
            return Some(at);
        }
    }
    None
}

fn many_groups_in(table: &Table) -> Option<usize>
    ensures { result ≡ Definitions.many_groups_in (get_member (codes "user") (table_view table.now)) }
{
    match find(table, "user") {
        Some(value) => match value.as_array() {
            Some(users) => many_groups_of(users.as_slice()),
            None => None,
        },
        None => None,
    }
}

/// Whether a list isn't longer.
fn few_at(list: ConfigKey, most: usize, table: &Table) -> Result<(), Refusal>
    ensures { result ≡ Definitions.few_at list most (table_view table.now) }
{
    let many = is_over_at(table, list.name(), most);
    let refusal = Refusal::At(ConfigError::TooMany, place_at(TableKind::Whole, 0, list));
    confirm(!many, refusal)
}

/// Whether no list of a file is too long.
pub(crate) fn all_few(table: &Table) -> Result<(), Refusal>
    ensures { Tells (λ done. done) result (Definitions.all_few (table_view table.now)) }
{
    few_at(ConfigKey::Domains, 16, table)?;
    few_at(ConfigKey::Users, 4096, table)?;
    let many = many_groups_in(table);
    none_found(
        ConfigError::TooMany,
        TableKind::User,
        ConfigKey::Groups,
        many,
    )?;
    few_at(ConfigKey::Hops, 256, table)?;
    few_at(ConfigKey::HostAddresses, 1024, table)?;
    few_at(ConfigKey::Rules, 1024, table)
}
