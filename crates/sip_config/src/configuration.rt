ghost use Rattle.std.specs.Prelude.{◌≡◌, ◌⊎◌, IfOk, IfErr};
ghost use Rattle.toml.specs.View.{table_view};
ghost use Rattle.sip_config_values.specs.Refusals.{Reads, ReadsAt, error_alone};
ghost use Rattle.sip_config.specs.Configuration as Definitions;
ghost use Rattle.sip_config.specs.Stated.{States, StatesNone};
ghost use Rattle.sip_config_values.specs.declared.error.ConfigError.TheVariants.{NoMemory};

use crate::head::head_of;
use crate::hops::hops_at;
use crate::host_addresses::host_addresses_at;
use crate::keys::all_known;
use crate::limits::all_few;
use crate::rules::{check_rules, rules_of};
use crate::users::users_at;
use sip_config_types::Config;
use sip_config_values::{ConfigError, ConfigKey, Refusal, list_at};
use sip_hops::Hop;
use sip_policy::{Rule, Users};
use sip_text::Items;
use std::alloc::Global;
use toml::Table;

/// What the rules of a file say: each of their lines, then no unknown key in the whole file, then what they
/// name.
fn rules_at(
    alloc: Global,
    version: u32,
    users: &Users,
    hops: &[Hop],
    table: &Table,
) -> Result<Items<Rule>, Refusal>
    ensures { ReadsAt (λ rules. rules) result (Definitions.rules_at version users.now hops.now (table_view table.now)) }
{
    let items = list_at(ConfigKey::Rules, table)?;
    check_rules(alloc, version, users, items)?;
    all_known(version, table)?;
    rules_of(alloc, version, users, hops, items)
}

/// Reads a configuration, whose text is TOML, and says where it is refused: at the first place in reading order.
/// NoMemory may come at any point.
pub fn read_table(alloc: Global, table: &Table) -> Result<Config, Refusal>
    ensures { ReadsAt (λ config. config) result (Definitions.placed_by (table_view table.now)) }
{
    all_few(table)?;
    let head = head_of(alloc, table)?;
    let users = users_at(alloc, table)?;
    let hops = hops_at(alloc, table)?;
    let addresses = host_addresses_at(alloc, table)?;
    let rules = rules_at(alloc, head.version, &users, hops.as_slice(), table)?;
    Ok(head.into_config(users, hops, addresses, rules))
}

/// The same with the error alone.
fn stated_by(alloc: Global, table: &Table) -> Result<Config, ConfigError>
    ensures { Reads (λ config. config) result (error_alone (Definitions.placed_by (table_view table.now))) }
{
    match read_table(alloc, table) {
        Ok(config) => Ok(config),
        Err(refusal) => Err(refusal.error()),
    }
}

/// Reads a configuration: TOML of version 1 or 2.
///
/// Refuses, in this order: BadToml; TooMany for a list over its limit; then, by the lines of the table of
/// keys and in the order of the file within a line, MissingKey and BadValue; BadValue for a key that isn't
/// known; DuplicateRule; UnknownHop; UnknownGroup. NoMemory may come at any point.
pub fn read_config(alloc: Global, text: &str) -> Result<Config, ConfigError>
    ensures { Reads (λ config. config) result (Definitions.stated_in text.now) }
{
    match toml::table_from_str(alloc, text) {
        Ok(table) => stated_by(alloc, &table),
        Err(e) => {
            if e.is_memory() {
                Err(ConfigError::NoMemory)
            } else {
                Err(ConfigError::BadToml)
            }
        }
    }
}

/// The configuration that the bytes of a file state: what `read_config` makes of them as UTF-8; refused as there, and with `BadToml`
/// where they aren't UTF-8.
pub fn read_config_bytes(alloc: Global, bytes: &[u8]) -> Result<Config, ConfigError>
    ensures stated { IfOk result (States bytes.now) }
    ensures refused { IfErr result (λ e. (e ≡ NoMemory) ⊎ StatesNone bytes.now e) }
{
    match str::from_utf8(bytes) {
        Ok(text) => read_config(alloc, text),
        Err(_) => Err(ConfigError::BadToml),
    }
}
