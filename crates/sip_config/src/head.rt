//! The keys before all tables, each read by its grammar, and refused at its place, in their order.
//! The tables are read in `users`, `hops`, `host_addresses` and `rules`.
ghost use Rattle.std.specs.Prelude.{◌≡◌};
ghost use Rattle.toml.specs.View.{table_view};
ghost use Rattle.sip_config_values.specs.declared.table_kind.TableKind.TheVariants.{Whole};
ghost use Rattle.sip_config_values.specs.Refusals.{Reads, ReadsAt, placed};
ghost use Rattle.sip_config.specs.Head as Definitions;
ghost use Rattle.sip_config.specs.Configuration.{config_of};

use sip_config_types::Config;
use sip_config_values::{
    ConfigError, ConfigKey, Grammar, Refusal, TableKind, address_of, find, needed, number_between,
    number_of, placed, port_of, some_items_at, text_at, texts_of,
};
use sip_hops::{Hop, HostAddress};
use sip_policy::{Rule, Users};
use sip_route::Own;
use sip_text::{Bytes, Items};
use sip_uri::Addr;
use std::alloc::Global;
use toml::{Table, Value};

/// What the keys before all tables say.
pub(crate) struct TopLevelKeys {
    pub(crate) version: u32,
    pub(crate) offset: i16,
    pub(crate) realm: Bytes,
    pub(crate) host: Bytes,
    pub(crate) port: u16,
    pub(crate) address: Addr,
    pub(crate) domains: Items<Bytes>,
}

/// Written out, so that it is proved once and not wherever one is dropped.
impl Drop for TopLevelKeys {
    fn drop(self) {
        let TopLevelKeys {
            version: _,
            offset: _,
            realm: _,
            host: _,
            port: _,
            address: _,
            domains: _,
        } = self;
    }
}

impl TopLevelKeys {
    /// What a server is told, with the other parts of a file.
    pub(crate) fn into_config(
        self,
        users: Users,
        hops: Items<Hop>,
        addresses: Items<HostAddress>,
        rules: Items<Rule>,
    ) -> Config
        ensures { result ≡ config_of self users hops addresses rules }
    {
        let TopLevelKeys {
            version: _,
            offset,
            realm,
            host,
            port,
            address,
            domains,
        } = self;
        let Addr {
            ip,
            port: bound_port,
        } = address;
        let own = Own {
            host,
            port,
            domains,
            ip,
        };
        Config {
            own,
            bound_port,
            realm,
            users,
            rules,
            offset,
            hops,
            addresses,
        }
    }
}

fn version_at(table: &Table) -> Result<u32, ConfigError>
    ensures { result ≡ Definitions.version_at (table_view table.now) }
{
    number_between(needed(table, "version")?, 1, 2)
}

/// Minutes ahead of UTC.
fn offset_within(number: i64) -> Result<i16, ConfigError>
    ensures { result ≡ Definitions.offset_within number }
{
    match i16::try_from(number) {
        Ok(offset) if -720 <= offset && offset <= 840 => Ok(offset),
        _ => Err(ConfigError::BadValue),
    }
}

/// The offset, which version 1 doesn't know.
fn offset_at(version: u32, table: &Table) -> Result<i16, ConfigError>
    ensures { result ≡ Definitions.offset_at version (table_view table.now) }
{
    if version == 1 {
        return Ok(0);
    }
    match find(table, "offset") {
        Some(value) => offset_within(number_of(value)?),
        None => Ok(0),
    }
}

fn domains_at(alloc: Global, table: &Table) -> Result<Items<Bytes>, ConfigError>
    ensures { Reads (λ domains. domains) result (Definitions.domains_at (table_view table.now)) }
{
    texts_of(alloc, some_items_at(table, "domains")?, Grammar::HostName)
}

fn port_at(table: &Table) -> Result<u16, ConfigError>
    ensures { result ≡ Definitions.port_at (table_view table.now) }
{
    port_of(needed(table, "port")?)
}

fn address_at(table: &Table) -> Result<Addr, ConfigError>
    ensures { result ≡ Definitions.address_at (table_view table.now) }
{
    address_of(needed(table, "address")?)
}

/// What a key before all tables is read as, refused at its place.
fn at_head<T: Drop>(key: ConfigKey, read: Result<T, ConfigError>) -> Result<T, Refusal>
    ensures { result ≡ placed Whole 0 key read }
{
    placed(TableKind::Whole, 0, key, read)
}

/// What the keys before all tables say, refused in this order.
pub(crate) fn head_of(alloc: Global, table: &Table) -> Result<TopLevelKeys, Refusal>
    ensures { ReadsAt (λ head. head) result (Definitions.head_of (table_view table.now)) }
{
    let version = at_head(ConfigKey::Version, version_at(table))?;
    let offset = at_head(ConfigKey::Offset, offset_at(version, table))?;
    let realm = at_head(ConfigKey::Realm, text_at(table, "realm", Grammar::Realm))?;
    let host = at_head(ConfigKey::Host, text_at(table, "host", Grammar::OwnHost))?;
    let port = at_head(ConfigKey::Port, port_at(table))?;
    let address = at_head(ConfigKey::Address, address_at(table))?;
    let domains = at_head(ConfigKey::Domains, domains_at(alloc, table))?;
    let realm = Bytes::copy(alloc, realm)?;
    let host = Bytes::copy(alloc, host)?;
    Ok(TopLevelKeys {
        version,
        offset,
        realm,
        host,
        port,
        address,
        domains,
    })
}
