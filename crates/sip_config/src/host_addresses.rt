ghost use Rattle.std.specs.Prelude.{◌≡◌, [], ◌∷◌, ◌++◌, codes, IfOk};
ghost use Rattle.toml.specs.Data.{get_member};
ghost use Rattle.toml.specs.View.{table_view, items_view};
ghost use Rattle.sip_config_values.specs.Refusals.{ReadsAt, placed};
ghost use Rattle.sip_config_values.specs.declared.key.ConfigKey.TheVariants as keys;
ghost use Rattle.sip_config_values.specs.declared.table_kind.TableKind.TheVariants as kinds;
ghost use Rattle.sip_config_values.specs.Rows.{rows_after};
ghost use Rattle.sip_config.specs.HostAddresses as Definitions;
ghost use Rattle.sip_config.specs.HostPorts.{place_of, row_besides};

use crate::host_ports::HostPorts;
use sip_config_values::{
    ConfigError, ConfigKey, Grammar, Refusal, TableKind, address_of, find, list_at, needed,
    place_at, placed, port_of, table_in, text_as,
};
use sip_hops::HostAddress;
use sip_text::{Bytes, Items};
use std::alloc::Global;
use toml::{Table, Value};

/// The port of a row, 5060 where none is there (RFC 3261 19.1.2).
fn row_port(table: &Table) -> Result<u16, ConfigError>
    ensures { result ≡ Definitions.port_in (get_member (codes "port") (table_view table.now)) }
{
    match find(table, "port") {
        Some(value) => port_of(value),
        None => Ok(5060),
    }
}

/// What a key of a row is read as, refused at its place.
fn of_row<T: Drop>(
    before: usize,
    key: ConfigKey,
    read: Result<T, ConfigError>,
) -> Result<T, Refusal>
    ensures { result ≡ placed kinds.HostAddress before key read }
{
    placed(TableKind::HostAddress, before, key, read)
}

/// A row of the address table, for a host and a port whose place is none of some, and its place behind these.
fn new_row(
    alloc: Global,
    places: &mut HostPorts,
    before: usize,
    table: &Table,
) -> Result<HostAddress, Refusal>
    ensures read { ReadsAt (λ row. row) result (row_besides before places.old (table_view table.now)) }
    ensures placed { IfOk result (λ row. places.new ≡ places.old ++ place_of row ∷ []) }
{
    let named = of_row(before, ConfigKey::Host, needed(table, "host"))?;
    let addressed = of_row(before, ConfigKey::Address, needed(table, "address"))?;
    let host = of_row(before, ConfigKey::Host, text_as(named, Grammar::Host))?;
    let port = of_row(before, ConfigKey::Port, row_port(table))?;
    if !places.add(alloc, host, port)? {
        return Err(Refusal::Twice(place_at(TableKind::HostAddress, before, ConfigKey::Host)));
    }
    let address = of_row(before, ConfigKey::Address, address_of(addressed))?;
    let host = Bytes::copy(alloc, host)?;
    Ok(HostAddress {
        host,
        port,
        address,
    })
}

#[tactic(auto, using(crate::proofs::RowPlaces::rows_are, crate::proofs::RowPlaces::row_step, crate::proofs::RowPlaces::row_end))]
fn rows_of(alloc: Global, items: &[Value]) -> Result<Items<HostAddress>, Refusal>
    ensures { ReadsAt (λ rows. rows) result (rows_after keys.HostAddresses Definitions.new_row [] (items_view items.now)) }
{
    let mut rows = Items::new(alloc);
    let mut places = HostPorts::new(alloc);
    for item in items {
        let row = new_row(
            alloc,
            &mut places,
            rows.as_slice().len(),
            table_in(ConfigKey::HostAddresses, item)?,
        )?;
        rows.push(row)?;
    }
    Ok(rows)
}

/// The address table: the tables `[[host_address]]`, if there are any.
pub(crate) fn host_addresses_at(alloc: Global, table: &Table) -> Result<Items<HostAddress>, Refusal>
    ensures { ReadsAt (λ rows. rows) result (Definitions.host_addresses_at (table_view table.now)) }
{
    rows_of(alloc, list_at(ConfigKey::HostAddresses, table)?)
}
