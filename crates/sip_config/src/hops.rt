ghost use Rattle.std.specs.Prelude.{◌≡◌, []};
ghost use Rattle.std.specs.List.{list_any};
ghost use Rattle.toml.specs.View.{table_view, items_view};
ghost use Rattle.sip_config_values.specs.Refusals.{ReadsAt};
ghost use Rattle.sip_config_values.specs.declared.key.ConfigKey.TheVariants as keys;
ghost use Rattle.sip_config_values.specs.Rows.{rows_after};
ghost use Rattle.sip_config_values.specs.Words.{is_hop};
ghost use Rattle.sip_config.specs.Hops as Definitions;

use sip_config_values::{
    ConfigKey, Grammar, Refusal, TableKind, address_of, confirm, list_at, needed, place_at, placed,
    table_in, text_as,
};
use sip_hops::Hop;
use sip_text::{Bytes, Items, same_bytes};
use std::alloc::Global;
use toml::{Table, Value};

/// Whether a hop has this name.
fn has_hop(hops: &[Hop], name: &[u8]) -> bool
    ensures { result ≡ list_any (is_hop name.now) hops.now }
{
    hops.iter().any(|hop| same_bytes(hop.name.as_slice(), name))
}

/// A hop, whose name none before it has.
fn new_hop(alloc: Global, before: &[Hop], table: &Table) -> Result<Hop, Refusal>
    ensures { ReadsAt (λ hop. hop) result (Definitions.new_hop before.now (table_view table.now)) }
{
    let at = before.len();
    let named = placed(TableKind::Hop, at, ConfigKey::Name, needed(table, "name"))?;
    let addressed = placed(
        TableKind::Hop,
        at,
        ConfigKey::Address,
        needed(table, "address"),
    )?;
    let name = placed(
        TableKind::Hop,
        at,
        ConfigKey::Name,
        text_as(named, Grammar::Name),
    )?;
    let twice = Refusal::Twice(place_at(TableKind::Hop, at, ConfigKey::Name));
    confirm(!has_hop(before, name), twice)?;
    let address = placed(
        TableKind::Hop,
        at,
        ConfigKey::Address,
        address_of(addressed),
    )?;
    let name = Bytes::copy(alloc, name)?;
    Ok(Hop { name, address })
}

#[tactic(auto, using(crate::proofs::Rows::rows_step, crate::proofs::Rows::rows_end))]
fn hops_of(alloc: Global, items: &[Value]) -> Result<Items<Hop>, Refusal>
    ensures { ReadsAt (λ hops. hops) result (rows_after keys.Hops Definitions.new_hop [] (items_view items.now)) }
{
    let mut hops = Items::new(alloc);
    for item in items {
        let hop = new_hop(alloc, hops.as_slice(), table_in(ConfigKey::Hops, item)?)?;
        hops.push(hop)?;
    }
    Ok(hops)
}

/// The hops: the tables `[[hop]]`, if there are any.
pub(crate) fn hops_at(alloc: Global, table: &Table) -> Result<Items<Hop>, Refusal>
    ensures { ReadsAt (λ hops. hops) result (Definitions.hops_at (table_view table.now)) }
{
    hops_of(alloc, list_at(ConfigKey::Hops, table)?)
}
