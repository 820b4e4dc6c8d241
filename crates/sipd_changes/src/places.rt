//! What differs in the hops and in the addresses of hosts, for `differing`.
ghost use Rattle.std.specs.Prelude.{◌≡◌, [], ◌∷◌, ◌++◌, find, OnOk};
ghost use Rattle.std.specs.List.{flat_map, list_any};
ghost use Rattle.std.specs.Option.{option_copied};
ghost use Rattle.sipd_changes.specs.declared.difference.Move.TheVariants as Moving;
ghost use Rattle.sipd_changes.specs.declared.difference.Difference.TheVariants as Changed;
ghost use Rattle.sipd_changes.specs.Changes as Definitions;

use crate::difference::{Difference, Move};
use sip_hops::{Hop, HostAddress};
use sip_text::{Items, same_bytes, same_no_case};
use sip_uri::Addr;
use std::alloc::AllocError;

fn is_same_address(left: Addr, right: Addr) -> bool
    ensures { result ≡ Definitions.is_same_address left right }
{
    left.ip == right.ip && left.port == right.port
}

// ---- hops

fn is_hop(name: &[u8], hop: &Hop) -> bool
    ensures { result ≡ Definitions.is_hop name.now hop.now }
{
    same_bytes(hop.name.as_slice(), name)
}

fn hop_named<'a>(hops: &'a [Hop], name: &[u8]) -> Option<&'a Hop>
    ensures { option_copied result ≡ find (Definitions.is_hop name.now) hops.now }
{
    hops.iter().find(|hop| is_hop(name, hop))
}

fn has_hop(hops: &[Hop], name: &[u8]) -> bool
    ensures { result ≡ list_any (Definitions.is_hop name.now) hops.now }
{
    hops.iter().any(|hop| is_hop(name, hop))
}

/// Adds a change of a hop.
fn push_hop(changes: &mut Items<Difference>, hop: &Hop, change: Move) -> Result<(), AllocError>
    ensures { OnOk result (changes.new ≡ changes.old ++ Changed.Hop hop.now.name change ∷ []) }
{
    let name = hop.name.clone()?;
    changes.push(Difference::Hop { name, change })
}

/// Adds what becomes of a hop that was another one before, or wasn't there.
fn add_hop(
    changes: &mut Items<Difference>,
    now: &Hop,
    before: Option<&Hop>,
) -> Result<(), AllocError>
    ensures { OnOk result (changes.new ≡ changes.old ++ Definitions.hop_now now.now (option_copied before.entry)) }
{
    let Some(before) = before else {
        return push_hop(changes, now, Move::Comes(now.address));
    };
    if is_same_address(before.address, now.address) {
        return Ok(());
    }
    let change = Move::Moves {
        from: before.address,
        to: now.address,
    };
    push_hop(changes, now, change)
}

fn add_hops_now(changes: &mut Items<Difference>, old: &[Hop], new: &[Hop]) -> Result<(), AllocError>
    ensures { OnOk result (changes.new ≡ changes.old
        ++ flat_map (λ hop. Definitions.hop_now hop (find (Definitions.is_hop hop.name) old.now)) new.now) }
{
    for hop in new {
        add_hop(changes, hop, hop_named(old, hop.name.as_slice()))?;
    }
    Ok(())
}

/// Adds that a hop goes, unless its name stays.
fn add_gone_hop(changes: &mut Items<Difference>, stays: bool, hop: &Hop) -> Result<(), AllocError>
    ensures { OnOk result (changes.new ≡ changes.old
        ++ Definitions.unless stays (Changed.Hop hop.now.name (Moving.Goes hop.now.address))) }
{
    if stays {
        return Ok(());
    }
    push_hop(changes, hop, Move::Goes(hop.address))
}

fn add_hops_gone(
    changes: &mut Items<Difference>,
    old: &[Hop],
    new: &[Hop],
) -> Result<(), AllocError>
    ensures { OnOk result (changes.new ≡ changes.old
        ++ flat_map (λ hop. Definitions.unless (list_any (Definitions.is_hop hop.name) new.now)
        (Changed.Hop hop.name (Moving.Goes hop.address))) old.now) }
{
    for hop in old {
        add_gone_hop(changes, has_hop(new, hop.name.as_slice()), hop)?;
    }
    Ok(())
}

/// Adds what becomes of hops.
pub(crate) fn add_hops(
    changes: &mut Items<Difference>,
    old: &[Hop],
    new: &[Hop],
) -> Result<(), AllocError>
    ensures { OnOk result (changes.new ≡ changes.old ++ Definitions.hop_changes old.now new.now) }
{
    add_hops_now(changes, old, new)?;
    add_hops_gone(changes, old, new)
}

// ---- hosts

fn is_row(host: &[u8], port: u16, row: &HostAddress) -> bool
    ensures { result ≡ Definitions.is_row host.now port row.now }
{
    same_no_case(row.host.as_slice(), host) && row.port == port
}

fn row_for<'a>(rows: &'a [HostAddress], host: &[u8], port: u16) -> Option<&'a HostAddress>
    ensures { option_copied result ≡ find (Definitions.is_row host.now port) rows.now }
{
    rows.iter().find(|row| is_row(host, port, row))
}

fn has_row(rows: &[HostAddress], host: &[u8], port: u16) -> bool
    ensures { result ≡ list_any (Definitions.is_row host.now port) rows.now }
{
    rows.iter().any(|row| is_row(host, port, row))
}

/// Adds a change of the address of a host.
fn push_row(
    changes: &mut Items<Difference>,
    row: &HostAddress,
    change: Move,
) -> Result<(), AllocError>
    ensures { OnOk result (changes.new ≡ changes.old ++ Changed.Host row.now.host row.now.port change ∷ []) }
{
    let host = row.host.clone()?;
    changes.push(Difference::Host {
        host,
        port: row.port,
        change,
    })
}

/// Adds what becomes of the address of a host that had another one before, or none.
fn add_row(
    changes: &mut Items<Difference>,
    now: &HostAddress,
    before: Option<&HostAddress>,
) -> Result<(), AllocError>
    ensures { OnOk result (changes.new ≡ changes.old ++ Definitions.row_now now.now (option_copied before.entry)) }
{
    let Some(before) = before else {
        return push_row(changes, now, Move::Comes(now.address));
    };
    if is_same_address(before.address, now.address) {
        return Ok(());
    }
    let change = Move::Moves {
        from: before.address,
        to: now.address,
    };
    push_row(changes, now, change)
}

fn add_rows_now(
    changes: &mut Items<Difference>,
    old: &[HostAddress],
    new: &[HostAddress],
) -> Result<(), AllocError>
    ensures { OnOk result (changes.new ≡ changes.old
        ++ flat_map (λ row. Definitions.row_now row (find (Definitions.is_row row.host row.port) old.now)) new.now) }
{
    for row in new {
        add_row(changes, row, row_for(old, row.host.as_slice(), row.port))?;
    }
    Ok(())
}

/// Adds that the address of a host goes, unless the host with its port stays.
fn add_gone_row(
    changes: &mut Items<Difference>,
    stays: bool,
    row: &HostAddress,
) -> Result<(), AllocError>
    ensures { OnOk result (changes.new ≡ changes.old
        ++ Definitions.unless stays (Changed.Host row.now.host row.now.port (Moving.Goes row.now.address))) }
{
    if stays {
        return Ok(());
    }
    push_row(changes, row, Move::Goes(row.address))
}

fn add_rows_gone(
    changes: &mut Items<Difference>,
    old: &[HostAddress],
    new: &[HostAddress],
) -> Result<(), AllocError>
    ensures { OnOk result (changes.new ≡ changes.old
        ++ flat_map (λ row. Definitions.unless (list_any (Definitions.is_row row.host row.port) new.now)
        (Changed.Host row.host row.port (Moving.Goes row.address))) old.now) }
{
    for row in old {
        let stays = has_row(new, row.host.as_slice(), row.port);
        add_gone_row(changes, stays, row)?;
    }
    Ok(())
}

/// Adds what becomes of the addresses of hosts.
pub(crate) fn add_rows(
    changes: &mut Items<Difference>,
    old: &[HostAddress],
    new: &[HostAddress],
) -> Result<(), AllocError>
    ensures { OnOk result (changes.new ≡ changes.old ++ Definitions.row_changes old.now new.now) }
{
    add_rows_now(changes, old, new)?;
    add_rows_gone(changes, old, new)
}
