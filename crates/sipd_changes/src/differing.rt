//! The list of what differs between two configurations, in the order of the file; the keys before all tables are compared here.
ghost use Rattle.std.specs.Prelude.{◌≡◌, ◌==◌, ◌++◌, IfOk, OnOk};
ghost use Rattle.std.specs.List.{list_any};
ghost use Rattle.std.specs.Ordering.{int_eq};
ghost use Rattle.sipd_changes.specs.declared.difference.Difference.TheVariants as Changed;
ghost use Rattle.sipd_changes.specs.Changes as Definitions;

use crate::difference::Difference;
use crate::places::{add_hops, add_rows};
use crate::rules::add_rules;
use crate::users::add_users;
use sip_config_change::FrameKey;
use sip_config_types::Config;
use sip_text::Items;
use std::alloc::{AllocError, Global};

/// Adds that a key of the frame differs, unless it stays.
fn add_key(changes: &mut Items<Difference>, stays: bool, key: FrameKey) -> Result<(), AllocError>
    ensures { OnOk result (changes.new ≡ changes.old ++ Definitions.unless stays (Changed.Frame key)) }
{
    if stays {
        Ok(())
    } else {
        changes.push(Difference::Frame(key))
    }
}

fn add_frame(changes: &mut Items<Difference>, old: &Config, new: &Config) -> Result<(), AllocError>
    ensures { OnOk result (changes.new ≡ changes.old ++ Definitions.frame_changes old.now new.now) }
{
    add_key(changes, FrameKey::Host.is_kept(old, new), FrameKey::Host)?;
    add_key(changes, FrameKey::Port.is_kept(old, new), FrameKey::Port)?;
    add_key(
        changes,
        FrameKey::Address.is_kept(old, new),
        FrameKey::Address,
    )?;
    add_key(
        changes,
        FrameKey::Domains.is_kept(old, new),
        FrameKey::Domains,
    )?;
    add_key(changes, FrameKey::Realm.is_kept(old, new), FrameKey::Realm)
}

/// Adds that the port that is bound differs, unless it stays.
fn add_port(changes: &mut Items<Difference>, before: u16, now: u16) -> Result<(), AllocError>
    ensures { OnOk result (changes.new ≡ changes.old ++ Definitions.unless (before == now) (Changed.BoundPort before now)) }
{
    if before == now {
        Ok(())
    } else {
        changes.push(Difference::BoundPort { before, now })
    }
}

fn add_offset(changes: &mut Items<Difference>, before: i16, now: i16) -> Result<(), AllocError>
    ensures { OnOk result (changes.new ≡ changes.old ++ Definitions.unless (int_eq before now) (Changed.Offset before now)) }
{
    if before == now {
        Ok(())
    } else {
        changes.push(Difference::Offset { before, now })
    }
}

fn add_head(changes: &mut Items<Difference>, old: &Config, new: &Config) -> Result<(), AllocError>
    ensures { OnOk result (changes.new ≡ changes.old ++ Definitions.head_changes old.now new.now) }
{
    add_frame(changes, old, new)?;
    add_port(changes, old.bound_port, new.bound_port)?;
    add_offset(changes, old.offset, new.offset)
}

/// What two configurations differ in, in the order of the file: of users, hops, hosts and rules first what stands in the new one,
/// then what goes. Users and hops are found by their names, hosts by name and port, rules by their numbers; of these the order of
/// rules alone counts. `AllocError` is the only refusal.
pub fn changes_of(
    alloc: Global,
    old: &Config,
    new: &Config,
) -> Result<Items<Difference>, AllocError>
    ensures { IfOk result (λ changes. changes ≡ Definitions.changes_of old.now new.now) }
{
    let mut changes = Items::new(alloc);
    add_head(&mut changes, old, new)?;
    add_users(&mut changes, &old.users, &new.users)?;
    add_hops(&mut changes, old.hops.as_slice(), new.hops.as_slice())?;
    add_rows(
        &mut changes,
        old.addresses.as_slice(),
        new.addresses.as_slice(),
    )?;
    add_rules(alloc, &mut changes, old, new)?;
    Ok(changes)
}

/// Whether a change is of what can't change while a server runs.
fn needs_restart(change: &Difference) -> bool
    ensures { result ≡ Definitions.needs_restart change.now }
{
    matches!(change, Difference::Frame(_) | Difference::BoundPort { .. })
}

fn some_need_restart(changes: &[Difference]) -> bool
    ensures { result ≡ list_any Definitions.needs_restart changes.now }
{
    changes.iter().any(|change| needs_restart(change))
}

/// Whether a server that runs can take them. Takes no memory.
pub fn can_be_taken(changes: &[Difference]) -> bool
    ensures { result ≡ Definitions.can_be_taken changes.now }
{
    !some_need_restart(changes)
}
