//! What differs in the users, for `differing`: their digests and their groups, who comes and who goes.
ghost use Rattle.std.specs.Prelude.{◌≡◌, ◌++◌, find, OnOk};
ghost use Rattle.std.specs.List.{flat_map, list_any};
ghost use Rattle.std.specs.Option.{option_copied};
ghost use Rattle.std.specs.Str.{bytes_eq};
ghost use Rattle.sip_policy.specs.User.{is_named, is_users_name};
ghost use Rattle.sipd_changes.specs.declared.difference.DigestKey.TheVariants.{A1, A1Sha256};
ghost use Rattle.sipd_changes.specs.declared.difference.Difference.TheVariants as Changed;
ghost use Rattle.sipd_changes.specs.Changes as Definitions;

use crate::difference::{Difference, DigestKey};
use sip_policy::{User, Users};
use sip_text::{Bytes, Items, same_bytes};
use std::alloc::AllocError;

/// Whether two digests by SHA-256 are the same, or none is there.
fn same_sha256(before: Option<&[u8; 64]>, now: Option<&[u8; 64]>) -> bool
    ensures { result ≡ Definitions.same_sha256 (option_copied before.entry) (option_copied now.entry) }
{
    match (before, now) {
        (None, None) => true,
        (Some(before), Some(now)) => same_bytes(before, now),
        (None, Some(_)) => false,
        (Some(_), None) => false,
    }
}

/// Adds that a user has another digest, unless it stays.
fn add_digest(
    changes: &mut Items<Difference>,
    stays: bool,
    user: &Bytes,
    key: DigestKey,
) -> Result<(), AllocError>
    ensures { OnOk result (changes.new ≡ changes.old ++ Definitions.unless stays (Changed.Digest user.now key)) }
{
    if stays {
        return Ok(());
    }
    let user = user.clone()?;
    changes.push(Difference::Digest { user, key })
}

fn add_digests(changes: &mut Items<Difference>, before: &User, now: &User) -> Result<(), AllocError>
    ensures { OnOk result (changes.new ≡ changes.old ++ Definitions.digest_changes before.now now.now) }
{
    let same_md5 = same_bytes(&before.a1, &now.a1);
    add_digest(changes, same_md5, &now.name, DigestKey::A1)?;
    let same = same_sha256(before.a1_sha256.as_ref(), now.a1_sha256.as_ref());
    add_digest(changes, same, &now.name, DigestKey::A1Sha256)
}

fn add_leaving(
    changes: &mut Items<Difference>,
    stays: bool,
    user: &Bytes,
    group: &Bytes,
) -> Result<(), AllocError>
    ensures { OnOk result (changes.new ≡ changes.old ++ Definitions.unless stays (Changed.Leaves user.now group.now)) }
{
    if stays {
        return Ok(());
    }
    let user = user.clone()?;
    let group = group.clone()?;
    changes.push(Difference::Leaves { user, group })
}

fn add_joining(
    changes: &mut Items<Difference>,
    stays: bool,
    user: &Bytes,
    group: &Bytes,
) -> Result<(), AllocError>
    ensures { OnOk result (changes.new ≡ changes.old ++ Definitions.unless stays (Changed.Joins user.now group.now)) }
{
    if stays {
        return Ok(());
    }
    let user = user.clone()?;
    let group = group.clone()?;
    changes.push(Difference::Joins { user, group })
}

/// Adds the groups of some that the user of now isn't in.
fn add_left(changes: &mut Items<Difference>, groups: &[Bytes], now: &User) -> Result<(), AllocError>
    ensures { OnOk result (changes.new ≡ changes.old
        ++ flat_map (λ group. Definitions.unless (list_any (bytes_eq group) now.now.groups) (Changed.Leaves now.now.name group)) groups.now) }
{
    for group in groups {
        add_leaving(changes, now.is_in(group.as_slice()), &now.name, group)?;
    }
    Ok(())
}

/// Adds the groups of some that the user of before wasn't in.
fn add_joined(
    changes: &mut Items<Difference>,
    groups: &[Bytes],
    before: &User,
    name: &Bytes,
) -> Result<(), AllocError>
    ensures { OnOk result (changes.new ≡ changes.old
        ++ flat_map (λ group. Definitions.unless (list_any (bytes_eq group) before.now.groups) (Changed.Joins name.now group)) groups.now) }
{
    for group in groups {
        add_joining(changes, before.is_in(group.as_slice()), name, group)?;
    }
    Ok(())
}

fn add_groups(changes: &mut Items<Difference>, before: &User, now: &User) -> Result<(), AllocError>
    ensures { OnOk result (changes.new ≡ changes.old ++ Definitions.group_changes before.now now.now) }
{
    add_left(changes, before.groups.as_slice(), now)?;
    add_joined(changes, now.groups.as_slice(), before, &now.name)
}

/// Adds what becomes of a user who was another one before, or wasn't there.
fn add_user(
    changes: &mut Items<Difference>,
    now: &User,
    before: Option<&User>,
) -> Result<(), AllocError>
    ensures { OnOk result (changes.new ≡ changes.old ++ Definitions.user_now now.now (option_copied before.entry)) }
{
    let Some(before) = before else {
        return changes.push(Difference::UserComes(now.name.clone()?));
    };
    add_digests(changes, before, now)?;
    add_groups(changes, before, now)
}

fn add_users_now(
    changes: &mut Items<Difference>,
    old: &Users,
    new: &[User],
) -> Result<(), AllocError>
    ensures { OnOk result (changes.new ≡ changes.old
        ++ flat_map (λ user. Definitions.user_now user (find (is_named user.name) old.now)) new.now) }
{
    for user in new {
        add_user(changes, user, old.find(user.name.as_slice()))?;
    }
    Ok(())
}

/// Adds that a user goes, unless the name stays.
fn add_going(changes: &mut Items<Difference>, stays: bool, name: &Bytes) -> Result<(), AllocError>
    ensures { OnOk result (changes.new ≡ changes.old ++ Definitions.unless stays (Changed.UserGoes name.now)) }
{
    if stays {
        return Ok(());
    }
    changes.push(Difference::UserGoes(name.clone()?))
}

fn add_users_gone(
    changes: &mut Items<Difference>,
    old: &[User],
    new: &Users,
) -> Result<(), AllocError>
    ensures { OnOk result (changes.new ≡ changes.old
        ++ flat_map (λ user. Definitions.unless (is_users_name new.now user.name) (Changed.UserGoes user.name)) old.now) }
{
    for user in old {
        add_going(changes, new.has_name(user.name.as_slice()), &user.name)?;
    }
    Ok(())
}

/// Adds what becomes of users.
pub(crate) fn add_users(
    changes: &mut Items<Difference>,
    old: &Users,
    new: &Users,
) -> Result<(), AllocError>
    ensures { OnOk result (changes.new ≡ changes.old ++ Definitions.user_changes old.now new.now) }
{
    add_users_now(changes, old, new.as_slice())?;
    add_users_gone(changes, old.as_slice(), new)
}
