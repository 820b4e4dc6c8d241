//! The tables `[[user]]`: their names first, then their digests and groups, refused at the first fault in this order.
ghost use Rattle.std.specs.Prelude.{◌≡◌, []};
ghost use Rattle.toml.specs.View.{table_view, items_view};
ghost use Rattle.sip_config_values.specs.declared.key.ConfigKey.TheVariants as keys;
ghost use Rattle.sip_config_values.specs.declared.table_kind.TableKind.TheVariants as kinds;
ghost use Rattle.sip_config_values.specs.Refusals.{Reads, ReadsAt, placed};
ghost use Rattle.sip_config_values.specs.Rows.{rows_after, all_pass};
ghost use Rattle.sip_config.specs.Users as Definitions;

use sip_config_values::{
    ConfigError, ConfigKey, DistinctNames, Grammar, Refusal, TableKind, digest_of, find, list_of,
    needed, passed, place_at, placed, some_items_at, table_in, text_at, texts_of,
};
use sip_policy::{PolicyError, User, Users};
use sip_text::{Bytes, Items};
use std::alloc::Global;
use toml::{Table, Value};

/// The keys of a user behind the name, in the order in which they are looked at.
#[derive(Clone, Copy)]
pub(crate) enum UserLine {
    A1,
    A1Sha256,
    Groups,
}

/// What a key of a user is read as, refused at its place.
fn of_user<T: Drop>(
    before: usize,
    key: ConfigKey,
    read: Result<T, ConfigError>,
) -> Result<T, Refusal>
    ensures { result ≡ placed kinds.User before key read }
{
    placed(TableKind::User, before, key, read)
}

/// Adds a user's name, which none before it has.
fn add_name(alloc: Global, names: &mut DistinctNames, table: &Table) -> Result<(), Refusal>
    ensures { ReadsAt (λ done. names.new) result (Definitions.name_behind names.old (table_view table.now)) }
{
    let at = names.len();
    let name = of_user(at, ConfigKey::Name, text_at(table, "name", Grammar::Name))?;
    if !names.add(alloc, name)? {
        return Err(Refusal::Twice(place_at(TableKind::User, at, ConfigKey::Name)));
    }
    Ok(())
}

/// The names of users, no two the same.
#[tactic(auto, using(crate::proofs::Rows::grow_step, crate::proofs::Rows::rows_end))]
fn names_of(alloc: Global, items: &[Value]) -> Result<DistinctNames, Refusal>
    ensures { ReadsAt (λ names. names) result (rows_after keys.Users Definitions.new_name [] (items_view items.now)) }
{
    let mut names = DistinctNames::new(alloc);
    for item in items {
        add_name(alloc, &mut names, table_in(ConfigKey::Users, item)?)?;
    }
    Ok(names)
}

fn a1_at(table: &Table) -> Result<[u8; 32], ConfigError>
    ensures { result ≡ Definitions.a1_at (table_view table.now) }
{
    digest_of(needed(table, "a1")?)
}

fn a1_sha256_at(table: &Table) -> Result<Option<[u8; 64]>, ConfigError>
    ensures { result ≡ Definitions.a1_sha256_at (table_view table.now) }
{
    match find(table, "a1_sha256") {
        Some(value) => Ok(Some(digest_of(value)?)),
        None => Ok(None),
    }
}

fn groups_at(alloc: Global, table: &Table) -> Result<Items<Bytes>, ConfigError>
    ensures { Reads (λ groups. groups) result (Definitions.groups_at (table_view table.now)) }
{
    match find(table, "groups") {
        Some(value) => texts_of(alloc, list_of(value)?, Grammar::Name),
        None => Ok(Items::new(alloc)),
    }
}

/// Whether a user passes a line.
fn check_user(alloc: Global, line: UserLine, before: usize, table: &Table) -> Result<(), Refusal>
    ensures { ReadsAt (λ done. done) result (Definitions.user_line line before (table_view table.now)) }
{
    match line {
        UserLine::A1 => passed(TableKind::User, before, ConfigKey::A1, a1_at(table)),
        UserLine::A1Sha256 => passed(
            TableKind::User,
            before,
            ConfigKey::A1Sha256,
            a1_sha256_at(table),
        ),
        UserLine::Groups => passed(
            TableKind::User,
            before,
            ConfigKey::Groups,
            groups_at(alloc, table),
        ),
    }
}

/// Whether each user passes a line.
#[tactic(auto, using(crate::proofs::Rows::pass_step, crate::proofs::Rows::pass_end))]
fn check_users(alloc: Global, line: UserLine, items: &[Value]) -> Result<(), Refusal>
    ensures { ReadsAt (λ done. done) result (all_pass keys.Users (Definitions.user_line line) 0 (items_view items.now)) }
{
    for (at, item) in items.iter().enumerate() {
        check_user(alloc, line, at, table_in(ConfigKey::Users, item)?)?;
    }
    Ok(())
}

fn user_at(alloc: Global, before: &[User], table: &Table) -> Result<User, Refusal>
    ensures { ReadsAt (λ user. user) result (Definitions.user_at before.now (table_view table.now)) }
{
    let at = before.len();
    let a1 = of_user(at, ConfigKey::A1, a1_at(table))?;
    let a1_sha256 = of_user(at, ConfigKey::A1Sha256, a1_sha256_at(table))?;
    let name = of_user(at, ConfigKey::Name, text_at(table, "name", Grammar::Name))?;
    let groups = of_user(at, ConfigKey::Groups, groups_at(alloc, table))?;
    let name = Bytes::copy(alloc, name)?;
    Ok(User {
        name,
        a1,
        a1_sha256,
        groups,
    })
}

#[tactic(auto, using(crate::proofs::Rows::rows_step, crate::proofs::Rows::rows_end))]
fn user_rows(alloc: Global, items: &[Value]) -> Result<Items<User>, Refusal>
    ensures { ReadsAt (λ users. users) result (rows_after keys.Users Definitions.user_at [] (items_view items.now)) }
{
    let mut users = Items::new(alloc);
    for item in items {
        let user = user_at(alloc, users.as_slice(), table_in(ConfigKey::Users, item)?)?;
        users.push(user)?;
    }
    Ok(users)
}

/// The users of a list: each line of all of them in turn, then each of them.
fn users_of(alloc: Global, items: &[Value]) -> Result<Users, Refusal>
    ensures { ReadsAt (λ users. users) result (Definitions.users_of (items_view items.now)) }
{
    let _ = names_of(alloc, items)?;
    check_users(alloc, UserLine::A1, items)?;
    check_users(alloc, UserLine::A1Sha256, items)?;
    check_users(alloc, UserLine::Groups, items)?;
    let users = user_rows(alloc, items)?;
    match Users::new(alloc, users) {
        Ok(users) => Ok(users),
        Err(PolicyError::NoMemory) => Err(Refusal::NoMemory),
        Err(PolicyError::NameTwice) => Err(Refusal::At(
            ConfigError::BadValue,
            place_at(TableKind::Whole, 0, ConfigKey::Users),
        )),
    }
}

/// The users: the tables `[[user]]`, one or more.
pub(crate) fn users_at(alloc: Global, table: &Table) -> Result<Users, Refusal>
    ensures { ReadsAt (λ users. users) result (Definitions.users_at (table_view table.now)) }
{
    let items = placed(
        TableKind::Whole,
        0,
        ConfigKey::Users,
        some_items_at(table, "user"),
    )?;
    users_of(alloc, items)
}
