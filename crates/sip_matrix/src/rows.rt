//! Rows of the table: users, by classes that the same rules are for.
ghost use Rattle.std.specs.Prelude.{◌≡◌, IfOk, OnOk};
ghost use Rattle.std.specs.List.{list_any};
ghost use Rattle.sip_matrix.specs.Asker as Definitions;
ghost use Rattle.sip_matrix.specs.Asker.{names_of};
ghost use Rattle.sip_matrix.specs.Kinds.{kinds_of, with_kind};

use crate::column::agree;
use sip_policy::{Rule, User, Users};
use sip_text::{Bytes, Items};
use std::alloc::{AllocError, Global};

/// Whether each rule is for both of two users, or for neither. Takes no memory.
pub fn ask_alike(rules: &[Rule], users: &Users, one: &[u8], other: &[u8]) -> bool
    ensures { result ≡ Definitions.ask_alike rules.now users.now one.now other.now }
{
    rules.iter().all(|rule| {
        agree(
            rule.who.matches(users, Some(one)),
            rule.who.matches(users, Some(other)),
        )
    })
}

fn has_row(rows: &[Bytes], rules: &[Rule], users: &Users, name: &[u8]) -> bool
    ensures { result ≡ list_any (Definitions.ask_alike rules.now users.now name.now) rows.now }
{
    rows.iter()
        .any(|row| ask_alike(rules, users, name, row.as_slice()))
}

/// Adds the row of a user, unless it is there.
fn add_row(
    rows: &mut Items<Bytes>,
    rules: &[Rule],
    users: &Users,
    name: &Bytes,
) -> Result<(), AllocError>
    ensures { OnOk result (rows.new ≡ with_kind (Definitions.ask_alike rules.now users.now) rows.old name.now) }
{
    if has_row(rows.as_slice(), rules, users, name.as_slice()) {
        return Ok(());
    }
    rows.push(name.clone()?)
}

/// The rows of some of the users.
fn rows_among(
    alloc: Global,
    rules: &[Rule],
    users: &Users,
    list: &[User],
) -> Result<Items<Bytes>, AllocError>
    ensures { IfOk result (λ rows. rows ≡ kinds_of (Definitions.ask_alike rules.now users.now) (names_of list.now)) }
{
    let mut rows = Items::new(alloc);
    for user in list {
        add_row(&mut rows, rules, users, &user.name)?;
    }
    Ok(rows)
}

/// The rows of users, each by the name of the first. `AllocError` is the only refusal.
pub(crate) fn rows(alloc: Global, rules: &[Rule], users: &Users) -> Result<Items<Bytes>, AllocError>
    ensures { IfOk result (λ rows. rows ≡ Definitions.rows_of rules.now users.now) }
{
    rows_among(alloc, rules, users, users.as_slice())
}
