//! The table of two configurations together.
ghost use Rattle.std.specs.Prelude.{◌≡◌, IfOk, OnOk};
ghost use Rattle.std.specs.List.{list_any};
ghost use Rattle.sip_matrix.specs.Asker.{names_of};
ghost use Rattle.sip_matrix.specs.Day;
ghost use Rattle.sip_matrix.specs.Kinds.{kinds_of, with_kind};
ghost use Rattle.sipd_matrix_changes.specs.Both as Definitions;
ghost use Rattle.sipd_matrix_changes.specs.Both.{are_asked_alike_by_both, ask_alike_of_both};

use crate::both_configurations::{ask_alike, domains_of, rules_of, users_of};
use sip_config_types::Config;
use sip_matrix::{Column, PolicyTable, all_columns, columns_among, pieces_of};
use sip_policy::User;
use sip_text::{Bytes, Items};
use sipd_matrix::are_of_class;
use std::alloc::{AllocError, Global};

fn has_row(rows: &[Bytes], old: &Config, new: &Config, name: &[u8]) -> bool
    ensures { result ≡ list_any (ask_alike_of_both old.now new.now name.now) rows.now }
{
    rows.iter()
        .any(|row| ask_alike(old, new, name, row.as_slice()))
}

/// Adds the row of a user, unless it is there.
fn add_row(
    rows: &mut Items<Bytes>,
    old: &Config,
    new: &Config,
    name: &Bytes,
) -> Result<(), AllocError>
    ensures { OnOk result (rows.new ≡ with_kind (ask_alike_of_both old.now new.now) rows.old name.now) }
{
    if has_row(rows.as_slice(), old, new, name.as_slice()) {
        return Ok(());
    }
    rows.push(name.clone()?)
}

/// The rows of some users.
fn rows_among(
    alloc: Global,
    old: &Config,
    new: &Config,
    users: &[User],
) -> Result<Items<Bytes>, AllocError>
    ensures { IfOk result (λ rows. rows ≡ kinds_of (ask_alike_of_both old.now new.now) (names_of users.now)) }
{
    let mut rows = Items::new(alloc);
    for user in users {
        add_row(&mut rows, old, new, &user.name)?;
    }
    Ok(rows)
}

/// Whether two columns are asked about alike by both.
pub(crate) fn are_asked_alike(old: &Config, new: &Config, one: &Column, other: &Column) -> bool
    ensures { result ≡ are_asked_alike_by_both old.now new.now one.now other.now }
{
    are_of_class(old, one, other) && are_of_class(new, one, other)
}

fn has_class(classes: &[Column], old: &Config, new: &Config, column: &Column) -> bool
    ensures { result ≡ list_any (are_asked_alike_by_both old.now new.now column.now) classes.now }
{
    classes
        .iter()
        .any(|other| are_asked_alike(old, new, column, other))
}

/// Adds the class of a column, unless it is there.
fn add_class(
    classes: &mut Items<Column>,
    old: &Config,
    new: &Config,
    column: &Column,
) -> Result<(), AllocError>
    ensures { OnOk result (classes.new ≡ with_kind (are_asked_alike_by_both old.now new.now) classes.old column.now) }
{
    if has_class(classes.as_slice(), old, new, column) {
        return Ok(());
    }
    classes.push(column.clone()?)
}

/// The classes of some columns.
fn classes_among(
    alloc: Global,
    old: &Config,
    new: &Config,
    all: &[Column],
) -> Result<Items<Column>, AllocError>
    ensures { IfOk result (λ classes. classes ≡ kinds_of (are_asked_alike_by_both old.now new.now) all.now) }
{
    let mut classes = Items::new(alloc);
    for column in all {
        add_class(&mut classes, old, new, column)?;
    }
    Ok(classes)
}

/// All columns that the targets, the users and the own domains of both make.
fn columns_of(alloc: Global, old: &Config, new: &Config) -> Result<Items<Column>, AllocError>
    ensures { IfOk result (λ columns. columns ≡ Definitions.all_columns old.now new.now) }
{
    let rules = rules_of(alloc, old, new)?;
    let users = users_of(alloc, old, new)?;
    let domains = domains_of(alloc, old, new)?;
    all_columns(
        alloc,
        rules.as_slice(),
        users.as_slice(),
        domains.as_slice(),
    )
}

/// The rows of the users of both.
fn rows_of(alloc: Global, old: &Config, new: &Config) -> Result<Items<Bytes>, AllocError>
    ensures { IfOk result (λ rows. rows ≡ kinds_of (ask_alike_of_both old.now new.now) (names_of (Definitions.users_of old.now new.now))) }
{
    let users = users_of(alloc, old, new)?;
    rows_among(alloc, old, new, users.as_slice())
}

/// The pieces of the day by the windows of both.
fn pieces_of_both(alloc: Global, old: &Config, new: &Config) -> Result<Items<u16>, AllocError>
    ensures { IfOk result (λ pieces. pieces ≡ Day.pieces_of (Definitions.rules_of old.now new.now)) }
{
    let rules = rules_of(alloc, old, new)?;
    pieces_of(alloc, rules.as_slice())
}

/// The table of two configurations together. `AllocError` is the only refusal.
pub(crate) fn table_of(alloc: Global, old: &Config, new: &Config) -> Result<PolicyTable, AllocError>
    ensures { IfOk result (λ table. table ≡ Definitions.table_of old.now new.now) }
{
    let rows = rows_of(alloc, old, new)?;
    let all = columns_of(alloc, old, new)?;
    let columns = columns_among(alloc, all.as_slice())?;
    let classes = classes_among(alloc, old, new, all.as_slice())?;
    let pieces = pieces_of_both(alloc, old, new)?;
    Ok(PolicyTable {
        rows,
        columns,
        classes,
        pieces,
    })
}
