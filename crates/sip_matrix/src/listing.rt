//! The columns of the table, and the classes of them in which the same is decided.
ghost use Rattle.std.specs.Prelude.{◌≡◌, ◌++◌, map, IfOk, OnOk};
ghost use Rattle.std.specs.List.{flat_map, list_any};
ghost use Rattle.sip_matrix.specs.Column.{are_asked_alike, is_same_column};
ghost use Rattle.sip_matrix.specs.Kinds.{kinds_of, with_kind};
ghost use Rattle.sip_matrix.specs.Table as Definitions;

use crate::column::Column;
use sip_policy::{Rule, TargetPattern, User, Users};
use sip_text::{Bytes, Items};
use sip_uri::Aor;
use std::alloc::{AllocError, Global};

/// One address.
fn named(user: &Bytes, host: &Bytes) -> Result<Column, AllocError>
    ensures { IfOk result (λ column. column ≡ Definitions.named user.now host.now) }
{
    let user = user.clone()?;
    let host = host.clone()?;
    Ok(Column::Named(Aor { user, host }))
}

/// What begins so at a host.
fn begins(front: &Bytes, host: &Bytes) -> Result<Column, AllocError>
    ensures { IfOk result (λ column. column ≡ Definitions.begins front.now host.now) }
{
    let user = front.clone()?;
    let host = host.clone()?;
    Ok(Column::Begins(Aor { user, host }))
}

/// Adds the columns that a rule's target makes.
fn add_target(
    alloc: Global,
    columns: &mut Items<Column>,
    target: &TargetPattern,
) -> Result<(), AllocError>
    ensures { OnOk result (columns.new ≡ columns.old ++ Definitions.columns_of_target target.now) }
{
    match target {
        TargetPattern::Exact { user, domain } => {
            columns.push(named(user, domain)?)?;
            columns.push(begins(&Bytes::new(alloc), domain)?)
        }
        TargetPattern::Prefix { prefix, domain } => {
            columns.push(begins(prefix, domain)?)?;
            columns.push(begins(&Bytes::new(alloc), domain)?)
        }
        TargetPattern::SelfTarget | TargetPattern::Any => Ok(()),
    }
}

fn add_targets(alloc: Global, columns: &mut Items<Column>, rules: &[Rule]) -> Result<(), AllocError>
    ensures { OnOk result (columns.new ≡ columns.old ++ flat_map (λ rule. Definitions.columns_of_target rule.target) rules.now) }
{
    for rule in rules {
        add_target(alloc, columns, &rule.target)?;
    }
    Ok(())
}

/// Adds each user's address in an own domain.
fn add_users(columns: &mut Items<Column>, users: &[User], domain: &Bytes) -> Result<(), AllocError>
    ensures { OnOk result (columns.new ≡ columns.old ++ map (λ user. Definitions.named user.name domain.now) users.now) }
{
    for user in users {
        columns.push(named(&user.name, domain)?)?;
    }
    Ok(())
}

/// Adds the columns that an own domain makes.
fn add_domain(
    alloc: Global,
    columns: &mut Items<Column>,
    users: &[User],
    domain: &Bytes,
) -> Result<(), AllocError>
    ensures { OnOk result (columns.new ≡ columns.old ++ Definitions.columns_of_domain users.now domain.now) }
{
    add_users(columns, users, domain)?;
    columns.push(begins(&Bytes::new(alloc), domain)?)
}

fn add_domains(
    alloc: Global,
    columns: &mut Items<Column>,
    users: &[User],
    domains: &[Bytes],
) -> Result<(), AllocError>
    ensures { OnOk result (columns.new ≡ columns.old ++ flat_map (Definitions.columns_of_domain users.now) domains.now) }
{
    for domain in domains {
        add_domain(alloc, columns, users, domain)?;
    }
    Ok(())
}

/// All columns of rules, users and own domains, some of them more than once. `AllocError` is the only refusal.
pub fn all_columns(
    alloc: Global,
    rules: &[Rule],
    users: &[User],
    domains: &[Bytes],
) -> Result<Items<Column>, AllocError>
    ensures { IfOk result (λ columns. columns ≡ Definitions.all_columns rules.now users.now domains.now) }
{
    let mut columns = Items::new(alloc);
    add_domains(alloc, &mut columns, users, domains)?;
    add_targets(alloc, &mut columns, rules)?;
    columns.push(Column::Elsewhere)?;
    Ok(columns)
}

/// The same of users as they are kept.
pub(crate) fn columns_of_all(
    alloc: Global,
    rules: &[Rule],
    users: &Users,
    domains: &[Bytes],
) -> Result<Items<Column>, AllocError>
    ensures { IfOk result (λ columns. columns ≡ Definitions.all_columns rules.now users.now domains.now) }
{
    all_columns(alloc, rules, users.as_slice(), domains)
}

fn has_column(columns: &[Column], column: &Column) -> bool
    ensures { result ≡ list_any (is_same_column column.now) columns.now }
{
    columns.iter().any(|other| column.is_same(other))
}

fn add_column(columns: &mut Items<Column>, column: &Column) -> Result<(), AllocError>
    ensures { OnOk result (columns.new ≡ with_kind is_same_column columns.old column.now) }
{
    if has_column(columns.as_slice(), column) {
        return Ok(());
    }
    columns.push(column.clone()?)
}

/// Each of some columns once. `AllocError` is the only refusal.
pub fn columns_among(alloc: Global, all: &[Column]) -> Result<Items<Column>, AllocError>
    ensures { IfOk result (λ columns. columns ≡ kinds_of is_same_column all.now) }
{
    let mut columns = Items::new(alloc);
    for column in all {
        add_column(&mut columns, column)?;
    }
    Ok(columns)
}

fn has_class(
    classes: &[Column],
    rules: &[Rule],
    users: &Users,
    domains: &[Bytes],
    column: &Column,
) -> bool
    ensures { result ≡ list_any (are_asked_alike rules.now users.now domains.now column.now) classes.now }
{
    classes
        .iter()
        .any(|other| column.is_asked_as(rules, users, domains, other))
}

fn add_class(
    classes: &mut Items<Column>,
    rules: &[Rule],
    users: &Users,
    domains: &[Bytes],
    column: &Column,
) -> Result<(), AllocError>
    ensures { OnOk result (classes.new ≡ with_kind (are_asked_alike rules.now users.now domains.now) classes.old column.now) }
{
    if has_class(classes.as_slice(), rules, users, domains, column) {
        return Ok(());
    }
    classes.push(column.clone()?)
}

/// The classes of some columns, each by its first.
pub(crate) fn classes_among(
    alloc: Global,
    rules: &[Rule],
    users: &Users,
    domains: &[Bytes],
    all: &[Column],
) -> Result<Items<Column>, AllocError>
    ensures { IfOk result (λ classes. classes ≡ kinds_of (are_asked_alike rules.now users.now domains.now) all.now) }
{
    let mut classes = Items::new(alloc);
    for column in all {
        add_class(&mut classes, rules, users, domains, column)?;
    }
    Ok(classes)
}
