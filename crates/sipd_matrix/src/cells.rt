//! What stands in a cell: the number of the rule that decides, and what comes of it.
ghost use Rattle.std.specs.Prelude.{◌≡◌, ◌++◌, OnOk};
ghost use Rattle.std.specs.List.{slice_get};
ghost use Rattle.std.specs.Option.{option_copied};
ghost use Rattle.sip_matrix.specs.Asker;
ghost use Rattle.sip_matrix.specs.Column.{are_asked_alike};
ghost use Rattle.sipd_matrix.specs.Cells as Definitions;

use crate::cell::Cell;
use crate::words::put_both;
use sip_config_types::Config;
use sip_hops::Hop;
use sip_matrix::{Column, ask_alike, rule_in};
use sip_policy::{Decision, Operation, Rule, is_users_address, ruling_by};
use sip_text::{Bytes, same_bytes};
use std::alloc::AllocError;

fn sent_mark(known: bool) -> &'static [u8]
    ensures { result.now ≡ Definitions.sent_mark known }
{
    if known { b"+" } else { b"!" }
}

fn put_hop(text: &mut Bytes, hop: Option<&Hop>) -> Result<(), AllocError>
    ensures { OnOk result (text.new ≡ text.old ++ Definitions.hop_mark (option_copied hop.entry)) }
{
    match hop {
        Some(hop) => put_both(text, b">", hop.name.as_slice()),
        None => text.extend(b"!"),
    }
}

/// The hop at a place of a list, counted from 0. Takes no memory.
pub fn hop_at(hops: &[Hop], place: usize) -> Option<&Hop>
    ensures { option_copied result ≡ slice_get hops.now place }
{
    hops.get(place)
}

/// Adds what comes of a decision to send on by a hop.
fn put_via(
    text: &mut Bytes,
    operation: &Operation,
    hops: &[Hop],
    known: bool,
    place: usize,
) -> Result<(), AllocError>
    ensures { OnOk result (text.new ≡ text.old ++ Definitions.via_mark operation.now hops.now known place) }
{
    match operation {
        Operation::Register => text.extend(sent_mark(known)),
        Operation::List => text.extend(sent_mark(known)),
        Operation::Send(_) => put_hop(text, hop_at(hops, place)),
    }
}

/// Adds what comes of a decision.
fn put_mark(
    text: &mut Bytes,
    operation: &Operation,
    hops: &[Hop],
    known: bool,
    decision: Decision,
) -> Result<(), AllocError>
    ensures { OnOk result (text.new ≡ text.old ++ Definitions.mark_of operation.now hops.now known decision) }
{
    match decision {
        Decision::Allow(_) => text.extend(sent_mark(known)),
        Decision::Via(_, place) => put_via(text, operation, hops, known, place),
        Decision::Deny(_) => text.extend(b"-"),
        Decision::Challenge => text.extend(b"?"),
    }
}

fn number_of(rule: Option<&Rule>) -> u32
    ensures { result ≡ Definitions.number_of (option_copied rule.entry) }
{
    match rule {
        Some(rule) => rule.id,
        None => 0,
    }
}

/// Whether the addresses of a column are a configured user's. Takes no memory.
pub fn are_known(config: &Config, column: &Column) -> bool
    ensures { result ≡ Definitions.are_known config.now column.now }
{
    column.is_known(&config.users, config.own.domains.as_slice())
}

/// The rule of a cell. Takes no memory.
pub fn rule_at<'a>(
    config: &'a Config,
    operation: &Operation,
    cell: &Cell<'_>,
    own: bool,
) -> Option<&'a Rule>
    ensures { option_copied result ≡ Definitions.rule_at config.now operation.now (option_copied cell.now.row) cell.now.class.now own cell.now.piece }
{
    rule_in(
        config.rules.as_slice(),
        &config.users,
        cell.row,
        operation,
        cell.class,
        own,
        cell.piece,
    )
}

/// Its number, 0 without one. Takes no memory.
pub fn number_at(config: &Config, operation: &Operation, cell: &Cell<'_>, own: bool) -> u32
    ensures { result ≡ Definitions.number_at config.now operation.now (option_copied cell.now.row) cell.now.class.now own cell.now.piece }
{
    number_of(rule_at(config, operation, cell, own))
}

/// Adds what comes of it. `AllocError` is the only refusal.
pub fn put_mark_at(
    text: &mut Bytes,
    config: &Config,
    operation: &Operation,
    cell: &Cell<'_>,
    own: bool,
) -> Result<(), AllocError>
    ensures { OnOk result (text.new ≡ text.old ++ Definitions.mark_at config.now operation.now (option_copied cell.now.row) cell.now.class.now own cell.now.piece) }
{
    let rule = rule_at(config, operation, cell, own);
    let decision = ruling_by(rule, cell.row, cell.piece).decision;
    let known = are_known(config, cell.class);
    put_mark(text, operation, config.hops.as_slice(), known, decision)
}

/// Adds its number, and what comes of it. `AllocError` is the only refusal.
pub fn put_value(
    text: &mut Bytes,
    config: &Config,
    operation: &Operation,
    cell: &Cell<'_>,
    own: bool,
) -> Result<(), AllocError>
    ensures { OnOk result (text.new ≡ text.old ++ Definitions.value_text config.now operation.now (option_copied cell.now.row) cell.now.class.now own cell.now.piece) }
{
    let rule = rule_at(config, operation, cell, own);
    let decision = ruling_by(rule, cell.row, cell.piece).decision;
    text.push_decimal(u64::from(number_of(rule)))?;
    let known = are_known(config, cell.class);
    put_mark(text, operation, config.hops.as_slice(), known, decision)
}

/// Whether a column is the address of a configured user of a name.
fn is_address_of(config: &Config, name: &[u8], column: &Column) -> bool
    ensures { result ≡ Definitions.is_address_of config.now name.now column.now }
{
    match column {
        Column::Named(aor) => {
            same_bytes(aor.user.as_slice(), name)
                && is_users_address(&config.users, config.own.domains.as_slice(), aor)
        }
        Column::Begins(_) | Column::Elsewhere => false,
    }
}

/// Whether two columns are of one class. Takes no memory.
pub fn are_of_class(config: &Config, class: &Column, column: &Column) -> bool
    ensures { result ≡ are_asked_alike config.now.rules config.now.users config.now.own.domains class.now column.now }
{
    class.is_asked_as(
        config.rules.as_slice(),
        &config.users,
        config.own.domains.as_slice(),
        column,
    )
}

/// Whether a class has an address of a user of a name.
fn has_address_of(config: &Config, columns: &[Column], class: &Column, name: &[u8]) -> bool
    ensures { result ≡ Definitions.has_address_of config.now columns.now class.now name.now }
{
    columns.iter().any(|column| {
        is_address_of(config, name, column) && are_of_class(config, class, column)
    })
}

/// Whether two users are of one row. Takes no memory.
pub fn are_of_row(config: &Config, row: &[u8], name: &[u8]) -> bool
    ensures { result ≡ Asker.ask_alike config.now.rules config.now.users row.now name.now }
{
    ask_alike(config.rules.as_slice(), &config.users, row, name)
}

/// Whether some user of a row has an address in a class.
fn has_address_of_row(config: &Config, columns: &[Column], class: &Column, row: &[u8]) -> bool
    ensures { result ≡ Definitions.has_address_of_row config.now columns.now class.now row.now }
{
    config.users.as_slice().iter().any(|user| {
        are_of_row(config, row, user.name.as_slice())
            && has_address_of(config, columns, class, user.name.as_slice())
    })
}

/// Whether a user of a row may ask for his own address in a class, which is known then.
pub(crate) fn has_own(config: &Config, columns: &[Column], class: &Column, row: &[u8]) -> bool
    ensures { result ≡ Definitions.has_own config.now columns.now class.now row.now }
{
    are_known(config, class) && has_address_of_row(config, columns, class, row)
}

/// Whether a class has an address that is none of a user of a name.
fn has_other_than(config: &Config, columns: &[Column], class: &Column, name: &[u8]) -> bool
    ensures { result ≡ Definitions.has_other_than config.now columns.now class.now name.now }
{
    columns.iter().any(|column| {
        !is_address_of(config, name, column) && are_of_class(config, class, column)
    })
}

/// Whether some user of a row may ask for an address in a class that isn't his own.
pub(crate) fn has_others(config: &Config, columns: &[Column], class: &Column, row: &[u8]) -> bool
    ensures { result ≡ Definitions.has_others config.now columns.now class.now row.now }
{
    config.users.as_slice().iter().any(|user| {
        are_of_row(config, row, user.name.as_slice())
            && has_other_than(config, columns, class, user.name.as_slice())
    })
}
