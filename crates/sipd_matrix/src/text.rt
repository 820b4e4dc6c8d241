//! The lines of the text, and the whole.
ghost use Rattle.std.specs.Prelude.{◌≡◌, ◌++◌, ◌==◌, IfOk, OnOk};
ghost use Rattle.std.specs.List.{flat_map, list_any};
ghost use Rattle.std.specs.Option.{option_copied};
ghost use Rattle.sipd_matrix.specs.Text as Definitions;
ghost use Rattle.sipd_matrix.specs.Cells.{cell_text};

use crate::cell::Cell;
use crate::cells::{are_of_class, are_of_row};
use crate::matrix::{Matrix, policy_table};
use crate::numbers::numbers_of;
use crate::unused_names::{is_named, put_all_groups, put_hops};
use crate::words::{operation_word, put_both, put_clock, put_column, put_padded, put_signed};
use sip_config_types::Config;
use sip_matrix::{Column, PolicyTable};
use sip_policy::{Operation, Rule, User};
use sip_text::{Bytes, Items, same_bytes};
use std::alloc::{AllocError, Global};

/// What the signs in the cells mean.
const LEGEND: &[u8] = b"\
    A rule's number, 0 for none, and what comes of it: + goes to the registrar or to\n\
    the bindings, > goes by a hop, - is denied, ? is asked for a proof, ! is allowed\n\
    and reaches nobody; behind / for the asker's own address. U*@H are all that begin\n\
    so, but those that have a line of their own or a longer beginning.\n";

/// Adds a cell in its field.
fn put_field(
    alloc: Global,
    text: &mut Bytes,
    matrix: &Matrix<'_>,
    cell: &Cell<'_>,
) -> Result<(), AllocError>
    ensures { OnOk result (text.new ≡ text.old ++ Definitions.padded (cell_text matrix.now.config.now matrix.now.operation.now
        matrix.now.table.now.columns cell.now.class.now cell.now.piece (option_copied cell.now.row))) }
{
    let mut field = Bytes::new(alloc);
    matrix.put_cell(&mut field, cell)?;
    put_padded(text, field.as_slice())
}

fn put_fields(
    alloc: Global,
    text: &mut Bytes,
    matrix: &Matrix<'_>,
    piece: u16,
    class: &Column,
    rows: &[Bytes],
) -> Result<(), AllocError>
    ensures { OnOk result (text.new ≡ text.old ++ flat_map (Definitions.field_text matrix.now.config.now matrix.now.operation.now
        matrix.now.table.now.columns class.now piece) rows.now) }
{
    for row in rows {
        let cell = Cell {
            row: Some(row.as_slice()),
            class,
            piece,
        };
        put_field(alloc, text, matrix, &cell)?;
    }
    Ok(())
}

/// Adds a column behind a blank, if it is of a class.
fn put_member(
    text: &mut Bytes,
    config: &Config,
    class: &Column,
    column: &Column,
) -> Result<(), AllocError>
    ensures { OnOk result (text.new ≡ text.old ++ Definitions.member_text config.now class.now column.now) }
{
    if !are_of_class(config, class, column) {
        return Ok(());
    }
    text.extend(b" ")?;
    put_column(text, column)
}

/// Adds the columns of a class, each behind a blank. `AllocError` is the only refusal.
pub fn put_members(
    text: &mut Bytes,
    config: &Config,
    class: &Column,
    columns: &[Column],
) -> Result<(), AllocError>
    ensures { OnOk result (text.new ≡ text.old ++ flat_map (Definitions.member_text config.now class.now) columns.now) }
{
    for column in columns {
        put_member(text, config, class, column)?;
    }
    Ok(())
}

/// Adds the cells of a class, and its addresses.
fn put_class(
    alloc: Global,
    text: &mut Bytes,
    matrix: &Matrix<'_>,
    piece: u16,
    class: &Column,
) -> Result<(), AllocError>
    ensures { OnOk result (text.new ≡ text.old
        ++ Definitions.class_line matrix.now.config.now matrix.now.operation.now matrix.now.table.now piece class.now) }
{
    let nobody = Cell {
        row: None,
        class,
        piece,
    };
    let rows = matrix.table.rows.as_slice();
    let columns = matrix.table.columns.as_slice();
    put_field(alloc, text, matrix, &nobody)?;
    put_fields(alloc, text, matrix, piece, class, rows)?;
    put_members(text, matrix.config, class, columns)?;
    text.push(b'\n')
}

fn put_classes(
    alloc: Global,
    text: &mut Bytes,
    matrix: &Matrix<'_>,
    piece: u16,
    classes: &[Column],
) -> Result<(), AllocError>
    ensures { OnOk result (text.new ≡ text.old
        ++ flat_map (Definitions.class_line matrix.now.config.now matrix.now.operation.now matrix.now.table.now piece) classes.now) }
{
    for class in classes {
        put_class(alloc, text, matrix, piece, class)?;
    }
    Ok(())
}

fn put_heads(text: &mut Bytes, rows: &[Bytes]) -> Result<(), AllocError>
    ensures { OnOk result (text.new ≡ text.old ++ flat_map Definitions.padded rows.now) }
{
    for row in rows {
        put_padded(text, row.as_slice())?;
    }
    Ok(())
}

/// Adds who asks, above the cells.
fn put_head(text: &mut Bytes, table: &PolicyTable) -> Result<(), AllocError>
    ensures { OnOk result (text.new ≡ text.old ++ Definitions.head_line table.now) }
{
    put_padded(text, b"nobody")?;
    put_heads(text, table.rows.as_slice())?;
    text.extend(b" asks for\n")
}

/// Adds a piece of the day.
fn put_piece(
    alloc: Global,
    text: &mut Bytes,
    matrix: &Matrix<'_>,
    piece: u16,
) -> Result<(), AllocError>
    ensures { OnOk result (text.new ≡ text.old ++ Definitions.piece_lines matrix.now.config.now matrix.now.operation.now matrix.now.table.now piece) }
{
    text.extend(b"\nfrom ")?;
    put_clock(text, piece)?;
    text.push(b'\n')?;
    put_head(text, matrix.table)?;
    let classes = matrix.table.classes.as_slice();
    put_classes(alloc, text, matrix, piece, classes)
}

fn put_pieces(
    alloc: Global,
    text: &mut Bytes,
    matrix: &Matrix<'_>,
    pieces: &[u16],
) -> Result<(), AllocError>
    ensures { OnOk result (text.new ≡ text.old
        ++ flat_map (Definitions.piece_lines matrix.now.config.now matrix.now.operation.now matrix.now.table.now) pieces.now) }
{
    for piece in pieces {
        put_piece(alloc, text, matrix, *piece)?;
    }
    Ok(())
}

/// Adds a user behind a blank, if he asks as a row does.
fn put_user(text: &mut Bytes, config: &Config, row: &[u8], user: &User) -> Result<(), AllocError>
    ensures { OnOk result (text.new ≡ text.old ++ Definitions.user_text config.now row.now user.now) }
{
    if are_of_row(config, row, user.name.as_slice()) {
        put_both(text, b" ", user.name.as_slice())
    } else {
        Ok(())
    }
}

/// Adds the users of a row, each behind a blank. `AllocError` is the only refusal.
pub fn put_users(
    text: &mut Bytes,
    config: &Config,
    row: &[u8],
    users: &[User],
) -> Result<(), AllocError>
    ensures { OnOk result (text.new ≡ text.old ++ flat_map (Definitions.user_text config.now row.now) users.now) }
{
    for user in users {
        put_user(text, config, row, user)?;
    }
    Ok(())
}

/// Adds a group, if some rule names it.
fn put_named_group(text: &mut Bytes, config: &Config, group: &[u8]) -> Result<(), AllocError>
    ensures { OnOk result (text.new ≡ text.old ++ Definitions.named_group config.now group.now) }
{
    if is_named(config.rules.as_slice(), group) {
        put_both(text, b", of ", group)
    } else {
        Ok(())
    }
}

fn put_named_groups(text: &mut Bytes, config: &Config, groups: &[Bytes]) -> Result<(), AllocError>
    ensures { OnOk result (text.new ≡ text.old ++ flat_map (Definitions.named_group config.now) groups.now) }
{
    for group in groups {
        put_named_group(text, config, group.as_slice())?;
    }
    Ok(())
}

/// Adds the groups of a user, if he has this name.
fn put_groups_of(
    text: &mut Bytes,
    config: &Config,
    row: &[u8],
    user: &User,
) -> Result<(), AllocError>
    ensures { OnOk result (text.new ≡ text.old ++ Definitions.groups_text config.now row.now user.now) }
{
    if same_bytes(user.name.as_slice(), row) {
        put_named_groups(text, config, user.groups.as_slice())
    } else {
        Ok(())
    }
}

/// Adds the groups of a row that rules name.
fn put_row_groups(
    text: &mut Bytes,
    config: &Config,
    row: &[u8],
    users: &[User],
) -> Result<(), AllocError>
    ensures { OnOk result (text.new ≡ text.old ++ flat_map (Definitions.groups_text config.now row.now) users.now) }
{
    for user in users {
        put_groups_of(text, config, row, user)?;
    }
    Ok(())
}

/// Adds the users of a row, and its groups.
fn put_row(text: &mut Bytes, config: &Config, row: &[u8]) -> Result<(), AllocError>
    ensures { OnOk result (text.new ≡ text.old ++ Definitions.row_line config.now row.now) }
{
    put_both(text, b"as ", row)?;
    text.extend(b" ask:")?;
    put_users(text, config, row, config.users.as_slice())?;
    put_row_groups(text, config, row, config.users.as_slice())?;
    text.push(b'\n')
}

fn put_rows(text: &mut Bytes, config: &Config, rows: &[Bytes]) -> Result<(), AllocError>
    ensures { OnOk result (text.new ≡ text.old ++ flat_map (Definitions.row_line config.now) rows.now) }
{
    for row in rows {
        put_row(text, config, row.as_slice())?;
    }
    Ok(())
}

fn has_number(numbers: &[u32], id: u32) -> bool
    ensures { result ≡ list_any (λ number. number == id) numbers.now }
{
    numbers.iter().any(|number| *number == id)
}

/// Adds a number, and what stands before and behind it.
fn put_number(text: &mut Bytes, before: &[u8], number: u64, behind: &[u8]) -> Result<(), AllocError>
    ensures { OnOk result (text.new ≡ text.old ++ Definitions.numbered before.now number behind.now) }
{
    text.extend(before)?;
    text.push_decimal(number)?;
    text.extend(behind)
}

/// Adds that the rule of a number decides nothing.
fn put_nothing(text: &mut Bytes, id: u32) -> Result<(), AllocError>
    ensures { OnOk result (text.new ≡ text.old ++ Definitions.nothing_text id) }
{
    put_number(text, b"rule ", u64::from(id), b" decides nothing here\n")
}

/// Whether a rule is for an operation, and decides nothing of it.
fn is_unused(operation: &Operation, numbers: &[u32], rule: &Rule) -> bool
    ensures { result ≡ Definitions.is_unused operation.now numbers.now rule.now }
{
    rule.operation.matches(operation) && !has_number(numbers, rule.id)
}

/// Adds the same of a rule, if that is so.
fn put_unused(
    text: &mut Bytes,
    operation: &Operation,
    numbers: &[u32],
    rule: &Rule,
) -> Result<(), AllocError>
    ensures { OnOk result (text.new ≡ text.old ++ Definitions.unused_line operation.now numbers.now rule.now) }
{
    if is_unused(operation, numbers, rule) {
        put_nothing(text, rule.id)
    } else {
        Ok(())
    }
}

fn put_all_unused(
    text: &mut Bytes,
    operation: &Operation,
    numbers: &[u32],
    rules: &[Rule],
) -> Result<(), AllocError>
    ensures { OnOk result (text.new ≡ text.old ++ flat_map (Definitions.unused_line operation.now numbers.now) rules.now) }
{
    for rule in rules {
        put_unused(text, operation, numbers, rule)?;
    }
    Ok(())
}

/// Adds what the table is of. `AllocError` is the only refusal.
pub fn put_title(text: &mut Bytes, config: &Config, operation: &Operation) -> Result<(), AllocError>
    ensures { OnOk result (text.new ≡ text.old ++ Definitions.title config.now operation.now) }
{
    put_both(text, operation_word(operation), b", offset ")?;
    put_signed(text, config.offset)?;
    text.push(b'\n')
}

/// Adds the hops by which no rule sends, and the groups that none names.
fn put_unnamed(text: &mut Bytes, config: &Config) -> Result<(), AllocError>
    ensures { OnOk result (text.new ≡ text.old ++ Definitions.unnamed config.now) }
{
    let hops = config.hops.as_slice();
    let rules = config.rules.as_slice();
    put_hops(text, hops, rules, hops)?;
    put_all_groups(text, rules, config.users.as_slice())
}

/// Adds what stands under the cells: the users of each row, and the rules for the operation, the hops and the groups that decide nothing.
/// `AllocError` is the only refusal.
pub fn put_foot(
    text: &mut Bytes,
    matrix: &Matrix<'_>,
    numbers: &Items<u32>,
) -> Result<(), AllocError>
    ensures { OnOk result (text.new ≡ text.old ++ Definitions.foot matrix.now.config.now matrix.now.operation.now matrix.now.table.now numbers.now) }
{
    let rules = matrix.config.rules.as_slice();
    text.push(b'\n')?;
    put_rows(text, matrix.config, matrix.table.rows.as_slice())?;
    put_all_unused(text, matrix.operation, numbers.as_slice(), rules)?;
    put_unnamed(text, matrix.config)
}

/// Adds what the signs in the cells mean. `AllocError` is the only refusal.
pub fn put_legend(text: &mut Bytes) -> Result<(), AllocError>
    ensures { OnOk result (text.new ≡ text.old ++ Definitions.legend) }
{
    text.extend(LEGEND)
}

/// The text of a table.
fn text_of(alloc: Global, matrix: &Matrix<'_>) -> Result<Bytes, AllocError>
    ensures { IfOk result (λ text. text ≡ Definitions.text_of matrix.now.config.now matrix.now.operation.now matrix.now.table.now) }
{
    let numbers = numbers_of(alloc, matrix)?;
    let mut text = Bytes::new(alloc);
    put_title(&mut text, matrix.config, matrix.operation)?;
    put_legend(&mut text)?;
    put_pieces(alloc, &mut text, matrix, matrix.table.pieces.as_slice())?;
    put_foot(&mut text, matrix, &numbers)?;
    Ok(text)
}

/// The whole policy of a configuration for one operation, as text. Each class of who asks, by each class of addresses, by each piece of
/// the day has the rule that decides and what comes of it: by the laws of `sip_matrix` no question is missing, and none is decided
/// otherwise than its cell says. `AllocError` is the only refusal.
pub fn matrix_text(
    alloc: Global,
    config: &Config,
    operation: &Operation,
) -> Result<Bytes, AllocError>
    ensures { IfOk result (λ text. text ≡ Definitions.matrix_text config.now operation.now) }
{
    let table = policy_table(alloc, config)?;
    let matrix = Matrix {
        config,
        operation,
        table: &table,
    };
    let text = text_of(alloc, &matrix)?;
    Ok(text)
}
