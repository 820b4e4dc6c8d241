//! Comma-separated values: a line for each cell (RFC 4180).
ghost use Rattle.std.specs.Prelude.{◌≡◌, ◌++◌, drop, IfOk, OnOk};
ghost use Rattle.std.specs.List.{flat_map};
ghost use Rattle.std.specs.Option.{option_copied};
ghost use Rattle.sipd_matrix_forms.specs.Cells;
ghost use Rattle.sipd_matrix_forms.specs.Csv as Definitions;

use crate::outcome::{place_at, verdict_at};
use sip_config_types::Config;
use sip_matrix::{Column, PolicyTable};
use sip_policy::Operation;
use sip_text::Bytes;
use sipd_matrix::{
    Cell, Matrix, are_known, end_of, number_at, operation_word, policy_table, put_members,
    put_users,
};
use sipd_report::push_field;
use std::alloc::{AllocError, Global};

/// What stands behind the first byte of a text.
fn behind_first(text: &[u8]) -> &[u8]
    ensures { result.now ≡ drop 1 text.now }
{
    match text.split_first() {
        Some((_, rest)) => rest,
        None => b"",
    }
}

/// Adds a field that others follow.
fn put_field(text: &mut Bytes, field: &[u8]) -> Result<(), AllocError>
    ensures { OnOk result (text.new ≡ text.old ++ Definitions.cell_field field.now) }
{
    push_field(text, field)?;
    text.extend(b",")
}

/// Adds a number that others follow.
fn put_number(text: &mut Bytes, number: u64) -> Result<(), AllocError>
    ensures { OnOk result (text.new ≡ text.old ++ Definitions.number_field number) }
{
    text.push_decimal(number)?;
    text.extend(b",")
}

/// Adds the users of a row as a field.
fn put_users_field(
    alloc: Global,
    text: &mut Bytes,
    config: &Config,
    row: &[u8],
) -> Result<(), AllocError>
    ensures { OnOk result (text.new ≡ text.old ++ Definitions.users_field config.now row.now) }
{
    let mut users = Bytes::new(alloc);
    put_users(&mut users, config, row, config.users.as_slice())?;
    put_field(text, behind_first(users.as_slice()))
}

/// Adds who asks.
fn put_who(
    alloc: Global,
    text: &mut Bytes,
    config: &Config,
    row: Option<&[u8]>,
) -> Result<(), AllocError>
    ensures { OnOk result (text.new ≡ text.old ++ Definitions.cell_field (Definitions.who_text config.now (option_copied row.entry))) }
{
    match row {
        None => put_field(text, b"nobody"),
        Some(row) => put_users_field(alloc, text, config, row),
    }
}

/// Whose address it is.
fn whose_word(split: bool, second: bool) -> &'static [u8]
    ensures { result.now ≡ Definitions.whose_word split second }
{
    if second {
        return b"own";
    }
    if split { b"others" } else { b"any" }
}

/// Adds the addresses of a class.
fn put_target(
    alloc: Global,
    text: &mut Bytes,
    config: &Config,
    columns: &[Column],
    class: &Column,
) -> Result<(), AllocError>
    ensures { OnOk result (text.new ≡ text.old ++ Definitions.cell_field (Definitions.target_text config.now columns.now class.now)) }
{
    let mut members = Bytes::new(alloc);
    put_members(&mut members, config, class, columns)?;
    put_field(text, behind_first(members.as_slice()))
}

/// Whether the row and the class of a cell have a second one.
fn is_split(matrix: &Matrix<'_>, cell: &Cell<'_>) -> bool
    ensures { result ≡ Cells.is_split matrix.now.config.now matrix.now.operation.now matrix.now.table.now.columns
        cell.now.piece cell.now.class.now (option_copied cell.now.row) }
{
    match cell.row {
        None => false,
        Some(row) => matrix.has_second(cell.piece, cell.class, row),
    }
}

/// Whether `self` means the addresses of a cell.
pub(crate) fn own_at(matrix: &Matrix<'_>, cell: &Cell<'_>, second: bool) -> bool
    ensures { result ≡ Definitions.own_at matrix.now.config.now cell.now.class.now (option_copied cell.now.row) second }
{
    match cell.row {
        None => are_known(matrix.config, cell.class),
        Some(_) => second,
    }
}

/// Adds when.
fn put_span(text: &mut Bytes, table: &PolicyTable, piece: u16) -> Result<(), AllocError>
    ensures { OnOk result (text.new ≡ text.old ++ Definitions.span_fields table.now piece) }
{
    put_number(text, u64::from(piece))?;
    put_number(text, u64::from(end_of(table.pieces.as_slice(), piece)))
}

/// Adds who asks for what, and for whom.
fn put_question(
    alloc: Global,
    text: &mut Bytes,
    matrix: &Matrix<'_>,
    cell: &Cell<'_>,
    second: bool,
) -> Result<(), AllocError>
    ensures { OnOk result (text.new ≡ text.old ++ Definitions.question_fields matrix.now.config.now matrix.now.operation.now matrix.now.table.now
        cell.now.piece cell.now.class.now (option_copied cell.now.row) second) }
{
    let columns = matrix.table.columns.as_slice();
    let split = is_split(matrix, cell);
    put_who(alloc, text, matrix.config, cell.row)?;
    put_field(text, operation_word(matrix.operation))?;
    put_field(text, whose_word(split, second))?;
    put_target(alloc, text, matrix.config, columns, cell.class)
}

/// Adds the rule, its verdict, and where it goes.
fn put_answer(
    text: &mut Bytes,
    matrix: &Matrix<'_>,
    cell: &Cell<'_>,
    own: bool,
) -> Result<(), AllocError>
    ensures { OnOk result (text.new ≡ text.old ++ Definitions.answer_fields matrix.now.config.now matrix.now.operation.now
        (option_copied cell.now.row) cell.now.class.now own cell.now.piece) }
{
    let number = number_at(matrix.config, matrix.operation, cell, own);
    put_number(text, u64::from(number))?;
    put_field(text, verdict_at(matrix, cell, own))?;
    push_field(text, place_at(matrix, cell, own))?;
    text.extend(b"\r\n")
}

/// Adds the line of a cell.
fn put_cell(
    alloc: Global,
    text: &mut Bytes,
    matrix: &Matrix<'_>,
    cell: &Cell<'_>,
    second: bool,
) -> Result<(), AllocError>
    ensures { OnOk result (text.new ≡ text.old ++ Definitions.cell_line matrix.now.config.now matrix.now.operation.now matrix.now.table.now
        cell.now.piece cell.now.class.now (option_copied cell.now.row) second) }
{
    put_span(text, matrix.table, cell.piece)?;
    put_question(alloc, text, matrix, cell, second)?;
    put_answer(text, matrix, cell, own_at(matrix, cell, second))
}

/// Adds the second line of a row, where it has a second cell.
fn put_second(
    alloc: Global,
    text: &mut Bytes,
    matrix: &Matrix<'_>,
    cell: &Cell<'_>,
) -> Result<(), AllocError>
    ensures { OnOk result (text.new ≡ text.old ++ Definitions.second_line matrix.now.config.now matrix.now.operation.now matrix.now.table.now
        cell.now.piece cell.now.class.now (option_copied cell.now.row)) }
{
    if is_split(matrix, cell) {
        put_cell(alloc, text, matrix, cell, true)
    } else {
        Ok(())
    }
}

/// Adds the lines of a row.
fn put_row(
    alloc: Global,
    text: &mut Bytes,
    matrix: &Matrix<'_>,
    cell: &Cell<'_>,
) -> Result<(), AllocError>
    ensures { OnOk result (text.new ≡ text.old ++ Definitions.row_lines matrix.now.config.now matrix.now.operation.now matrix.now.table.now
        cell.now.piece cell.now.class.now (option_copied cell.now.row)) }
{
    put_cell(alloc, text, matrix, cell, false)?;
    put_second(alloc, text, matrix, cell)
}

fn put_rows(
    alloc: Global,
    text: &mut Bytes,
    matrix: &Matrix<'_>,
    piece: u16,
    class: &Column,
    rows: &[Bytes],
) -> Result<(), AllocError>
    ensures { OnOk result (text.new ≡ text.old
        ++ flat_map (Definitions.user_lines matrix.now.config.now matrix.now.operation.now matrix.now.table.now piece class.now) rows.now) }
{
    for row in rows {
        let cell = Cell {
            row: Some(row.as_slice()),
            class,
            piece,
        };
        put_row(alloc, text, matrix, &cell)?;
    }
    Ok(())
}

/// Adds the lines of a class.
fn put_class(
    alloc: Global,
    text: &mut Bytes,
    matrix: &Matrix<'_>,
    piece: u16,
    class: &Column,
) -> Result<(), AllocError>
    ensures { OnOk result (text.new ≡ text.old
        ++ Definitions.class_lines matrix.now.config.now matrix.now.operation.now matrix.now.table.now piece class.now) }
{
    let nobody = Cell {
        row: None,
        class,
        piece,
    };
    put_row(alloc, text, matrix, &nobody)?;
    let rows = matrix.table.rows.as_slice();
    put_rows(alloc, text, matrix, piece, class, rows)
}

fn put_classes(
    alloc: Global,
    text: &mut Bytes,
    matrix: &Matrix<'_>,
    piece: u16,
    classes: &[Column],
) -> Result<(), AllocError>
    ensures { OnOk result (text.new ≡ text.old
        ++ flat_map (Definitions.class_lines matrix.now.config.now matrix.now.operation.now matrix.now.table.now piece) classes.now) }
{
    for class in classes {
        put_class(alloc, text, matrix, piece, class)?;
    }
    Ok(())
}

fn put_pieces(
    alloc: Global,
    text: &mut Bytes,
    matrix: &Matrix<'_>,
    pieces: &[u16],
) -> Result<(), AllocError>
    ensures { OnOk result (text.new ≡ text.old
        ++ flat_map (Definitions.piece_lines matrix.now.config.now matrix.now.operation.now matrix.now.table.now) pieces.now) }
{
    for piece in pieces {
        let classes = matrix.table.classes.as_slice();
        put_classes(alloc, text, matrix, *piece, classes)?;
    }
    Ok(())
}

/// Adds the names of the fields.
fn put_header(text: &mut Bytes) -> Result<(), AllocError>
    ensures { OnOk result (text.new ≡ text.old ++ Definitions.header) }
{
    text.extend(b"from,until,who,operation,whose,target,rule,verdict,goes\r\n")
}

/// The values of a table.
fn csv_of(alloc: Global, matrix: &Matrix<'_>) -> Result<Bytes, AllocError>
    ensures { IfOk result (λ text. text ≡ Definitions.csv_of matrix.now.config.now matrix.now.operation.now matrix.now.table.now) }
{
    let mut text = Bytes::new(alloc);
    put_header(&mut text)?;
    put_pieces(alloc, &mut text, matrix, matrix.table.pieces.as_slice())?;
    Ok(text)
}

/// The whole policy of a configuration for one operation as comma-separated values (RFC 4180): the names of the fields, and a line for each
/// cell of the table, two where the asker's own address has a value of its own. By the laws of this room no cell is left out and none stands
/// twice. `AllocError` is the only refusal.
pub fn csv_text(alloc: Global, config: &Config, operation: &Operation) -> Result<Bytes, AllocError>
    ensures { IfOk result (λ text. text ≡ Definitions.csv_text config.now operation.now) }
{
    let table = policy_table(alloc, config)?;
    let matrix = Matrix {
        config,
        operation,
        table: &table,
    };
    let text = csv_of(alloc, &matrix)?;
    Ok(text)
}
