//! The numbers of the rules that decide in some cell.
ghost use Rattle.std.specs.Prelude.{◌≡◌, ◌++◌, IfOk, OnOk};
ghost use Rattle.std.specs.List.{flat_map};
ghost use Rattle.sipd_matrix.specs.Cells as Definitions;

use crate::cell::Cell;
use crate::cells::{are_known, has_others, has_own, number_at};
use crate::matrix::Matrix;
use sip_matrix::Column;
use sip_text::{Bytes, Items};
use std::alloc::{AllocError, Global};

/// Adds that of a cell of a row of users, about others' addresses, where one may be asked for.
fn add_others(
    numbers: &mut Items<u32>,
    matrix: &Matrix<'_>,
    piece: u16,
    class: &Column,
    row: &[u8],
) -> Result<(), AllocError>
    ensures { OnOk result (numbers.new ≡ numbers.old ++ Definitions.number_of_others matrix.now.config.now matrix.now.operation.now
        matrix.now.table.now.columns class.now piece row.now) }
{
    let columns = matrix.table.columns.as_slice();
    if !has_others(matrix.config, columns, class, row) {
        return Ok(());
    }
    let cell = Cell {
        row: Some(row),
        class,
        piece,
    };
    numbers.push(number_at(matrix.config, matrix.operation, &cell, false))
}

/// Adds that about own ones, where one may be asked for.
fn add_own(
    numbers: &mut Items<u32>,
    matrix: &Matrix<'_>,
    piece: u16,
    class: &Column,
    row: &[u8],
) -> Result<(), AllocError>
    ensures { OnOk result (numbers.new ≡ numbers.old ++ Definitions.number_of_own matrix.now.config.now matrix.now.operation.now
        matrix.now.table.now.columns class.now piece row.now) }
{
    let columns = matrix.table.columns.as_slice();
    if !has_own(matrix.config, columns, class, row) {
        return Ok(());
    }
    let cell = Cell {
        row: Some(row),
        class,
        piece,
    };
    numbers.push(number_at(matrix.config, matrix.operation, &cell, true))
}

/// Adds those of a cell of a row of users.
fn add_row(
    numbers: &mut Items<u32>,
    matrix: &Matrix<'_>,
    piece: u16,
    class: &Column,
    row: &[u8],
) -> Result<(), AllocError>
    ensures { OnOk result (numbers.new ≡ numbers.old ++ Definitions.numbers_of_row matrix.now.config.now matrix.now.operation.now
        matrix.now.table.now.columns class.now piece row.now) }
{
    add_others(numbers, matrix, piece, class, row)?;
    add_own(numbers, matrix, piece, class, row)
}

fn add_rows(
    numbers: &mut Items<u32>,
    matrix: &Matrix<'_>,
    piece: u16,
    class: &Column,
    rows: &[Bytes],
) -> Result<(), AllocError>
    ensures { OnOk result (numbers.new ≡ numbers.old ++ flat_map (Definitions.numbers_of_row matrix.now.config.now matrix.now.operation.now
        matrix.now.table.now.columns class.now piece) rows.now) }
{
    for row in rows {
        add_row(numbers, matrix, piece, class, row.as_slice())?;
    }
    Ok(())
}

/// Adds those of all rows, for a class.
fn add_class(
    numbers: &mut Items<u32>,
    matrix: &Matrix<'_>,
    piece: u16,
    class: &Column,
) -> Result<(), AllocError>
    ensures { OnOk result (numbers.new ≡ numbers.old
        ++ Definitions.numbers_of_class matrix.now.config.now matrix.now.operation.now matrix.now.table.now piece class.now) }
{
    let nobody = Cell {
        row: None,
        class,
        piece,
    };
    let known = are_known(matrix.config, class);
    numbers.push(number_at(matrix.config, matrix.operation, &nobody, known))?;
    add_rows(numbers, matrix, piece, class, matrix.table.rows.as_slice())
}

/// Adds those of some classes, in a piece of the day.
fn add_classes(
    numbers: &mut Items<u32>,
    matrix: &Matrix<'_>,
    piece: u16,
    classes: &[Column],
) -> Result<(), AllocError>
    ensures { OnOk result (numbers.new ≡ numbers.old
        ++ flat_map (Definitions.numbers_of_class matrix.now.config.now matrix.now.operation.now matrix.now.table.now piece) classes.now) }
{
    for class in classes {
        add_class(numbers, matrix, piece, class)?;
    }
    Ok(())
}

/// Adds those of some pieces of the day.
fn add_pieces(
    numbers: &mut Items<u32>,
    matrix: &Matrix<'_>,
    pieces: &[u16],
) -> Result<(), AllocError>
    ensures { OnOk result (numbers.new ≡ numbers.old
        ++ flat_map (Definitions.numbers_of_piece matrix.now.config.now matrix.now.operation.now matrix.now.table.now) pieces.now) }
{
    for piece in pieces {
        add_classes(numbers, matrix, *piece, matrix.table.classes.as_slice())?;
    }
    Ok(())
}

/// The numbers of the rules that decide in some cell, each as often as it decides. `AllocError` is the only refusal.
pub fn numbers_of(alloc: Global, matrix: &Matrix<'_>) -> Result<Items<u32>, AllocError>
    ensures { IfOk result (λ numbers. numbers
        ≡ Definitions.numbers_of matrix.now.config.now matrix.now.operation.now matrix.now.table.now) }
{
    let mut numbers = Items::new(alloc);
    add_pieces(&mut numbers, matrix, matrix.table.pieces.as_slice())?;
    Ok(numbers)
}
