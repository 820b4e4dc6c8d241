//! One file of HTML that needs no other, and in which no text of a configuration is markup.
ghost use Rattle.std.specs.Prelude.{◌≡◌, ◌++◌, IfOk, OnOk};
ghost use Rattle.std.specs.List.{flat_map};
ghost use Rattle.std.specs.Option.{option_copied};
ghost use Rattle.sipd_matrix_forms.specs.Html as Definitions;

use crate::csv::own_at;
use crate::outcome::{place_at, verdict_at};
use sip_config_types::Config;
use sip_matrix::{Column, PolicyTable};
use sip_policy::Operation;
use sip_text::{Bytes, Items, same_bytes};
use sipd_matrix::{
    Cell, Matrix, end_of, numbers_of, policy_table, put_clock, put_foot, put_legend, put_members,
    put_title,
};
use sipd_report::put_escaped;
use std::alloc::{AllocError, Global};

/// Before all texts: nothing may be loaded or run, and how cells are coloured.
const PAGE_BEGIN: &[u8] = b"\
    <!DOCTYPE html>\n<html lang=\"en\">\n<head>\n<meta charset=\"utf-8\">\n\
    <meta http-equiv=\"Content-Security-Policy\" content=\"default-src 'none'; style-src 'unsafe-inline'\">\n\
    <title>Who may ask for whom</title>\n<style>\n\
    body { font-family: sans-serif; margin: 2em; }\n\
    table { border-collapse: collapse; }\n\
    th, td { border: 1px solid #888; padding: 0.3em 0.6em; text-align: left; }\n\
    .allow, .via { background: #d8f0d8; }\n.deny { background: #f4d0d0; }\n\
    .challenge { background: #f8f0c8; }\n.nobody { background: #e0e0e0; }\n\
    </style>\n</head>\n<body>\n";

/// How deep the headings of a policy stand.
#[derive(Clone, Copy)]
pub enum Level {
    /// On a page of its own: `h1`, and `h2` for each piece of the day.
    Page,
    /// In a section of another page: `h3` and `h4`.
    Section,
}

/// The tags of its heading.
fn title_begin(level: Level) -> &'static [u8]
    ensures { result.now ≡ Definitions.title_begin level }
{
    match level {
        Level::Page => b"<h1>",
        Level::Section => b"<h3>",
    }
}

fn title_end(level: Level) -> &'static [u8]
    ensures { result.now ≡ Definitions.title_end level }
{
    match level {
        Level::Page => b"</h1>\n",
        Level::Section => b"</h3>\n",
    }
}

/// The same of a piece of the day.
fn piece_begin(level: Level) -> &'static [u8]
    ensures { result.now ≡ Definitions.piece_begin level }
{
    match level {
        Level::Page => b"<h2>",
        Level::Section => b"<h4>",
    }
}

fn piece_end(level: Level) -> &'static [u8]
    ensures { result.now ≡ Definitions.piece_end level }
{
    match level {
        Level::Page => b"</h2>\n",
        Level::Section => b"</h4>\n",
    }
}

/// The kind of a cell.
fn kind_of<'a>(verdict: &'a [u8], place: &[u8]) -> &'a [u8]
    ensures { result.now ≡ Definitions.kind_of verdict.now place.now }
{
    if same_bytes(place, b"nobody") {
        b"nobody"
    } else {
        verdict
    }
}

fn kind_at(matrix: &Matrix<'_>, cell: &Cell<'_>) -> &'static [u8]
    ensures { result.now ≡ Definitions.kind_at matrix.now.config.now matrix.now.operation.now cell.now.class.now cell.now.piece
        (option_copied cell.now.row) }
{
    let own = own_at(matrix, cell, false);
    let verdict = verdict_at(matrix, cell, own);
    let place = place_at(matrix, cell, own);
    kind_of(verdict, place)
}

/// Adds the text of a cell.
fn put_value(
    alloc: Global,
    text: &mut Bytes,
    matrix: &Matrix<'_>,
    cell: &Cell<'_>,
) -> Result<(), AllocError>
    ensures { OnOk result (text.new ≡ text.old ++ Definitions.value_text matrix.now.config.now matrix.now.operation.now matrix.now.table.now.columns
        cell.now.class.now cell.now.piece (option_copied cell.now.row)) }
{
    let mut value = Bytes::new(alloc);
    matrix.put_cell(&mut value, cell)?;
    put_escaped(text, value.as_slice())
}

/// Adds the beginning of a cell of a kind.
fn put_kind(text: &mut Bytes, kind: &[u8]) -> Result<(), AllocError>
    ensures { OnOk result (text.new ≡ text.old ++ Definitions.kind_text kind.now) }
{
    text.extend(b"<td class=\"")?;
    put_escaped(text, kind)?;
    text.extend(b"\">")
}

/// Adds a cell.
fn put_data(
    alloc: Global,
    text: &mut Bytes,
    matrix: &Matrix<'_>,
    cell: &Cell<'_>,
) -> Result<(), AllocError>
    ensures { OnOk result (text.new ≡ text.old ++ Definitions.data_cell matrix.now.config.now matrix.now.operation.now matrix.now.table.now.columns
        cell.now.class.now cell.now.piece (option_copied cell.now.row)) }
{
    put_kind(text, kind_at(matrix, cell))?;
    put_value(alloc, text, matrix, cell)?;
    text.extend(b"</td>")
}

fn put_users_data(
    alloc: Global,
    text: &mut Bytes,
    matrix: &Matrix<'_>,
    piece: u16,
    class: &Column,
    rows: &[Bytes],
) -> Result<(), AllocError>
    ensures { OnOk result (text.new ≡ text.old
        ++ flat_map (Definitions.user_cell matrix.now.config.now matrix.now.operation.now matrix.now.table.now.columns class.now piece) rows.now) }
{
    for row in rows {
        let cell = Cell {
            row: Some(row.as_slice()),
            class,
            piece,
        };
        put_data(alloc, text, matrix, &cell)?;
    }
    Ok(())
}

/// Adds the addresses of a class.
fn put_target(
    alloc: Global,
    text: &mut Bytes,
    config: &Config,
    columns: &[Column],
    class: &Column,
) -> Result<(), AllocError>
    ensures { OnOk result (text.new ≡ text.old ++ Definitions.target_cell config.now columns.now class.now) }
{
    let mut members = Bytes::new(alloc);
    put_members(&mut members, config, class, columns)?;
    text.extend(b"<td>")?;
    put_escaped(text, members.as_slice())?;
    text.extend(b"</td>")
}

/// Adds a line of the table.
fn put_class(
    alloc: Global,
    text: &mut Bytes,
    matrix: &Matrix<'_>,
    piece: u16,
    class: &Column,
) -> Result<(), AllocError>
    ensures { OnOk result (text.new ≡ text.old
        ++ Definitions.class_row matrix.now.config.now matrix.now.operation.now matrix.now.table.now piece class.now) }
{
    let nobody = Cell {
        row: None,
        class,
        piece,
    };
    let rows = matrix.table.rows.as_slice();
    let columns = matrix.table.columns.as_slice();
    text.extend(b"<tr>")?;
    put_data(alloc, text, matrix, &nobody)?;
    put_users_data(alloc, text, matrix, piece, class, rows)?;
    put_target(alloc, text, matrix.config, columns, class)?;
    text.extend(b"</tr>\n")
}

fn put_classes(
    alloc: Global,
    text: &mut Bytes,
    matrix: &Matrix<'_>,
    piece: u16,
    classes: &[Column],
) -> Result<(), AllocError>
    ensures { OnOk result (text.new ≡ text.old
        ++ flat_map (Definitions.class_row matrix.now.config.now matrix.now.operation.now matrix.now.table.now piece) classes.now) }
{
    for class in classes {
        put_class(alloc, text, matrix, piece, class)?;
    }
    Ok(())
}

fn put_head_cell(text: &mut Bytes, name: &[u8]) -> Result<(), AllocError>
    ensures { OnOk result (text.new ≡ text.old ++ Definitions.head_cell name.now) }
{
    text.extend(b"<th>")?;
    put_escaped(text, name)?;
    text.extend(b"</th>")
}

fn put_head_cells(text: &mut Bytes, rows: &[Bytes]) -> Result<(), AllocError>
    ensures { OnOk result (text.new ≡ text.old ++ flat_map Definitions.head_cell rows.now) }
{
    for row in rows {
        put_head_cell(text, row.as_slice())?;
    }
    Ok(())
}

/// Adds who asks, above the cells.
fn put_head(text: &mut Bytes, table: &PolicyTable) -> Result<(), AllocError>
    ensures { OnOk result (text.new ≡ text.old ++ Definitions.head_row table.now) }
{
    text.extend(b"<tr><th>nobody</th>")?;
    put_head_cells(text, table.rows.as_slice())?;
    text.extend(b"<th>asks for</th></tr>\n")
}

fn put_piece_title(
    text: &mut Bytes,
    level: Level,
    table: &PolicyTable,
    piece: u16,
) -> Result<(), AllocError>
    ensures { OnOk result (text.new ≡ text.old ++ Definitions.piece_title level table.now piece) }
{
    text.extend(piece_begin(level))?;
    put_clock(text, piece)?;
    text.extend(b"-")?;
    put_clock(text, end_of(table.pieces.as_slice(), piece))?;
    text.extend(piece_end(level))
}

/// Adds a piece of the day.
fn put_piece(
    alloc: Global,
    text: &mut Bytes,
    level: Level,
    matrix: &Matrix<'_>,
    piece: u16,
) -> Result<(), AllocError>
    ensures { OnOk result (text.new ≡ text.old ++ Definitions.piece_table level matrix.now.config.now matrix.now.operation.now matrix.now.table.now piece) }
{
    put_piece_title(text, level, matrix.table, piece)?;
    text.extend(b"<table>\n")?;
    put_head(text, matrix.table)?;
    let classes = matrix.table.classes.as_slice();
    put_classes(alloc, text, matrix, piece, classes)?;
    text.extend(b"</table>\n")
}

fn put_pieces(
    alloc: Global,
    text: &mut Bytes,
    level: Level,
    matrix: &Matrix<'_>,
    pieces: &[u16],
) -> Result<(), AllocError>
    ensures { OnOk result (text.new ≡ text.old
        ++ flat_map (Definitions.piece_table level matrix.now.config.now matrix.now.operation.now matrix.now.table.now) pieces.now) }
{
    for piece in pieces {
        put_piece(alloc, text, level, matrix, *piece)?;
    }
    Ok(())
}

/// Adds a text line by line, none of which is markup.
pub fn put_block(text: &mut Bytes, block: &[u8]) -> Result<(), AllocError>
    ensures { OnOk result (text.new ≡ text.old ++ Definitions.text_block block.now) }
{
    text.extend(b"<pre>")?;
    put_escaped(text, block)?;
    text.extend(b"</pre>\n")
}

/// Adds what the table is of.
fn put_heading(
    alloc: Global,
    text: &mut Bytes,
    level: Level,
    config: &Config,
    operation: &Operation,
) -> Result<(), AllocError>
    ensures { OnOk result (text.new ≡ text.old ++ Definitions.heading level config.now operation.now) }
{
    let mut title = Bytes::new(alloc);
    put_title(&mut title, config, operation)?;
    text.extend(title_begin(level))?;
    put_escaped(text, title.as_slice())?;
    text.extend(title_end(level))
}

/// Adds what the signs in the cells mean.
fn put_signs(alloc: Global, text: &mut Bytes) -> Result<(), AllocError>
    ensures { OnOk result (text.new ≡ text.old ++ Definitions.signs) }
{
    let mut legend = Bytes::new(alloc);
    put_legend(&mut legend)?;
    put_block(text, legend.as_slice())
}

/// Adds what stands under the cells.
fn put_under(
    alloc: Global,
    text: &mut Bytes,
    matrix: &Matrix<'_>,
    numbers: &Items<u32>,
) -> Result<(), AllocError>
    ensures { OnOk result (text.new ≡ text.old ++ Definitions.under matrix.now.config.now matrix.now.operation.now matrix.now.table.now numbers.now) }
{
    let mut foot = Bytes::new(alloc);
    put_foot(&mut foot, matrix, numbers)?;
    put_block(text, foot.as_slice())
}

/// Adds what stands before all texts.
fn put_begin(text: &mut Bytes) -> Result<(), AllocError>
    ensures { OnOk result (text.new ≡ text.old ++ Definitions.page_begin) }
{
    text.extend(PAGE_BEGIN)
}

/// Adds what stands behind all texts.
fn put_page_end(text: &mut Bytes) -> Result<(), AllocError>
    ensures { OnOk result (text.new ≡ text.old ++ Definitions.page_end) }
{
    text.extend(b"</body>\n</html>\n")
}

/// Adds what a table says, behind what was found of its rules.
fn put_table(
    alloc: Global,
    text: &mut Bytes,
    level: Level,
    matrix: &Matrix<'_>,
    numbers: &Items<u32>,
) -> Result<(), AllocError>
    ensures { OnOk result (text.new ≡ text.old
        ++ Definitions.table_text level matrix.now.config.now matrix.now.operation.now matrix.now.table.now numbers.now) }
{
    put_heading(alloc, text, level, matrix.config, matrix.operation)?;
    put_signs(alloc, text)?;
    put_pieces(alloc, text, level, matrix, matrix.table.pieces.as_slice())?;
    put_under(alloc, text, matrix, numbers)
}

/// The same of a table whose rules are still to be found.
fn put_table_of(
    alloc: Global,
    text: &mut Bytes,
    level: Level,
    matrix: &Matrix<'_>,
) -> Result<(), AllocError>
    ensures { OnOk result (text.new ≡ text.old ++ Definitions.policy_of level matrix.now.config.now matrix.now.operation.now matrix.now.table.now) }
{
    let numbers = numbers_of(alloc, matrix)?;
    put_table(alloc, text, level, matrix, &numbers)
}

/// Adds the whole policy of a configuration for one operation, without the beginning and the end of a page: under headings of a level, the cells of
/// the table, and what stands under it. Each text of the configuration is escaped, so that none is markup (law `no_text_is_markup` of
/// `sipd_report`). `AllocError` is the only refusal.
pub fn put_policy(
    alloc: Global,
    text: &mut Bytes,
    level: Level,
    config: &Config,
    operation: &Operation,
) -> Result<(), AllocError>
    ensures { OnOk result (text.new ≡ text.old ++ Definitions.policy_text level config.now operation.now) }
{
    let table = policy_table(alloc, config)?;
    let matrix = Matrix {
        config,
        operation,
        table: &table,
    };
    put_table_of(alloc, text, level, &matrix)
}

/// The whole policy of a configuration for one operation as one file of HTML, without a script and without anything of the net: the cells of
/// the table, coloured by what comes of them, and what stands under it. By the laws of this room no text of the configuration is markup.
/// `AllocError` is the only refusal.
pub fn html_text(alloc: Global, config: &Config, operation: &Operation) -> Result<Bytes, AllocError>
    ensures { IfOk result (λ text. text ≡ Definitions.html_text config.now operation.now) }
{
    let mut text = Bytes::new(alloc);
    put_begin(&mut text)?;
    put_policy(alloc, &mut text, Level::Page, config, operation)?;
    put_page_end(&mut text)?;
    Ok(text)
}
