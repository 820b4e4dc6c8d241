//! The lines of a change, and all of them.
ghost use Rattle.std.specs.Prelude.{◌≡◌, ◌++◌, IfOk, OnOk};
ghost use Rattle.std.specs.List.{flat_map};
ghost use Rattle.std.specs.Option.{option_copied};
ghost use Rattle.sipd_matrix_changes.specs.Lines as Definitions;

use crate::both_configurations::{ask_alike, proven_to};
use crate::change::{Change, own_to};
use crate::table::{are_asked_alike, table_of};
use sip_config_types::Config;
use sip_matrix::Column;
use sip_policy::{Operation, User};
use sip_text::Bytes;
use sipd_matrix::{Cell, end_of, put_both, put_clock, put_column, put_value};
use std::alloc::{AllocError, Global};

/// Adds a piece of the day.
fn put_span(text: &mut Bytes, pieces: &[u16], piece: u16) -> Result<(), AllocError>
    ensures { OnOk result (text.new ≡ text.old ++ Definitions.span_text pieces.now piece) }
{
    put_clock(text, piece)?;
    text.extend(b"-")?;
    put_clock(text, end_of(pieces, piece))
}

/// Adds what a configuration says in a cell.
fn put_value_of(
    text: &mut Bytes,
    config: &Config,
    operation: &Operation,
    cell: &Cell<'_>,
    own: bool,
) -> Result<(), AllocError>
    ensures { OnOk result (text.new ≡ text.old ++ Definitions.value_of config.now operation.now (option_copied cell.now.row) cell.now.class.now own
        cell.now.piece) }
{
    let own = own_to(config, cell, own);
    let asked = Cell {
        row: proven_to(config, cell.row),
        class: cell.class,
        piece: cell.piece,
    };
    put_value(text, config, operation, &asked, own)
}

/// Adds a user behind a blank, if he asks as a row does.
fn put_user(
    text: &mut Bytes,
    old: &Config,
    new: &Config,
    row: &[u8],
    user: &User,
) -> Result<(), AllocError>
    ensures { OnOk result (text.new ≡ text.old ++ Definitions.user_text old.now new.now row.now user.now) }
{
    if ask_alike(old, new, row, user.name.as_slice()) {
        put_both(text, b" ", user.name.as_slice())
    } else {
        Ok(())
    }
}

fn put_old_users(
    text: &mut Bytes,
    old: &Config,
    new: &Config,
    row: &[u8],
    users: &[User],
) -> Result<(), AllocError>
    ensures { OnOk result (text.new ≡ text.old ++ flat_map (Definitions.user_text old.now new.now row.now) users.now) }
{
    for user in users {
        put_user(text, old, new, row, user)?;
    }
    Ok(())
}

/// The same of a user of the new configuration, unless he is one of the old.
fn put_new_user(
    text: &mut Bytes,
    old: &Config,
    new: &Config,
    row: &[u8],
    user: &User,
) -> Result<(), AllocError>
    ensures { OnOk result (text.new ≡ text.old ++ Definitions.new_user_text old.now new.now row.now user.now) }
{
    if old.users.has_name(user.name.as_slice()) {
        Ok(())
    } else {
        put_user(text, old, new, row, user)
    }
}

fn put_new_users(
    text: &mut Bytes,
    old: &Config,
    new: &Config,
    row: &[u8],
    users: &[User],
) -> Result<(), AllocError>
    ensures { OnOk result (text.new ≡ text.old ++ flat_map (Definitions.new_user_text old.now new.now row.now) users.now) }
{
    for user in users {
        put_new_user(text, old, new, row, user)?;
    }
    Ok(())
}

/// Adds who asks.
fn put_row(
    text: &mut Bytes,
    old: &Config,
    new: &Config,
    row: Option<&[u8]>,
) -> Result<(), AllocError>
    ensures { OnOk result (text.new ≡ text.old ++ Definitions.row_text old.now new.now (option_copied row.entry)) }
{
    match row {
        None => text.extend(b" nobody"),
        Some(row) => {
            put_old_users(text, old, new, row, old.users.as_slice())?;
            put_new_users(text, old, new, row, new.users.as_slice())
        }
    }
}

/// For whom.
fn target_words(own: bool, some_own: bool) -> &'static [u8]
    ensures { result.now ≡ Definitions.target_words own some_own }
{
    if own {
        return b" for their own of";
    }
    if some_own {
        b" for another of"
    } else {
        b" for"
    }
}

/// Adds a column behind a blank, if it is of a class.
fn put_member(
    text: &mut Bytes,
    old: &Config,
    new: &Config,
    class: &Column,
    column: &Column,
) -> Result<(), AllocError>
    ensures { OnOk result (text.new ≡ text.old ++ Definitions.member_text old.now new.now class.now column.now) }
{
    if !are_asked_alike(old, new, class, column) {
        return Ok(());
    }
    text.extend(b" ")?;
    put_column(text, column)
}

fn put_members(
    text: &mut Bytes,
    old: &Config,
    new: &Config,
    class: &Column,
    columns: &[Column],
) -> Result<(), AllocError>
    ensures { OnOk result (text.new ≡ text.old ++ flat_map (Definitions.member_text old.now new.now class.now) columns.now) }
{
    for column in columns {
        put_member(text, old, new, class, column)?;
    }
    Ok(())
}

/// Adds both rules.
fn put_values(
    text: &mut Bytes,
    change: &Change<'_>,
    cell: &Cell<'_>,
    own: bool,
) -> Result<(), AllocError>
    ensures { OnOk result (text.new ≡ text.old ++ Definitions.values_text change.now.old.now change.now.new.now change.now.operation.now
        (option_copied cell.now.row) cell.now.class.now own cell.now.piece) }
{
    put_value_of(text, change.old, change.operation, cell, own)?;
    text.extend(b" becomes ")?;
    put_value_of(text, change.new, change.operation, cell, own)
}

/// Adds who asks for whom.
fn put_askers(
    text: &mut Bytes,
    change: &Change<'_>,
    cell: &Cell<'_>,
    own: bool,
) -> Result<(), AllocError>
    ensures { OnOk result (text.new ≡ text.old ++ Definitions.askers_text change.now.old.now change.now.new.now change.now.table.now.columns
        cell.now.class.now (option_copied cell.now.row) own) }
{
    text.extend(b" as")?;
    put_row(text, change.old, change.new, cell.row)?;
    let some_own = change.has_question(cell, true);
    text.extend(target_words(own, some_own))?;
    let columns = change.table.columns.as_slice();
    put_members(text, change.old, change.new, cell.class, columns)
}

/// Adds the line of a cell.
fn put_cell(
    text: &mut Bytes,
    change: &Change<'_>,
    cell: &Cell<'_>,
    own: bool,
) -> Result<(), AllocError>
    ensures { OnOk result (text.new ≡ text.old
        ++ Definitions.cell_line change.now.old.now change.now.new.now change.now.operation.now change.now.table.now
        cell.now.piece cell.now.class.now (option_copied cell.now.row) own) }
{
    put_span(text, change.table.pieces.as_slice(), cell.piece)?;
    text.extend(b" ")?;
    put_values(text, change, cell, own)?;
    put_askers(text, change, cell, own)?;
    text.push(b'\n')
}

/// The same, if the cell is told: it has questions, of which the two make something else.
fn put_own(
    alloc: Global,
    text: &mut Bytes,
    change: &Change<'_>,
    cell: &Cell<'_>,
    own: bool,
) -> Result<(), AllocError>
    ensures { OnOk result (text.new ≡ text.old
        ++ Definitions.own_line change.now.old.now change.now.new.now change.now.operation.now change.now.table.now
        cell.now.piece cell.now.class.now (option_copied cell.now.row) own) }
{
    if !change.has_question(cell, own) {
        return Ok(());
    }
    if change.is_changed_in(alloc, cell, own)? {
        put_cell(text, change, cell, own)
    } else {
        Ok(())
    }
}

/// Adds the lines of a row: for other addresses, and for own ones.
fn put_both_of(
    alloc: Global,
    text: &mut Bytes,
    change: &Change<'_>,
    cell: &Cell<'_>,
) -> Result<(), AllocError>
    ensures { OnOk result (text.new ≡ text.old
        ++ Definitions.row_lines change.now.old.now change.now.new.now change.now.operation.now change.now.table.now
        cell.now.piece cell.now.class.now (option_copied cell.now.row)) }
{
    put_own(alloc, text, change, cell, false)?;
    put_own(alloc, text, change, cell, true)
}

fn put_rows(
    alloc: Global,
    text: &mut Bytes,
    change: &Change<'_>,
    piece: u16,
    class: &Column,
    rows: &[Bytes],
) -> Result<(), AllocError>
    ensures { OnOk result (text.new ≡ text.old
        ++ flat_map (Definitions.user_lines change.now.old.now change.now.new.now change.now.operation.now change.now.table.now piece class.now) rows.now) }
{
    for row in rows {
        let cell = Cell {
            row: Some(row.as_slice()),
            class,
            piece,
        };
        put_both_of(alloc, text, change, &cell)?;
    }
    Ok(())
}

/// Adds the lines of a class.
fn put_class(
    alloc: Global,
    text: &mut Bytes,
    change: &Change<'_>,
    piece: u16,
    class: &Column,
) -> Result<(), AllocError>
    ensures { OnOk result (text.new ≡ text.old
        ++ Definitions.class_lines change.now.old.now change.now.new.now change.now.operation.now change.now.table.now piece class.now) }
{
    let nobody = Cell {
        row: None,
        class,
        piece,
    };
    put_both_of(alloc, text, change, &nobody)?;
    let rows = change.table.rows.as_slice();
    put_rows(alloc, text, change, piece, class, rows)
}

fn put_classes(
    alloc: Global,
    text: &mut Bytes,
    change: &Change<'_>,
    piece: u16,
    classes: &[Column],
) -> Result<(), AllocError>
    ensures { OnOk result (text.new ≡ text.old
        ++ flat_map (Definitions.class_lines change.now.old.now change.now.new.now change.now.operation.now change.now.table.now piece) classes.now) }
{
    for class in classes {
        put_class(alloc, text, change, piece, class)?;
    }
    Ok(())
}

fn put_pieces(
    alloc: Global,
    text: &mut Bytes,
    change: &Change<'_>,
    pieces: &[u16],
) -> Result<(), AllocError>
    ensures { OnOk result (text.new ≡ text.old
        ++ flat_map (Definitions.piece_lines change.now.old.now change.now.new.now change.now.operation.now change.now.table.now) pieces.now) }
{
    for piece in pieces {
        let classes = change.table.classes.as_slice();
        put_classes(alloc, text, change, *piece, classes)?;
    }
    Ok(())
}

/// The lines of the table of both.
fn lines_of(alloc: Global, change: &Change<'_>) -> Result<Bytes, AllocError>
    ensures { IfOk result (λ text. text ≡ Definitions.lines_of change.now.old.now change.now.new.now change.now.operation.now change.now.table.now) }
{
    let mut text = Bytes::new(alloc);
    put_pieces(alloc, &mut text, change, change.table.pieces.as_slice())?;
    Ok(text)
}

/// What changes of an operation where a new configuration takes the place of an old one: a line for each cell of both together whose
/// questions go elsewhere, or are denied or asked for a proof as they weren't, with both rules; nothing where there is none. By the laws of
/// this room a question is of a cell that is told exactly where it is decided otherwise. `AllocError` is the only refusal.
pub fn changes_text(
    alloc: Global,
    old: &Config,
    new: &Config,
    operation: &Operation,
) -> Result<Bytes, AllocError>
    ensures { IfOk result (λ text. text ≡ Definitions.changes_text old.now new.now operation.now) }
{
    let table = table_of(alloc, old, new)?;
    let change = Change {
        old,
        new,
        operation,
        table: &table,
    };
    let text = lines_of(alloc, &change)?;
    Ok(text)
}
