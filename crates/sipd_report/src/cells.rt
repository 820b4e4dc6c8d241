//! A row of a report as text: columns of a table, or fields of CSV (RFC 4180). What its cells say is made in `row`.
ghost use Rattle.std.specs.Prelude.{◌≡◌, ◌++◌, ◌-◌, replicate, OnOk, IfOk};
ghost use Rattle.std.specs.List.{flat_map, list_any};
ghost use Rattle.sipd_report.specs.Cells as Definitions;
ghost use Rattle.sipd_report.specs.Rows.{no_cells};

use crate::query::Form;
use sip_text::Bytes;
use std::alloc::{AllocError, Global};

/// The cells of a row.
pub(crate) struct Cells {
    pub time: Bytes,
    pub number: Bytes,
    pub method: Bytes,
    pub user: Bytes,
    pub target: Bytes,
    pub operation: Bytes,
    pub rule: Bytes,
    pub outcome: Bytes,
    pub minute: Bytes,
}

/// Written out, so that it is proved once and not wherever they are dropped.
impl Drop for Cells {
    fn drop(self) {
        let Cells {
            time: _,
            number: _,
            method: _,
            user: _,
            target: _,
            operation: _,
            rule: _,
            outcome: _,
            minute: _,
        } = self;
    }
}

impl Cells {
    /// No text in any cell. Takes no memory.
    pub(crate) fn new(alloc: Global) -> Cells
        ensures { result ≡ no_cells }
    {
        Cells {
            time: Bytes::new(alloc),
            number: Bytes::new(alloc),
            method: Bytes::new(alloc),
            user: Bytes::new(alloc),
            target: Bytes::new(alloc),
            operation: Bytes::new(alloc),
            rule: Bytes::new(alloc),
            outcome: Bytes::new(alloc),
            minute: Bytes::new(alloc),
        }
    }
}

/// Adds spaces.
fn push_spaces(row: &mut Bytes, count: usize) -> Result<(), AllocError>
    ensures { OnOk result (row.new ≡ row.old ++ replicate count 32) }
{
    for _ in 0..count {
        row.push(b' ')?;
    }
    Ok(())
}

/// Adds a text with spaces behind it up to a width; a longer one isn't cut.
pub fn push_padded(row: &mut Bytes, width: usize, text: &[u8]) -> Result<(), AllocError>
    ensures { OnOk result (row.new ≡ row.old ++ Definitions.padded width text.now) }
{
    row.extend(text)?;
    push_spaces(row, width.saturating_sub(text.len()))
}

/// Whether a field with this byte is quoted.
fn is_special(byte: u8) -> bool
    ensures { result ≡ Definitions.is_special byte }
{
    byte == b'"' || byte == b',' || byte == b'\r' || byte == b'\n'
}

fn has_special(text: &[u8]) -> bool
    ensures { result ≡ list_any Definitions.is_special text.now }
{
    text.iter().any(|byte| is_special(*byte))
}

fn push_quoted_byte(row: &mut Bytes, byte: u8) -> Result<(), AllocError>
    ensures { OnOk result (row.new ≡ row.old ++ Definitions.quoted_byte byte) }
{
    if byte == b'"' {
        row.push(byte)?;
    }
    row.push(byte)
}

fn push_quoted(row: &mut Bytes, text: &[u8]) -> Result<(), AllocError>
    ensures { OnOk result (row.new ≡ row.old ++ flat_map Definitions.quoted_byte text.now) }
{
    for byte in text {
        push_quoted_byte(row, *byte)?;
    }
    Ok(())
}

/// Adds a field of comma-separated values, quoted where it has to be (RFC 4180 2.5 to 2.7). `AllocError` is the only refusal.
pub fn push_field(row: &mut Bytes, text: &[u8]) -> Result<(), AllocError>
    ensures { OnOk result (row.new ≡ row.old ++ Definitions.field_text text.now) }
{
    if !has_special(text) {
        return row.extend(text);
    }
    row.push(b'"')?;
    push_quoted(row, text)?;
    row.push(b'"')
}

/// Adds a cell that others follow.
fn push_cell(row: &mut Bytes, form: Form, width: usize, text: &[u8]) -> Result<(), AllocError>
    ensures { OnOk result (row.new ≡ row.old ++ Definitions.cell_text form width text.now) }
{
    match form {
        Form::Table => {
            push_padded(row, width, text)?;
            row.extend(b"  ")
        }
        Form::Csv => {
            push_field(row, text)?;
            row.push(b',')
        }
    }
}

/// Adds the last cell, and the row's end.
fn push_last_cell(row: &mut Bytes, form: Form, text: &[u8]) -> Result<(), AllocError>
    ensures { OnOk result (row.new ≡ row.old ++ Definitions.last_cell_text form text.now) }
{
    match form {
        Form::Table => {
            row.extend(text)?;
            row.push(b'\n')
        }
        Form::Csv => {
            push_field(row, text)?;
            row.extend(b"\r\n")
        }
    }
}

/// Adds the cells of what asked.
fn push_request(
    row: &mut Bytes,
    form: Form,
    time: &[u8],
    number: &[u8],
    method: &[u8],
    user: &[u8],
) -> Result<(), AllocError>
    ensures { OnOk result (row.new ≡ row.old ++ Definitions.cell_text form 25 time.now ++ Definitions.cell_text form 8 number.now
        ++ Definitions.cell_text form 9 method.now ++ Definitions.cell_text form 16 user.now) }
{
    push_cell(row, form, 25, time)?;
    push_cell(row, form, 8, number)?;
    push_cell(row, form, 9, method)?;
    push_cell(row, form, 16, user)
}

/// Adds the cells of what it asked for, and what became of it.
fn push_decision(
    row: &mut Bytes,
    form: Form,
    target: &[u8],
    operation: &[u8],
    rule: &[u8],
    outcome: &[u8],
) -> Result<(), AllocError>
    ensures { OnOk result (row.new ≡ row.old ++ Definitions.cell_text form 32 target.now ++ Definitions.cell_text form 9 operation.now
        ++ Definitions.cell_text form 6 rule.now ++ Definitions.cell_text form 14 outcome.now) }
{
    push_cell(row, form, 32, target)?;
    push_cell(row, form, 9, operation)?;
    push_cell(row, form, 6, rule)?;
    push_cell(row, form, 14, outcome)
}

/// A row.
pub(crate) fn row_text(alloc: Global, form: Form, cells: &Cells) -> Result<Bytes, AllocError>
    ensures { IfOk result (λ row. row ≡ Definitions.row_text form «cells».now) }
{
    let mut row = Bytes::with_room(alloc, 160)?;
    push_request(
        &mut row,
        form,
        cells.time.as_slice(),
        cells.number.as_slice(),
        cells.method.as_slice(),
        cells.user.as_slice(),
    )?;
    push_decision(
        &mut row,
        form,
        cells.target.as_slice(),
        cells.operation.as_slice(),
        cells.rule.as_slice(),
        cells.outcome.as_slice(),
    )?;
    push_last_cell(&mut row, form, cells.minute.as_slice())?;
    Ok(row)
}

/// The row with the names of the columns.
pub(crate) fn heading(alloc: Global, form: Form) -> Result<Bytes, AllocError>
    ensures { IfOk result (λ row. row ≡ Definitions.row_text form Definitions.column_names) }
{
    let mut row = Bytes::with_room(alloc, 160)?;
    push_request(&mut row, form, b"time", b"number", b"method", b"user")?;
    push_decision(&mut row, form, b"target", b"operation", b"rule", b"outcome")?;
    push_last_cell(&mut row, form, b"minute")?;
    Ok(row)
}
