//! The words of the text: fields, numbers, times, and columns by their addresses.
ghost use Rattle.std.specs.Prelude.{◌≡◌, ◌++◌, find, nat_lt, OnOk};
ghost use Rattle.sipd_matrix.specs.Text as Definitions;

use sip_matrix::Column;
use sip_policy::Operation;
use sip_text::Bytes;
use std::alloc::AllocError;

/// The minutes of a day.
const DAY: u16 = 1_440;

/// The blanks of an empty field.
const BLANKS: &[u8] = b"          ";

/// Adds two texts. `AllocError` is the only refusal.
pub fn put_both(text: &mut Bytes, first: &[u8], second: &[u8]) -> Result<(), AllocError>
    ensures { OnOk result (text.new ≡ text.old ++ first.now ++ second.now) }
{
    text.extend(first)?;
    text.extend(second)
}

/// The blanks that fill a field behind so many bytes.
fn blanks_behind(length: usize) -> &'static [u8]
    ensures { result.now ≡ Definitions.blanks_behind length }
{
    if length >= 10 {
        return b"";
    }
    let (_, rest) = BLANKS.split_at(length);
    rest
}

/// Adds a word in a field of ten, and a blank behind it.
pub(crate) fn put_padded(text: &mut Bytes, word: &[u8]) -> Result<(), AllocError>
    ensures { OnOk result (text.new ≡ text.old ++ Definitions.padded word.now) }
{
    text.extend(word)?;
    text.extend(blanks_behind(word.len()))?;
    text.extend(b" ")
}

/// Adds a whole number in decimal.
pub(crate) fn put_signed(text: &mut Bytes, number: i16) -> Result<(), AllocError>
    ensures { OnOk result (text.new ≡ text.old ++ Definitions.signed number) }
{
    if number < 0 {
        text.push(b'-')?;
    }
    text.push_decimal(u64::from(number.unsigned_abs()))
}

/// Adds a minute of the day, as `8:05`. `AllocError` is the only refusal.
pub fn put_clock(text: &mut Bytes, minute: u16) -> Result<(), AllocError>
    ensures { OnOk result (text.new ≡ text.old ++ Definitions.clock_text minute) }
{
    text.push_decimal(u64::from(minute / 60))?;
    text.extend(b":")?;
    text.push_decimal(u64::from(minute % 60 / 10))?;
    text.push_decimal(u64::from(minute % 10))
}

/// The first minute of the next piece of the day, if there is one.
fn next_of(pieces: &[u16], piece: u16) -> Option<u16>
    ensures { result ≡ find (λ next. nat_lt piece next) pieces.now }
{
    for next in pieces {
        if piece < *next {
            return Some(*next);
        }
    }
    None
}

/// Where a piece of the day ends: at the minute where the next of them begins, or at midnight. Takes no memory.
pub fn end_of(pieces: &[u16], piece: u16) -> u16
    ensures { result ≡ Definitions.end_of pieces.now piece }
{
    match next_of(pieces, piece) {
        Some(next) => next,
        None => DAY,
    }
}

/// What is asked for, by its word. Takes no memory.
pub fn operation_word(operation: &Operation) -> &[u8]
    ensures { result.now ≡ Definitions.operation_word operation.now }
{
    match operation {
        Operation::Register => b"register",
        Operation::List => b"list",
        Operation::Send(method) => method.as_slice(),
    }
}

/// Adds the addresses of a column. `AllocError` is the only refusal.
pub fn put_column(text: &mut Bytes, column: &Column) -> Result<(), AllocError>
    ensures { OnOk result (text.new ≡ text.old ++ Definitions.column_text column.now) }
{
    match column {
        Column::Named(aor) => {
            put_both(text, aor.user.as_slice(), b"@")?;
            text.extend(aor.host.as_slice())
        }
        Column::Begins(aor) => {
            put_both(text, aor.user.as_slice(), b"*@")?;
            text.extend(aor.host.as_slice())
        }
        Column::Elsewhere => text.extend(b"any other host"),
    }
}
