//! What a drawing is put together from.
ghost use Rattle.std.specs.Prelude.{◌≡◌, ◌++◌, decimal, OnOk};
ghost use Rattle.sipd_ladder_picture.specs.Parts as Definitions;

use sip_text::Bytes;
use sipd_ladder::{Arrow, push_plain, push_seconds};
use sipd_report::put_escaped;
use std::alloc::{AllocError, Global};

/// Where the line of a place stands.
pub(crate) fn line_of(place: usize) -> u128
    ensures { result ≡ Definitions.line_of place }
{
    if place == 0 {
        130
    } else {
        360 + 230 * (place as u128)
    }
}

/// Where a row stands.
pub(crate) fn row_at(row: usize) -> u128
    ensures { result ≡ Definitions.row_at row }
{
    100 + 26 * (row as u128)
}

/// Where the word of an arrow stands.
fn middle_of(place: usize) -> u128
    ensures { result ≡ Definitions.middle_of place }
{
    245 + 230 * (place as u128)
}

/// The line at the left end of an arrow.
fn left_line(place: usize) -> u128
    ensures { result ≡ Definitions.left_line place }
{
    if place == 0 { 130 } else { 360 }
}

/// The line at the right end of an arrow.
fn right_line(place: usize) -> u128
    ensures { result ≡ Definitions.right_line place }
{
    360 + 230 * (place as u128)
}

/// Adds a number. It is wider than a word, since how many places and rows there are has no bound but memory.
pub(crate) fn put_number(alloc: Global, out: &mut Bytes, number: u128) -> Result<(), AllocError>
    ensures { OnOk result (out.new ≡ out.old ++ decimal number) }
{
    let text = format!(in alloc; "{number}")?;
    out.extend(text.as_bytes())
}

/// Adds what a text says as a drawing has it.
fn put_shown(alloc: Global, out: &mut Bytes, text: &[u8]) -> Result<(), AllocError>
    ensures { OnOk result (out.new ≡ out.old ++ Definitions.shown text.now) }
{
    let mut plain = Bytes::new(alloc);
    push_plain(&mut plain, text)?;
    put_escaped(out, plain.as_slice())
}

/// Adds a text at a place, in the words that say how high and of which kind.
pub(crate) fn put_text(
    alloc: Global,
    out: &mut Bytes,
    at: u128,
    words: &[u8],
    text: &[u8],
) -> Result<(), AllocError>
    ensures { OnOk result (out.new ≡ out.old ++ Definitions.text_at at words.now text.now) }
{
    out.extend(b"<text x=\"")?;
    put_number(alloc, out, at)?;
    out.extend(words)?;
    put_shown(alloc, out, text)?;
    out.extend(b"</text>")
}

/// Adds where a row of a kind begins.
pub(crate) fn put_begin(
    alloc: Global,
    out: &mut Bytes,
    kind: &[u8],
    row: usize,
) -> Result<(), AllocError>
    ensures { OnOk result (out.new ≡ out.old ++ Definitions.begin kind.now row) }
{
    out.extend(b"<g class=\"")?;
    out.extend(kind)?;
    out.extend(b"\" transform=\"translate(0 ")?;
    put_number(alloc, out, row_at(row))?;
    out.extend(b")\">")
}

/// Adds the time since the first message.
pub(crate) fn put_time(out: &mut Bytes, milliseconds: u64) -> Result<(), AllocError>
    ensures { OnOk result (out.new ≡ out.old ++ Definitions.time_text milliseconds) }
{
    out.extend(b"<text x=\"8\" y=\"4\" class=\"time\">")?;
    push_seconds(out, milliseconds)?;
    out.extend(b" s</text>")
}

/// Adds a line from one place to another, and what is drawn at its end.
fn put_path(
    alloc: Global,
    out: &mut Bytes,
    from: u128,
    to: u128,
    head: &[u8],
) -> Result<(), AllocError>
    ensures { OnOk result (out.new ≡ out.old ++ Definitions.path from to head.now) }
{
    out.extend(b"<path d=\"M")?;
    put_number(alloc, out, from)?;
    out.extend(b" 0H")?;
    put_number(alloc, out, to)?;
    out.extend(head)
}

/// Adds an arrow, which ends in front of its line.
fn put_arrow_line(alloc: Global, out: &mut Bytes, arrow: Arrow) -> Result<(), AllocError>
    ensures { OnOk result (out.new ≡ out.old ++ Definitions.arrow_line arrow) }
{
    let left = left_line(arrow.place);
    let right = right_line(arrow.place);
    if arrow.rightward {
        put_path(alloc, out, left, right - 2, b"m-8 -4l8 4l-8 4z\"/>")
    } else {
        put_path(alloc, out, right, left + 2, b"m8 -4l-8 4l8 4z\"/>")
    }
}

/// Adds an arrow with its word.
pub(crate) fn put_arrow(
    alloc: Global,
    out: &mut Bytes,
    arrow: Arrow,
    word: &[u8],
) -> Result<(), AllocError>
    ensures { OnOk result (out.new ≡ out.old ++ Definitions.arrow_text arrow word.now) }
{
    put_arrow_line(alloc, out, arrow)?;
    put_text(alloc, out, middle_of(arrow.place), b"\" y=\"-5\">", word)
}
