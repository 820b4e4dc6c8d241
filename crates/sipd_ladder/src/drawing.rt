//! A line of the diagram.
ghost use Rattle.std.specs.Prelude.{◌≡◌, ◌++◌, take, replicate, OnOk, Some};
ghost use Rattle.sipd_ladder.specs.Drawing as Definitions;

use crate::saying::push_plain;
use sip_text::Bytes;
use sipd_report::push_padded;
use std::alloc::{AllocError, Global};

/// U+2500 in UTF-8.
const DASH: &[u8] = b"\xe2\x94\x80";

/// U+2502: a line.
const BAR: &[u8] = b"\xe2\x94\x82";

/// U+253C: a line that an arrow crosses.
const CROSSING: &[u8] = b"\xe2\x94\xbc";

/// U+25B6: the end of an arrow to the right.
const TO_RIGHT: &[u8] = b"\xe2\x96\xb6";

/// U+25C0: the end of one to the left.
const TO_LEFT: &[u8] = b"\xe2\x97\x80";

/// An arrow between the server and a place: 0 is left of the server, every other one is right of it.
#[derive(Clone, Copy)]
pub struct Arrow {
    pub place: usize,
    pub rightward: bool,
}

/// Adds spaces.
pub(crate) fn push_spaces(out: &mut Bytes, count: usize) -> Result<(), AllocError>
    ensures { OnOk result (out.new ≡ out.old ++ replicate count 32) }
{
    for _ in 0..count {
        out.push(b' ')?;
    }
    Ok(())
}

/// Adds dashes.
#[tactic(auto, using(crate::proofs::Times::once_more))]
fn push_dashes(out: &mut Bytes, count: usize) -> Result<(), AllocError>
    ensures { OnOk result (out.new ≡ out.old ++ Definitions.dashes count) }
{
    for _ in 0..count {
        out.extend(DASH)?;
    }
    Ok(())
}

/// The first of the gaps between lines that an arrow of a place crosses.
fn first_gap(place: usize) -> usize
    ensures { result ≡ Definitions.first_gap place }
{
    if place == 0 { 0 } else { 1 }
}

fn is_crossed(arrow: Arrow, gap: usize) -> bool
    ensures { result ≡ Definitions.is_crossed arrow gap }
{
    first_gap(arrow.place) <= gap && gap <= arrow.place
}

fn left_end(arrow: Arrow, gap: usize) -> &'static [u8]
    ensures { result.now ≡ Definitions.left_end arrow gap }
{
    if !arrow.rightward && gap == first_gap(arrow.place) {
        TO_LEFT
    } else {
        DASH
    }
}

fn right_end(arrow: Arrow, gap: usize) -> &'static [u8]
    ensures { result.now ≡ Definitions.right_end arrow gap }
{
    if arrow.rightward && gap == arrow.place {
        TO_RIGHT
    } else {
        DASH
    }
}

/// Adds a word of at most 23 bytes in the middle of 27 columns.
fn push_labeled(out: &mut Bytes, word: &[u8]) -> Result<(), AllocError>
    ensures { OnOk result (out.new ≡ out.old ++ Definitions.labeled word.now) }
{
    let room = 25_usize.saturating_sub(word.len());
    push_dashes(out, room / 2)?;
    out.push(b' ')?;
    out.extend(word)?;
    out.push(b' ')?;
    push_dashes(out, room.saturating_sub(room / 2))
}

/// At most so many of the first bytes of a text.
pub fn cut(text: &[u8], most: usize) -> &[u8]
    ensures { result.now ≡ take most text.now }
{
    if text.len() <= most {
        return text;
    }
    &text[..most]
}

fn push_body(out: &mut Bytes, arrow: Arrow, word: &[u8], gap: usize) -> Result<(), AllocError>
    ensures { OnOk result (out.new ≡ out.old ++ Definitions.body arrow word.now gap) }
{
    if gap == arrow.place {
        push_labeled(out, word)
    } else {
        push_dashes(out, 27)
    }
}

/// Adds what stands in a gap.
fn push_gap(out: &mut Bytes, arrow: Arrow, word: &[u8], gap: usize) -> Result<(), AllocError>
    ensures { OnOk result (out.new ≡ out.old ++ Definitions.gap_text arrow word.now gap) }
{
    if !is_crossed(arrow, gap) {
        return push_spaces(out, 29);
    }
    out.extend(left_end(arrow, gap))?;
    push_body(out, arrow, word, gap)?;
    out.extend(right_end(arrow, gap))
}

/// The line in front of a gap.
fn line_text(arrow: Arrow, gap: usize) -> &'static [u8]
    ensures { result.now ≡ Definitions.line_text arrow gap }
{
    if first_gap(arrow.place) < gap && gap <= arrow.place {
        CROSSING
    } else {
        BAR
    }
}

fn push_cell(out: &mut Bytes, arrow: Arrow, word: &[u8], gap: usize) -> Result<(), AllocError>
    ensures { OnOk result (out.new ≡ out.old ++ Definitions.cell arrow word.now gap) }
{
    out.extend(line_text(arrow, gap))?;
    push_gap(out, arrow, word, gap)
}

/// Adds so many gaps, with the lines in front of them.
#[tactic(auto, using(crate::proofs::Times::one_gap_more))]
fn push_gaps(out: &mut Bytes, arrow: Arrow, word: &[u8], places: usize) -> Result<(), AllocError>
    ensures { OnOk result (out.new ≡ out.old ++ Definitions.cells_to arrow word.now places) }
{
    for gap in 0..places {
        push_cell(out, arrow, word, gap)?;
    }
    Ok(())
}

pub(crate) fn push_three_digits(out: &mut Bytes, number: u64) -> Result<(), AllocError>
    ensures { OnOk result (out.new ≡ out.old ++ Definitions.three_digits number) }
{
    out.push_decimal(number / 100)?;
    out.push_decimal(number / 10 % 10)?;
    out.push_decimal(number % 10)
}

/// Adds seconds and milliseconds. `AllocError` is the only refusal.
pub fn push_seconds(out: &mut Bytes, milliseconds: u64) -> Result<(), AllocError>
    ensures { OnOk result (out.new ≡ out.old ++ Definitions.seconds_text milliseconds) }
{
    out.push_decimal(milliseconds / 1000)?;
    out.push(b'.')?;
    push_three_digits(out, milliseconds % 1000)
}

/// The same in eight columns.
fn push_time(alloc: Global, out: &mut Bytes, milliseconds: u64) -> Result<(), AllocError>
    ensures { OnOk result (out.new ≡ out.old ++ Definitions.time_cell milliseconds) }
{
    let mut text = Bytes::new(alloc);
    push_seconds(&mut text, milliseconds)?;
    let text = text.as_slice();
    push_spaces(out, 8_usize.saturating_sub(text.len()))?;
    out.extend(text)
}

/// Adds a row with an arrow, of so many places.
pub(crate) fn push_arrow(
    alloc: Global,
    out: &mut Bytes,
    milliseconds: u64,
    places: usize,
    arrow: Arrow,
    word: &[u8],
) -> Result<(), AllocError>
    ensures { OnOk result (out.new ≡ out.old ++ Definitions.arrow_row milliseconds places arrow word.now) }
{
    push_time(alloc, out, milliseconds)?;
    out.extend(b"    ")?;
    push_gaps(out, arrow, word, places)?;
    out.extend(BAR)?;
    out.push(b'\n')
}

fn push_proven(out: &mut Bytes, name: &[u8]) -> Result<(), AllocError>
    ensures { OnOk result (out.new ≡ out.old ++ Definitions.proven_text name.now) }
{
    out.extend(b"proven: ")?;
    push_plain(out, cut(name, 19))
}

/// Adds who was proven, right in a gap.
fn push_left_name(alloc: Global, out: &mut Bytes, name: &[u8]) -> Result<(), AllocError>
    ensures { OnOk result (out.new ≡ out.old ++ Definitions.left_note (Some name.now)) }
{
    let mut text = Bytes::new(alloc);
    push_proven(&mut text, name)?;
    let text = text.as_slice();
    push_spaces(out, 27_usize.saturating_sub(text.len()))?;
    out.extend(text)?;
    out.extend(b"  ")
}

fn push_left_note(alloc: Global, out: &mut Bytes, who: &Option<Bytes>) -> Result<(), AllocError>
    ensures { OnOk result (out.new ≡ out.old ++ Definitions.left_note who.now) }
{
    match who {
        Some(name) => push_left_name(alloc, out, name.as_slice()),
        None => push_spaces(out, 29),
    }
}

fn push_empty_gap(out: &mut Bytes) -> Result<(), AllocError>
    ensures { OnOk result (out.new ≡ out.old ++ Definitions.empty_gap) }
{
    push_spaces(out, 29)?;
    out.extend(BAR)
}

/// Adds so many gaps that nothing crosses.
#[tactic(auto, using(crate::proofs::Times::once_more))]
fn push_empty_gaps(out: &mut Bytes, count: usize) -> Result<(), AllocError>
    ensures { OnOk result (out.new ≡ out.old ++ Definitions.times count Definitions.empty_gap) }
{
    for _ in 0..count {
        push_empty_gap(out)?;
    }
    Ok(())
}

/// Adds a text right of the server's line, with the gaps of so many other places.
fn push_right_note(out: &mut Bytes, others: usize, text: &[u8]) -> Result<(), AllocError>
    ensures { OnOk result (out.new ≡ out.old ++ Definitions.right_note others text.now) }
{
    out.push(b' ')?;
    if others == 0 {
        return out.extend(text);
    }
    push_padded(out, 28, text)?;
    out.extend(BAR)?;
    push_empty_gaps(out, others.saturating_sub(1))
}

/// Adds a row with what was decided, or happened, of so many places.
pub(crate) fn push_note(
    alloc: Global,
    out: &mut Bytes,
    places: usize,
    who: &Option<Bytes>,
    text: &[u8],
) -> Result<(), AllocError>
    ensures { OnOk result (out.new ≡ out.old ++ Definitions.note_row places who.now text.now) }
{
    push_spaces(out, 12)?;
    out.extend(BAR)?;
    push_left_note(alloc, out, who)?;
    out.extend(BAR)?;
    push_right_note(out, places.saturating_sub(1), text)?;
    out.push(b'\n')
}
