//! The rows of a drawing.
ghost use Rattle.std.specs.Prelude.{◌≡◌, ◌++◌, IfOk, OnOk};
ghost use Rattle.sipd_ladder_picture.specs.Rows as Definitions;

use crate::kinds::{kind_of, note_kind};
use crate::parts::{put_arrow, put_begin, put_text, put_time};
use sip_text::Bytes;
use sip_uri::Addr;
use sipd_ladder::{Arrow, Rung, RungKind, cut, inward, label, outward, place_of};
use std::alloc::{AllocError, Global};

/// Behind which a text stands in a row of what was decided.
const NOTE: &[u8] = b"<rect x=\"210\" y=\"-14\" width=\"300\" height=\"20\" rx=\"4\"/>";

/// Adds the row of a message.
fn put_message(
    alloc: Global,
    out: &mut Bytes,
    row: usize,
    since: u64,
    arrow: Arrow,
    again: bool,
    word: &[u8],
) -> Result<(), AllocError>
    ensures { OnOk result (out.new ≡ out.old ++ Definitions.message_row row since arrow again word.now) }
{
    let text = label(alloc, again, word)?;
    put_begin(alloc, out, kind_of(word), row)?;
    put_time(out, since)?;
    put_arrow(alloc, out, arrow, text.as_slice())?;
    out.extend(b"</g>\n")
}

/// What was decided, and of whom, if somebody was proven.
fn note_words(alloc: Global, who: &Option<Bytes>, text: &[u8]) -> Result<Bytes, AllocError>
    ensures { IfOk result (λ words. words ≡ Definitions.note_words who.now text.now) }
{
    let mut words = Bytes::copy(alloc, text)?;
    if let Some(name) = who {
        words.extend(b", proven: ")?;
        words.extend(cut(name.as_slice(), 19))?;
    }
    Ok(words)
}

/// Adds the row of what was decided, or happened.
fn put_note(
    alloc: Global,
    out: &mut Bytes,
    row: usize,
    who: &Option<Bytes>,
    text: &[u8],
) -> Result<(), AllocError>
    ensures { OnOk result (out.new ≡ out.old ++ Definitions.note_row row who.now text.now) }
{
    let words = note_words(alloc, who, text)?;
    put_begin(alloc, out, note_kind(text), row)?;
    out.extend(NOTE)?;
    put_text(alloc, out, 360, b"\" y=\"0\">", words.as_slice())?;
    out.extend(b"</g>\n")
}

/// Adds the row of what a rung is.
fn put_kind(
    alloc: Global,
    out: &mut Bytes,
    row: usize,
    since: u64,
    places: &[Addr],
    kind: &RungKind,
) -> Result<(), AllocError>
    ensures { OnOk result (out.new ≡ out.old ++ Definitions.row_by row since places.now kind.now) }
{
    match kind {
        RungKind::Came {
            from,
            again,
            word,
            ..
        } => {
            let arrow = inward(place_of(*from, places));
            put_message(alloc, out, row, since, arrow, *again, word.as_slice())
        }
        RungKind::Noted { who, text } => put_note(alloc, out, row, who, text.as_slice()),
        RungKind::Went { to, again, word } => {
            let arrow = outward(place_of(*to, places));
            put_message(alloc, out, row, since, arrow, *again, word.as_slice())
        }
    }
}

/// Adds the row of a rung, in front of which so many stand.
fn put_rung(
    alloc: Global,
    out: &mut Bytes,
    first: u64,
    places: &[Addr],
    row: usize,
    rung: &Rung,
) -> Result<(), AllocError>
    ensures { OnOk result (out.new ≡ out.old ++ Definitions.rung_row first places.now row rung.now) }
{
    put_kind(
        alloc,
        out,
        row,
        rung.at.saturating_sub(first),
        places,
        &rung.kind,
    )
}

/// Adds a row for each rung.
pub(crate) fn put_rungs(
    alloc: Global,
    out: &mut Bytes,
    first: u64,
    places: &[Addr],
    rungs: &[Rung],
) -> Result<(), AllocError>
    ensures { OnOk result (out.new ≡ out.old ++ Definitions.rows_from first places.now 0 rungs.now) }
{
    for (row, rung) in rungs.iter().enumerate() {
        put_rung(alloc, out, first, places, row, rung)?;
    }
    Ok(())
}
