//! The whole drawing.
ghost use Rattle.std.specs.Prelude.{◌≡◌, ◌++◌, IfOk, OnOk};
ghost use Rattle.sipd_ladder_picture.specs.Picture as Definitions;

use crate::parts::{line_of, put_number, put_text, row_at};
use crate::rows::put_rungs;
use sip_text::Bytes;
use sip_uri::{Addr, addr_text};
use sipd_ladder::{
    AddrName, Ladder, Rung, cut, name_of, names_by, places_of, push_call, push_moment,
};
use std::alloc::{AllocError, Global};

/// How a drawing looks: what stands behind its size.
const LOOK: &[u8] = b"\
    \" font-family=\"system-ui,sans-serif\" font-size=\"12\">\n<style>\n\
    text { text-anchor: middle; }\n.time, .title { text-anchor: start; }\n\
    .time, .place { fill: #57606a; font-size: 11px; }\n.name { font-weight: 600; }\n.line { stroke: #d0d7de; }\n\
    g path { fill: currentColor; stroke: currentColor; stroke-width: 1.5; }\ng text { fill: currentColor; }\n\
    .request { color: #0550ae; }\n.trying { color: #57606a; }\n.done { color: #1a7f37; }\n\
    .asked { color: #b35900; }\n.refused { color: #cf222e; }\n.note { color: #24292f; font-size: 11px; }\n\
    .note rect { fill: #f6f8fa; stroke: #d0d7de; }\n.note.done rect { fill: #dafbe1; }\n\
    .note.asked rect { fill: #fff8c5; }\n.note.refused rect { fill: #ffebe9; }\n\
    </style>\n<rect width=\"100%\" height=\"100%\" fill=\"#fff\"/>\n";

/// How wide a drawing of so many places is.
fn width_of(places: usize) -> u128
    ensures { result ≡ Definitions.width_of places }
{
    240 + 230 * (places as u128)
}

/// Adds how a drawing looks.
fn put_look(out: &mut Bytes) -> Result<(), AllocError>
    ensures { OnOk result (out.new ≡ out.old ++ Definitions.look) }
{
    out.extend(LOOK)
}

/// Adds what a drawing begins with.
fn put_head(alloc: Global, out: &mut Bytes, places: usize, rows: usize) -> Result<(), AllocError>
    ensures { OnOk result (out.new ≡ out.old ++ Definitions.head places rows) }
{
    out.extend(b"<svg xmlns=\"http://www.w3.org/2000/svg\" width=\"")?;
    put_number(alloc, out, width_of(places))?;
    out.extend(b"\" height=\"")?;
    put_number(alloc, out, row_at(rows))?;
    put_look(out)
}

/// Of which call it is, and when it began.
fn title_of(alloc: Global, call_id: &[u8], first: &Rung) -> Result<Bytes, AllocError>
    ensures { IfOk result (λ title. title ≡ Definitions.title_of call_id.now first.now) }
{
    let mut title = Bytes::new(alloc);
    push_call(&mut title, call_id)?;
    push_moment(&mut title, first)?;
    Ok(title)
}

fn put_title(alloc: Global, out: &mut Bytes, call_id: &[u8], first: &Rung) -> Result<(), AllocError>
    ensures { OnOk result (out.new ≡ out.old ++ Definitions.title_text call_id.now first.now) }
{
    let title = title_of(alloc, call_id, first)?;
    put_text(
        alloc,
        out,
        8,
        b"\" y=\"20\" class=\"title\">",
        title.as_slice(),
    )?;
    out.push(b'\n')
}

/// Adds a vertical line, under a name and an address.
fn put_line(
    alloc: Global,
    out: &mut Bytes,
    at: u128,
    rows: usize,
    name: &[u8],
    addr: &[u8],
) -> Result<(), AllocError>
    ensures { OnOk result (out.new ≡ out.old ++ Definitions.line_text at rows name.now addr.now) }
{
    put_text(
        alloc,
        out,
        at,
        b"\" y=\"50\" class=\"name\">",
        cut(name, 28),
    )?;
    put_text(alloc, out, at, b"\" y=\"66\" class=\"place\">", addr)?;
    put_stroke(alloc, out, at, rows)
}

/// Adds the stroke of a line, down to behind so many rows.
fn put_stroke(alloc: Global, out: &mut Bytes, at: u128, rows: usize) -> Result<(), AllocError>
    ensures { OnOk result (out.new ≡ out.old ++ Definitions.stroke at rows) }
{
    out.extend(b"<path class=\"line\" d=\"M")?;
    put_number(alloc, out, at)?;
    out.extend(b" 74V")?;
    put_number(alloc, out, row_at(rows))?;
    out.extend(b"\"/>\n")
}

/// Adds the line of an address, in front of which so many stand.
fn put_place(
    alloc: Global,
    out: &mut Bytes,
    names: &[AddrName],
    rows: usize,
    place: usize,
    addr: Addr,
) -> Result<(), AllocError>
    ensures { OnOk result (out.new ≡ out.old ++ Definitions.place_text names.now rows place addr) }
{
    let text = addr_text(alloc, addr)?;
    put_line(
        alloc,
        out,
        line_of(place),
        rows,
        name_of(names, addr),
        text.as_slice(),
    )
}

fn put_places(
    alloc: Global,
    out: &mut Bytes,
    names: &[AddrName],
    rows: usize,
    places: &[Addr],
) -> Result<(), AllocError>
    ensures { OnOk result (out.new ≡ out.old ++ Definitions.places_from names.now rows 0 places.now) }
{
    for (place, addr) in places.iter().enumerate() {
        put_place(alloc, out, names, rows, place, *addr)?;
    }
    Ok(())
}

/// Adds the lines, the server's first.
fn put_lines(
    alloc: Global,
    out: &mut Bytes,
    names: &[AddrName],
    rows: usize,
    places: &[Addr],
) -> Result<(), AllocError>
    ensures { OnOk result (out.new ≡ out.old ++ Definitions.lines names.now rows places.now) }
{
    put_line(alloc, out, 360, rows, b"sipd", b"")?;
    put_places(alloc, out, names, rows, places)
}

/// The drawing of rungs, the first of which stands at this moment.
fn drawing_from(
    alloc: Global,
    ladder: &Ladder,
    first: &Rung,
    rungs: &[Rung],
) -> Result<Bytes, AllocError>
    ensures { IfOk result (λ drawing. drawing ≡ Definitions.drawing_from ladder.now.call_id ladder.now.names first.now rungs.now) }
{
    let places = places_of(alloc, rungs)?;
    let mut out = Bytes::new(alloc);
    let names = names_by(ladder.names.as_slice(), rungs);
    put_front(
        alloc,
        &mut out,
        ladder.call_id.as_slice(),
        names,
        places.as_slice(),
        first,
        rungs.len(),
    )?;
    put_rungs(alloc, &mut out, first.at, places.as_slice(), rungs)?;
    out.extend(b"</svg>\n")?;
    Ok(out)
}

/// Adds what stands in front of the rows.
fn put_front(
    alloc: Global,
    out: &mut Bytes,
    call_id: &[u8],
    names: &[AddrName],
    places: &[Addr],
    first: &Rung,
    rows: usize,
) -> Result<(), AllocError>
    ensures { OnOk result (out.new ≡ out.old ++ Definitions.front call_id.now names.now places.now first.now rows) }
{
    put_head(alloc, out, places.len(), rows)?;
    put_title(alloc, out, call_id, first)?;
    put_lines(alloc, out, names, rows, places)
}

/// The drawing of all rungs of a call; nothing, where there is none.
fn drawing_of(alloc: Global, ladder: &Ladder, rungs: &[Rung]) -> Result<Bytes, AllocError>
    ensures { IfOk result (λ drawing. drawing ≡ Definitions.drawing ladder.now.call_id ladder.now.names rungs.now) }
{
    match rungs.split_first() {
        Some((first, _)) => drawing_from(alloc, ladder, first, rungs),
        None => Ok(Bytes::new(alloc)),
    }
}

/// What a day has of a call as a drawing of SVG, with the rows of `Ladder::text`; nothing, where there is no rung. `AllocError` is the only
/// refusal.
pub fn picture(alloc: Global, ladder: &Ladder) -> Result<Bytes, AllocError>
    ensures { IfOk result (λ drawing. drawing ≡ Definitions.drawing ladder.now.call_id ladder.now.names ladder.now.rungs) }
{
    drawing_of(alloc, ladder, ladder.rungs.as_slice())
}
