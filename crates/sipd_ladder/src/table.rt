//! The whole diagram.
ghost use Rattle.std.specs.Prelude.{◌≡◌, ◌++◌, map, position, take, if◌then◌else◌, IfOk, OnOk};
ghost use Rattle.std.specs.List.{flat_map, list_any};
ghost use Rattle.sip_dialog.specs.Addresses.{is_same_addr as is_same_addr_of};
ghost use Rattle.sip_uri.specs.Addresses;
ghost use Rattle.sipd_ladder.specs.Drawing.{arrow_row};
ghost use Rattle.sipd_report.specs.Times;
ghost use Rattle.sipd_report.specs.Times.{dated_text};
ghost use Rattle.sipd_ladder.specs.Table as Definitions;

use crate::drawing::{Arrow, cut, push_arrow, push_note, push_spaces, push_three_digits};
use crate::rung::{AddrName, Rung, RungKind};
use crate::saying::push_plain;
use sip_dialog::is_same_addr;
use sip_text::{Bytes, Items, without_end_blanks};
use sip_uri::{Addr, addr_text};
use sipd_report::{push_dated, push_offset, push_padded, shown_seconds};
use std::alloc::{AllocError, Global};

/// The place of an address, if it is there.
fn place_at(addr: Addr, places: &[Addr]) -> Option<usize>
    ensures { result ≡ position (λ known. is_same_addr_of known addr) places.now }
{
    places.iter().position(|known| is_same_addr(*known, addr))
}

/// The place of an address; the first one, if it has none.
pub fn place_of(addr: Addr, places: &[Addr]) -> usize
    ensures { result ≡ Definitions.place_of addr places.now }
{
    match place_at(addr, places) {
        Some(place) => place,
        None => 0,
    }
}

fn is_known(addr: Addr, places: &[Addr]) -> bool
    ensures { result ≡ list_any (λ known. is_same_addr_of known addr) places.now }
{
    places.iter().any(|known| is_same_addr(*known, addr))
}

/// Adds an address, unless it is there.
#[tactic(auto, using(crate::proofs::Places::place_known, crate::proofs::Places::place_new))]
fn add_place(places: &mut Items<Addr>, addr: Addr) -> Result<(), AllocError>
    ensures { OnOk result (places.new ≡ Definitions.with_place places.old addr) }
{
    if is_known(addr, places.as_slice()) {
        return Ok(());
    }
    places.push(addr)
}

fn add_kind(places: &mut Items<Addr>, kind: &RungKind) -> Result<(), AllocError>
    ensures { OnOk result (places.new ≡ Definitions.with_kind places.old kind.now) }
{
    match kind {
        RungKind::Came { from, .. } => add_place(places, *from),
        RungKind::Noted { .. } => Ok(()),
        RungKind::Went { to, .. } => add_place(places, *to),
    }
}

fn add_rung(places: &mut Items<Addr>, rung: &Rung) -> Result<(), AllocError>
    ensures { OnOk result (places.new ≡ Definitions.with_kind places.old rung.now.kind) }
{
    add_kind(places, &rung.kind)
}

/// The addresses that rungs name, in the order in which they come. `AllocError` is the only refusal.
pub fn places_of(alloc: Global, rungs: &[Rung]) -> Result<Items<Addr>, AllocError>
    ensures { IfOk result (λ places. places ≡ Definitions.places_of rungs.now) }
{
    let mut places = Items::new(alloc);
    for rung in rungs {
        add_rung(&mut places, rung)?;
    }
    Ok(places)
}

/// The user who was proven last from an address, in front of which this name was found.
fn name_if<'n>(found: &'n [u8], named: &'n AddrName, addr: Addr) -> &'n [u8]
    ensures { result.now ≡ (if is_same_addr_of named.now.addr addr then named.now.name else found.now) }
{
    if is_same_addr(named.addr, addr) {
        named.name.as_slice()
    } else {
        found
    }
}

/// The user who was proven last from an address; nothing where none was.
pub fn name_of<'n>(names: &'n [AddrName], addr: Addr) -> &'n [u8]
    ensures { result.now ≡ Definitions.name_of names.now addr }
{
    let mut found: &'n [u8] = b"";
    for named in names {
        found = name_if(found, named, addr);
    }
    found
}

/// An arrow from a place to the server.
pub fn inward(place: usize) -> Arrow
    ensures { result ≡ Definitions.inward place }
{
    Arrow {
        place,
        rightward: place == 0,
    }
}

/// One from the server to a place.
pub fn outward(place: usize) -> Arrow
    ensures { result ≡ Definitions.outward place }
{
    let rightward = if place == 0 { false } else { true };
    Arrow { place, rightward }
}

/// A word that fits, with a mark where a message came or went again. `AllocError` is the only refusal.
pub fn label(alloc: Global, again: bool, word: &[u8]) -> Result<Bytes, AllocError>
    ensures { IfOk result (λ text. text ≡ Definitions.label again word.now) }
{
    if again {
        Bytes::joined(alloc, cut(word, 17), b" again")
    } else {
        Bytes::copy(alloc, cut(word, 23))
    }
}

/// Adds an arrow with a word.
fn push_labeled_arrow(
    alloc: Global,
    out: &mut Bytes,
    since: u64,
    places: usize,
    arrow: Arrow,
    again: bool,
    word: &[u8],
) -> Result<(), AllocError>
    ensures { OnOk result (out.new ≡ out.old ++ arrow_row since places arrow (Definitions.label again word.now)) }
{
    let text = label(alloc, again, word)?;
    push_arrow(alloc, out, since, places, arrow, text.as_slice())
}

/// Adds the row of a message that came.
fn push_came(
    alloc: Global,
    out: &mut Bytes,
    since: u64,
    places: &[Addr],
    from: Addr,
    again: bool,
    word: &[u8],
) -> Result<(), AllocError>
    ensures { OnOk result (out.new ≡ out.old ++ Definitions.came_row since places.now from again word.now) }
{
    let arrow = inward(place_of(from, places));
    push_labeled_arrow(alloc, out, since, places.len(), arrow, again, word)
}

/// Adds the row of one that went.
fn push_went(
    alloc: Global,
    out: &mut Bytes,
    since: u64,
    places: &[Addr],
    to: Addr,
    again: bool,
    word: &[u8],
) -> Result<(), AllocError>
    ensures { OnOk result (out.new ≡ out.old ++ Definitions.went_row since places.now to again word.now) }
{
    let arrow = outward(place_of(to, places));
    push_labeled_arrow(alloc, out, since, places.len(), arrow, again, word)
}

/// Adds the row of what a rung is.
fn push_kind(
    alloc: Global,
    out: &mut Bytes,
    since: u64,
    places: &[Addr],
    kind: &RungKind,
) -> Result<(), AllocError>
    ensures { OnOk result (out.new ≡ out.old ++ Definitions.row_by since places.now kind.now) }
{
    match kind {
        RungKind::Came {
            from,
            again,
            word,
            bytes: _,
        } => push_came(alloc, out, since, places, *from, *again, word.as_slice()),
        RungKind::Noted { who, text } => {
            push_note(alloc, out, places.len(), who, text.as_slice())
        }
        RungKind::Went { to, again, word } => {
            push_went(alloc, out, since, places, *to, *again, word.as_slice())
        }
    }
}

/// Adds the row of a rung.
fn push_rung(
    alloc: Global,
    out: &mut Bytes,
    first: u64,
    places: &[Addr],
    rung: &Rung,
) -> Result<(), AllocError>
    ensures { OnOk result (out.new ≡ out.old ++ Definitions.rung_row first places.now rung.now) }
{
    push_kind(
        alloc,
        out,
        rung.at.saturating_sub(first),
        places,
        &rung.kind,
    )
}

fn push_rungs(
    alloc: Global,
    out: &mut Bytes,
    first: u64,
    places: &[Addr],
    rungs: &[Rung],
) -> Result<(), AllocError>
    ensures { OnOk result (out.new ≡ out.old ++ flat_map (Definitions.rung_row first places.now) rungs.now) }
{
    for rung in rungs {
        push_rung(alloc, out, first, places, rung)?;
    }
    Ok(())
}

/// Adds a text over a line that stands in so many columns behind that one.
fn push_over(
    alloc: Global,
    out: &mut Bytes,
    width: usize,
    line: usize,
    text: &[u8],
) -> Result<(), AllocError>
    ensures { OnOk result (out.new ≡ out.old ++ Definitions.head_cell width line text.now) }
{
    let shown = cut(text, 28);
    let mut cell = Bytes::new(alloc);
    push_spaces(&mut cell, line.saturating_sub(shown.len() / 2))?;
    cell.extend(shown)?;
    push_padded(out, width, cell.as_slice())
}

fn push_over_own(alloc: Global, out: &mut Bytes, text: &[u8]) -> Result<(), AllocError>
    ensures { OnOk result (out.new ≡ out.old ++ Definitions.head_cell 30 15 text.now) }
{
    push_over(alloc, out, 30, 15, text)
}

fn push_others(alloc: Global, out: &mut Bytes, texts: &[Bytes]) -> Result<(), AllocError>
    ensures { OnOk result (out.new ≡ out.old ++ flat_map (Definitions.head_cell 30 15) texts.now) }
{
    for text in texts {
        push_over_own(alloc, out, text.as_slice())?;
    }
    Ok(())
}

/// Adds texts over the first place's line, and over the server's.
fn push_firsts(alloc: Global, out: &mut Bytes, first: &[u8], own: &[u8]) -> Result<(), AllocError>
    ensures { OnOk result (out.new ≡ out.old ++ Definitions.first_cells first.now own.now) }
{
    push_over(alloc, out, 27, 12, first)?;
    push_over_own(alloc, out, own)
}

/// The same, and over the lines of the others.
fn push_cells(alloc: Global, out: &mut Bytes, own: &[u8], texts: &[Bytes]) -> Result<(), AllocError>
    ensures { OnOk result (out.new ≡ out.old ++ Definitions.head_cells own.now texts.now) }
{
    match texts.split_first() {
        Some((first, others)) => {
            push_firsts(alloc, out, first.as_slice(), own)?;
            push_others(alloc, out, others)
        }
        None => push_firsts(alloc, out, b"", own),
    }
}

fn push_head(alloc: Global, out: &mut Bytes, own: &[u8], texts: &[Bytes]) -> Result<(), AllocError>
    ensures { OnOk result (out.new ≡ out.old ++ Definitions.head_row own.now texts.now) }
{
    let mut row = Bytes::new(alloc);
    push_cells(alloc, &mut row, own, texts)?;
    out.extend(without_end_blanks(row.as_slice()))?;
    out.push(b'\n')
}

fn shown_name(alloc: Global, names: &[AddrName], addr: Addr) -> Result<Bytes, AllocError>
    ensures { IfOk result (λ text. text ≡ Definitions.shown_name names.now addr) }
{
    let mut text = Bytes::new(alloc);
    push_plain(&mut text, name_of(names, addr))?;
    Ok(text)
}

/// Who is where.
fn shown_names(
    alloc: Global,
    names: &[AddrName],
    places: &[Addr],
) -> Result<Items<Bytes>, AllocError>
    ensures { IfOk result (λ texts. texts ≡ map (Definitions.shown_name names.now) places.now) }
{
    let mut texts = Items::new(alloc);
    for addr in places {
        texts.push(shown_name(alloc, names, *addr)?)?;
    }
    Ok(texts)
}

fn addr_texts(alloc: Global, places: &[Addr]) -> Result<Items<Bytes>, AllocError>
    ensures { IfOk result (λ texts. texts ≡ map Addresses.addr_text places.now) }
{
    let mut texts = Items::new(alloc);
    for addr in places {
        texts.push(addr_text(alloc, *addr)?)?;
    }
    Ok(texts)
}

/// Adds who is where, and the addresses.
fn push_heads(
    alloc: Global,
    out: &mut Bytes,
    names: &[AddrName],
    places: &[Addr],
) -> Result<(), AllocError>
    ensures { OnOk result (out.new ≡ out.old ++ Definitions.head_rows names.now places.now) }
{
    let shown = shown_names(alloc, names, places)?;
    push_head(alloc, out, b"sipd", shown.as_slice())?;
    let texts = addr_texts(alloc, places)?;
    push_head(alloc, out, b"", texts.as_slice())
}

/// Adds the moment of a rung in seconds of the office's clock.
fn push_clock(out: &mut Bytes, first: &Rung) -> Result<(), AllocError>
    ensures { OnOk result (out.new ≡ out.old ++ dated_text 32 (Times.shown_seconds first.now.at first.now.place.offset)) }
{
    push_dated(out, b' ', shown_seconds(first.at, first.place.offset))
}

/// Adds how far that is ahead of UTC.
fn push_zone(out: &mut Bytes, first: &Rung) -> Result<(), AllocError>
    ensures { OnOk result (out.new ≡ out.old ++ Definitions.zone_text first.now.place.offset) }
{
    out.extend(b" (UTC")?;
    push_offset(out, first.place.offset)?;
    out.push(b')')
}

/// Adds the moment of a rung, and on which clock. `AllocError` is the only refusal.
pub fn push_moment(out: &mut Bytes, first: &Rung) -> Result<(), AllocError>
    ensures { OnOk result (out.new ≡ out.old ++ Definitions.moment_text first.now.place.offset first.now.at) }
{
    push_clock(out, first)?;
    out.push(b'.')?;
    push_three_digits(out, first.at % 1000)?;
    push_zone(out, first)
}

/// Adds of which call it is. `AllocError` is the only refusal.
pub fn push_call(out: &mut Bytes, call_id: &[u8]) -> Result<(), AllocError>
    ensures { OnOk result (out.new ≡ out.old ++ Definitions.call_text call_id.now) }
{
    out.extend(b"call ")?;
    push_plain(out, call_id)?;
    out.extend(b", ")
}

/// Adds of which call it is, and when it began.
fn push_title(out: &mut Bytes, call_id: &[u8], first: &Rung) -> Result<(), AllocError>
    ensures { OnOk result (out.new ≡ out.old ++ Definitions.title_at call_id.now first.now.place.offset first.now.at) }
{
    push_call(out, call_id)?;
    push_moment(out, first)?;
    out.extend(b"\n\n")
}

/// How many users were proven by the last rung.
fn known_of(rungs: &[Rung]) -> usize
    ensures { result ≡ Definitions.known_behind 0 rungs.now }
{
    let mut found = 0;
    for rung in rungs {
        found = rung.place.known;
    }
    found
}

/// So many of the first.
fn first_names(names: &[AddrName], known: usize) -> &[AddrName]
    ensures { result.now ≡ take known names.now }
{
    if names.len() <= known {
        return names;
    }
    &names[..known]
}

/// Those who were proven by the last rung.
pub fn names_by<'n>(names: &'n [AddrName], rungs: &[Rung]) -> &'n [AddrName]
    ensures { result.now ≡ take (Definitions.known_behind 0 rungs.now) names.now }
{
    first_names(names, known_of(rungs))
}

/// The diagram of rungs, the first of which stands at this moment.
fn diagram_from(
    alloc: Global,
    call_id: &[u8],
    names: &[AddrName],
    first: &Rung,
    rungs: &[Rung],
) -> Result<Bytes, AllocError>
    ensures { IfOk result (λ text. text ≡ Definitions.diagram_from call_id.now names.now (Definitions.places_of rungs.now) first.now rungs.now) }
{
    let places = places_of(alloc, rungs)?;
    let mut out = Bytes::new(alloc);
    push_title(&mut out, call_id, first)?;
    let known = names_by(names, rungs);
    push_heads(alloc, &mut out, known, places.as_slice())?;
    push_rungs(alloc, &mut out, first.at, places.as_slice(), rungs)?;
    Ok(out)
}

/// The diagram of what a day has of a call: the address that came first stands left, the server next, all others right of it; times are those
/// since the first message. Nothing, where there is no rung. `AllocError` is the only refusal.
pub(crate) fn ladder_text(
    alloc: Global,
    call_id: &[u8],
    names: &[AddrName],
    rungs: &[Rung],
) -> Result<Bytes, AllocError>
    ensures { IfOk result (λ text. text ≡ Definitions.ladder_text call_id.now names.now rungs.now) }
{
    match rungs.split_first() {
        Some((first, _)) => diagram_from(alloc, call_id, names, first, rungs),
        None => Ok(Bytes::new(alloc)),
    }
}
