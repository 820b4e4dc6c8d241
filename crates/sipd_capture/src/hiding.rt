//! A datagram without its secrets.
ghost use Rattle.std.specs.Prelude.{◌≡◌, ◌++◌, map, IfOk, OnOk};
ghost use Rattle.sip_text.specs.Splits.{split_at_byte};
ghost use Rattle.sipd_capture.specs.Hiding as Definitions;
ghost use Rattle.sipd_capture.specs.declared.hiding.LinePlace.TheVariants as Places;

use sip_text::{
    Bytes, first_part, is_space_or_tab, is_token, same_bytes, same_no_case, split_once, split_word,
    without_blanks,
};
use std::alloc::{AllocError, Global};

/// Where a line of a message stands.
#[derive(Clone, Copy)]
pub(crate) enum LinePlace {
    /// In the head, behind a field that isn't hidden.
    Plain,
    /// Behind a line of credentials.
    Credentials,
    Body,
}

fn is_kept(byte: u8) -> bool
    ensures { result ≡ Definitions.is_kept byte }
{
    is_space_or_tab(byte) || byte == b'"' || byte == b'\r'
}

/// A byte of a value that is hidden.
fn masked(byte: u8) -> u8
    ensures { result ≡ Definitions.masked byte }
{
    if is_kept(byte) { byte } else { b'x' }
}

/// A byte of a body.
fn crossed(byte: u8) -> u8
    ensures { result ≡ Definitions.crossed byte }
{
    if byte == b'\r' { byte } else { b'x' }
}

fn push_masked(out: &mut Bytes, text: &[u8]) -> Result<(), AllocError>
    ensures { OnOk result (out.new ≡ out.old ++ map Definitions.masked text.now) }
{
    for byte in text {
        out.push(masked(*byte))?;
    }
    Ok(())
}

fn push_crossed(out: &mut Bytes, text: &[u8]) -> Result<(), AllocError>
    ensures { OnOk result (out.new ≡ out.old ++ map Definitions.crossed text.now) }
{
    for byte in text {
        out.push(crossed(*byte))?;
    }
    Ok(())
}

/// What stands in front of a parameter's `=`, without the scheme.
fn without_scheme(text: &[u8]) -> &[u8]
    ensures { result.now ≡ Definitions.without_scheme text.now }
{
    let (word, behind) = split_word(text);
    if same_no_case(word, b"Digest") {
        behind
    } else {
        text
    }
}

fn is_named(front: &[u8]) -> bool
    ensures { result ≡ Definitions.is_named front.now }
{
    is_token(without_scheme(without_blanks(front)))
}

/// Adds a parameter with its value hidden; what is no parameter is hidden whole.
fn push_split(out: &mut Bytes, piece: &[u8], front: &[u8], value: &[u8]) -> Result<(), AllocError>
    ensures { OnOk result (out.new ≡ out.old ++ Definitions.split_hidden piece.now front.now value.now) }
{
    if !is_named(front) {
        return push_masked(out, piece);
    }
    out.extend(front)?;
    out.push(b'=')?;
    push_masked(out, value)
}

fn push_piece(out: &mut Bytes, piece: &[u8]) -> Result<(), AllocError>
    ensures { OnOk result (out.new ≡ out.old ++ Definitions.piece_hidden piece.now) }
{
    match split_once(piece, b'=') {
        Some((front, value)) => push_split(out, piece, front, value),
        None => push_masked(out, piece),
    }
}

/// Adds the value of a field of credentials, hidden.
fn push_value(out: &mut Bytes, value: &[u8]) -> Result<(), AllocError>
    ensures { OnOk result (out.new ≡ out.old ++ Definitions.value_hidden value.now) }
{
    let (piece, mut rest) = first_part(value, b',');
    push_piece(out, piece)?;
    while let Some(text) = rest {
        let (piece, behind) = first_part(text, b',');
        out.push(b',')?;
        push_piece(out, piece)?;
        rest = behind;
    }
    Ok(())
}

fn is_credentials_name(name: &[u8]) -> bool
    ensures { result ≡ Definitions.is_credentials_name name.now }
{
    if same_no_case(name, b"Authorization") {
        return true;
    }
    same_no_case(name, b"Proxy-Authorization")
}

/// Whether a line begins a field of credentials.
fn is_credentials(line: &[u8]) -> bool
    ensures { result ≡ Definitions.is_credentials line.now }
{
    match split_once(line, b':') {
        Some((name, _)) => is_credentials_name(without_blanks(name)),
        None => false,
    }
}

/// Whether one goes on with the field in front.
fn is_folded(line: &[u8]) -> bool
    ensures { result ≡ Definitions.is_folded line.now }
{
    match line.split_first() {
        Some((byte, _)) => is_space_or_tab(*byte),
        None => false,
    }
}

/// Whether the body begins behind it.
fn is_end(line: &[u8]) -> bool
    ensures { result ≡ Definitions.is_end line.now }
{
    if same_bytes(line, b"") {
        return true;
    }
    same_bytes(line, b"\r")
}

/// Adds a field of credentials, hidden.
fn push_credentials(out: &mut Bytes, line: &[u8]) -> Result<(), AllocError>
    ensures { OnOk result (out.new ≡ out.old ++ Definitions.field_by line.now (split_at_byte 58 line.now)) }
{
    match split_once(line, b':') {
        Some((name, value)) => {
            out.extend(name)?;
            out.push(b':')?;
            push_value(out, value)
        }
        None => out.extend(line),
    }
}

fn push_field(out: &mut Bytes, line: &[u8]) -> Result<(), AllocError>
    ensures { OnOk result (out.new ≡ out.old ++ Definitions.field_hidden line.now) }
{
    if is_credentials(line) {
        push_credentials(out, line)
    } else {
        out.extend(line)
    }
}

/// Adds a line behind one of credentials.
fn push_behind(out: &mut Bytes, line: &[u8]) -> Result<(), AllocError>
    ensures { OnOk result (out.new ≡ out.old ++ Definitions.line_hidden Places.Credentials line.now) }
{
    if is_folded(line) {
        push_masked(out, line)
    } else {
        push_field(out, line)
    }
}

fn push_line(out: &mut Bytes, place: LinePlace, line: &[u8]) -> Result<(), AllocError>
    ensures { OnOk result (out.new ≡ out.old ++ Definitions.line_hidden place line.now) }
{
    match place {
        LinePlace::Plain => push_field(out, line),
        LinePlace::Credentials => push_behind(out, line),
        LinePlace::Body => push_crossed(out, line),
    }
}

/// Where the line behind one of the head stands.
fn head_behind(place: LinePlace, line: &[u8]) -> LinePlace
    ensures { result ≡ Definitions.head_behind place line.now }
{
    if is_end(line) {
        return LinePlace::Body;
    }
    if is_folded(line) {
        return place;
    }
    if is_credentials(line) {
        return LinePlace::Credentials;
    }
    LinePlace::Plain
}

fn place_behind(place: LinePlace, line: &[u8]) -> LinePlace
    ensures { result ≡ Definitions.place_behind place line.now }
{
    match place {
        LinePlace::Plain => head_behind(place, line),
        LinePlace::Credentials => head_behind(place, line),
        LinePlace::Body => place,
    }
}

/// A datagram, whatever it holds, with `x` in the place of the values of its credentials, and of its body.
pub(crate) fn hidden(alloc: Global, bytes: &[u8]) -> Result<Bytes, AllocError>
    ensures { IfOk result (λ text. text ≡ Definitions.hidden bytes.now) }
{
    let mut out = Bytes::with_room(alloc, bytes.len())?;
    let mut place = LinePlace::Plain;
    let mut rest = bytes;
    while let Some((line, behind)) = split_once(rest, b'\n') {
        push_line(&mut out, place, line)?;
        out.push(b'\n')?;
        place = place_behind(place, line);
        rest = behind;
    }
    push_line(&mut out, place, rest)?;
    Ok(out)
}
