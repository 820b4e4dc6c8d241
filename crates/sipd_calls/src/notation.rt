ghost use Rattle.std.specs.Prelude.{◌≡◌, ◌++◌, [], ◌∷◌, if◌then◌else◌, IfOk, OnOk};
ghost use Rattle.std.specs.List.{flat_map};
ghost use Rattle.std.specs.Str.{is_utf8};
ghost use Rattle.sipd_calls.specs.Notation as Definitions;

use sip_text::Bytes;
use sipd_report::{push_field, put_escaped, upper_digit};
use std::alloc::{AllocError, Global};

/// How something is written for programs.
#[derive(Clone, Copy)]
pub enum Notation {
    /// Comma-separated values (RFC 4180).
    Csv,
    /// An object a line (RFC 8259).
    Json,
    /// A row of a table of HTML a line.
    Html,
}

/// What a member says.
#[derive(Clone, Copy)]
pub enum Value<'v> {
    Words(&'v [u8]),
    Number(u64),
    Nothing,
}

/// Whether a byte is a quote or a backslash.
fn is_marked(byte: u8) -> bool
    ensures { result ≡ Definitions.is_marked byte }
{
    byte == b'"' || byte == b'\\'
}

/// Whether it isn't printable ASCII.
fn is_hidden(byte: u8) -> bool
    ensures { result ≡ Definitions.is_hidden byte }
{
    byte < 32 || byte > 126
}

/// Adds a byte of a text of JSON, as an escape unless it is a printable one of ASCII.
fn push_text_byte(out: &mut Bytes, byte: u8) -> Result<(), AllocError>
    ensures { OnOk result (out.new ≡ out.old ++ Definitions.text_byte byte) }
{
    if is_marked(byte) {
        return out.extend(&[b'\\', byte]);
    }
    if is_hidden(byte) {
        return out.extend(&[
            b'\\',
            b'u',
            b'0',
            b'0',
            upper_digit(byte / 16),
            upper_digit(byte % 16),
        ]);
    }
    out.push(byte)
}

fn push_text_bytes(out: &mut Bytes, text: &[u8]) -> Result<(), AllocError>
    ensures { OnOk result (out.new ≡ out.old ++ flat_map Definitions.text_byte text.now) }
{
    for byte in text {
        push_text_byte(out, *byte)?;
    }
    Ok(())
}

/// Adds a text of JSON.
fn push_text(out: &mut Bytes, text: &[u8]) -> Result<(), AllocError>
    ensures { OnOk result (out.new ≡ out.old ++ Definitions.json_text text.now) }
{
    out.push(b'"')?;
    push_text_bytes(out, text)?;
    out.push(b'"')
}

fn push_json_value(out: &mut Bytes, value: &Value<'_>) -> Result<(), AllocError>
    ensures { OnOk result (out.new ≡ out.old ++ Definitions.json_value (Definitions.seen value.now)) }
{
    match value {
        Value::Words(text) => push_text(out, text),
        Value::Number(number) => out.push_decimal(*number),
        Value::Nothing => out.extend(b"null"),
    }
}

/// Whether a text is UTF-8.
fn is_whole(text: &[u8]) -> bool
    ensures { result ≡ is_utf8 text.now }
{
    match str::from_utf8(text) {
        Ok(_) => true,
        Err(_) => false,
    }
}

/// Adds a byte of a text that isn't UTF-8, as an escape unless it is one of ASCII.
fn push_spelled_byte(out: &mut Bytes, byte: u8) -> Result<(), AllocError>
    ensures { OnOk result (out.new ≡ out.old ++ Definitions.spelled_byte byte) }
{
    if byte > 127 {
        return out.extend(&[b'\\', b'x', upper_digit(byte / 16), upper_digit(byte % 16)]);
    }
    out.push(byte)
}

fn push_spelled(out: &mut Bytes, text: &[u8]) -> Result<(), AllocError>
    ensures { OnOk result (out.new ≡ out.old ++ flat_map Definitions.spelled_byte text.now) }
{
    for byte in text {
        push_spelled_byte(out, *byte)?;
    }
    Ok(())
}

/// Adds a text as UTF-8.
fn push_plain(out: &mut Bytes, text: &[u8]) -> Result<(), AllocError>
    ensures { OnOk result (out.new ≡ out.old ++ Definitions.plain_text text.now) }
{
    if is_whole(text) {
        return out.extend(text);
    }
    push_spelled(out, text)
}

/// Whether a spreadsheet takes what begins with a byte for a formula.
fn begins_formula(byte: u8) -> bool
    ensures { result ≡ Definitions.begins_formula byte }
{
    match byte {
        b'=' | b'+' | b'-' | b'@' | b'\t' | b'\r' => true,
        _ => false,
    }
}

fn is_formula(text: &[u8]) -> bool
    ensures { result ≡ Definitions.is_formula text.now }
{
    match text.first() {
        Some(byte) => begins_formula(*byte),
        None => false,
    }
}

/// Adds a single quote in front of what would be taken for a formula.
fn push_guard(out: &mut Bytes, text: &[u8]) -> Result<(), AllocError>
    ensures { OnOk result (out.new ≡ out.old ++ (if Definitions.is_formula text.now then 39 ∷ [] else [])) }
{
    if is_formula(text) {
        return out.push(b'\'');
    }
    Ok(())
}

/// What a cell says of words.
fn cell_of(alloc: Global, text: &[u8]) -> Result<Bytes, AllocError>
    ensures { IfOk result (λ cell. cell ≡ Definitions.cell_said text.now) }
{
    let mut cell = Bytes::new(alloc);
    push_guard(&mut cell, text)?;
    push_plain(&mut cell, text)?;
    Ok(cell)
}

/// Adds a cell of words.
fn push_words(out: &mut Bytes, text: &[u8]) -> Result<(), AllocError>
    ensures { OnOk result (out.new ≡ out.old ++ Definitions.csv_value (Definitions.Words text.now)) }
{
    let cell = cell_of(out.allocator(), text)?;
    push_field(out, cell.as_slice())
}

fn push_csv_value(out: &mut Bytes, value: &Value<'_>) -> Result<(), AllocError>
    ensures { OnOk result (out.new ≡ out.old ++ Definitions.csv_value (Definitions.seen value.now)) }
{
    match value {
        Value::Words(text) => push_words(out, text),
        Value::Number(number) => out.push_decimal(*number),
        Value::Nothing => Ok(()),
    }
}

/// Adds a cell of a text, none of which is markup.
fn push_html_text(out: &mut Bytes, text: &[u8]) -> Result<(), AllocError>
    ensures { OnOk result (out.new ≡ out.old ++ Definitions.html_text text.now) }
{
    out.extend(b"<td>")?;
    put_escaped(out, text)?;
    out.extend(b"</td>")
}

/// Adds a cell of a number.
fn push_html_number(out: &mut Bytes, number: u64) -> Result<(), AllocError>
    ensures { OnOk result (out.new ≡ out.old ++ Definitions.html_number number) }
{
    out.extend(b"<td class=\"n\">")?;
    out.push_decimal(number)?;
    out.extend(b"</td>")
}

fn push_html_value(out: &mut Bytes, value: &Value<'_>) -> Result<(), AllocError>
    ensures { OnOk result (out.new ≡ out.old ++ Definitions.html_value (Definitions.seen value.now)) }
{
    match value {
        Value::Words(text) => push_html_text(out, text),
        Value::Number(number) => push_html_number(out, *number),
        Value::Nothing => out.extend(b"<td></td>"),
    }
}

/// Adds a name and the colon behind it.
fn push_name(out: &mut Bytes, name: &[u8]) -> Result<(), AllocError>
    ensures { OnOk result (out.new ≡ out.old ++ (Definitions.json_text name.now ++ 58 ∷ [])) }
{
    push_text(out, name)?;
    out.push(b':')
}

/// Adds a member.
fn push_member(
    out: &mut Bytes,
    notation: Notation,
    name: &[u8],
    value: &Value<'_>,
) -> Result<(), AllocError>
    ensures { OnOk result (out.new ≡ out.old ++ Definitions.member_text notation name.now (Definitions.seen value.now)) }
{
    match notation {
        Notation::Csv => push_csv_value(out, value),
        Notation::Json => {
            push_name(out, name)?;
            push_json_value(out, value)
        }
        Notation::Html => push_html_value(out, value),
    }
}

/// Adds the first member.
pub fn push_first(
    out: &mut Bytes,
    notation: Notation,
    name: &[u8],
    value: &Value<'_>,
) -> Result<(), AllocError>
    ensures { OnOk result (out.new ≡ out.old ++ Definitions.first_text notation name.now (Definitions.seen value.now)) }
{
    match notation {
        Notation::Csv => push_member(out, notation, name, value),
        Notation::Json => {
            out.push(b'{')?;
            push_member(out, notation, name, value)
        }
        Notation::Html => {
            out.extend(b"<tr>")?;
            push_member(out, notation, name, value)
        }
    }
}

/// What stands between two members.
fn comma(notation: Notation) -> &'static [u8]
    ensures { result.now ≡ Definitions.comma notation }
{
    match notation {
        Notation::Csv => b",",
        Notation::Json => b",",
        Notation::Html => b"",
    }
}

/// Adds one that follows others.
pub fn push_further(
    out: &mut Bytes,
    notation: Notation,
    name: &[u8],
    value: &Value<'_>,
) -> Result<(), AllocError>
    ensures { OnOk result (out.new ≡ out.old ++ Definitions.further_text notation name.now (Definitions.seen value.now)) }
{
    out.extend(comma(notation))?;
    push_member(out, notation, name, value)
}

/// Adds the end.
pub fn push_end(out: &mut Bytes, notation: Notation) -> Result<(), AllocError>
    ensures { OnOk result (out.new ≡ out.old ++ Definitions.end_text notation) }
{
    match notation {
        Notation::Csv => out.extend(b"\r\n"),
        Notation::Json => out.extend(b"}\n"),
        Notation::Html => out.extend(b"</tr>\n"),
    }
}
