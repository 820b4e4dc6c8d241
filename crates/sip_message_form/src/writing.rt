//! The written form of a message that owns its bytes (RFC 3261 7), and its length. Views are written in `view_writing`.
ghost use Rattle.std.specs.Prelude.{◌≡◌, ◌++◌, length, min, ◌-◌, ◌^◌, IfOk, OnOk};
ghost use Rattle.std.specs.List.{flat_map};
ghost use Rattle.sip_message_form.specs.Text.{start_text, field_text, text_of};

use crate::lengths::{line_length, request_length, status_length, whole_length};
use crate::message::{Message, Start};
use crate::putting::{put_body, put_line, put_request_line, put_status_line};
use sip_message_fields::Field;
use sip_message_fields::text::{Buffer, Bytes};
use std::alloc::{AllocError, Global};

/// Puts a start line without its CRLF.
fn put_start(out: &mut Buffer, start: &Start) -> Result<(), AllocError>
    ensures { OnOk result (out.new ≡ out.old ++ start_text start.now) }
{
    match start {
        Start::Request {
            method,
            uri,
            version,
        } => put_request_line(out, method.as_slice(), uri.as_slice(), version.as_slice()),
        Start::Status { code, reason } => put_status_line(out, *code, reason.as_slice()),
    }
}

/// Puts a field with its CRLF.
fn put_field(out: &mut Buffer, field: &Field) -> Result<(), AllocError>
    ensures { OnOk result (out.new ≡ out.old ++ field_text field.now) }
{
    put_line(out, field.name.spelling(), field.value.as_slice())
}

/// Puts each field with its CRLF.
fn put_fields(out: &mut Buffer, fields: &[Field]) -> Result<(), AllocError>
    ensures { OnOk result (out.new ≡ out.old ++ flat_map field_text fields.now) }
{
    for field in fields {
        put_field(out, field)?;
    }
    Ok(())
}

/// Puts the written form of a message.
fn put_message(out: &mut Buffer, message: &Message) -> Result<(), AllocError>
    ensures { OnOk result (out.new ≡ out.old ++ text_of message.now) }
{
    put_start(out, &message.start)?;
    out.extend(b"\r\n")?;
    put_fields(out, message.fields.as_slice())?;
    put_body(out, message.body.as_slice())
}

/// The written form of a message: its start line, each field on a line of its own as `Name: value`, then
/// `Content-Length` with the length of the body, the empty line, and the body (RFC 3261 7). `AllocError`
/// is the only refusal.
pub fn write(alloc: Global, message: &Message) -> Result<Bytes, AllocError>
    ensures { IfOk result (λ written. written ≡ text_of message.now) }
{
    let mut out = Buffer::with_room(alloc, written_length(message))?;
    put_message(&mut out, message)?;
    Ok(out.into_bytes())
}

/// The length of a start line without its CRLF, or the greatest `usize` where it is longer.
fn start_length(start: &Start) -> usize
    ensures { result ≡ min (length (start_text start.now)) (2 ^ 64 - 1) }
{
    match start {
        Start::Request {
            method,
            uri,
            version,
        } => request_length(method.as_slice(), uri.as_slice(), version.as_slice()),
        Start::Status { code, reason } => status_length(*code, reason.as_slice()),
    }
}

/// The length of a field with its CRLF, or the greatest `usize` where it is longer.
fn field_length(field: &Field) -> usize
    ensures { result ≡ min (length (field_text field.now)) (2 ^ 64 - 1) }
{
    line_length(field.name.spelling(), field.value.as_slice())
}

/// The length of some fields, each with its CRLF, or the greatest `usize` where it is longer.
fn fields_length(fields: &[Field]) -> usize
    ensures { result ≡ min (length (flat_map field_text fields.now)) (2 ^ 64 - 1) }
{
    let mut length: usize = 0;
    for field in fields {
        length = length.saturating_add(field_length(field));
    }
    length
}

/// The length of the written form of a message in bytes, or the greatest `usize` where it is longer. Nothing is
/// written to find it.
pub fn written_length(message: &Message) -> usize
    ensures { result ≡ min (length (text_of message.now)) (2 ^ 64 - 1) }
{
    let start = start_length(&message.start);
    let fields = fields_length(message.fields.as_slice());
    whole_length(start, fields, message.body.as_slice().len())
}
