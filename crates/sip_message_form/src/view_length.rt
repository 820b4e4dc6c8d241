ghost use Rattle.std.specs.Prelude.{◌≡◌, ◌++◌, codes, length, min, ◌-◌, ◌^◌, IfOk};
ghost use Rattle.std.specs.List.{flat_map};
ghost use Rattle.sip_message_form.specs.Text.{start_text, field_text, text_of};
ghost use Rattle.sip_message_form.specs.ViewStart.{start_seen};

use crate::lengths::{line_length, request_length, status_length, whole_length};
use crate::message_view::View;
use crate::view_start::ViewStart;
use sip_message_fields::ViewField;
use std::alloc::AllocError;

/// The length of a start line without its CRLF, or the greatest `usize` where it is longer.
fn start_length(start: &ViewStart<'_>) -> usize
    ensures { result ≡ min (length (start_text (start_seen start.now))) (2 ^ 64 - 1) }
{
    match start {
        ViewStart::Request {
            method,
            uri,
            version,
        } => request_length(method, uri, version.as_slice()),
        ViewStart::Status { code, reason } => status_length(*code, reason),
    }
}

/// The length of a field with its CRLF, or the greatest `usize` where it is longer.
#[tactic(auto, using(crate::proofs::WrittenLines::line_length))]
fn field_length(field: &ViewField<'_>) -> usize
    ensures { result ≡ min (length (field_text field.now)) (2 ^ 64 - 1) }
{
    match field.line() {
        Some(line) => line.len(),
        None => line_length(field.name().spelling(), field.value().as_slice()),
    }
}

/// The length of some fields, each with its CRLF, or the greatest `usize` where it is longer.
fn fields_length(fields: &[ViewField<'_>]) -> usize
    ensures { result ≡ min (length (flat_map field_text fields.now)) (2 ^ 64 - 1) }
{
    let mut length: usize = 0;
    for field in fields {
        let Some(longer) = length.checked_add(field_length(field)) else {
            return usize::MAX;
        };
        length = longer;
    }
    length
}

/// The length of a start line with its CRLF. `AllocError` is the only refusal.
pub(crate) fn first_line_length(start: &ViewStart<'_>) -> Result<usize, AllocError>
    ensures { IfOk result (λ room. room ≡ length (start_text (start_seen start.now) ++ codes "\r\n")) }
{
    match start_length(start).checked_add(b"\r\n".len()) {
        Some(length) => Ok(length),
        None => Err(AllocError),
    }
}

impl<'a> View<'a> {
    /// The length of the written form of its message in bytes, or the greatest `usize` where it is longer.
    pub fn written_length(&self) -> usize
        ensures { result ≡ min (length (text_of self.now)) (2 ^ 64 - 1) }
    {
        let start = start_length(self.start());
        let fields = match self.lines() {
            Some(lines) => lines.len(),
            None => fields_length(self.fields().as_slice()),
        };
        whole_length(start, fields, self.body().len())
    }
}
