ghost use Rattle.std.specs.Prelude.{◌≡◌, ◌++◌, OnOk};
ghost use Rattle.std.specs.List.{flat_map};
ghost use Rattle.sip_message_form.specs.Text.{field_text, AreLinesOf};

use crate::putting::put_line;
use sip_message_fields::ViewField;
use sip_message_fields::text::Buffer;
use std::alloc::AllocError;

/// Puts a field with its CRLF (RFC 3261 7.3.1). `AllocError` is the only refusal.
pub fn put_field(out: &mut Buffer, field: &ViewField<'_>) -> Result<(), AllocError>
    ensures { OnOk result (out.new ≡ out.old ++ field_text field.now) }
{
    match field.line() {
        Some(line) => out.extend(line),
        None => put_line(out, field.name().spelling(), field.value().as_slice()),
    }
}

/// Puts each field with its CRLF. `AllocError` is the only refusal.
pub fn put_fields(out: &mut Buffer, fields: &[ViewField<'_>]) -> Result<(), AllocError>
    ensures { OnOk result (out.new ≡ out.old ++ flat_map field_text fields.now) }
{
    for field in fields {
        put_field(out, field)?;
    }
    Ok(())
}

/// Puts each field with its CRLF, by their lines where these are known. `AllocError` is the only refusal.
pub(crate) fn put_lines(
    out: &mut Buffer,
    fields: &[ViewField<'_>],
    lines: Option<&[u8]>,
) -> Result<(), AllocError>
    requires { AreLinesOf lines fields.now }
    ensures { OnOk result (out.new ≡ out.old ++ flat_map field_text fields.now) }
{
    match lines {
        Some(lines) => out.extend(lines),
        None => put_fields(out, fields),
    }
}
