ghost use Rattle.std.specs.Prelude.{◌≡◌, ◌++◌, length, codes, decimal, OnOk};
ghost use Rattle.sip_message_form.specs.declared.message.Start.TheVariants.{Request, Status};
ghost use Rattle.sip_message_form.specs.Text.{start_text};

use sip_message_fields::text::Buffer;
use std::alloc::AllocError;

/// Puts a request line of these parts without its CRLF (RFC 3261 7.1). `AllocError` is the only refusal.
pub fn put_request_line(
    out: &mut Buffer,
    method: &[u8],
    uri: &[u8],
    version: &[u8],
) -> Result<(), AllocError>
    ensures { OnOk result (out.new ≡ out.old ++ start_text (Request method.now uri.now version.now)) }
{
    out.extend(method)?;
    out.extend(b" ")?;
    out.extend(uri)?;
    out.extend(b" ")?;
    out.extend(version)
}

/// Puts a status line of these parts without its CRLF (RFC 3261 7.2). `AllocError` is the only refusal.
pub fn put_status_line(out: &mut Buffer, code: u16, reason: &[u8]) -> Result<(), AllocError>
    ensures { OnOk result (out.new ≡ out.old ++ start_text (Status code reason.now)) }
{
    out.extend(b"SIP/2.0 ")?;
    out.push_decimal(u64::from(code))?;
    out.extend(b" ")?;
    out.extend(reason)
}

/// Puts a field of these parts with its CRLF (RFC 3261 7.3.1). `AllocError` is the only refusal.
pub fn put_line(out: &mut Buffer, name: &[u8], value: &[u8]) -> Result<(), AllocError>
    ensures { OnOk result (out.new ≡ out.old ++ name.now ++ codes ": " ++ value.now ++ codes "\r\n") }
{
    out.extend(name)?;
    out.extend(b": ")?;
    out.extend(value)?;
    out.extend(b"\r\n")
}

/// Puts what stands behind the fields of a message: the length of its body, the empty line, and the body (RFC 3261 7).
/// `AllocError` is the only refusal.
pub fn put_body(out: &mut Buffer, body: &[u8]) -> Result<(), AllocError>
    ensures { OnOk result (out.new ≡ out.old ++ codes "Content-Length: " ++ decimal (length body.now) ++ codes "\r\n\r\n" ++ body.now) }
{
    if body.is_empty() {
        return out.extend(b"Content-Length: 0\r\n\r\n");
    }
    out.extend(b"Content-Length: ")?;
    out.push_decimal(body.len() as u64)?;
    out.extend(b"\r\n\r\n")?;
    out.extend(body)
}
