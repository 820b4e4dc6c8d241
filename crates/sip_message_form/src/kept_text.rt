ghost use Rattle.std.specs.Prelude.{◌≡◌, ◌++◌, length, codes, decimal, IfOk, OnOk};
ghost use Rattle.sip_message_form.specs.declared.message.Start.TheVariants.{Request, Status};
ghost use Rattle.sip_message_form.specs.Text.{start_text};
ghost use Rattle.sip_message_form.specs.ViewStart.{start_seen};
ghost use Rattle.sip_message_form.specs.KeptStart.{IsStartKept};
ghost use Rattle.sip_message_form.specs.Kept.{IsBodyKept};

use crate::kept_start::KeptStart;
use crate::view_start::ViewStart;
use sip_message_fields::put_marked;
use sip_message_fields::text::{Buffer, Span};
use std::alloc::AllocError;

/// Puts a request line with its CRLF into a store. In the server no request is kept so.
fn put_request(
    store: &mut Buffer,
    method: &[u8],
    uri: &[u8],
    version: &[u8],
) -> Result<KeptStart, AllocError>
    ensures put { IfOk result (λ kept. IsStartKept (Request method.now uri.now version.now) store.new kept) }
    ensures text { OnOk result (store.new ≡ store.old ++ start_text (Request method.now uri.now version.now) ++ codes "\r\n") }
{
    let first = put_marked(store, method, b" ")?;
    let uri = put_marked(store, uri, b" ")?;
    let version = put_marked(store, version, b"\r\n")?;
    Ok(KeptStart {
        code: None,
        first,
        uri,
        version,
    })
}

/// Puts what stands before the reason in a status line.
fn put_code(store: &mut Buffer, code: u16) -> Result<(), AllocError>
    ensures { OnOk result (store.new ≡ store.old ++ (codes "SIP/2.0 " ++ decimal code ++ codes " ")) }
{
    store.extend(b"SIP/2.0 ")?;
    store.push_decimal(u64::from(code))?;
    store.extend(b" ")
}

/// Puts a status line with its CRLF into a store.
fn put_status(store: &mut Buffer, code: u16, reason: &[u8]) -> Result<KeptStart, AllocError>
    ensures put { IfOk result (λ kept. IsStartKept (Status code reason.now) store.new kept) }
    ensures text { OnOk result (store.new ≡ store.old ++ start_text (Status code reason.now) ++ codes "\r\n") }
{
    put_code(store, code)?;
    let first = put_marked(store, reason, b"\r\n")?;
    Ok(KeptStart {
        code: Some(code),
        first,
        uri: first,
        version: first,
    })
}

/// Puts a first line with its CRLF into a store.
pub(crate) fn put_start_line(
    store: &mut Buffer,
    start: &ViewStart<'_>,
) -> Result<KeptStart, AllocError>
    ensures put { IfOk result (λ kept. IsStartKept (start_seen start.now) store.new kept) }
    ensures text { OnOk result (store.new ≡ store.old ++ start_text (start_seen start.now) ++ codes "\r\n") }
{
    match start {
        ViewStart::Request {
            method,
            uri,
            version,
        } => put_request(store, method, uri, version.as_slice()),
        ViewStart::Status { code, reason } => put_status(store, *code, reason),
    }
}

/// Puts the length of a body, and the empty line.
fn put_length(store: &mut Buffer, length: usize) -> Result<(), AllocError>
    ensures { OnOk result (store.new ≡ store.old ++ (codes "Content-Length: " ++ decimal length ++ codes "\r\n\r\n")) }
{
    store.extend(b"Content-Length: ")?;
    store.push_decimal(length as u64)?;
    store.extend(b"\r\n\r\n")
}

/// Puts the length of a body, the empty line and the body into a store.
pub(crate) fn put_body_text(store: &mut Buffer, body: &[u8]) -> Result<Span, AllocError>
    ensures put { IfOk result (λ span. IsBodyKept body.now store.new span) }
    ensures text { OnOk result
        (store.new ≡ store.old ++ codes "Content-Length: " ++ decimal (length body.now) ++ codes "\r\n\r\n" ++ body.now) }
{
    put_length(store, body.len())?;
    put_marked(store, body, b"")
}
