//! The response that is made here to a request (RFC 3261 8.2.6): as a view, and as a text straight from the kept request.
//! Which status and which further fields it has is decided by who calls.
ghost use Rattle.std.specs.Prelude.{◌≡◌, ◌++◌, map, IfOk, OnOk};
ghost use Rattle.sip_message_fields.specs.Named.{first_of};
ghost use Rattle.sip_message_fields.specs.Values.{with_first};
ghost use Rattle.sip_message_form.specs.Text.{text_of};
ghost use Rattle.sip_edit_response.specs.Reply;
ghost use Rattle.sip_edit_response.specs.Tags;
ghost use Rattle.sip_header.specs.NameAddr.{name_addr_of};

use crate::reasons::reason_of;
use crate::reply_text::{put_first_line, put_reply_fields, room_of};
use crate::tags::ToTag;
use sip_header::{tag_of, written_address_of};
use sip_message_fields::{FieldName, Fields, Value, ViewField, ViewFields};
use sip_message_form::{KeptParts, View, ViewStart, put_body};
use sip_text::{Buffer, Bytes};
use std::alloc::{AllocError, Global};

/// The most fields of a response that stand once: From, To, Call-ID, CSeq and Timestamp.
const SINGLE_FIELDS: usize = 5;

/// The room for a response beside its further fields, which few fill: a longer one grows. What it copies of the request isn't
/// counted first, since that would pass over all fields once more.
const USUAL_REPLY: usize = 768;

/// Whether the value of a To takes a tag.
pub(crate) fn lacks_tag(alloc: Global, to: &[u8]) -> Result<bool, AllocError>
    ensures { IfOk result (λ lacks. lacks ≡ Reply.lacks_tag (name_addr_of to.now)) }
{
    match written_address_of(alloc, to)? {
        Some(to) => Ok(tag_of(to.parameters()).is_none()),
        None => Ok(false),
    }
}

/// The value of To in a response, of its own where a tag is added.
fn answered_to<'v>(
    alloc: Global,
    status: u16,
    tag: &[u8],
    to: &'v [u8],
) -> Result<Value<'v>, AllocError>
    ensures { IfOk result (λ value. value ≡ Reply.answered_to status tag.now to.now) }
{
    if status == 100 {
        return Ok(Value::of_part(to));
    }
    if !lacks_tag(alloc, to)? {
        return Ok(Value::of_part(to));
    }
    let room = to.len().saturating_add(b";tag=".len());
    let mut value = Bytes::with_room(alloc, room.saturating_add(tag.len()))?;
    value.extend(to)?;
    value.extend(b";tag=")?;
    value.extend(tag)?;
    Value::of_bytes(alloc, value)
}

/// Adds the first To as it stands in a response, if there is one.
fn put_to<'v>(
    alloc: Global,
    out: &mut ViewFields<'v>,
    status: u16,
    tag: &[u8],
    fields: &'v ViewFields<'_>,
) -> Result<(), AllocError>
    ensures { OnOk result (out.new ≡ out.old ++ map (Reply.answered_field status tag.now) (first_of FieldName.To fields.now)) }
{
    let Some(to) = fields.first_field(&FieldName::To) else {
        return Ok(());
    };
    let name = to.name().lent()?;
    let value = answered_to(alloc, status, tag, to.value().as_slice())?;
    out.push(ViewField::new(name, value))
}

/// Adds the Timestamp of a 100.
fn put_timestamp<'v>(
    out: &mut ViewFields<'v>,
    status: u16,
    fields: &'v ViewFields<'_>,
) -> Result<(), AllocError>
    ensures { OnOk result (out.new ≡ out.old ++ Reply.timestamp_for status fields.now) }
{
    if status != 100 {
        return Ok(());
    }
    out.push_first(&FieldName::Timestamp, fields)
}

/// The fields of a response.
fn reply_fields<'v>(
    alloc: Global,
    copied: &'v ViewFields<'_>,
    status: u16,
    to_tag: &[u8],
    extras: &'v Fields,
) -> Result<ViewFields<'v>, AllocError>
    ensures { IfOk result (λ fields. fields ≡ Reply.reply_fields status to_tag.now copied.now extras.now) }
{
    let many = copied
        .count(&FieldName::Via)
        .saturating_add(extras.as_slice().len());
    let mut fields = ViewFields::with_room(alloc, many.saturating_add(SINGLE_FIELDS))?;
    fields.extend_named(&FieldName::Via, copied)?;
    fields.push_first(&FieldName::From, copied)?;
    put_to(alloc, &mut fields, status, to_tag, copied)?;
    fields.push_first(&FieldName::CallId, copied)?;
    fields.push_first(&FieldName::CSeq, copied)?;
    put_timestamp(&mut fields, status, copied)?;
    fields.extend(extras)?;
    Ok(fields)
}

/// The response to a request, whose top Via names its source, with this status, this To tag where the request has
/// none, and further fields behind those that it copies; it has no body (RFC 3261 8.2.6). Of what the request has no
/// byte is copied but a To that gets a tag. `AllocError` is the only refusal.
pub fn reply_view<'v>(
    alloc: Global,
    request: &'v View<'_>,
    status: u16,
    to_tag: &[u8],
    extras: &'v Fields,
) -> Result<View<'v>, AllocError>
    ensures { IfOk result (λ answer. answer ≡ Reply.reply_of request.now status to_tag.now extras.now) }
{
    let fields = reply_fields(alloc, request.fields(), status, to_tag, extras)?;
    let start = ViewStart::Status {
        code: status,
        reason: reason_of(status),
    };
    Ok(View::new(start, fields, b""))
}

/// The text of the response to a request, whose top Via gets this value: with this status, this To tag where the request has
/// none, and further fields behind those that it copies (RFC 3261 8.2.6). It is written straight from the fields of the
/// request as it is kept. `AllocError` is the only refusal.
pub fn respond(
    alloc: Global,
    request: &KeptParts,
    via: &[u8],
    status: u16,
    tag: ToTag,
    extras: &Fields,
) -> Result<Bytes, AllocError>
    ensures { IfOk result (λ text. text ≡ text_of (Reply.reply_of
        (record request.now { fields = with_first FieldName.Via via.now request.now.fields }) status
        (Tags.to_tag tag.boot tag.number) extras.now)) }
{
    let room = USUAL_REPLY.saturating_add(room_of(extras.as_slice()));
    let mut out = Buffer::with_room(alloc, room)?;
    put_first_line(&mut out, status)?;
    put_reply_fields(alloc, &mut out, request, via, status, tag, extras)?;
    put_body(&mut out, b"")?;
    Ok(out.into_bytes())
}
