//! The first line and the fields of a response as text (RFC 3261 8.2.6), written from a kept request for `respond`.
ghost use Rattle.std.specs.Prelude.{◌≡◌, ◌++◌, codes, map, IfSome, OnOk};
ghost use Rattle.std.specs.List.{flat_map};
ghost use Rattle.sip_message_fields.specs.Named.{first_of};
ghost use Rattle.sip_message_fields.specs.Values.{with_first};
ghost use Rattle.sip_message_form.specs.declared.message.Start.TheVariants.{Status};
ghost use Rattle.sip_message_form.specs.Text.{start_text, field_text};
ghost use Rattle.sip_edit_response.specs.Reasons;
ghost use Rattle.sip_edit_response.specs.Reply;
ghost use Rattle.sip_edit_response.specs.Tags;

use crate::reasons::reason_of;
use crate::reply::lacks_tag;
use crate::tags::{ToTag, put_tag};
use sip_message_fields::{Field, FieldName, Fields, ViewField};
use sip_message_form::{KeptParts, put_line, put_status_line};
use sip_text::Buffer;
use std::alloc::{AllocError, Global};

/// The status line of a response that is made here often, with its CRLF.
#[tactic(auto, using(crate::proofs::StatusLines::trying, crate::proofs::StatusLines::ok, crate::proofs::StatusLines::unauthorized, crate::proofs::StatusLines::forbidden))]
fn plain_line(status: u16) -> Option<&'static [u8]>
    ensures { IfSome result (λ line. line.now ≡ start_text (Status status (Reasons.reason_of status)) ++ codes "\r\n") }
{
    match status {
        100 => Some(b"SIP/2.0 100 Trying\r\n"),
        200 => Some(b"SIP/2.0 200 OK\r\n"),
        401 => Some(b"SIP/2.0 401 Unauthorized\r\n"),
        403 => Some(b"SIP/2.0 403 Forbidden\r\n"),
        _ => None,
    }
}

/// Adds the status line of a response, with its CRLF.
pub(crate) fn put_first_line(out: &mut Buffer, status: u16) -> Result<(), AllocError>
    ensures { OnOk result (out.new ≡ out.old ++ start_text (Status status (Reasons.reason_of status)) ++ codes "\r\n") }
{
    if let Some(line) = plain_line(status) {
        return out.extend(line);
    }
    put_status_line(out, status, reason_of(status))?;
    out.extend(b"\r\n")
}

/// Adds the value of To as it stands in a response.
fn put_answered_value(
    alloc: Global,
    out: &mut Buffer,
    status: u16,
    tag: ToTag,
    to: &[u8],
) -> Result<(), AllocError>
    ensures { OnOk result (out.new ≡ out.old ++ Reply.answered_to status (Tags.to_tag tag.boot tag.number) to.now) }
{
    out.extend(to)?;
    if status == 100 {
        return Ok(());
    }
    if !lacks_tag(alloc, to)? {
        return Ok(());
    }
    out.extend(b";tag=")?;
    put_tag(out, tag)
}

/// Adds a To as it stands in a response.
fn put_answered(
    alloc: Global,
    out: &mut Buffer,
    status: u16,
    tag: ToTag,
    to: &ViewField<'_>,
) -> Result<(), AllocError>
    ensures { OnOk result (out.new ≡ out.old ++ field_text (Reply.answered_field status (Tags.to_tag tag.boot tag.number) to.now)) }
{
    out.extend(to.name().spelling())?;
    out.extend(b": ")?;
    put_answered_value(alloc, out, status, tag, to.value().as_slice())?;
    out.extend(b"\r\n")
}

/// Adds the first To as it stands in a response, if there is one.
#[tactic(auto, using(crate::proofs::ReplyTexts::one_line))]
fn put_to(
    alloc: Global,
    out: &mut Buffer,
    status: u16,
    tag: ToTag,
    request: &KeptParts,
) -> Result<(), AllocError>
    ensures { OnOk result (out.new ≡ out.old
        ++ flat_map field_text (map (Reply.answered_field status (Tags.to_tag tag.boot tag.number)) (first_of FieldName.To request.now.fields))) }
{
    match request.first_field(&FieldName::To) {
        Some(to) => put_answered(alloc, out, status, tag, &to),
        None => Ok(()),
    }
}

/// Adds the Timestamp of a 100.
fn put_timestamp(out: &mut Buffer, status: u16, request: &KeptParts) -> Result<(), AllocError>
    ensures { OnOk result (out.new ≡ out.old ++ flat_map field_text (Reply.timestamp_for status request.now.fields)) }
{
    if status != 100 {
        return Ok(());
    }
    request.put_first(out, &FieldName::Timestamp)
}

/// Adds further fields.
fn put_extras(out: &mut Buffer, extras: &[Field]) -> Result<(), AllocError>
    ensures { OnOk result (out.new ≡ out.old ++ flat_map field_text extras.now) }
{
    for field in extras {
        put_line(out, field.name.spelling(), field.value.as_slice())?;
    }
    Ok(())
}

/// Adds the fields of a response to a kept request whose top Via has another value, each with its CRLF. `AllocError` is the
/// only refusal.
#[tactic(auto, using(crate::proofs::ReplyTexts::fields_are))]
pub(crate) fn put_reply_fields(
    alloc: Global,
    out: &mut Buffer,
    request: &KeptParts,
    via: &[u8],
    status: u16,
    tag: ToTag,
    extras: &Fields,
) -> Result<(), AllocError>
    ensures { OnOk result (out.new ≡ out.old ++ flat_map field_text
        (Reply.reply_fields status (Tags.to_tag tag.boot tag.number) (with_first FieldName.Via via.now request.now.fields) extras.now)) }
{
    request.put_named_with_first(out, &FieldName::Via, via)?;
    request.put_first(out, &FieldName::From)?;
    put_to(alloc, out, status, tag, request)?;
    request.put_first(out, &FieldName::CallId)?;
    request.put_first(out, &FieldName::CSeq)?;
    put_timestamp(out, status, request)?;
    put_extras(out, extras.as_slice())
}

/// How many bytes some further fields have with their CRLFs.
pub(crate) fn room_of(extras: &[Field]) -> usize {
    let mut room: usize = 0;
    for field in extras {
        let name = field.name.spelling().len().saturating_add(4);
        room = room
            .saturating_add(name)
            .saturating_add(field.value.as_slice().len());
    }
    room
}
