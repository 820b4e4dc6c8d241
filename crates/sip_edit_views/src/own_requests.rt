//! ACK and CANCEL of a request that was sent (RFC 3261 9.1, 17.1.1.3), as views of it. The server sends the texts of `own_request_text`.
ghost use Rattle.std.specs.Prelude.{◌≡◌, ◌++◌, ◌∷◌, [], decimal, codes, option_map, IfOk, OnOk};
ghost use Rattle.std.specs.Option.{option_and_then, option_to_list};
ghost use Rattle.sip_message_fields.specs.declared.field_name.FieldName.TheVariants as Name;
ghost use Rattle.sip_message_fields.specs.Named.{first_of};
ghost use Rattle.sip_message_fields.specs.Values.{first_value};
ghost use Rattle.sip_header.specs.CSeq as CSeqs;
ghost use Rattle.sip_edit.specs.OwnRequests;

use sip_edit::to_field;
use sip_header::cseq_of;
use sip_message_fields::{FieldName, KnownName, Value, ViewField, ViewFields, ViewName};
use sip_message_form::{View, ViewStart};
use sip_route::request_uri;
use sip_text::Bytes;
use std::alloc::{AllocError, Global};

/// The most fields that stand once: Via, Max-Forwards, From, To, Call-ID and CSeq.
const SINGLE_FIELDS: usize = 6;

/// The most bytes of a CSeq besides its method: its number and a space.
const REST_OF_CSEQ: usize = 11;

/// Adds a field, if there is one.
fn put_given<'v>(out: &mut ViewFields<'v>, field: Option<ViewField<'v>>) -> Result<(), AllocError>
    ensures { OnOk result (out.new ≡ out.old ++ option_to_list field.entry) }
{
    match field {
        Some(field) => out.push(field),
        None => Ok(()),
    }
}

/// Adds the Max-Forwards of a new request (RFC 3261 8.1.1.6).
fn put_seventy(out: &mut ViewFields<'_>) -> Result<(), AllocError>
    ensures { OnOk result (out.new ≡ out.old ++ OwnRequests.seventy ∷ []) }
{
    let name = ViewName::of_name(KnownName::MaxForwards);
    out.push(ViewField::new(name, Value::of_part(b"70")))
}

/// The value of a CSeq.
fn cseq_text(alloc: Global, number: u32, method: &[u8]) -> Result<Bytes, AllocError>
    ensures { IfOk result (λ text. text ≡ decimal number ++ codes " " ++ method.now) }
{
    let mut text = Bytes::with_room(alloc, method.len().saturating_add(REST_OF_CSEQ))?;
    text.push_decimal(u64::from(number))?;
    text.extend(b" ")?;
    text.extend(method)?;
    Ok(text)
}

/// Adds a CSeq with a method and the number of the first among some fields, if that can be read.
fn put_cseq(
    alloc: Global,
    out: &mut ViewFields<'_>,
    method: &[u8],
    fields: &ViewFields<'_>,
) -> Result<(), AllocError>
    ensures { OnOk result (out.new ≡ out.old ++ OwnRequests.cseq_with method.now (option_and_then CSeqs.cseq_of (first_value Name.CSeq fields.now))) }
{
    let Some(value) = fields.first(&FieldName::CSeq) else {
        return Ok(());
    };
    let Some(cseq) = cseq_of(value) else {
        return Ok(());
    };
    let text = cseq_text(alloc, cseq.number, method)?;
    let name = ViewName::of_name(KnownName::CSeq);
    out.push(ViewField::new(name, Value::of_bytes(alloc, text)?))
}

/// The fields of a request that belongs to one that was sent, with a To.
fn fields_like<'v>(
    alloc: Global,
    method: &[u8],
    to: Option<ViewField<'v>>,
    sent: &'v ViewFields<'_>,
) -> Result<ViewFields<'v>, AllocError>
    ensures { IfOk result (λ fields. fields ≡ OwnRequests.fields_like method.now (option_to_list to.entry) sent.now) }
{
    let room = sent.count(&FieldName::Route).saturating_add(SINGLE_FIELDS);
    let mut fields = ViewFields::with_room(alloc, room)?;
    fields.push_first(&FieldName::Via, sent)?;
    put_seventy(&mut fields)?;
    fields.push_first(&FieldName::From, sent)?;
    put_given(&mut fields, to)?;
    fields.push_first(&FieldName::CallId, sent)?;
    put_cseq(alloc, &mut fields, method, sent)?;
    fields.extend_named(&FieldName::Route, sent)?;
    Ok(fields)
}

/// The request of a method that belongs to one that was sent, with a To.
fn request_like<'v>(
    alloc: Global,
    method: &'v [u8],
    to: Option<ViewField<'v>>,
    sent: &'v View<'_>,
) -> Result<View<'v>, AllocError>
    ensures { IfOk result (λ request. request ≡ OwnRequests.request_like method.now (option_to_list to.entry) sent.now) }
{
    let fields = fields_like(alloc, method, to, sent.fields())?;
    let start = ViewStart::Request {
        method,
        uri: request_uri(sent.start()),
        version: Value::of_part(b"SIP/2.0"),
    };
    Ok(View::new(start, fields, b""))
}

/// The ACK of a final answer with this To, if that had one, to an INVITE that was sent (RFC 3261 17.1.1.3). No byte is
/// copied but its CSeq, which is written anew. `AllocError` is the only refusal.
pub fn ack_with<'v>(
    alloc: Global,
    to: Option<&'v [u8]>,
    sent: &'v View<'_>,
) -> Result<View<'v>, AllocError>
    ensures { IfOk result (λ ack. ack ≡ OwnRequests.ack_with (option_map (λ value. value.now) to.entry) sent.now) }
{
    request_like(alloc, b"ACK", to_field(to), sent)
}

/// The ACK of a response to an INVITE that was sent: its To is the response's, if that has one (RFC 3261 17.1.1.3). No
/// byte is copied but its CSeq, which is written anew. `AllocError` is the only refusal.
pub fn ack_of<'v>(
    alloc: Global,
    sent: &'v View<'_>,
    response: &'v View<'_>,
) -> Result<View<'v>, AllocError>
    ensures { IfOk result (λ ack. ack ≡ OwnRequests.ack_of sent.now response.now) }
{
    ack_with(alloc, response.fields().first(&FieldName::To), sent)
}

/// The first To among some fields, of which no byte is copied.
fn first_to<'v>(fields: &'v ViewFields<'_>) -> Result<Option<ViewField<'v>>, AllocError>
    ensures { IfOk result (λ to. option_to_list to ≡ first_of Name.To fields.now) }
{
    match fields.first_field(&FieldName::To) {
        Some(field) => Ok(Some(field.lent()?)),
        None => Ok(None),
    }
}

/// The CANCEL of a request that was sent (RFC 3261 9.1). No byte is copied but its CSeq, which is written anew.
/// `AllocError` is the only refusal.
pub fn cancel_of<'v>(alloc: Global, sent: &'v View<'_>) -> Result<View<'v>, AllocError>
    ensures { IfOk result (λ cancel. cancel ≡ OwnRequests.cancel_of sent.now) }
{
    let to = first_to(sent.fields())?;
    request_like(alloc, b"CANCEL", to, sent)
}
