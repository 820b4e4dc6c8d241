//! ACK and CANCEL of a request that went to a target (RFC 3261 9.1, 17.1.1.3), as texts written straight from the kept request.
//! `own_requests` has the same as views.
ghost use Rattle.std.specs.Prelude.{◌≡◌, ◌++◌, codes, IfOk, OnOk, option_map};
ghost use Rattle.std.specs.Option.{option_and_then, option_to_list};
ghost use Rattle.std.specs.List.{flat_map};
ghost use Rattle.sip_message_fields.specs.declared.field_name.FieldName.TheVariants as Name;
ghost use Rattle.sip_message_fields.specs.Named.{all_named};
ghost use Rattle.sip_message_form.specs.declared.message.Start.TheVariants.{Request};
ghost use Rattle.sip_message_form.specs.Text.{start_text, field_text, text_of};
ghost use Rattle.sip_message_form.specs.ViewStart.{start_seen};
ghost use Rattle.sip_route.specs.header.CSeq as CSeqs;
ghost use Rattle.sip_route.specs.RoutesKept.{fields_kept};
ghost use Rattle.sip_route.specs.Way.{request_uri};
ghost use Rattle.sip_edit.specs.Onward as Goes;
ghost use Rattle.sip_edit.specs.OwnRequests;
ghost use Rattle.sip_edit.specs.OwnRequestText as Spec;
ghost use Rattle.sip_edit.specs.OwnVia.{branch_text, own_via};

use crate::branch_id::BranchId;
use crate::own_via::put_via;
use sip_message_fields::{FieldName, KnownName, Value, ViewField, ViewName};
use sip_message_form::{KeptParts, ViewStart, put_body, put_field};
use sip_route::header::cseq_of;
use sip_route::{Own, RoutesKept};
use sip_text::{Buffer, Bytes};
use std::alloc::{AllocError, Global};

/// The room for such a request beside its Request-URI, which few fill: a longer one grows. What it takes over isn't counted
/// first, since that would look up each field once more.
const USUAL_REQUEST: usize = 512;

/// The Request-URI of a request with this first line that goes to a target.
fn target_uri<'v>(start: &ViewStart<'_>, uri: &'v [u8]) -> &'v [u8]
    ensures { result.now ≡ request_uri (Goes.with_uri uri.now (start_seen start.now)) }
{
    match start {
        ViewStart::Request { .. } => uri,
        ViewStart::Status { .. } => b"",
    }
}

/// Adds the first line of such a request, with its CRLF.
#[tactic(auto, using(crate::proofs::BesideTexts::line_is))]
fn put_first_line(out: &mut Buffer, method: &[u8], uri: &[u8]) -> Result<(), AllocError>
    ensures { OnOk result (out.new ≡ out.old ++ start_text (Request method.now uri.now (codes "SIP/2.0")) ++ codes "\r\n") }
{
    out.extend(method)?;
    out.extend(b" ")?;
    out.extend(uri)?;
    out.extend(b" SIP/2.0\r\n")
}

/// Adds what stands before all that such a request takes over: its first line, this server's Via of a branch, and a
/// Max-Forwards of 70.
fn put_front(
    out: &mut Buffer,
    own: &Own,
    boot: u64,
    branch: BranchId,
    method: &[u8],
    uri: &[u8],
) -> Result<(), AllocError>
    ensures { OnOk result (out.new ≡ out.old
        ++ Spec.front_text method.now uri.now (own_via own.now (branch_text boot branch.number branch.target))) }
{
    put_first_line(out, method, uri)?;
    put_via(out, own, boot, branch)?;
    out.extend(b"Max-Forwards: 70\r\n")
}

/// Adds a field with its CRLF, if there is one.
#[tactic(auto, using(crate::proofs::BesideTexts::one_line))]
fn put_given(out: &mut Buffer, field: Option<&ViewField<'_>>) -> Result<(), AllocError>
    ensures { OnOk result (out.new ≡ out.old ++ flat_map field_text (option_to_list (option_map (λ field. field.now) field.entry))) }
{
    match field {
        Some(field) => put_field(out, field),
        None => Ok(()),
    }
}

/// Adds a CSeq of this number and method.
fn put_number(out: &mut Buffer, number: u32, method: &[u8]) -> Result<(), AllocError>
    ensures { OnOk result (out.new ≡ out.old ++ Spec.cseq_text number method.now) }
{
    out.extend(b"CSeq: ")?;
    out.push_decimal(u64::from(number))?;
    out.extend(b" ")?;
    out.extend(method)?;
    out.extend(b"\r\n")
}

/// Adds a CSeq with a method and the number of another, if that can be read.
#[tactic(auto, using(crate::proofs::BesideTexts::cseq_is))]
fn put_cseq(out: &mut Buffer, method: &[u8], value: Option<&[u8]>) -> Result<(), AllocError>
    ensures { OnOk result (out.new ≡ out.old ++ flat_map field_text (OwnRequests.cseq_with method.now (option_and_then CSeqs.cseq_of (option_map (λ value. value.now) value.entry)))) }
{
    let Some(value) = value else {
        return Ok(());
    };
    let Some(cseq) = cseq_of(value) else {
        return Ok(());
    };
    put_number(out, cseq.number, method)
}

/// Adds the Routes that are left.
#[tactic(auto, using(crate::proofs::BesideTexts::no_route, crate::proofs::BesideTexts::taken_off, crate::proofs::BesideTexts::passed_on))]
fn put_routes(
    out: &mut Buffer,
    routes: RoutesKept,
    fields: &[ViewField<'_>],
) -> Result<(), AllocError>
    ensures { OnOk result (out.new ≡ out.old ++ flat_map field_text (all_named Name.Route (fields_kept routes fields.now))) }
{
    let mut routes = routes;
    for field in fields {
        if !field.name().is_same(&FieldName::Route) {
            continue;
        }
        if routes.takes(field) {
            put_field(out, field)?;
        }
    }
    Ok(())
}

/// Adds the Routes that are left of a request as it came, of which there are mostly none.
#[tactic(auto, using(crate::proofs::BesideTexts::none_kept))]
fn put_routes_left(
    alloc: Global,
    out: &mut Buffer,
    routes: RoutesKept,
    came: &KeptParts,
) -> Result<(), AllocError>
    ensures { OnOk result (out.new ≡ out.old ++ flat_map field_text (all_named Name.Route (fields_kept routes came.now.fields))) }
{
    if routes.kept == 0 {
        return Ok(());
    }
    let fields = came.fields(alloc)?;
    put_routes(out, routes, fields.as_slice())
}

/// The text of the request of a method that belongs to one which went to a target, with a To: of the request as it came, if
/// these Routes are left of it.
fn text_beside(
    alloc: Global,
    own: &Own,
    boot: u64,
    branch: BranchId,
    method: &[u8],
    to: Option<&ViewField<'_>>,
    uri: &[u8],
    routes: RoutesKept,
    came: &KeptParts,
) -> Result<Bytes, AllocError>
    ensures { IfOk result (λ text. text ≡ text_of (Spec.beside method.now (option_to_list (option_map (λ field. field.now) to.entry)) uri.now
        (own_via own.now (branch_text boot branch.number branch.target)) routes came.now)) }
{
    let uri = target_uri(&came.start(), uri);
    let mut out = Buffer::with_room(alloc, USUAL_REQUEST.saturating_add(uri.len()))?;
    put_front(&mut out, own, boot, branch, method, uri)?;
    came.put_first(&mut out, &FieldName::From)?;
    put_given(&mut out, to)?;
    came.put_first(&mut out, &FieldName::CallId)?;
    put_cseq(&mut out, method, came.first(&FieldName::CSeq))?;
    put_routes_left(alloc, &mut out, routes, came)?;
    put_body(&mut out, b"")?;
    Ok(out.into_bytes())
}

/// The field of a To with this value, if there is one. Takes no memory.
pub fn to_field(to: Option<&[u8]>) -> Option<ViewField<'_>>
    ensures { option_to_list result ≡ OwnRequests.to_field (option_map (λ value. value.now) to.entry) }
{
    let value = to?;
    Some(ViewField::new(ViewName::of_name(KnownName::To), Value::of_part(value)))
}

/// The text of the ACK of a final answer with this To, if that had one, to an INVITE that went to a target with this
/// Request-URI and this server's Via of this branch (RFC 3261 17.1.1.3). It is written straight from the fields of the INVITE
/// as it is kept, if these Routes are left of it. `AllocError` is the only refusal.
pub fn ack_text(
    alloc: Global,
    own: &Own,
    boot: u64,
    branch: BranchId,
    to: Option<&[u8]>,
    uri: &[u8],
    routes: RoutesKept,
    came: &KeptParts,
) -> Result<Bytes, AllocError>
    ensures { IfOk result (λ text. Spec.IsAckText (option_map (λ value. value.now) to.entry) uri.now
        (own_via own.now (branch_text boot branch.number branch.target)) routes came.now text) }
{
    let to = to_field(to);
    text_beside(
        alloc,
        own,
        boot,
        branch,
        b"ACK",
        to.as_ref(),
        uri,
        routes,
        came,
    )
}

/// The text of the CANCEL of a request that went to a target with this Request-URI and this server's Via of this branch (RFC
/// 3261 9.1). It is written straight from the fields of the request as it came, if these Routes are left of it. `AllocError`
/// is the only refusal.
pub fn cancel_text(
    alloc: Global,
    own: &Own,
    boot: u64,
    branch: BranchId,
    uri: &[u8],
    routes: RoutesKept,
    came: &KeptParts,
) -> Result<Bytes, AllocError>
    ensures { IfOk result (λ text. Spec.IsCancelText uri.now (own_via own.now (branch_text boot branch.number branch.target)) routes
        came.now text) }
{
    let kept_to = came.first_field(&FieldName::To);
    text_beside(
        alloc,
        own,
        boot,
        branch,
        b"CANCEL",
        kept_to.as_ref(),
        uri,
        routes,
        came,
    )
}
