//! The text of a request to one target (RFC 3261 16.4, 16.6): its own head, and the tail that all targets have in common.
//! The tail is written in `tail_text`.
ghost use Rattle.std.specs.Prelude.{◌≡◌, ◌++◌, ℕ, List, codes, false, IfOk, OnOk};
ghost use Rattle.sip_message_form.specs.declared.message.Message.{Message};
ghost use Rattle.sip_message_fields.specs.declared.field_name.FieldName.TheVariants as Name;
ghost use Rattle.sip_message_fields.specs.Values.{with_first};
ghost use Rattle.sip_message_form.specs.Text.{start_text, field_text, text_of};
ghost use Rattle.sip_message_form.specs.ViewStart.{start_seen};
ghost use Rattle.sip_route.specs.declared.routes_kept.RoutesKept as Routes;
ghost use Rattle.sip_route.specs.RoutesKept.{fields_kept};
ghost use Rattle.sip_route.specs.Way.{fields_left, request_uri};
ghost use Rattle.sip_edit.specs.Onward as Spec;
ghost use Rattle.sip_edit.specs.OwnVia.{branch_text, own_via};
ghost use Rattle.sip_edit.specs.Tail as Tails;

use crate::branch_id::BranchId;
use crate::own_via::{put_via, via_room};
use crate::tail_text::{put_received_tail, tail_room};
use sip_message_form::{View, ViewStart, put_request_line, put_status_line};
use sip_route::{Own, kept_routes};
use sip_text::{Buffer, Bytes};
use std::alloc::{AllocError, Global};

/// The most bytes of a head beside its parts: blanks, ends of lines, the name of a Record-Route with its rest, a status.
const REST_OF_HEAD: usize = 48;

/// Adds a first line with another Request-URI, and its CRLF.
fn put_start(out: &mut Buffer, start: &ViewStart<'_>, uri: &[u8]) -> Result<(), AllocError>
    ensures { OnOk result (out.new ≡ out.old ++ start_text (Spec.with_uri uri.now (start_seen start.now)) ++ codes "\r\n") }
{
    match start {
        ViewStart::Request {
            method,
            uri: _,
            version,
        } => put_request_line(out, method, uri, version.as_slice())?,
        ViewStart::Status { code, reason } => put_status_line(out, *code, reason)?,
    }
    out.extend(b"\r\n")
}

/// Adds this server's Record-Route.
fn put_record_route(out: &mut Buffer, own: &Own) -> Result<(), AllocError>
    ensures { OnOk result (out.new ≡ out.old ++ field_text (Spec.record_route_field own.now)) }
{
    out.extend(b"Record-Route: <sip:")?;
    out.extend(own.host.as_slice())?;
    out.extend(b":")?;
    out.push_decimal(u64::from(own.port))?;
    out.extend(b";lr>\r\n")
}

/// Adds this server's Record-Route, where a request gets one.
fn put_recorded(out: &mut Buffer, own: &Own, records_route: bool) -> Result<(), AllocError>
    ensures { OnOk result (out.new ≡ out.old ++ Tails.recorded own.now records_route) }
{
    if records_route {
        return put_record_route(out, own);
    }
    Ok(())
}

/// Adds the head of a request to a target.
fn put_head(
    out: &mut Buffer,
    own: &Own,
    boot: u64,
    branch: BranchId,
    records_route: bool,
    start: &ViewStart<'_>,
    uri: &[u8],
) -> Result<(), AllocError>
    ensures { OnOk result (out.new ≡ out.old ++ Tails.head_of own.now records_route uri.now
        (own_via own.now (branch_text boot branch.number branch.target)) (start_seen start.now)) }
{
    put_start(out, start, uri)?;
    put_via(out, own, boot, branch)?;
    put_recorded(out, own, records_route)
}

/// How many bytes a first line has beside its Request-URI and blanks.
fn start_room(start: &ViewStart<'_>) -> usize {
    match start {
        ViewStart::Request {
            method,
            version,
            ..
        } => method.len().saturating_add(version.as_slice().len()),
        ViewStart::Status { reason, .. } => reason.len(),
    }
}

/// How much room a head takes at most.
fn head_room(own: &Own, start: &ViewStart<'_>, uri: &[u8]) -> usize {
    start_room(start)
        .saturating_add(uri.len())
        .saturating_add(via_room(own))
        .saturating_add(own.host.as_slice().len())
        .saturating_add(REST_OF_HEAD)
}

/// The text of a request with this first line to one target, by its tail: with the target's Request-URI, this server's Via of
/// this branch on top, and its Record-Route where it gets one (RFC 3261 16.6 steps 2, 4 and 8). What all targets have in
/// common is copied, and not written anew. `AllocError` is the only refusal.
pub fn text_to_target(
    alloc: Global,
    own: &Own,
    boot: u64,
    branch: BranchId,
    records_route: bool,
    start: &ViewStart<'_>,
    uri: &[u8],
    tail: &[u8],
) -> Result<Bytes, AllocError>
    ensures { IfOk result (λ text. (m : Message) (realm : List ℕ) (routes : Routes.RoutesKept) → m.start ≡ start_seen start.now → tail.now
        ≡ Tails.tail_of routes realm m
        → fields_kept routes m.fields ≡ fields_left own.now (request_uri m.start) m.fields → text
        ≡ text_of (Spec.to_target uri.now (own_via own.now (branch_text boot branch.number branch.target))
        (Spec.onward_base own.now realm records_route m))) }
{
    let room = head_room(own, start, uri).saturating_add(tail.len());
    let mut out = Buffer::with_room(alloc, room)?;
    put_head(&mut out, own, boot, branch, records_route, start, uri)?;
    out.extend(tail)?;
    Ok(out.into_bytes())
}

/// The text of a request whose top Via gets this value (RFC 3261 18.2.1), and that goes on to one target without a
/// Record-Route: with the target's Request-URI, and with this server's Via of this branch on top (16.4, 16.6). It is written
/// straight from the fields of the request as it came. `AllocError` is the only refusal.
pub fn text_onward(
    alloc: Global,
    own: &Own,
    realm: &[u8],
    boot: u64,
    branch: BranchId,
    request: &View<'_>,
    received: &[u8],
    uri: &[u8],
) -> Result<Bytes, AllocError>
    ensures { IfOk result (λ text. text ≡ text_of (Spec.to_target uri.now (own_via own.now (branch_text boot branch.number branch.target))
        (Spec.onward_base own.now realm.now false (record request.now { fields = with_first Name.Via received.now request.now.fields })))) }
{
    let routes = kept_routes(alloc, own, request)?;
    let start = request.start();
    let room = head_room(own, start, uri).saturating_add(tail_room(request, received));
    let mut out = Buffer::with_room(alloc, room)?;
    put_head(&mut out, own, boot, branch, false, start, uri)?;
    put_received_tail(alloc, &mut out, realm, routes, request, received)?;
    Ok(out.into_bytes())
}
