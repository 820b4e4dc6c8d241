//! A request as it goes on to its targets, as a view of its fields: what is the same for all of them, and the first line and the Via
//! of one (RFC 3261 16.4, 16.6). Not in the program, which writes the text of `sip_edit`'s `tail`.
ghost use Rattle.std.specs.Prelude.{◌≡◌, ◌∷◌, ◌++◌, IfOk, OnOk, [], decimal};
ghost use Rattle.sip_message_form.specs.ViewStart.{start_seen};
ghost use Rattle.sip_edit.specs.Onward as Spec;
ghost use Rattle.sip_edit.specs.Lowering as Lowering;
ghost use Rattle.sip_route.specs.RoutesKept.{fields_kept};
ghost use Rattle.sip_route.specs.Way.{fields_left, request_uri};

use crate::record_route::record_route;
use sip_edit::{hops_left, is_for_realm};
use sip_header::{MaxForwards, max_forwards_of};
use sip_message_fields::{FieldName, KnownName, Value, ViewField, ViewFields, ViewName};
use sip_message_form::{View, ViewStart};
use sip_route::{Own, RoutesKept, kept_routes};
use sip_text::Bytes;
use std::alloc::{AllocError, Global};

/// The most fields that a request gets on its way: this server's Via and Record-Route, and a Max-Forwards.
const ADDED_FIELDS: usize = 3;

/// The most digits of a Max-Forwards.
const HOPS_DIGITS: usize = 3;

/// A field with a number as its value.
fn with_number<'v>(
    alloc: Global,
    field: &'v ViewField<'_>,
    number: u8,
) -> Result<ViewField<'v>, AllocError>
    ensures { IfOk result (λ edited. edited ≡ record field.now { value = decimal number }) }
{
    let name = field.name().lent()?;
    let mut value = Bytes::with_room(alloc, HOPS_DIGITS)?;
    value.push_decimal(u64::from(number))?;
    Ok(ViewField::new(name, Value::of_bytes(alloc, value)?))
}

/// Adds a field: a Max-Forwards with the hops that are left, if they are still to be written, any other as it is.
fn put_lowered<'v>(
    alloc: Global,
    out: &mut ViewFields<'v>,
    hops: &mut Option<u8>,
    field: &'v ViewField<'_>,
) -> Result<(), AllocError>
    ensures field { OnOk result (out.new ≡ out.old ++ Lowering.lowered_field hops.old field.now ∷ []) }
    ensures hops { OnOk result (hops.new ≡ Lowering.hops_behind hops.old field.now) }
{
    let Some(left) = *hops else {
        return out.push(field.lent()?);
    };
    if !field.name().is_same(&FieldName::MaxForwards) {
        return out.push(field.lent()?);
    }
    *hops = None;
    out.push(with_number(alloc, field, left)?)
}

/// Adds fields as they go on: without Routes that are taken off and credentials for this realm.
#[tactic(auto, using(sip_edit::proofs::GoingOn::taken_off, sip_edit::proofs::GoingOn::dropped, sip_edit::proofs::GoingOn::passed_on, sip_edit::proofs::GoingOn::none_left))]
fn put_onward<'v>(
    alloc: Global,
    out: &mut ViewFields<'v>,
    realm: &[u8],
    routes: RoutesKept,
    hops: Option<u8>,
    fields: &'v [ViewField<'_>],
) -> Result<(), AllocError>
    ensures { OnOk result (out.new ≡ out.old ++ Lowering.fields_on hops routes realm.now fields.now) }
{
    let mut routes = routes;
    let mut hops = hops;
    for field in fields {
        if !routes.takes(field) {
            continue;
        }
        if !is_for_realm(alloc, realm, field)? {
            put_lowered(alloc, out, &mut hops, field)?;
        }
    }
    Ok(())
}

/// Adds a Max-Forwards of 70 where a request has none (RFC 3261 16.6 step 3).
fn put_default(out: &mut ViewFields<'_>, hops: MaxForwards) -> Result<(), AllocError>
    ensures { OnOk result (out.new ≡ out.old ++ Lowering.default_hops hops) }
{
    if hops != MaxForwards::Absent {
        return Ok(());
    }
    let name = ViewName::of_name(KnownName::MaxForwards);
    out.push(ViewField::new(name, Value::of_part(b"70")))
}

/// Adds the fields of a request as they go on to any target, if these Routes are left.
fn put_onward_fields<'v>(
    alloc: Global,
    out: &mut ViewFields<'v>,
    realm: &[u8],
    routes: RoutesKept,
    request: &'v View<'_>,
) -> Result<(), AllocError>
    ensures { OnOk result (out.new ≡ out.old ++ Lowering.fields_by routes realm.now request.now.fields) }
{
    let hops = max_forwards_of(request.fields());
    put_onward(
        alloc,
        out,
        realm,
        routes,
        hops_left(hops),
        request.fields().as_slice(),
    )?;
    put_default(out, hops)
}

/// What is the same of a request for each target to which it goes on, if these are the fields that are left of it without
/// this server's own part of the way.
#[tactic(auto, using(sip_edit::proofs::GoingOn::base_is))]
fn onward_base_by<'v>(
    alloc: Global,
    own: &Own,
    realm: &[u8],
    records_route: bool,
    routes: RoutesKept,
    request: &'v View<'_>,
) -> Result<View<'v>, AllocError>
    ensures { IfOk result (λ base. fields_kept routes request.now.fields ≡ fields_left own.now (request_uri request.now.start) request.now.fields
        → base ≡ Spec.onward_base own.now realm.now records_route request.now) }
{
    let room = request.fields().as_slice().len();
    let mut fields = ViewFields::with_room(alloc, room.saturating_add(ADDED_FIELDS))?;
    if records_route {
        fields.push(record_route(alloc, own)?)?;
    }
    put_onward_fields(alloc, &mut fields, realm, routes, request)?;
    Ok(request.with_fields(fields))
}

/// What is the same of a request for each target to which it goes on (RFC 3261 16.6): all but its Request-URI and this
/// server's Via. It has no Route of this server's, one hop less, and no credentials for this realm; where it begins a
/// dialog, this server's Record-Route is in front. What is written anew it has itself, all other bytes are the request's.
/// `AllocError` is the only refusal.
pub fn onward_base<'v>(
    alloc: Global,
    own: &Own,
    realm: &[u8],
    records_route: bool,
    request: &'v View<'_>,
) -> Result<View<'v>, AllocError>
    ensures { IfOk result (λ base. base ≡ Spec.onward_base own.now realm.now records_route request.now) }
{
    let routes = kept_routes(alloc, own, request)?;
    onward_base_by(alloc, own, realm, records_route, routes, request)
}

/// A first line with another Request-URI.
fn with_uri<'v>(start: &'v ViewStart<'_>, uri: &'v [u8]) -> ViewStart<'v>
    ensures { start_seen result ≡ Spec.with_uri uri.now (start_seen start.now) }
{
    match start {
        ViewStart::Request {
            method,
            uri: _,
            version,
        } => ViewStart::Request {
            method,
            uri,
            version: Value::of_part(version.as_slice()),
        },
        ViewStart::Status { code, reason } => ViewStart::Status {
            code: *code,
            reason,
        },
    }
}

/// Adds some fields, of which no byte is copied.
pub(crate) fn put_all<'v>(
    out: &mut ViewFields<'v>,
    fields: &'v [ViewField<'_>],
) -> Result<(), AllocError>
    ensures { OnOk result (out.new ≡ out.old ++ fields.now) }
{
    for field in fields {
        out.push(field.lent()?)?;
    }
    Ok(())
}

/// The request that goes to one target: what is the same for all, with the target's Request-URI, and with this server's
/// Via, of which this is the value, on top (RFC 3261 16.6 steps 2 and 8). No byte is copied. `AllocError` is the only
/// refusal.
pub fn to_target<'v>(
    alloc: Global,
    base: &'v View<'_>,
    uri: &'v [u8],
    via: Bytes,
) -> Result<View<'v>, AllocError>
    ensures { IfOk result (λ request. request ≡ Spec.to_target uri.now via base.now) }
{
    let others = base.fields().as_slice();
    let mut fields = ViewFields::with_room(alloc, others.len().saturating_add(1))?;
    let name = ViewName::of_name(KnownName::Via);
    fields.push(ViewField::new(name, Value::of_bytes(alloc, via)?))?;
    put_all(&mut fields, others)?;
    Ok(View::new(with_uri(base.start(), uri), fields, base.body()))
}
