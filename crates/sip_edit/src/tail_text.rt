//! The tail of a request that goes on (RFC 3261 16.4, 16.6): all behind this server's own fields, written once for all its targets.
//! What stands in front of it is written in `tail`.
ghost use Rattle.std.specs.Prelude.{◌≡◌, ◌≤◌, ◌++◌, decimal, drop, length, true, IfOk, OnOk};
ghost use Rattle.std.specs.List.{flat_map, list_all};
ghost use Rattle.sip_message_fields.specs.declared.field_name.FieldName.TheVariants as Name;
ghost use Rattle.sip_message_fields.specs.Values.{with_first};
ghost use Rattle.sip_message_form.specs.Text.{field_text};
ghost use Rattle.sip_edit.specs.Lowering as Lowering;
ghost use Rattle.sip_edit.specs.OwnRequests;
ghost use Rattle.sip_edit.specs.Tail as Tails;

use crate::onward::{hops_left, is_for_realm};
use crate::received_request::with_top_via;
use sip_message_fields::{FieldName, KnownName, Value, ViewField, ViewFields, ViewName};
use sip_message_form::{View, ViewStart, put_body, put_field, put_line};
use sip_route::RoutesKept;
use sip_route::header::{MaxForwards, max_forwards_of};
use sip_text::{Buffer, Bytes};
use std::alloc::{AllocError, Global};

/// How many bytes credentials for a proxy have beside their value: the name in full, what stands behind it, and the CRLF.
const BESIDE_CREDENTIALS: usize = 23;

/// As many bytes of the room for a tail may stay unused.
const MOST_UNUSED: usize = 47;

/// Adds a field with a number as its value.
fn put_number(out: &mut Buffer, field: &ViewField<'_>, number: u8) -> Result<(), AllocError>
    ensures { OnOk result (out.new ≡ out.old ++ field_text (record field.now { value = decimal number })) }
{
    out.extend(field.name().spelling())?;
    out.extend(b": ")?;
    out.push_decimal(u64::from(number))?;
    out.extend(b"\r\n")
}

/// Adds a field: a Max-Forwards with the hops that are left, if they are still to be written, any other as it is.
fn put_lowered(
    out: &mut Buffer,
    hops: &mut Option<u8>,
    field: &ViewField<'_>,
) -> Result<(), AllocError>
    ensures field { OnOk result (out.new ≡ out.old ++ field_text (Lowering.lowered_field hops.old field.now)) }
    ensures hops { OnOk result (hops.new ≡ Lowering.hops_behind hops.old field.now) }
{
    let Some(left) = *hops else {
        return put_field(out, field);
    };
    if !field.name().is_same(&FieldName::MaxForwards) {
        return put_field(out, field);
    }
    *hops = None;
    put_number(out, field, left)
}

/// Adds fields as they go on: without Routes that are taken off and credentials for this realm.
#[tactic(auto, using(crate::proofs::TailTexts::taken_off, crate::proofs::TailTexts::dropped, crate::proofs::TailTexts::passed_on, crate::proofs::TailTexts::none_left))]
fn put_onward(
    alloc: Global,
    out: &mut Buffer,
    realm: &[u8],
    routes: RoutesKept,
    hops: Option<u8>,
    fields: &[ViewField<'_>],
) -> Result<(), AllocError>
    ensures { OnOk result (out.new ≡ out.old ++ flat_map field_text (Lowering.fields_on hops routes realm.now fields.now)) }
{
    let mut routes = routes;
    let mut hops = hops;
    for field in fields {
        if !routes.takes(field) {
            continue;
        }
        if !is_for_realm(alloc, realm, field)? {
            put_lowered(out, &mut hops, field)?;
        }
    }
    Ok(())
}

/// The Max-Forwards of a request that came without one.
fn seventy<'v>() -> ViewField<'v>
    ensures { result ≡ OwnRequests.seventy }
{
    let name = ViewName::of_name(KnownName::MaxForwards);
    ViewField::new(name, Value::of_part(b"70"))
}

/// Adds a Max-Forwards of 70.
fn put_seventy(out: &mut Buffer) -> Result<(), AllocError>
    ensures { OnOk result (out.new ≡ out.old ++ field_text OwnRequests.seventy) }
{
    let field = seventy();
    put_field(out, &field)
}

/// Adds a Max-Forwards of 70 where a request has none (RFC 3261 16.6 step 3).
fn put_default(out: &mut Buffer, hops: MaxForwards) -> Result<(), AllocError>
    ensures { OnOk result (out.new ≡ out.old ++ Tails.default_text hops) }
{
    match hops {
        MaxForwards::Absent => put_seventy(out),
        MaxForwards::Hops(_) | MaxForwards::Malformed => Ok(()),
    }
}

/// Adds a top Via with another value.
fn put_top(out: &mut Buffer, top: &ViewField<'_>, via: &[u8]) -> Result<(), AllocError>
    ensures { OnOk result (out.new ≡ out.old ++ field_text (record top.now { value = via.now })) }
{
    put_line(out, top.name().spelling(), via)
}

/// Whether a field goes on as it is, whatever is to be edited.
fn goes_as_it_is(field: &ViewField<'_>) -> bool
    ensures { result ≡ Lowering.goes_as_it_is field.now }
{
    let name = field.name();
    if !name.may_be_known() {
        return true;
    }
    !(name.is_same(&FieldName::Route)
        || name.is_same(&FieldName::ProxyAuthorization)
        || name.is_same(&FieldName::MaxForwards))
}

/// How many fields there are up to the last that may go on in another way than it is: those behind it are copied at once.
#[tactic(auto, using(crate::proofs::AsTheyAre::none_behind, crate::proofs::AsTheyAre::one_more))]
fn edited_front(fields: &[ViewField<'_>]) -> usize
    ensures within { result ≤ length fields.now }
    ensures others { list_all Lowering.goes_as_it_is (drop result fields.now) ≡ true }
{
    let mut front = fields.len();
    while 0 < front && goes_as_it_is(&fields[front - 1]) {
        front -= 1;
    }
    front
}

/// Adds the fields of a request behind some first ones as they go on, if these Routes are left of them.
#[tactic(auto, using(crate::proofs::AsTheyAre::cut_behind))]
fn put_onward_behind(
    alloc: Global,
    out: &mut Buffer,
    realm: &[u8],
    routes: RoutesKept,
    hops: Option<u8>,
    request: &View<'_>,
    skipped: usize,
) -> Result<(), AllocError>
    requires { skipped ≤ length request.now.fields }
    ensures { OnOk result (out.new ≡ out.old ++ flat_map field_text (Lowering.fields_on hops routes realm.now (drop skipped request.now.fields))) }
{
    let whole = request.fields().as_slice();
    let (_, fields) = whole.split_at(skipped);
    let (edited, others) = fields.split_at(edited_front(fields));
    put_onward(alloc, out, realm, routes, hops, edited)?;
    request.put_fields_behind(out, whole.len() - others.len())
}

/// Adds what of a request stands behind some of its first fields: its other fields as they go on, if these Routes are left
/// of them, a Max-Forwards where it has none, and its body.
fn put_behind(
    alloc: Global,
    out: &mut Buffer,
    realm: &[u8],
    routes: RoutesKept,
    request: &View<'_>,
    skipped: usize,
) -> Result<(), AllocError>
    requires { skipped ≤ length request.now.fields }
    ensures { OnOk result (out.new ≡ out.old ++ Tails.others_behind routes realm.now request.now (drop skipped request.now.fields)) }
{
    let hops = max_forwards_of(request.fields());
    put_onward_behind(alloc, out, realm, routes, hops_left(hops), request, skipped)?;
    put_default(out, hops)?;
    put_body(out, request.body())
}

/// How many bytes credentials for a proxy among some fields have with their CRLFs: mostly they are for this one.
fn credentials_room(fields: &[ViewField<'_>]) -> usize {
    let name = FieldName::ProxyAuthorization;
    let mut room: usize = 0;
    for field in fields {
        if field.name().is_same(&name) {
            let value = field.value().as_slice().len();
            room = room
                .saturating_add(BESIDE_CREDENTIALS)
                .saturating_add(value);
        }
    }
    room
}

/// How many bytes a request line has with its CRLF.
fn first_line_room(start: &ViewStart<'_>) -> usize {
    match start {
        ViewStart::Request {
            method,
            uri,
            version,
        } => method
            .len()
            .saturating_add(uri.len())
            .saturating_add(version.as_slice().len())
            .saturating_add(4),
        ViewStart::Status { code: _, reason: _ } => 0,
    }
}

/// How many bytes the first Via among some fields has as its value.
fn top_room(fields: &ViewFields<'_>) -> usize {
    match fields.first(&FieldName::Via) {
        Some(value) => value.len(),
        None => 0,
    }
}

/// How much room the tail of a request takes mostly whose top Via gets this value: that of its written form, which is known at once
/// where its lines are, without what isn't in its tail.
pub(crate) fn tail_room(request: &View<'_>, via: &[u8]) -> usize {
    let fields = request.fields();
    request
        .written_length()
        .saturating_sub(first_line_room(request.start()))
        .saturating_sub(credentials_room(fields.as_slice()))
        .saturating_sub(top_room(fields))
        .saturating_add(via.len())
}

/// A text for which there was so much room, in no more memory than it needs: it is copied where much was taken off, or where
/// more was added than there was room for.
fn in_its_room(alloc: Global, text: Buffer, room: usize) -> Result<Bytes, AllocError>
    ensures { IfOk result (λ bytes. bytes ≡ text) }
{
    let length = text.as_slice().len();
    if room < length {
        return Bytes::copy(alloc, text.as_slice());
    }
    if length.saturating_add(MOST_UNUSED) < room {
        return Bytes::copy(alloc, text.as_slice());
    }
    Ok(text.into_bytes())
}

/// Adds the tail of a request that goes on: all behind this server's own fields, if these Routes are left of it.
fn put_tail(
    alloc: Global,
    out: &mut Buffer,
    realm: &[u8],
    routes: RoutesKept,
    request: &View<'_>,
) -> Result<(), AllocError>
    ensures { OnOk result (out.new ≡ out.old ++ Tails.tail_of routes realm.now request.now) }
{
    put_behind(alloc, out, realm, routes, request, 0)
}

/// The same of a request whose top Via gets this value, by an edited view of the request.
fn put_viewed_tail(
    alloc: Global,
    out: &mut Buffer,
    realm: &[u8],
    routes: RoutesKept,
    request: &View<'_>,
    via: &[u8],
) -> Result<(), AllocError>
    ensures { OnOk result (out.new ≡ out.old ++ Tails.tail_of routes realm.now
        (record request.now { fields = with_first Name.Via via.now request.now.fields })) }
{
    let received = with_top_via(alloc, request, via)?;
    put_tail(alloc, out, realm, routes, &received)
}

/// The same. Where the top Via is the first field, as it mostly is, it is written straight from the request's fields.
pub(crate) fn put_received_tail(
    alloc: Global,
    out: &mut Buffer,
    realm: &[u8],
    routes: RoutesKept,
    request: &View<'_>,
    via: &[u8],
) -> Result<(), AllocError>
    ensures { OnOk result (out.new ≡ out.old ++ Tails.tail_of routes realm.now
        (record request.now { fields = with_first Name.Via via.now request.now.fields })) }
{
    let Some((top, _others)) = request.fields().as_slice().split_first() else {
        return put_viewed_tail(alloc, out, realm, routes, request, via);
    };
    if !top.name().is_same(&FieldName::Via) {
        return put_viewed_tail(alloc, out, realm, routes, request, via);
    }
    put_top(out, top, via)?;
    put_behind(alloc, out, realm, routes, request, 1)
}

/// The tail of a request that goes on, which is the same for each of its targets, and whose top Via gets this value (RFC 3261
/// 18.2.1): all behind this server's own fields, if these Routes are left of it, from a server of this realm (16.4, 16.6).
/// `AllocError` is the only refusal.
pub fn received_tail(
    alloc: Global,
    realm: &[u8],
    routes: RoutesKept,
    request: &View<'_>,
    via: &[u8],
) -> Result<Bytes, AllocError>
    ensures { IfOk result (λ tail. tail ≡ Tails.tail_of routes realm.now
        (record request.now { fields = with_first Name.Via via.now request.now.fields })) }
{
    let room = tail_room(request, via);
    let mut out = Buffer::with_room(alloc, room)?;
    put_received_tail(alloc, &mut out, realm, routes, request, via)?;
    in_its_room(alloc, out, room)
}
