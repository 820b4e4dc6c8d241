//! Where a request goes next once this server's own part of its way is taken off (RFC 3261 16.4, 16.6 step 6).
//! The address behind that URI is looked up in `sip_hops`.
ghost use Rattle.std.specs.Prelude.{◌≡◌, ◌&&◌, IfOk, MatchOption, [], Some, map, true, false, take, drop, length, codes};
ghost use Rattle.sip_text.specs.Words.{is_same_text};
ghost use Rattle.sip_header.specs.forms.ViewStart.{start_seen};
ghost use Rattle.sip_header.specs.NameAddr.{sip_uri};
ghost use Rattle.sip_message_fields.specs.declared.field_name.FieldName.TheVariants as Name;
ghost use Rattle.sip_message_fields.specs.Values.{values_of};
ghost use Rattle.sip_route.specs.declared.own.Own.{Own};
ghost use Rattle.sip_route.specs.Way as Ways;
ghost use Rattle.sip_route.specs.Routes.{way_with, way_by};

use crate::own::Own;
use crate::routes::{last_route, others_left, routes_left};
use sip_header::forms::{View, ViewStart};
use sip_header::{AnyUri, NameAddr, route_of};
use sip_message_fields::{FieldName, Value};
use sip_text::{Items, Text, same_no_case, split_once};
use sip_uri::{Uri, UriError, parse_uri, uri_in};
use sip_uri_equality::{same, says_same_no_case};
use std::alloc::{AllocError, Global};

/// Where a request goes once this server's own part of its way is taken off (RFC 3261 16.4).
pub struct Way<'a> {
    /// The Request-URI: as it came, or the text of the Route that takes its place.
    pub uri: Value<'a>,
    /// The values of Route that are left, in their order.
    pub routes: Items<Text<'a>>,
}

/// Written out, so that it is proved once and not wherever a way is dropped.
impl<'a> Drop for Way<'a> {
    fn drop(self) {
        let Way { uri: _, routes: _ } = self;
    }
}

/// The SIP or SIPS URI that a URI of any scheme is, if it is one.
fn into_sip_uri(uri: AnyUri<'_>) -> Option<Uri>
    ensures { result ≡ sip_uri uri.entry }
{
    match uri {
        AnyUri::Sip(uri) => Some(uri),
        AnyUri::Other(_) => None,
    }
}

impl<'a> Way<'a> {
    ghost use Rattle.sip_route.specs.Way.{request_uri_in, next_uri};

    /// The SIP or SIPS URI that the request is for. None where its Request-URI is none. `AllocError` is the only
    /// refusal.
    pub fn request_uri(&self, alloc: Global) -> Result<Option<Uri>, AllocError>
        ensures { IfOk result (λ uri. uri ≡ request_uri_in self.now) }
    {
        uri_in(alloc, self.uri.as_slice())
    }

    /// Where the request is to go next: what its first Route names, else its Request-URI (RFC 3261 16.6 step 6). None
    /// where that is no SIP or SIPS URI. `AllocError` is the only refusal.
    pub fn next_uri(&self, alloc: Global) -> Result<Option<Uri>, AllocError>
        ensures { IfOk result (λ uri. uri ≡ next_uri self.now) }
    {
        let Some((first, _)) = self.routes.as_slice().split_first() else {
            return self.request_uri(alloc);
        };
        match route_of(alloc, first.as_slice())? {
            Some(route) => Ok(into_sip_uri(route.into_uri())),
            None => self.request_uri(alloc),
        }
    }
}

/// Whether a URI has `lr` (RFC 3261 19.1.1), escapes resolved.
pub fn has_lr(uri: &Uri) -> bool
    ensures { result ≡ Ways.has_lr uri.now }
{
    uri.parameters.as_slice().iter().any(|parameter| says_same_no_case(
        parameter.name.as_slice(),
        b"lr",
    ))
}

/// Whether a URI is the one that this server puts into Record-Route.
fn is_record_route(alloc: Global, own: &Own, uri: &Uri) -> Result<bool, AllocError>
    ensures { IfOk result (λ is_own. is_own ≡ Ways.is_record_route own.now uri.now) }
{
    if !has_lr(uri) {
        return Ok(false);
    }
    let route = own.record_route_uri(alloc)?;
    Ok(same(uri, &route))
}

/// What stands behind a text's front, if the text begins with that, in any case.
fn behind_front<'a>(text: &'a [u8], front: &[u8]) -> Option<&'a [u8]>
    ensures { MatchOption result (is_same_text (take (length front.now) text.now) front.now ≡ false)
        (λ rest. (rest.now ≡ drop (length front.now) text.now) × (is_same_text (take (length front.now) text.now) front.now ≡ true)) }
{
    let (begin, rest) = text.split_at_checked(front.len())?;
    if same_no_case(begin, front) {
        Some(rest)
    } else {
        None
    }
}

/// Whether a text begins as this server's Record-Route does: `sip:` and its host, in any case.
fn begins_as_own(own: &Own, uri: &[u8]) -> bool
    ensures { result ≡ (is_same_text (take 4 uri.now) (codes "sip:") && is_same_text (take (length own.now.host) (drop 4 uri.now)) own.now.host) }
{
    match behind_front(uri, b"sip:") {
        Some(rest) => behind_front(rest, own.host.as_slice()).is_some(),
        None => false,
    }
}

/// Whether a Request-URI may be one that this server put into Record-Route. A host is compared by what it says, so one
/// with a `%`, which no configuration has, says nothing of how that begins.
fn may_be_own(own: &Own, uri: &[u8]) -> bool
    ensures { result ≡ false → Ways.came_strictly own.now uri.now ≡ false }
{
    if begins_as_own(own, uri) {
        return true;
    }
    split_once(own.host.as_slice(), b'%').is_some()
}

/// Whether a URI may have parameters: without a `;` it has none, and so no `lr`.
#[tactic(auto, using(crate::proofs::Front::none_by, crate::proofs::Front::not_loose))]
fn may_have_parameters(uri: &[u8]) -> bool
    ensures { (own : Own) → result ≡ false → Ways.came_strictly own uri.now ≡ false }
{
    split_once(uri, b';').is_some()
}

/// The same of a Request-URI that is parsed. It stands apart, so that no room is made for a URI where none is parsed.
#[inline(never)]
fn is_parsed_record_route(alloc: Global, own: &Own, uri: &[u8]) -> Result<bool, AllocError>
    ensures { IfOk result (λ is_own. is_own ≡ Ways.came_strictly own.now uri.now) }
{
    match parse_uri(alloc, uri) {
        Ok(uri) => is_record_route(alloc, own, &uri),
        Err(UriError::NoMemory) => Err(AllocError),
        Err(_) => Ok(false),
    }
}

/// Whether a Request-URI is one that this server put into Record-Route. Only one that may be is parsed, since a long
/// one costs much to parse.
fn came_strictly(alloc: Global, own: &Own, uri: &[u8]) -> Result<bool, AllocError>
    ensures { IfOk result (λ is_own. is_own ≡ Ways.came_strictly own.now uri.now) }
{
    if !may_be_own(own, uri) || !may_have_parameters(uri) {
        return Ok(false);
    }
    is_parsed_record_route(alloc, own, uri)
}

/// The Route that takes the place of a Request-URI.
pub(crate) fn restored_of<'v>(
    alloc: Global,
    own: &Own,
    uri: &[u8],
    routes: &[&'v [u8]],
) -> Result<Option<NameAddr<'v>>, AllocError>
    ensures { IfOk result (λ route. route ≡ Ways.restored_of own.now uri.now (map (λ x. x.now) routes.now)) }
{
    if came_strictly(alloc, own, uri)? {
        last_route(alloc, routes)
    } else {
        Ok(None)
    }
}

/// The way of a request whose Request-URI a Route replaces.
fn way_restored<'v>(
    alloc: Global,
    own: &Own,
    route: &NameAddr<'v>,
    routes: &[&'v [u8]],
) -> Result<Way<'v>, AllocError>
    ensures { IfOk result (λ way. way ≡ way_with own.now [] (map (λ x. x.now) routes.now) (Some route.now)) }
{
    let uri = route.uri.text(alloc)?;
    let routes = others_left(alloc, own, routes)?;
    Ok(Way { uri, routes })
}

/// The way of a request with this Request-URI and these Routes.
fn way_by<'v>(
    alloc: Global,
    own: &Own,
    uri: &'v [u8],
    routes: &[&'v [u8]],
) -> Result<Way<'v>, AllocError>
    ensures { IfOk result (λ way. way ≡ way_by own.now uri.now (map (λ x. x.now) routes.now)) }
{
    if let Some(route) = restored_of(alloc, own, uri, routes)? {
        return way_restored(alloc, own, &route, routes);
    }
    let routes = routes_left(alloc, own, routes)?;
    Ok(Way {
        uri: Value::of_part(uri),
        routes,
    })
}

/// The Request-URI as it came; a response has none.
pub fn request_uri<'v>(start: &ViewStart<'v>) -> &'v [u8]
    ensures { result.now ≡ Ways.request_uri (start_seen start.now) }
{
    match start {
        ViewStart::Request { uri, .. } => uri,
        ViewStart::Status { .. } => b"",
    }
}

/// Where a request goes once this server's own part of its way is taken off (RFC 3261 16.4): a Request-URI that is
/// this server's Record-Route is replaced by the last Route, and then a first Route that names this server is taken
/// off. `AllocError` is the only refusal.
#[tactic(auto, using(crate::proofs::Left::way_is))]
pub fn way_of<'v>(alloc: Global, own: &Own, message: &'v View<'_>) -> Result<Way<'v>, AllocError>
    ensures { IfOk result (λ way. way ≡ Ways.way_of own.now message.now) }
{
    let routes = message.fields().values(alloc, &FieldName::Route)?;
    way_by(alloc, own, request_uri(message.start()), routes.as_slice())
}

/// The last Route of a request, if it can be read.
fn last_of<'v>(alloc: Global, message: &'v View<'_>) -> Result<Option<NameAddr<'v>>, AllocError>
    ensures { IfOk result (λ route. route ≡ Ways.last_route (values_of Name.Route message.now.fields)) }
{
    let routes = message.fields().values(alloc, &FieldName::Route)?;
    last_route(alloc, routes.as_slice())
}

/// The Request-URI of a request once this server's own part of its way is taken off (RFC 3261 16.4), alone: a Route is
/// read only where the last one takes its place. `AllocError` is the only refusal.
pub fn uri_left<'v>(
    alloc: Global,
    own: &Own,
    message: &'v View<'_>,
) -> Result<Value<'v>, AllocError>
    ensures { IfOk result (λ uri. uri ≡ Ways.uri_left own.now (Ways.request_uri message.now.start) message.now.fields) }
{
    let uri = request_uri(message.start());
    if !came_strictly(alloc, own, uri)? {
        return Ok(Value::of_part(uri));
    }
    match last_of(alloc, message)? {
        Some(route) => route.uri.text(alloc),
        None => Ok(Value::of_part(uri)),
    }
}
