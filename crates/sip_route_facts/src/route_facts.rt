//! What decides which Routes of a request are left for a server (RFC 3261 16.4), read of the request alone, before a server asks.
//! `sip_route` decides the same of a request with the server at hand.
ghost use Rattle.std.specs.Prelude.{◌≡◌, ◌∷◌, [], IfOk, map, is_some, if◌then◌else◌, false, Some, None, decimal};
ghost use Rattle.std.specs.Option.{option_map_or};
ghost use Rattle.sip_uri_equality.specs.Equality.{both_or_none, says_same_no_case as SaysSame};
ghost use Rattle.sip_text.specs.Splits.{split_at_byte};
ghost use Rattle.sip_message_fields.specs.declared.field_name.FieldName.TheVariants as Name;
ghost use Rattle.sip_message_fields.specs.Values.{values_of};
ghost use Rattle.sip_route.specs.Way as Ways;
ghost use Rattle.sip_route.specs.Routes.{all_but_last};
ghost use Rattle.sip_route_facts.specs.RouteFacts as Facts;

use sip_header::{AnyUri, bracketed_host_port, route_of};
use sip_message_fields::FieldName;
use sip_message_form::View;
use sip_route::{Own, RoutesKept, has_lr, loose_routing, request_uri};
use sip_text::{Bytes, Items, split_once};
use sip_uri::{Scheme, Uri, UriError, parse_uri};
use sip_uri_equality::{same, says_same_no_case};
use std::alloc::{AllocError, Global};

/// Where a SIP or SIPS URI leads: its host, and the number of its port, 5060 where none is written.
pub struct HostPort {
    pub host: Bytes,
    pub port: u16,
}

/// Written out, so that it is proved once and not wherever one is dropped.
impl Drop for HostPort {
    fn drop(self) {
        let HostPort { host: _, port: _ } = self;
    }
}

/// Where a Request-URI leads that the server there put into Record-Route.
pub struct RecordedHostPort {
    /// Its host, as it was written.
    pub host: Bytes,
    /// The digits of its port, where a `:` stands.
    pub port: Option<Bytes>,
    /// Where the first Route but the last one leads.
    pub first: Option<HostPort>,
}

/// Written out, so that it is proved once and not wherever one is dropped.
impl Drop for RecordedHostPort {
    fn drop(self) {
        let RecordedHostPort {
            host: _,
            port: _,
            first: _,
        } = self;
    }
}

/// What of a request decides which of its Routes are left, whichever server asks (RFC 3261 16.4).
pub struct RouteFacts {
    /// Where its Request-URI leads, if a server may have put it into Record-Route and the last Route can take its place.
    pub recorded: Option<RecordedHostPort>,
    /// Where its first Route leads.
    pub first: Option<HostPort>,
    /// How many Routes it has.
    pub count: usize,
}

/// Written out, so that it is proved once and not wherever one is dropped.
impl Drop for RouteFacts {
    fn drop(self) {
        let RouteFacts {
            recorded: _,
            first: _,
            count: _,
        } = self;
    }
}

/// Where a URI of any scheme leads.
fn host_port_in(alloc: Global, uri: &AnyUri<'_>) -> Result<Option<HostPort>, AllocError>
    ensures { IfOk result (λ host_port. host_port ≡ Facts.host_port_in uri.now) }
{
    match uri {
        AnyUri::Sip(uri) => Ok(Some(HostPort {
            host: Bytes::copy(alloc, uri.host.as_slice())?,
            port: uri.port_number().unwrap_or(5060),
        })),
        AnyUri::Other(_) => Ok(None),
    }
}

/// Where an item of Route leads: no URI is made of one as proxies write them.
#[tactic(auto, using(crate::proofs::PlainPlaces::first_is))]
fn host_port_of(alloc: Global, value: &[u8]) -> Result<Option<HostPort>, AllocError>
    ensures { IfOk result (λ host_port. host_port ≡ Facts.first_host_port (value.now ∷ [])) }
{
    if let Some((host, port)) = bracketed_host_port(value) {
        return Ok(Some(HostPort {
            host: Bytes::copy(alloc, host)?,
            port: port.unwrap_or(5060),
        }));
    }
    match route_of(alloc, value)? {
        Some(route) => host_port_in(alloc, &route.uri),
        None => Ok(None),
    }
}

/// Where the first of some Routes leads.
fn first_host_port(alloc: Global, routes: &[&[u8]]) -> Result<Option<HostPort>, AllocError>
    ensures { IfOk result (λ host_port. host_port ≡ Facts.first_host_port (map (λ x. x.now) routes.now)) }
{
    match routes.split_first() {
        Some((first, _)) => host_port_of(alloc, first),
        None => Ok(None),
    }
}

/// The same of all but the last of some Routes.
#[tactic(auto, using(crate::proofs::LastRoute::others_lead, crate::proofs::LastRoute::none_lead))]
fn first_of_others(alloc: Global, routes: &[&[u8]]) -> Result<Option<HostPort>, AllocError>
    ensures { IfOk result (λ host_port. host_port ≡ Facts.first_host_port (all_but_last (map (λ x. x.now) routes.now))) }
{
    match routes.split_last() {
        Some((_, others)) => first_host_port(alloc, others),
        None => Ok(None),
    }
}

/// Whether the last of some Routes can be read.
#[tactic(auto, using(sip_route::proofs::Last::last_is, sip_route::proofs::Last::no_last))]
fn can_replace(alloc: Global, routes: &[&[u8]]) -> Result<bool, AllocError>
    ensures { IfOk result (λ t. t ≡ is_some (Ways.last_route (map (λ x. x.now) routes.now))) }
{
    match routes.split_last() {
        Some((last, _)) => Ok(route_of(alloc, last)?.is_some()),
        None => Ok(false),
    }
}

/// The URI that a server at the host and the port of another puts into Record-Route.
fn route_at(alloc: Global, uri: &Uri) -> Result<Uri, AllocError>
    ensures { IfOk result (λ route. route ≡ Facts.route_at uri.now.host uri.now.port) }
{
    let host = uri.host.clone()?;
    let port = uri.port.clone()?;
    let parameters = loose_routing(alloc)?;
    Ok(Uri {
        scheme: Scheme::Sip,
        userinfo: None,
        host,
        port,
        parameters,
        headers: Items::new(alloc),
    })
}

/// Whether a URI is the one that the server at its own host and port puts into Record-Route.
fn is_recorded(alloc: Global, uri: &Uri) -> Result<bool, AllocError>
    ensures { IfOk result (λ t. t ≡ Facts.is_recorded uri.now) }
{
    if !has_lr(uri) {
        return Ok(false);
    }
    let route = route_at(alloc, uri)?;
    Ok(same(uri, &route))
}

/// Where a URI leads, and where the first Route but the last one does.
fn recorded_host_port(
    alloc: Global,
    uri: &Uri,
    routes: &[&[u8]],
) -> Result<RecordedHostPort, AllocError>
    ensures { IfOk result
        (λ host_port. host_port ≡ record {
          host = uri.now.host;
          port = uri.now.port;
          first = Facts.first_host_port
              (all_but_last (map (λ x. x.now) routes.now));
        }) }
{
    let host = uri.host.clone()?;
    let port = uri.port.clone()?;
    let first = first_of_others(alloc, routes)?;
    Ok(RecordedHostPort { host, port, first })
}

/// The same of a URI that a server put into Record-Route, where a last Route can take its place. That is read only for
/// such a URI.
#[tactic(auto, using(crate::proofs::Unparted::none_in, crate::proofs::Unparted::some_in))]
fn recorded_in(
    alloc: Global,
    uri: &Uri,
    routes: &[&[u8]],
) -> Result<Option<RecordedHostPort>, AllocError>
    ensures { IfOk result (λ host_port. host_port ≡ if is_some (Ways.last_route (map (λ x. x.now) routes.now))
        then Facts.recorded_in (map (λ x. x.now) routes.now) uri.now else None) }
{
    if !is_recorded(alloc, uri)? {
        return Ok(None);
    }
    if !can_replace(alloc, routes)? {
        return Ok(None);
    }
    Ok(Some(recorded_host_port(alloc, uri, routes)?))
}

/// Whether a Request-URI may have parameters. One without a `;` has none, also not `lr`.
fn may_have_parameters(uri: &[u8]) -> bool
    ensures { result ≡ is_some (split_at_byte 59 uri.now) }
{
    split_once(uri, b';').is_some()
}

/// The same of a Request-URI.
#[tactic(auto, using(crate::proofs::Unparted::none_recorded, crate::proofs::Unparted::none_replaces, crate::proofs::Unparted::none_read))]
fn recorded_of(
    alloc: Global,
    uri: &[u8],
    routes: &[&[u8]],
) -> Result<Option<RecordedHostPort>, AllocError>
    ensures { IfOk result (λ host_port. host_port ≡ Facts.recorded_of uri.now (map (λ x. x.now) routes.now)) }
{
    if routes.is_empty() {
        return Ok(None);
    }
    if !may_have_parameters(uri) {
        return Ok(None);
    }
    match parse_uri(alloc, uri) {
        Ok(uri) => recorded_in(alloc, &uri, routes),
        Err(UriError::NoMemory) => Err(AllocError),
        Err(_) => Ok(None),
    }
}

/// What decides, of a Request-URI and the values of Route.
fn facts_of(alloc: Global, uri: &[u8], routes: &[&[u8]]) -> Result<RouteFacts, AllocError>
    ensures { IfOk result (λ facts. facts ≡ Facts.facts_of uri.now (map (λ x. x.now) routes.now)) }
{
    let recorded = recorded_of(alloc, uri, routes)?;
    let first = first_host_port(alloc, routes)?;
    Ok(RouteFacts {
        recorded,
        first,
        count: routes.len(),
    })
}

/// Whether some digits of a port are those of a number.
fn is_port(alloc: Global, digits: &Option<Bytes>, number: u16) -> Result<bool, AllocError>
    ensures { IfOk result (λ t. t ≡ both_or_none SaysSame digits.now (Some (decimal number))) }
{
    let Some(digits) = digits else {
        return Ok(false);
    };
    let mut text = Bytes::new(alloc);
    text.push_decimal(u64::from(number))?;
    Ok(says_same_no_case(digits.as_slice(), text.as_slice()))
}

impl RecordedHostPort {
    /// Whether it is what this server put into Record-Route.
    fn is_own(&self, alloc: Global, own: &Own) -> Result<bool, AllocError>
        ensures { IfOk result (λ t. t ≡ Facts.is_own_record own.now self.now) }
    {
        if !says_same_no_case(self.host.as_slice(), own.host.as_slice()) {
            return Ok(false);
        }
        is_port(alloc, &self.port, own.port)
    }
}

/// Whether a place is known, and is a server's own.
fn is_own(own: &Own, host_port: &Option<HostPort>) -> bool
    ensures { result ≡ option_map_or (Facts.is_own own.now) host_port.now false }
{
    match host_port {
        Some(host_port) => own.is_own_host(host_port.host.as_slice()) && host_port.port == own.port,
        None => false,
    }
}

/// Of so many Routes all stay, without a first one that is the server's own.
fn kept_from(own: &Own, first: &Option<HostPort>, count: usize) -> RoutesKept
    ensures { result ≡ Facts.kept_from own.now first.now count }
{
    let skipped = if is_own(own, first) { 1 } else { 0 };
    RoutesKept {
        skipped,
        kept: count.saturating_sub(skipped),
    }
}

impl RouteFacts {
    /// What of a request decides which of its Routes are left. `AllocError` is the only refusal.
    pub fn of(alloc: Global, request: &View<'_>) -> Result<Self, AllocError>
        ensures { IfOk result (λ facts. facts ≡ Facts.facts_of (Ways.request_uri request.now.start) (values_of Name.Route request.now.fields)) }
    {
        let routes = request.fields().values(alloc, &FieldName::Route)?;
        facts_of(alloc, request_uri(request.start()), routes.as_slice())
    }

    /// Which Routes are left for a server. `AllocError` is the only refusal.
    pub fn kept(&self, alloc: Global, own: &Own) -> Result<RoutesKept, AllocError>
        ensures { IfOk result (λ kept. kept ≡ Facts.kept_by own.now self.now) }
    {
        if let Some(host_port) = &self.recorded {
            if host_port.is_own(alloc, own)? {
                return Ok(kept_from(own, &host_port.first, self.count.saturating_sub(1)));
            }
        }
        Ok(kept_from(own, &self.first, self.count))
    }
}
