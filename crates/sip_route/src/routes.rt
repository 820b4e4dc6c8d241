ghost use Rattle.std.specs.Prelude.{◌≡◌, IfOk, [], ◌∷◌, map};
ghost use Rattle.sip_route.specs.Way as Ways;
ghost use Rattle.sip_route.specs.Routes.{all_but_last, without_own};

use crate::own::Own;
use sip_header::{AnyUri, NameAddr, bracketed_host_port, route_of};
use sip_text::{Items, Text};
use std::alloc::{AllocError, Global};

/// Whether a URI of any scheme names this server.
fn names_own_host_port(own: &Own, uri: &AnyUri<'_>) -> bool
    ensures { result ≡ Ways.names_own_host_port own.now uri.now }
{
    match uri {
        AnyUri::Sip(uri) => own.is_own_host_port(uri),
        AnyUri::Other(_) => false,
    }
}

/// Whether the URI of an item of Route names this server. It stands apart, so that no room is made for a URI where none is
/// read.
#[inline(never)]
fn is_own_parsed(alloc: Global, own: &Own, value: &[u8]) -> Result<bool, AllocError>
    ensures { IfOk result (λ is_own. is_own ≡ Ways.begins_with_own own.now (value.now ∷ [])) }
{
    match route_of(alloc, value)? {
        Some(route) => Ok(names_own_host_port(own, &route.uri)),
        None => Ok(false),
    }
}

/// Whether an item of Route names this server: no URI is made of one as this server writes them.
#[tactic(auto, using(crate::proofs::PlainRoutes::own_at))]
pub(crate) fn is_own_route(alloc: Global, own: &Own, value: &[u8]) -> Result<bool, AllocError>
    ensures { IfOk result (λ is_own. is_own ≡ Ways.begins_with_own own.now (value.now ∷ [])) }
{
    if let Some((host, port)) = bracketed_host_port(value) {
        return Ok(own.is_own_at(host, port));
    }
    is_own_parsed(alloc, own, value)
}

/// What the last of some Routes says.
#[tactic(auto, using(crate::proofs::Last::last_is, crate::proofs::Last::no_last))]
pub(crate) fn last_route<'v>(
    alloc: Global,
    routes: &[&'v [u8]],
) -> Result<Option<NameAddr<'v>>, AllocError>
    ensures { IfOk result (λ route. route ≡ Ways.last_route (map (λ x. x.now) routes.now)) }
{
    match routes.split_last() {
        Some((last, _)) => route_of(alloc, last),
        None => Ok(None),
    }
}

/// Some Routes, of which no byte is copied.
fn texts_of<'v>(alloc: Global, routes: &[&'v [u8]]) -> Result<Items<Text<'v>>, AllocError>
    ensures { IfOk result (λ texts. texts ≡ map (λ x. x.now) routes.now) }
{
    let mut texts = Items::new(alloc);
    for route in routes {
        texts.push(Text::new(route))?;
    }
    Ok(texts)
}

/// Some Routes without a first one that names this server.
pub(crate) fn routes_left<'v>(
    alloc: Global,
    own: &Own,
    routes: &[&'v [u8]],
) -> Result<Items<Text<'v>>, AllocError>
    ensures { IfOk result (λ left. left ≡ without_own own.now (map (λ x. x.now) routes.now)) }
{
    let Some((first, others)) = routes.split_first() else {
        return Ok(Items::new(alloc));
    };
    if is_own_route(alloc, own, first)? {
        texts_of(alloc, others)
    } else {
        texts_of(alloc, routes)
    }
}

/// The same of all but the last of some Routes.
#[tactic(auto, using(crate::proofs::Last::others_are, crate::proofs::Last::no_others))]
pub(crate) fn others_left<'v>(
    alloc: Global,
    own: &Own,
    routes: &[&'v [u8]],
) -> Result<Items<Text<'v>>, AllocError>
    ensures { IfOk result (λ left. left ≡ without_own own.now (all_but_last (map (λ x. x.now) routes.now))) }
{
    match routes.split_last() {
        Some((_, others)) => routes_left(alloc, own, others),
        None => Ok(Items::new(alloc)),
    }
}
