//! Which Routes of a request are left once this server's own part of its way is taken off (RFC 3261 16.4), told by two numbers.
//! The way itself is in `way`.
ghost use Rattle.std.specs.Prelude.{◌≡◌, IfOk, is_some, map};
ghost use Rattle.sip_route.specs.Way as Ways;
ghost use Rattle.sip_route.specs.Routes.{all_but_last};
ghost use Rattle.sip_route.specs.RoutesKept as Kept;

use crate::own::Own;
use crate::routes::is_own_route;
use crate::way::{request_uri, restored_of};
use sip_header::forms::View;
use sip_message_fields::{FieldName, ViewField};
use std::alloc::{AllocError, Global};

/// Which fields of a request are left once this server's own part of its way is taken off: of its Routes so many are
/// skipped, then so many stay, and no further one; all other fields stay.
#[derive(Clone, Copy)]
pub struct RoutesKept {
    pub skipped: usize,
    pub kept: usize,
}

impl RoutesKept {
    /// Whether the next field stays. What is left to skip and to keep is then that of the fields behind it. Takes no
    /// memory.
    pub fn takes(&mut self, field: &ViewField<'_>) -> bool
        ensures stays { result ≡ Kept.stays self.old field.now }
        ensures behind { self.new ≡ Kept.behind self.old field.now }
    {
        if !field.name().is_same(&FieldName::Route) {
            return true;
        }
        if 0 < self.skipped {
            self.skipped -= 1;
            return false;
        }
        if 0 < self.kept {
            self.kept -= 1;
            return true;
        }
        false
    }
}

/// Whether a Route takes the place of a Request-URI.
fn is_restored(alloc: Global, own: &Own, uri: &[u8], routes: &[&[u8]]) -> Result<bool, AllocError>
    ensures { IfOk result (λ t. t ≡ is_some (Ways.restored_of own.now uri.now (map (λ x. x.now) routes.now))) }
{
    let route = restored_of(alloc, own, uri, routes)?;
    Ok(route.is_some())
}

/// Whether the first of some Routes names this server.
fn begins_with_own(alloc: Global, own: &Own, routes: &[&[u8]]) -> Result<bool, AllocError>
    ensures { IfOk result (λ t. t ≡ Ways.begins_with_own own.now (map (λ x. x.now) routes.now)) }
{
    match routes.split_first() {
        Some((first, _)) => is_own_route(alloc, own, first),
        None => Ok(false),
    }
}

/// The same of all but the last of some Routes.
#[tactic(auto, using(crate::proofs::Last::others_begin, crate::proofs::Last::none_begin))]
fn others_begin_with_own(alloc: Global, own: &Own, routes: &[&[u8]]) -> Result<bool, AllocError>
    ensures { IfOk result (λ t. t ≡ Ways.begins_with_own own.now (all_but_last (map (λ x. x.now) routes.now))) }
{
    match routes.split_last() {
        Some((_, others)) => begins_with_own(alloc, own, others),
        None => Ok(false),
    }
}

/// Which of some Routes are left, where the last takes the place of the Request-URI or not.
fn kept_of(
    alloc: Global,
    own: &Own,
    is_restored: bool,
    routes: &[&[u8]],
) -> Result<RoutesKept, AllocError>
    ensures { IfOk result (λ kept. kept ≡ Kept.kept_of own.now is_restored (map (λ x. x.now) routes.now)) }
{
    let count = routes.len();
    let (others, is_own) = if is_restored {
        (
            count.saturating_sub(1),
            others_begin_with_own(alloc, own, routes)?,
        )
    } else {
        (count, begins_with_own(alloc, own, routes)?)
    };
    let skipped = if is_own { 1 } else { 0 };
    Ok(RoutesKept {
        skipped,
        kept: others.saturating_sub(skipped),
    })
}

/// Which fields of a request are left once this server's own part of its way is taken off (RFC 3261 16.4).
/// `AllocError` is the only refusal.
#[tactic(auto, using(crate::proofs::Kept::kept_is))]
pub fn kept_routes(alloc: Global, own: &Own, message: &View<'_>) -> Result<RoutesKept, AllocError>
    ensures { IfOk result (λ kept. Kept.fields_kept kept message.now.fields
        ≡ Ways.fields_left own.now (Ways.request_uri message.now.start) message.now.fields) }
{
    let routes = message.fields().values(alloc, &FieldName::Route)?;
    let uri = request_uri(message.start());
    let is_restored = is_restored(alloc, own, uri, routes.as_slice())?;
    kept_of(alloc, own, is_restored, routes.as_slice())
}
