//! The table of what refuses a request (RFC 3261 16.3, 8.2.2): its rows in their order, of which the first that applies counts.
//! What makes a request a bad one is in `faults`.
ghost use Rattle.std.specs.Prelude.{◌≡◌, ◌++◌, IfOk, OnOk, codes, true, is_some, map, option_map};
ghost use Rattle.std.specs.List.{flat_map, join_by, list_all};
ghost use Rattle.sip_message_fields.specs.declared.field_name.FieldName.TheVariants as Name;
ghost use Rattle.sip_message_fields.specs.Values.{values_of};
ghost use Rattle.sip_header.specs.Route.{route_of};
ghost use Rattle.sip_route.specs.Way.{way_from};
ghost use Rattle.sip_validate.specs.UncheckedRequest.{on_way};
ghost use Rattle.sip_validate.specs.Refusal as Definition;
ghost use Rattle.sip_validate.specs.Refused.{refused_with};

use crate::faults::has_sip_scheme;
use crate::refused::Refused;
use crate::unchecked_request::UncheckedRequest;
use sip_header::{MaxForwards, tag_of};
use sip_message_fields::FieldName;
use sip_route::Way;
use sip_text::{Bytes, same_bytes};
use std::alloc::{AllocError, Global};

/// Whether a Max-Forwards is 0.
fn is_zero(max_forwards: MaxForwards) -> bool
    ensures { result ≡ Definition.is_zero max_forwards }
{
    match max_forwards {
        MaxForwards::Hops(hops) => hops == 0,
        MaxForwards::Absent | MaxForwards::Malformed => false,
    }
}

/// Puts each of some items behind `, `.
fn put_behind_commas(out: &mut Bytes, items: &[&[u8]]) -> Result<(), AllocError>
    ensures { OnOk result (out.new ≡ out.old ++ flat_map (λ item. codes ", " ++ item) (map (λ item. item.now) items.now)) }
{
    for item in items {
        out.extend(b", ")?;
        out.extend(item)?;
    }
    Ok(())
}

/// Some items with `, ` between them.
fn joined(alloc: Global, items: &[&[u8]]) -> Result<Bytes, AllocError>
    ensures { IfOk result (λ text. text ≡ join_by (λ item. item) (codes ", ") (map (λ item. item.now) items.now)) }
{
    let Some((first, others)) = items.split_first() else {
        return Ok(Bytes::new(alloc));
    };
    let mut text = Bytes::copy(alloc, first)?;
    put_behind_commas(&mut text, others)?;
    Ok(text)
}

impl<'a, 'v> UncheckedRequest<'a, 'v> {
    /// Whether it is of another version than SIP/2.0 (RFC 3261 7.1, 21.5.6).
    fn has_other_version(&self) -> bool
        ensures { result ≡ Definition.has_other_version self.now }
    {
        !same_bytes(self.version, b"SIP/2.0")
    }

    /// Whether Max-Forwards is 0 (RFC 3261 16.3 step 3), except in a REGISTER.
    fn has_no_hops(&self) -> bool
        ensures { result ≡ Definition.has_no_hops self.now }
    {
        !self.is_register() && is_zero(self.max_forwards)
    }

    /// The field that says which extensions it needs (RFC 3261 16.3 step 5, 8.2.2.3).
    fn required_by(&self) -> FieldName
        ensures { result ≡ Definition.required_by self.now }
    {
        if self.is_register() {
            FieldName::Require
        } else {
            FieldName::ProxyRequire
        }
    }

    /// Whether it needs an extension; none is known here.
    fn needs_extension(&self) -> bool
        ensures { result ≡ Definition.needs_extension self.now }
    {
        self.fields.first(&self.required_by()).is_some()
    }

    /// The value of Unsupported (RFC 3261 20.40).
    fn unsupported(&self, alloc: Global) -> Result<Bytes, AllocError>
        ensures { IfOk result (λ items. items ≡ Definition.unsupported self.now) }
    {
        let items = self.fields.values(alloc, &self.required_by())?;
        joined(alloc, items.as_slice())
    }

    /// Whether To has a tag.
    fn is_in_dialog(&self) -> bool
        ensures { result ≡ Definition.is_in_dialog self.now }
    {
        tag_of(self.core.to.parameters()).is_some()
    }

    /// Whether the Request-URI, without this server's own part of the way, isn't `sip:` (RFC 3261 16.3 step 2).
    fn has_other_scheme(&self, way: &Way<'_>) -> bool
        ensures { result ≡ Definition.has_other_scheme (on_way way.now self.now) }
    {
        !has_sip_scheme(way.uri.as_slice())
    }

    /// Whether it wants, outside a dialog, to go by another place: a Route is left without this server's own.
    fn has_other_route(&self, way: &Way<'_>) -> bool
        ensures { result ≡ Definition.has_other_route (on_way way.now self.now) }
    {
        if self.is_register() {
            return false;
        }
        if self.is_in_dialog() {
            return false;
        }
        !way.routes.as_slice().is_empty()
    }

    /// Whether its way says that each Route was read: none is left of it.
    #[tactic(auto, using(crate::proofs::Routes::all_read))]
    fn has_read_routes(&self, way: &Way<'_>) -> bool
        requires { way.now ≡ way_from self.now.own self.now.uri self.now.fields }
        ensures { result ≡ true → list_all (λ value. is_some (route_of value)) (values_of Name.Route self.now.fields) ≡ true }
    {
        way.routes.as_slice().is_empty()
    }

    /// What refuses it on its way: the status of the first row of the table that applies, with the value of
    /// Unsupported in a 420. None where it may be served. `AllocError` is the only refusal of the call.
    #[tactic(auto, using(crate::proofs::Rows::bad, crate::proofs::Rows::other_version, crate::proofs::Rows::other_scheme, crate::proofs::Rows::no_hops, crate::proofs::Rows::own_via, crate::proofs::Rows::extension, crate::proofs::Rows::other_route, crate::proofs::Rows::no_row))]
    pub(crate) fn refusal(
        &self,
        alloc: Global,
        way: &Way<'_>,
    ) -> Result<Option<Refused>, AllocError>
        requires { way.now ≡ way_from self.now.own self.now.uri self.now.fields }
        ensures { IfOk result (λ refused. refused ≡ option_map refused_with (Definition.refusal (on_way way.now self.now))) }
    {
        let routes_read = self.has_read_routes(way);
        let Some(has_own_via) = self.own_via_unless_bad(alloc, routes_read)? else {
            return Ok(Some(Refused::of(alloc, 400)));
        };
        if self.has_other_version() {
            return Ok(Some(Refused::of(alloc, 505)));
        }
        if self.has_other_scheme(way) {
            return Ok(Some(Refused::of(alloc, 416)));
        }
        if self.has_no_hops() {
            return Ok(Some(Refused::of(alloc, 483)));
        }
        if has_own_via {
            return Ok(Some(Refused::of(alloc, 482)));
        }
        if self.needs_extension() {
            return Ok(Some(Refused::Status(420, self.unsupported(alloc)?)));
        }
        if self.has_other_route(way) {
            return Ok(Some(Refused::of(alloc, 400)));
        }
        Ok(None)
    }
}
