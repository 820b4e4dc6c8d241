//! What makes a request a bad one, answered 400 (RFC 3261 16.3 step 1, 21.4.1), and whether a Via of it is this server's (step 4).
//! The other rows of the table are in `refusal`.
ghost use Rattle.std.specs.Prelude.{◌≡◌, ◌&&◌, ◌||◌, not, drop, IfOk, IfSome, is_some, is_ok, true, false};
ghost use Rattle.std.specs.List.{list_all, list_any};
ghost use Rattle.std.specs.Option.{option_and_then, option_map_or};
ghost use Rattle.sip_message_fields.specs.Values.{first_value, values_of};
ghost use Rattle.sip_message_fields.specs.declared.field_name.FieldName.TheVariants as Name;
ghost use Rattle.sip_uri.specs.Reading.{reading_of};
ghost use Rattle.sip_header.specs.Via as Vias;
ghost use Rattle.sip_header.specs.Route as Routes;
ghost use Rattle.sip_header.specs.ContactItem as Contacts;
ghost use Rattle.sip_route.specs.Own as Owns;
ghost use Rattle.sip_validate.specs.Faults as Definition;
ghost use Rattle.sip_validate.specs.Refusal.{has_own_via};

use crate::unchecked_request::UncheckedRequest;
use sip_header::{
    AnyUri, ContactItem, MaxForwards, Via, WrittenAddress, bracketed_host_port, contact_of,
    placed_host_port, route_of, via_of, written_address_of,
};
use sip_message_fields::{FieldName, ViewField};
use sip_route::Own;
use sip_text::{same_bytes, same_no_case, split_once};
use sip_uri::{UriError, parse_uri, write_uri};
use std::alloc::{AllocError, Global};

/// The most bytes of a contact's URI.
const LONGEST_CONTACT: usize = 512;

/// Whether what stands before the first `:` is `sip`, in any case.
pub(crate) fn has_sip_scheme(uri: &[u8]) -> bool
    ensures { result ≡ Definition.has_sip_scheme uri.now }
{
    match split_once(uri, b':') {
        Some((scheme, _)) => same_no_case(scheme, b"sip"),
        None => false,
    }
}

/// Whether bytes are a SIP or SIPS URI.
fn is_uri(alloc: Global, uri: &[u8]) -> Result<bool, AllocError>
    ensures { IfOk result (λ is_uri. is_uri ≡ is_ok (reading_of uri.now)) }
{
    match parse_uri(alloc, uri) {
        Ok(_) => Ok(true),
        Err(UriError::NoMemory) => Err(AllocError),
        Err(_) => Ok(false),
    }
}

/// Whether a value is a Via of this server's; None where it can't be read.
fn is_own_via(alloc: Global, own: &Own, value: &[u8]) -> Result<Option<bool>, AllocError>
    ensures read { IfOk result (λ is_own. is_some is_own ≡ is_some (Vias.via_of value.now)) }
    ensures own { IfOk result (λ is_own. IfSome is_own (λ t. t ≡ option_map_or (Owns.is_own_via own.now) (Vias.via_of value.now) false)) }
{
    match via_of(alloc, value)? {
        Some(via) => Ok(Some(own.is_own_via(&via))),
        None => Ok(None),
    }
}

/// Whether a value is an item of Route or Record-Route.
#[tactic(auto, using(crate::proofs::Lengths::plain_route))]
fn is_route(alloc: Global, value: &[u8]) -> Result<bool, AllocError>
    ensures { IfOk result (λ is_route. is_route ≡ is_some (Routes.route_of value.now)) }
{
    if bracketed_host_port(value).is_some() {
        return Ok(true);
    }
    Ok(route_of(alloc, value)?.is_some())
}

/// Whether a value is an item of Contact.
#[tactic(auto, using(crate::proofs::Lengths::placed_is, crate::proofs::Lengths::star_is, crate::proofs::Lengths::address_is))]
fn is_contact(alloc: Global, value: &[u8]) -> Result<bool, AllocError>
    ensures { IfOk result (λ is_contact. is_contact ≡ is_some (Contacts.contact_of value.now)) }
{
    if placed_host_port(value).is_some() {
        return Ok(true);
    }
    if same_bytes(value, b"*") {
        return Ok(true);
    }
    Ok(written_address_of(alloc, value)?.is_some())
}

/// Whether some value of a name is a Via of this server's; None where one can't be read. Each is read once.
fn some_is_own_via(
    alloc: Global,
    own: &Own,
    fields: &[ViewField<'_>],
    name: &FieldName,
) -> Result<Option<bool>, AllocError>
    ensures read { IfOk result (λ some. is_some some ≡ list_all (λ value. is_some (Vias.via_of value)) (values_of name.now fields.now)) }
    ensures own { IfOk result
        (λ some. IfSome some (λ t. t ≡ list_any (λ value. option_map_or (Owns.is_own_via own.now) (Vias.via_of value) false)
        (values_of name.now fields.now))) }
{
    let mut some = false;
    for field in fields {
        if field.name().is_same(name) {
            let Some(is_own) = is_own_via(alloc, own, field.value().as_slice())? else {
                return Ok(None);
            };
            some = some || is_own;
        }
    }
    Ok(Some(some))
}

/// The fields behind the first of a name; none where there is none of it.
fn behind_first<'f, 'a>(fields: &'f [ViewField<'a>], name: &FieldName) -> &'f [ViewField<'a>]
    ensures { values_of name.now result.now ≡ drop 1 (values_of name.now fields.now) }
{
    for (index, field) in fields.iter().enumerate() {
        if field.name().is_same(name) {
            return &fields[index + 1..];
        }
    }
    &[]
}

/// Whether some Via is this server's; None where one can't be read. The one on top was read before, and each behind it
/// is read once.
#[tactic(auto, using(crate::proofs::Vias::all_read, crate::proofs::Vias::own_on_top, crate::proofs::Vias::own_behind))]
fn one_is_own_via(
    alloc: Global,
    own: &Own,
    fields: &[ViewField<'_>],
    top: &Via<'_>,
) -> Result<Option<bool>, AllocError>
    requires { option_and_then Vias.via_of (first_value Name.Via fields.now) ≡ Some top.now }
    ensures read { IfOk result (λ some. is_some some ≡ list_all (λ value. is_some (Vias.via_of value)) (values_of Name.Via fields.now)) }
    ensures own { IfOk result
        (λ some. IfSome some (λ t. t ≡ list_any (λ value. option_map_or (Owns.is_own_via own.now) (Vias.via_of value) false)
        (values_of Name.Via fields.now))) }
{
    let behind = behind_first(fields, &FieldName::Via);
    let Some(some) = some_is_own_via(alloc, own, behind, &FieldName::Via)? else {
        return Ok(None);
    };
    if own.is_own_via(top) {
        return Ok(Some(true));
    }
    Ok(Some(some))
}

/// Whether each value of a name is an item of Route or Record-Route.
fn are_routes(alloc: Global, fields: &[ViewField<'_>], name: &FieldName) -> Result<bool, AllocError>
    ensures { IfOk result (λ all. all ≡ list_all (λ value. is_some (Routes.route_of value)) (values_of name.now fields.now)) }
{
    for field in fields {
        if field.name().is_same(name) {
            if !is_route(alloc, field.value().as_slice())? {
                return Ok(false);
            }
        }
    }
    Ok(true)
}

/// Whether each value of a name is an item of Contact.
fn are_contacts(
    alloc: Global,
    fields: &[ViewField<'_>],
    name: &FieldName,
) -> Result<bool, AllocError>
    ensures { IfOk result (λ all. all ≡ list_all (λ value. is_some (Contacts.contact_of value)) (values_of name.now fields.now)) }
{
    for field in fields {
        if field.name().is_same(name) {
            if !is_contact(alloc, field.value().as_slice())? {
                return Ok(false);
            }
        }
    }
    Ok(true)
}

/// Whether the URI of an address is a SIP or SIPS URI.
#[tactic(auto, using(crate::proofs::SipAddresses::kind_is))]
fn names_sip(address: &WrittenAddress<'_>) -> bool
    ensures { result ≡ Definition.is_sip address.now.uri }
{
    address.is_sip()
}

/// Whether it is a SIP or SIPS URI of at most 512 bytes.
fn may_be_bound(alloc: Global, uri: &AnyUri<'_>) -> Result<bool, AllocError>
    ensures { IfOk result (λ may. may ≡ Definition.may_be_bound uri.now) }
{
    match uri {
        AnyUri::Sip(uri) => {
            let text = write_uri(alloc, uri)?;
            Ok(text.as_slice().len() <= LONGEST_CONTACT)
        }
        AnyUri::Other(_) => Ok(false),
    }
}

/// Whether a long value is an item of Contact that is `*` or may be bound. It stands apart, so that no room is made for a URI where
/// none is made.
#[inline(never)]
fn is_long_bindable(alloc: Global, value: &[u8]) -> Result<bool, AllocError>
    ensures { IfOk result (λ may. may ≡ (is_some (Contacts.contact_of value.now) && Definition.is_bindable (Contacts.contact_of value.now))) }
{
    let Some(contact) = contact_of(alloc, value)? else {
        return Ok(false);
    };
    match &contact {
        ContactItem::Star => Ok(true),
        ContactItem::Address(address) => may_be_bound(alloc, &address.uri),
    }
}

/// Whether a value is an item of Contact that is `*` or may be bound. A URI isn't longer than the value that it stands in.
#[tactic(auto, using(crate::proofs::Lengths::placed_binds, crate::proofs::Lengths::star_binds, crate::proofs::Lengths::short_binds, crate::proofs::Lengths::none_binds))]
fn is_bindable(alloc: Global, value: &[u8]) -> Result<bool, AllocError>
    ensures { IfOk result (λ may. may ≡ (is_some (Contacts.contact_of value.now) && Definition.is_bindable (Contacts.contact_of value.now))) }
{
    if LONGEST_CONTACT < value.len() {
        return is_long_bindable(alloc, value);
    }
    if placed_host_port(value).is_some() {
        return Ok(true);
    }
    if same_bytes(value, b"*") {
        return Ok(true);
    }
    match written_address_of(alloc, value)? {
        Some(address) => Ok(names_sip(&address)),
        None => Ok(false),
    }
}

/// Whether each value of a name is an item of Contact that may be bound.
fn are_bindable(
    alloc: Global,
    fields: &[ViewField<'_>],
    name: &FieldName,
) -> Result<bool, AllocError>
    ensures { IfOk result
        (λ all. all ≡ list_all (λ value. is_some (Contacts.contact_of value) && Definition.is_bindable (Contacts.contact_of value))
        (values_of name.now fields.now)) }
{
    for field in fields {
        if field.name().is_same(name) {
            if !is_bindable(alloc, field.value().as_slice())? {
                return Ok(false);
            }
        }
    }
    Ok(true)
}

impl<'a, 'v> UncheckedRequest<'a, 'v> {
    /// Whether fewer bytes of the body came than Content-Length says (RFC 3261 18.3).
    fn has_short_body(&self) -> bool
        ensures { result ≡ Definition.has_short_body self.now }
    {
        self.short
    }

    /// Whether the method of CSeq is another than the request's (RFC 3261 8.1.1.5).
    fn has_other_cseq_method(&self) -> bool
        ensures value { result ≡ Definition.has_other_cseq_method self.now }
        // Its core fields were read.
        ensures read { Definition.lacks_core_field self.now ≡ false }
    {
        !same_bytes(self.core.cseq.method.as_slice(), self.method)
    }

    /// Whether Max-Forwards is repeated, or isn't 0 to 255 (RFC 3261 16.3 step 3).
    fn has_bad_max_forwards(&self) -> bool
        ensures { result ≡ Definition.has_bad_max_forwards self.now }
    {
        match self.max_forwards {
            MaxForwards::Malformed => true,
            MaxForwards::Absent | MaxForwards::Hops(_) => false,
        }
    }

    /// Whether the Request-URI, as it came, is a SIP or SIPS URI. It is read where it wasn't before.
    fn is_uri(&self, alloc: Global) -> Result<bool, AllocError>
        ensures { IfOk result (λ is_uri. is_uri ≡ is_ok (reading_of self.now.uri)) }
    {
        match self.is_uri {
            Some(is_uri) => Ok(is_uri),
            None => is_uri(alloc, self.uri),
        }
    }

    /// Whether the Request-URI, as it came, begins with `sip:` and isn't a SIP URI (RFC 3261 16.3 step 1).
    fn has_bad_uri(&self, alloc: Global) -> Result<bool, AllocError>
        ensures { IfOk result (λ bad. bad ≡ Definition.has_bad_uri self.now) }
    {
        if !has_sip_scheme(self.uri) {
            return Ok(false);
        }
        Ok(!self.is_uri(alloc)?)
    }

    /// Whether, in a REGISTER, To is neither a SIP nor a SIPS URI (RFC 3261 10.2, 10.3 step 5).
    fn registers_other_scheme(&self) -> bool
        ensures { result ≡ Definition.registers_other_scheme self.now }
    {
        self.is_register() && !names_sip(&self.core.to)
    }

    /// Whether each Contact can be read (RFC 3261 20.10), and in a REGISTER is `*` or a SIP or SIPS URI that isn't longer
    /// than 512 bytes (10.2.1, 10.3 step 6). Each is read once.
    #[tactic(auto, using(crate::proofs::Contacts::of_register, crate::proofs::Contacts::of_other))]
    fn has_good_contacts(&self, alloc: Global) -> Result<bool, AllocError>
        ensures { IfOk result
            (λ good. good ≡ (list_all (λ value. is_some (Contacts.contact_of value)) (values_of Name.Contact self.now.fields)
            && not (Definition.binds_other_contact self.now))) }
    {
        let fields = self.fields.as_slice();
        if self.is_register() {
            are_bindable(alloc, fields, &FieldName::Contact)
        } else {
            are_contacts(alloc, fields, &FieldName::Contact)
        }
    }

    /// Whether a Via is this server's (RFC 3261 16.3 step 4); None where one can't be read (20.42). Those behind the top
    /// one are read here.
    fn own_via(&self, alloc: Global) -> Result<Option<bool>, AllocError>
        ensures read { IfOk result (λ own. is_some own ≡ list_all (λ value. is_some (Vias.via_of value)) (values_of Name.Via self.now.fields)) }
        ensures own { IfOk result (λ own. IfSome own (λ t. t ≡ has_own_via self.now)) }
    {
        one_is_own_via(alloc, self.own, self.fields.as_slice(), self.via)
    }

    /// Whether each Route can be read (RFC 3261 20.34). `read` says that each was.
    fn has_good_routes(&self, alloc: Global, read: bool) -> Result<bool, AllocError>
        requires { read ≡ true → list_all (λ value. is_some (Routes.route_of value)) (values_of Name.Route self.now.fields) ≡ true }
        ensures { IfOk result (λ good. good ≡ list_all (λ value. is_some (Routes.route_of value)) (values_of Name.Route self.now.fields)) }
    {
        if read {
            return Ok(true);
        }
        are_routes(alloc, self.fields.as_slice(), &FieldName::Route)
    }

    /// Whether a Via is this server's (RFC 3261 16.3 step 4); None where an item of Via, Route, Record-Route or Contact is
    /// malformed (20.42, 20.34, 20.30, 20.10), or a Contact of a REGISTER may not be bound. Each Via behind the top
    /// one is read once, and no Route where each was read before.
    #[tactic(auto, using(crate::proofs::Bad::no_bad_item))]
    fn own_via_among_items(
        &self,
        alloc: Global,
        routes_read: bool,
    ) -> Result<Option<bool>, AllocError>
        requires { routes_read ≡ true → list_all (λ value. is_some (Routes.route_of value)) (values_of Name.Route self.now.fields) ≡ true }
        ensures good { IfOk result (λ own. is_some own ≡ not (Definition.has_bad_item self.now || Definition.binds_other_contact self.now)) }
        ensures own { IfOk result (λ own. IfSome own (λ t. t ≡ has_own_via self.now)) }
    {
        let Some(own) = self.own_via(alloc)? else {
            return Ok(None);
        };
        if !self.has_good_routes(alloc, routes_read)? {
            return Ok(None);
        }
        if !are_routes(alloc, self.fields.as_slice(), &FieldName::RecordRoute)? {
            return Ok(None);
        }
        if !self.has_good_contacts(alloc)? {
            return Ok(None);
        }
        Ok(Some(own))
    }

    /// Whether a Via is this server's (RFC 3261 16.3 step 4); None where it is a bad request (16.3 step 1, 21.4.1).
    /// `routes_read` says that each Route was read. `AllocError` is the only refusal.
    #[tactic(auto, using(crate::proofs::Bad::by_short, crate::proofs::Bad::by_method, crate::proofs::Bad::by_hops, crate::proofs::Bad::by_uri, crate::proofs::Bad::by_scheme, crate::proofs::Bad::by_items))]
    pub(crate) fn own_via_unless_bad(
        &self,
        alloc: Global,
        routes_read: bool,
    ) -> Result<Option<bool>, AllocError>
        requires { routes_read ≡ true → list_all (λ value. is_some (Routes.route_of value)) (values_of Name.Route self.now.fields) ≡ true }
        ensures bad { IfOk result (λ own. Definition.is_bad self.now ≡ not (is_some own)) }
        ensures own { IfOk result (λ own. IfSome own (λ t. t ≡ has_own_via self.now)) }
    {
        if self.has_short_body() {
            return Ok(None);
        }
        if self.has_other_cseq_method() {
            return Ok(None);
        }
        if self.has_bad_max_forwards() {
            return Ok(None);
        }
        if self.has_bad_uri(alloc)? {
            return Ok(None);
        }
        if self.registers_other_scheme() {
            return Ok(None);
        }
        self.own_via_among_items(alloc, routes_read)
    }

    /// Whether it is a bad request (RFC 3261 16.3 step 1, 21.4.1). `AllocError` is the only refusal.
    pub(crate) fn is_bad(&self, alloc: Global) -> Result<bool, AllocError>
        ensures { IfOk result (λ bad. bad ≡ Definition.is_bad self.now) }
    {
        Ok(self.own_via_unless_bad(alloc, false)?.is_none())
    }
}
