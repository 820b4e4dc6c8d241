//! The request of an open request, as it is kept, and what is asked of it again and again, read once: its top Via, its Routes, its dialogs.
//! From it the packets to targets are written (RFC 3261 16.6).
ghost use Rattle.std.specs.Prelude.{◌≡◌, ◌++◌, true, ℕ, IfOk, IfSome, OnOk, List, Some, is_some};
ghost use Rattle.std.specs.Option.{option_and_then};
ghost use Rattle.std.specs.List.{filter_map};
ghost use Rattle.std.specs.Result.{result_ok};
ghost use Rattle.sip_header.specs.CoreFields.{core_of};
ghost use Rattle.sip_message_fields.specs.declared.field_name.FieldName.TheVariants as Name;
ghost use Rattle.sip_message_fields.specs.Values.{with_first};
ghost use Rattle.sip_dialog.specs.Addresses.{addresses_in};
ghost use Rattle.sip_dialog.specs.DialogId.{id_of};
ghost use Rattle.sip_edit.specs.ReceivedRequest.{received, received_fields, response_address, top_via};
ghost use Rattle.sip_message_form.specs.Text.{text_of};
ghost use Rattle.sip_message_form.specs.ViewStart.{start_seen};
ghost use Rattle.sip_hops.specs.HostAddress.{address_of};
ghost use Rattle.sip_route.specs.Way.{request_uri, fields_left};
ghost use Rattle.sip_route.specs.RoutesKept.{fields_kept};
ghost use Rattle.sip_route_facts.specs.RouteFacts.{facts_in, kept_by};
ghost use Rattle.sip_edit.specs.Tail.{tail_of};
ghost use Rattle.sip_state.specs.ReadOnce.{goes_to};
ghost use Rattle.sip_state.specs.Names as Spec;
ghost use Rattle.sip_route_facts.specs.ContactHostPorts.{address_there};

use crate::names::{DialogNames, dialog_by, dialog_to, names_dialog, names_in};
use crate::onward::Onward;
use crate::server::Server;
use crate::top_via::TopVia;
use sip_base::Shared;
use sip_dialog::DialogId;
use sip_edit::{BranchId, received_tail, text_to_target};
use sip_header::Via;
use sip_hops::Hops;
use sip_message_fields::{FieldName, Value};
use sip_message_form::{KeptParts, View, ViewStart};
use sip_route::{Own, RoutesKept};
use sip_route_facts::laws::kept_routes_are_left;
use sip_route_facts::{HostPort, RouteFacts, host_ports_in};
use sip_text::{Bytes, Items};
use sip_uri::Addr;
use std::alloc::{AllocError, Global};
use std::marker::Model;

/// A request that is kept beyond its datagram, seen as that message and the address that it came from, with what is read of
/// it once.
pub struct KeptRequest {
    message: KeptParts,
    via: TopVia,
    /// Of a request that goes on, in a block of its own: one that is answered here has none.
    onward: Option<Shared<Onward>>,
}

/// Written out, so that it is proved once and not wherever one is dropped.
impl Drop for KeptRequest {
    fn drop(self) {
        let KeptRequest {
            message: _,
            via: _,
            onward: _,
        } = self;
    }
}

impl Model for KeptRequest {
    ghost use Rattle.sip_state.specs.KeptRequest.{KeptRequest};
    ghost use Rattle.sip_state.specs.ReadOnce.{IsReadOnce};

    ghost Value = { KeptRequest };

    ghost view = { λ h. record { message = h.message; source = h.via.source } };

    ghost invariant = { λ h. IsReadOnce h.message h.via h.onward };
}

/// Which Routes of a message are left for a server.
/// It is there for what is kept of a request that is answered here, of which no step asks it.
fn unread_routes(alloc: Global, message: &KeptParts, own: &Own) -> Result<RoutesKept, AllocError>
    ensures { IfOk result (λ kept. kept ≡ kept_by own.now (facts_in message.now)) }
{
    let request = message.view(alloc)?;
    let facts = RouteFacts::of(alloc, &request)?;
    facts.kept(alloc, own)
}

/// What a message says of its dialogs, if its core fields are read.
/// It is there for what is kept of a request that is answered here, of which no step asks it.
fn unread_names(alloc: Global, message: &KeptParts) -> Result<Option<DialogNames>, AllocError>
    ensures { IfOk result (λ names. names ≡ Spec.names_in message.now) }
{
    let request = message.view(alloc)?;
    names_in(alloc, &request)
}

/// Adds the addresses that places have in a table.
fn put_addresses(out: &mut Items<Addr>, hops: &Hops, places: &[HostPort]) -> Result<(), AllocError>
    ensures { OnOk result (out.new ≡ out.old ++ filter_map (address_there hops.now.addresses) places.now) }
{
    for place in places {
        if let Some(address) = hops.address_at(place.host.as_slice(), place.port) {
            out.push(address)?;
        }
    }
    Ok(())
}

/// Adds the addresses that Contact and Record-Route of a message give by a table.
/// It is there for what is kept of a request that is answered here, of which no step asks it.
#[tactic(auto, using(crate::proofs::Told::addresses_are))]
fn put_unread(
    alloc: Global,
    out: &mut Items<Addr>,
    hops: &Hops,
    message: &KeptParts,
) -> Result<(), AllocError>
    ensures { OnOk result (out.new ≡ out.old ++ addresses_in (address_of hops.now.addresses) message.now.fields) }
{
    let fields = message.fields(alloc)?;
    let places = host_ports_in(alloc, fields.as_slice())?;
    put_addresses(out, hops, places.as_slice())
}

impl KeptRequest {
    /// A request with this Via on top that came from an address, and that is answered here: its first owner. `AllocError` is
    /// the only refusal.
    pub fn of(
        alloc: Global,
        request: &View<'_>,
        via: &Via<'_>,
        from: Addr,
    ) -> Result<Shared<Self>, AllocError>
        requires { top_via request.now ≡ Some via.now }
        ensures { IfOk result (λ heard. heard ≡ record { message = request.now; source = from }) }
    {
        let message = KeptParts::of(alloc, request)?;
        let via = TopVia::of(alloc, request, via, from)?;
        Shared::new(
            alloc,
            KeptRequest {
                message,
                via,
                onward: None,
            },
        )
    }

    /// A request with this Via on top that came from an address, and that goes on from a server of this place and realm: its
    /// first owner. Its core fields aren't read for names that were made before. `AllocError` is the only refusal.
    pub fn onward(
        alloc: Global,
        own: &Own,
        realm: &[u8],
        request: &View<'_>,
        via: &Via<'_>,
        from: Addr,
        names: Option<DialogNames>,
    ) -> Result<Shared<Self>, AllocError>
        requires names { Spec.AreNames request.now names }
        requires via { top_via request.now ≡ Some via.now }
        ensures { IfOk result (λ heard. heard ≡ record { message = request.now; source = from }) }
    {
        let message = KeptParts::of(alloc, request)?;
        let via = TopVia::of(alloc, request, via, from)?;
        let onward = Onward::of(alloc, own, realm, request, &via, names)?;
        Shared::new(
            alloc,
            KeptRequest {
                message,
                via,
                onward: Some(onward),
            },
        )
    }

    /// The first line of the message, of which no byte is copied. Takes no memory.
    pub fn start(&self) -> ViewStart<'_>
        ensures { start_seen result ≡ self.now.message.start }
    {
        self.message.start()
    }

    /// The message as it is kept. Takes no memory.
    pub fn message(&self) -> &KeptParts
        ensures { result.now ≡ self.now.message }
    {
        &self.message
    }

    /// Where it came from. Takes no memory.
    pub fn source(&self) -> Addr
        ensures { result ≡ self.now.source }
    {
        self.via.source
    }

    /// A view of the message, of which no byte is copied. `AllocError` is the only refusal.
    pub fn view<'k>(&'k self, alloc: Global) -> Result<View<'k>, AllocError>
        ensures { IfOk result (λ view. view ≡ self.now.message) }
    {
        self.message.view(alloc)
    }

    /// A view of the message, whose top Via has another value, as `received_via` gives it (RFC 3261 18.2.1). No byte is
    /// copied. `AllocError` is the only refusal.
    pub fn with_top_via<'k>(
        &'k self,
        alloc: Global,
        value: &'k [u8],
    ) -> Result<View<'k>, AllocError>
        ensures { IfOk result (λ view. view ≡ record self.now.message { fields = with_first Name.Via value.now self.now.message.fields }) }
    {
        self.message.view_with_first(alloc, &FieldName::Via, value)
    }

    /// The value that its top Via gets (RFC 3261 18.2.1). Takes no memory.
    pub fn received_via(&self) -> &[u8]
        ensures { with_first Name.Via result.now self.now.message.fields ≡ received_fields self.now.source self.now.message.fields }
    {
        self.via.value.as_slice()
    }

    /// Where its answers go (RFC 3261 18.2.2). Takes no memory.
    #[tactic(auto, using(crate::proofs::Received::goes_back))]
    pub fn reply_to(&self) -> Addr
        ensures { result ≡ response_address self.now.message self.now.source }
    {
        self.via.reply_to()
    }

    /// Which fields are left once a server's own part of the way is taken off (RFC 3261 16.4), whatever value the top Via
    /// has. `AllocError` is the only refusal.
    pub fn routes_kept(&self, alloc: Global, own: &Own) -> Result<RoutesKept, AllocError>
        ensures { IfOk result (λ kept. (via : List ℕ) → fields_kept kept (with_first Name.Via via self.now.message.fields)
            ≡ fields_left own.now (request_uri self.now.message.start) (with_first Name.Via via self.now.message.fields)) }
    {
        kept_routes_are_left();
        match &self.onward {
            Some(onward) => onward.get().routes.kept(alloc, own),
            None => unread_routes(alloc, &self.message, own),
        }
    }

    /// What its packets have in common, if that was kept for a server of this realm, with these Routes left.
    #[tactic(auto, using(crate::proofs::Tails::is_tail))]
    fn kept_tail(&self, realm: &[u8], routes: RoutesKept) -> Option<&[u8]>
        ensures { IfSome result (λ tail. tail.now ≡ tail_of routes realm.now (received self.now.message self.now.source)) }
    {
        let onward = self.onward.as_ref()?;
        let tail = &onward.get().tail;
        if !tail.is_for(realm, routes) {
            return None;
        }
        Some(tail.text.as_slice())
    }

    /// What its packets have in common for a server of this realm, with these Routes left: as it was kept, or written anew.
    #[tactic(auto, using(crate::proofs::Tails::of_received))]
    fn tail(&self, alloc: Global, realm: &[u8], routes: RoutesKept) -> Result<Value<'_>, AllocError>
        ensures { IfOk result (λ tail. tail ≡ tail_of routes realm.now (received self.now.message self.now.source)) }
    {
        if let Some(tail) = self.kept_tail(realm, routes) {
            return Ok(Value::of_part(tail));
        }
        let request = self.view(alloc)?;
        let tail = received_tail(alloc, realm, routes, &request, self.received_via())?;
        Value::of_bytes(alloc, tail)
    }

    /// The text of the request as it goes from a server to a target with this Request-URI: without the server's own part of the
    /// way, without the credentials for its realm, with one hop less, the server's Via of this branch on top, and its
    /// Record-Route where it gets one (RFC 3261 16.4, 16.6). What all targets have in common is copied, and not written anew.
    /// `AllocError` is the only refusal.
    pub fn text_to(
        &self,
        alloc: Global,
        server: &Server,
        branch: BranchId,
        records_route: bool,
        uri: &[u8],
    ) -> Result<Bytes, AllocError>
        ensures { IfOk result (λ text. text ≡ text_of (goes_to server.now branch records_route uri.now (received self.now.message self.now.source))) }
    {
        let own = &server.config.own;
        let routes = self.routes_kept(alloc, own)?;
        let tail = self.tail(alloc, server.config.realm.as_slice(), routes)?;
        let start = self.start();
        text_to_target(
            alloc,
            own,
            server.word,
            branch,
            records_route,
            &start,
            uri,
            tail.as_slice(),
        )
    }

    /// Whether the request names a dialog (RFC 3261 12.2.2). `AllocError` is the only refusal.
    #[tactic(auto, using(crate::proofs::Told::dialog_is))]
    pub fn names_dialog(&self, alloc: Global) -> Result<bool, AllocError>
        ensures { IfOk result (λ names. names ≡ is_some (option_and_then (λ core. id_of core) (result_ok (core_of self.now.message)))) }
    {
        match &self.onward {
            Some(onward) => Ok(names_dialog(&onward.get().names)),
            None => {
                let names = unread_names(alloc, &self.message)?;
                Ok(names_dialog(&names))
            }
        }
    }

    /// The dialog that the request names, if its core fields are read and its To has a tag (RFC 3261 12.2.2). `AllocError`
    /// is the only refusal.
    #[tactic(auto, using(crate::proofs::Told::dialog_is))]
    pub fn dialog(&self, alloc: Global) -> Result<Option<DialogId>, AllocError>
        ensures { IfOk result (λ id. id ≡ option_and_then (λ core. id_of core) (result_ok (core_of self.now.message))) }
    {
        match &self.onward {
            Some(onward) => dialog_by(alloc, &onward.get().names),
            None => {
                let names = unread_names(alloc, &self.message)?;
                dialog_by(alloc, &names)
            }
        }
    }

    /// The dialog that an answer with a tag of To names, if the core fields of the request are read (RFC 3261 12.1.1).
    /// `AllocError` is the only refusal.
    pub fn dialog_to(&self, alloc: Global, to_tag: &[u8]) -> Result<Option<DialogId>, AllocError>
        ensures { IfOk result (λ id. id ≡ Spec.dialog_to to_tag.now (Spec.names_in self.now.message)) }
    {
        match &self.onward {
            Some(onward) => dialog_to(alloc, &onward.get().names, to_tag),
            None => {
                let names = unread_names(alloc, &self.message)?;
                dialog_to(alloc, &names, to_tag)
            }
        }
    }

    /// Adds the addresses that Contact and Record-Route give by a table, in the order of the fields (RFC 3261 12.1.1).
    /// `AllocError` is the only refusal.
    #[tactic(auto, using(crate::proofs::Told::addresses_are))]
    pub fn put_addresses(
        &self,
        alloc: Global,
        hops: &Hops,
        out: &mut Items<Addr>,
    ) -> Result<(), AllocError>
        ensures { OnOk result (out.new ≡ out.old ++ addresses_in (address_of hops.now.addresses) self.now.message.fields) }
    {
        if let Some(onward) = &self.onward {
            if let Some(places) = &onward.get().given {
                return put_addresses(out, hops, places.as_slice());
            }
        }
        put_unread(alloc, out, hops, &self.message)
    }

    /// Only where another is the same message from the same address: what is read of it once says the same then. Takes no memory,
    /// and costs by the bytes.
    pub(crate) fn is_same(&self, other: &KeptRequest) -> bool
        ensures { result ≡ true → self.now ≡ other.now }
    {
        if !self.via.source.is_same(other.via.source) {
            return false;
        }
        self.message.is_same(&other.message)
    }
}
