ghost use Rattle.std.specs.Prelude.{IfOk};
ghost use Rattle.sip_state.specs.ReadOnce.{AreGiven, IsOnward};
ghost use Rattle.sip_state.specs.Names.{AreNames};
ghost use Rattle.sip_state.specs.Tail.{IsTail};
ghost use Rattle.sip_state.specs.TopVia.{IsTopVia};

use crate::names::{DialogNames, names_by};
use crate::tail::Tail;
use crate::top_via::TopVia;
use sip_base::Shared;
use sip_message_form::{View, ViewStart};
use sip_route::Own;
use sip_route_facts::{HostPort, RouteFacts, host_ports_in};
use sip_text::Items;
use std::alloc::{AllocError, Global};

/// What is read of a request that goes on.
#[derive(Drop)]
pub(crate) struct Onward {
    pub(crate) routes: RouteFacts,
    /// What names its dialogs, if its core fields are read.
    pub(crate) names: Option<DialogNames>,
    /// Where its Contact and Record-Route lead, if it is an INVITE: its answers tell dialogs of them.
    pub(crate) given: Option<Items<HostPort>>,
    /// What its packets have in common.
    pub(crate) tail: Tail,
}

/// Whether a request is an INVITE.
fn is_invite(request: &View<'_>) -> bool {
    match request.start() {
        ViewStart::Request { method, .. } => *method == b"INVITE".as_slice(),
        ViewStart::Status { .. } => false,
    }
}

/// Where Contact and Record-Route of an INVITE lead.
fn given_by(alloc: Global, request: &View<'_>) -> Result<Option<Items<HostPort>>, AllocError>
    ensures { IfOk result (λ given. AreGiven request.now given) }
{
    if !is_invite(request) {
        return Ok(None);
    }
    Ok(Some(host_ports_in(alloc, request.fields().as_slice())?))
}

impl Onward {
    /// What is read of a request that goes on from a server of this place and realm, with what its top Via says; its names
    /// may have been made before.
    #[tactic(auto, using(crate::proofs::Tails::of_received))]
    pub(crate) fn of(
        alloc: Global,
        own: &Own,
        realm: &[u8],
        request: &View<'_>,
        via: &TopVia,
        names: Option<DialogNames>,
    ) -> Result<Shared<Self>, AllocError>
        requires names { AreNames request.now names }
        requires via { IsTopVia request.now via.now }
        ensures read { IfOk result (λ onward. IsOnward request.now onward) }
        ensures tail { IfOk result (λ onward. IsTail request.now via.now.source onward.tail) }
    {
        let routes = RouteFacts::of(alloc, request)?;
        let names = names_by(alloc, request, names)?;
        let given = given_by(alloc, request)?;
        let kept = routes.kept(alloc, own)?;
        let tail = Tail::of(alloc, realm, kept, request, via.value.as_slice())?;
        Shared::new(
            alloc,
            Onward {
                routes,
                names,
                given,
                tail,
            },
        )
    }
}
