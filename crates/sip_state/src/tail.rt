ghost use Rattle.std.specs.Prelude.{◌≡◌, IfOk, true};
ghost use Rattle.sip_message_fields.specs.declared.field_name.FieldName.TheVariants as Name;
ghost use Rattle.sip_message_fields.specs.Values.{with_first};
ghost use Rattle.sip_edit.specs.Tail.{tail_of};

use sip_edit::received_tail;
use sip_message_form::View;
use sip_route::RoutesKept;
use sip_text::Bytes;
use std::alloc::{AllocError, Global};

/// What the packets of a request have in common, whatever their target: the text behind this server's own fields.
#[derive(Drop)]
pub(crate) struct Tail {
    /// The realm whose credentials are taken off.
    pub(crate) realm: Bytes,
    /// The Routes that are left.
    pub(crate) routes: RoutesKept,
    pub(crate) text: Bytes,
}

impl Tail {
    /// The tail of a request whose top Via gets this value, if these Routes are left, from a server of this realm.
    pub(crate) fn of(
        alloc: Global,
        realm: &[u8],
        routes: RoutesKept,
        request: &View<'_>,
        via: &[u8],
    ) -> Result<Self, AllocError>
        ensures { IfOk result (λ tail. tail.text ≡ tail_of tail.routes tail.realm
            (record request.now { fields = with_first Name.Via via.now request.now.fields })) }
    {
        let text = received_tail(alloc, realm, routes, request, via)?;
        let realm = Bytes::copy(alloc, realm)?;
        Ok(Tail {
            realm,
            routes,
            text,
        })
    }

    /// Whether it is that of a server of this realm, if these Routes are left.
    #[tactic(auto, using(crate::proofs::Tails::same_routes, crate::proofs::Tails::same_realm))]
    pub(crate) fn is_for(&self, realm: &[u8], routes: RoutesKept) -> bool
        ensures realm { result ≡ true → self.now.realm ≡ realm.now }
        ensures routes { result ≡ true → self.now.routes ≡ routes }
    {
        self.realm.as_slice() == realm
            && self.routes.skipped == routes.skipped
            && self.routes.kept == routes.kept
    }
}
