ghost use Rattle.std.specs.Prelude.{◌≡◌, IfOk, option_map};
ghost use Rattle.std.specs.Option.{option_and_then};
ghost use Rattle.sip_message_fields.specs.declared.field_name.FieldName.TheVariants as Name;
ghost use Rattle.sip_message_fields.specs.Values.{first_value};
ghost use Rattle.sip_route.specs.header.Via.{via_of};
ghost use Rattle.sip_route.specs.Own.{own_branch};

use crate::branch::branch_in;
use crate::own_via_prefix::OwnViaPrefix;
use sip_message_fields::FieldName;
use sip_message_form::View;
use sip_route::Own;
use std::alloc::{AllocError, Global};
use std::marker::Model;

/// How the Vias of one run of a server are known. Seen as where this server is.
#[derive(Drop)]
pub struct OwnVias {
    own: Own,
    /// What they begin with, where that could be told.
    front: Option<OwnViaPrefix>,
}

impl Model for OwnVias {
    ghost use Rattle.std.specs.Prelude.{IfSome};
    ghost use Rattle.sip_edit.specs.OwnViaPrefix.{IsOwnViaPrefix};
    ghost use Rattle.sip_route.specs.declared.own.Own.{Own};

    ghost Value = { Own };

    ghost view = { λ v. v.own };

    ghost invariant = { λ v. IfSome v.front (IsOwnViaPrefix v.own) };
}

impl OwnVias {
    /// Those of a server's run with this word. `AllocError` is the only refusal.
    pub fn of(alloc: Global, own: &Own, word: u64) -> Result<Self, AllocError>
        ensures { IfOk result (λ vias. vias ≡ own.now) }
    {
        let own = own.clone()?;
        let front = OwnViaPrefix::of(alloc, &own, word)?;
        Ok(OwnVias { own, front })
    }

    /// The branch of this server's Via on top of a response (RFC 3261 16.7 step 1, 18.1.2). `AllocError` is the only refusal.
    pub fn top_branch<'v>(
        &self,
        alloc: Global,
        response: &'v View<'_>,
    ) -> Result<Option<&'v [u8]>, AllocError>
        ensures { IfOk result (λ branch. option_map (λ branch. branch.now) branch
            ≡ option_and_then (own_branch self.now) (option_and_then via_of (first_value Name.Via response.now.fields))) }
    {
        match response.fields().first(&FieldName::Via) {
            Some(value) => branch_in(alloc, &self.own, self.front.as_ref(), value),
            None => Ok(None),
        }
    }
}
