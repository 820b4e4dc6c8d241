ghost use Rattle.std.specs.Prelude.{◌≡◌, ℕ, Bool, List, IfOk};
ghost use Rattle.sip_message_form.specs.declared.message.Start.TheVariants as Start;
ghost use Rattle.sip_verdict.specs.Incoming.{Is};
ghost use Rattle.sip_route.specs.declared.own.Own.{Own};

use crate::incoming::Incoming;
use crate::key_reading::keyed_via;
use sip_message_form::View;
use std::alloc::{AllocError, Global};

/// A request of this method: it has a key, or is dropped (RFC 3261 8.1.1.7, 17.2.3).
pub(crate) fn request_of<'v>(
    alloc: Global,
    request: &'v View<'_>,
    method: &'v [u8],
) -> Result<Incoming<'v>, AllocError>
    ensures { IfOk result (λ incoming. (own : Own) (short : Bool) (uri version : List ℕ) → request.now.start
        ≡ Start.Request method.now uri version → Is own request.now short incoming) }
{
    match keyed_via(alloc, request, method)? {
        Some((via, key)) => Ok(Incoming::Request { method, via, key }),
        None => Ok(Incoming::Dropped),
    }
}
