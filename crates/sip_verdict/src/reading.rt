ghost use Rattle.std.specs.Prelude.{IfOk};
ghost use Rattle.sip_verdict.specs.Incoming.{Is};

use crate::incoming::Incoming;
use crate::requesting::request_of;
use crate::responding::response_of;
use sip_edit::OwnVias;
use sip_message_form::{View, ViewStart};
use std::alloc::{AllocError, Global};

/// What a message is that came in, of whose body fewer bytes may have come than its length says, to a server with these
/// Vias.
pub(crate) fn incoming_of<'v>(
    alloc: Global,
    own_vias: &OwnVias,
    message: &'v View<'_>,
    short: bool,
) -> Result<Incoming<'v>, AllocError>
    ensures { IfOk result (Is own_vias.now message.now short) }
{
    match message.start() {
        ViewStart::Request { method, .. } => request_of(alloc, message, method),
        ViewStart::Status { code, .. } => response_of(alloc, own_vias, message, *code, short),
    }
}
