ghost use Rattle.std.specs.Prelude.{◌≡◌, Some, codes, is_some, IfOk};
ghost use Rattle.sip_route.specs.header.Parameters.{parameter_of};
ghost use Rattle.sip_message_fields.specs.declared.field_name.FieldName.TheVariants as Name;
ghost use Rattle.sip_message_fields.specs.Values.{with_first};
ghost use Rattle.sip_uri.specs.declared.addr.Addr.{Addr};
ghost use Rattle.sip_edit.specs.ReceivedRequest.{address_by, at_port};

use sip_message_fields::FieldName;
use sip_message_form::View;
use sip_route::header::{Via, one_before_rport, parameter_of};
use std::alloc::{AllocError, Global};

/// A request whose top Via has another value, as `received_via` gives it (RFC 3261 18.2.1). No byte is copied.
/// `AllocError` is the only refusal.
pub fn with_top_via<'v>(
    alloc: Global,
    request: &'v View<'_>,
    value: &'v [u8],
) -> Result<View<'v>, AllocError>
    ensures { IfOk result (λ edited. edited ≡ record request.now { fields = with_first Name.Via value.now request.now.fields }) }
{
    let fields = request.fields().with_first(alloc, &FieldName::Via, value)?;
    Ok(request.with_fields(fields))
}

/// Whether a Via asks for the port of its request (RFC 3581 3): mostly by its second parameter, which is seen at once.
#[tactic(auto, using(crate::proofs::AskedLast::asks))]
pub(crate) fn asks_for_port(via: &Via<'_>) -> bool
    ensures { result ≡ is_some (parameter_of (codes "rport") via.now.parameters) }
{
    if let Some(_first) = one_before_rport(&via.parameters) {
        return true;
    }
    parameter_of(&via.parameters, b"rport").is_some()
}

/// The port to which the responses go to a request with this Via on top, of which it is known whether it asks for its port:
/// the port of its sent-by, or 5060, or none where it is the source's (RFC 3261 18.2.2; RFC 3581 4).
pub(crate) fn port_asked(via: &Via<'_>, asks: bool) -> Option<u16>
    requires { asks ≡ is_some (parameter_of (codes "rport") via.now.parameters) }
    ensures { (from : Addr) → at_port result from ≡ address_by (Some via.now) from }
{
    if asks {
        return None;
    }
    Some(via.port.unwrap_or(5060))
}
