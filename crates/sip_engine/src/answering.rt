ghost use Rattle.std.specs.Prelude.{◌≡◌, false, IfOk};
ghost use Rattle.sip_engine_request.specs.transactions_model.Fits.{IsFinalAnswer};
ghost use Rattle.sip_verdict.specs.verdict_model.Verdict as Definition;
ghost use Rattle.sip_engine_request.specs.Steps.{IsNew, IsWhole, Takes};

use crate::keeping::keep;
use crate::new_request::NewRequest;
use sip_base::Shared;
use sip_engine_request::proxy::{Configured, Proxy};
use sip_engine_request::{KeyedRequest, take_answered, take_cancel};
use sip_event::StepOut;
use sip_message_fields::Fields;
use sip_timers::Timers;
use sip_verdict::state::Server;
use std::alloc::{AllocError, Global};

/// A new request is answered at once, with a status and further fields. `AllocError` is the only refusal; nothing is changed
/// then.
pub(crate) fn answer<T: Timers>(
    alloc: Global,
    server: &Server,
    proxy: &mut Proxy<T>,
    request: NewRequest<'_>,
    status: u16,
    extras: &Fields,
) -> Result<StepOut, AllocError>
    requires new { IsNew proxy.old.state request.received.now.arrival request.key }
    requires final_status { IsFinalAnswer status }
    ensures does { IfOk result (λ out. Takes server.now proxy.old.state request.entry.received.now.arrival request.entry.received.now.message.now
        (Definition.Answer status extras.now) out proxy.new.state) }
    ensures whole { IsWhole proxy.old proxy.new result }
{
    let NewRequest { received, key } = request;
    let key = Shared::new(alloc, key)?;
    let message = keep(alloc, received)?;
    let keyed = KeyedRequest {
        arrival: received.arrival,
        key,
        request: message,
    };
    take_answered(alloc, server, proxy, keyed, status, extras)
}

/// A new CANCEL cancels the request that it names, if there is one (RFC 3261 9.2). `AllocError` is the only refusal; nothing
/// is changed then.
pub(crate) fn cancel<T: Timers>(
    alloc: Global,
    configured: &Configured<'_>,
    proxy: &mut Proxy<T>,
    request: NewRequest<'_>,
) -> Result<StepOut, AllocError>
    requires new { IsNew proxy.old.state request.received.now.arrival request.key }
    requires space { Definition.is_full proxy.old.state ≡ false }
    ensures does { IfOk result (λ out. Takes configured.now.server.now proxy.old.state request.entry.received.now.arrival request.entry.received.now.message.now
        (Definition.Cancel (Definition.found_for_cancel proxy.old.state request.entry.key request.entry.received.now.arrival.from)) out
        proxy.new.state) }
    ensures whole { IsWhole proxy.old proxy.new result }
{
    let NewRequest { received, key } = request;
    let key = Shared::new(alloc, key)?;
    let message = keep(alloc, received)?;
    let keyed = KeyedRequest {
        arrival: received.arrival,
        key,
        request: message,
    };
    take_cancel(alloc, configured, proxy, keyed)
}
