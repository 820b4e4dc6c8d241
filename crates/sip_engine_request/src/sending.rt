ghost use Rattle.std.specs.Prelude.{◌≡◌, false, IfOk};
ghost use Rattle.sip_proxy.specs.verdict.verdict_model.Verdict as Definition;
ghost use Rattle.sip_engine_request.specs.Steps.{IsNew, IsWhole, Takes};

use crate::RoutedRequest;
use crate::forwarded_request::{take_credential, take_request};
use crate::records::sending_records;
use sip_event::StepOut;
use sip_proxy::forwarding::forward_to;
use sip_proxy::{Configured, Proxy};
use sip_timers::Timers;
use sip_uas::KeyedRequest;
use std::alloc::{AllocError, Global};

/// A request outside a dialog that a rule let through is sent to its targets, which are somebody, and is open from then on
/// (RFC 3261 16.5, 16.6). It is recorded with the rule and with how many targets it has; a right credential is used up.
/// `AllocError` is the only refusal, which also comes where there are more targets than numbers of 32 bits; nothing is
/// changed then.
pub fn send_to<T: Timers>(
    alloc: Global,
    configured: &Configured<'_>,
    proxy: &mut Proxy<T>,
    request: KeyedRequest,
    sending: &RoutedRequest<'_, '_>,
) -> Result<StepOut, AllocError>
    requires new { IsNew proxy.old.state request.arrival request.key }
    requires space { Definition.is_full proxy.old.state ≡ false }
    requires minute { sending.now.judged.now.minute ≡ Definition.minute_on configured.now.server.now sending.now.judged.now.question }
    ensures does { IfOk result (λ out. Takes configured.now.server.now proxy.old.state request.arrival request.request.message
        (Definition.Send sending.now.judged.now.question sending.now.rule sending.now.targets.now) out proxy.new.state) }
    ensures whole { IsWhole proxy.old proxy.new result }
{
    let server = configured.server;
    let hops = configured.hops;
    let KeyedRequest {
        arrival,
        key,
        request,
    } = request;
    let records = sending_records(alloc, arrival, request.get(), sending)?;
    let forwarded = forward_to(alloc, server, hops, arrival, key, request, sending.targets)?;
    let packets = take_request(alloc, proxy, arrival, forwarded)?;
    take_credential(proxy, arrival, sending.judged);
    Ok(StepOut {
        at: arrival.now,
        packets,
        records,
    })
}
