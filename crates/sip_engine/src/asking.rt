//! New requests about which policy was asked, carried out: answered here, or sent to their targets (RFC 3261 10.3, 16.5, 22).
//! What policy wasn't asked about is carried out in `dispatch`.
ghost use Rattle.std.specs.Prelude.{◌≡◌, true, false, IfOk};
ghost use Rattle.sip_engine_request.specs.Admitting.{IsAnswered};
ghost use Rattle.sip_verdict.specs.Verdict.{HasRoomFor, Is};
ghost use Rattle.sip_verdict.specs.declared.verdict.Verdict.TheVariants as Arrived;
ghost use Rattle.sip_verdict.specs.state.Names.{AreNames};
ghost use Rattle.sip_verdict.specs.verdict_model.Verdict as Definition;
ghost use Rattle.sip_engine_request.specs.uas.Asking as Asking;
ghost use Rattle.sip_engine_request.specs.Steps.{IsNew, IsWhole, Takes};
ghost use Rattle.sip_engine.specs.Delivery.{IsServed};

use crate::going::go_to;
use crate::keeping::keep;
use crate::new_request::NewRequest;
use sip_base::Shared;
use sip_engine_request::proxy::{Configured, Proxy};
use sip_engine_request::uas::is_answered_here;
use sip_engine_request::{KeyedRequest, RoutedRequest, take_judged};
use sip_event::StepOut;
use sip_timers::Timers;
use sip_transaction_table::Boxed;
use sip_verdict::state::{DialogNames, Server};
use sip_verdict::{Judged, PolicyOutcome};
use std::alloc::{AllocError, Global};

/// A new request about which policy decided is answered here: challenged, denied, registered, or sent to nobody. `AllocError`
/// is the only refusal; nothing is changed then.
fn answer_judged<T: Timers>(
    alloc: Global,
    server: &Server,
    proxy: &mut Proxy<T>,
    request: NewRequest<'_>,
    judged: Boxed<Judged<'_>>,
) -> Result<StepOut, AllocError>
    requires new { IsNew proxy.old.state request.received.now.arrival request.key }
    requires here { Asking.is_answered_here judged.outcome ≡ true }
    requires room { HasRoomFor proxy.old.room judged.outcome }
    requires answers { IsAnswered server.now proxy.old.state.bindings request.received.now.arrival.now judged }
    ensures does { IfOk result (λ out. (verdict : Definition.Verdict)
        → Is server.now proxy.old.state.bindings request.entry.received.now.arrival.now
        (Definition.found_for_cancel proxy.old.state request.entry.key request.entry.received.now.arrival.from) verdict (Arrived.Judged judged.entry)
        → Takes server.now proxy.old.state request.entry.received.now.arrival request.entry.received.now.message.now verdict out proxy.new.state) }
    ensures whole { IsWhole proxy.old proxy.new result }
{
    let NewRequest { received, key } = request;
    let key = Shared::new(alloc, key)?;
    let message = keep(alloc, received)?;
    let keyed = KeyedRequest {
        arrival: received.arrival,
        key,
        request: message,
    };
    take_judged(alloc, server, proxy, keyed, judged.into_value())
}

/// A new request about which policy decided, and that isn't answered here, goes to its targets (RFC 3261 16.5). `AllocError`
/// is the only refusal; nothing is changed then.
fn send_judged<T: Timers>(
    alloc: Global,
    configured: &Configured<'_>,
    proxy: &mut Proxy<T>,
    request: NewRequest<'_>,
    names: &mut Option<DialogNames>,
    judged: &Judged<'_>,
) -> Result<StepOut, AllocError>
    requires new { IsNew proxy.old.state request.received.now.arrival request.key }
    requires names { AreNames request.received.now.message.now names.old }
    requires there { Asking.is_answered_here judged.now.outcome ≡ false }
    requires served { IsServed configured.now.server.now proxy.old.state request.received.now.arrival request.key (Arrived.Judged judged.now) }
    ensures does { IfOk result (λ out. (verdict : Definition.Verdict)
        → Is configured.now.server.now proxy.old.state.bindings request.entry.received.now.arrival.now
        (Definition.found_for_cancel proxy.old.state request.entry.key request.entry.received.now.arrival.from) verdict (Arrived.Judged judged.now)
        → Takes configured.now.server.now proxy.old.state request.entry.received.now.arrival request.entry.received.now.message.now verdict out proxy.new.state) }
    ensures whole { IsWhole proxy.old proxy.new result }
{
    let PolicyOutcome::Send(rule, targets) = &judged.outcome else {
        unreachable!()
    };
    let rule = *rule;
    let sending = RoutedRequest {
        judged,
        rule,
        targets,
    };
    go_to(alloc, configured, proxy, request, names, &sending)
}

/// The step of a new request about which policy decided: it is answered here, or goes to its targets (RFC 3261 10.3, 16.5,
/// 22). `AllocError` is the only refusal; nothing is changed then.
pub(crate) fn take_asked<T: Timers>(
    alloc: Global,
    configured: &Configured<'_>,
    proxy: &mut Proxy<T>,
    request: NewRequest<'_>,
    names: &mut Option<DialogNames>,
    judged: Boxed<Judged<'_>>,
) -> Result<StepOut, AllocError>
    requires new { IsNew proxy.old.state request.received.now.arrival request.key }
    requires names { AreNames request.received.now.message.now names.old }
    requires room { HasRoomFor proxy.old.room judged.outcome }
    requires served { IsServed configured.now.server.now proxy.old.state request.received.now.arrival request.key (Arrived.Judged judged) }
    ensures does { IfOk result (λ out. (verdict : Definition.Verdict)
        → Is configured.now.server.now proxy.old.state.bindings request.entry.received.now.arrival.now
        (Definition.found_for_cancel proxy.old.state request.entry.key request.entry.received.now.arrival.from) verdict (Arrived.Judged judged.entry)
        → Takes configured.now.server.now proxy.old.state request.entry.received.now.arrival request.entry.received.now.message.now verdict out proxy.new.state) }
    ensures whole { IsWhole proxy.old proxy.new result }
{
    if is_answered_here(&judged.get().outcome) {
        return answer_judged(alloc, configured.server, proxy, request, judged);
    }
    send_judged(alloc, configured, proxy, request, names, judged.get())
}
