ghost use Rattle.std.specs.Prelude.{◌≡◌, position, None, Some, IfOk, OnOk, OnErr};
ghost use Rattle.sip_engine_request.specs.fork.Firing.{KeepsOrder};
ghost use Rattle.sip_engine_request.specs.proxy.Proxy.{IsComing};
ghost use Rattle.sip_verdict.specs.Verdict.{IsRequestOf};
ghost use Rattle.sip_transaction_table.specs.Key.{key_of};
ghost use Rattle.sip_engine_request.specs.forwarding.Arrivals.{arrival_of};
ghost use Rattle.sip_verdict.specs.state.State.{has_key};
ghost use Rattle.sip_verdict.specs.verdict_model.Verdict as Definition;
ghost use Rattle.sip_engine_request.specs.Steps.{Takes};

use crate::delivery_laws::new_requests_need_room;
use crate::dispatch::serve;
use crate::new_request::NewRequest;
use sip_engine_request::proxy::{Configured, Proxy, ReceivedRequest};
use sip_engine_request::uas::laws::new_verdict_answers_finally;
use sip_event::StepOut;
use sip_policy::Rules;
use sip_timers::Timers;
use sip_transaction_table::TransactionKey;
use sip_verdict::Judge;
use std::alloc::{AllocError, Global};

/// The step of a request with a key that no open one is found for: it is judged, and served so (RFC 3261 9.2, 10.3, 16.3 to
/// 16.6). `AllocError` is the only refusal; nothing is changed then.
pub(crate) fn take_new<T: Timers, R: Rules>(
    alloc: Global,
    judge: &Judge<R>,
    proxy: &mut Proxy<T>,
    key: TransactionKey,
    received: &ReceivedRequest<'_>,
) -> Result<StepOut, AllocError>
    requires coming { IsComing proxy.old.state received.now.arrival }
    requires request { IsRequestOf received.now.method.now received.now.message.now.start }
    requires key { key_of received.now.message.now ≡ Some key }
    requires alone { position (has_key key) proxy.old.state.requests ≡ None }
    ensures does { IfOk result (λ out. Takes judge.now proxy.old.state received.now.arrival received.now.message.now
        (Definition.new_verdict judge.now proxy.old.state (arrival_of received.now.arrival) received.now.message.now received.now.short
        received.now.method.now key) out proxy.new.state) }
    ensures unchanged { OnErr result (proxy.new.state ≡ proxy.old.state) }
    ensures timers { OnErr result (proxy.new.timers ≡ proxy.old.timers) }
    ensures queue { OnOk result (KeepsOrder proxy.old.timers proxy.new.timers proxy.new.state.requests) }
    ensures secrets { proxy.new.secrets ≡ proxy.old.secrets }
{
    new_requests_need_room();
    new_verdict_answers_finally();
    let mut names = None;
    // Matched, not `?`: what was decided is large, and isn't moved so.
    match proxy.verdict(alloc, judge, received, &mut names) {
        Ok(decided) => {
            let server = judge.server();
            let hops = judge.hops();
            let configured = Configured { server, hops };
            let request = NewRequest { received, key };
            serve(alloc, &configured, proxy, request, &mut names, decided)
        }
        Err(_) => Err(AllocError),
    }
}
