//! From the bytes of a datagram to the module that takes its step: a response, a request with the key of an open one, or a new one
//! (RFC 3261 17.1.3, 17.2.3). Moment and number were looked at in `stepping`.
ghost use Rattle.std.specs.Prelude.{◌≡◌, IfOk, OnOk, OnErr};
ghost use Rattle.sip_engine_request.specs.fork.Firing.{KeepsOrder};
ghost use Rattle.sip_verdict.specs.Incoming.{IsRequest};
ghost use Rattle.sip_engine_request.specs.proxy.Proxy.{IsComing};
ghost use Rattle.sip_model.specs.steps_model.Effect.{datagram_effect};
ghost use Rattle.sip_model.specs.steps_model.Step.{Does};
ghost use Rattle.sip_engine_request.specs.forwarding.Arrivals.{arrival_of};
ghost use Rattle.sip_verdict.specs.verdict_model.Verdict as Definition;
ghost use Rattle.sip_engine_request.specs.Steps.{IsWhole, Takes};

use crate::copy_or_ack::take_known;
use crate::new_step::take_new;
use crate::responses::take_reply;
use sip_engine_request::forwarding::Arrival;
use sip_engine_request::proxy::{Configured, Proxy, ReceivedRequest, ReceivedResponse};
use sip_engine_request::take_dropped;
use sip_event::StepOut;
use sip_header::Via;
use sip_message_form::View;
use sip_policy::Rules;
use sip_timers::Timers;
use sip_transaction_table::TransactionKey;
use sip_verdict::{Incoming, Judge, laws, read_datagram};
use std::alloc::{AllocError, Global};

/// The step of a request with a key: it belongs to the open one with that key, or is new (RFC 3261 17.2.3). `AllocError` is
/// the only refusal; nothing is changed then.
fn take_request<T: Timers, R: Rules>(
    alloc: Global,
    judge: &Judge<R>,
    proxy: &mut Proxy<T>,
    key: TransactionKey,
    request: &ReceivedRequest<'_>,
) -> Result<StepOut, AllocError>
    requires coming { IsComing proxy.old.state request.now.arrival }
    requires request { IsRequest request.now.message.now request.now.short request.now.method.now request.now.via key }
    ensures does { IfOk result (λ out. Takes judge.now proxy.old.state request.now.arrival request.now.message.now
        (Definition.message_verdict judge.now proxy.old.state (arrival_of request.now.arrival) request.now.message.now
        request.now.short) out proxy.new.state) }
    ensures whole { IsWhole proxy.old proxy.new result }
{
    laws::requests();
    match proxy.find(&key) {
        Some(place) => take_known(alloc, judge, proxy, place, request),
        None => take_new(alloc, judge, proxy, key, request),
    }
}

/// The step of a request, of what was read of it: its method, the Via on top and its key. `AllocError` is the only refusal;
/// nothing is changed then.
fn take_read<T: Timers, R: Rules>(
    alloc: Global,
    judge: &Judge<R>,
    proxy: &mut Proxy<T>,
    arrival: Arrival,
    message: &View<'_>,
    short: bool,
    method: &[u8],
    via: Via<'_>,
    key: TransactionKey,
) -> Result<StepOut, AllocError>
    requires coming { IsComing proxy.old.state arrival }
    requires request { IsRequest message.now short method.now via key }
    ensures does { IfOk result (λ out. Takes judge.now proxy.old.state arrival message.now
        (Definition.message_verdict judge.now proxy.old.state (arrival_of arrival) message.now short) out proxy.new.state) }
    ensures whole { IsWhole proxy.old proxy.new result }
{
    let request = ReceivedRequest {
        arrival,
        method,
        message,
        via,
        short,
    };
    take_request(alloc, judge, proxy, key, &request)
}

/// The step of a message, of whose body fewer bytes may have come than its length says. `AllocError` is the only refusal;
/// nothing is changed then.
fn take_message<T: Timers, R: Rules>(
    alloc: Global,
    judge: &Judge<R>,
    proxy: &mut Proxy<T>,
    arrival: Arrival,
    message: &View<'_>,
    short: bool,
) -> Result<StepOut, AllocError>
    requires coming { IsComing proxy.old.state arrival }
    ensures does { IfOk result (λ out. Takes judge.now proxy.old.state arrival message.now
        (Definition.message_verdict judge.now proxy.old.state (arrival_of arrival) message.now short) out proxy.new.state) }
    ensures whole { IsWhole proxy.old proxy.new result }
{
    let incoming = judge.incoming(alloc, message, short)?;
    match incoming {
        Incoming::Dropped => Ok(take_dropped(alloc, proxy, arrival)),
        Incoming::Response {
            status,
            branch,
            method,
            has_more_vias,
        } => {
            let server = judge.server();
            let hops = judge.hops();
            let configured = Configured { server, hops };
            let response = ReceivedResponse {
                arrival,
                message,
                status,
                branch,
                method,
                has_more_vias,
                short,
            };
            take_reply(alloc, &configured, proxy, &response)
        }
        Incoming::Request { method, via, key } => take_read(
            alloc, judge, proxy, arrival, message, short, method, via, key,
        ),
    }
}

/// The step of the bytes of a datagram that comes (RFC 3261 16, 17, 18): exactly what the model says that it does. Bytes that say
/// no message are dropped. `AllocError` is the only refusal; nothing is changed then.
pub fn take_datagram<T: Timers, R: Rules>(
    alloc: Global,
    judge: &Judge<R>,
    proxy: &mut Proxy<T>,
    arrival: Arrival,
    bytes: &[u8],
) -> Result<StepOut, AllocError>
    requires coming { IsComing proxy.old.state arrival }
    ensures does { IfOk result (λ out. Does judge.now proxy.old.state arrival.now
        (datagram_effect judge.now proxy.old.state (arrival_of arrival) bytes.now) out proxy.new.state) }
    ensures unchanged { OnErr result (proxy.new.state ≡ proxy.old.state) }
    ensures timers { OnErr result (proxy.new.timers ≡ proxy.old.timers) }
    ensures queue { OnOk result (KeepsOrder proxy.old.timers proxy.new.timers proxy.new.state.requests) }
    ensures secrets { proxy.new.secrets ≡ proxy.old.secrets }
{
    laws::datagrams();
    let said = read_datagram(alloc, bytes)?;
    match said {
        Some((message, short)) => take_message(alloc, judge, proxy, arrival, &message, short),
        None => Ok(take_dropped(alloc, proxy, arrival)),
    }
}
