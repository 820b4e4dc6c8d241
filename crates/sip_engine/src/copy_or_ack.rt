//! Requests with the key of an open one (RFC 3261 17.2.3): copies, and ACKs of its final answer.
//! The ACK of a 2xx is a transaction of its own (13.2.2.4), and goes on or is dropped.
ghost use Rattle.std.specs.Prelude.{◌≡◌, ◌<◌, ◌&&◌, codes, length, slice_get, Some, IfOk};
ghost use Rattle.std.specs.Str.{bytes_eq};
ghost use Rattle.sip_engine_request.specs.proxy.Proxy.{IsComing};
ghost use Rattle.sip_verdict.specs.Verdict.{IsRequestOf};
ghost use Rattle.sip_transaction_table.specs.declared.key.TransactionKey.{TransactionKey};
ghost use Rattle.sip_engine_request.specs.forwarding.Arrivals.{arrival_of};
ghost use Rattle.sip_verdict.specs.state.declared.open_request.OpenRequest.{OpenRequest};
ghost use Rattle.sip_verdict.specs.verdict_model.Verdict as Definition;
ghost use Rattle.sip_verdict.specs.context_model.Branches as Branches;
ghost use Rattle.sip_engine_request.specs.Steps.{IsWhole, Takes};
ghost use Rattle.sip_engine.specs.Delivery as Delivery;

use crate::delivery_laws::acks_are_dropped_or_go_on;
use sip_dialog::DialogId;
use sip_engine_request::context::is_accepted;
use sip_engine_request::proxy::{Configured, Proxy, ReceivedRequest};
use sip_engine_request::{send_ack, take_copy, take_dropped};
use sip_event::StepOut;
use sip_policy::Rules;
use sip_timers::Timers;
use sip_uri::Addr;
use sip_verdict::state::OpenRequest;
use sip_verdict::{Judge, Verdict};
use std::alloc::{AllocError, Global};

/// Whether a request of a method with the key of an open one is an ACK of its 2xx, which is an own transaction (RFC 3261
/// 13.2.2.4, 17.2.3).
fn acknowledges_success(method: &[u8], request: &OpenRequest) -> bool
    ensures { result ≡ (bytes_eq method.now (codes "ACK") && Branches.is_accepted request.now) }
{
    method == b"ACK".as_slice() && is_accepted(request)
}

/// Where an ACK goes on, if it does: the address and its dialog.
fn way_on(decided: Verdict<'_>) -> Option<(Addr, DialogId)>
    ensures { result ≡ Delivery.way_on decided.entry }
{
    match decided {
        Verdict::AckOn(address, id) => Some((address, id)),
        Verdict::Dropped
        | Verdict::Cancel
        | Verdict::Answer(_, _)
        | Verdict::InDialog(_, _)
        | Verdict::Judged(_) => None,
    }
}

/// The step of an ACK that no server transaction takes: it goes on in its dialog, or is dropped (RFC 3261 13.2.2.4, 16.11).
/// `AllocError` is the only refusal; nothing is changed then.
fn take_ack<T: Timers, R: Rules>(
    alloc: Global,
    judge: &Judge<R>,
    proxy: &mut Proxy<T>,
    ack: &ReceivedRequest<'_>,
) -> Result<StepOut, AllocError>
    requires coming { IsComing proxy.old.state ack.now.arrival }
    requires request { IsRequestOf ack.now.method.now ack.now.message.now.start }
    ensures does { IfOk result (λ out. Takes judge.now proxy.old.state ack.now.arrival ack.now.message.now
        (Definition.ack_verdict judge.now proxy.old.state ack.now.arrival.now ack.now.message.now ack.now.short) out proxy.new.state) }
    ensures whole { IsWhole proxy.old proxy.new result }
{
    acks_are_dropped_or_go_on();
    let decided = proxy.ack_verdict(alloc, judge, ack)?;
    match way_on(decided) {
        Some((address, id)) => {
            let server = judge.server();
            let hops = judge.hops();
            let configured = Configured { server, hops };
            send_ack(alloc, &configured, proxy, ack, address, id)
        }
        None => Ok(take_dropped(alloc, proxy, ack.arrival)),
    }
}

/// The step of a request with the key of the open one at a place: an ACK of a 2xx is an own transaction; any other belongs
/// to the open request (RFC 3261 13.2.2.4, 17.2). `AllocError` is the only refusal; nothing is changed then.
pub(crate) fn take_known<T: Timers, R: Rules>(
    alloc: Global,
    judge: &Judge<R>,
    proxy: &mut Proxy<T>,
    place: usize,
    request: &ReceivedRequest<'_>,
) -> Result<StepOut, AllocError>
    requires coming { IsComing proxy.old.state request.now.arrival }
    requires place { place < length proxy.old.state.requests }
    requires request { IsRequestOf request.now.method.now request.now.message.now.start }
    ensures does { IfOk result (λ out. (key : TransactionKey) (r : OpenRequest)
        → slice_get proxy.old.state.requests place ≡ Some r
        → Takes judge.now proxy.old.state request.now.arrival request.now.message.now
        (Definition.by_open judge.now proxy.old.state (arrival_of request.now.arrival) request.now.message.now request.now.short
        request.now.method.now key (Some r)) out proxy.new.state) }
    ensures whole { IsWhole proxy.old proxy.new result }
{
    if acknowledges_success(request.method, proxy.get(place)) {
        return take_ack(alloc, judge, proxy, request);
    }
    let server = judge.server();
    let hops = judge.hops();
    let configured = Configured { server, hops };
    take_copy(alloc, &configured, proxy, place, request)
}
