//! What comes with the key of an open request: a copy gets the last answer again, an ACK ends its copies (RFC 3261 17.2).
//! The ACK of a 2xx is none of these: `sip_engine` takes it.
ghost use Rattle.std.specs.Prelude.{◌≡◌, ◌≤◌, ◌<◌, ◌^◌, [], true, false, codes, length, slice_get, Some, IfOk, OnOk, OnErr};
ghost use Rattle.std.specs.Str.{bytes_eq};
ghost use Rattle.sip_proxy.specs.fork.Firing.{KeepsOrder};
ghost use Rattle.sip_proxy.specs.Proxy.{IsComing};
ghost use Rattle.sip_proxy.specs.verdict.Verdict.{IsRequestOf};
ghost use Rattle.sip_proxy.specs.verdict.context_model.Branches.{acknowledged};
ghost use Rattle.sip_proxy.specs.fork.Keeping.{IsKeptAs};
ghost use Rattle.sip_message_form.specs.declared.message.Message.{Message};
ghost use Rattle.sip_proxy.specs.steps_model.Effect.{counted, effect_of, method_of};
ghost use Rattle.sip_proxy.specs.steps_model.Step.{Does};
ghost use Rattle.sip_proxy.specs.forwarding.Arrivals.{arrival_of};
ghost use Rattle.sip_dialog_updates.specs.state.declared.open_request.OpenRequest.{OpenRequest};
ghost use Rattle.sip_dialog_updates.specs.state.declared.server.Server.{Server};
ghost use Rattle.sip_proxy.specs.verdict.verdict_model.Verdict.{Copy};

use crate::counting::{change, pass};
use sip_dialog_updates::DialogUpdates;
use sip_event::StepOut;
use sip_proxy::context::Input;
use sip_proxy::forwarding::{Arrival, Drafted, copy_packets};
use sip_proxy::verdict::is_ack;
use sip_proxy::{Configured, EventDraft, Proxy, ReceivedRequest};
use sip_text::Items;
use sip_timers::Timers;
use std::alloc::{AllocError, Global};

/// Drafts what an ACK makes of the open request at a place: nothing is sent, and the dialogs learn nothing. `AllocError`
/// is the only refusal.
fn draft_ack<T: Timers>(
    alloc: Global,
    configured: &Configured<'_>,
    proxy: &Proxy<T>,
    now: u64,
    place: usize,
) -> Result<EventDraft, AllocError>
    requires place { place < length proxy.now.state.requests }
    requires later { proxy.now.state.moment ≤ now }
    requires small { now < 2 ^ 62 }
    ensures request { IfOk result (λ draft. (r : OpenRequest) → slice_get proxy.now.state.requests place ≡ Some r → draft.change
        ≡ acknowledged now r) }
    ensures kept { IfOk result (λ draft. (r : OpenRequest) → slice_get proxy.now.state.requests place ≡ Some r → IsKeptAs now r draft.change) }
    ensures sends { IfOk result (λ draft. draft.drafted.packets ≡ []) }
    ensures tells { IfOk result (λ draft. draft.drafted.updates ≡ []) }
{
    let draft = proxy.draft_input(alloc, configured, now, place, Input::Ack)?;
    let EventDraft {
        change,
        drafted: _drafted,
    } = draft;
    let drafted = Drafted {
        packets: Items::new(alloc),
        updates: DialogUpdates::new(alloc),
    };
    Ok(EventDraft { change, drafted })
}

/// An ACK acknowledges the final answer of the open request at a place, and nothing is sent. `AllocError` is the only
/// refusal; nothing is changed then.
fn acknowledge<T: Timers>(
    alloc: Global,
    configured: &Configured<'_>,
    proxy: &mut Proxy<T>,
    arrival: Arrival,
    place: usize,
) -> Result<StepOut, AllocError>
    requires coming { IsComing proxy.old.state arrival }
    requires place { place < length proxy.old.state.requests }
    ensures does { IfOk result (λ out. (server : Server) (m : Message) (r : OpenRequest) → bytes_eq (method_of m.start) (codes "ACK") ≡ true
        → slice_get proxy.old.state.requests place ≡ Some r
        → Does server proxy.old.state arrival.now (effect_of server (arrival_of arrival) m (Copy r)
        (counted (arrival_of arrival) proxy.old.state)) out proxy.new.state) }
    ensures unchanged { OnErr result (proxy.new.state ≡ proxy.old.state) }
    ensures timers { OnErr result (proxy.new.timers ≡ proxy.old.timers) }
    ensures queue { OnOk result (KeepsOrder proxy.old.timers proxy.new.timers proxy.new.state.requests) }
    ensures secrets { proxy.new.secrets ≡ proxy.old.secrets }
{
    let draft = draft_ack(alloc, configured, proxy, arrival.now, place)?;
    change(alloc, proxy, arrival, place, draft)
}

/// The last answer of the open request at a place goes again, and the request stays as it is. `AllocError` is the only
/// refusal; nothing is changed then.
fn answer_again<T: Timers>(
    alloc: Global,
    proxy: &mut Proxy<T>,
    arrival: Arrival,
    place: usize,
) -> Result<StepOut, AllocError>
    requires coming { IsComing proxy.old.state arrival }
    requires place { place < length proxy.old.state.requests }
    ensures does { IfOk result (λ out. (server : Server) (m : Message) (r : OpenRequest) → bytes_eq (method_of m.start) (codes "ACK")
        ≡ false → slice_get proxy.old.state.requests place ≡ Some r
        → Does server proxy.old.state arrival.now (effect_of server (arrival_of arrival) m (Copy r)
        (counted (arrival_of arrival) proxy.old.state)) out proxy.new.state) }
    ensures unchanged { OnErr result (proxy.new.state ≡ proxy.old.state) }
    ensures timers { proxy.new.timers ≡ proxy.old.timers }
    ensures queue { OnOk result (KeepsOrder proxy.old.timers proxy.new.timers proxy.new.state.requests) }
    ensures secrets { proxy.new.secrets ≡ proxy.old.secrets }
{
    let mut packets = Items::new(alloc);
    copy_packets(alloc, &mut packets, proxy.get(place))?;
    Ok(pass(alloc, proxy, arrival, packets))
}

/// The step of a request with the key of the open request at a place: an ACK acknowledges its final answer; any
/// other is a copy and gets the last answer again, but no 2xx to an INVITE, and nothing once an ACK came or the transaction
/// ended (RFC 3261 13.3.1.4, 17.2). `AllocError` is the only refusal; nothing is changed then.
pub fn take_copy<T: Timers>(
    alloc: Global,
    configured: &Configured<'_>,
    proxy: &mut Proxy<T>,
    place: usize,
    request: &ReceivedRequest<'_>,
) -> Result<StepOut, AllocError>
    requires coming { IsComing proxy.old.state request.now.arrival }
    requires place { place < length proxy.old.state.requests }
    requires request { IsRequestOf request.now.method.now request.now.message.now.start }
    ensures does { IfOk result (λ out. (r : OpenRequest) → slice_get proxy.old.state.requests place ≡ Some r
        → Does configured.now.server.now proxy.old.state request.now.arrival.now
        (effect_of configured.now.server.now (arrival_of request.now.arrival) request.now.message.now (Copy r)
        (counted (arrival_of request.now.arrival) proxy.old.state)) out proxy.new.state) }
    ensures unchanged { OnErr result (proxy.new.state ≡ proxy.old.state) }
    ensures timers { OnErr result (proxy.new.timers ≡ proxy.old.timers) }
    ensures queue { OnOk result (KeepsOrder proxy.old.timers proxy.new.timers proxy.new.state.requests) }
    ensures secrets { proxy.new.secrets ≡ proxy.old.secrets }
{
    let arrival = request.arrival;
    if is_ack(request.method) {
        return acknowledge(alloc, configured, proxy, arrival, place);
    }
    answer_again(alloc, proxy, arrival, place)
}
