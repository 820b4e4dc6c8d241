ghost use Rattle.std.specs.Prelude.{◌≡◌, ◌≤◌, ◌<◌, length, slice_get, Some, IfOk, OnOk, OnErr};
ghost use Rattle.sip_proxy.specs.fork.Firing.{KeepsOrder};
ghost use Rattle.sip_proxy.specs.Proxy.{IsComing};
ghost use Rattle.sip_proxy.specs.fork.Keeping.{IsKeptAs};
ghost use Rattle.sip_dialog_updates.specs.DialogUpdates.{after_updates, beginnings};
ghost use Rattle.sip_proxy.specs.steps_model.Effect.{replaced};
ghost use Rattle.sip_dialog_updates.specs.state.declared.open_request.OpenRequest.{OpenRequest};
ghost use Rattle.sip_engine_request.specs.OpenSteps.{Leaves};

use sip_event::{Packet, StepOut};
use sip_proxy::forwarding::Arrival;
use sip_proxy::{EventDraft, Proxy};
use sip_text::Items;
use sip_timers::Timers;
use std::alloc::{AllocError, Global};

/// A datagram takes its number, and these packets are sent; no open request changes. Takes no memory.
pub(crate) fn pass<T: Timers>(
    alloc: Global,
    proxy: &mut Proxy<T>,
    arrival: Arrival,
    packets: Items<Packet>,
) -> StepOut
    requires { IsComing proxy.old.state arrival }
    ensures leaves { Leaves arrival packets proxy.old.state.requests proxy.old.state.dialogs proxy.old.state result proxy.new.state }
    ensures timers { proxy.new.timers ≡ proxy.old.timers }
    ensures queue { KeepsOrder proxy.old.timers proxy.new.timers proxy.new.state.requests }
    ensures secrets { proxy.new.secrets ≡ proxy.old.secrets }
{
    proxy.wait(arrival.now);
    let _number = proxy.count();
    StepOut {
        at: arrival.now,
        packets,
        records: Items::new(alloc),
    }
}

/// The open request at a place becomes what was drafted, a datagram takes its number, and the draft's packets are sent.
/// `AllocError` is the only refusal; nothing is changed then.
pub(crate) fn change<T: Timers>(
    alloc: Global,
    proxy: &mut Proxy<T>,
    arrival: Arrival,
    place: usize,
    draft: EventDraft,
) -> Result<StepOut, AllocError>
    requires coming { IsComing proxy.old.state arrival }
    requires place { place < length proxy.old.state.requests }
    requires kept { (r : OpenRequest) → slice_get proxy.old.state.requests place ≡ Some r → IsKeptAs arrival.now r draft.change }
    requires few { beginnings draft.drafted.updates ≤ 1 }
    ensures leaves { IfOk result (λ out. Leaves arrival draft.drafted.packets (replaced draft.change proxy.old.state.requests)
        (after_updates arrival.now draft.drafted.updates proxy.old.state.dialogs) proxy.old.state out proxy.new.state) }
    ensures unchanged { OnErr result (proxy.new.state ≡ proxy.old.state) }
    ensures timers { OnErr result (proxy.new.timers ≡ proxy.old.timers) }
    ensures queue { OnOk result (KeepsOrder proxy.old.timers proxy.new.timers proxy.new.state.requests) }
    ensures secrets { proxy.new.secrets ≡ proxy.old.secrets }
{
    let packets = proxy.change(arrival.now, place, draft)?;
    let _number = proxy.count();
    Ok(StepOut {
        at: arrival.now,
        packets,
        records: Items::new(alloc),
    })
}
