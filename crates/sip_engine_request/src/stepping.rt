ghost use Rattle.std.specs.Prelude.{◌≡◌, ◌≤◌, ◌<◌, [], length, slice_get, Some, IfOk, OnOk, OnErr};
ghost use Rattle.sip_proxy.specs.fork.Firing.{KeepsOrder};
ghost use Rattle.sip_proxy.specs.Proxy.{MayCome};
ghost use Rattle.sip_proxy.specs.fork.Ending.{ended, left_invite};
ghost use Rattle.sip_proxy.specs.Expiring.{expiring};
ghost use Rattle.sip_proxy.specs.fork.Keeping.{IsKeptAs};
ghost use Rattle.sip_dialog_updates.specs.DialogUpdates.{beginnings};
ghost use Rattle.sip_proxy.specs.steps_model.Effect.{replaced};
ghost use Rattle.sip_dialog_updates.specs.state.declared.open_request.OpenRequest.{OpenRequest};
ghost use Rattle.sip_engine_request.specs.TimeSteps.{Leaves};

use sip_event::StepOut;
use sip_proxy::transaction_table::Transaction;
use sip_proxy::{EventDraft, Proxy};
use sip_text::Items;
use sip_timers::Timers;
use std::alloc::{AllocError, Global};

/// A moment in milliseconds comes, and nothing happens. Takes no memory.
pub(crate) fn pass<T: Timers>(alloc: Global, proxy: &mut Proxy<T>, now: u64) -> StepOut
    requires { MayCome proxy.old.state now }
    ensures leaves { Leaves now [] proxy.old.state.requests [] proxy.old.state result proxy.new.state }
    ensures timers { proxy.new.timers ≡ proxy.old.timers }
    ensures queue { KeepsOrder proxy.old.timers proxy.new.timers proxy.new.state.requests }
    ensures secrets { proxy.new.secrets ≡ proxy.old.secrets }
{
    proxy.wait(now);
    StepOut {
        at: now,
        packets: Items::new(alloc),
        records: Items::new(alloc),
    }
}

/// A moment in milliseconds comes, the open request at a place becomes what was drafted, and the draft's packets are sent.
/// `AllocError` is the only refusal; nothing is changed then.
pub(crate) fn change<T: Timers>(
    alloc: Global,
    proxy: &mut Proxy<T>,
    now: u64,
    place: usize,
    draft: EventDraft,
) -> Result<StepOut, AllocError>
    requires moment { MayCome proxy.old.state now }
    requires place { place < length proxy.old.state.requests }
    requires kept { (r : OpenRequest) → slice_get proxy.old.state.requests place ≡ Some r → IsKeptAs now r draft.change }
    requires few { beginnings draft.drafted.updates ≤ 1 }
    ensures leaves { IfOk result (λ out. Leaves now draft.drafted.packets (replaced draft.change proxy.old.state.requests)
        draft.drafted.updates proxy.old.state out proxy.new.state) }
    ensures unchanged { OnErr result (proxy.new.state ≡ proxy.old.state) }
    ensures timers { OnErr result (proxy.new.timers ≡ proxy.old.timers) }
    ensures queue { OnOk result (KeepsOrder proxy.old.timers proxy.new.timers proxy.new.state.requests) }
    ensures secrets { proxy.new.secrets ≡ proxy.old.secrets }
{
    let packets = proxy.change(now, place, draft)?;
    Ok(StepOut {
        at: now,
        packets,
        records: Items::new(alloc),
    })
}

/// A moment in milliseconds comes, a transaction of the open request at a place ends, and nothing is sent. Takes no memory.
pub(crate) fn end<T: Timers>(
    alloc: Global,
    proxy: &mut Proxy<T>,
    now: u64,
    place: usize,
    transaction: Transaction,
) -> StepOut
    requires moment { MayCome proxy.old.state now }
    requires place { place < length proxy.old.state.requests }
    requires kept { (r : OpenRequest) → slice_get proxy.old.state.requests place ≡ Some r → IsKeptAs now r (ended transaction r) }
    ensures leaves { (r : OpenRequest) → slice_get proxy.old.state.requests place ≡ Some r
        → Leaves now [] (replaced (ended transaction r) proxy.old.state.requests) (expiring (left_invite (ended transaction r))) proxy.old.state result
        proxy.new.state }
    ensures queue { KeepsOrder proxy.old.timers proxy.new.timers proxy.new.state.requests }
    ensures secrets { proxy.new.secrets ≡ proxy.old.secrets }
{
    proxy.end(now, place, transaction);
    StepOut {
        at: now,
        packets: Items::new(alloc),
        records: Items::new(alloc),
    }
}
