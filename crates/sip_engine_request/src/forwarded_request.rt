ghost use Rattle.std.specs.Prelude.{◌≡◌, List, false, position, None, IfOk, OnOk};
ghost use Rattle.sip_timers.specs.declared.timer.Timer.{Timer};
ghost use Rattle.sip_proxy.specs.fork.Firing.{KeepsOrder};
ghost use Rattle.sip_proxy.specs.Proxy.{Becomes, IsComing};
ghost use Rattle.sip_proxy.specs.forwarding.Forwarding.{IsOpenable};
ghost use Rattle.sip_dialog_updates.specs.DialogUpdates.{beginnings};
ghost use Rattle.sip_proxy.specs.steps_model.Effect.{asked, counted};
ghost use Rattle.sip_uas.specs.forwarding.Arrivals.{arrival_of};
ghost use Rattle.sip_dialog_updates.specs.state.State.{has_key, with_one_more};
ghost use Rattle.sip_proxy.specs.verdict.verdict_model.Verdict.{is_full};
ghost use Rattle.sip_engine_request.specs.Steps.{IsWhole};

use sip_dialog_updates::DialogUpdates;
use sip_event::Packet;
use sip_proxy::Proxy;
use sip_proxy::fork::NewRow;
use sip_proxy::forwarding::Forwarded;
use sip_proxy::verdict::Judged;
use sip_text::Items;
use sip_timers::Timers;
use sip_uas::forwarding::Arrival;
use std::alloc::{AllocError, Global};

/// A request that a datagram brought, and that is sent on, is opened, the dialogs learn of it, and the datagram takes its
/// number. Gives what is sent. Refused with `AllocError` where there is no memory; nothing is changed then.
pub(crate) fn take_request<T: Timers>(
    alloc: Global,
    proxy: &mut Proxy<T>,
    arrival: Arrival,
    forwarded: Forwarded,
) -> Result<Items<Packet>, AllocError>
    requires coming { IsComing proxy.old.state arrival }
    requires space { is_full proxy.old.state ≡ false }
    requires alone { position (has_key forwarded.request.key) proxy.old.state.requests ≡ None }
    requires opens { IsOpenable (arrival_of arrival) forwarded.request.key forwarded.request }
    requires none_begins { beginnings forwarded.updates ≡ 0 }
    ensures becomes { OnOk result (Becomes arrival.now (with_one_more forwarded.request proxy.old.state.requests)
        forwarded.updates (counted (arrival_of arrival) proxy.old.state) proxy.new.state) }
    ensures packets { IfOk result (λ packets. packets ≡ forwarded.packets) }
    ensures whole { IsWhole proxy.old proxy.new result }
{
    let Forwarded {
        packets,
        request,
        updates,
    } = forwarded;
    let opening = NewRow::of(alloc, request)?;
    proxy.open(arrival.now, opening, updates)?;
    proxy.count();
    Ok(packets)
}

/// The dialogs learn of what a datagram brought, and the datagram takes its number. Refused with `AllocError` where there
/// is no memory; nothing is changed then.
pub(crate) fn take_updates<T: Timers>(
    proxy: &mut Proxy<T>,
    arrival: Arrival,
    updates: DialogUpdates,
) -> Result<(), AllocError>
    requires coming { IsComing proxy.old.state arrival }
    requires none_begins { beginnings updates ≡ 0 }
    ensures becomes { OnOk result (Becomes arrival.now proxy.old.state.requests updates
        (counted (arrival_of arrival) proxy.old.state) proxy.new.state) }
    ensures whole { IsWhole proxy.old proxy.new result }
{
    proxy.learn(arrival.now, updates)?;
    proxy.count();
    Ok(())
}

/// A right credential is used up, whatever policy decided (RFC 2617 3.2.2: nonce-count). Takes no memory.
pub(crate) fn take_credential<T: Timers>(
    proxy: &mut Proxy<T>,
    arrival: Arrival,
    judged: &Judged<'_>,
)
    ensures state { proxy.new.state ≡ asked (arrival_of arrival) judged.now.question proxy.old.state }
    ensures timers { proxy.new.timers ≡ proxy.old.timers }
    ensures queue { (old : List Timer) → KeepsOrder old proxy.old.timers proxy.old.state.requests → KeepsOrder old proxy.new.timers proxy.new.state.requests }
    ensures secrets { proxy.new.secrets ≡ proxy.old.secrets }
{
    proxy.spend(&judged.question.proof, arrival.now);
}
