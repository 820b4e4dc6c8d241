ghost use Rattle.std.specs.Prelude.{◌≡◌, [], IfOk, IfSome, OnOk};
ghost use Rattle.sip_proxy.specs.Proxy.{Becomes, IsComing};
ghost use Rattle.sip_proxy.specs.steps_model.Effect.{counted};
ghost use Rattle.sip_uas.specs.forwarding.Arrivals.{arrival_of};
ghost use Rattle.sip_dialog_updates.specs.state.State.{with_one_more};
ghost use Rattle.sip_uas.specs.Drafts.{with_opened};
ghost use Rattle.sip_engine_request.specs.Admitting.{IsOpenableIn};
ghost use Rattle.sip_engine_request.specs.Steps.{IsWhole};

use sip_dialog_updates::DialogUpdates;
use sip_event::StepOut;
use sip_proxy::Proxy;
use sip_proxy::fork::NewRow;
use sip_timers::Timers;
use sip_uas::AnswerDraft;
use sip_uas::forwarding::Arrival;
use std::alloc::{AllocError, Global};

/// A request that a datagram brought, and that was answered, is opened; the dialogs learn nothing of it. Refused with
/// `AllocError` where there is no memory; nothing is changed then.
fn open<T: Timers>(
    alloc: Global,
    proxy: &mut Proxy<T>,
    arrival: Arrival,
    request: NewRow,
) -> Result<(), AllocError>
    requires coming { IsComing proxy.old.state arrival }
    requires opens { IsOpenableIn proxy.old.state arrival request }
    ensures becomes { OnOk result (Becomes arrival.now (with_one_more request proxy.old.state.requests) [] proxy.old.state proxy.new.state) }
    ensures whole { IsWhole proxy.old proxy.new result }
    ensures room { proxy.new.room ≡ proxy.old.room }
{
    proxy.open(arrival.now, request, DialogUpdates::new(alloc))
}

/// The moment of a datagram comes, and the request is opened that was drafted, if one was: where 1,024 are open, none is.
/// Refused with `AllocError` where there is no memory; nothing is changed then.
fn open_drafted<T: Timers>(
    alloc: Global,
    proxy: &mut Proxy<T>,
    arrival: Arrival,
    opened: Option<NewRow>,
) -> Result<(), AllocError>
    requires coming { IsComing proxy.old.state arrival }
    requires opens { IfSome opened (IsOpenableIn proxy.old.state arrival) }
    ensures becomes { OnOk result (Becomes arrival.now (with_opened opened proxy.old.state.requests) [] proxy.old.state proxy.new.state) }
    ensures whole { IsWhole proxy.old proxy.new result }
    ensures room { proxy.new.room ≡ proxy.old.room }
{
    match opened {
        Some(request) => open(alloc, proxy, arrival, request),
        None => {
            proxy.wait(arrival.now);
            Ok(())
        }
    }
}

/// What was drafted of a datagram's request is done: the request is opened, if it is to be, and the datagram takes its
/// number. Nonces and bindings stay, and the dialogs learn nothing. Refused with `AllocError` where there is no memory;
/// nothing is changed then.
pub(crate) fn take_draft<T: Timers>(
    alloc: Global,
    proxy: &mut Proxy<T>,
    arrival: Arrival,
    draft: AnswerDraft,
) -> Result<StepOut, AllocError>
    requires coming { IsComing proxy.old.state arrival }
    requires opens { IfSome draft.opened (IsOpenableIn proxy.old.state arrival) }
    ensures becomes { OnOk result (Becomes arrival.now (with_opened draft.opened proxy.old.state.requests) []
        (counted (arrival_of arrival) proxy.old.state) proxy.new.state) }
    ensures out { IfOk result (λ out. out ≡ record { at = arrival.now; packets = draft.packets; records = draft.records }) }
    ensures whole { IsWhole proxy.old proxy.new result }
    ensures room { proxy.new.room ≡ proxy.old.room }
{
    let AnswerDraft {
        packets,
        records,
        opened,
        updates: _none,
    } = draft;
    open_drafted(alloc, proxy, arrival, opened)?;
    let _number = proxy.count();
    Ok(StepOut {
        at: arrival.now,
        packets,
        records,
    })
}
