ghost use Rattle.std.specs.Prelude.{IfOk};
ghost use Rattle.sip_verdict.specs.Verdict.{HasRoom, Is};
ghost use Rattle.sip_verdict.specs.state.Names.{AreNames};
ghost use Rattle.sip_verdict.specs.verdict_model.Verdict as Definition;
ghost use Rattle.sip_engine_request.specs.Steps.{IsNew, IsWhole, Takes};
ghost use Rattle.sip_engine.specs.Delivery.{IsServed};

use crate::answering::{answer, cancel};
use crate::asking::take_asked;
use crate::going::go_within;
use crate::new_request::NewRequest;
use sip_engine_request::proxy::{Configured, Proxy};
use sip_engine_request::{send_ack, take_dropped};
use sip_event::StepOut;
use sip_timers::Timers;
use sip_verdict::Verdict;
use sip_verdict::state::DialogNames;
use std::alloc::{AllocError, Global};

/// The step of a new request, of what was decided about it. `AllocError` is the only refusal; nothing is changed then.
pub(crate) fn serve<T: Timers>(
    alloc: Global,
    configured: &Configured<'_>,
    proxy: &mut Proxy<T>,
    request: NewRequest<'_>,
    names: &mut Option<DialogNames>,
    decided: Verdict<'_>,
) -> Result<StepOut, AllocError>
    requires new { IsNew proxy.old.state request.received.now.arrival request.key }
    requires names { AreNames request.received.now.message.now names.old }
    requires room { HasRoom proxy.old.room decided }
    requires served { IsServed configured.now.server.now proxy.old.state request.received.now.arrival request.key decided }
    ensures does { IfOk result (λ out. (verdict : Definition.Verdict)
        → Is configured.now.server.now proxy.old.state.bindings request.entry.received.now.arrival.now
        (Definition.found_for_cancel proxy.old.state request.entry.key request.entry.received.now.arrival.from) verdict decided.entry
        → Takes configured.now.server.now proxy.old.state request.entry.received.now.arrival request.entry.received.now.message.now verdict out proxy.new.state) }
    ensures whole { IsWhole proxy.old proxy.new result }
{
    match decided {
        Verdict::Dropped => Ok(take_dropped(alloc, proxy, request.received.arrival)),
        Verdict::AckOn(address, id) => {
            send_ack(alloc, configured, proxy, request.received, address, id)
        }
        Verdict::Cancel => cancel(alloc, configured, proxy, request),
        Verdict::Answer(status, extras) => {
            answer(alloc, configured.server, proxy, request, status, &extras)
        }
        Verdict::InDialog(address, id) => {
            go_within(alloc, configured, proxy, request, names, (address, id))
        }
        Verdict::Judged(judged) => take_asked(alloc, configured, proxy, request, names, judged),
    }
}
