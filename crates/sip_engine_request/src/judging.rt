ghost use Rattle.std.specs.Prelude.{◌≡◌, true, Option, IfOk};
ghost use Rattle.sip_proxy.specs.verdict.Verdict.{HasRoomFor, Is};
ghost use Rattle.sip_proxy.specs.verdict.declared.verdict.Verdict.TheVariants as Arrived;
ghost use Rattle.sip_dialog_updates.specs.state.declared.open_request.OpenRequest.{OpenRequest};
ghost use Rattle.sip_proxy.specs.verdict.verdict_model.Verdict as Definition;
ghost use Rattle.sip_uas.specs.Asking as Asking;
ghost use Rattle.sip_engine_request.specs.Admitting.{IsAnswered};
ghost use Rattle.sip_engine_request.specs.Steps.{IsNew, IsWhole, Takes};

use crate::deciding::take_decision;
use crate::taking::take_draft;
use sip_dialog_updates::state::Server;
use sip_event::StepOut;
use sip_proxy::Proxy;
use sip_proxy::verdict::Judged;
use sip_timers::Timers;
use sip_uas::{KeyedRequest, judged as draft_judged};
use std::alloc::{AllocError, Global};

/// The step of a request outside a dialog about which policy was asked, and that is answered here: it is challenged, denied,
/// registered, or nobody is its target (RFC 3261 10.3, 16.5, 22). Its answer goes, it is recorded, and it is open from then
/// on, unless 1,024 are. A right credential is used up, whatever was decided; a challenge issues its nonce, and a REGISTER
/// makes its bindings. `AllocError` is the only refusal; nothing is changed then.
pub fn take_judged<T: Timers>(
    alloc: Global,
    server: &Server,
    proxy: &mut Proxy<T>,
    request: KeyedRequest,
    judged: Judged<'_>,
) -> Result<StepOut, AllocError>
    requires new { IsNew proxy.old.state request.arrival request.key }
    requires here { Asking.is_answered_here judged.outcome ≡ true }
    requires room { HasRoomFor proxy.old.room judged.outcome }
    requires answers { IsAnswered server.now proxy.old.state.bindings request.arrival.now judged }
    ensures does { IfOk result (λ out. (named : Option OpenRequest) (verdict : Definition.Verdict)
        → Is server.now proxy.old.state.bindings request.arrival.now named verdict (Arrived.Judged judged.entry)
        → Takes server.now proxy.old.state request.arrival request.request.message verdict out proxy.new.state) }
    ensures whole { IsWhole proxy.old proxy.new result }
{
    let is_full = proxy.is_full();
    let arrival = request.arrival;
    let draft = draft_judged(alloc, server, request, &judged, is_full)?;
    let out = take_draft(alloc, proxy, arrival, draft)?;
    take_decision(proxy, arrival, judged);
    Ok(out)
}
