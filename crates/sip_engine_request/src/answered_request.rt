ghost use Rattle.std.specs.Prelude.{IfOk};
ghost use Rattle.sip_uas.specs.transactions_model.Fits.{IsFinalAnswer};
ghost use Rattle.sip_proxy.specs.verdict.verdict_model.Verdict as Definition;
ghost use Rattle.sip_engine_request.specs.Steps.{IsNew, IsWhole, Takes};

use crate::taking::take_draft;
use sip_dialog_updates::state::Server;
use sip_event::StepOut;
use sip_message_fields::Fields;
use sip_proxy::Proxy;
use sip_text::Items;
use sip_timers::Timers;
use sip_uas::{FinalAnswer, KeyedRequest, answer};
use std::alloc::{AllocError, Global};

/// The step of a new request that is answered at once with a final status and further fields, before policy is asked (RFC
/// 3261 8.2, 16.3). Its answer goes, and it is open from then on, unless 1,024 are; nothing is recorded. `AllocError` is the
/// only refusal; nothing is changed then.
pub fn take_answered<T: Timers>(
    alloc: Global,
    server: &Server,
    proxy: &mut Proxy<T>,
    request: KeyedRequest,
    status: u16,
    extras: &Fields,
) -> Result<StepOut, AllocError>
    requires new { IsNew proxy.old.state request.arrival request.key }
    requires final_status { IsFinalAnswer status }
    ensures does { IfOk result (λ out. Takes server.now proxy.old.state request.arrival request.request.message
        (Definition.Answer status extras.now) out proxy.new.state) }
    ensures whole { IsWhole proxy.old proxy.new result }
{
    let is_full = proxy.is_full();
    let records = Items::new(alloc);
    let said = FinalAnswer { status, extras };
    let arrival = request.arrival;
    let draft = answer(alloc, server, request, &said, records, is_full)?;
    take_draft(alloc, proxy, arrival, draft)
}
