//! The two ways in which a new request goes on: to its targets (RFC 3261 16.5, 16.6), and in its dialog (12.2, 16.12).
//! It is kept before it goes, with what names its dialogs.
ghost use Rattle.std.specs.Prelude.{◌≡◌, false, IfOk};
ghost use Rattle.sip_verdict.specs.state.Names.{AreNames};
ghost use Rattle.sip_verdict.specs.verdict_model.Verdict as Definition;
ghost use Rattle.sip_engine_request.specs.Steps.{IsNew, IsWhole, Takes};

use crate::keeping::keep_onward;
use crate::new_request::NewRequest;
use sip_base::Shared;
use sip_dialog::DialogId;
use sip_engine_request::proxy::{Configured, Proxy};
use sip_engine_request::{KeyedRequest, RoutedRequest, send_to, send_within};
use sip_event::StepOut;
use sip_timers::Timers;
use sip_uri::Addr;
use sip_verdict::state::DialogNames;
use std::alloc::{AllocError, Global};

/// A new request goes to its targets, which are somebody, by a rule (RFC 3261 16.5, 16.6). `AllocError` is the only refusal;
/// nothing is changed then.
pub(crate) fn go_to<T: Timers>(
    alloc: Global,
    configured: &Configured<'_>,
    proxy: &mut Proxy<T>,
    request: NewRequest<'_>,
    names: &mut Option<DialogNames>,
    sending: &RoutedRequest<'_, '_>,
) -> Result<StepOut, AllocError>
    requires new { IsNew proxy.old.state request.received.now.arrival request.key }
    requires names { AreNames request.received.now.message.now names.old }
    requires space { Definition.is_full proxy.old.state ≡ false }
    requires minute { sending.now.judged.now.minute ≡ Definition.minute_on configured.now.server.now sending.now.judged.now.question }
    ensures does { IfOk result (λ out. Takes configured.now.server.now proxy.old.state request.entry.received.now.arrival request.entry.received.now.message.now
        (Definition.Send sending.now.judged.now.question sending.now.rule sending.now.targets.now) out proxy.new.state) }
    ensures whole { IsWhole proxy.old proxy.new result }
{
    let NewRequest { received, key } = request;
    let key = Shared::new(alloc, key)?;
    let message = keep_onward(alloc, configured.server, received, names)?;
    let keyed = KeyedRequest {
        arrival: received.arrival,
        key,
        request: message,
    };
    send_to(alloc, configured, proxy, keyed, sending)
}

/// A new request goes on in its dialog, to this address (RFC 3261 12.2, 16.12). `AllocError` is the only refusal; nothing is changed then.
pub(crate) fn go_within<T: Timers>(
    alloc: Global,
    configured: &Configured<'_>,
    proxy: &mut Proxy<T>,
    request: NewRequest<'_>,
    names: &mut Option<DialogNames>,
    way: (Addr, DialogId),
) -> Result<StepOut, AllocError>
    requires new { IsNew proxy.old.state request.received.now.arrival request.key }
    requires names { AreNames request.received.now.message.now names.old }
    requires space { Definition.is_full proxy.old.state ≡ false }
    ensures does { IfOk result (λ out. Takes configured.now.server.now proxy.old.state request.entry.received.now.arrival request.entry.received.now.message.now
        (Definition.InDialog way.0 way.1) out proxy.new.state) }
    ensures whole { IsWhole proxy.old proxy.new result }
{
    let NewRequest { received, key } = request;
    let key = Shared::new(alloc, key)?;
    let message = keep_onward(alloc, configured.server, received, names)?;
    let keyed = KeyedRequest {
        arrival: received.arrival,
        key,
        request: message,
    };
    let (address, id) = way;
    send_within(alloc, configured, proxy, keyed, address, id)
}
