ghost use Rattle.std.specs.Prelude.{◌≡◌, false, IfOk};
ghost use Rattle.sip_proxy.specs.verdict.verdict_model.Verdict as Definition;
ghost use Rattle.sip_engine_request.specs.Steps.{IsNew, IsWhole, Takes};

use crate::forwarded_request::take_request;
use sip_dialog::DialogId;
use sip_event::StepOut;
use sip_proxy::forwarding::forward_within;
use sip_proxy::{Configured, Proxy};
use sip_text::Items;
use sip_timers::Timers;
use sip_uas::KeyedRequest;
use sip_uri::Addr;
use std::alloc::{AllocError, Global};

/// A request of a dialog is sent on to the address that the dialog holds, is open from then on, and renews its dialog (RFC
/// 3261 12.2, 16.12). Policy isn't asked, and nothing is recorded. `AllocError` is the only refusal; nothing is changed
/// then.
pub fn send_within<T: Timers>(
    alloc: Global,
    configured: &Configured<'_>,
    proxy: &mut Proxy<T>,
    request: KeyedRequest,
    address: Addr,
    id: DialogId,
) -> Result<StepOut, AllocError>
    requires new { IsNew proxy.old.state request.arrival request.key }
    requires space { Definition.is_full proxy.old.state ≡ false }
    ensures does { IfOk result (λ out. Takes configured.now.server.now proxy.old.state request.arrival request.request.message
        (Definition.InDialog address id) out proxy.new.state) }
    ensures whole { IsWhole proxy.old proxy.new result }
{
    let server = configured.server;
    let hops = configured.hops;
    let KeyedRequest {
        arrival,
        key,
        request,
    } = request;
    let forwarded = forward_within(alloc, server, hops, arrival, key, request, address, id)?;
    let packets = take_request(alloc, proxy, arrival, forwarded)?;
    Ok(StepOut {
        at: arrival.now,
        packets,
        records: Items::new(alloc),
    })
}
