ghost use Rattle.std.specs.Prelude.{IfOk};
ghost use Rattle.sip_proxy.specs.Proxy.{IsComing};
ghost use Rattle.sip_proxy.specs.verdict.verdict_model.Verdict as Definition;
ghost use Rattle.sip_engine_request.specs.Steps.{IsWhole, Takes};

use crate::forwarded_request::take_updates;
use sip_dialog::DialogId;
use sip_event::StepOut;
use sip_proxy::forwarding::forward_ack;
use sip_proxy::{Configured, Proxy, ReceivedRequest};
use sip_text::Items;
use sip_timers::Timers;
use sip_uri::Addr;
use std::alloc::{AllocError, Global};

/// An ACK of a dialog goes on to the address that the dialog holds, without a transaction, and renews the
/// dialog (RFC 3261 12.2, 13.2.2.4, 16.11). No request is opened, and nothing is recorded. `AllocError` is the only refusal;
/// nothing is changed then.
pub fn send_ack<T: Timers>(
    alloc: Global,
    configured: &Configured<'_>,
    proxy: &mut Proxy<T>,
    request: &ReceivedRequest<'_>,
    address: Addr,
    id: DialogId,
) -> Result<StepOut, AllocError>
    requires { IsComing proxy.old.state request.now.arrival }
    ensures does { IfOk result (λ out. Takes configured.now.server.now proxy.old.state request.now.arrival request.now.message.now
        (Definition.AckOn address id) out proxy.new.state) }
    ensures whole { IsWhole proxy.old proxy.new result }
{
    let server = configured.server;
    let hops = configured.hops;
    let arrival = request.arrival;
    let ack = forward_ack(
        alloc,
        server,
        hops,
        arrival,
        request.message,
        &request.via,
        address,
        id,
    )?;
    let mut packets = Items::with_room(alloc, 1)?;
    packets.push(ack.packet)?;
    take_updates(proxy, arrival, ack.updates)?;
    Ok(StepOut {
        at: arrival.now,
        packets,
        records: Items::new(alloc),
    })
}
