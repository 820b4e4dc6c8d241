//! What follows every event of an open request (RFC 3261 16.7 steps 5 to 10): the best answer, if it is time for it, then CANCELs.
ghost use Rattle.std.specs.Prelude.{◌≡◌, ◌<◌, ◌+◌, ◌^◌, false, [], None, IfOk, OnOk};
ghost use Rattle.std.specs.List.{flat_map};
ghost use Rattle.sip_context_branches.specs.context_model.Sending as Sendings;
ghost use Rattle.sip_context_branches.specs.context_model.Branches as Contexts;
ghost use Rattle.sip_context.specs.Sent.{change_of};

use crate::answers::{best_upward, tell};
use crate::sent::Sent;
use crate::target_packets::packets_of_branches;
use sip_context_branches::state::{Branch, OpenRequest, Server, Upward};
use sip_context_branches::{add_cancels, new_cancels};
use sip_event::Packet;
use sip_text::Items;
use std::alloc::{AllocError, Global};

/// The packets of CANCELs.
fn cancel_packets(
    alloc: Global,
    server: &Server,
    request: &OpenRequest,
    cancels: &[Branch],
) -> Result<Items<Packet>, AllocError>
    ensures { IfOk result (λ packets. packets ≡ flat_map (Sendings.branch_packets server.now false request.now) cancels.now) }
{
    let mut packets = Items::new(alloc);
    packets_of_branches(alloc, &mut packets, server, false, request, cancels)?;
    Ok(packets)
}

/// These are the CANCELs of the branches that are ready for one, which are sent.
#[inline(never)]
fn sent_cancels(
    alloc: Global,
    server: &Server,
    now: u64,
    open_request: &mut OpenRequest,
    cancels: Items<Branch>,
) -> Result<Items<Packet>, AllocError>
    requires now { now + 32000 < 2 ^ 64 }
    requires cancels { cancels ≡ Contexts.new_cancels now open_request.old }
    ensures request { OnOk result (open_request.new ≡ Contexts.with_cancels now open_request.old) }
    ensures packets { IfOk result (λ packets. packets ≡ flat_map (Sendings.branch_packets server.now false open_request.old)
        (Contexts.new_cancels now open_request.old)) }
{
    let packets = cancel_packets(alloc, server, open_request, cancels.as_slice())?;
    add_cancels(alloc, now, &mut open_request.branches)?;
    Ok(packets)
}

/// The branches that are ready for it are sent their CANCELs. Where none is, they stay as they are.
#[tactic(auto, using(crate::proofs::Settled::kept_as_they_are, crate::proofs::Settled::nothing_sent))]
fn send_cancels(
    alloc: Global,
    server: &Server,
    now: u64,
    open_request: &mut OpenRequest,
) -> Result<Items<Packet>, AllocError>
    requires { now + 32000 < 2 ^ 64 }
    ensures request { OnOk result (open_request.new ≡ Contexts.with_cancels now open_request.old) }
    ensures packets { IfOk result (λ packets. packets ≡ flat_map (Sendings.branch_packets server.now false open_request.old)
        (Contexts.new_cancels now open_request.old)) }
{
    let cancels = new_cancels(alloc, now, open_request.branches.as_slice())?;
    if cancels.as_slice().is_empty() {
        return Ok(Items::new(alloc));
    }
    sent_cancels(alloc, server, now, open_request, cancels)
}

/// What follows every event: what goes to the caller at once, then the best answer if it is time for it, then the
/// CANCELs of the branches that are ready for one (RFC 3261 16.7 steps 5 to 10).
pub(crate) fn settle(
    alloc: Global,
    server: &Server,
    now: u64,
    acks: Items<Packet>,
    relayed: Option<Upward>,
    request: &mut OpenRequest,
) -> Result<Sent, AllocError>
    requires { now + 32000 < 2 ^ 64 }
    ensures { IfOk result (λ sent. change_of request.new sent ≡ Contexts.settled server.now now acks relayed request.old) }
{
    let mut upward = Items::new(alloc);
    tell(alloc, now, request, &mut upward, relayed)?;
    let best = best_upward(alloc, server, request)?;
    tell(alloc, now, request, &mut upward, best)?;
    let cancels = send_cancels(alloc, server, now, request)?;
    Ok(Sent {
        acks,
        upward,
        cancels,
        copies: Items::new(alloc),
    })
}

/// What follows an event that has nothing to acknowledge or to relay: the best answer goes to the caller if it is time for
/// it, and the branches that are ready for one are sent their CANCELs (RFC 3261 16.7 steps 5 to 10). `AllocError` is the
/// only refusal.
pub fn settle_alone(
    alloc: Global,
    server: &Server,
    now: u64,
    request: &mut OpenRequest,
) -> Result<Sent, AllocError>
    requires { now + 32000 < 2 ^ 64 }
    ensures { IfOk result (λ sent. change_of request.new sent ≡ Contexts.settled server.now now [] None request.old) }
{
    let sent = settle(alloc, server, now, Items::new(alloc), None, request)?;
    Ok(sent)
}
