//! The drafts of requests that are sent on, to targets or in a dialog, for `sip_engine_request`.
//! Where a request goes was decided before (`sip_verdict`).
ghost use Rattle.std.specs.Prelude.{◌≡◌, ◌≤◌, ◌<◌, ◌+◌, ◌^◌, [], length, nat_lt, count_by, Some, IfOk};
ghost use Rattle.sip_transaction_table.specs.Key.{key_of};
ghost use Rattle.sip_targets.specs.Targets.{target_list};
ghost use Rattle.sip_forwarding.specs.Arrivals.{arrival_of, arrived};
ghost use Rattle.sip_dialog_updates.specs.state.Dialogs.{after_request};
ghost use Rattle.sip_forwarding.specs.context_model.Opening as Openings;
ghost use Rattle.model_steps.specs.Effect.{opening_packets, dialogs_after};
ghost use Rattle.sip_dialog_updates.specs.DialogUpdates.{beginnings};
ghost use Rattle.sip_dialog_updates.specs.Telling.{Adds, is_early_or_success};
ghost use Rattle.sip_forwarding.specs.Forwarding.{AreSent, IsOpenable, Teach, call_to, call_within};

use crate::Arrival;
use crate::forks::{fork_to, fork_within};
use crate::laws::opens;
use crate::opening::take_opening;
use crate::renewing::renewing;
use crate::state::KeptRequest;
use sip_base::Shared;
use sip_dialog::DialogId;
use sip_dialog_updates::DialogUpdates;
use sip_dialog_updates::state::{OpenRequest, Server};
use sip_event::Packet;
use sip_hops::Hops;
use sip_targets::Targets;
use sip_text::Items;
use sip_transaction_table::TransactionKey;
use sip_uri::Addr;
use std::alloc::{AllocError, Global};

/// A request that is sent on, before anything is changed: what is sent, in its order; the request, which is open from
/// then on; and what the dialogs learn.
#[derive(Drop)]
pub struct Forwarded {
    pub packets: Items<Packet>,
    pub request: OpenRequest,
    pub updates: DialogUpdates,
}

/// What becomes of a request once its first packets go, and what the dialogs learn of that behind some updates.
fn begun(
    alloc: Global,
    server: &Server,
    hops: &Hops,
    now: u64,
    open_request: OpenRequest,
    updates: DialogUpdates,
) -> Result<Forwarded, AllocError>
    requires { now + 32000 < 2 ^ 64 }
    ensures packets { IfOk result (λ forwarded. forwarded.packets ≡ opening_packets server.now now open_request) }
    ensures request { IfOk result (λ forwarded. forwarded.request ≡ (Openings.opening server.now now open_request).request) }
    ensures told { IfOk result (λ forwarded. Adds hops.now.addresses updates forwarded.updates
        (λ other moment dialogs. dialogs_after other moment (Openings.opening server.now now open_request) dialogs)) }
    ensures room { IfOk result (λ forwarded. beginnings forwarded.updates ≤ beginnings updates
        + count_by is_early_or_success (Openings.opening server.now now open_request).upward) }
{
    let mut open_request = open_request;
    let mut updates = updates;
    let mut packets = Items::new(alloc);
    let upward = take_opening(alloc, server, now, &mut open_request, &mut packets)?;
    updates.add_change(alloc, hops, &open_request, upward.as_slice())?;
    Ok(Forwarded {
        packets,
        request: open_request,
        updates,
    })
}

/// Whether the branches to the targets have numbers of 32 bits, and so has the next one.
fn can_be_numbered(targets: &Targets) -> bool
    ensures { result ≡ nat_lt (length (target_list targets.now)) 4294967295 }
{
    match targets {
        Targets::Bindings(targets) => targets.as_slice().len() < u32::MAX as usize,
        Targets::Hop(..) | Targets::NotFound | Targets::Unavailable => true,
    }
}

/// A request that came, with its key, is sent to its targets (RFC 3261 16.5, 16.6): exactly the packets of its opening,
/// the request after it, and what that tells the dialogs. Its source is the one that it was kept with. The request can be
/// opened, and no dialog begins. `AllocError` is the only refusal; it also comes where there are more targets than numbers
/// of branches.
pub fn forward_to(
    alloc: Global,
    server: &Server,
    hops: &Hops,
    arrival: Arrival,
    key: Shared<TransactionKey>,
    request: Shared<KeptRequest>,
    targets: &Targets,
) -> Result<Forwarded, AllocError>
    requires key { key_of request.message ≡ Some key }
    requires now { arrival.now + 32000 < 2 ^ 64 }
    ensures packets { IfOk result (λ forwarded. forwarded.packets
        ≡ opening_packets server.now arrival.now (call_to (arrived arrival request) request.message targets.now)) }
    ensures sent { IfOk result
        (λ forwarded. AreSent (opening_packets server.now arrival.now (call_to (arrived arrival request) request.message targets.now)) [] forwarded.packets) }
    ensures request { IfOk result (λ forwarded. forwarded.request
        ≡ (Openings.opening server.now arrival.now (call_to (arrived arrival request) request.message targets.now)).request) }
    ensures opens { IfOk result (λ forwarded. IsOpenable (arrival_of arrival) key forwarded.request) }
    ensures updates { IfOk result (λ forwarded. Teach hops.now.addresses server.now arrival.now forwarded.updates
        (λ dialogs. dialogs_after server.now arrival.now (Openings.opening server.now arrival.now
        (call_to (arrived arrival request) request.message targets.now)) dialogs)) }
    ensures none_begins { IfOk result (λ forwarded. beginnings forwarded.updates ≡ 0) }
{
    if !can_be_numbered(targets) {
        return Err(AllocError);
    }
    opens();
    let open_request = fork_to(alloc, arrival, key, request, targets)?;
    let forwarded = begun(
        alloc,
        server,
        hops,
        arrival.now,
        open_request,
        DialogUpdates::new(alloc),
    )?;
    Ok(forwarded)
}

/// What a kept request of a dialog that is sent on tells that dialog.
fn renewing_kept(
    alloc: Global,
    hops: &Hops,
    id: DialogId,
    request: &KeptRequest,
) -> Result<DialogUpdates, AllocError>
    ensures told { IfOk result (λ updates. Adds hops.now.addresses [] updates
        (λ server now dialogs. after_request server now id request.now.message dialogs)) }
    ensures none_begins { IfOk result (λ updates. beginnings updates ≡ 0) }
{
    let request = request.view(alloc)?;
    let updates = renewing(alloc, hops, id, &request)?;
    Ok(updates)
}

/// A request of a dialog that came, with its key, is sent on to the address that the dialog holds (RFC 3261 16.12): exactly
/// the packets of its opening, the request after it, and what that tells the dialogs, behind the renewal of its own (12.2).
/// Its source is the one that it was kept with. The request can be opened, and no dialog begins. `AllocError` is the only
/// refusal.
pub fn forward_within(
    alloc: Global,
    server: &Server,
    hops: &Hops,
    arrival: Arrival,
    key: Shared<TransactionKey>,
    request: Shared<KeptRequest>,
    address: Addr,
    id: DialogId,
) -> Result<Forwarded, AllocError>
    requires key { key_of request.message ≡ Some key }
    requires now { arrival.now + 32000 < 2 ^ 64 }
    ensures packets { IfOk result (λ forwarded. forwarded.packets
        ≡ opening_packets server.now arrival.now (call_within server.now (arrived arrival request) request.message address)) }
    ensures sent { IfOk result
        (λ forwarded. AreSent (opening_packets server.now arrival.now (call_within server.now (arrived arrival request) request.message address)) []
        forwarded.packets) }
    ensures request { IfOk result (λ forwarded. forwarded.request
        ≡ (Openings.opening server.now arrival.now (call_within server.now (arrived arrival request) request.message address)).request) }
    ensures opens { IfOk result (λ forwarded. IsOpenable (arrival_of arrival) key forwarded.request) }
    ensures updates { IfOk result (λ forwarded. Teach hops.now.addresses server.now arrival.now forwarded.updates
        (λ dialogs. dialogs_after server.now arrival.now (Openings.opening server.now arrival.now
        (call_within server.now (arrived arrival request) request.message address)) (after_request server.now arrival.now id request.message dialogs))) }
    ensures none_begins { IfOk result (λ forwarded. beginnings forwarded.updates ≡ 0) }
{
    opens();
    let updates = renewing_kept(alloc, hops, id, request.get())?;
    let open_request = fork_within(alloc, server, arrival, key, request, address)?;
    let forwarded = begun(alloc, server, hops, arrival.now, open_request, updates)?;
    Ok(forwarded)
}
