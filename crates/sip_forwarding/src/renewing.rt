ghost use Rattle.std.specs.Prelude.{◌≡◌, [], IfOk, Some};
ghost use Rattle.sip_forwarding.specs.Arrivals.{arrival_of};
ghost use Rattle.sip_edit.specs.ReceivedRequest.{top_via};
ghost use Rattle.sip_dialog_updates.specs.state.Dialogs.{after_request};
ghost use Rattle.model_steps.specs.Effect as Effects;
ghost use Rattle.sip_dialog_updates.specs.DialogUpdates.{beginnings};
ghost use Rattle.sip_dialog_updates.specs.Telling.{Adds};
ghost use Rattle.sip_forwarding.specs.Forwarding.{Teach};

use crate::Arrival;
use crate::acking::ack_packet;
use sip_dialog::DialogId;
use sip_dialog_updates::DialogUpdates;
use sip_dialog_updates::state::Server;
use sip_event::Packet;
use sip_header::Via;
use sip_hops::Hops;
use sip_message_form::View;
use sip_uri::Addr;
use std::alloc::{AllocError, Global};

/// What a request of a dialog that is sent on tells that dialog (RFC 3261 12.2).
pub(crate) fn renewing(
    alloc: Global,
    hops: &Hops,
    id: DialogId,
    request: &View<'_>,
) -> Result<DialogUpdates, AllocError>
    ensures told { IfOk result (λ updates. Adds hops.now.addresses [] updates
        (λ server now dialogs. after_request server now id request.now dialogs)) }
    ensures none_begins { IfOk result (λ updates. beginnings updates ≡ 0) }
{
    let mut updates = DialogUpdates::new(alloc);
    updates.add_request(alloc, hops, id, request)?;
    Ok(updates)
}

/// An ACK that is sent on, before anything is changed: its packet, and what its dialog learns.
#[derive(Drop)]
pub struct ForwardedAck {
    pub packet: Packet,
    pub updates: DialogUpdates,
}

/// An ACK of a dialog, with this Via on top, goes on to the address that the dialog holds, without a transaction, and renews the
/// dialog (RFC 3261 12.2, 16.11, 17): exactly its packet, and what that tells the dialogs, of which none begins. `AllocError` is
/// the only refusal.
pub fn forward_ack(
    alloc: Global,
    server: &Server,
    hops: &Hops,
    arrival: Arrival,
    request: &View<'_>,
    via: &Via<'_>,
    address: Addr,
    id: DialogId,
) -> Result<ForwardedAck, AllocError>
    requires via { top_via request.now ≡ Some via.now }
    ensures packet { IfOk result (λ ack. ack.packet ≡ Effects.ack_packet server.now (arrival_of arrival) request.now address) }
    ensures updates { IfOk result (λ ack. Teach hops.now.addresses server.now arrival.now ack.updates
        (λ dialogs. after_request server.now arrival.now id request.now dialogs)) }
    ensures none_begins { IfOk result (λ ack. beginnings ack.updates ≡ 0) }
{
    let updates = renewing(alloc, hops, id, request)?;
    let packet = ack_packet(alloc, server, arrival, request, via, address)?;
    Ok(ForwardedAck { packet, updates })
}
