ghost use Rattle.std.specs.Prelude.{◌≡◌, ◌≤◌, ◌++◌, ℕ, count_by, IfOk, OnOk};
ghost use Rattle.sip_dialog_updates.specs.state.declared.server.Server.{Server};
ghost use Rattle.sip_dialog_updates.specs.state.declared.open_request.OpenRequest.{OpenRequest};
ghost use Rattle.model_steps.specs.Effect as Effects;
ghost use Rattle.sip_dialog_updates.specs.DialogUpdates.{beginnings};
ghost use Rattle.sip_dialog_updates.specs.Telling.{is_early_or_success};
ghost use Rattle.sip_context.specs.declared.input.Input.{Input};
ghost use Rattle.sip_context.specs.Inputs.{outcome, outcome_of};
ghost use Rattle.sip_forwarding.specs.Forwarding.{IsDraft, IsInputTo, Teach, change_of};

use crate::packets::{put_change, put_packets};
use sip_context::Sent;
use sip_dialog_updates::DialogUpdates;
use sip_dialog_updates::state::{OpenRequest, Upward};
use sip_event::Packet;
use sip_hops::Hops;
use sip_text::Items;
use std::alloc::{AllocError, Global};

/// What is sent where an open request changes, and what the dialogs learn of it, before anything is changed.
#[derive(Drop)]
pub struct Drafted {
    /// What is sent for the first time, in its order, and behind it what goes again.
    pub packets: Items<Packet>,
    pub updates: DialogUpdates,
}

/// Adds what an event makes a request send, and behind it what goes again. Gives what goes to the caller.
fn put_sent(
    alloc: Global,
    out: &mut Items<Packet>,
    request: &OpenRequest,
    sent: Sent,
) -> Result<Items<Upward>, AllocError>
    ensures packets { OnOk result (out.new ≡ out.old ++ (Effects.change_packets (change_of (outcome request.now sent)) ++ sent.copies)) }
    ensures upward { IfOk result (λ upward. upward ≡ sent.upward) }
{
    let mut sent = sent;
    put_change(alloc, out, request, &mut sent)?;
    put_packets(alloc, out, &mut sent.copies)?;
    Ok(sent.upward)
}

/// What an event makes an open request send, given the request after it, and what that tells the dialogs (RFC 3261 12, 16.7):
/// ACKs, then what goes to the caller, then CANCELs, all for the first time; then what goes again, marked so. Of an event
/// of an open request at most one dialog begins. `AllocError` is the only refusal.
pub fn draft_change(
    alloc: Global,
    hops: &Hops,
    request: &OpenRequest,
    sent: Sent,
) -> Result<Drafted, AllocError>
    ensures packets { IfOk result (λ drafted. drafted.packets ≡ Effects.change_packets (change_of (outcome request.now sent)) ++ sent.copies) }
    ensures updates { IfOk result (λ drafted. (server : Server) (now : ℕ)
        → Teach hops.now.addresses server now drafted.updates
        (λ dialogs. Effects.dialogs_after server now (change_of (outcome request.now sent)) dialogs)) }
    ensures beginnings { IfOk result (λ drafted. beginnings drafted.updates ≤ count_by is_early_or_success sent.upward) }
    ensures event { (server : Server) (now : ℕ) (before : OpenRequest) (input : Input) → IsInputTo before input
        → outcome request.now sent ≡ outcome_of server now before input
        → IfOk result (IsDraft hops.now.addresses server now (outcome_of server now before input)) }
{
    let mut packets = Items::new(alloc);
    let mut updates = DialogUpdates::new(alloc);
    let upward = put_sent(alloc, &mut packets, request, sent)?;
    updates.add_change(alloc, hops, request, upward.as_slice())?;
    Ok(Drafted { packets, updates })
}
