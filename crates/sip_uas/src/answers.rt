//! A final answer that is made here, as a draft (RFC 3261 8.2.6, 17.2): what it sends, records and keeps open.
ghost use Rattle.std.specs.Prelude.{◌≡◌, ◌+◌, ◌<◌, ◌^◌, if◌then◌else◌, [], ◌∷◌, Some, None, IfOk, IfSome};
ghost use Rattle.sip_forwarding.specs.Arrivals.{arrival_of};
ghost use Rattle.sip_forwarding.specs.steps_model.Effect as Effects;
ghost use Rattle.model_transactions.specs.Fits.{IsFinalAnswer};
ghost use Rattle.sip_uas.specs.Drafts.{Drafts, IsOpenable};

use crate::answer_draft::AnswerDraft;
use crate::keyed_request::KeyedRequest;
use model_transactions::fitting_events::opens_fitting;
use model_transactions::openings::answered_at_once;
use sip_audit::Record;
use sip_dialog_updates::DialogUpdates;
use sip_dialog_updates::state::{OpenRequest, Server};
use sip_fork::NewRow;
use sip_forwarding::{Replied, reply};
use sip_message_fields::Fields;
use sip_text::Items;
use std::alloc::{AllocError, Global};

/// The request where it is to stand, unless there is no room for it.
fn where_room(
    alloc: Global,
    request: OpenRequest,
    is_full: bool,
) -> Result<Option<NewRow>, AllocError>
    ensures { IfOk result (λ opened. opened ≡ (if is_full then None else Some request)) }
{
    if is_full {
        return Ok(None);
    }
    let opening = NewRow::of(alloc, request)?;
    Ok(Some(opening))
}

/// What a final answer does, with what is recorded of its request.
fn drafted(
    alloc: Global,
    replied: Replied,
    records: Items<Record>,
    is_full: bool,
) -> Result<AnswerDraft, AllocError>
    ensures { IfOk result
        (λ draft. draft ≡ record {
          packets = replied.packet ∷ [];
          records = records;
          opened = if is_full then None
              else Some replied.request;
          updates = [];
        }) }
{
    let Replied { packet, request } = replied;
    let mut packets = Items::with_room(alloc, 1)?;
    packets.push(packet)?;
    let opened = where_room(alloc, request, is_full)?;
    Ok(AnswerDraft {
        packets,
        records,
        opened,
        updates: DialogUpdates::new(alloc),
    })
}

/// What a final answer that is made here says: its status, and its further fields.
#[derive(Drop)]
pub struct FinalAnswer<'a> {
    pub status: u16,
    pub extras: &'a Fields,
}

/// What a final answer does to a request that comes, made here, and recorded so: the answer goes, and the request is open
/// from then on, unless 1,024 are (RFC 3261 8.2.6, 17.2). Nonces, bindings and dialogs stay. `AllocError` is the only
/// refusal.
pub fn answer(
    alloc: Global,
    server: &Server,
    request: KeyedRequest,
    said: &FinalAnswer<'_>,
    records: Items<Record>,
    is_full: bool,
) -> Result<AnswerDraft, AllocError>
    requires { request.arrival.now + 32000 < 2 ^ 64 }
    ensures does { IfOk result (λ draft. Drafts is_full request.arrival.now draft (λ nonces. nonces) None
        (Effects.replied server.now (arrival_of request.arrival) request.request.message said.now.status said.now.extras.now records)) }
    ensures opens { IfOk result (λ draft. IsFinalAnswer said.now.status
        → IfSome draft.opened (IsOpenable request.arrival request.key)) }
{
    opens_fitting();
    answered_at_once();
    let KeyedRequest {
        arrival,
        key,
        request,
    } = request;
    let replied = reply(
        alloc,
        server,
        arrival,
        key,
        request,
        said.status,
        said.extras,
    )?;
    drafted(alloc, replied, records, is_full)
}
