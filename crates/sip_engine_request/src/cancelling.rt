//! The step of a CANCEL (RFC 3261 9.2, 16.10): its own answer, and what it makes of the open request that it names.
ghost use Rattle.std.specs.Prelude.{◌≡◌, ◌+◌, ◌<◌, ◌^◌, ◌++◌, ◌∷◌, [], false, length, slice_get, IfOk, IfSome};
ghost use Rattle.std.specs.Option.{option_and_then};
ghost use Rattle.sip_proxy.specs.verdict.context_model.Opening.{closing};
ghost use Rattle.sip_message_form.specs.Text.{text_of};
ghost use Rattle.sip_uas.specs.forwarding.Arrivals.{arrival_of};
ghost use Rattle.sip_proxy.specs.verdict.context_model.Sending.{answer_packet, made_answer};
ghost use Rattle.sip_proxy.specs.verdict.verdict_model.Verdict as Definition;
ghost use Rattle.sip_uas.specs.Drafts.{IsOpenable};
ghost use Rattle.sip_engine_request.specs.Steps.{IsNew, IsWhole, Takes};

use crate::answered_request::take_answered;
use sip_dialog_updates::state::Server;
use sip_event::{Packet, StepOut};
use sip_message_fields::Fields;
use sip_proxy::context::Input;
use sip_proxy::fork::NewRow;
use sip_proxy::forwarding::Drafted;
use sip_proxy::{Configured, EventDraft, Proxy};
use sip_text::Items;
use sip_timers::Timers;
use sip_transaction_table::TransactionKey;
use sip_uas::KeyedRequest;
use sip_uas::forwarding::{put_packets, reply};
use sip_uas::transactions_model::fitting_events::opens_fitting;
use sip_uas::transactions_model::openings::answered_at_once;
use sip_uri::Addr;
use std::alloc::{AllocError, Global};

/// The place of the open request that a CANCEL with a key names, if the CANCEL comes from its IP address (RFC 3261 9.2).
#[tactic(auto, using(crate::proofs::Cancels::named_by))]
fn find_named<T: Timers>(proxy: &Proxy<T>, key: &TransactionKey, from: Addr) -> Option<usize>
    ensures named { option_and_then (slice_get proxy.now.state.requests) result ≡ Definition.found_for_cancel proxy.now.state key.now from }
    ensures within { IfSome result (λ place. place < length proxy.now.state.requests) }
{
    let place = proxy.find_cancelled(key)?;
    let source = proxy.get(place).request.get().source();
    if source.ip.as_slice() == from.ip.as_slice() {
        Some(place)
    } else {
        None
    }
}

/// The 200 to a CANCEL, and the CANCEL with it, as it is to be opened.
#[derive(Drop)]
struct Agreed {
    packet: Packet,
    opened: NewRow,
}

/// Makes the 200 to a CANCEL (RFC 3261 9.2). `AllocError` is the only refusal.
fn agree(alloc: Global, server: &Server, cancel: KeyedRequest) -> Result<Agreed, AllocError>
    requires { cancel.arrival.now + 32000 < 2 ^ 64 }
    ensures packet { IfOk result (λ agreed. agreed.packet
        ≡ answer_packet false cancel.arrival.number cancel.request.message cancel.arrival.from
        (text_of (made_answer server.now cancel.arrival.number cancel.request.message cancel.arrival.from 200 []))) }
    ensures opened { IfOk result (λ agreed. agreed.opened ≡ closing (arrival_of cancel.arrival) cancel.request.message 200
        (text_of (made_answer server.now cancel.arrival.number cancel.request.message cancel.arrival.from 200 []))) }
    ensures opens { IfOk result (λ agreed. IsOpenable cancel.arrival cancel.key agreed.opened) }
{
    opens_fitting();
    answered_at_once();
    let KeyedRequest {
        arrival,
        key,
        request,
    } = cancel;
    let extras = Fields::new(alloc);
    let replied = reply(alloc, server, arrival, key, request, 200, &extras)?;
    let opened = NewRow::of(alloc, replied.request)?;
    Ok(Agreed {
        packet: replied.packet,
        opened,
    })
}

/// A draft whose packets go behind another one.
fn behind(alloc: Global, first: Packet, draft: EventDraft) -> Result<EventDraft, AllocError>
    ensures change { IfOk result (λ both. both.change ≡ draft.change) }
    ensures packets { IfOk result (λ both. both.drafted.packets ≡ first ∷ [] ++ draft.drafted.packets) }
    ensures updates { IfOk result (λ both. both.drafted.updates ≡ draft.drafted.updates) }
{
    let EventDraft { change, drafted } = draft;
    let Drafted { packets, updates } = drafted;
    let mut packets = packets;
    let mut all = Items::new(alloc);
    all.push(first)?;
    put_packets(alloc, &mut all, &mut packets)?;
    let drafted = Drafted {
        packets: all,
        updates,
    };
    Ok(EventDraft { change, drafted })
}

/// A CANCEL is answered with 200, and behind that the open request at a place is cancelled (RFC 3261 9.2, 16.10).
fn cancel_at<T: Timers>(
    alloc: Global,
    configured: &Configured<'_>,
    proxy: &mut Proxy<T>,
    cancel: KeyedRequest,
    place: usize,
) -> Result<StepOut, AllocError>
    requires new { IsNew proxy.old.state cancel.arrival cancel.key }
    requires space { Definition.is_full proxy.old.state ≡ false }
    requires place { place < length proxy.old.state.requests }
    ensures does { IfOk result (λ out. Takes configured.now.server.now proxy.old.state cancel.arrival cancel.request.message
        (Definition.Cancel (slice_get proxy.old.state.requests place)) out proxy.new.state) }
    ensures whole { IsWhole proxy.old proxy.new result }
{
    let server = configured.server;
    let now = cancel.arrival.now;
    let agreed = agree(alloc, server, cancel)?;
    let draft = proxy.draft_input(alloc, configured, now, place, Input::Cancel)?;
    let both = behind(alloc, agreed.packet, draft)?;
    let packets = proxy.open_and_change(now, agreed.opened, place, both)?;
    let _number = proxy.count();
    Ok(StepOut {
        at: now,
        packets,
        records: Items::new(alloc),
    })
}

/// The step of a CANCEL that isn't refused (RFC 3261 9.2, 16.10): where it names no open request of its source it is answered
/// with 481; else with 200, and behind that the request is cancelled. The CANCEL is open from then on. `AllocError` is the
/// only refusal; nothing is changed then.
pub fn take_cancel<T: Timers>(
    alloc: Global,
    configured: &Configured<'_>,
    proxy: &mut Proxy<T>,
    cancel: KeyedRequest,
) -> Result<StepOut, AllocError>
    requires new { IsNew proxy.old.state cancel.arrival cancel.key }
    requires space { Definition.is_full proxy.old.state ≡ false }
    ensures does { IfOk result (λ out. Takes configured.now.server.now proxy.old.state cancel.arrival cancel.request.message
        (Definition.Cancel (Definition.found_for_cancel proxy.old.state cancel.key cancel.arrival.from)) out
        proxy.new.state) }
    ensures whole { IsWhole proxy.old proxy.new result }
{
    match find_named(proxy, cancel.key.get(), cancel.arrival.from) {
        Some(place) => cancel_at(alloc, configured, proxy, cancel, place),
        None => {
            let extras = Fields::new(alloc);
            take_answered(alloc, configured.server, proxy, cancel, 481, &extras)
        }
    }
}
