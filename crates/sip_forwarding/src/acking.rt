//! The packet of an ACK that goes on in its dialog without a transaction (RFC 3261 16.11). What it tells the dialog is in `renewing`.
ghost use Rattle.std.specs.Prelude.{◌≡◌, IfOk, Some};
ghost use Rattle.sip_message_form.specs.Text.{text_of};
ghost use Rattle.sip_edit.specs.Onward.{onward_uri};
ghost use Rattle.sip_edit.specs.ReceivedRequest.{received_fields, top_via};
ghost use Rattle.sip_message_fields.specs.declared.field_name.FieldName.TheVariants as Name;
ghost use Rattle.sip_message_fields.specs.Values.{with_first};
ghost use Rattle.sip_context_branches.specs.context_model.Sending as Sendings;
ghost use Rattle.model_steps.specs.Effect as Effects;
ghost use Rattle.sip_forwarding.specs.Arrivals.{arrival_of};

use crate::arrival::Arrival;
use model_steps::state::Server;
use sip_edit::{BranchId, onward_uri, received_via_of, text_onward};
use sip_event::{Packet, Ticket};
use sip_header::Via;
use sip_message_fields::FieldName;
use sip_message_form::View;
use sip_text::Bytes;
use sip_uri::Addr;
use std::alloc::{AllocError, Global};

/// The value that the top Via of a request, which says this, gets where it came from an address (RFC 3261 18.2.1).
#[tactic(auto, using(crate::proofs::AckVias::on_top, crate::proofs::AckVias::edited))]
fn received_value(
    alloc: Global,
    request: &View<'_>,
    via: &Via<'_>,
    from: Addr,
) -> Result<Bytes, AllocError>
    requires { top_via request.now ≡ Some via.now }
    ensures { IfOk result (λ value. with_first Name.Via value request.now.fields ≡ received_fields from request.now.fields) }
{
    let Some(value) = request.fields().first(&FieldName::Via) else {
        unreachable!();
    };
    received_via_of(alloc, via, value, from)
}

/// The text of a request, as it came, that goes on with a Request-URI.
fn received_on(
    alloc: Global,
    server: &Server,
    arrival: Arrival,
    request: &View<'_>,
    via: &Via<'_>,
    uri: &[u8],
) -> Result<Bytes, AllocError>
    requires via { top_via request.now ≡ Some via.now }
    ensures { IfOk result (λ text. text ≡ text_of (Sendings.onward_as server.now arrival.number request.now arrival.from uri.now 1)) }
{
    let via = received_value(alloc, request, via, arrival.from)?;
    let branch = BranchId {
        number: arrival.number,
        target: 1,
    };
    text_onward(
        alloc,
        &server.config.own,
        server.config.realm.as_slice(),
        server.word,
        branch,
        request,
        via.as_slice(),
        uri,
    )
}

/// The text of a request that goes on to its own Request-URI.
fn onward_text(
    alloc: Global,
    server: &Server,
    arrival: Arrival,
    request: &View<'_>,
    via: &Via<'_>,
) -> Result<Bytes, AllocError>
    requires via { top_via request.now ≡ Some via.now }
    ensures { IfOk result
        (λ text. text ≡ text_of (Sendings.onward_as server.now arrival.number request.now arrival.from
        (onward_uri server.now.config.own request.now) 1)) }
{
    let uri = onward_uri(alloc, &server.config.own, request)?;
    received_on(alloc, server, arrival, request, via, uri.as_slice())
}

/// The packet of an ACK with this Via on top that goes on, to the address that its dialog holds, without a transaction (RFC 3261
/// 16.11, 17). `AllocError` is the only refusal.
pub(crate) fn ack_packet(
    alloc: Global,
    server: &Server,
    arrival: Arrival,
    request: &View<'_>,
    via: &Via<'_>,
    address: Addr,
) -> Result<Packet, AllocError>
    requires via { top_via request.now ≡ Some via.now }
    ensures { IfOk result (λ packet. packet ≡ Effects.ack_packet server.now (arrival_of arrival) request.now address) }
{
    let bytes = onward_text(alloc, server, arrival, request, via)?;
    Ok(Packet {
        to: address,
        bytes,
        ticket: Ticket {
            datagram: arrival.number,
            branch: 0,
        },
        again: false,
    })
}
