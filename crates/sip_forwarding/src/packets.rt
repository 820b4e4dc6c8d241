//! In which order an event's packets go: ACKs, then answers to the caller, then CANCELs (this project's profile).
//! Their bytes are made in `sip_context`.
ghost use Rattle.std.specs.Prelude.{◌≡◌, ◌++◌, ◌∷◌, [], false, IfOk, OnOk};
ghost use Rattle.sip_message_form.specs.Text.{text_of};
ghost use Rattle.sip_context_branches.specs.context_model.Sending as Sendings;
ghost use Rattle.sip_context.specs.Sent.{change_of};
ghost use Rattle.model_steps.specs.Effect as Effects;
ghost use Rattle.sip_forwarding.specs.Moved.{emptied};

use model_steps::state::{OpenRequest, Upward};
use sip_context::{Sent, answer_to};
use sip_event::Packet;
use sip_text::{Bytes, Items};
use std::alloc::{AllocError, Global};
use std::mem::replace;

/// Adds a packet, whose bytes are taken out of its place.
fn move_packet(alloc: Global, out: &mut Items<Packet>, place: &mut Packet) -> Result<(), AllocError>
    ensures out { OnOk result (out.new ≡ out.old ++ place.old ∷ []) }
    ensures place { OnOk result (place.new ≡ emptied place.old) }
{
    let bytes = replace(&mut place.bytes, Bytes::new(alloc));
    out.push(Packet {
        to: place.to,
        bytes,
        ticket: place.ticket,
        again: place.again,
    })
}

/// Adds some packets in their order, whose bytes are taken out of their places.
fn move_packets(
    alloc: Global,
    out: &mut Items<Packet>,
    packets: &mut [Packet],
) -> Result<(), AllocError>
    ensures { OnOk result (out.new ≡ out.old ++ packets.old) }
{
    for place in packets.iter_mut() {
        move_packet(alloc, out, place)?;
    }
    Ok(())
}

/// Adds packets in their order, which are taken out of their list: as they stand where they are the first ones.
#[inline(never)]
fn put_all(
    alloc: Global,
    out: &mut Items<Packet>,
    packets: &mut Items<Packet>,
) -> Result<(), AllocError>
    ensures { OnOk result (out.new ≡ out.old ++ packets.old) }
{
    if out.as_slice().is_empty() {
        *out = replace(packets, Items::new(alloc));
        return Ok(());
    }
    move_packets(alloc, out, packets.as_mut_slice())
}

/// Adds packets in their order, which are taken out of their list, if there are some. `AllocError` is the only refusal.
#[inline(always)]
pub fn put_packets(
    alloc: Global,
    out: &mut Items<Packet>,
    packets: &mut Items<Packet>,
) -> Result<(), AllocError>
    ensures { OnOk result (out.new ≡ out.old ++ packets.old) }
{
    if packets.as_slice().is_empty() {
        return Ok(());
    }
    put_all(alloc, out, packets)
}

/// The packet of an answer that goes to the caller.
pub(crate) fn upward_packet(
    alloc: Global,
    request: &OpenRequest,
    up: &Upward,
) -> Result<Packet, AllocError>
    ensures { IfOk result (λ packet. packet ≡ Sendings.answer_to false request.now (text_of up.now.message)) }
{
    let text = Bytes::copy(alloc, up.message.text())?;
    Ok(answer_to(false, request, text))
}

/// Adds what goes to the caller of an open request, as packets in their order. `AllocError` is the only refusal.
pub(crate) fn upward_packets(
    alloc: Global,
    out: &mut Items<Packet>,
    request: &OpenRequest,
    upward: &[Upward],
) -> Result<(), AllocError>
    ensures { OnOk result (out.new ≡ out.old ++ Effects.upward_packets request.now upward.now) }
{
    for up in upward {
        out.push(upward_packet(alloc, request, up)?)?;
    }
    Ok(())
}

/// Adds what an event made an open request send. What goes to the caller stays, and so does what goes again.
pub(crate) fn put_change(
    alloc: Global,
    out: &mut Items<Packet>,
    request: &OpenRequest,
    sent: &mut Sent,
) -> Result<(), AllocError>
    ensures packets { OnOk result (out.new ≡ out.old ++ Effects.change_packets (change_of request.now sent.old)) }
    ensures upward { OnOk result (sent.new.upward ≡ sent.old.upward) }
    ensures copies { OnOk result (sent.new.copies ≡ sent.old.copies) }
{
    put_packets(alloc, out, &mut sent.acks)?;
    upward_packets(alloc, out, request, sent.upward.as_slice())?;
    put_packets(alloc, out, &mut sent.cancels)?;
    Ok(())
}

/// Adds what an event made an open request send, given the request after it: ACKs, then what goes to the caller, then
/// CANCELs (this project's profile). Gives what goes to the caller, of which dialogs learn. `AllocError` is the only
/// refusal.
pub(crate) fn change_packets(
    alloc: Global,
    out: &mut Items<Packet>,
    request: &OpenRequest,
    sent: Sent,
) -> Result<Items<Upward>, AllocError>
    ensures packets { OnOk result (out.new ≡ out.old ++ Effects.change_packets (change_of request.now sent)) }
    ensures upward { IfOk result (λ upward. upward ≡ sent.upward) }
{
    let mut sent = sent;
    put_change(alloc, out, request, &mut sent)?;
    Ok(sent.upward)
}
