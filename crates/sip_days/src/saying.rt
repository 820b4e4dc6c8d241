//! What a step says of calls: the Call-ID of an INVITE, the final answer to a caller, and the BYE that is sent on.
ghost use Rattle.std.specs.Prelude.{◌≡◌, ◌≢◌, [], Some, find, IfOk, OnOk};
ghost use Rattle.std.specs.List.{list_any};
ghost use Rattle.std.specs.Option.{option_and_then, option_copied, unwrap_or};
ghost use Rattle.std.specs.Result.{result_ok};
ghost use Rattle.sip_model.specs.FinalAnswers as Finals;
ghost use Rattle.sip_model.specs.steps_model.Step.{originals};
ghost use Rattle.sip_dialog.specs.DialogId.{id_of};
ghost use Rattle.sip_header.specs.CoreFields as Cores;
ghost use Rattle.sip_header.specs.Parameters as Parameters;
ghost use Rattle.sip_message_form.specs.ViewStart.{start_seen};
ghost use Rattle.sip_message_form.specs.declared.error.ReadError.TheVariants.{NoMemory};
ghost use Rattle.sip_days.specs.Calls;
ghost use Rattle.sip_days.specs.Hearing;

use crate::call::{Answer, Ending};
use sip_dialog::{DialogId, is_same_dialog};
use sip_event::{Event, Packet, StepOut};
use sip_header::{CoreFields, HeaderError, core_of, tag_of};
use sip_message::{View, ViewError, ViewRefusal, ViewStart, view};
use sip_text::Bytes;
use std::alloc::{AllocError, Global};

/// The tag of From; it is empty where there is none.
fn from_tag<'v>(core: &CoreFields<'v>) -> &'v [u8]
    ensures { result.now ≡ unwrap_or (Parameters.tag_of core.now.from.parameters) [] }
{
    match tag_of(core.from.parameters()) {
        Some(tag) => tag,
        None => b"",
    }
}

/// The dialog that core fields name, if To has a tag.
fn dialog_by(alloc: Global, core: &CoreFields<'_>) -> Result<Option<DialogId>, AllocError>
    ensures { IfOk result (λ id. id ≡ id_of core.now) }
{
    let Some(to_tag) = tag_of(core.to.parameters()) else {
        return Ok(None);
    };
    let id = DialogId::of(alloc, core.call_id.as_slice(), from_tag(core), to_tag)?;
    Ok(Some(id))
}

/// The core fields of a message, if each stands there once and can be read.
fn core_read<'v>(alloc: Global, message: &'v View<'_>) -> Result<Option<CoreFields<'v>>, AllocError>
    ensures { IfOk result (λ core. core ≡ result_ok (Cores.core_of message.now)) }
{
    match core_of(alloc, message) {
        Ok(core) => Ok(Some(core)),
        Err(HeaderError::NoMemory) => Err(AllocError),
        Err(_) => Ok(None),
    }
}

/// The dialog that a message names, if its core fields are read and its To has a tag (RFC 3261 12).
fn dialog_in(alloc: Global, message: &View<'_>) -> Result<Option<DialogId>, AllocError>
    ensures { IfOk result (λ id. id ≡ Calls.dialog_in message.now) }
{
    match core_read(alloc, message)? {
        Some(core) => dialog_by(alloc, &core),
        None => Ok(None),
    }
}

/// The Call-ID of a message, if its core fields are read (RFC 3261 8.1.1.4).
fn call_id_said(alloc: Global, message: &View<'_>) -> Result<Option<Bytes>, AllocError>
    ensures { IfOk result (λ call_id. call_id ≡ Calls.call_id_said message.now) }
{
    match core_read(alloc, message)? {
        Some(core) => Ok(Some(Bytes::copy(alloc, core.call_id.as_slice())?)),
        None => Ok(None),
    }
}

/// Bytes say no whole message; want of memory alone is a refusal.
fn unread(error: &ViewError<'_>) -> Result<(), AllocError>
    ensures { OnOk result (error.now ≢ NoMemory) }
{
    match error.refusal() {
        ViewRefusal::NoMemory => Err(AllocError),
        ViewRefusal::ShortBody(_)
        | ViewRefusal::NotSip
        | ViewRefusal::BadField
        | ViewRefusal::TooLong
        | ViewRefusal::TooManyFields => Ok(()),
    }
}

/// The message that bytes say, if they say a whole one.
fn message_in<'a>(alloc: Global, bytes: &'a [u8]) -> Result<Option<View<'a>>, AllocError>
    ensures { IfOk result (λ message. message ≡ Calls.said bytes.now) }
{
    match view(alloc, bytes) {
        Ok(message) => Ok(Some(message)),
        Err(error) => {
            unread(&error)?;
            Ok(None)
        }
    }
}

/// The Call-ID of the message that bytes say.
fn call_id_of(alloc: Global, bytes: &[u8]) -> Result<Option<Bytes>, AllocError>
    ensures { IfOk result (λ call_id. call_id ≡ option_and_then Calls.call_id_said (Calls.said bytes.now)) }
{
    match message_in(alloc, bytes)? {
        Some(message) => call_id_said(alloc, &message),
        None => Ok(None),
    }
}

/// The Call-ID of the message that an event's datagram brought.
fn call_id_by(alloc: Global, event: &Event) -> Result<Option<Bytes>, AllocError>
    ensures { IfOk result (λ call_id. call_id ≡ Calls.call_id_in (Some event.now)) }
{
    match event {
        Event::Datagram { bytes, .. } => call_id_of(alloc, bytes.as_slice()),
        Event::Time { .. } => Ok(None),
        Event::Fault { .. } => Ok(None),
    }
}

/// The Call-ID of the message that the datagram of a step brought.
pub(crate) fn call_id_in(alloc: Global, event: &Option<Event>) -> Result<Option<Bytes>, AllocError>
    ensures { IfOk result (λ call_id. call_id ≡ Calls.call_id_in event.now) }
{
    match event {
        Some(event) => call_id_by(alloc, event),
        None => Ok(None),
    }
}

/// The answer that a message is, which was sent at a moment.
fn answer_said(alloc: Global, at: u64, message: &View<'_>) -> Result<Option<Answer>, AllocError>
    ensures { IfOk result (λ answer. answer ≡ Calls.answer_said at message.now) }
{
    match message.start() {
        ViewStart::Request { .. } => Ok(None),
        ViewStart::Status { code, .. } => Ok(Some(Answer {
            at,
            status: *code,
            dialog: dialog_in(alloc, message)?,
        })),
    }
}

/// Whether bytes begin as a final answer does.
fn begins_final(bytes: &[u8]) -> bool
    ensures { result ≡ Finals.begins_final bytes.now }
{
    bytes.starts_with(b"SIP/2.0 ") && !bytes.starts_with(b"SIP/2.0 1")
}

/// Whether a packet is a final answer to the caller whose request the datagram of a number brought.
fn is_final_to(number: u64, packet: &Packet) -> bool
    ensures { result ≡ Finals.is_final_to number packet.now }
{
    packet.ticket.datagram == number
        && packet.ticket.branch == 0
        && begins_final(packet.bytes.as_slice())
}

/// Whether a packet is a final answer to whoever asked.
fn is_final(packet: &Packet) -> bool
    ensures { result ≡ Hearing.is_final packet.now }
{
    packet.ticket.branch == 0 && begins_final(packet.bytes.as_slice())
}

/// Whether a final answer goes for the first time among packets.
fn any_answers(packets: &[Packet]) -> bool
    ensures { result ≡ list_any Hearing.is_final (originals packets.now) }
{
    for packet in packets {
        if !packet.again && is_final(packet) {
            return true;
        }
    }
    false
}

/// Whether a step sends a final answer for the first time.
pub(crate) fn answers(out: &StepOut) -> bool
    ensures { result ≡ list_any Hearing.is_final (originals out.now.packets) }
{
    any_answers(out.packets.as_slice())
}

/// The first final answer among packets that goes for the first time to the caller whose request the datagram of a number brought.
fn final_among(number: u64, packets: &[Packet]) -> Option<&Packet>
    ensures { option_copied result ≡ find (Finals.is_final_to number) (originals packets.now) }
{
    for packet in packets {
        if !packet.again && is_final_to(number, packet) {
            return Some(packet);
        }
    }
    None
}

/// The answer that bytes say, which were sent at a moment.
fn answer_in(alloc: Global, at: u64, bytes: &[u8]) -> Result<Option<Answer>, AllocError>
    ensures { IfOk result (λ answer. answer ≡ option_and_then (Calls.answer_said at) (Calls.said bytes.now)) }
{
    match message_in(alloc, bytes)? {
        Some(message) => answer_said(alloc, at, &message),
        None => Ok(None),
    }
}

/// The final answer that a step sends for the first time to the caller whose request the datagram of a number brought (RFC 3261 16.7).
pub(crate) fn answer_at(
    alloc: Global,
    number: u64,
    out: &StepOut,
) -> Result<Option<Answer>, AllocError>
    ensures { IfOk result (λ answer. answer ≡ Calls.answer_at number out.now) }
{
    match final_among(number, out.packets.as_slice()) {
        Some(packet) => answer_in(alloc, out.at, packet.bytes.as_slice()),
        None => Ok(None),
    }
}

/// Whether something goes to a target for the first time among packets.
fn any_goes_on(packets: &[Packet]) -> bool
    ensures { result ≡ list_any Calls.is_to_target (originals packets.now) }
{
    for packet in packets {
        if !packet.again && packet.ticket.branch > 0 {
            return true;
        }
    }
    false
}

/// Whether a step sends something to a target for the first time.
fn goes_on(out: &StepOut) -> bool
    ensures { result ≡ Calls.goes_on out.now }
{
    any_goes_on(out.packets.as_slice())
}

/// Whether a first line is a BYE's.
fn is_bye(start: &ViewStart<'_>) -> bool
    ensures { result ≡ Calls.is_bye (start_seen start.now) }
{
    match start {
        ViewStart::Request { method, .. } => *method == b"BYE".as_slice(),
        ViewStart::Status { .. } => false,
    }
}

/// The dialog that a message names, if it is a BYE.
fn bye_said(alloc: Global, message: &View<'_>) -> Result<Option<DialogId>, AllocError>
    ensures { IfOk result (λ id. id ≡ Calls.bye_said message.now) }
{
    if is_bye(message.start()) {
        dialog_in(alloc, message)
    } else {
        Ok(None)
    }
}

/// The dialog that bytes name, if they say a BYE.
fn bye_of(alloc: Global, bytes: &[u8]) -> Result<Option<DialogId>, AllocError>
    ensures { IfOk result (λ id. id ≡ option_and_then Calls.bye_said (Calls.said bytes.now)) }
{
    match message_in(alloc, bytes)? {
        Some(message) => bye_said(alloc, &message),
        None => Ok(None),
    }
}

/// The same, where a step sends something on.
fn bye_if(alloc: Global, out: &StepOut, bytes: &[u8]) -> Result<Option<DialogId>, AllocError>
    ensures { IfOk result (λ id. id ≡ Calls.bye_if out.now bytes.now) }
{
    if goes_on(out) {
        bye_of(alloc, bytes)
    } else {
        Ok(None)
    }
}

/// The dialog that a BYE names which an event brings, where its step sends something on.
fn bye_by(alloc: Global, event: &Event, out: &StepOut) -> Result<Option<DialogId>, AllocError>
    ensures { IfOk result (λ id. id ≡ Calls.bye_by out.now (Some event.now)) }
{
    match event {
        Event::Datagram { bytes, .. } => bye_if(alloc, out, bytes.as_slice()),
        Event::Time { .. } => Ok(None),
        Event::Fault { .. } => Ok(None),
    }
}

/// The dialog that a BYE names which a step brings and sends on (RFC 3261 15).
pub(crate) fn bye_in(
    alloc: Global,
    event: &Option<Event>,
    out: &StepOut,
) -> Result<Option<DialogId>, AllocError>
    ensures { IfOk result (λ id. id ≡ Calls.bye_by out.now event.now) }
{
    match event {
        Some(event) => bye_by(alloc, event, out),
        None => Ok(None),
    }
}

/// The end that a BYE of a dialog, which came at a moment, is to another dialog: it has to be the same one.
pub(crate) fn ending_for(id: &DialogId, at: u64, bye: &DialogId) -> Option<Ending>
    ensures { result ≡ Calls.ending_for id.now at bye.now }
{
    if !is_same_dialog(id, bye) {
        return None;
    }
    Some(Ending {
        at,
        by_caller: id.from_tag.get().as_slice() == bye.from_tag.get().as_slice(),
    })
}
