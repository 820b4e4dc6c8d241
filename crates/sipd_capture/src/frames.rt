//! What came and went in a step.
ghost use Rattle.std.specs.Prelude.{◌≡◌, ◌≢◌, ◌++◌, IfOk, OnOk};
ghost use Rattle.std.specs.List.{flat_map};
ghost use Rattle.std.specs.Option.{option_and_then};
ghost use Rattle.std.specs.Result.{result_ok};
ghost use Rattle.sip_header.specs.CoreFields as Cores;
ghost use Rattle.sip_message.specs.Reading.{reading_of};
ghost use Rattle.sip_message_form.specs.declared.error.ReadError.TheVariants.{NoMemory};
ghost use Rattle.sipd_capture.specs.Frames as Definitions;
ghost use Rattle.sipd_capture.specs.Headers.{file_head, frame};

use crate::choice::CaptureChoice;
use crate::headers::{push_file_head, push_frame};
use crate::hiding::hidden;
use sip_config_types::Config;
use sip_event::{Event, Packet, StepOut};
use sip_header::{CoreFields, HeaderError, core_of};
use sip_message::{View, ViewError, ViewRefusal, view};
use sip_text::{Bytes, same_bytes};
use sip_uri::Addr;
use std::alloc::{AllocError, Global};

/// The core fields of a message, if each stands there once and can be read.
fn core_read<'v>(alloc: Global, message: &'v View<'_>) -> Result<Option<CoreFields<'v>>, AllocError>
    ensures { IfOk result (λ core. core ≡ result_ok (Cores.core_of message.now)) }
{
    match core_of(alloc, message) {
        Ok(core) => Ok(Some(core)),
        Err(HeaderError::NoMemory) => Err(AllocError),
        Err(_) => Ok(None),
    }
}

fn call_id_of(alloc: Global, message: &View<'_>) -> Result<Option<Bytes>, AllocError>
    ensures { IfOk result (λ call_id. call_id ≡ Definitions.call_id_of message.now) }
{
    match core_read(alloc, message)? {
        Some(core) => Ok(Some(Bytes::copy(alloc, core.call_id.as_slice())?)),
        None => Ok(None),
    }
}

/// Bytes say no whole message; want of memory alone is a refusal.
fn unread(error: &ViewError<'_>) -> Result<(), AllocError>
    ensures { OnOk result (error.now ≢ NoMemory) }
{
    match error.refusal() {
        ViewRefusal::NoMemory => Err(AllocError),
        ViewRefusal::ShortBody(_)
        | ViewRefusal::NotSip
        | ViewRefusal::BadField
        | ViewRefusal::TooLong
        | ViewRefusal::TooManyFields => Ok(()),
    }
}

/// The message that bytes say, if they say a whole one.
fn message_in<'a>(alloc: Global, bytes: &'a [u8]) -> Result<Option<View<'a>>, AllocError>
    ensures { IfOk result (λ message. message ≡ result_ok (reading_of bytes.now)) }
{
    match view(alloc, bytes) {
        Ok(message) => Ok(Some(message)),
        Err(error) => {
            unread(&error)?;
            Ok(None)
        }
    }
}

/// The Call-ID of the message that bytes say (RFC 3261 8.1.1.4), if they say one whose From, To, Call-ID and CSeq are read. `AllocError` is the
/// only refusal.
pub fn call_id_in(alloc: Global, bytes: &[u8]) -> Result<Option<Bytes>, AllocError>
    ensures { IfOk result (λ call_id. call_id ≡ Definitions.call_id_in bytes.now) }
{
    match message_in(alloc, bytes)? {
        Some(message) => call_id_of(alloc, &message),
        None => Ok(None),
    }
}

fn is_call(wanted: &[u8], call_id: &Option<Bytes>) -> bool
    ensures { result ≡ Definitions.is_call wanted.now call_id.now }
{
    match call_id {
        Some(call_id) => same_bytes(call_id.as_slice(), wanted),
        None => false,
    }
}

/// Whether bytes are of the call that is wanted.
fn is_of_call(alloc: Global, wanted: &[u8], bytes: &[u8]) -> Result<bool, AllocError>
    ensures { IfOk result (λ is. is ≡ Definitions.is_call wanted.now (Definitions.call_id_in bytes.now)) }
{
    let call_id = call_id_in(alloc, bytes)?;
    Ok(is_call(wanted, &call_id))
}

/// The same, or whether any is.
fn is_of(alloc: Global, wanted: &Option<Bytes>, bytes: &[u8]) -> Result<bool, AllocError>
    ensures { IfOk result (λ is. is ≡ Definitions.is_of wanted.now bytes.now) }
{
    match wanted {
        Some(wanted) => is_of_call(alloc, wanted.as_slice(), bytes),
        None => Ok(true),
    }
}

fn fits(bytes: &[u8]) -> bool
    ensures { result ≡ Definitions.fits bytes.now }
{
    bytes.len() <= 65_507
}

/// Adds a datagram of a moment, as it is shown.
fn push_shown(
    alloc: Global,
    out: &mut Bytes,
    hide: bool,
    at: u64,
    from: Addr,
    to: Addr,
    bytes: &[u8],
) -> Result<(), AllocError>
    ensures { OnOk result (out.new ≡ out.old ++ frame at from to (Definitions.shown hide bytes.now)) }
{
    if !hide {
        return push_frame(out, at, from, to, bytes);
    }
    let text = hidden(alloc, bytes)?;
    push_frame(out, at, from, to, text.as_slice())
}

/// Adds one, if it is wanted.
fn push_datagram(
    alloc: Global,
    out: &mut Bytes,
    choice: &CaptureChoice,
    at: u64,
    from: Addr,
    to: Addr,
    bytes: &[u8],
) -> Result<(), AllocError>
    ensures { OnOk result (out.new ≡ out.old ++ Definitions.datagram choice.now at from to bytes.now) }
{
    if !fits(bytes) {
        return Ok(());
    }
    if !is_of(alloc, &choice.call_id, bytes)? {
        return Ok(());
    }
    push_shown(alloc, out, choice.hide, at, from, to, bytes)
}

/// The address at which a server of a configuration is served.
fn own_addr(config: &Config) -> Addr
    ensures { result ≡ Definitions.own_addr config.now }
{
    Addr {
        ip: config.own.ip,
        port: config.bound_port,
    }
}

/// Adds the datagram that a step brought, if one did.
fn push_came(
    alloc: Global,
    out: &mut Bytes,
    choice: &CaptureChoice,
    own: Addr,
    at: u64,
    event: &Option<Event>,
) -> Result<(), AllocError>
    ensures { OnOk result (out.new ≡ out.old ++ Definitions.came choice.now own at event.now) }
{
    match event {
        Some(Event::Datagram { from, bytes, .. }) => {
            push_datagram(alloc, out, choice, at, *from, own, bytes.as_slice())
        }
        _ => Ok(()),
    }
}

fn push_went(
    alloc: Global,
    out: &mut Bytes,
    choice: &CaptureChoice,
    own: Addr,
    at: u64,
    packet: &Packet,
) -> Result<(), AllocError>
    ensures { OnOk result (out.new ≡ out.old ++ Definitions.went choice.now own at packet.now) }
{
    push_datagram(
        alloc,
        out,
        choice,
        at,
        own,
        packet.to,
        packet.bytes.as_slice(),
    )
}

/// Adds the packets of a step.
fn push_all(
    alloc: Global,
    out: &mut Bytes,
    choice: &CaptureChoice,
    own: Addr,
    at: u64,
    packets: &[Packet],
) -> Result<(), AllocError>
    ensures { OnOk result (out.new ≡ out.old ++ flat_map (Definitions.went choice.now own at) packets.now) }
{
    for packet in packets {
        push_went(alloc, out, choice, own, at, packet)?;
    }
    Ok(())
}

/// What came and went in a step under a configuration: the datagram that its event brought, then its packets, in their order, each at its moment;
/// of these those that are wanted, and none that is longer than 65,507 bytes. `AllocError` is the only refusal.
pub fn frames_of(
    alloc: Global,
    choice: &CaptureChoice,
    config: &Config,
    event: &Option<Event>,
    out: &StepOut,
) -> Result<Bytes, AllocError>
    ensures { IfOk result (λ frames. frames ≡ Definitions.frames_of choice.now config.now event.now out.now) }
{
    let own = own_addr(config);
    let mut frames = Bytes::new(alloc);
    push_came(alloc, &mut frames, choice, own, out.at, event)?;
    push_all(
        alloc,
        &mut frames,
        choice,
        own,
        out.at,
        out.packets.as_slice(),
    )?;
    Ok(frames)
}

/// What a capture begins with. `AllocError` is the only refusal.
pub fn head_of(alloc: Global) -> Result<Bytes, AllocError>
    ensures { IfOk result (λ head. head ≡ file_head) }
{
    let mut head = Bytes::new(alloc);
    push_file_head(&mut head)?;
    Ok(head)
}
