//! What a replay prints of a step: each packet with its head line, then each record as its audit line.
ghost use Rattle.std.specs.Prelude.{◌≡◌, ◌≤◌, drop, length, IfErr, OnOk, OnErr};
ghost use Rattle.std.specs.List.{flat_map};
ghost use Rattle.std.specs.Io.KnownBytes.{Appends};
ghost use Rattle.sip_replay_script.specs.Devices.{GaveUp, WritesFront};
ghost use Rattle.sip_replay_print.specs.Print;
ghost use Rattle.sip_replay_print.specs.Stops.{PrintStops};

use crate::packet_head::put_head;
use crate::writing::{put_one, put_three};
use sip_audit::{Record, line_of};
use sip_event::{Packet, StepOut};
use sip_replay_script::{PrintStop, TellingWriter, put_byte, put_word};
use std::alloc::Global;

/// A packet of at most so many bytes is written at once.
const AT_ONCE: usize = 1024;

/// How many bytes the text of such a packet takes at most, rounded up: its head line (208), its bytes, and LF.
const ROOM: usize = 1280;

/// The room in which the texts of packets are put together, one after another, so that it is made once.
#[derive(Drop)]
pub struct PrintRoom {
    bytes: [u8; ROOM],
}

impl PrintRoom {
    /// The room. Takes no memory.
    pub fn new() -> Self {
        PrintRoom { bytes: [0; ROOM] }
    }
}

/// Puts a packet's text together at the end of the room: its head line, its bytes, and LF; where it begins.
#[inline(always)]
fn put_packet(room: &mut [u8; ROOM], at: u64, packet: &Packet) -> usize
    requires { length packet.now.bytes ≤ AT_ONCE }
    ensures text { drop result room.new ≡ Print.packet_text at packet.now }
    ensures within { result ≤ ROOM }
{
    let end = put_byte(room, ROOM, b'\n');
    let start = put_word(room, end, packet.bytes.as_slice());
    put_head(room, start, at, packet)
}

/// What stands in the room from a place on.
#[inline(always)]
fn text_from(room: &[u8; ROOM], start: usize) -> &[u8]
    requires { start ≤ ROOM }
    ensures { result.now ≡ drop start room.now }
{
    &room[start..]
}

/// Prints a packet of more bytes than are written at once. It stands apart, since few packets are so long.
#[inline(never)]
fn print_long<W: TellingWriter>(
    writer: &mut W,
    room: &mut [u8; ROOM],
    at: u64,
    packet: &Packet,
) -> Result<(), PrintStop>
    ensures ok { OnOk result (Appends (W.contents writer.old) (W.contents writer.new) (Print.packet_text at packet.now)) }
    ensures front { OnErr result (WritesFront (W.contents writer.old) (W.contents writer.new) (Print.packet_text at packet.now)) }
    ensures stopped { IfErr result (PrintStops (GaveUp (W.has_failed writer.new) (W.called writer.new))) }
{
    let start = put_head(room, ROOM, at, packet);
    put_three(
        writer,
        text_from(room, start),
        packet.bytes.as_slice(),
        b"\n",
    )
}

/// Prints a packet: its head line, its bytes, and LF.
#[inline(always)]
fn print_packet<W: TellingWriter>(
    writer: &mut W,
    room: &mut [u8; ROOM],
    at: u64,
    packet: &Packet,
) -> Result<(), PrintStop>
    ensures ok { OnOk result (Appends (W.contents writer.old) (W.contents writer.new) (Print.packet_text at packet.now)) }
    ensures front { OnErr result (WritesFront (W.contents writer.old) (W.contents writer.new) (Print.packet_text at packet.now)) }
    ensures stopped { IfErr result (PrintStops (GaveUp (W.has_failed writer.new) (W.called writer.new))) }
{
    if packet.bytes.as_slice().len() > AT_ONCE {
        return print_long(writer, room, at, packet);
    }
    let start = put_packet(room, at, packet);
    put_one(writer, text_from(room, start))
}

/// Prints packets, in order.
#[tactic(auto, using(sip_replay_script::proofs::Written::appends_nothing))]
fn print_packets<W: TellingWriter>(
    writer: &mut W,
    room: &mut [u8; ROOM],
    at: u64,
    packets: &[Packet],
) -> Result<(), PrintStop>
    ensures ok { OnOk result (Appends (W.contents writer.old) (W.contents writer.new) (flat_map (Print.packet_text at) packets.now)) }
    ensures front { OnErr result (WritesFront (W.contents writer.old) (W.contents writer.new) (flat_map (Print.packet_text at) packets.now)) }
    ensures stopped { IfErr result (PrintStops (GaveUp (W.has_failed writer.new) (W.called writer.new))) }
{
    for packet in packets {
        print_packet(writer, room, at, packet)?;
    }
    Ok(())
}

/// Prints a record: `audit`, its line, and LF.
#[tactic(auto, using(sip_replay_script::proofs::Fronts::front_none))]
fn print_record<W: TellingWriter>(
    alloc: Global,
    writer: &mut W,
    record: &Record,
) -> Result<(), PrintStop>
    ensures ok { OnOk result (Appends (W.contents writer.old) (W.contents writer.new) (Print.audit_text «record».now)) }
    ensures front { OnErr result (WritesFront (W.contents writer.old) (W.contents writer.new) (Print.audit_text «record».now)) }
    ensures stopped { IfErr result (PrintStops (GaveUp (W.has_failed writer.new) (W.called writer.new))) }
{
    let line = match line_of(alloc, record) {
        Ok(line) => line,
        Err(_) => return Err(PrintStop::NoMemory),
    };
    put_three(writer, b"audit ", line.as_slice(), b"\n")
}

/// Prints records, in order.
#[tactic(auto, using(sip_replay_script::proofs::Written::appends_nothing))]
fn print_records<W: TellingWriter>(
    alloc: Global,
    writer: &mut W,
    records: &[Record],
) -> Result<(), PrintStop>
    ensures ok { OnOk result (Appends (W.contents writer.old) (W.contents writer.new) (flat_map Print.audit_text records.now)) }
    ensures front { OnErr result (WritesFront (W.contents writer.old) (W.contents writer.new) (flat_map Print.audit_text records.now)) }
    ensures stopped { IfErr result (PrintStops (GaveUp (W.has_failed writer.new) (W.called writer.new))) }
{
    for record in records {
        print_record(alloc, writer, record)?;
    }
    Ok(())
}

/// Prints a step: its packets, in order, then its records. A packet of at most 1,024 bytes is put together in the room, and
/// written at once.
#[tactic(auto, using(sip_replay_script::proofs::Written::appends_both))]
pub fn print_step<W: TellingWriter>(
    alloc: Global,
    writer: &mut W,
    room: &mut PrintRoom,
    out: &StepOut,
) -> Result<(), PrintStop>
    ensures ok { OnOk result (Appends (W.contents writer.old) (W.contents writer.new) (Print.step_text out.now)) }
    ensures front { OnErr result (WritesFront (W.contents writer.old) (W.contents writer.new) (Print.step_text out.now)) }
    ensures stopped { IfErr result (PrintStops (GaveUp (W.has_failed writer.new) (W.called writer.new))) }
{
    print_packets(writer, &mut room.bytes, out.at, out.packets.as_slice())?;
    print_records(alloc, writer, out.records.as_slice())
}
