//! How a recorder writes an event, and which events no script says. The words of the lines are in `sip_replay_script`.
ghost use Rattle.std.specs.Prelude.{◌≡◌, ◌≢◌, ◌≤◌, ℕ, [], length, true, false, OnOk, OnErr};
ghost use Rattle.std.specs.Io.KnownBytes.{Appends};
ghost use Rattle.sip_event.specs.declared.event.Event.TheVariants.{Datagram, Time, Fault};
ghost use Rattle.sip_replay_script.specs.Devices.{GaveUp, WritesFront};
ghost use Rattle.sip_replay_script.specs.EventText.{datagram_text, event_text, is_moment, is_sayable};
ghost use Rattle.sip_journal.specs.Recorder.{CantWrite, WritesEvent};

use crate::line_room::LineRoom;
use sip_event::Ticket;
use sip_replay_script::{
    PrintStop, TellingWriter, empty_text, fault_text, hand_on, put, text_front, time_text,
};
use sip_uri::Addr;

/// The first moment that no script says, in milliseconds.
const TOO_LARGE: u64 = 0x4000_0000_0000_0000;

/// The most bytes of a datagram that a script says.
const LONGEST: usize = 65_508;

/// Writes a text whole, and has it handed on.
#[tactic(auto, using(sip_replay_script::proofs::Fronts::appends_kept, sip_replay_script::proofs::Fronts::front_all, sip_replay_script::proofs::Fronts::front_still))]
pub(crate) fn write<W: TellingWriter>(writer: &mut W, text: &[u8]) -> Result<(), PrintStop>
    ensures text { OnOk result (Appends (W.contents writer.old) (W.contents writer.new) text.now) }
    ensures handed_on { OnOk result (W.is_flushed writer.new) }
    ensures gave_up { OnErr result (GaveUp (W.has_failed writer.new) (W.called writer.new)) }
    ensures part { WritesFront (W.contents writer.old) (W.contents writer.new) text.now }
{
    put(writer, text)?;
    hand_on(writer)
}

/// Whether a script says a moment.
fn is_moment(at: u64) -> bool
    ensures { result ≡ is_moment at }
{
    at < TOO_LARGE
}

/// Whether a script says such a datagram.
fn is_sayable(at: u64, from: Addr, bytes: &[u8]) -> bool
    ensures { (word : ℕ) → result ≡ is_sayable (Datagram at word from bytes.now) }
{
    is_moment(at) && from.port != 0 && bytes.len() <= LONGEST
}

/// Writes a datagram without bytes; whether it did.
fn write_empty<W: TellingWriter>(writer: &mut W, at: u64, word: u128, from: Addr) -> bool
    ensures text { result ≡ true → Appends (W.contents writer.old) (W.contents writer.new) (datagram_text at word from []) }
    ensures handed_on { result ≡ true → W.is_flushed writer.new }
    ensures gave_up { result ≡ false → GaveUp (W.has_failed writer.new) (W.called writer.new) }
    ensures part { WritesFront (W.contents writer.old) (W.contents writer.new) (datagram_text at word from []) }
{
    write(writer, empty_text(at, word, from).as_slice()).is_ok()
}

/// Writes a datagram that has bytes; whether it did.
fn write_bytes<W: TellingWriter>(
    writer: &mut W,
    line: &mut LineRoom,
    at: u64,
    word: u128,
    from: Addr,
    bytes: &[u8],
) -> bool
    requires some { bytes.now ≢ [] }
    requires few { length bytes.now ≤ LONGEST }
    ensures text { result ≡ true → Appends (W.contents writer.old) (W.contents writer.new) (datagram_text at word from bytes.now) }
    ensures handed_on { result ≡ true → W.is_flushed writer.new }
    ensures gave_up { result ≡ false → GaveUp (W.has_failed writer.new) (W.called writer.new) }
    ensures part { WritesFront (W.contents writer.old) (W.contents writer.new) (datagram_text at word from bytes.now) }
{
    let front = text_front(at, word, from);
    let text = line.line(front.as_slice(), bytes);
    write(writer, text).is_ok()
}

/// Writes a datagram; whether it did.
pub(crate) fn write_datagram<W: TellingWriter>(
    writer: &mut W,
    line: &mut LineRoom,
    at: u64,
    word: u128,
    from: Addr,
    bytes: &[u8],
) -> bool
    ensures written { result ≡ true → WritesEvent (W.contents writer.old) (W.contents writer.new) (W.is_flushed writer.new) (Datagram at word from bytes.now) }
    ensures why { result ≡ false → CantWrite (GaveUp (W.has_failed writer.new) (W.called writer.new)) (Datagram at word from bytes.now) }
    ensures part { WritesFront (W.contents writer.old) (W.contents writer.new) (event_text (Datagram at word from bytes.now)) }
{
    if !is_sayable(at, from, bytes) {
        return false;
    }
    if bytes.is_empty() {
        return write_empty(writer, at, word, from);
    }
    write_bytes(writer, line, at, word, from, bytes)
}

/// Writes a moment; whether it did.
#[tactic(auto, using(sip_replay_script::proofs::Fronts::front_none))]
pub(crate) fn write_time<W: TellingWriter>(writer: &mut W, at: u64) -> bool
    ensures written { result ≡ true → WritesEvent (W.contents writer.old) (W.contents writer.new) (W.is_flushed writer.new) (Time at) }
    ensures why { result ≡ false → CantWrite (GaveUp (W.has_failed writer.new) (W.called writer.new)) (Time at) }
    ensures part { WritesFront (W.contents writer.old) (W.contents writer.new) (event_text (Time at)) }
{
    if !is_moment(at) {
        return false;
    }
    write(writer, time_text(at).as_slice()).is_ok()
}

/// Writes the fault of a packet; whether it did.
#[tactic(auto, using(sip_replay_script::proofs::Fronts::front_none))]
pub(crate) fn write_fault<W: TellingWriter>(writer: &mut W, at: u64, ticket: Ticket) -> bool
    ensures written { result ≡ true → WritesEvent (W.contents writer.old) (W.contents writer.new) (W.is_flushed writer.new) (Fault at ticket) }
    ensures why { result ≡ false → CantWrite (GaveUp (W.has_failed writer.new) (W.called writer.new)) (Fault at ticket) }
    ensures part { WritesFront (W.contents writer.old) (W.contents writer.new) (event_text (Fault at ticket)) }
{
    if !is_moment(at) {
        return false;
    }
    write(writer, fault_text(at, ticket).as_slice()).is_ok()
}
