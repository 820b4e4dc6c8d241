ghost use Rattle.std.specs.Prelude.{◌≡◌, ◌≤◌, ◌+◌, ◌++◌, drop, length};
ghost use Rattle.sip_replay_print.specs.Print;

use sip_event::Packet;
use sip_replay_script::{put_addr, put_byte, put_number, put_word};

/// The word of a packet that is sent for the first time, or again.
fn mark_of(again: bool) -> &'static [u8]
    ensures word { result.now ≡ Print.mark_of again }
    ensures size { length result.now ≡ 6 }
{
    if again { b" again" } else { b" first" }
}

/// Puts what stands behind the address in front of a place: the ticket, the mark, the length and LF; where it begins.
#[inline(always)]
fn put_tail(room: &mut [u8], end: usize, packet: &Packet) -> usize
    requires { (70 ≤ end) × (end ≤ length room.old) }
    ensures text { drop result room.new ≡ Print.tail_text packet.now ++ drop end room.old }
    ensures within { (result ≤ end) × (end ≤ result + 70) }
    ensures len { length room.new ≡ length room.old }
{
    let start = put_byte(room, end, b'\n');
    let start = put_number(room, start, packet.bytes.as_slice().len() as u64);
    let start = put_byte(room, start, b' ');
    let start = put_word(room, start, mark_of(packet.again));
    let start = put_number(room, start, u64::from(packet.ticket.branch));
    let start = put_byte(room, start, b'/');
    let start = put_number(room, start, packet.ticket.datagram);
    put_byte(room, start, b' ')
}

/// Puts the line before a packet's bytes in front of a place, AT being the moment of its step in milliseconds; where it begins.
#[inline(always)]
pub(crate) fn put_head(room: &mut [u8], end: usize, at: u64, packet: &Packet) -> usize
    requires { (208 ≤ end) × (end ≤ length room.old) }
    ensures text { drop result room.new ≡ Print.head_text at packet.now ++ drop end room.old }
    ensures within { result ≤ end }
    ensures len { length room.new ≡ length room.old }
{
    let start = put_tail(room, end, packet);
    let start = put_addr(room, start, packet.to);
    let start = put_byte(room, start, b' ');
    let start = put_number(room, start, at);
    put_word(room, start, b"packet ")
}
