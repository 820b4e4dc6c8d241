ghost use Rattle.std.specs.Prelude.{◌<◌, ◌^◌};
ghost use Rattle.hex.specs.Hex.{IsBytes};
ghost use Rattle.sip_event.specs.declared.event.Event.TheVariants.{Datagram, Fault};
ghost use Rattle.sip_replay_script.specs.EventText.{HasTypes, IsAddr};

use sip_event::Ticket;
use sip_uri::Addr;

/// Each byte is below 256.
fn are_bytes(bytes: &[u8])
    ensures { IsBytes bytes.now }
{}

/// A port is below 2^16.
fn is_port(port: u16)
    ensures { port < 2 ^ 16 }
{}

/// A number of 64 bits is below 2^64.
fn is_number(number: u64)
    ensures { number < 2 ^ 64 }
{}

/// A branch's number is below 2^32.
fn is_branch(branch: u32)
    ensures { branch < 2 ^ 32 }
{}

/// An address has four bytes and a port.
fn is_addr(addr: Addr)
    ensures { IsAddr addr }
{
    are_bytes(&addr.ip);
    is_port(addr.port);
}

/// The numbers of a datagram go as their types say.
pub(crate) fn datagram_has_types(at: u64, word: u128, from: Addr, bytes: &[u8])
    ensures { HasTypes (Datagram at word from bytes.now) }
{
    is_addr(from);
    are_bytes(bytes);
}

/// And so do those of a fault.
pub(crate) fn fault_has_types(at: u64, ticket: Ticket)
    ensures { HasTypes (Fault at ticket) }
{
    is_number(ticket.datagram);
    is_branch(ticket.branch);
}
