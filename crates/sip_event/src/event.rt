use crate::packet::{Packet, Ticket};
use sip_audit::Record;
use sip_text::{Bytes, Items};
use sip_uri::Addr;

/// What a server starts with: the word that its branches and To tags begin with, the number of its first
/// datagram, and what its maps of keys that peers choose are hashed with.
#[derive(Clone, Copy)]
pub struct Boot {
    pub word: u64,
    pub first: u64,
    /// No definition reads it: what a server does is the same with any.
    pub keys: u128,
}

/// What happens to a server, at a moment in milliseconds.
pub enum Event {
    /// A datagram came from an address. The word makes the nonce of a challenge.
    Datagram {
        at: u64,
        word: u128,
        from: Addr,
        bytes: Bytes,
    },
    /// Time passed up to this moment.
    Time {
        at: u64,
    },
    /// The packet of this ticket could not be sent.
    Fault {
        at: u64,
        ticket: Ticket,
    },
}

/// Written out, so that it is proved once and not wherever one is dropped.
impl Drop for Event {
    fn drop(self) {
        match self {
            Event::Datagram {
                at: _,
                word: _,
                from: _,
                bytes: _,
            } => {}
            Event::Time { at: _ } => {}
            Event::Fault { at: _, ticket: _ } => {}
        }
    }
}

/// What a step puts out: the moment at which it stood, in milliseconds, its packets, in the order in
/// which they are to be sent, and its records.
pub struct StepOut {
    pub at: u64,
    pub packets: Items<Packet>,
    pub records: Items<Record>,
}

/// Written out, so that it is proved once and not wherever one is dropped.
impl Drop for StepOut {
    fn drop(self) {
        let StepOut {
            at: _,
            packets: _,
            records: _,
        } = self;
    }
}
