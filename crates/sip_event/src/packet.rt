use sip_text::Bytes;
use sip_uri::Addr;

/// To which request a packet belongs: the number of the datagram that brought the request, and the
/// number of the branch, from 1; 0 names a packet that isn't a branch's request.
#[derive(Clone, Copy, PartialEq, Eq)]
pub struct Ticket {
    pub datagram: u64,
    pub branch: u32,
}

/// A datagram that is handed out, to be sent to an address.
pub struct Packet {
    pub to: Addr,
    pub bytes: Bytes,
    pub ticket: Ticket,
    /// Whether it is a retransmission.
    pub again: bool,
}

/// Written out, so that it is proved once and not wherever one is dropped.
impl Drop for Packet {
    fn drop(self) {
        let Packet {
            to: _,
            bytes: _,
            ticket: _,
            again: _,
        } = self;
    }
}
