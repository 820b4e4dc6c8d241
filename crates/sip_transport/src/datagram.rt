use sip_text::Bytes;
use sip_uri::Addr;

/// The most bytes of a datagram that is heard: one more than the longest one over IPv4 has, so that a longer one is seen to be too
/// long.
pub(crate) const MOST_BYTES: usize = 65_508;

/// A `receive` that failed.
#[derive(Clone, Copy, Debug, PartialEq, Eq)]
pub struct LinkFault;

/// Whether a datagram that was given to a link went out.
#[derive(Clone, Copy, Debug, PartialEq, Eq)]
pub enum SendOutcome {
    Went,
    Failed,
}

/// What becomes of the receive that heard a datagram which is set aside.
#[derive(Clone, Copy)]
pub enum Instead {
    /// It counts as none, since the link is asked again for it.
    AskedAgain,
    /// It counts as one that heard nothing.
    HeardNothing,
}

/// A datagram that a link heard.
#[derive(Drop)]
pub struct HeardDatagram {
    pub from: Addr,
    pub bytes: Bytes,
}

/// A datagram that a link was given, and whether it went out.
#[derive(Drop)]
pub struct Given {
    pub to: Addr,
    pub bytes: Bytes,
    pub sending: SendOutcome,
}
