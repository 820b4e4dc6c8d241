use sip_text::Bytes;
use sip_uri::Addr;

/// What stands in a line of the diagram.
#[derive(Drop)]
pub enum RungKind {
    /// A message came, for the first time or again: in a word, and whole.
    Came {
        from: Addr,
        again: bool,
        word: Bytes,
        bytes: Bytes,
    },
    /// What was decided, of whom, if somebody was proven; or what happened without a datagram.
    Noted {
        who: Option<Bytes>,
        text: Bytes,
    },
    /// A message went, for the first time or again.
    Went {
        to: Addr,
        again: bool,
        word: Bytes,
    },
}

/// How a day stood at a line of the diagram.
#[derive(Clone, Copy)]
pub struct RungPlace {
    /// How many minutes the office's clock was ahead of UTC.
    pub offset: i16,
    /// How many users had been proven.
    pub known: usize,
}

/// A line of the diagram, with its moment in milliseconds.
#[derive(Drop)]
pub struct Rung {
    pub at: u64,
    pub place: RungPlace,
    pub kind: RungKind,
}

/// A user who was proven by a datagram that came from an address.
#[derive(Drop)]
pub struct AddrName {
    pub addr: Addr,
    pub name: Bytes,
}
