use sip_config_change::FrameKey;
use sip_text::{Bytes, Items};
use sip_uri::Addr;

/// What becomes of an address that has a name.
#[derive(Clone, Copy)]
pub enum Move {
    Comes(Addr),
    Goes(Addr),
    Moves { from: Addr, to: Addr },
}

/// What becomes of a rule, by what it says.
#[derive(Drop)]
pub enum Revision {
    /// It comes behind the rule of a number, or first.
    Comes { behind: Option<u32>, text: Bytes },
    Goes(Bytes),
    Says { before: Bytes, now: Bytes },
}

/// A digest of a user, by its key in the file.
#[derive(Clone, Copy)]
pub enum DigestKey {
    A1,
    A1Sha256,
}

/// One thing in which two configurations differ.
#[derive(Drop)]
pub enum Difference {
    /// A key of the frame, which may not change while a server runs.
    Frame(FrameKey),
    /// The port that is bound, which can't change while it runs.
    BoundPort {
        before: u16,
        now: u16,
    },
    Offset {
        before: i16,
        now: i16,
    },
    /// A user of this name comes.
    UserComes(Bytes),
    UserGoes(Bytes),
    /// A user has another digest, or has one now, or has none any more.
    Digest {
        user: Bytes,
        key: DigestKey,
    },
    /// A user is in a group now.
    Joins {
        user: Bytes,
        group: Bytes,
    },
    Leaves {
        user: Bytes,
        group: Bytes,
    },
    Hop {
        name: Bytes,
        change: Move,
    },
    /// The address of a host with a port.
    Host {
        host: Bytes,
        port: u16,
        change: Move,
    },
    Rule {
        id: u32,
        revision: Revision,
    },
    /// The rule of this number is for other requests than the one before.
    NumberAgain(u32),
    /// The rules that stay are in another order now: this one.
    Order(Items<u32>),
}
