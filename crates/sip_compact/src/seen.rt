//! What a message says that tells whether it matters.
use sip_text::same_bytes;
use sip_uri::Aor;

/// What a message is about, by the method of its CSeq.
#[derive(Clone, Copy)]
pub(crate) enum Method {
    Register,
    Invite,
    Ack,
    Bye,
    Cancel,
    Other,
}

impl Method {
    /// The one of a name.
    pub(crate) fn of(name: &[u8]) -> Self {
        if same_bytes(name, b"REGISTER") {
            return Method::Register;
        }
        if same_bytes(name, b"INVITE") {
            return Method::Invite;
        }
        if same_bytes(name, b"ACK") {
            return Method::Ack;
        }
        if same_bytes(name, b"BYE") {
            return Method::Bye;
        }
        if same_bytes(name, b"CANCEL") {
            return Method::Cancel;
        }
        Method::Other
    }

    /// A byte that tells it from the others.
    pub(crate) fn mark(self) -> u8 {
        match self {
            Method::Register => b'R',
            Method::Invite => b'I',
            Method::Ack => b'A',
            Method::Bye => b'B',
            Method::Cancel => b'C',
            Method::Other => b'O',
        }
    }
}

/// What a contact asks of the registrar.
#[derive(Clone, Copy)]
pub(crate) enum Asks {
    /// Nothing: no contact stands there.
    Nothing,
    /// To be bound for so many milliseconds; 0 where it is to go.
    Lasts(u64),
    /// That all contacts go.
    AllGo,
}

/// What a message says that tells whether it matters.
pub(crate) struct SeenMessage {
    /// None of a request.
    pub status: Option<u16>,
    pub method: Method,
    pub call_id: Vec<u8>,
    /// The number of its CSeq.
    pub sequence: u32,
    pub has_to_tag: bool,
    /// The word that the nonce of its credential names.
    pub nonce: Option<u128>,
    /// The address of record that a request is for.
    pub target: Option<Aor>,
    pub asks: Asks,
    /// Its contacts and recorded routes.
    pub lesson: Vec<u8>,
}

/// Written out, so that it is proved once and not wherever one is dropped.
impl Drop for SeenMessage {
    fn drop(self) {
        let SeenMessage {
            status: _,
            method: _,
            call_id: _,
            sequence: _,
            has_to_tag: _,
            nonce: _,
            target: _,
            asks: _,
            lesson: _,
        } = self;
    }
}
