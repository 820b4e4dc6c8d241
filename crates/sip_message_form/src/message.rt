use sip_message_fields::Fields;
use sip_message_fields::text::Bytes;

/// The first line of a message: a request line (RFC 3261 7.1) or a status line (7.2), of which the version is
/// always SIP/2.0.
#[derive(Clone)]
pub enum Start {
    Request {
        method: Bytes,
        uri: Bytes,
        version: Bytes,
    },
    Status {
        code: u16,
        reason: Bytes,
    },
}

/// Written out, so that it is proved once and not wherever a message is dropped.
impl Drop for Start {
    fn drop(self) {
        match self {
            Start::Request {
                method: _,
                uri: _,
                version: _,
            } => {}
            Start::Status { code: _, reason: _ } => {}
        }
    }
}

/// A message: its first line, its fields without Content-Length, which the written form gives anew, and its body
/// (RFC 3261 7).
#[derive(Clone, Drop)]
pub struct Message {
    pub start: Start,
    pub fields: Fields,
    pub body: Bytes,
}
