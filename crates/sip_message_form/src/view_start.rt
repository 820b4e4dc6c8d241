//! The first line of a message as it is lent (RFC 3261 7.1, 7.2): of a view, and of a message that is kept.
//! A line is read as one in `sip_message`.
ghost use Rattle.std.specs.Prelude.{◌≡◌, IfOk};
ghost use Rattle.sip_message_form.specs.ViewStart.{start_seen};

use crate::message::Start;
use sip_message_fields::Value;
use sip_message_fields::text::Bytes;
use std::alloc::{AllocError, Global};

/// The first line of a view. A version that was written in lower case has bytes of its own.
pub enum ViewStart<'a> {
    Request {
        method: &'a [u8],
        uri: &'a [u8],
        version: Value<'a>,
    },
    Status {
        code: u16,
        reason: &'a [u8],
    },
}

/// Written out, so that it is proved once and not wherever a view is dropped.
impl<'a> Drop for ViewStart<'a> {
    fn drop(self) {
        match self {
            ViewStart::Request {
                method: _,
                uri: _,
                version: _,
            } => {}
            ViewStart::Status { code: _, reason: _ } => {}
        }
    }
}

/// The start line of a request, which owns its bytes.
fn request(alloc: Global, method: &[u8], uri: &[u8], version: &[u8]) -> Result<Start, AllocError>
    ensures { IfOk result (λ start. start ≡ Start.Request method.now uri.now version.now) }
{
    let method = Bytes::copy(alloc, method)?;
    let uri = Bytes::copy(alloc, uri)?;
    let version = Bytes::copy(alloc, version)?;
    Ok(Start::Request {
        method,
        uri,
        version,
    })
}

impl<'a> ViewStart<'a> {
    /// A first line that was made, of which no byte is copied.
    pub fn of_start(start: &'a Start) -> Self
        ensures { start_seen result ≡ start.now }
    {
        match start {
            Start::Request {
                method,
                uri,
                version,
            } => ViewStart::Request {
                method: method.as_slice(),
                uri: uri.as_slice(),
                version: Value::of_part(version.as_slice()),
            },
            Start::Status { code, reason } => ViewStart::Status {
                code: *code,
                reason: reason.as_slice(),
            },
        }
    }

    /// The same first line, of which no byte is copied.
    pub fn lent(&self) -> ViewStart<'_>
        ensures { start_seen result ≡ start_seen self.now }
    {
        match self {
            ViewStart::Request {
                method,
                uri,
                version,
            } => ViewStart::Request {
                method,
                uri,
                version: Value::of_part(version.as_slice()),
            },
            ViewStart::Status { code, reason } => ViewStart::Status {
                code: *code,
                reason,
            },
        }
    }

    /// The first line, which owns its bytes.
    pub fn to_start(&self, alloc: Global) -> Result<Start, AllocError>
        ensures { IfOk result (λ start. start ≡ start_seen self.now) }
    {
        match self {
            ViewStart::Request {
                method,
                uri,
                version,
            } => request(alloc, method, uri, version.as_slice()),
            ViewStart::Status { code, reason } => {
                let reason = Bytes::copy(alloc, reason)?;
                Ok(Start::Status {
                    code: *code,
                    reason,
                })
            }
        }
    }
}
