//! The first line of a message as it is kept: a status code and spans of a store.
ghost use Rattle.std.specs.Prelude.{◌≡◌, true, IfOk};
ghost use Rattle.sip_message_form.specs.ViewStart.{start_seen};
ghost use Rattle.sip_message_form.specs.KeptStart.{start_kept, IsStartStored, IsStartPut};

use crate::message::Start;
use crate::view_start::ViewStart;
use sip_message_fields::text::{Buffer, Span};
use sip_message_fields::{Value, put};
use std::alloc::AllocError;

/// A first line whose bytes stand in a store. Of a status line there is a code, and the first span is its reason;
/// of a request line the spans are its method, its Request-URI and its version.
#[derive(Clone, Copy)]
pub(crate) struct KeptStart {
    pub(crate) code: Option<u16>,
    pub(crate) first: Span,
    pub(crate) uri: Span,
    pub(crate) version: Span,
}

/// Only where two codes are one, or there is neither.
fn same_code(left: Option<u16>, right: Option<u16>) -> bool
    ensures { result ≡ true → left ≡ right }
{
    match (left, right) {
        (Some(one), Some(other)) => one == other,
        (None, None) => true,
        _ => false,
    }
}

impl KeptStart {
    /// Only where it is another one.
    pub(crate) fn is_same(&self, other: &KeptStart) -> bool
        ensures { result ≡ true → self.now ≡ other.now }
    {
        same_code(self.code, other.code)
            && self.first.is_same(other.first)
            && self.uri.is_same(other.uri)
            && self.version.is_same(other.version)
    }
}

/// Puts a request line into a store.
fn put_request(
    store: &mut Buffer,
    method: &[u8],
    uri: &[u8],
    version: &[u8],
) -> Result<KeptStart, AllocError>
    ensures { IfOk result (λ kept. IsStartPut store.old (Start.Request method.now uri.now version.now) store.new kept) }
{
    let first = put(store, method)?;
    let uri = put(store, uri)?;
    let version = put(store, version)?;
    Ok(KeptStart {
        code: None,
        first,
        uri,
        version,
    })
}

/// Puts a status line into a store. In the server no response is kept so.
fn put_status(store: &mut Buffer, code: u16, reason: &[u8]) -> Result<KeptStart, AllocError>
    ensures { IfOk result (λ kept. IsStartPut store.old (Start.Status code reason.now) store.new kept) }
{
    let first = put(store, reason)?;
    Ok(KeptStart {
        code: Some(code),
        first,
        uri: first,
        version: first,
    })
}

/// Puts a first line into a store. What stood in it stays where it is.
pub(crate) fn put_start(store: &mut Buffer, start: &ViewStart<'_>) -> Result<KeptStart, AllocError>
    ensures { IfOk result (λ kept. IsStartPut store.old (start_seen start.now) store.new kept) }
{
    match start {
        ViewStart::Request {
            method,
            uri,
            version,
        } => put_request(store, method, uri, version.as_slice()),
        ViewStart::Status { code, reason } => put_status(store, *code, reason),
    }
}

/// The first line that is kept so in a store, of which no byte is copied.
pub(crate) fn start_in<'k>(store: &'k [u8], kept: KeptStart) -> ViewStart<'k>
    requires { IsStartStored store.now kept }
    ensures { start_seen result ≡ start_kept store.now kept }
{
    match kept.code {
        Some(code) => ViewStart::Status {
            code,
            reason: kept.first.of(store),
        },
        None => ViewStart::Request {
            method: kept.first.of(store),
            uri: kept.uri.of(store),
            version: Value::of_part(kept.version.of(store)),
        },
    }
}
