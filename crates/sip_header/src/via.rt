//! The value of a Via read (RFC 3261 20.42): its transport, its sent-by and its parameters.
//! What a Via gets from the source of a request is written in `sip_edit`.
ghost use Rattle.std.specs.Prelude.{◌≡◌, ◌++◌, codes, Some, option_map, IfOk, IfSome};
ghost use Rattle.sip_header.specs.Via.{sender_behind, versioned, sender_of, via_of, IsSenderAt, IsBeforeBranch};

use crate::parameters::{Parameters, parameters_from, plain_end};
use sip_text::{
    Text, first_part, is_token, same_bytes, same_no_case, split_outside, split_token, split_word,
    without_blanks,
};
use sip_uri::{host_port, host_port_at};
use std::alloc::{AllocError, Global};

/// What a Via says.
pub struct Via<'a> {
    pub transport: Text<'a>,
    /// The host of sent-by, as it was written.
    pub host: Text<'a>,
    /// The port of sent-by, if there is one.
    pub port: Option<u16>,
    pub parameters: Parameters<'a>,
}

/// Written out, so that it is proved once and not wherever a Via is dropped.
impl<'a> Drop for Via<'a> {
    fn drop(self) {
        let Via {
            transport: _,
            host: _,
            port: _,
            parameters: _,
        } = self;
    }
}

/// A Via without its parameters.
#[derive(Drop)]
struct Sender<'a> {
    transport: Text<'a>,
    host: Text<'a>,
    port: Option<u16>,
}

/// A transport, blanks and sent-by.
fn sender_behind(bytes: &[u8]) -> Option<Sender<'_>>
    ensures { result ≡ sender_behind bytes.now }
{
    let (transport, sent_by) = split_word(bytes);
    if !is_token(transport) {
        return None;
    }
    let (host, port) = host_port(sent_by)?;
    Some(Sender {
        transport: Text::new(transport),
        host: Text::new(host),
        port,
    })
}

/// The same behind a protocol and its version.
fn versioned_sender<'v>(protocol: &[u8], version: &[u8], rest: &'v [u8]) -> Option<Sender<'v>>
    ensures { result ≡ versioned protocol.now version.now rest.now }
{
    if !same_no_case(protocol, b"SIP") {
        return None;
    }
    if !same_no_case(version, b"2.0") {
        return None;
    }
    sender_behind(rest)
}

/// A Via without its parameters.
fn sender_from(bytes: &[u8]) -> Option<Sender<'_>>
    ensures { result ≡ sender_of bytes.now }
{
    let (protocol, rest) = split_outside(bytes, b'/')?;
    let (version, rest) = split_outside(rest, b'/')?;
    versioned_sender(
        without_blanks(protocol),
        without_blanks(version),
        without_blanks(rest),
    )
}

/// What follows a `SIP/2.0/` at the front of bytes, where one stands there so.
fn behind_version(bytes: &[u8]) -> Option<&[u8]>
    ensures { IfSome result (λ rest. bytes.now ≡ codes "SIP/2.0/" ++ rest.now) }
{
    if bytes.len() < 8 {
        return None;
    }
    let (front, rest) = bytes.split_at(8);
    if same_bytes(front, b"SIP/2.0/") {
        Some(rest)
    } else {
        None
    }
}

/// A Via of any form.
fn any_via(value: &[u8]) -> Option<Via<'_>>
    ensures { result ≡ via_of value.now }
{
    let (sender, behind) = first_part(value, b';');
    let Sender {
        transport,
        host,
        port,
    } = sender_from(sender)?;
    let parameters = parameters_from(behind)?;
    Some(Via {
        transport,
        host,
        port,
        parameters,
    })
}

/// The number of a port, if there is one.
fn number_of(port: Option<(&[u8], u16)>) -> Option<u16>
    ensures { result ≡ option_map (λ x. x.1) port.entry }
{
    match port {
        Some((_, number)) => Some(number),
        None => None,
    }
}

/// A token, one space and sent-by at the front of a text, and what follows them. None says nothing.
fn plain_sender(text: &[u8]) -> Option<(Sender<'_>, &[u8])>
    ensures { IfSome result (λ x. IsSenderAt text.now x.0 x.1.now) }
{
    let (transport, rest) = split_token(text);
    if transport.is_empty() {
        return None;
    }
    let Some((b' ', place)) = rest.split_first() else {
        return None;
    };
    let (host, port, rest) = host_port_at(place)?;
    let sender = Sender {
        transport: Text::new(transport),
        host: Text::new(host),
        port: number_of(port),
    };
    Some((sender, rest))
}

/// A Via as most are written: `SIP/2.0/`, a token, one space and sent-by, each byte of which is read once. None says
/// nothing.
fn plain_via(value: &[u8]) -> Option<Via<'_>>
    ensures { IfSome result (λ via. via_of value.now ≡ Some via) }
{
    let text = behind_version(value)?;
    let (sender, rest) = plain_sender(text)?;
    let behind = plain_end(rest)?;
    let parameters = parameters_from(behind)?;
    let Sender {
        transport,
        host,
        port,
    } = sender;
    Some(Via {
        transport,
        host,
        port,
        parameters,
    })
}

/// What the value of a Via says: `SIP/2.0/transport`, sent-by and parameters (RFC 3261 20.42). None where it is
/// malformed. `AllocError` is the only refusal.
pub fn via_of(_alloc: Global, value: &[u8]) -> Result<Option<Via<'_>>, AllocError>
    ensures { IfOk result (λ via. via ≡ via_of value.now) }
{
    match plain_via(value) {
        Some(via) => Ok(Some(via)),
        None => Ok(any_via(value)),
    }
}

/// The Via that a text begins, up to and with `;branch=`, if it is written plainly. It is seen without its branch: a token behind
/// the text is that. So Vias of which one place writes many needn't be read each. None says nothing. Takes no memory.
pub fn via_before_branch(front: &[u8]) -> Option<Via<'_>>
    ensures { IfSome result (λ via. IsBeforeBranch front.now via) }
{
    let text = behind_version(front)?;
    let (sender, rest) = plain_sender(text)?;
    if !same_bytes(rest, b";branch=") {
        return None;
    }
    let parameters = parameters_from(None)?;
    let Sender {
        transport,
        host,
        port,
    } = sender;
    Some(Via {
        transport,
        host,
        port,
        parameters,
    })
}
