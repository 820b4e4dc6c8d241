ghost use Rattle.std.specs.Prelude.{◌≡◌, ◌∷◌, ◌++◌, ◌⊎◌, IfSome, codes, true};
ghost use Rattle.sip_header.specs.PlainAddress.{IsBracketedHostPort, IsPlaceEnd, IsPlaced};

use crate::parameters::{parameters_from, plain_end};
use sip_text::{same_bytes, split_outside, without_blanks};
use sip_uri::{plain_host_port, plain_uri_at};

/// Whether a text ends an address in brackets that has no header parameters: by `>` alone, or by `;lr>`.
#[inline]
#[tactic(auto, using(crate::proofs::PlainAddresses::ends_alone, crate::proofs::PlainAddresses::ends_loose))]
fn ends_place(text: &[u8]) -> bool
    ensures { result ≡ true → (text.now ≡ codes ">") ⊎ (text.now ≡ codes ";lr>") }
{
    match text.split_first() {
        Some((b'>', rest)) => rest.is_empty(),
        Some((b';', rest)) => same_bytes(rest, b"lr>"),
        _ => false,
    }
}

/// The host and the number of the port of an address that `bracketed_host_port` reads, without blanks, and whose user, if it
/// has one, is of bytes of a host name: each byte is read once. None says nothing.
fn usual_host_port(value: &[u8]) -> Option<(&[u8], Option<u16>)>
    ensures { IfSome result (λ x. IsBracketedHostPort value.now x.0.now x.1) }
{
    let Some((b'<', text)) = value.split_first() else {
        return None;
    };
    let (host, port, end) = plain_uri_at(text)?;
    if !ends_place(end) {
        return None;
    }
    Some((host, port))
}

/// The same of an address in any form.
fn any_host_port(value: &[u8]) -> Option<(&[u8], Option<u16>)>
    ensures { IfSome result (λ x. IsBracketedHostPort value.now x.0.now x.1) }
{
    let (display, rest) = split_outside(value, b'<')?;
    if !display.is_empty() {
        return None;
    }
    let (uri, behind) = split_outside(rest, b'>')?;
    if !behind.is_empty() {
        return None;
    }
    plain_host_port(without_blanks(uri))
}

/// The host and the number of the port, if one is written, of an address that is a URI in brackets and nothing else, in
/// the form that `plain_host_port` reads: as most values of Route, Record-Route and Contact are. None says nothing. Takes no
/// memory.
pub fn bracketed_host_port(value: &[u8]) -> Option<(&[u8], Option<u16>)>
    ensures { IfSome result (λ x. IsBracketedHostPort value.now x.0.now x.1) }
{
    match usual_host_port(value) {
        Some(place) => Some(place),
        None => any_host_port(value),
    }
}

/// What follows a text at the front, with the `>` behind it.
fn behind_closing<'v>(end: &'v [u8], text: &[u8]) -> Option<&'v [u8]>
    ensures { IfSome result (λ rest. end.now ≡ text.now ++ 62 ∷ rest.now) }
{
    if end.len() < text.len() {
        return None;
    }
    let (front, closing) = end.split_at(text.len());
    if !same_bytes(front, text) {
        return None;
    }
    let Some((b'>', rest)) = closing.split_first() else {
        return None;
    };
    Some(rest)
}

/// What follows the `>` of an address behind whose URI no parameter stands but `lr` or `transport=udp`.
#[inline]
#[tactic(auto, using(crate::proofs::Placed::ends_at_once, crate::proofs::Placed::ends_by_udp, crate::proofs::Placed::ends_by_lr))]
fn behind_place(end: &[u8]) -> Option<&[u8]>
    ensures { IfSome result (λ rest. IsPlaceEnd end.now rest.now) }
{
    if let Some((b'>', rest)) = end.split_first() {
        return Some(rest);
    }
    if let Some(rest) = behind_closing(end, b";transport=udp") {
        return Some(rest);
    }
    let rest = behind_closing(end, b";lr")?;
    Some(rest)
}

/// The host and the number of the port, if one is written, of an address in brackets, as contacts and most other addresses of places
/// are written: its URI has no parameters but, perhaps, `lr` or `transport=udp`, and behind the brackets header parameters may
/// stand. Each byte is read once. None says nothing. Takes no memory.
pub fn placed_host_port(value: &[u8]) -> Option<(&[u8], Option<u16>)>
    ensures { IfSome result (λ x. IsPlaced value.now x.0.now x.1) }
{
    let Some((b'<', text)) = value.split_first() else {
        return None;
    };
    let (host, port, end) = plain_uri_at(text)?;
    let rest = behind_place(end)?;
    let behind = plain_end(rest)?;
    let _parameters = parameters_from(behind)?;
    Some((host, port))
}
