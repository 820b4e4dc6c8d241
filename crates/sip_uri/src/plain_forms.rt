//! URIs of the plainest forms: their user, host and port where they stand, so that no URI is made.
//! `parse_uri` reads every form.
ghost use Rattle.std.specs.Prelude.{◌≡◌, ◌⊎◌, true, codes, option_map, IfSome, Some, None};
ghost use Rattle.sip_uri.specs.PlainPlace.{HasUser, IsPlain, IsUriAt, IsUriOf};

use crate::host::{host_port_at, place_by, split_name};
use crate::parts::behind_place;
use crate::scheme::behind_sip;
use crate::user::plain_user;
use sip_text::split_once;

/// What follows the user of a text behind its scheme, where it has one without escapes and without a password, or none.
/// None says nothing.
fn behind_user(text: &[u8]) -> Option<&[u8]>
    ensures { IfSome result (λ rest. HasUser text.now rest.now) }
{
    if let Some((_, rest)) = plain_user(text) {
        return Some(rest);
    }
    match split_once(text, b'@') {
        Some(_) => None,
        None => Some(text),
    }
}

/// Whether there are no parameters, or `lr` alone; `false` says nothing.
fn is_loose_or_none(parameters: Option<&[u8]>) -> bool
    ensures { result ≡ true → (option_map (λ x. x.now) parameters.entry ≡ None) ⊎ (option_map (λ x. x.now) parameters.entry ≡ Some (codes "lr")) }
{
    match parameters {
        Some(text) => text == b"lr".as_slice(),
        None => true,
    }
}

/// The number of a port, if there is one.
#[inline]
fn number_of(port: Option<(&[u8], u16)>) -> Option<u16>
    ensures { result ≡ option_map (λ x. x.1) port.entry }
{
    match port {
        Some((_, number)) => Some(number),
        None => None,
    }
}

/// The host and the number of the port, if one is written, of a `sip` URI whose parameters are none or `lr` alone, and
/// that has neither headers nor, in its user, escapes or a password: where they stand, so that nothing is made of the
/// URI. None says nothing: `parse_uri` reads every URI. Takes no memory.
pub fn plain_host_port(text: &[u8]) -> Option<(&[u8], Option<u16>)>
    ensures { IfSome result (λ x. IsPlain text.now x.0.now x.1) }
{
    let rest = behind_user(behind_sip(text)?)?;
    let (host, port, behind) = host_port_at(rest)?;
    let (parameters, headers) = behind_place(behind)?;
    if headers.is_some() || !is_loose_or_none(parameters) {
        return None;
    }
    Some((host, number_of(port)))
}

/// The user, which is empty where there is none, the host, the number of the port, if one is written, and what follows, of a
/// `sip` URI at the front of a text that has neither parameters nor headers, and whose user, if it has one, is of bytes of a
/// host name: so each byte is read once. None says nothing. Takes no memory.
#[inline]
pub fn plain_parts(text: &[u8]) -> Option<(&[u8], &[u8], Option<u16>, &[u8])>
    ensures { IfSome result (λ x. IsUriOf text.now x.0.now x.1.now x.2 x.3.now) }
{
    let text = behind_sip(text)?;
    let (name, rest) = split_name(text);
    let Some((b'@', place)) = rest.split_first() else {
        let (host, port, rest) = place_by(name, rest)?;
        return Some((b"".as_slice(), host, number_of(port), rest));
    };
    if name.is_empty() {
        return None;
    }
    let (host, rest) = split_name(place);
    let (host, port, rest) = place_by(host, rest)?;
    Some((name, host, number_of(port), rest))
}

/// The host, the number of the port, if one is written, and what follows, of such a URI at the front of a text. None says
/// nothing. Takes no memory.
#[inline]
pub fn plain_uri_at(text: &[u8]) -> Option<(&[u8], Option<u16>, &[u8])>
    ensures { IfSome result (λ x. IsUriAt text.now x.0.now x.1 x.2.now) }
{
    let (_, host, port, rest) = plain_parts(text)?;
    Some((host, port, rest))
}
