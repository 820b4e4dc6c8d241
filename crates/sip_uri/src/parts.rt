//! A URI's text behind its user cut into host and port, parameters and headers (RFC 3261 25.1); what each says is read elsewhere.
ghost use Rattle.std.specs.Prelude.{◌≡◌, ◌++◌, ◌≤◌, true, ℕ, List, length, IfOk, IfSome, option_map};
ghost use Rattle.std.specs.List.{list_all, prefix_len};
ghost use Rattle.sip_uri.specs.Host.{place_of};
ghost use Rattle.sip_uri.specs.Reading;
ghost use Rattle.sip_uri.specs.Reading.{is_of_place, before_parameters, parameter_text_of, header_text_of, AreTexts, HasPlace};

use crate::{host_port_at, host_port_in};
use sip_text::{Bytes, split_once};
use std::alloc::{AllocError, Global};

/// A text as a value's own, if there is one.
pub(crate) fn copy_part(alloc: Global, text: Option<&[u8]>) -> Result<Option<Bytes>, AllocError>
    ensures { IfOk result (λ copy. copy ≡ option_map (λ x. x.now) text.entry) }
{
    match text {
        Some(text) => Ok(Some(Bytes::copy(alloc, text)?)),
        None => Ok(None),
    }
}

/// What stands before the first of a byte, and what follows it, if that byte stands there.
pub(crate) fn part_before(bytes: &[u8], mark: u8) -> (&[u8], Option<&[u8]>)
    ensures front { result.0.now ≡ (Reading.part_before mark bytes.now).0 }
    ensures behind { option_map (λ x. x.now) result.1 ≡ (Reading.part_before mark bytes.now).1 }
{
    match split_once(bytes, mark) {
        Some((front, rest)) => (front, Some(rest)),
        None => (bytes, None),
    }
}

/// How many bytes of host and port stand at the front of a text.
fn place_length(text: &[u8]) -> usize
    ensures value { result ≡ prefix_len is_of_place text.now }
    ensures within { result ≤ length text.now }
{
    for at in 0..text.len() {
        if text[at] == b';' || text[at] == b'?' {
            return at;
        }
    }
    text.len()
}

/// The texts of host and port, of the parameters behind a `;` and of the headers behind a `?`.
fn cut_texts(text: &[u8]) -> (&[u8], Option<&[u8]>, Option<&[u8]>)
    ensures place { result.0.now ≡ before_parameters text.now }
    ensures parameters { option_map (λ x. x.now) result.1 ≡ parameter_text_of text.now }
    ensures headers { option_map (λ x. x.now) result.2 ≡ header_text_of text.now }
{
    let (place, rest) = text.split_at(place_length(text));
    let Some((mark, behind)) = rest.split_first() else {
        return (place, None, None);
    };
    if *mark == b'?' {
        return (place, None, Some(behind));
    }
    let (parameters, headers) = part_before(behind, b'?');
    (place, Some(parameters), headers)
}

/// Host and port of a text, the parameters behind a `;` and the headers behind a `?`, of a text of any form.
fn any_rest(text: &[u8]) -> (Option<(&[u8], Option<&[u8]>)>, Option<&[u8]>, Option<&[u8]>)
    ensures place { option_map (λ x. (x.0.now, option_map (λ digits. digits.now) x.1)) result.0 ≡ place_of (before_parameters text.now) }
    ensures parameters { option_map (λ x. x.now) result.1 ≡ parameter_text_of text.now }
    ensures headers { option_map (λ x. x.now) result.2 ≡ header_text_of text.now }
{
    let (place, parameters, headers) = cut_texts(text);
    (host_port_in(place), parameters, headers)
}

/// The parameters and the headers that a text writes which follows host and port. None where something else follows.
pub(crate) fn behind_place(rest: &[u8]) -> Option<(Option<&[u8]>, Option<&[u8]>)>
    ensures { IfSome result (λ x. (front : List ℕ) → list_all is_of_place front ≡ true
        → AreTexts (front ++ rest.now) front (option_map (λ y. y.now) x.0) (option_map (λ y. y.now) x.1)) }
{
    let Some((mark, behind)) = rest.split_first() else {
        return Some((None, None));
    };
    if *mark == b'?' {
        return Some((None, Some(behind)));
    }
    if *mark == b';' {
        let (parameters, headers) = part_before(behind, b'?');
        return Some((Some(parameters), headers));
    }
    None
}

/// The digits of a port, if there is one.
fn digits_of(port: Option<(&[u8], u16)>) -> Option<&[u8]>
    ensures { option_map (λ x. x.now) result ≡ option_map (λ x. x.0.now) port.entry }
{
    match port {
        Some((digits, _)) => Some(digits),
        None => None,
    }
}

/// The same of a text with a host name, each byte of which is read once. None says nothing.
fn plain_rest(text: &[u8]) -> Option<((&[u8], Option<&[u8]>), Option<&[u8]>, Option<&[u8]>)>
    ensures { IfSome result (λ x. HasPlace text.now x.0.0.now (option_map (λ y. y.now) x.0.1) (option_map (λ y. y.now) x.1)
        (option_map (λ y. y.now) x.2)) }
{
    let (host, port, rest) = host_port_at(text)?;
    let (parameters, headers) = behind_place(rest)?;
    Some(((host, digits_of(port)), parameters, headers))
}

/// Host and port of a text, the parameters behind a `;` and the headers behind a `?`.
pub(crate) fn cut_rest(
    text: &[u8],
) -> (Option<(&[u8], Option<&[u8]>)>, Option<&[u8]>, Option<&[u8]>)
    ensures place { option_map (λ x. (x.0.now, option_map (λ digits. digits.now) x.1)) result.0 ≡ place_of (before_parameters text.now) }
    ensures parameters { option_map (λ x. x.now) result.1 ≡ parameter_text_of text.now }
    ensures headers { option_map (λ x. x.now) result.2 ≡ header_text_of text.now }
{
    match plain_rest(text) {
        Some((place, parameters, headers)) => (Some(place), parameters, headers),
        None => any_rest(text),
    }
}
