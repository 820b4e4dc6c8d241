//! Hosts, and the ports behind them (RFC 3261 25.1: `host`, `hostport`, `sent-by`), read where they stand.
//! Nothing is looked up or resolved.
ghost use Rattle.std.specs.Prelude.{◌≡◌, ◌≤◌, ◌++◌, true, false, length, take, drop, option_map, Some, IfSome, is_some};
ghost use Rattle.std.specs.List.{list_all, prefix_len};
ghost use Rattle.std.specs.Option.{option_and_then};
ghost use Rattle.sip_uri.specs.Host;
ghost use Rattle.sip_uri.specs.Host.{place_of, host_port_of, IsPlaceAt, IsNameAt};
ghost use Rattle.sip_uri.specs.Port.{port_of, port_value};

use crate::port::{port_at, port_behind};

/// The flag of a byte that may stand in a host name.
const IN_NAME: u8 = 1;

/// The flag of a byte that may stand in an address in brackets.
const IN_ADDRESS: u8 = 2;

/// For each byte a digit whose low bits are these flags.
static HOST_CLASSES: [u8; 256] = *b"\
    00000000000000000000000000000000\
    00000000000001303333333333200000\
    03333331111111111111111111100001\
    03333331111111111111111111100000\
    00000000000000000000000000000000\
    00000000000000000000000000000000\
    00000000000000000000000000000000\
    00000000000000000000000000000000";

/// Whether a byte may stand in a host name.
#[inline]
fn is_host_byte(byte: u8) -> bool
    ensures { result ≡ Host.is_host_byte byte }
{
    HOST_CLASSES[byte as usize] & IN_NAME != 0
}

/// Whether a byte may stand in an address in brackets.
#[inline]
fn is_address_byte(byte: u8) -> bool
    ensures { result ≡ Host.is_address_byte byte }
{
    HOST_CLASSES[byte as usize] & IN_ADDRESS != 0
}

/// Whether all bytes may stand in a host name.
fn are_host_bytes(bytes: &[u8]) -> bool
    ensures { result ≡ list_all Host.is_host_byte bytes.now }
{
    for byte in bytes {
        if !is_host_byte(*byte) {
            return false;
        }
    }
    true
}

/// Whether bytes are the rest of an address behind its opening bracket.
fn is_address_rest(rest: &[u8]) -> bool
    ensures { result ≡ Host.is_address_rest false rest.now }
{
    let mut has_begun = false;
    for (at, byte) in rest.iter().enumerate() {
        if *byte == b']' {
            return has_begun && at + 1 == rest.len();
        }
        if !is_address_byte(*byte) {
            return false;
        }
        has_begun = true;
    }
    false
}

/// Whether bytes are a host: a name, or an address in square brackets (RFC 3261 25.1, `host`). Takes no memory.
pub fn is_host(host: &[u8]) -> bool
    ensures { result ≡ Host.is_host host.now }
{
    let Some((first, rest)) = host.split_first() else {
        return false;
    };
    if *first == b'[' {
        return is_address_rest(rest);
    }
    are_host_bytes(host)
}

/// Whether a text begins as an address in brackets does.
pub fn begins_bracket(text: &[u8]) -> bool
    ensures { result ≡ Host.begins_bracket text.now }
{
    let Some((first, _)) = text.split_first() else {
        return false;
    };
    *first == b'['
}

/// How many bytes stand before the first of a byte.
fn count_before(mark: u8, text: &[u8]) -> usize
    ensures value { result ≡ prefix_len (Host.is_not mark) text.now }
    ensures within { result ≤ length text.now }
{
    for at in 0..text.len() {
        if text[at] == mark {
            return at;
        }
    }
    text.len()
}

/// How long the host at the front of a text is.
fn host_length(text: &[u8]) -> usize
    ensures { result ≡ Host.host_length text.now }
{
    if begins_bracket(text) {
        count_before(b']', text) + 1
    } else {
        count_before(b':', text)
    }
}

/// A text up to the end of the host at its front, and what follows.
fn cut_host(text: &[u8]) -> (&[u8], &[u8])
    ensures front { result.0.now ≡ take (Host.host_length text.now) text.now }
    ensures rest { result.1.now ≡ drop (Host.host_length text.now) text.now }
{
    let end = host_length(text).min(text.len());
    text.split_at(end)
}

/// The host at the front of a text, an address in brackets, and what follows it.
#[tactic(auto, using(crate::proofs::Places::host_here, crate::proofs::Places::no_host))]
fn cut_address(text: &[u8]) -> Option<(&[u8], &[u8])>
    ensures { option_and_then (λ x. option_map (λ port. (x.0.now, port)) (port_of x.1.now)) result ≡ place_of text.now }
{
    let (host, rest) = cut_host(text);
    if !is_host(host) {
        return None;
    }
    Some((host, rest))
}

/// How many bytes of a host name stand at the front of a text. Two are looked at in a turn, which costs less for each.
#[inline(never)]
fn name_length(text: &[u8]) -> usize
    ensures value { result ≡ prefix_len Host.is_host_byte text.now }
    ensures within { result ≤ length text.now }
{
    let mut at = 0;
    while at + 1 < text.len() {
        if !is_host_byte(text[at]) {
            return at;
        }
        if !is_host_byte(text[at + 1]) {
            return at + 1;
        }
        at += 2;
    }
    if at < text.len() && is_host_byte(text[at]) {
        return at + 1;
    }
    at
}

/// The host name at the front of a text, and what follows it, which is a port or nothing where the text is of the
/// grammar: so each byte is read once.
#[tactic(auto, using(crate::proofs::Places::no_name))]
fn cut_name(text: &[u8]) -> Option<(&[u8], &[u8])>
    requires { Host.begins_bracket text.now ≡ false }
    ensures { option_and_then (λ x. option_map (λ port. (x.0.now, port)) (port_of x.1.now)) result ≡ place_of text.now }
{
    let (host, rest) = text.split_at(name_length(text));
    if host.is_empty() {
        return None;
    }
    Some((host, rest))
}

/// The host at the front of a text, and what follows it.
fn cut_place(text: &[u8]) -> Option<(&[u8], &[u8])>
    ensures { option_and_then (λ x. option_map (λ port. (x.0.now, port)) (port_of x.1.now)) result ≡ place_of text.now }
{
    if begins_bracket(text) {
        cut_address(text)
    } else {
        cut_name(text)
    }
}

/// The host that a text writes, and the digits of the port behind it, if one is written there (RFC 3261 25.1,
/// `hostport`). None of any other text. Takes no memory.
pub fn host_port_in(text: &[u8]) -> Option<(&[u8], Option<&[u8]>)>
    ensures { option_map (λ x. (x.0.now, option_map (λ digits. digits.now) x.1)) result ≡ place_of text.now }
{
    let (host, rest) = cut_place(text)?;
    match port_behind(rest)? {
        Some((digits, _)) => Some((host, Some(digits))),
        None => Some((host, None)),
    }
}

/// The host that a text writes, and the number of the port behind it, if one is written there (RFC 3261 25.1,
/// `hostport` and `sent-by`). None of any other text. Takes no memory.
pub fn host_port(text: &[u8]) -> Option<(&[u8], Option<u16>)>
    ensures { option_map (λ x. (x.0.now, x.1)) result ≡ host_port_of text.now }
{
    let (host, rest) = cut_place(text)?;
    match port_behind(rest)? {
        Some((_, number)) => Some((host, Some(number))),
        None => Some((host, None)),
    }
}

/// How many bytes of a host name stand at the front of a text, as a text, and what follows them.
#[inline]
#[tactic(auto, using(crate::proofs::Places::both_parts, crate::proofs::Places::name_run))]
pub(crate) fn split_name(text: &[u8]) -> (&[u8], &[u8])
    ensures whole { text.now ≡ result.0.now ++ result.1.now }
    ensures bytes { list_all Host.is_host_byte result.0.now ≡ true }
{
    text.split_at(name_length(text))
}

/// The port behind a `:` at the front of what follows a host name, by its digits and its number, and what follows both.
/// None where the name is empty, or no port stands behind a `:`.
#[inline]
pub(crate) fn place_by<'v>(
    host: &'v [u8],
    rest: &'v [u8],
) -> Option<(&'v [u8], Option<(&'v [u8], u16)>, &'v [u8])>
    requires { list_all Host.is_host_byte host.now ≡ true }
    ensures place { IfSome result (λ x. IsPlaceAt (host.now ++ rest.now) x.0.now (option_map (λ port. port.0.now) x.1) x.2.now) }
    ensures number { IfSome result (λ x. IfSome x.1 (λ port. port_value port.0.now ≡ Some port.1)) }
    ensures name { IfSome result (λ x. is_some x.1 ≡ false → IsNameAt (host.now ++ rest.now) x.0.now x.2.now) }
{
    if host.is_empty() {
        return None;
    }
    let Some((b':', behind)) = rest.split_first() else {
        return Some((host, None, rest));
    };
    let (length, number) = port_at(behind)?;
    let (digits, rest) = behind.split_at(length);
    Some((host, Some((digits, number)), rest))
}

/// The host name at the front of a text, a port behind its `:`, by its digits and its number, and what follows both: so
/// each byte is read once. None where neither stands there so, as of an address in brackets. Takes no memory.
pub fn host_port_at(text: &[u8]) -> Option<(&[u8], Option<(&[u8], u16)>, &[u8])>
    ensures place { IfSome result (λ x. IsPlaceAt text.now x.0.now (option_map (λ port. port.0.now) x.1) x.2.now) }
    ensures number { IfSome result (λ x. IfSome x.1 (λ port. port_value port.0.now ≡ Some port.1)) }
    ensures name { IfSome result (λ x. is_some x.1 ≡ false → IsNameAt text.now x.0.now x.2.now) }
{
    let (host, rest) = split_name(text);
    place_by(host, rest)
}
