//! IPv4 addresses and UDP ports, and their texts, read and written. What address a host has is said in `sip_hops`.
ghost use Rattle.std.specs.Prelude.{◌≡◌, true, Some, IfOk, OnOk, codes, decimal, ◌++◌, option_map};
ghost use Rattle.std.specs.Option.{option_and_then};
ghost use Rattle.sip_uri.specs.Addresses;

use sip_text::{Bytes, plain_port, same_bytes, split_once};
use std::alloc::{AllocError, Global};

/// Where datagrams come from and go to: an IPv4 address and a UDP port.
#[derive(Clone, Copy, Debug, PartialEq, Eq)]
pub struct Addr {
    pub ip: [u8; 4],
    pub port: u16,
}

impl Addr {
    /// Only where it is another one. Takes no memory.
    pub fn is_same(self, other: Addr) -> bool
        ensures { result ≡ true → self ≡ other }
    {
        same_bytes(self.ip.as_slice(), other.ip.as_slice()) && self.port == other.port
    }
}

/// The room for the longest text of an IPv4 address.
const IP_ROOM: usize = 15;

/// The room for the longest text `IP:PORT`.
const ADDR_ROOM: usize = 21;

/// Adds a `.` and a number in decimal.
fn push_part(text: &mut Bytes, part: u8) -> Result<(), AllocError>
    ensures { OnOk result (text.new ≡ text.old ++ codes "." ++ decimal part) }
{
    text.push(b'.')?;
    text.push_decimal(u64::from(part))
}

/// Adds the dotted text of an IPv4 address.
fn push_ip(text: &mut Bytes, ip: [u8; 4]) -> Result<(), AllocError>
    ensures { OnOk result (text.new ≡ text.old ++ Addresses.ip_text ip) }
{
    text.push_decimal(u64::from(ip[0]))?;
    push_part(text, ip[1])?;
    push_part(text, ip[2])?;
    push_part(text, ip[3])
}

/// The dotted text of an IPv4 address (RFC 3261 25.1, `IPv4address`). `AllocError` is the only refusal.
pub fn ip_text(alloc: Global, ip: [u8; 4]) -> Result<Bytes, AllocError>
    ensures { IfOk result (λ text. text ≡ Addresses.ip_text ip) }
{
    let mut text = Bytes::with_room(alloc, IP_ROOM)?;
    push_ip(&mut text, ip)?;
    Ok(text)
}

/// A number of an address with one more digit: 1 to 255, since none has a leading zero.
#[inline]
fn one_more(number: u8, byte: u8) -> Option<u8>
    ensures { result ≡ Addresses.one_more (Some number) byte }
{
    if number == 0 || !byte.is_ascii_digit() {
        return None;
    }
    let longer = u32::from(number) * 10 + u32::from(byte - b'0');
    if longer <= 255 {
        Some(longer as u8)
    } else {
        None
    }
}

/// The number at the front of a text, up to its first dot, and what follows that dot, if there is one.
#[tactic(auto, using(crate::proofs::Dots::no_digit, std::proofs::lemmas::List::at_drop_more, std::proofs::lemmas::List::drop_all))]
fn number_at(text: &[u8]) -> Option<(u8, Option<&[u8]>)>
    ensures { option_map (λ x. (x.0, option_map (λ rest. rest.now) x.1)) result ≡ Addresses.number_at text.now }
{
    let (first, rest) = text.split_first()?;
    if !first.is_ascii_digit() {
        return None;
    }
    let mut number = *first - b'0';
    for at in 0..rest.len() {
        if rest[at] == b'.' {
            return Some((number, Some(&rest[at + 1..])));
        }
        number = one_more(number, rest[at])?;
    }
    Some((number, None))
}

/// The number behind a dot, if one was there.
fn next_number(rest: Option<&[u8]>) -> Option<(u8, Option<&[u8]>)>
    ensures { option_map (λ x. (x.0, option_map (λ rest. rest.now) x.1)) result
        ≡ option_and_then Addresses.number_at (option_map (λ text. text.now) rest.entry) }
{
    number_at(rest?)
}

/// The IPv4 address that a dotted text writes: four numbers up to 255 without leading zeros (RFC 3261 25.1,
/// `IPv4address`). Takes no memory.
#[tactic(auto, using(crate::proofs::Dots::none_at_all))]
pub fn ip_of(text: &[u8]) -> Option<[u8; 4]>
    ensures { result ≡ Addresses.ip_of text.now }
{
    let (first, rest) = number_at(text)?;
    let (second, rest) = next_number(rest)?;
    let (third, rest) = next_number(rest)?;
    match next_number(rest)? {
        (fourth, None) => Some([first, second, third, fourth]),
        (_, Some(_)) => None,
    }
}

/// The text `IP:PORT` of an address. `AllocError` is the only refusal.
pub fn addr_text(alloc: Global, addr: Addr) -> Result<Bytes, AllocError>
    ensures { IfOk result (λ text. text ≡ Addresses.addr_text addr) }
{
    let mut text = Bytes::with_room(alloc, ADDR_ROOM)?;
    push_ip(&mut text, addr.ip)?;
    text.push(b':')?;
    text.push_decimal(u64::from(addr.port))?;
    Ok(text)
}

/// The address that a text `IP:PORT` writes, its port 1 to 65535 and no number with leading zeros. Takes no
/// memory.
pub fn addr_of(text: &[u8]) -> Option<Addr>
    ensures { result ≡ Addresses.addr_of text.now }
{
    let (ip, port) = split_once(text, b':')?;
    let ip = ip_of(ip)?;
    let port = plain_port(port)?;
    Some(Addr { ip, port })
}
