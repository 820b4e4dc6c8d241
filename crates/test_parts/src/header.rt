use crate::bytes::is_place;
use crate::cases::Row;
use sip_header::{NameAddr, bracketed_host_port, name_addr_of, route_of};
use std::alloc::Global;
use test_forms::says_nothing;

/// Addresses, and the URIs in them as they are written. The first ones are those of RFC 3261 20.10 and 20.20.
pub(crate) const ADDRESSES: &[Row] = &[
    Row::Address(
        b"\"Mr. Watson\" <mailto:watson@bell-telephone.com> ;q=0.1",
        b"mailto:watson@bell-telephone.com",
    ),
    Row::Address(
        b"\"A. G. Bell\" <sip:agb@bell-telephone.com> ;tag=a48s",
        b"sip:agb@bell-telephone.com",
    ),
    Row::Address(
        b"sip:+12125551212@server.phone2net.com;tag=887s",
        b"sip:+12125551212@server.phone2net.com",
    ),
    Row::Address(
        b"Anonymous <sip:c8oqz84zk7z@privacy.org>;tag=hyh8",
        b"sip:c8oqz84zk7z@privacy.org",
    ),
    Row::Address(
        b"\"A <b>\" <sip:bob@host.com> ; tag=x1",
        b"sip:bob@host.com",
    ),
    Row::Address(
        b"\"B\" <SIP:b@far.net;user=phone>",
        b"sip:b@far.net;user=phone",
    ),
    Row::Address(
        b"<sip:sip.host.com:5060;lr>;x=1",
        b"sip:sip.host.com:5060;lr",
    ),
    Row::NoRoute(b"sip:far.net;lr"),
    Row::CSeq(b"2147483647 INVITE"),
];

/// Whether the URI of an address is written so.
fn has_uri(alloc: Global, address: &NameAddr<'_>, uri: &[u8]) -> bool {
    match address.uri.text(alloc) {
        Ok(text) => text.as_slice() == uri,
        Err(_) => false,
    }
}

/// Whether the URI of the address in a value is written so.
pub(crate) fn is_read(alloc: Global, value: &[u8], uri: &[u8]) -> bool {
    match name_addr_of(alloc, value) {
        Ok(Some(address)) => has_uri(alloc, &address, uri),
        Ok(None) | Err(_) => false,
    }
}

/// Values that have a host and a port in brackets; and those that have more than a URI in them, or one that is read as a whole alone.
pub(crate) const PLACES_IN_BRACKETS: &[Row] = &[
    Row::BracketedPlace(b"<sip:sip.host.com:5060;lr>", b"sip.host.com", Some(5060)),
    Row::BracketedPlace(b"<sip:help@127.0.0.1>", b"127.0.0.1", None),
    Row::NoBracketedPlace(b"sip:far.net"),
    Row::NoBracketedPlace(b"\"B\" <sip:b@far.net>"),
    Row::NoBracketedPlace(b"<sip:b@far.net>;tag=x1"),
    Row::NoBracketedPlace(b"<sip:b@far.net> "),
    Row::NoBracketedPlace(b"<sip:b@far.net;user=phone>"),
    Row::NoBracketedPlace(b"<sips:b@far.net>"),
    Row::NoBracketedPlace(b"*"),
];

pub(crate) fn is_no_route(alloc: Global, value: &[u8]) -> bool {
    says_nothing(route_of(alloc, value))
}

pub(crate) fn is_bracketed_place(value: &[u8], host: &[u8], port: Option<u16>) -> bool {
    is_place(bracketed_host_port(value), host, port)
}
