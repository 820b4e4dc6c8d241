use crate::bytes::{gives_bytes, is_place};
use crate::cases::Row;
use sip_uri::{UriError, parse_uri, plain_host_port, write_uri};
use std::alloc::Global;
use test_forms::gives_text;

/// Texts, and whether they write a URI. The first ones are those of RFC 3261 19.1.3.
pub(crate) const TEXTS_OF_URIS: &[Row] = &[
    Row::Uri(b"sip:alice:secretword@atlanta.com;transport=tcp", true),
    Row::Uri(
        b"sips:alice@atlanta.com?subject=project%20x&priority=urgent",
        true,
    ),
    Row::Uri(b"sip:+1-212-555-1212:1234@gateway.com;user=phone", true),
    Row::Uri(
        b"sip:atlanta.com;method=REGISTER?to=alice%40atlanta.com",
        true,
    ),
    Row::Uri(b"sip:alice;day=tuesday@atlanta.com", true),
    Row::Uri(b"sips:a@[2001:db8::1]:05061", true),
    Row::Uri(b"sip:127.0.0.1:5080", true),
    Row::Uri(b"sip:a@host_1.com", true),
    Row::Uri(b"sip:a;lr@[::1]:5060;x=[1]/:&+$?y=?:/&y=", true),
    Row::Uri(b"sip:a@[]", false),
    Row::Uri(b"sip:%4@host", false),
    Row::Uri(b"sip:a:b:c@host", false),
    Row::Uri(b"sip:a@host;lr:5060@", false),
    Row::Uri(b"sip:a@host?b=c&", false),
    Row::Uri(b"sip:a@host?b=c;d=e", false),
];

/// Whether the place of a URI is read where it stands.
pub(crate) fn is_plain_place(text: &[u8], host: &[u8], port: Option<u16>) -> bool {
    is_place(plain_host_port(text), host, port)
}

/// Whether a text is read and written as it was, or is no URI.
pub(crate) fn is_read(alloc: Global, text: &[u8], is_uri: bool) -> bool {
    match parse_uri(alloc, text) {
        Ok(uri) => is_uri && gives_bytes(write_uri(alloc, &uri), text),
        Err(e) => !is_uri && e == UriError::Syntax,
    }
}

/// URIs whose place is read where it stands: the host, and the number of the port; and texts that are read as a whole alone, and one
/// that is no URI.
pub(crate) const PLAIN_PLACES: &[Row] = &[
    Row::PlainPlace(b"sip:help@127.0.0.1:5082", b"127.0.0.1", Some(5082)),
    Row::PlainPlace(b"sip:127.0.0.1", b"127.0.0.1", None),
    Row::PlainPlace(b"sip:far.net;lr", b"far.net", None),
    Row::PlainPlace(b"sip:a@far.net:5060;lr", b"far.net", Some(5060)),
    Row::NoPlainPlace(b"sip:alice:secretword@atlanta.com"),
    Row::NoPlainPlace(b"sip:%61@far.net"),
    Row::NoPlainPlace(b"sip:a@far.net?subject=x"),
    Row::NoPlainPlace(b"sip:a@far.net;transport=udp"),
    Row::NoPlainPlace(b"sips:a@far.net"),
    Row::NoPlainPlace(b"SIP:a@far.net"),
    Row::NoPlainPlace(b"sip:a@[::1]:5060"),
    Row::NoPlainPlace(b"sip:a@far.net:99999"),
];

pub(crate) fn scheme_printed(alloc: Global) -> bool {
    gives_text(
        UriError::Scheme.to_string(alloc),
        "neither a sip nor a sips URI",
    )
}
