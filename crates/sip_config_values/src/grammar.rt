//! Which texts a configuration takes for a realm, a host, a name, a digest and a method. Which key wants which is said in `sip_config`.
ghost use Rattle.std.specs.Prelude.{◌≡◌};
ghost use Rattle.std.specs.List.{list_all};
ghost use Rattle.sip_config_values.specs.Grammar as Definitions;

use sip_text::{is_token, same_bytes};
use sip_uri::{begins_bracket, is_host};

/// What a text of a configuration has to be.
#[derive(Clone, Copy)]
pub enum Grammar {
    /// A realm: 1 to 128 bytes from a space to `~`, without `"` and `\`.
    Realm,
    /// The host that the server calls itself: a host name of at most 255 bytes.
    OwnHost,
    /// A host without brackets.
    HostName,
    /// Any host.
    Host,
    /// A name of a user, of a group or of a hop: 1 to 64 letters, digits, `-`, `_`, `.` and `+`, the first
    /// a letter or a digit.
    Name,
}

impl Grammar {
    /// Whether a text is of the grammar.
    pub fn accepts(self, text: &[u8]) -> bool
        ensures { result ≡ Definitions.accepts self text.now }
    {
        match self {
            Grammar::Realm => is_realm(text),
            Grammar::OwnHost => is_own_host_name(text),
            Grammar::HostName => is_host_name(text),
            Grammar::Host => is_host(text),
            Grammar::Name => is_name(text),
        }
    }
}

fn is_realm_byte(byte: u8) -> bool
    ensures { result ≡ Definitions.is_realm_byte byte }
{
    32 <= byte && byte <= 126 && byte != b'"' && byte != b'\\'
}

fn are_realm_bytes(text: &[u8]) -> bool
    ensures { result ≡ list_all Definitions.is_realm_byte text.now }
{
    text.iter().all(|byte| is_realm_byte(*byte))
}

fn is_realm(text: &[u8]) -> bool
    ensures { result ≡ Definitions.is_realm text.now }
{
    1 <= text.len() && text.len() <= 128 && are_realm_bytes(text)
}

/// Whether a text is a host without brackets.
fn is_host_name(text: &[u8]) -> bool
    ensures { result ≡ Definitions.is_host_name text.now }
{
    is_host(text) && !begins_bracket(text)
}

fn is_own_host_name(text: &[u8]) -> bool
    ensures { result ≡ Definitions.is_own_host_name text.now }
{
    is_host_name(text) && text.len() <= 255
}

fn is_name_byte(byte: u8) -> bool
    ensures { result ≡ Definitions.is_name_byte byte }
{
    byte.is_ascii_alphanumeric() || matches!(byte, b'-' | b'_' | b'.' | b'+')
}

fn are_name_bytes(text: &[u8]) -> bool
    ensures { result ≡ list_all Definitions.is_name_byte text.now }
{
    text.iter().all(|byte| is_name_byte(*byte))
}

/// Whether a text is a name of a user, of a group or of a hop.
pub(crate) fn is_name(text: &[u8]) -> bool
    ensures { result ≡ Definitions.is_name text.now }
{
    let Some((first, rest)) = text.split_first() else {
        return false;
    };
    first.is_ascii_alphanumeric() && rest.len() <= 63 && are_name_bytes(rest)
}

fn is_lower_hex(byte: u8) -> bool
    ensures { result ≡ Definitions.is_lower_hex byte }
{
    byte.is_ascii_digit() || (b'a' <= byte && byte <= b'f')
}

/// Whether all bytes are hexadecimal digits in lower case.
pub(crate) fn are_lower_hex(text: &[u8]) -> bool
    ensures { result ≡ list_all Definitions.is_lower_hex text.now }
{
    text.iter().all(|byte| is_lower_hex(*byte))
}

/// Whether a text is a method of requests that are sent on: a token but REGISTER, ACK and CANCEL.
pub(crate) fn is_sent_method(text: &[u8]) -> bool
    ensures { result ≡ Definitions.is_sent_method text.now }
{
    is_token(text)
        && !same_bytes(text, b"REGISTER")
        && !same_bytes(text, b"ACK")
        && !same_bytes(text, b"CANCEL")
}
