//! Values that hold an address (RFC 3261 20.10), as those of From, To and Contact: a URI, in brackets or without, and parameters.
//! `written_address` reads the plainest of them without making a URI.
ghost use Rattle.std.specs.Prelude.{◌≡◌, IfOk, if◌then◌else◌, Some, None};
ghost use Rattle.std.specs.List.{list_all};
ghost use Rattle.sip_text.specs.Cuts.{parts_at, split_outside};
ghost use Rattle.sip_header.specs.NameAddr.{is_opaque_byte, is_opaque, other_of, with_parameters, is_bare_byte, bare_in};
ghost use Rattle.sip_header.specs.NameAddr.{is_word_byte, is_display, behind_bracket, bracketed_by, name_addr_of};
ghost use Rattle.sip_header.specs.AddressParts.{parts_say};
ghost use Rattle.sip_header.specs.Route.{route_of};

use crate::parameters::{Parameters, parameters_from};
use sip_message_form::fields::Value;
use sip_text::{Text, first_part, is_quoted, split_outside, without_blanks};
use sip_uri::{Uri, UriError, parse_uri, write_uri};
use std::alloc::{AllocError, Global};

/// A URI of any scheme.
#[derive(Drop)]
pub enum AnyUri<'a> {
    Sip(Uri),
    /// One of another scheme than `sip` and `sips`, as it was written.
    Other(Text<'a>),
}

impl<'a> AnyUri<'a> {
    ghost use Rattle.sip_header.specs.Route.{uri_text};

    /// Its text: of a SIP or SIPS URI the written form, of another the bytes that were read. `AllocError` is the
    /// only refusal.
    pub fn text(&self, alloc: Global) -> Result<Value<'a>, AllocError>
        ensures { IfOk result (λ text. text ≡ uri_text self.now) }
    {
        match self {
            AnyUri::Sip(uri) => Value::of_bytes(alloc, write_uri(alloc, uri)?),
            AnyUri::Other(text) => Ok(Value::of_part(text.as_slice())),
        }
    }
}

/// A URI with header parameters. A display name is read and not kept.
pub struct NameAddr<'a> {
    pub uri: AnyUri<'a>,
    pub parameters: Parameters<'a>,
}

/// Written out, so that it is proved once and not wherever an address is dropped.
impl<'a> Drop for NameAddr<'a> {
    fn drop(self) {
        let NameAddr {
            uri: _,
            parameters: _,
        } = self;
    }
}

impl<'a> NameAddr<'a> {
    /// Its URI and its parameters, which it gives up.
    pub(crate) fn into_parts(self) -> (AnyUri<'a>, Parameters<'a>)
        ensures uri { result.0 ≡ self.entry.uri }
        ensures parameters { result.1 ≡ self.entry.parameters }
    {
        let NameAddr { uri, parameters } = self;
        (uri, parameters)
    }

    /// Its URI, which it gives up.
    pub fn into_uri(self) -> AnyUri<'a>
        ensures { result ≡ self.entry.uri }
    {
        let NameAddr { uri, parameters: _ } = self;
        uri
    }
}

fn is_opaque_byte(byte: u8) -> bool
    ensures { result ≡ is_opaque_byte byte }
{
    (33..=126).contains(&byte) && !matches!(byte, b'"' | b'<' | b'>')
}

fn all_opaque_bytes(bytes: &[u8]) -> bool
    ensures { result ≡ list_all is_opaque_byte bytes.now }
{
    bytes.iter().all(|byte| is_opaque_byte(*byte))
}

fn all_bare_bytes(bytes: &[u8]) -> bool
    ensures { result ≡ list_all is_bare_byte bytes.now }
{
    for byte in bytes {
        if *byte == b'?' || *byte == b',' {
            return false;
        }
    }
    true
}

// For each byte whether it may stand in a display name without quotes.
static WORD_BYTES: [u8; 256] = *b"\
    00000000010000000000000000000000\
    11000101001101101111111111000000\
    01111111111111111111111111100001\
    11111111111111111111111111100010\
    00000000000000000000000000000000\
    00000000000000000000000000000000\
    00000000000000000000000000000000\
    00000000000000000000000000000000";

fn is_word_byte(byte: u8) -> bool
    ensures { result ≡ is_word_byte byte }
{
    WORD_BYTES[byte as usize] & 1 != 0
}

fn all_word_bytes(bytes: &[u8]) -> bool
    ensures { result ≡ list_all is_word_byte bytes.now }
{
    for byte in bytes {
        if !is_word_byte(*byte) {
            return false;
        }
    }
    true
}

/// Whether one or more bytes that may stand in a URI are behind the first `:`.
fn has_opaque_part(bytes: &[u8]) -> bool
    ensures { result ≡ is_opaque (split_outside 58 bytes.now) }
{
    let Some((_, part)) = split_outside(bytes, b':') else {
        return false;
    };
    if part.is_empty() {
        return false;
    }
    all_opaque_bytes(part)
}

/// A URI of another scheme.
fn other_uri(bytes: &[u8]) -> Option<AnyUri<'_>>
    ensures { result ≡ other_of bytes.now }
{
    if !has_opaque_part(bytes) {
        return None;
    }
    Some(AnyUri::Other(Text::new(bytes)))
}

/// The text of an address's URI, and its parameters: what stands where in a value, of whose URI nothing is known.
#[derive(Drop)]
pub(crate) struct NameAddrParts<'v> {
    uri: &'v [u8],
    parameters: Parameters<'v>,
}

/// An address of a URI of another scheme, and of these parameters.
fn other_address(parts: NameAddrParts<'_>) -> Option<NameAddr<'_>>
    ensures { result ≡ with_parameters (Some parts.entry.parameters) (other_of parts.entry.uri.now) }
{
    let uri = other_uri(parts.uri)?;
    Some(NameAddr {
        uri,
        parameters: parts.parameters,
    })
}

/// The address of these parts, if their URI is one of any scheme.
pub(crate) fn address_of<'v>(
    alloc: Global,
    parts: Option<NameAddrParts<'v>>,
) -> Result<Option<NameAddr<'v>>, AllocError>
    ensures { IfOk result (λ found. found ≡ parts_say parts.entry) }
{
    let Some(parts) = parts else {
        return Ok(None);
    };
    match parse_uri(alloc, parts.uri) {
        Ok(uri) => Ok(Some(NameAddr {
            uri: AnyUri::Sip(uri),
            parameters: parts.parameters,
        })),
        Err(UriError::NoMemory) => Err(AllocError),
        Err(UriError::Scheme) => Ok(other_address(parts)),
        Err(UriError::Syntax) => Ok(None),
    }
}

/// Whether bytes are a display name, or nothing.
fn is_display_name(bytes: &[u8]) -> bool
    ensures { result ≡ is_display bytes.now }
{
    if all_word_bytes(bytes) {
        return true;
    }
    is_quoted(without_blanks(bytes))
}

/// A URI without brackets, and parameters.
#[tactic(auto, using(crate::proofs::Unread::no_parameters))]
fn bare(bytes: &[u8]) -> Option<NameAddrParts<'_>>
    ensures { parts_say result ≡ bare_in (parts_at 59 bytes.now) }
{
    let (uri, behind) = first_part(bytes, b';');
    if !all_bare_bytes(uri) {
        return None;
    }
    let parameters = parameters_from(behind)?;
    let uri = without_blanks(uri);
    Some(NameAddrParts { uri, parameters })
}

/// The parameters behind the `>` of an address (RFC 3261 20.10), each behind its `;`. None where something else stands there. Takes no
/// memory.
pub fn parameters_behind_bracket(bytes: &[u8]) -> Option<Parameters<'_>>
    ensures { result ≡ behind_bracket (parts_at 59 bytes.now) }
{
    let (gap, behind) = first_part(bytes, b';');
    if !without_blanks(gap).is_empty() {
        return None;
    }
    parameters_from(behind)
}

/// A URI up to its `>`, and parameters.
#[tactic(auto, using(crate::proofs::Unread::no_parameters))]
fn bracketed(bytes: &[u8]) -> Option<NameAddrParts<'_>>
    ensures { parts_say result ≡ bracketed_by (split_outside 62 bytes.now) }
{
    let (uri, behind) = split_outside(bytes, b'>')?;
    let parameters = parameters_behind_bracket(behind)?;
    let uri = without_blanks(uri);
    Some(NameAddrParts { uri, parameters })
}

/// The parts of an address in brackets: what stands before its `<`, and what stands behind.
fn in_brackets<'v>(display: &[u8], rest: &'v [u8]) -> Option<NameAddrParts<'v>>
    ensures { parts_say result ≡ (if is_display display.now then bracketed_by (split_outside 62 rest.now) else None) }
{
    if !is_display_name(display) {
        return None;
    }
    bracketed(rest)
}

/// The parts of the value of a field that holds an address.
fn parts_in(value: &[u8]) -> Option<NameAddrParts<'_>>
    ensures { parts_say result ≡ name_addr_of value.now }
{
    match split_outside(value, b'<') {
        Some((display, rest)) => in_brackets(display, rest),
        None => bare(value),
    }
}

/// The parts of a value that is an address in brackets.
pub(crate) fn bracketed_parts_in(value: &[u8]) -> Option<NameAddrParts<'_>>
    ensures { parts_say result ≡ route_of value.now }
{
    let (display, rest) = split_outside(value, b'<')?;
    in_brackets(display, rest)
}

/// What the value of a field says that holds an address, as From and To: a name-addr or a URI without brackets,
/// and header parameters (RFC 3261 20.10). None where it is malformed. `AllocError` is the only refusal.
pub fn name_addr_of(alloc: Global, value: &[u8]) -> Result<Option<NameAddr<'_>>, AllocError>
    ensures { IfOk result (λ found. found ≡ name_addr_of value.now) }
{
    address_of(alloc, parts_in(value))
}
