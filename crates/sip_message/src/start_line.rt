//! The first line of a message read: a request line (RFC 3261 7.1) or a status line (7.2).
//! Which versions are served is not asked here but in `sip_validate`.
ghost use Rattle.std.specs.Prelude.{◌≡◌, Ok, IfSome, Some};
ghost use Rattle.std.specs.List.{list_all};
ghost use Rattle.std.specs.Option.{ok_or, option_and_then};
ghost use Rattle.std.specs.Char.{is_ascii_digit};
ghost use Rattle.sip_text.specs.Splits.{split_at_byte};
ghost use Rattle.sip_text_runs.specs.TextRun.{is_visible};
ghost use Rattle.sip_message.specs.Start.{is_uri, is_number, is_pair, is_unbroken, version_of, status_of, request_of};
ghost use Rattle.sip_message.specs.Start.{start_from, start_of};
ghost use Rattle.sip_message_form.specs.ViewStart.{start_seen};
ghost use Rattle.sip_message.specs.Reading.{Gives};
ghost use Rattle.sip_message_form.specs.declared.error.ReadError.TheVariants.{NotSip};

use sip_message_fields::Value;
use sip_message_form::{ViewError, ViewRefusal, ViewStart};
use sip_text::{Bytes, decimal, is_token, same_bytes, same_no_case, split_once};
use sip_text_runs::{name_end, visible_length};
use std::alloc::Global;

/// Whether each byte is one from `!` to `~`.
fn all_visible(bytes: &[u8]) -> bool
    ensures { result ≡ list_all is_visible bytes.now }
{
    for byte in bytes {
        if !(b'!'..=b'~').contains(byte) {
            return false;
        }
    }
    true
}

/// Whether each byte is a digit.
fn all_digits(bytes: &[u8]) -> bool
    ensures { result ≡ list_all is_ascii_digit bytes.now }
{
    for byte in bytes {
        if !byte.is_ascii_digit() {
            return false;
        }
    }
    true
}

/// Whether no byte is CR or LF.
fn all_unbroken(bytes: &[u8]) -> bool
    ensures { result ≡ list_all is_unbroken bytes.now }
{
    for byte in bytes {
        if *byte == b'\r' || *byte == b'\n' {
            return false;
        }
    }
    true
}

/// Whether bytes may stand as a Request-URI: one or more from `!` to `~`.
fn is_request_uri(bytes: &[u8]) -> bool
    ensures { result ≡ is_uri bytes.now }
{
    if bytes.is_empty() {
        return false;
    }
    all_visible(bytes)
}

/// Whether bytes are one or more digits.
fn is_digits(bytes: &[u8]) -> bool
    ensures { result ≡ is_number bytes.now }
{
    if bytes.is_empty() {
        return false;
    }
    all_digits(bytes)
}

/// Whether bytes are digits, `.` and digits.
fn are_numbers(bytes: &[u8]) -> bool
    ensures { result ≡ is_pair (split_at_byte 46 bytes.now) }
{
    let Some((major, minor)) = split_once(bytes, b'.') else {
        return false;
    };
    is_digits(major) && is_digits(minor)
}

/// The version that is written so, in upper case (RFC 3261 7.1).
fn version_from<'a>(alloc: Global, word: &'a [u8]) -> Result<Value<'a>, ViewError<'a>>
    ensures { Gives (λ version. version) result (ok_or (version_of word.now) NotSip) }
{
    if word.len() < 4 {
        return Err(ViewError::new(ViewRefusal::NotSip));
    }
    let (name, numbers) = word.split_at(4);
    if !same_no_case(name, b"SIP/") {
        return Err(ViewError::new(ViewRefusal::NotSip));
    }
    if !are_numbers(numbers) {
        return Err(ViewError::new(ViewRefusal::NotSip));
    }
    if same_bytes(name, b"SIP/") {
        return Ok(Value::of_part(word));
    }
    let version = Bytes::joined(alloc, b"SIP/", numbers)?;
    Ok(Value::of_bytes(alloc, version)?)
}

/// A status line from its three digits and its reason (RFC 3261 7.2).
fn status_from<'a>(digits: &[u8], reason: &'a [u8]) -> Result<ViewStart<'a>, ViewError<'a>>
    ensures { Gives start_seen result (ok_or (status_of digits.now reason.now) NotSip) }
{
    if digits.len() != 3 {
        return Err(ViewError::new(ViewRefusal::NotSip));
    }
    if !all_unbroken(reason) {
        return Err(ViewError::new(ViewRefusal::NotSip));
    }
    let Some(code) = decimal(digits) else {
        return Err(ViewError::new(ViewRefusal::NotSip));
    };
    if !(100 <= code && code < 700) {
        return Err(ViewError::new(ViewRefusal::NotSip));
    }
    Ok(ViewStart::Status {
        code: code as u16,
        reason,
    })
}

/// A request line from its three parts (RFC 3261 7.1).
fn request_from<'a>(
    alloc: Global,
    method: &'a [u8],
    uri: &'a [u8],
    version: &'a [u8],
) -> Result<ViewStart<'a>, ViewError<'a>>
    ensures { Gives start_seen result (ok_or (request_of method.now uri.now version.now) NotSip) }
{
    if !is_token(method) {
        return Err(ViewError::new(ViewRefusal::NotSip));
    }
    if !is_request_uri(uri) {
        return Err(ViewError::new(ViewRefusal::NotSip));
    }
    let version = version_from(alloc, version)?;
    Ok(ViewStart::Request {
        method,
        uri,
        version,
    })
}

/// A request line as most write it: the method is few letters, and the version is `SIP/2.0` in upper case. No space is looked
/// for in it. None says nothing.
fn plain_request(line: &[u8]) -> Option<ViewStart<'_>>
    ensures { IfSome result (λ start. start_of line.now ≡ Some (start_seen start)) }
{
    let (method, behind) = line.split_at(name_end(line, b' ')?);
    let (_, behind) = behind.split_at(1);
    let (uri, behind) = behind.split_at(visible_length(behind));
    if uri.is_empty() {
        return None;
    }
    if !same_bytes(behind, b" SIP/2.0") {
        return None;
    }
    let (_, version) = behind.split_at(1);
    Some(ViewStart::Request {
        method,
        uri,
        version: Value::of_part(version),
    })
}

/// A line cut at its first two spaces.
fn three_words(line: &[u8]) -> Option<(&[u8], &[u8], &[u8])>
    ensures { option_and_then (λ x. start_from x.0.now x.1.now x.2.now) result ≡ start_of line.now }
{
    let (first, rest) = split_once(line, b' ')?;
    let (second, third) = split_once(rest, b' ')?;
    Some((first, second, third))
}

/// The start line of a request or a response, cut at its first two spaces. A line whose first word is SIP/2.0 is a
/// status line or none, since that is no method.
pub(crate) fn start_of_line<'a>(
    alloc: Global,
    line: &'a [u8],
) -> Result<ViewStart<'a>, ViewError<'a>>
    ensures { Gives start_seen result (ok_or (start_of line.now) NotSip) }
{
    if let Some(start) = plain_request(line) {
        return Ok(start);
    }
    let Some((first, second, third)) = three_words(line) else {
        return Err(ViewError::new(ViewRefusal::NotSip));
    };
    if same_no_case(first, b"SIP/2.0") {
        status_from(second, third)
    } else {
        request_from(alloc, first, second, third)
    }
}
