ghost use Rattle.std.specs.Prelude.{option_map};
ghost use Rattle.std.specs.Option.{ok_or};
ghost use Rattle.sip_uri.specs.Reading.{Gives, header_of, headers_of, headers_behind};
ghost use Rattle.sip_uri.specs.declared.error.UriError.TheVariants.{Syntax};

use crate::error::UriError;
use crate::escape_classes::{Class, are_escaped, is_escaped};
use sip_text::{Bytes, Items, split_once};
use std::alloc::Global;

/// A header of a URI, as written (RFC 3261 19.1.1).
#[derive(Clone)]
pub struct UriHeader {
    /// The name, with its escapes.
    pub name: Bytes,
    /// The value, with its escapes. It may be empty.
    pub value: Bytes,
}

/// Written out, so that it is proved once and not wherever one is dropped.
impl Drop for UriHeader {
    fn drop(self) {
        let UriHeader { name: _, value: _ } = self;
    }
}

/// The header that a text writes: a name, `=` and a value, which may be empty.
fn read_header(alloc: Global, text: &[u8]) -> Result<UriHeader, UriError>
    ensures { Gives (λ header. header) result (ok_or (header_of text.now) Syntax) }
{
    let Some((name, value)) = split_once(text, b'=') else {
        return Err(UriError::Syntax);
    };
    if !is_escaped(Class::Header, name) {
        return Err(UriError::Syntax);
    }
    if !are_escaped(Class::Header, value) {
        return Err(UriError::Syntax);
    }
    let name = Bytes::copy(alloc, name)?;
    let value = Bytes::copy(alloc, value)?;
    Ok(UriHeader { name, value })
}

/// The headers between the `&` of a text.
fn list_headers(alloc: Global, text: &[u8]) -> Result<Items<UriHeader>, UriError>
    ensures { Gives (λ headers. headers) result (ok_or (headers_of text.now) Syntax) }
{
    let mut headers = Items::new(alloc);
    let mut rest = text;
    while let Some((part, behind)) = split_once(rest, b'&') {
        headers.push(read_header(alloc, part)?)?;
        rest = behind;
    }
    headers.push(read_header(alloc, rest)?)?;
    Ok(headers)
}

/// The headers behind the first `?`, if one stands there.
pub(crate) fn read_headers(alloc: Global, text: Option<&[u8]>) -> Result<Items<UriHeader>, UriError>
    ensures { Gives (λ headers. headers) result (ok_or (headers_behind (option_map (λ x. x.now) text.entry)) Syntax) }
{
    match text {
        Some(text) => list_headers(alloc, text),
        None => Ok(Items::new(alloc)),
    }
}
