ghost use Rattle.std.specs.Prelude.{◌≡◌, ◌++◌, codes, IfSome};
ghost use Rattle.std.specs.List.{list_all};
ghost use Rattle.sip_uri.specs.Scheme as Definitions;

use crate::error::UriError;
use sip_text::same_no_case;

/// The scheme of a URI (RFC 3261 19.1).
#[derive(Clone, Copy)]
pub enum Scheme {
    Sip,
    Sips,
}

impl Scheme {
    ghost use Rattle.sip_uri.specs.Scheme.{scheme_text};

    /// The scheme as it is written, in lower case.
    pub fn text(self) -> &'static [u8]
        ensures { result.now ≡ scheme_text self }
    {
        match self {
            Scheme::Sip => b"sip",
            Scheme::Sips => b"sips",
        }
    }
}

fn are_scheme_bytes(bytes: &[u8]) -> bool
    ensures { result ≡ list_all Definitions.is_scheme_byte bytes.now }
{
    bytes.iter().all(|byte| byte.is_ascii_alphanumeric() || matches!(byte, b'+' | b'-' | b'.'))
}

/// Whether bytes are the name of a scheme: a letter, then letters, digits and `+-.`.
fn is_scheme_name(name: &[u8]) -> bool
    ensures { result ≡ Definitions.is_scheme_name name.now }
{
    let Some((first, others)) = name.split_first() else {
        return false;
    };
    if !first.is_ascii_alphabetic() {
        return false;
    }
    are_scheme_bytes(others)
}

/// The scheme of this name, in any case.
pub(crate) fn scheme_named(name: &[u8]) -> Result<Scheme, UriError>
    ensures { result ≡ Definitions.scheme_of name.now }
{
    if same_no_case(name, b"sip") {
        return Ok(Scheme::Sip);
    }
    if same_no_case(name, b"sips") {
        return Ok(Scheme::Sips);
    }
    if is_scheme_name(name) {
        return Err(UriError::Scheme);
    }
    Err(UriError::Syntax)
}

/// What follows a `sip:` at the front of a text, if one stands there so.
#[inline]
pub(crate) fn behind_sip(text: &[u8]) -> Option<&[u8]>
    ensures { IfSome result (λ rest. text.now ≡ codes "sip:" ++ rest.now) }
{
    let Some((b's', rest)) = text.split_first() else {
        return None;
    };
    let Some((b'i', rest)) = rest.split_first() else {
        return None;
    };
    let Some((b'p', rest)) = rest.split_first() else {
        return None;
    };
    let Some((b':', rest)) = rest.split_first() else {
        return None;
    };
    Some(rest)
}
