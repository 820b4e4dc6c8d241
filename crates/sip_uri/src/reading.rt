ghost use Rattle.std.specs.Prelude.{◌≡◌, IfOk, IfErr, Ok, Err};
ghost use Rattle.std.specs.Result.{result_ok};
ghost use Rattle.sip_uri.specs.Uri.{IsWritten};
ghost use Rattle.sip_uri.specs.Reading.{Gives, rest_of, reading_of};

use crate::error::UriError;
use crate::headers::read_headers;
use crate::parameters::read_parameters;
use crate::parts::cut_rest;
use crate::place::read_place;
use crate::scheme::{Scheme, behind_sip, scheme_named};
use crate::uri::Uri;
use crate::user::user_before;
use sip_text::split_once;
use std::alloc::{AllocError, Global};

/// The URI that a text behind its scheme writes. The `@` is looked for first, since a user may have `;` and `?`.
#[tactic(auto, unfolding(crate::specs::Reading::rest_of))]
fn read_rest(alloc: Global, scheme: Scheme, text: &[u8]) -> Result<Uri, UriError>
    ensures { Gives (λ uri. uri) result (rest_of scheme text.now) }
{
    let (userinfo, rest) = user_before(alloc, text)?;
    let (place, parameters, headers) = cut_rest(rest);
    let (host, port) = read_place(alloc, place)?;
    let parameters = read_parameters(alloc, parameters)?;
    let headers = read_headers(alloc, headers)?;
    Ok(Uri {
        scheme,
        userinfo,
        host,
        port,
        parameters,
        headers,
    })
}

/// The scheme before the `:` of a text, and what follows.
#[tactic(auto, unfolding(crate::specs::Reading::reading_of))]
fn cut_named(text: &[u8]) -> Result<(Scheme, &[u8]), UriError>
    ensures ok { IfOk result (λ x. reading_of text.now ≡ rest_of x.0 x.1.now) }
    ensures err { IfErr result (λ e. reading_of text.now ≡ Err e) }
{
    let (name, rest) = split_once(text, b':').ok_or(UriError::Syntax)?;
    let scheme = scheme_named(name)?;
    Ok((scheme, rest))
}

/// The same, where most URIs begin with `sip:`.
fn cut_scheme(text: &[u8]) -> Result<(Scheme, &[u8]), UriError>
    ensures ok { IfOk result (λ x. reading_of text.now ≡ rest_of x.0 x.1.now) }
    ensures err { IfErr result (λ e. reading_of text.now ≡ Err e) }
{
    match behind_sip(text) {
        Some(rest) => Ok((Scheme::Sip, rest)),
        None => cut_named(text),
    }
}

fn read_uri(alloc: Global, text: &[u8]) -> Result<Uri, UriError>
    ensures { Gives (λ uri. uri) result (reading_of text.now) }
{
    let (scheme, rest) = cut_scheme(text)?;
    read_rest(alloc, scheme, rest)
}

/// The URI that bytes write (RFC 3261 19.1.1). Another scheme than `sip` and `sips` is refused as
/// Scheme; what isn't of the grammar as Syntax.
pub fn parse_uri(alloc: Global, text: &[u8]) -> Result<Uri, UriError>
    // The URI, or why there is none.
    ensures exact { Gives (λ uri. uri) result (reading_of text.now) }
    // What is read is written so in the grammar.
    ensures grammar { IfOk result (λ uri. IsWritten text.now uri) }
    // What is written so in the grammar is read.
    ensures only { (uri : Uri) → IsWritten text.now uri → Gives (λ uri. uri) result (Ok uri) }
{
    read_uri(alloc, text)
}

/// The SIP or SIPS URI that bytes write, if they write one, where nobody asks why they don't. `AllocError` is the only refusal.
pub fn uri_in(alloc: Global, text: &[u8]) -> Result<Option<Uri>, AllocError>
    ensures { IfOk result (λ uri. uri ≡ result_ok (reading_of text.now)) }
{
    match parse_uri(alloc, text) {
        Ok(uri) => Ok(Some(uri)),
        Err(UriError::NoMemory) => Err(AllocError),
        Err(_) => Ok(None),
    }
}
