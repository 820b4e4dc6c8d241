ghost use Rattle.std.specs.Prelude.{◌≡◌};
ghost use Rattle.sip_auth.specs.Proof.{algorithm_of, protection_of, is_protected, claim_with, claim_of};

use crate::claim::{Claim, protection_in};
use crate::quality::Quality;
use sip_digest::{Algorithm, nonce_count};
use sip_header_credentials::Credentials;
use sip_message_fields::Value;
use sip_text::{same_bytes, same_no_case};

/// The algorithm of a name, in any case; MD5 where none is named (RFC 2617 3.2.1; RFC 8760 2.1).
fn algorithm_of(name: &Option<Value<'_>>) -> Option<Algorithm>
    ensures { result ≡ algorithm_of name.now }
{
    let Some(name) = name else {
        return Some(Algorithm::Md5);
    };
    if same_no_case(name.as_slice(), b"MD5") {
        return Some(Algorithm::Md5);
    }
    if same_no_case(name.as_slice(), b"SHA-256") {
        return Some(Algorithm::Sha256);
    }
    None
}

/// The quality of protection that credentials name, if what they name is one that is taken (RFC 2617 3.2.2).
fn protection_of<'v>(
    qop: Option<Value<'v>>,
    nc: Option<Value<'v>>,
    cnonce: Option<Value<'v>>,
) -> Option<Option<Quality<'v>>>
    ensures { result ≡ protection_of qop.entry nc.entry cnonce.entry }
{
    let Some(qop) = qop else {
        return Some(None);
    };
    if !same_bytes(qop.as_slice(), b"auth") {
        return None;
    }
    Some(Some(Quality::new(nc?, cnonce?)))
}

/// Whether an algorithm has the quality of protection that it needs (RFC 7616 3.4).
fn is_protected(algorithm: Algorithm, protection: &Option<Quality<'_>>) -> bool
    ensures { result ≡ is_protected algorithm protection.now }
{
    match algorithm {
        Algorithm::Md5 => true,
        Algorithm::Sha256 => protection.is_some(),
    }
}

/// A claim with all its parts, or none.
fn claim_with<'v>(
    method: &'v [u8],
    algorithm: Algorithm,
    protection: Option<Quality<'v>>,
    name: Option<Value<'v>>,
    nonce: Option<Value<'v>>,
    uri: Option<Value<'v>>,
    response: Option<Value<'v>>,
) -> Option<Claim<'v>>
    ensures { result ≡ claim_with method.now algorithm protection.entry name.entry nonce.entry uri.entry response.entry }
{
    let count = nonce_count(protection_in(&protection));
    Some(Claim {
        name: name?,
        algorithm,
        method,
        uri: uri?,
        nonce: nonce?,
        protection,
        response: response?,
        count,
    })
}

/// What credentials claim for a request of a method, if they have what an answer needs.
pub(crate) fn claim_of<'v>(method: &'v [u8], c: Credentials<'v>) -> Option<Claim<'v>>
    ensures { result ≡ claim_of method.now c.entry }
{
    let algorithm = algorithm_of(&c.algorithm)?;
    let protection = protection_of(c.qop, c.nc, c.cnonce)?;
    if !is_protected(algorithm, &protection) {
        return None;
    }
    claim_with(
        method, algorithm, protection, c.username, c.nonce, c.uri, c.response,
    )
}
