ghost use Rattle.std.specs.Prelude.{◌≡◌, IfOk, Some, option_map};
ghost use Rattle.sip_auth.specs.Proof.{key_of, proof_by, proof_from, proof_of};

use crate::claim::Claim;
use crate::claiming::claim_of;
use crate::proof::Proof;
use crate::realm::{credentials_field, first_for_realm};
use crate::uris::is_equal_uri;
use sip_digest::{Algorithm, Nonces};
use sip_message_form::{View, ViewStart};
use sip_policy::{User, Users};
use std::alloc::{AllocError, Global};

/// The H(A1) of a user by an algorithm.
fn key_of(user: &User, algorithm: Algorithm) -> Option<&[u8]>
    ensures { option_map (λ key. key.now) result ≡ key_of user.now algorithm }
{
    match algorithm {
        Algorithm::Md5 => Some(&user.a1),
        Algorithm::Sha256 => match &user.a1_sha256 {
            Some(key) => Some(key),
            None => None,
        },
    }
}

/// What a claim to be a user proves.
fn proof_by<'v>(
    alloc: Global,
    user: &User,
    nonces: &Nonces,
    now: u64,
    claim: Claim<'v>,
) -> Result<Proof<'v>, AllocError>
    ensures { IfOk result (λ proof. proof ≡ proof_by nonces.now now claim.entry (Some user.now)) }
{
    let credential = claim.credential();
    let Some(key) = key_of(user, credential.algorithm) else {
        return Ok(Proof::wrong());
    };
    let checked = nonces.check(key, &credential, now);
    Proof::judged(alloc, claim, checked)
}

/// What a claim for a request of a Request-URI proves.
fn proof_from<'v>(
    alloc: Global,
    users: &Users,
    nonces: &Nonces,
    now: u64,
    uri: &[u8],
    claim: Claim<'v>,
) -> Result<Proof<'v>, AllocError>
    ensures { IfOk result (λ proof. proof ≡ proof_from users.now nonces.now now uri.now (Some claim.entry)) }
{
    let credential = claim.credential();
    if claim.count().is_none() {
        return Ok(Proof::wrong());
    }
    if !is_equal_uri(alloc, credential.uri, uri)? {
        return Ok(Proof::wrong());
    }
    match users.find(claim.name()) {
        Some(user) => proof_by(alloc, user, nonces, now, claim),
        None => Ok(Proof::wrong()),
    }
}

/// Whom a request proves to come from: a configured user, by the first readable Digest credentials for the realm in
/// the request's field for them (Authorization of a REGISTER, Proxy-Authorization of any other), for its own
/// Request-URI as it came, at a moment in milliseconds, by the nonces that were issued (RFC 2617 3.2.2, 3.3;
/// RFC 3261 22; RFC 8760 2). One pass over the fields; the user is found in constant time. `AllocError` is the only
/// refusal.
pub fn proof_of<'v>(
    alloc: Global,
    realm: &[u8],
    users: &Users,
    nonces: &Nonces,
    now: u64,
    message: &'v View<'_>,
) -> Result<Proof<'v>, AllocError>
    ensures { IfOk result (λ proof. proof ≡ proof_of realm.now users.now nonces.now now message.now) }
{
    let ViewStart::Request { method, uri, .. } = message.start() else {
        return Ok(Proof::wrong());
    };
    let name = credentials_field(method);
    let Some(credentials) = first_for_realm(alloc, realm, &name, message.fields().as_slice())?
    else {
        return Ok(Proof::wrong());
    };
    let Some(claim) = claim_of(method, credentials) else {
        return Ok(Proof::wrong());
    };
    proof_from(alloc, users, nonces, now, uri, claim)
}
