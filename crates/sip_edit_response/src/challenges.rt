//! The fields of a challenge (RFC 2617 3.2.1; RFC 8760 2.3), by MD5, or by SHA-256 and then by MD5.
//! Who is challenged, and with which nonce, is decided by who calls (`sip_uas`).
ghost use Rattle.std.specs.Prelude.{◌≡◌, [], ◌∷◌, ◌++◌, IfOk, OnOk};
ghost use Rattle.sip_edit_response.specs.Challenges;

use sip_digest::Algorithm;
use sip_message_fields::{Field, FieldName, Fields};
use sip_text::{Buffer, Bytes};
use std::alloc::{AllocError, Global};

/// The most bytes of a challenge besides its realm and its nonce.
const REST_OF_CHALLENGE: usize = 68;

/// What says that only the nonce was wrong.
fn stale_part(stale: bool) -> &'static [u8]
    ensures { result.now ≡ Challenges.stale_part stale }
{
    if stale { b", stale=true" } else { b"" }
}

/// What says by which algorithm a challenge is to be answered.
fn algorithm_part(algorithm: Algorithm) -> &'static [u8]
    ensures { result.now ≡ Challenges.algorithm_part algorithm }
{
    match algorithm {
        Algorithm::Md5 => b"\", algorithm=MD5, qop=\"auth\"",
        Algorithm::Sha256 => b"\", algorithm=SHA-256, qop=\"auth\"",
    }
}

/// The value of WWW-Authenticate or Proxy-Authenticate that asks for credentials of a realm with a nonce,
/// by an algorithm (RFC 2617 3.2.1). `stale` says that the credentials were right and their nonce was not.
/// `AllocError` is the only refusal.
pub fn challenge(
    alloc: Global,
    algorithm: Algorithm,
    realm: &[u8],
    nonce: &[u8],
    stale: bool,
) -> Result<Bytes, AllocError>
    ensures { IfOk result (λ value. value ≡ Challenges.challenge algorithm realm.now nonce.now stale) }
{
    let room = realm.len().saturating_add(nonce.len());
    let mut value = Buffer::with_room(alloc, room.saturating_add(REST_OF_CHALLENGE))?;
    value.extend(b"Digest realm=\"")?;
    value.extend(realm)?;
    value.extend(b"\", nonce=\"")?;
    value.extend(nonce)?;
    value.extend(algorithm_part(algorithm))?;
    value.extend(stale_part(stale))?;
    Ok(value.into_bytes())
}

/// Adds the field of a name that challenges by an algorithm.
fn add_challenge(
    alloc: Global,
    fields: &mut Fields,
    name: &FieldName,
    algorithm: Algorithm,
    realm: &[u8],
    nonce: &[u8],
    stale: bool,
) -> Result<(), AllocError>
    ensures { OnOk result
        (fields.new ≡ fields.old ++ record { name = name.now; value = Challenges.challenge algorithm realm.now nonce.now stale } ∷ []) }
{
    let name = name.clone()?;
    let value = challenge(alloc, algorithm, realm, nonce, stale)?;
    fields.push(Field { name, value })?;
    Ok(())
}

/// The fields of a name that challenge: by MD5 alone, or by SHA-256 and then by MD5, with one nonce, and
/// all of them stale or none (RFC 8760 2.3). `AllocError` is the only refusal.
pub fn challenge_fields(
    alloc: Global,
    name: &FieldName,
    with_sha256: bool,
    realm: &[u8],
    nonce: &[u8],
    stale: bool,
) -> Result<Fields, AllocError>
    ensures { IfOk result (λ fields. fields ≡ Challenges.challenge_fields name.now with_sha256 realm.now nonce.now stale) }
{
    let mut fields = Fields::new(alloc);
    if with_sha256 {
        add_challenge(
            alloc,
            &mut fields,
            name,
            Algorithm::Sha256,
            realm,
            nonce,
            stale,
        )?;
    }
    add_challenge(
        alloc,
        &mut fields,
        name,
        Algorithm::Md5,
        realm,
        nonce,
        stale,
    )?;
    Ok(fields)
}
