//! What a client that knows a password answers to a challenge, by MD5 (RFC 2617 3.2.2.1 to 3.2.2.3) and by SHA-256 (RFC 7616 3.4).
//! What such an answer is worth is said in `nonces`.
ghost use Rattle.std.specs.Prelude.{◌≡◌, ℕ, List, [], ◌∷◌, ◌++◌, codes};
ghost use Rattle.std.specs.Str.{byte};
ghost use Rattle.sip_digest.specs.Answers.{parted, answered, a1_of, a2_of, answer_of};
ghost use Rattle.sip_digest.specs.Protection.{seen};
ghost use Rattle.sip_digest.specs.declared.algorithm.Algorithm.TheVariants as By;

use crate::hashing::{Hashing, digits_of_md5, digits_of_sha256, start_md5, start_sha256};
use crate::protection::Protection;

/// Adds a `:` and a part.
fn add_part<H: Hashing>(hasher: &mut H, part: &[u8])
    ensures { (m : List ℕ) → H.holds hasher.old m → H.holds hasher.new (m ++ byte ":" ∷ part.now) }
{
    hasher.take(b":");
    hasher.take(part);
}

/// Adds the parts of a protection.
fn add_protection<H: Hashing>(hasher: &mut H, protection: Protection<'_>)
    ensures { (m : List ℕ) → H.holds hasher.old m → H.holds hasher.new
        (m ++ byte ":" ∷ (protection.entry.nc.now ++ byte ":" ∷ (protection.entry.cnonce.now ++ byte ":" ∷ codes "auth"))) }
{
    add_part(hasher, protection.nc);
    add_part(hasher, protection.cnonce);
    add_part(hasher, b"auth");
}

/// Takes a user's name, realm and password.
fn take_user<H: Hashing>(hasher: &mut H, name: &[u8], realm: &[u8], password: &[u8])
    ensures { H.holds hasher.old [] → H.holds hasher.new (parted (name.now ∷ realm.now ∷ password.now ∷ [])) }
{
    hasher.take(name);
    add_part(hasher, realm);
    add_part(hasher, password);
}

/// Takes a method and a URI.
fn take_request<H: Hashing>(hasher: &mut H, method: &[u8], uri: &[u8])
    ensures { H.holds hasher.old [] → H.holds hasher.new (parted (method.now ∷ uri.now ∷ [])) }
{
    hasher.take(method);
    add_part(hasher, uri);
}

/// Takes what is answered.
fn take_answered<H: Hashing>(
    hasher: &mut H,
    a1: &[u8],
    nonce: &[u8],
    protection: Option<Protection<'_>>,
    a2: &[u8],
)
    ensures { H.holds hasher.old [] → H.holds hasher.new (parted (answered a1.now nonce.now (seen protection.entry) a2.now)) }
{
    hasher.take(a1);
    add_part(hasher, nonce);
    if let Some(protection) = protection {
        add_protection(hasher, protection);
    }
    add_part(hasher, a2);
}

/// The digest of a user's name, realm and password by MD5, in 32 lower-case digits: all that the server
/// needs to keep of a password (RFC 2617 3.2.2.2).
pub fn a1(name: &[u8], realm: &[u8], password: &[u8]) -> [u8; 32]
    ensures { result ≡ a1_of By.Md5 name.now realm.now password.now }
{
    let mut hasher = start_md5();
    take_user(&mut hasher, name, realm, password);
    digits_of_md5(hasher)
}

/// The same by SHA-256, in 64 lower-case digits (RFC 7616 3.4.2).
pub fn a1_sha256(name: &[u8], realm: &[u8], password: &[u8]) -> [u8; 64]
    ensures { result ≡ a1_of By.Sha256 name.now realm.now password.now }
{
    let mut hasher = start_sha256();
    take_user(&mut hasher, name, realm, password);
    digits_of_sha256(hasher)
}

/// The digest of a method and a URI by MD5 (RFC 2617 3.2.2.3).
fn a2(method: &[u8], uri: &[u8]) -> [u8; 32]
    ensures { result ≡ a2_of By.Md5 method.now uri.now }
{
    let mut hasher = start_md5();
    take_request(&mut hasher, method, uri);
    digits_of_md5(hasher)
}

/// The same by SHA-256 (RFC 7616 3.4.3).
fn a2_sha256(method: &[u8], uri: &[u8]) -> [u8; 64]
    ensures { result ≡ a2_of By.Sha256 method.now uri.now }
{
    let mut hasher = start_sha256();
    take_request(&mut hasher, method, uri);
    digits_of_sha256(hasher)
}

/// The answer to a challenge by MD5, in 32 lower-case digits: what a client that knows `a1` sends as its
/// `response` (RFC 2617 3.2.2.1).
pub fn answer(
    a1: &[u8],
    method: &[u8],
    uri: &[u8],
    nonce: &[u8],
    protection: Option<Protection<'_>>,
) -> [u8; 32]
    ensures { result ≡ answer_of By.Md5 a1.now method.now uri.now nonce.now (seen protection.entry) }
{
    let a2 = a2(method, uri);
    let mut hasher = start_md5();
    take_answered(&mut hasher, a1, nonce, protection, &a2);
    digits_of_md5(hasher)
}

/// The same by SHA-256, in 64 lower-case digits, of the `a1_sha256` of a user (RFC 7616 3.4.1).
pub fn answer_sha256(
    a1: &[u8],
    method: &[u8],
    uri: &[u8],
    nonce: &[u8],
    protection: Option<Protection<'_>>,
) -> [u8; 64]
    ensures { result ≡ answer_of By.Sha256 a1.now method.now uri.now nonce.now (seen protection.entry) }
{
    let a2 = a2_sha256(method, uri);
    let mut hasher = start_sha256();
    take_answered(&mut hasher, a1, nonce, protection, &a2);
    digits_of_sha256(hasher)
}
