use sip_auth::proof_of;
use sip_digest::{Nonces, a1};
use sip_message::view;
use sip_message_form::View;
use sip_policy::{PolicyError, User, Users};
use sip_text::{Bytes, Items};
use std::alloc::{AllocError, Global};

const REALM: &[u8] = b"testrealm@host.com";

/// A REGISTER with a credential for another realm, one that isn't well-formed, and Mufasa's answer to the nonce of
/// word 1. That one names an equal URI, spelled otherwise, and its response, which another program made, is of the
/// spelling that it names.
const EQUAL_URI: &[u8] =
    b"REGISTER sip:host.com SIP/2.0\r\nVia: SIP/2.0/UDP 127.0.0.1:5062;branch=z9hG4bKreg2\r\nMax-Forwards: 70\r\nFrom: <sip:Mufasa@host.com>;tag=a1\r\nTo: <sip:Mufasa@host.com>\r\nCall-ID: c1@127.0.0.1\r\nCSeq: 2 REGISTER\r\nContact: <sip:Mufasa@127.0.0.1:5062>\r\nAuthorization: Digest username=\"Mufasa\", realm=\"far.net\", nonce=\"00000000000000000000000000000001\", uri=\"sip:host.com\", response=\"6629fae49393a05397450978507c4ef1\"\r\nAuthorization: Digest realm=\"testrealm@host.com\",\r\nAuthorization: Digest username=\"Mufasa\", realm=\"testrealm@host.com\", nonce=\"00000000000000000000000000000001\", uri=\"sip:HOST.com\", response=\"208cea9589ba28f8fbea555ab9f9f843\", qop=auth, nc=00000001, cnonce=\"0a4f113b\"\r\nContent-Length: 0\r\n\r\n";

/// His answer by another password, `Circle of Life`, before the right one.
const OTHER_PASSWORD: &[u8] =
    b"REGISTER sip:host.com SIP/2.0\r\nVia: SIP/2.0/UDP 127.0.0.1:5062;branch=z9hG4bKreg2\r\nMax-Forwards: 70\r\nFrom: <sip:Mufasa@host.com>;tag=a1\r\nTo: <sip:Mufasa@host.com>\r\nCall-ID: c1@127.0.0.1\r\nCSeq: 2 REGISTER\r\nContact: <sip:Mufasa@127.0.0.1:5062>\r\nAuthorization: Digest username=\"Mufasa\", realm=\"testrealm@host.com\", nonce=\"00000000000000000000000000000001\", uri=\"sip:host.com\", response=\"30cadb04a580c20f6379bf37844dd1a0\", qop=auth, nc=00000001, cnonce=\"0a4f113b\"\r\nAuthorization: Digest username=\"Mufasa\", realm=\"testrealm@host.com\", nonce=\"00000000000000000000000000000001\", uri=\"sip:host.com\", response=\"bd9454039b0b6bed147dae94f4738ec0\", qop=auth, nc=00000001, cnonce=\"0a4f113b\"\r\nContent-Length: 0\r\n\r\n";

/// His right answer, in the field that a REGISTER isn't read for.
const IN_PROXY_FIELD: &[u8] =
    b"REGISTER sip:host.com SIP/2.0\r\nVia: SIP/2.0/UDP 127.0.0.1:5062;branch=z9hG4bKreg2\r\nMax-Forwards: 70\r\nFrom: <sip:Mufasa@host.com>;tag=a1\r\nTo: <sip:Mufasa@host.com>\r\nCall-ID: c1@127.0.0.1\r\nCSeq: 2 REGISTER\r\nContact: <sip:Mufasa@127.0.0.1:5062>\r\nProxy-Authorization: Digest username=\"Mufasa\", realm=\"testrealm@host.com\", nonce=\"00000000000000000000000000000001\", uri=\"sip:host.com\", response=\"bd9454039b0b6bed147dae94f4738ec0\", qop=auth, nc=00000001, cnonce=\"0a4f113b\"\r\nContent-Length: 0\r\n\r\n";

/// Datagrams, and the user that each proves.
const PROOFS: &[(&[u8], Option<&[u8]>)] = &[
    (EQUAL_URI, Some(b"Mufasa")),
    (OTHER_PASSWORD, None),
    (IN_PROXY_FIELD, None),
];

/// Mufasa alone.
fn users(alloc: Global) -> Result<Users, PolicyError> {
    let name = Bytes::copy(alloc, b"Mufasa")?;
    let mut users = Items::new(alloc);
    users.push(User {
        name,
        a1: a1(b"Mufasa", REALM, b"Circle Of Life"),
        a1_sha256: None,
        groups: Items::new(alloc),
    })?;
    Users::new(alloc, users)
}

/// The nonce of word 1, issued at 1,000.
fn issued(alloc: Global) -> Result<Nonces, AllocError> {
    let mut nonces = Nonces::new(alloc)?;
    nonces.issue(1, 1_000);
    Ok(nonces)
}

/// Whether a message proves this user, or nobody, at 2,000; of no message is the nonce alone wrong.
fn is_proof(
    alloc: Global,
    users: &Users,
    nonces: &Nonces,
    message: &View<'_>,
    user: Option<&[u8]>,
) -> bool {
    match proof_of(alloc, REALM, users, nonces, 2_000, message) {
        Ok(proof) => proof.name() == user && !proof.is_stale(),
        Err(_) => false,
    }
}

/// Whether a datagram does.
fn proves(
    alloc: Global,
    users: &Users,
    nonces: &Nonces,
    datagram: &[u8],
    user: Option<&[u8]>,
) -> bool {
    match view(alloc, datagram) {
        Ok(message) => is_proof(alloc, users, nonces, &message, user),
        Err(_) => false,
    }
}

fn all_prove(alloc: Global, users: &Users, nonces: &Nonces) -> bool {
    for (datagram, user) in PROOFS {
        if !proves(alloc, users, nonces, datagram, *user) {
            return false;
        }
    }
    true
}

/// The first well-formed credential for the realm counts, and no other; its URI is compared as a URI (RFC 3261 22.3 and
/// 19.1.4).
pub(crate) fn first_for_the_realm(alloc: Global) -> bool {
    match (users(alloc), issued(alloc)) {
        (Ok(users), Ok(nonces)) => all_prove(alloc, &users, &nonces),
        _ => false,
    }
}
