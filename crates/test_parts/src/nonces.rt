use sip_digest::{
    Algorithm, Credential, Nonces, Protection, Worth, answer, nonce_count, nonce_text,
};
use std::alloc::{AllocError, Global};

/// The digest of the user, the realm and the password of the example of RFC 2617 3.5.
const MUFASA: &[u8] = b"939e7578ed9e3c518a452acee763bce9";

/// The nonces of words 1 to 4,097: 1,024 at each of four moments, and the last one later.
fn full(alloc: Global) -> Result<Nonces, AllocError> {
    let mut nonces = Nonces::new(alloc)?;
    for index in 0..4_097u32 {
        nonces.issue(u128::from(index) + 1, u64::from(index / 1_024) * 32_000);
    }
    Ok(nonces)
}

/// The credentials of a REGISTER with this nonce and this answer.
fn register<'a>(
    nonce: &'a [u8],
    response: &'a [u8],
    protection: Option<Protection<'a>>,
) -> Credential<'a> {
    Credential {
        algorithm: Algorithm::Md5,
        method: b"REGISTER",
        uri: b"sip:host.com",
        nonce,
        protection,
        response,
        count: nonce_count(protection),
    }
}

/// Whether the user's answer to the nonce of a word is worth this at a moment.
fn is_worth(nonces: &Nonces, word: u128, now: u64, wanted: Worth) -> bool {
    let nonce = nonce_text(word);
    let response = answer(MUFASA, b"REGISTER", b"sip:host.com", &nonce, None);
    let credential = register(nonce.as_slice(), response.as_slice(), None);
    nonces.check(MUFASA, &credential, now).worth == wanted
}

/// Words, moments, and what an answer to the word's nonce is worth then. The oldest of the nonces is forgotten, and
/// the others live for five minutes.
const WORTHS: &[(u128, u64, Worth)] = &[
    (1, 128_001, Worth::Stale),
    (2, 128_001, Worth::Right),
    (2, 299_999, Worth::Right),
    (2, 300_000, Worth::Stale),
];

fn are_worth(nonces: &Nonces) -> bool {
    for (word, now, wanted) in WORTHS {
        if !is_worth(nonces, *word, *now, *wanted) {
            return false;
        }
    }
    true
}

pub(crate) fn nonces_full(alloc: Global) -> bool {
    match full(alloc) {
        Ok(nonces) => are_worth(&nonces),
        Err(_) => false,
    }
}
