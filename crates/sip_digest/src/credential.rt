ghost use Rattle.std.specs.Prelude.{◌≡◌};
ghost use Rattle.sip_digest.specs.Protection.{count_with, seen};

use crate::algorithm::Algorithm;
use crate::answers::{answer, answer_sha256};
use crate::protection::Protection;

/// What a request says to prove its user: its method, the algorithm, `uri`, `nonce` and `response` of its
/// credentials, and their quality of protection, if they name one, with its count, which is read once (RFC 2617 3.2.2;
/// RFC 8760 2.4).
#[derive(Clone, Copy)]
pub struct Credential<'a> {
    pub algorithm: Algorithm,
    pub method: &'a [u8],
    pub uri: &'a [u8],
    pub nonce: &'a [u8],
    pub protection: Option<Protection<'a>>,
    pub response: &'a [u8],
    /// Which use of the nonce this is, as `nonce_count` says.
    pub count: Option<u64>,
    pub ghost count_is: { count ≡ count_with (seen protection) },
}

impl Credential<'_> {
    ghost use Rattle.std.specs.Str.{bytes_eq};
    ghost use Rattle.sip_digest.specs.Credential.{shown, is_answer};

    /// Whether the response is, byte by byte, the answer of the user of this `a1`, which is of the
    /// credential's algorithm.
    pub fn is_answer(&self, a1: &[u8]) -> bool
        ensures { result ≡ is_answer a1.now (shown self.now) }
    {
        let Credential {
            method,
            uri,
            nonce,
            protection,
            ..
        } = *self;
        match self.algorithm {
            Algorithm::Md5 => self.is_response(&answer(a1, method, uri, nonce, protection)),
            Algorithm::Sha256 => self.is_response(&answer_sha256(
                a1, method, uri, nonce, protection,
            )),
        }
    }

    /// Whether the response is this text, byte by byte.
    fn is_response(&self, text: &[u8]) -> bool
        ensures { result ≡ bytes_eq self.now.response.now text.now }
    {
        self.response == text
    }
}
