ghost use Rattle.std.specs.Prelude.{◌≡◌};
ghost use Rattle.sip_digest.specs.Credential.{shown, count_of};
ghost use Rattle.sip_digest.specs.Protection.{seen};

use crate::quality::Quality;
use sip_digest::{Algorithm, Credential, Protection};
use sip_message_fields::Value;
use std::marker::Model;

/// What credentials claim for a request, as parts of what was read: a user's name, and the credential that is to
/// prove it.
pub struct Claim<'v> {
    pub(crate) name: Value<'v>,
    pub(crate) algorithm: Algorithm,
    pub(crate) method: &'v [u8],
    pub(crate) uri: Value<'v>,
    pub(crate) nonce: Value<'v>,
    pub(crate) protection: Option<Quality<'v>>,
    pub(crate) response: Value<'v>,
    /// Which use of the nonce it is, read once.
    pub(crate) count: Option<u64>,
}

/// Written out, so that it is proved once and not wherever a claim is dropped.
impl<'v> Drop for Claim<'v> {
    fn drop(self) {
        let Claim {
            name: _,
            algorithm: _,
            method: _,
            uri: _,
            nonce: _,
            protection: _,
            response: _,
            count: _,
        } = self;
    }
}

impl<'v> Model for Claim<'v> {
    ghost use Rattle.std.specs.Prelude.{◌≡◌};
    ghost use Rattle.sip_digest.specs.Protection.{count_with};
    ghost use Rattle.sip_auth.specs.Proof.{Claim};

    ghost Value = { Claim };

    ghost view = { λ c. record {
      name = c.name;
      credential =
          record { algorithm = c.algorithm; method = c.method.now; uri = c.uri; nonce = c.nonce; protection = c.protection; response = c.response };
    } };

    ghost invariant = { λ c. c.count ≡ count_with c.protection };
}

/// A quality of protection as an answer takes it, if there is one.
pub(crate) fn protection_in<'a>(quality: &'a Option<Quality<'_>>) -> Option<Protection<'a>>
    ensures { seen result ≡ quality.now }
{
    match quality {
        Some(quality) => Some(quality.protection()),
        None => None,
    }
}

impl<'v> Claim<'v> {
    /// The user's name.
    pub fn name(&self) -> &[u8]
        ensures { result.now ≡ self.now.name }
    {
        self.name.as_slice()
    }

    /// The credential as the digest takes it.
    pub fn credential(&self) -> Credential<'_>
        ensures { shown result ≡ self.now.credential }
    {
        Credential {
            algorithm: self.algorithm,
            method: self.method,
            uri: self.uri.as_slice(),
            nonce: self.nonce.as_slice(),
            protection: protection_in(&self.protection),
            response: self.response.as_slice(),
            count: self.count,
        }
    }

    /// Which use of the nonce it is (RFC 2617 3.2.2: nonce-count).
    pub(crate) fn count(&self) -> Option<u64>
        ensures { result ≡ count_of self.now.credential }
    {
        self.count
    }
}
