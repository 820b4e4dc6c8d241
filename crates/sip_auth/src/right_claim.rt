ghost use Rattle.std.specs.Prelude.{◌≡◌};
ghost use Rattle.std.specs.Option.{option_map_or};
ghost use Rattle.sip_digest.specs.Nonces.{counted, spent_by};

use crate::claim::Claim;
use sip_digest::Nonces;
use std::marker::Model;

/// A claim whose credential is right, seen as the claim, with the word of its nonce, which was read where it was checked.
pub(crate) struct RightClaim<'v> {
    pub(crate) claim: Claim<'v>,
    pub(crate) word: Option<u128>,
}

/// Written out, so that it is proved once and not wherever a proof is dropped.
impl<'v> Drop for RightClaim<'v> {
    fn drop(self) {
        let RightClaim { claim: _, word: _ } = self;
    }
}

impl<'v> Model for RightClaim<'v> {
    ghost use Rattle.std.specs.Prelude.{◌≡◌};
    ghost use Rattle.sip_digest.specs.NonceText.{word_of};
    ghost use Rattle.sip_auth.specs.Proof.{Claim};

    ghost Value = { Claim };

    ghost view = { λ c. c.claim };

    ghost invariant = { λ c. c.word ≡ word_of c.claim.credential.nonce };
}

/// Takes a count as used for the live nonce of a word, where both are there.
fn count_used(nonces: &mut Nonces, count: Option<u64>, word: Option<u128>, now: u64)
    ensures { nonces.new ≡ option_map_or (λ n. option_map_or (λ w. counted w n nonces.old now) word nonces.old) count nonces.old }
{
    if let Some(count) = count {
        if let Some(word) = word {
            nonces.accept(word, count, now);
        }
    }
}

impl<'v> RightClaim<'v> {
    /// The user's name.
    pub(crate) fn name(&self) -> &[u8]
        ensures { result.now ≡ self.now.name }
    {
        self.claim.name()
    }

    /// Takes the count of its credential as used. Takes no memory.
    pub(crate) fn spend(&self, nonces: &mut Nonces, now: u64)
        ensures { nonces.new ≡ spent_by nonces.old self.now.credential now }
    {
        count_used(nonces, self.claim.count(), self.word, now);
    }
}
