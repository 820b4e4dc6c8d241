ghost use Rattle.std.specs.Prelude.{◌≡◌, option_map, IfOk};
ghost use Rattle.sip_digest.specs.declared.nonces.Worth.TheVariants.{Right};
ghost use Rattle.sip_digest.specs.NonceText.{word_of};
ghost use Rattle.sip_auth.specs.Proof.{judged, proven, is_stale, used};

use crate::claim::Claim;
use crate::finding::Finding;
use crate::right_claim::RightClaim;
use sip_base::Shared;
use sip_digest::{NonceCheck, Nonces, Worth};
use std::alloc::{AllocError, Global};
use std::marker::Model;

/// Whom a request proves to come from: a user by a credential; or a user, but for the nonce of it; or nobody. The
/// credential's parts are borrowed from the request.
#[derive(Drop)]
pub struct Proof<'v> {
    finding: Finding<'v>,
}

impl<'v> Model for Proof<'v> {
    ghost use Rattle.sip_auth.specs.Proof.{Proof};
    ghost use Rattle.sip_auth.specs.Finding.{proof_found};

    ghost Value = { Proof };

    ghost view = { λ p. proof_found p.finding };
}

impl<'v> Proof<'v> {
    ghost use Rattle.sip_auth.specs.Proof.{Wrong};

    /// Nothing is proved.
    pub(crate) fn wrong() -> Self
        ensures { result ≡ Wrong }
    {
        Proof {
            finding: Finding::Wrong,
        }
    }

    /// What a claim proves by what its credential is worth.
    pub(crate) fn judged(
        alloc: Global,
        claim: Claim<'v>,
        checked: NonceCheck,
    ) -> Result<Self, AllocError>
        requires { checked.worth ≡ Right → checked.word ≡ word_of claim.credential.nonce }
        ensures { IfOk result (λ proof. proof ≡ judged claim.entry checked.worth) }
    {
        let NonceCheck { worth, word } = checked;
        let finding = match worth {
            Worth::Right => Finding::Right(Shared::new(alloc, RightClaim { claim, word })?),
            Worth::Stale => Finding::Stale,
            Worth::Wrong => Finding::Wrong,
        };
        Ok(Proof { finding })
    }

    /// The name of the proven user. Takes no memory.
    pub fn name(&self) -> Option<&[u8]>
        ensures { option_map (λ name. name.now) result ≡ proven self.now }
    {
        match &self.finding {
            Finding::Right(claim) => Some(claim.get().name()),
            Finding::Stale | Finding::Wrong => None,
        }
    }

    /// Whether the nonce alone was wrong (RFC 2617 3.2.1: stale). Takes no memory.
    pub fn is_stale(&self) -> bool
        ensures { result ≡ is_stale self.now }
    {
        match &self.finding {
            Finding::Stale => true,
            Finding::Right(_) | Finding::Wrong => false,
        }
    }

    /// Takes the count of a right credential as used, whatever becomes of the request (RFC 2617 3.2.2: nonce-count).
    /// Takes no memory.
    pub fn spend(&self, nonces: &mut Nonces, now: u64)
        ensures { nonces.new ≡ used nonces.old now self.now }
    {
        if let Finding::Right(claim) = &self.finding {
            claim.get().spend(nonces, now);
        }
    }
}
