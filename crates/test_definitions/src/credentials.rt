ghost use Rattle.std.specs.Prelude.{◌≡◌, [], ◌∷◌, codes, true, false, option_map, Some, None};
ghost use Rattle.sip_digest.specs.declared.algorithm.Algorithm.TheVariants.{Md5, Sha256};
ghost use Rattle.sip_policy.specs.Examples.{mufasas_a1, sample_users};
ghost use Rattle.sip_route.specs.Examples.{sample_realm};
ghost use Rattle.sip_auth.specs.Examples.{protected, said, used_often};
ghost use Rattle.sip_auth.specs.Proof.{Proof, algorithm_of, protection_of, first_for_realm, is_equal_uri, is_stale, proof_from};
ghost use Rattle.test_definitions.specs.Credentials.{of_user, counted};

/// A quality of protection is none, or `auth` with a count and a nonce of the client's; another one, or one without both, proves
/// nothing (RFC 2617 3.2.2).
pub fn qualities()
    ensures none { protection_of None None None ≡ Some None }
    ensures auth { protection_of (Some (codes "auth")) (Some (codes "00000001")) (Some (codes "0a4f113b"))
        ≡ Some (Some (protected (codes "00000001"))) }
    ensures auth_int { protection_of (Some (codes "auth-int")) (Some (codes "00000001")) (Some (codes "0a4f113b")) ≡ None }
    ensures no_count { protection_of (Some (codes "auth")) None (Some (codes "0a4f113b")) ≡ None }
    ensures no_cnonce { protection_of (Some (codes "auth")) (Some (codes "00000001")) None ≡ None }
{}

/// An algorithm is named in any case, and is MD5 where none is named (RFC 2617 3.2.1; RFC 8760 2.1); another one is none.
pub fn algorithms()
    ensures none { algorithm_of None ≡ Some Md5 }
    ensures md5 { algorithm_of (Some (codes "md5")) ≡ Some Md5 }
    ensures sha256 { algorithm_of (Some (codes "sha-256")) ≡ Some Sha256 }
    ensures session { algorithm_of (Some (codes "MD5-sess")) ≡ None }
{}

/// The first credentials for the realm count, and those for another are passed over (RFC 3261 22.3).
pub fn values()
    ensures first { option_map (λ c. c.username) (first_for_realm sample_realm (of_user (codes "far.net") (codes "a")
        ∷ of_user sample_realm (codes "b") ∷ of_user sample_realm (codes "c") ∷ [])) ≡ Some (Some (codes "b")) }
{}

/// The URI of a credential and the Request-URI are compared as URIs (RFC 3261 19.1.4): a host without case, a user with it.
#[tactic(auto, unfolding(sip_uri::specs::Reading::reading_of, sip_uri::specs::Reading::rest_of))]
pub fn uris()
    ensures host { is_equal_uri (codes "sip:a@Host.COM") (codes "sip:a@host.com") ≡ true }
    ensures user { is_equal_uri (codes "sip:A@host.com") (codes "sip:a@host.com") ≡ false }
    ensures no_uri { is_equal_uri (codes "host.com") (codes "host.com") ≡ false }
{}

/// A count that isn't of eight hexadecimal digits makes a credential wrong, and not stale: a challenge to it names no fresh
/// nonce as the remedy (RFC 2617 3.2.1, stale).
#[tactic(auto, unfolding(sip_uri::specs::Reading::reading_of, sip_uri::specs::Reading::rest_of))]
pub fn counts()
    ensures short { proof_from sample_users (used_often 0) 2000 (codes "sip:host.com") (Some (counted (codes "1"))) ≡ Proof.Wrong }
{}

/// Only a credential whose nonce alone is wrong is stale (RFC 2617 3.2.1).
pub fn staleness()
    ensures right { is_stale (Proof.Right (codes "Mufasa") (said mufasas_a1 (codes "REGISTER") (codes "sip:host.com") (codes "00000001"))) ≡ false }
    ensures stale { is_stale Proof.Stale ≡ true }
    ensures wrong { is_stale Proof.Wrong ≡ false }
{}
