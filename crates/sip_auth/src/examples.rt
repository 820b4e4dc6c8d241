ghost use Rattle.std.specs.Prelude.{◌≡◌, [], codes, true, false, Some, None};
ghost use Rattle.sip_message_fields.specs.declared.field_name.FieldName.TheVariants as Name;
ghost use Rattle.sip_route.specs.Examples.{sample_realm};
ghost use Rattle.sip_policy.specs.Examples.{mufasas_a1, alices_a1, sample_users};
ghost use Rattle.sip_auth.specs.Proof.{Proof, proof_of, proven, is_stale, used};
ghost use Rattle.sip_auth.specs.Sha256Examples as ByBoth;
ghost use Rattle.sip_auth.specs.Examples.{credential, said, request_with, used_often, proof_with};
ghost use Rattle.sip_auth.specs.RealmExamples.{wrong_a1, mufasas_credential, foreign_credential, register_with_both};

/// Mufasa's answer to a nonce that was never used, in Authorization of a REGISTER, proves him; it uses the
/// nonce once.
pub fn right_credential()
    ensures proof { proof_with 0 (request_with (codes "REGISTER") (codes "sip:host.com") Name.Authorization
        (credential (codes "Mufasa") mufasas_a1 (codes "REGISTER") (codes "sip:host.com") (codes "00000001")))
        ≡ Proof.Right (codes "Mufasa") (said mufasas_a1 (codes "REGISTER") (codes "sip:host.com") (codes "00000001")) }
    ensures user { proven (Proof.Right (codes "Mufasa") (said mufasas_a1 (codes "REGISTER") (codes "sip:host.com") (codes "00000001")))
        ≡ Some (codes "Mufasa") }
    ensures nonces { used (used_often 0) 2000 (Proof.Right (codes "Mufasa")
        (said mufasas_a1 (codes "REGISTER") (codes "sip:host.com") (codes "00000001"))) ≡ used_often 1 }
{}

/// The same answer again, when its count was used, or with a nonce that isn't known, is stale and proves
/// nobody.
pub fn stale_credential()
    ensures used { proof_with 1 (request_with (codes "REGISTER") (codes "sip:host.com") Name.Authorization
        (credential (codes "Mufasa") mufasas_a1 (codes "REGISTER") (codes "sip:host.com") (codes "00000001"))) ≡ Proof.Stale }
    ensures unknown { proof_of sample_realm sample_users [] 2000
        (request_with (codes "REGISTER") (codes "sip:host.com") Name.Authorization
        (credential (codes "Mufasa") mufasas_a1 (codes "REGISTER") (codes "sip:host.com") (codes "00000001"))) ≡ Proof.Stale }
    ensures nobody { proven Proof.Stale ≡ None }
    ensures says_so { is_stale Proof.Stale ≡ true }
{}

/// Proves nothing: another user's answer, an answer by a name that is no user's, one for another Request-URI,
/// and one of a realm that isn't this one.
pub fn wrong_credential()
    ensures answer { proof_with 0 (request_with (codes "REGISTER") (codes "sip:host.com") Name.Authorization
        (credential (codes "Mufasa") alices_a1 (codes "REGISTER") (codes "sip:host.com") (codes "00000001"))) ≡ Proof.Wrong }
    ensures unknown_user { proof_with 0 (request_with (codes "REGISTER") (codes "sip:host.com") Name.Authorization
        (credential (codes "mufasa") mufasas_a1 (codes "REGISTER") (codes "sip:host.com") (codes "00000001"))) ≡ Proof.Wrong }
    ensures other_uri { proof_with 0 (request_with (codes "REGISTER") (codes "sip:far.net") Name.Authorization
        (credential (codes "Mufasa") mufasas_a1 (codes "REGISTER") (codes "sip:host.com") (codes "00000001"))) ≡ Proof.Wrong }
    ensures other_realm { proof_of (codes "host.com") sample_users (used_often 0) 2000
        (request_with (codes "REGISTER") (codes "sip:host.com") Name.Authorization
        (credential (codes "Mufasa") mufasas_a1 (codes "REGISTER") (codes "sip:host.com") (codes "00000001"))) ≡ Proof.Wrong }
    ensures not_stale { is_stale Proof.Wrong ≡ false }
{}

/// Every request but a REGISTER is to be proved in Proxy-Authorization, and not in Authorization.
pub fn proxy_credential()
    ensures right { proof_with 0 (request_with (codes "INVITE") (codes "sip:911@host.com") Name.ProxyAuthorization
        (credential (codes "Mufasa") mufasas_a1 (codes "INVITE") (codes "sip:911@host.com") (codes "00000001")))
        ≡ Proof.Right (codes "Mufasa") (said mufasas_a1 (codes "INVITE") (codes "sip:911@host.com") (codes "00000001")) }
    ensures wrong_field { proof_with 0 (request_with (codes "INVITE") (codes "sip:911@host.com") Name.Authorization
        (credential (codes "Mufasa") mufasas_a1 (codes "INVITE") (codes "sip:911@host.com") (codes "00000001"))) ≡ Proof.Wrong }
{}

/// A user who has an H(A1) by SHA-256 is proven by it, whatever the case in which the algorithm is named, but not
/// without a quality of protection; nor is one who has an H(A1) by MD5 alone.
pub fn sha256_credential()
    ensures right { proven (ByBoth.proof_with 0 (ByBoth.first_by (codes "SHA-256"))) ≡ Some (codes "help") }
    ensures case { proven (ByBoth.proof_with 0 (ByBoth.first_by (codes "sha-256"))) ≡ Some (codes "help") }
    ensures other_algorithm { ByBoth.proof_with 0 (ByBoth.first_by (codes "SHA-512-256")) ≡ Proof.Wrong }
    ensures without_qop { ByBoth.proof_with 0 ByBoth.without_qop ≡ Proof.Wrong }
    ensures without_key { ByBoth.proof_with 0 ByBoth.of_other_key ≡ Proof.Wrong }
{}

/// A nonce has one count: what MD5 used, SHA-256 can't use again.
pub fn one_count_for_both()
    ensures md5 { used (used_often 0) 2000 (ByBoth.proof_with 0 ByBoth.first_by_md5) ≡ used_often 1 }
    ensures same_count { ByBoth.proof_with 1 (ByBoth.first_by (codes "SHA-256")) ≡ Proof.Stale }
    ensures next_count { used (used_often 1) 2000 (ByBoth.proof_with 1 ByBoth.second_by_sha256) ≡ used_often 2 }
{}

/// A password that differs in the case of one letter proves nothing. Credentials for another realm are passed over,
/// and what follows them proves its user; so it does before them (RFC 3261 22.3).
pub fn passwords_and_realms()
    ensures password { proof_with 0 (request_with (codes "REGISTER") (codes "sip:host.com") Name.Authorization
        (credential (codes "Mufasa") wrong_a1 (codes "REGISTER") (codes "sip:host.com") (codes "00000001"))) ≡ Proof.Wrong }
    ensures foreign_first { proof_with 0 (register_with_both foreign_credential mufasas_credential)
        ≡ Proof.Right (codes "Mufasa") (said mufasas_a1 (codes "REGISTER") (codes "sip:host.com") (codes "00000001")) }
    ensures foreign_last { proof_with 0 (register_with_both mufasas_credential foreign_credential)
        ≡ Proof.Right (codes "Mufasa") (said mufasas_a1 (codes "REGISTER") (codes "sip:host.com") (codes "00000001")) }
    ensures foreign_alone { proof_with 0 (request_with (codes "REGISTER") (codes "sip:host.com") Name.Authorization foreign_credential)
        ≡ Proof.Wrong }
{}
