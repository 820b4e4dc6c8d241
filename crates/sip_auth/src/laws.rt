ghost use Rattle.std.specs.Prelude.{◌≡◌, ◌≢◌, ◌↔◌, ℕ, List, map, Some, None, false};
ghost use Rattle.std.specs.List.{AllByRecursion};
ghost use Rattle.sip_digest.specs.declared.algorithm.Algorithm.TheVariants.{Md5, Sha256};
ghost use Rattle.sip_digest.specs.Credential.{Credential};
ghost use Rattle.sip_digest.specs.declared.nonces.Nonce.{Nonce};
ghost use Rattle.sip_message_form.specs.declared.message.Message.{Message};
ghost use Rattle.sip_header_credentials.specs.declared.credentials.Credentials.{Credentials};
ghost use Rattle.sip_policy.specs.declared.user.User.{User};
ghost use Rattle.sip_auth.specs.Offer.{offers_sha256, HasMd5Alone, with_md5_alone};
ghost use Rattle.sip_auth.specs.Proof.{Proof, Claim, claim_of, proof_from, proof_of};
ghost use Rattle.sip_auth.specs.RightAnswer.{IsRightAnswer};

/// Where no user has an H(A1) by SHA-256, only MD5 is offered, and nothing is proved but by MD5.
pub fn md5_alone_is_unchanged()
    ensures offer { (users : List User) → AllByRecursion HasMd5Alone users ↔ (offers_sha256 users ≡ false) }
    ensures others { (users : List User) (nonces : List Nonce) (now : ℕ) (uri : List ℕ) (claim : Claim)
        → AllByRecursion HasMd5Alone users → claim.credential.algorithm ≢ Md5 → proof_from users nonces now uri (Some claim) ≡ Proof.Wrong }
{}

/// What is claimed by MD5 is worth what it is to users who have no H(A1) by SHA-256, whoever has one; and what names
/// no algorithm is claimed by MD5.
pub fn md5_needs_no_second_key()
    ensures worth { (users : List User) (nonces : List Nonce) (now : ℕ) (uri : List ℕ) (claim : Claim)
        → claim.credential.algorithm ≡ Md5 → proof_from users nonces now uri (Some claim)
        ≡ proof_from (map with_md5_alone users) nonces now uri (Some claim) }
    ensures unnamed { (method : List ℕ) (c : Credentials) (claim : Claim) → c.algorithm ≡ None → claim_of method c ≡ Some claim
        → claim.credential.algorithm ≡ Md5 }
{}

/// SHA-256 isn't claimed without a quality of protection.
pub fn sha256_is_protected()
    ensures { (method : List ℕ) (c : Credentials) (claim : Claim) → claim_of method c ≡ Some claim → claim.credential.algorithm ≡ Sha256
        → claim.credential.protection ≢ None }
{}

/// Whoever is proven answered: some value of the request's field for credentials is for this realm and this
/// Request-URI, its response is the answer by the key of a configured user of that name, by its algorithm, its
/// nonce was issued and lives, and its count is above all that were used (RFC 2617 3.2.2, RFC 3261 22).
pub fn right_is_the_answer()
    ensures { (realm : List ℕ) (users : List User) (nonces : List Nonce) (now : ℕ) (m : Message) (name : List ℕ) (c : Credential)
        → proof_of realm users nonces now m ≡ Proof.Right name c → IsRightAnswer realm users nonces now m name c }
{}
