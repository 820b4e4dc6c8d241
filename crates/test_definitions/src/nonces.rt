ghost use Rattle.std.specs.Prelude.{◌≡◌, [], codes, Some, None};
ghost use Rattle.sip_digest.specs.declared.algorithm.Algorithm.TheVariants.{Md5, Sha256};
ghost use Rattle.sip_digest.specs.declared.nonces.Worth.TheVariants.{Right, Stale, Wrong};
ghost use Rattle.sip_digest.specs.Algorithm.{name_of};
ghost use Rattle.sip_digest.specs.Protection.{count_in};
ghost use Rattle.sip_digest.specs.Nonces.{worth_of};
ghost use Rattle.test_definitions.specs.Nonces.{mufasas_a1, used_often, by_rfc_2069, counting};

/// What the algorithms are called (RFC 2617 3.2.1; RFC 7616 3.3).
pub fn names()
    ensures md5 { name_of Md5 ≡ codes "MD5" }
    ensures sha256 { name_of Sha256 ≡ codes "SHA-256" }
{}

/// A count is eight hexadecimal digits, no more and no less (RFC 2617 3.2.2, nc-value).
pub fn counts()
    ensures eight { count_in (codes "00000010") ≡ Some 16 }
    ensures seven { count_in (codes "0000001") ≡ None }
    ensures nine { count_in (codes "000000001") ≡ None }
{}

/// The right answer to a nonce that wasn't used is right, also without a quality of protection, where it counts as the first
/// use (RFC 2617 3.2.2). To one that was used as often it is stale, and to one that isn't known (3.2.1); by the H(A1) of
/// another password it is wrong.
pub fn worth()
    ensures first { worth_of (used_often 0) mufasas_a1 (counting (codes "00000001")) 2000 ≡ Right }
    ensures without_qop { worth_of (used_often 0) mufasas_a1 by_rfc_2069 2000 ≡ Right }
    ensures used { worth_of (used_often 1) mufasas_a1 by_rfc_2069 2000 ≡ Stale }
    ensures unknown { worth_of [] mufasas_a1 by_rfc_2069 2000 ≡ Stale }
    ensures other_password { worth_of (used_often 0) (codes "11111111111111111111111111111111") by_rfc_2069 2000 ≡ Wrong }
{}

/// A nonce that was issued at 1,000 is taken until 300,999, and stale from 301,000 on: while fewer than 300,000 ms passed.
pub fn lives()
    ensures last { worth_of (used_often 0) mufasas_a1 (counting (codes "00000001")) 300999 ≡ Right }
    ensures over { worth_of (used_often 0) mufasas_a1 (counting (codes "00000001")) 301000 ≡ Stale }
{}
