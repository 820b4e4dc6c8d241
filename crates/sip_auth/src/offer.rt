ghost use Rattle.std.specs.Prelude.{◌≡◌};
ghost use Rattle.sip_auth.specs.Offer.{offers_sha256};

use sip_policy::Users;

/// Whether a challenge offers SHA-256: some user has an H(A1) by it. Takes constant time and no memory.
pub fn offers_sha256(users: &Users) -> bool
    ensures { result ≡ offers_sha256 users.now }
{
    users.any_has_sha256()
}
