ghost use Rattle.std.specs.Prelude.{◌≡◌};
ghost use Rattle.sip_policy.specs.User as Definitions;

use crate::Users;
use sip_text::{Bytes, same_no_case};
use sip_uri::Aor;

/// Whether a host is an own domain, compared without case (RFC 3261 19.1.4). Takes no memory.
pub fn is_own_domain(domains: &[Bytes], host: &[u8]) -> bool
    ensures { result ≡ Definitions.is_own_domain domains.now host.now }
{
    domains
        .iter()
        .any(|domain| same_no_case(domain.as_slice(), host))
}

/// Whether an address of record is a configured user's in an own domain. Takes no memory.
pub fn is_users_address(users: &Users, domains: &[Bytes], aor: &Aor) -> bool
    ensures { result ≡ Definitions.is_users_address users.now domains.now aor.now }
{
    is_own_domain(domains, aor.host.as_slice()) && users.has_name(aor.user.as_slice())
}
