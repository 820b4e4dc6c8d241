ghost use Rattle.std.specs.Prelude.{◌≡◌};
ghost use Rattle.sip_hops.specs.HostAddress.{address_of};

use sip_hops::Hops;
use sip_uri::Addr;
use sip_uri_ref::UriRef;

/// The address to which a request for a URI goes, if it has one. One of the plainest form asks for no other way than UDP.
#[inline]
#[tactic(auto, using(crate::proofs::Contacts::bare_address))]
pub(crate) fn address_in(uri: &UriRef<'_>, hops: &Hops) -> Option<Addr>
    ensures { result ≡ address_of hops.now.addresses uri.now }
{
    match uri.as_made() {
        Some(uri) => hops.address_of(uri),
        None => hops.address_at(uri.host(), uri.port().unwrap_or(5060)),
    }
}
