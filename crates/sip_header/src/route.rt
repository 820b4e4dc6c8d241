ghost use Rattle.std.specs.Prelude.{◌≡◌, IfOk};
ghost use Rattle.sip_header.specs.Route.{route_of};

use crate::name_addr::{NameAddr, address_of, bracketed_parts_in};
use std::alloc::{AllocError, Global};

/// What an item of Route or Record-Route says: an address in brackets (RFC 3261 20.30, 20.34). None where it is
/// malformed. `AllocError` is the only refusal.
pub fn route_of(alloc: Global, value: &[u8]) -> Result<Option<NameAddr<'_>>, AllocError>
    ensures { IfOk result (λ address. address ≡ route_of value.now) }
{
    address_of(alloc, bracketed_parts_in(value))
}
