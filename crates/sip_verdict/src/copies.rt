ghost use Rattle.std.specs.Prelude.{◌≡◌, IfOk};

use sip_hops::{Hop, HostAddress};
use sip_text::Items;
use std::alloc::{AllocError, Global};

/// The same hop.
fn copied_hop(hop: &Hop) -> Result<Hop, AllocError>
    ensures { IfOk result (λ copy. copy ≡ hop.now) }
{
    Ok(Hop {
        name: hop.name.clone()?,
        address: hop.address,
    })
}

/// The same row.
fn copied_row(row: &HostAddress) -> Result<HostAddress, AllocError>
    ensures { IfOk result (λ copy. copy ≡ row.now) }
{
    Ok(HostAddress {
        host: row.host.clone()?,
        port: row.port,
        address: row.address,
    })
}

/// The same hops.
pub(crate) fn copy_hops(alloc: Global, hops: &[Hop]) -> Result<Items<Hop>, AllocError>
    ensures { IfOk result (λ copies. copies ≡ hops.now) }
{
    let mut copies = Items::new(alloc);
    for hop in hops {
        copies.push(copied_hop(hop)?)?;
    }
    Ok(copies)
}

/// The same rows.
pub(crate) fn copy_addresses(
    alloc: Global,
    addresses: &[HostAddress],
) -> Result<Items<HostAddress>, AllocError>
    ensures { IfOk result (λ copies. copies ≡ addresses.now) }
{
    let mut copies = Items::new(alloc);
    for row in addresses {
        copies.push(copied_row(row)?)?;
    }
    Ok(copies)
}
