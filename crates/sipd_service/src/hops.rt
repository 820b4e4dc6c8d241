ghost use Rattle.std.specs.Prelude.{◌≡◌, IfOk};
ghost use Rattle.sipd_service.specs.Hops.{hop_addresses};

use sip_config_types::Config;
use std::alloc::{AllocError, Global};

/// The IP addresses of the hops of a configuration, in their order.
pub fn hops_of(alloc: Global, config: &Config) -> Result<Vec<[u8; 4]>, AllocError>
    ensures { IfOk result (λ hops. hops.items ≡ hop_addresses config.now) }
{
    let mut hops = Vec::new(alloc);
    for hop in config.hops.as_slice() {
        hops.push(hop.address.ip)?;
    }
    Ok(hops)
}
