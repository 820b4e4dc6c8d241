ghost use Rattle.std.specs.Prelude.{◌≡◌};
ghost use Rattle.sip_hops.specs.Code as Definitions;

use sip_base::{BASIS, mixed};

/// The code of a host and a port: FNV-1a of the port and of the host in lower case.
#[tactic(auto, unfolding(crate::specs::Code::code_of))]
pub(crate) fn code_of(host: &[u8], port: u16) -> u64
    ensures { result ≡ Definitions.code_of host.now port }
{
    host.iter().map(|byte| byte.to_ascii_lowercase()).fold(
        mixed(BASIS, u64::from(port)),
        |code, byte| mixed(code, u64::from(byte)),
    )
}
