ghost use Rattle.std.specs.Prelude.{◌≡◌};
ghost use Rattle.sip_location.specs.Code as Definitions;

use crate::aor_ref::AorRef;
use sip_base::{BASIS, mixed};

/// The code of an address of record: FNV-1a of its user, an `@` and its host. It is mixed with no secret: only addresses
/// of configured users are filed, so no peer chooses those that have one code. Who asks for another address that has the
/// code of one that is filed makes one comparison more.
#[tactic(auto, unfolding(crate::specs::Code::code_of))]
pub(crate) fn code_of(aor: &AorRef<'_>) -> u64
    ensures { result ≡ Definitions.code_of aor.now }
{
    let user = aor
        .user()
        .iter()
        .fold(BASIS, |code, byte| mixed(code, u64::from(*byte)));
    aor.host().iter().fold(
        mixed(user, u64::from(b'@')),
        |code, byte| mixed(code, u64::from(*byte)),
    )
}
