ghost use Rattle.std.specs.Prelude.{◌≡◌};
ghost use Rattle.sip_base.specs.Code as Definitions;

const PRIME: u64 = 0x0000_0100_0000_01b3;

/// The code of nothing (FNV-1a, 64 bits), from which others are made.
pub const BASIS: u64 = 0xcbf2_9ce4_8422_2325;

/// A code with one part more, a byte or a number: a step of FNV-1a. It is mixed with no secret, so it is for names that are
/// configured; where peers choose the names, [`KeyedHasher`](crate::KeyedHasher) hashes them.
#[tactic(auto, unfolding(crate::specs::Code::mixed))]
pub fn mixed(code: u64, part: u64) -> u64
    ensures { result ≡ Definitions.mixed code part }
{
    (code ^ part).wrapping_mul(PRIME)
}
