ghost use Rattle.std.specs.Prelude.{◌≡◌};
ghost use Rattle.sipd_boot.specs.Boots;

use rand_core::Rng;
use sip_event::Boot;

/// The number of the first datagram.
const FIRST: u64 = 1;

/// 2^64: what the high half of a secret counts.
const HALF: u128 = 1 << 64;

/// The next two numbers of a source as one that nobody can guess, the high half first.
pub fn secret<W: Rng>(words: &mut W) -> u128
    ensures secret { result ≡ Boots.secret_from (W.stream words.old) }
    ensures left { W.stream words.new ≡ Boots.behind_secret (W.stream words.old) }
{
    let high = words.next_u64();
    let low = words.next_u64();
    u128::from(high) * HALF + u128::from(low)
}

/// What a server starts with: the next number of a source is its word, its first number is 1, and a secret of the next two is what its
/// tables are kept by.
pub fn new_boot<W: Rng>(words: &mut W) -> Boot
    ensures boot { result ≡ Boots.new_boot (W.stream words.old) }
    ensures left { W.stream words.new ≡ Boots.behind_boot (W.stream words.old) }
{
    Boot {
        word: words.next_u64(),
        first: FIRST,
        keys: secret(words),
    }
}
