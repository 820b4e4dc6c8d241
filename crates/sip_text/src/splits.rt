ghost use Rattle.std.specs.Prelude.{◌≡◌, option_map};
ghost use Rattle.sip_text.specs.Splits.{split_at_byte};

use memchr::memchr;

/// So many bytes cost less one by one than a search costs to begin, and most texts that are cut have no more.
const FEW_BYTES: usize = 32;

/// What stands before the first of a byte, and what follows it, of a text of many bytes.
fn split_many(bytes: &[u8], mark: u8) -> Option<(&[u8], &[u8])>
    ensures { option_map (λ x. (x.0.now, x.1.now)) result ≡ split_at_byte mark bytes.now }
{
    let at = memchr(mark, bytes)?;
    let (front, rest) = bytes.split_at(at);
    let (_, rest) = rest.split_first()?;
    Some((front, rest))
}

/// What stands before the first of a byte, and what follows it. Takes no memory.
#[tactic(auto, using(crate::proofs::Splitting::split_ends, crate::proofs::Splitting::split_goes_on, crate::proofs::Splitting::split_nowhere))]
pub fn split_once(bytes: &[u8], mark: u8) -> Option<(&[u8], &[u8])>
    ensures { option_map (λ x. (x.0.now, x.1.now)) result ≡ split_at_byte mark bytes.now }
{
    let few = bytes.len().min(FEW_BYTES);
    for at in 0..few {
        if bytes[at] == mark {
            return Some((&bytes[..at], &bytes[at + 1..]));
        }
    }
    if few == bytes.len() {
        return None;
    }
    split_many(bytes, mark)
}
