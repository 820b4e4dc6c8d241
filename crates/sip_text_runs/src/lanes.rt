ghost use Rattle.std.specs.Prelude.{◌≡◌};
ghost use Rattle.httparse.specs.Pieces.{first_set};

/// So many bytes are looked at at once.
pub(crate) const LANES: usize = 16;

/// The place of the lowest bit that is set, or the number of lanes where none is.
#[inline(always)]
pub(crate) fn first_set(mask: u64) -> usize
    ensures { result ≡ first_set mask 16 }
{
    if mask == 0 {
        LANES
    } else {
        mask.trailing_zeros() as usize
    }
}
