ghost use Rattle.std.specs.Prelude.{◌≡◌, ◌++◌, IfOk};
ghost use Rattle.std.specs.Box.{boxed_slice_items};

use std::alloc::{AllocError, Global};
use std::boxed::BoxedSlice;

/// Two texts, one behind the other, in a block of memory that has their length.
pub(crate) fn joined(
    alloc: Global,
    front: &[u8],
    back: &[u8],
) -> Result<BoxedSlice<u8, Global>, AllocError>
    ensures { IfOk result (λ block. boxed_slice_items block ≡ front.now ++ back.now) }
{
    let mut both = Vec::with_capacity(alloc, front.len().saturating_add(back.len()))?;
    both.extend_from_slice(front)?;
    both.extend_from_slice(back)?;
    Ok(both.into_boxed_slice())
}
