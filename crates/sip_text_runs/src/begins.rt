ghost use Rattle.std.specs.Prelude.{◌≡◌, ◌↔◌, ◌+◌, ◌≤◌, true, length, take, drop};

use crate::lanes::LANES;
use std::simd::prelude::*;

/// Whether the bytes of two texts from a place on are the same, of those that are compared at once.
#[inline(always)]
fn same_lanes(left: &[u8], right: &[u8], at: usize) -> bool
    requires left { at + 16 ≤ length left.now }
    requires right { at + 16 ≤ length right.now }
    ensures { (result ≡ true) ↔ (take 16 (drop at left.now) ≡ take 16 (drop at right.now)) }
{
    let lanes = u8x16::from_slice(&left[at..]);
    let others = lanes.simd_ne(u8x16::from_slice(&right[at..])).to_bitmask();
    others == 0
}

/// Whether a value begins with a text. The last bytes of the text are compared at once with some before them. Takes no
/// memory.
#[tactic(auto, using(crate::proofs::Beginnings::same_more, crate::proofs::Beginnings::same_all, crate::proofs::Beginnings::few_same))]
pub fn begins_with(value: &[u8], text: &[u8]) -> bool
    ensures { (result ≡ true) ↔ (take (length text.now) value.now ≡ text.now) }
{
    let length = text.len();
    if value.len() < length {
        return false;
    }
    if length < LANES {
        return &value[..length] == text;
    }
    let last = length - LANES;
    let mut seen = 0;
    'by_lanes: while seen < last {
        if !same_lanes(value, text, seen) {
            return false;
        }
        seen += LANES;
    }
    same_lanes(value, text, last)
}
