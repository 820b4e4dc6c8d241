ghost use Rattle.std.specs.Prelude.{◌≡◌, ◌+◌, ◌≤◌, [], ◌∷◌, true, length, Some};
ghost use Rattle.std.specs.List.{list_all};
ghost use Rattle.httparse.specs.Pieces.{IsRunIn};
ghost use Rattle.sip_text.specs.Lists.{cut};
ghost use Rattle.sip_text_runs.specs.Marks.{is_unmarked, is_plain_item};

use crate::lanes::{LANES, first_set};
use std::simd::prelude::*;

/// How many of the bytes from a place on, of those that are looked at at once, neither cut a list nor begin a quote or a
/// bracket, up to the first that does.
#[inline(always)]
fn unmarked_in_lanes(bytes: &[u8], at: usize) -> usize
    requires { at + 16 ≤ length bytes.now }
    ensures { IsRunIn is_unmarked bytes.now at 16 result }
{
    let lanes = u8x16::from_slice(&bytes[at..]);
    let commas = lanes.simd_eq(u8x16::splat(b','));
    let quotes = lanes.simd_eq(u8x16::splat(b'"'));
    let stops = commas | quotes | lanes.simd_eq(u8x16::splat(b'<'));
    first_set(stops.to_bitmask())
}

/// Whether a byte neither cuts a list nor begins a quote or a bracket.
#[inline]
fn is_unmarked_byte(byte: u8) -> bool
    ensures { result ≡ is_unmarked byte }
{
    byte != b',' && byte != b'"' && byte != b'<'
}

/// Whether none of a few bytes cuts a list or begins a quote or a bracket.
fn are_few_unmarked(bytes: &[u8]) -> bool
    ensures { result ≡ list_all is_unmarked bytes.now }
{
    for byte in bytes {
        if !is_unmarked_byte(*byte) {
            return false;
        }
    }
    true
}

/// Whether no byte cuts a list or begins a quote or a bracket. The last bytes are looked at at once with some before them.
fn are_unmarked(bytes: &[u8]) -> bool
    ensures { result ≡ list_all is_unmarked bytes.now }
{
    if bytes.len() < LANES {
        return are_few_unmarked(bytes);
    }
    let last = bytes.len() - LANES;
    let mut seen = 0;
    'by_lanes: while seen < last {
        let run = unmarked_in_lanes(bytes, seen);
        if run < LANES {
            return false;
        }
        seen += LANES;
    }
    let run = unmarked_in_lanes(bytes, last);
    if run < LANES {
        return false;
    }
    true
}

/// Whether a value is seen at once to be a list of one item: it has no comma, no quote and no bracket, or is one pair of
/// brackets, and begins and ends with a byte above the space. `false` says nothing of the list. Takes no memory.
#[tactic(auto, using(crate::proofs::OneValue::plain_value, crate::proofs::OneValue::bracketed_value))]
pub fn is_one_value(value: &[u8]) -> bool
    ensures one { result ≡ true → cut value.now ≡ Some (value.now ∷ []) }
    ensures plain { result ≡ is_plain_item value.now }
{
    let length = value.len();
    if length == 0 {
        return false;
    }
    if value[0] <= b' ' {
        return false;
    }
    if value[length - 1] <= b' ' {
        return false;
    }
    if value[0] != b'<' {
        return are_unmarked(value);
    }
    if value[length - 1] != b'>' {
        return false;
    }
    let (_, behind) = value.split_at(1);
    are_unmarked(behind)
}
