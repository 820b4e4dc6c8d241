//! How far the bytes go that stand for themselves in a line `text`, looked at sixteen at a time.
ghost use Rattle.std.specs.Prelude.{◌≡◌, ◌+◌, ◌<◌, ◌≤◌, true, false, length, take, slice_index, MatchOption};
ghost use Rattle.std.specs.List.{list_all};
ghost use Rattle.httparse.specs.Pieces.{first_set, IsRunIn};
ghost use Rattle.sip_replay_script.specs.Escaped.{is_plain};

use crate::gathered::LANES;
use std::simd::prelude::*;

/// The place of the lowest bit that is set, or the number of lanes where none is.
#[inline(always)]
fn first_set(mask: u64) -> usize
    ensures { result ≡ first_set mask 16 }
{
    if mask == 0 {
        LANES
    } else {
        mask.trailing_zeros() as usize
    }
}

/// How many of the bytes from a place on, of those that are looked at at once, stand for themselves, up to the first that
/// doesn't.
#[inline(always)]
pub(crate) fn plain_in_lanes(bytes: &[u8], at: usize) -> usize
    requires { at + 16 ≤ length bytes.now }
    ensures { IsRunIn is_plain bytes.now at 16 result }
{
    let lanes = u8x16::from_slice(&bytes[at..]);
    let stops = (lanes - u8x16::splat(b' ')).simd_ge(u8x16::splat(95));
    let stops = stops | lanes.simd_eq(u8x16::splat(b'\\'));
    first_set(stops.to_bitmask())
}

/// Whether a byte stands for itself.
#[inline]
pub(crate) fn is_plain_byte(byte: u8) -> bool
    ensures { result ≡ is_plain byte }
{
    (b' '..=b'~').contains(&byte) && byte != b'\\'
}

/// How many bytes at the front stand for themselves.
#[inline]
fn plain_length(bytes: &[u8]) -> usize
    ensures within { result ≤ length bytes.now }
    ensures plain { list_all is_plain (take result bytes.now) ≡ true }
    ensures stops { result < length bytes.now → is_plain (slice_index bytes.now result) ≡ false }
{
    let mut end = 0;
    'by_lanes: while bytes.len() - end >= LANES {
        let run = plain_in_lanes(bytes, end);
        if run < LANES {
            return end + run;
        }
        end += LANES;
    }
    while end < bytes.len() && is_plain_byte(bytes[end]) {
        end += 1;
    }
    end
}

/// Where the first byte stands that doesn't stand for itself.
#[tactic(auto, using(crate::proofs::PlainRuns::all_plain))]
pub(crate) fn first_other(bytes: &[u8]) -> Option<usize>
    ensures { MatchOption result (list_all is_plain bytes.now ≡ true)
        (λ at. (at < length bytes.now) × (list_all is_plain (take at bytes.now) ≡ true)
        × (is_plain (slice_index bytes.now at) ≡ false)) }
{
    let run = plain_length(bytes);
    if run < bytes.len() { Some(run) } else { None }
}
