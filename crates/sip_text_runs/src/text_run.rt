ghost use Rattle.std.specs.Prelude.{◌≡◌, ◌+◌, ◌<◌, ◌≤◌, true, false, length, take, slice_index};
ghost use Rattle.std.specs.List.{list_all};
ghost use Rattle.httparse.specs.Pieces.{IsRunIn};
ghost use Rattle.sip_text_runs.specs.TextRun.{is_text, is_text_but_tab, is_visible};

use crate::lanes::{LANES, first_set};
use std::simd::prelude::*;

/// How many of the bytes from a place on, of those that are looked at at once, may stand in a value, up to a tab or the
/// first that may not.
#[inline(always)]
fn text_in_lanes(bytes: &[u8], at: usize) -> usize
    requires { at + 16 ≤ length bytes.now }
    ensures { IsRunIn is_text_but_tab bytes.now at 16 result }
{
    let lanes = u8x16::from_slice(&bytes[at..]);
    let stops = lanes.simd_lt(u8x16::splat(b' ')) | lanes.simd_eq(u8x16::splat(0x7f));
    first_set(stops.to_bitmask())
}

/// Whether a byte may stand in a value and is no tab.
#[inline]
fn is_text_byte(byte: u8) -> bool
    ensures { result ≡ is_text_but_tab byte }
{
    byte >= b' ' && byte != 0x7f
}

/// How many bytes at the front may stand in a value, up to a tab or the first that may not. Takes no memory.
#[inline]
pub fn text_length(bytes: &[u8]) -> usize
    ensures within { result ≤ length bytes.now }
    ensures text { list_all is_text (take result bytes.now) ≡ true }
    ensures run { list_all is_text_but_tab (take result bytes.now) ≡ true }
    ensures stops { result < length bytes.now → is_text_but_tab (slice_index bytes.now result) ≡ false }
{
    let mut end = 0;
    'by_lanes: while bytes.len() - end >= LANES {
        let run = text_in_lanes(bytes, end);
        if run < LANES {
            return end + run;
        }
        end += LANES;
    }
    while end < bytes.len() && is_text_byte(bytes[end]) {
        end += 1;
    }
    end
}

/// How many of the bytes from a place on, of those that are looked at at once, are from `!` to `~`, up to the first that
/// isn't.
#[inline(always)]
fn visible_in_lanes(bytes: &[u8], at: usize) -> usize
    requires { at + 16 ≤ length bytes.now }
    ensures { IsRunIn is_visible bytes.now at 16 result }
{
    let lanes = u8x16::from_slice(&bytes[at..]);
    let stops = (lanes - u8x16::splat(b'!')).simd_ge(u8x16::splat(94));
    first_set(stops.to_bitmask())
}

/// Whether a byte is one from `!` to `~`.
#[inline]
fn is_visible_byte(byte: u8) -> bool
    ensures { result ≡ is_visible byte }
{
    (b'!'..=b'~').contains(&byte)
}

/// How many bytes from `!` to `~` stand at the front. Takes no memory.
#[inline]
pub fn visible_length(bytes: &[u8]) -> usize
    ensures within { result ≤ length bytes.now }
    ensures visible { list_all is_visible (take result bytes.now) ≡ true }
    ensures stops { result < length bytes.now → is_visible (slice_index bytes.now result) ≡ false }
{
    let mut end = 0;
    'by_lanes: while bytes.len() - end >= LANES {
        let run = visible_in_lanes(bytes, end);
        if run < LANES {
            return end + run;
        }
        end += LANES;
    }
    while end < bytes.len() && is_visible_byte(bytes[end]) {
        end += 1;
    }
    end
}
