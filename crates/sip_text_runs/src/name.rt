ghost use Rattle.std.specs.Prelude.{◌≡◌, ◌<◌, ◌≤◌, ℕ, true, false, length, take, slice_index, IfSome, IfNone};
ghost use Rattle.std.specs.List.{list_all};
ghost use Rattle.httparse.specs.Pieces.{IsRunIn};
ghost use Rattle.sip_text.specs.Words.{is_token_byte};
ghost use Rattle.sip_text_runs.specs.Name.{is_letter_or_dash, IsNameEnd};

use crate::lanes::{LANES, first_set};
use sip_text::split_token;
use std::simd::prelude::*;

/// How many letters and dashes stand at the front of bytes, of those that are looked at at once.
#[inline(always)]
fn letters_in_lanes(bytes: &[u8]) -> usize
    requires { 16 ≤ length bytes.now }
    ensures { IsRunIn is_letter_or_dash bytes.now 0 16 result }
{
    let lanes = u8x16::from_slice(bytes);
    let behind_a = (lanes | u8x16::splat(0x20)) - u8x16::splat(b'a');
    let stops = behind_a.simd_ge(u8x16::splat(26)) & lanes.simd_ne(u8x16::splat(b'-'));
    first_set(stops.to_bitmask())
}

/// Where a mark stands right behind letters and dashes at the front, among the first 16 bytes of at least as many. None where
/// none stands so. Takes no memory.
#[inline(always)]
#[tactic(auto, using(crate::proofs::Names::letters_pass, crate::proofs::Names::letters_token, crate::proofs::Names::at_run))]
pub fn name_end(bytes: &[u8], mark: u8) -> Option<usize>
    ensures within { IfSome result (λ at. (0 < at) × (at < length bytes.now)) }
    ensures token { IfSome result (λ at. list_all is_token_byte (take at bytes.now) ≡ true) }
    ensures mark { IfSome result (λ at. slice_index bytes.now at ≡ mark) }
    ensures some { IfSome result (λ at. IsNameEnd bytes.now mark at) }
    ensures none { IfNone result ((at : ℕ) → ¬ IsNameEnd bytes.now mark at) }
{
    if bytes.len() < LANES {
        return None;
    }
    let at = letters_in_lanes(bytes);
    if at == 0 {
        return None;
    }
    if at >= LANES {
        return None;
    }
    if bytes[at] != mark {
        return None;
    }
    Some(at)
}

/// How many bytes of a token stand at the front of a line: sixteen are looked at at once, which tells where a `:` stands right
/// behind letters and dashes. Takes no memory.
#[inline]
#[tactic(auto, using(crate::proofs::Names::letters_token, crate::proofs::Names::token, crate::proofs::Names::token_stops))]
pub fn name_length(line: &[u8]) -> usize
    ensures within { result ≤ length line.now }
    ensures token { list_all is_token_byte (take result line.now) ≡ true }
    ensures stops { result < length line.now → is_token_byte (slice_index line.now result) ≡ false }
{
    if line.len() >= LANES {
        let run = letters_in_lanes(line);
        if run < LANES && line[run] == b':' {
            return run;
        }
    }
    let (name, _) = split_token(line);
    name.len()
}
