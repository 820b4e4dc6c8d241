//! The text of a nonce: the 32 hexadecimal digits of its word, written and read many at a time. Which nonces count is kept in `nonces`.
ghost use Rattle.std.specs.Prelude.{◌≡◌, true, false, None, length, map};
ghost use Rattle.sip_digest.specs.NonceText.{AreLower, HasDigits, join, lane_digit, lane_value, nonce_text, read_lower, word_of};

use std::simd::prelude::*;

/// What the high half of a word counts.
const HALF: u128 = 1 << 64;

/// The digits of values below 16, in lower case.
#[inline(always)]
fn lane_digits(values: u8x32) -> u8x32
    requires { length values ≡ 32 }
    ensures { result ≡ map lane_digit values }
{
    let letters = values + u8x32::splat(b'a' - 10);
    values
        .simd_lt(u8x32::splat(10))
        .select(values + u8x32::splat(b'0'), letters)
}

/// The text of the nonce of a word: its 32 hexadecimal digits in lower case, the high half first.
pub fn nonce_text(word: u128) -> [u8; 32]
    ensures { result ≡ nonce_text word }
{
    let bytes = u8x16::from_array(word.to_be_bytes());
    let high = bytes >> u8x16::splat(4);
    let low = bytes & u8x16::splat(15);
    let values: u8x32 = high.shuffle(
        low,
        [
            0, 16, 1, 17, 2, 18, 3, 19, 4, 20, 5, 21, 6, 22, 7, 23, 8, 24, 9, 25, 10, 26, 11, 27,
            12, 28, 13, 29, 14, 30, 15, 31,
        ],
    );
    lane_digits(values).to_array()
}

/// Whether 16 bytes are hexadecimal digits in lower case.
#[inline(always)]
fn are_lower(digits: &[u8]) -> bool
    requires { length digits.now ≡ 16 }
    ensures right { result ≡ true → AreLower digits.now }
    ensures wrong { result ≡ false → read_lower 0 digits.now ≡ None }
{
    let lanes = u8x16::from_slice(digits);
    let numbers = lanes - u8x16::splat(b'0');
    let letters = lanes - u8x16::splat(b'a');
    let others = numbers.simd_ge(u8x16::splat(10)) & letters.simd_ge(u8x16::splat(6));
    others.to_bitmask() == 0
}

/// The values of 16 hexadecimal digits in lower case.
#[inline(always)]
fn lane_values(digits: &[u8]) -> u8x16
    requires { length digits.now ≡ 16 }
    ensures { result ≡ map lane_value digits.now }
{
    let lanes = u8x16::from_slice(digits);
    let numbers = lanes - u8x16::splat(b'0');
    let letters = lanes - u8x16::splat(b'a' - 10);
    numbers.simd_lt(u8x16::splat(10)).select(numbers, letters)
}

/// The number whose 16 hexadecimal digits have these values.
#[inline(always)]
fn joined(values: u8x16) -> u64
    requires { HasDigits values }
    ensures { result ≡ join 0 values }
{
    let high: u8x8 = values.swizzle([0, 2, 4, 6, 8, 10, 12, 14]);
    let low: u8x8 = values.swizzle([1, 3, 5, 7, 9, 11, 13, 15]);
    u64::from_be_bytes((high * u8x8::splat(16) + low).to_array())
}

/// The number that 16 hexadecimal digits in lower case write: half of a word.
#[tactic(auto, using(crate::proofs::LowerLanes::half_is, crate::proofs::LowerLanes::half_has))]
fn half_of(digits: &[u8]) -> Option<u64>
    requires { length digits.now ≡ 16 }
    ensures { result ≡ read_lower 0 digits.now }
{
    if are_lower(digits) {
        Some(joined(lane_values(digits)))
    } else {
        None
    }
}

/// The word that a nonce's text names: 32 hexadecimal digits in lower case. None of any other text. Takes
/// no memory.
#[tactic(auto, using(crate::proofs::LowerTexts::by_halves))]
pub fn word_of(text: &[u8]) -> Option<u128>
    ensures { result ≡ word_of text.now }
{
    if text.len() != 32 {
        return None;
    }
    let (front, back) = text.split_at(16);
    let high = half_of(front)?;
    let low = half_of(back)?;
    Some(u128::from(high) * HALF + u128::from(low))
}
