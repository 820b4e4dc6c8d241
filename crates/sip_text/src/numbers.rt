//! Numbers without leading zeros, as addresses, scripts, audit lines and this server's branches have them, and hexadecimal digits.
//! The numbers of SIP's grammar are read by `decimal`.
ghost use Rattle.std.specs.Prelude.{◌≡◌, ◌<◌, ◌/◌, ◌%◌, IfOk, IfSome, slice_index};
ghost use Rattle.hex.specs.Hex.{lower_digits};
ghost use Rattle.sip_text.specs.Numbers;

use crate::bytes::Bytes;
use crate::words::decimal;
use std::alloc::{AllocError, Global};

/// Whether digits begin with a 0 that another one follows. Takes no memory.
pub fn has_leading_zero(digits: &[u8]) -> bool
    ensures { result ≡ Numbers.has_leading_zero digits.now }
{
    let [first, _, ..] = digits else {
        return false;
    };
    *first == b'0'
}

/// The number that one or more decimal digits without leading zeros write, if it is below 2^64. Takes no
/// memory.
pub fn plain_decimal(digits: &[u8]) -> Option<u64>
    ensures { result ≡ Numbers.plain_decimal_of digits.now }
{
    if has_leading_zero(digits) {
        return None;
    }
    decimal(digits)
}

/// Such a number below a limit.
pub fn plain_decimal_below(digits: &[u8], limit: u64) -> Option<u64>
    ensures value { result ≡ Numbers.plain_decimal_below limit digits.now }
    ensures below { IfSome result (λ number. number < limit) }
{
    let number = plain_decimal(digits)?;
    if number < limit { Some(number) } else { None }
}

/// A port, 1 to 65535, that decimal digits without leading zeros write.
pub fn plain_port(digits: &[u8]) -> Option<u16>
    ensures { result ≡ Numbers.plain_port_of digits.now }
{
    let port = plain_decimal_below(digits, 65536)?;
    if port == 0 { None } else { Some(port as u16) }
}

/// The bytes that hexadecimal digits in either case write, two for each byte and at least one byte. None of
/// any other text; `AllocError` is the only refusal.
pub fn hex_bytes(alloc: Global, digits: &[u8]) -> Result<Option<Bytes>, AllocError>
    ensures { IfOk result (λ bytes. bytes ≡ Numbers.hex_bytes_of digits.now) }
{
    if digits.is_empty() {
        return Ok(None);
    }
    match hex::decode(alloc, digits) {
        Ok(bytes) => Ok(Some(Bytes::copy(alloc, bytes.as_slice())?)),
        Err(hex::FromHexError::OutOfMemory) => Err(AllocError),
        Err(_) => Ok(None),
    }
}

/// The hexadecimal digit of each byte's high four bits: a look-up for each digit costs less than a computed one.
static HIGH_DIGITS: [u8; 256] = *b"\
    0000000000000000111111111111111122222222222222223333333333333333\
    4444444444444444555555555555555566666666666666667777777777777777\
    88888888888888889999999999999999aaaaaaaaaaaaaaaabbbbbbbbbbbbbbbb\
    ccccccccccccccccddddddddddddddddeeeeeeeeeeeeeeeeffffffffffffffff";

/// That of its low four bits.
static LOW_DIGITS: [u8; 256] = *b"\
    0123456789abcdef0123456789abcdef0123456789abcdef0123456789abcdef\
    0123456789abcdef0123456789abcdef0123456789abcdef0123456789abcdef\
    0123456789abcdef0123456789abcdef0123456789abcdef0123456789abcdef\
    0123456789abcdef0123456789abcdef0123456789abcdef0123456789abcdef";

#[inline]
fn high_digit(byte: u8) -> u8
    ensures { result ≡ slice_index lower_digits (byte / 16) }
{
    HIGH_DIGITS[byte as usize]
}

#[inline]
fn low_digit(byte: u8) -> u8
    ensures { result ≡ slice_index lower_digits (byte % 16) }
{
    LOW_DIGITS[byte as usize]
}

/// A number in 16 hexadecimal digits in lower case. Takes no memory.
pub fn hex_text(number: u64) -> [u8; 16]
    ensures { result ≡ Numbers.hex_text number }
{
    let bytes = number.to_be_bytes();
    [
        high_digit(bytes[0]),
        low_digit(bytes[0]),
        high_digit(bytes[1]),
        low_digit(bytes[1]),
        high_digit(bytes[2]),
        low_digit(bytes[2]),
        high_digit(bytes[3]),
        low_digit(bytes[3]),
        high_digit(bytes[4]),
        low_digit(bytes[4]),
        high_digit(bytes[5]),
        low_digit(bytes[5]),
        high_digit(bytes[6]),
        low_digit(bytes[6]),
        high_digit(bytes[7]),
        low_digit(bytes[7]),
    ]
}
