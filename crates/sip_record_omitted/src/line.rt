//! The line `omitted COUNT`: what it says, and what is written of a count.
ghost use Rattle.std.specs.Prelude.{◌≡◌, IfOk};
ghost use Rattle.sip_record_omitted.specs.Omitted;

use sip_text::{Bytes, plain_decimal_below, same_bytes, split_once};
use std::alloc::{AllocError, Global};

/// The first count that is too large.
const TOO_MANY: u64 = 0x4000_0000_0000_0000;

/// How many they are: 1 to 2^62 - 1, in decimal without leading zeros.
fn count_of(digits: &[u8]) -> Option<u64>
    ensures { result ≡ Omitted.count_of digits.now }
{
    let count = plain_decimal_below(digits, TOO_MANY)?;
    if count == 0 { None } else { Some(count) }
}

/// For how many datagrams that were left out a line stands, which is given without its LF; none of any other line. Takes no
/// memory.
pub fn omitted_of(line: &[u8]) -> Option<u64>
    ensures { result ≡ Omitted.omitted_of line.now }
{
    let (word, digits) = split_once(line, b' ')?;
    if same_bytes(word, b"omitted") {
        return count_of(digits);
    }
    None
}

/// What is written for so many datagrams that are left out: `omitted COUNT` and LF. `AllocError` is the only refusal.
pub fn omitted_text(alloc: Global, count: u64) -> Result<Bytes, AllocError>
    ensures { IfOk result (λ text. text ≡ Omitted.omitted_text count) }
{
    let mut text = Bytes::new(alloc);
    text.extend(b"omitted ")?;
    text.push_decimal(count)?;
    text.extend(b"\n")?;
    Ok(text)
}
