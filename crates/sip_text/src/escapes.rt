ghost use Rattle.std.specs.Prelude.{◌≡◌, ◌<◌, true, false, [], ◌∷◌, length, None, MatchOption};
ghost use Rattle.std.specs.Char.{is_ascii_hexdigit, digit_value};
ghost use Rattle.sip_text.specs.Escapes.{unescaped, with_front, BeginsEscape};
ghost use Rattle.sip_text.specs.Reading.{Reads};

use crate::bytes::Bytes;
use crate::error::TextError;
use memchr::memchr;
use std::alloc::Global;

/// The value of a hexadecimal digit, in any case; None of any other byte.
pub fn hex_value(byte: u8) -> Option<u8>
    ensures { MatchOption result (is_ascii_hexdigit byte ≡ false) (λ n. (n < 16) × (n ≡ digit_value byte) × (is_ascii_hexdigit byte ≡ true)) }
{
    match byte {
        b'0'..=b'9' => Some(byte - b'0'),
        b'a'..=b'f' => Some(byte - b'a' + 10),
        b'A'..=b'F' => Some(byte - b'A' + 10),
        _ => None,
    }
}

/// The byte that an escape at the front stands for, and what follows it.
fn escape_at(text: &[u8]) -> Option<(u8, &[u8])>
    requires { BeginsEscape text.now }
    ensures { MatchOption result (unescaped text.now ≡ None)
        (λ x. (length x.1.now < length text.now) × (unescaped text.now ≡ with_front (x.0 ∷ []) (unescaped x.1.now))) }
{
    let [_, high, low, rest @ ..] = text else {
        return None;
    };
    let high = hex_value(*high)?;
    let low = hex_value(*low)?;
    Some((16 * high + low, rest))
}

/// The bytes that a text with escapes `%HH` stands for (RFC 3261 25.1, `escaped`), its digits in
/// either case. Refused `BadEscape` where a `%` has no two hexadecimal digits behind it, `NoMemory`
/// where memory runs out.
pub fn unescape(alloc: Global, text: &[u8]) -> Result<Bytes, TextError>
    ensures { Reads (λ bytes. bytes) TextError.BadEscape result (unescaped text.now) }
{
    let mut bytes = Bytes::with_room(alloc, text.len())?;
    let mut rest = text;
    while let Some(at) = memchr(b'%', rest) {
        let (plain, escape) = rest.split_at(at);
        bytes.extend(plain)?;
        let Some((byte, after)) = escape_at(escape) else {
            return Err(TextError::BadEscape);
        };
        bytes.push(byte)?;
        rest = after;
    }
    bytes.extend(rest)?;
    Ok(bytes)
}
