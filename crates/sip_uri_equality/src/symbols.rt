ghost use Rattle.std.specs.Prelude.{◌≡◌, ◌<◌, [], ◌∷◌, length, MatchOption};
ghost use Rattle.sip_uri_equality.specs.Equality as Definitions;

use sip_text::hex_value;

/// A character that a text of a URI says (RFC 3261 19.1.4).
#[derive(Clone, Copy)]
pub(crate) enum Symbol {
    /// One that stands there, or an escape of one that isn't reserved.
    Plain(u8),
    /// An escape of a reserved one, which isn't that one itself.
    EscapedReserved(u8),
}

impl Symbol {
    ghost use Rattle.sip_uri_equality.specs.Equality.{small};
    ghost use Rattle.sip_uri_equality.specs.Order.{rank};

    /// With a capital letter as a small one. An escape has no case.
    pub(crate) fn small(self) -> Symbol
        ensures { result ≡ small self }
    {
        match self {
            Symbol::Plain(byte) => Symbol::Plain(byte.to_ascii_lowercase()),
            Symbol::EscapedReserved(byte) => Symbol::EscapedReserved(byte),
        }
    }

    /// The place of a symbol among all, no two in one.
    pub(crate) fn rank(self) -> u16
        ensures { result ≡ rank self }
    {
        match self {
            Symbol::Plain(byte) => 2 * u16::from(byte),
            Symbol::EscapedReserved(byte) => 2 * u16::from(byte) + 1,
        }
    }
}

/// Whether a byte is reserved (RFC 3261 25.1).
fn is_reserved(byte: u8) -> bool
    ensures { result ≡ Definitions.is_reserved byte }
{
    matches!(
        byte,
        b';' | b'/' | b'?' | b':' | b'@' | b'&' | b'=' | b'+' | b'$' | b','
    )
}

/// What an escape of a byte says.
fn escaped(byte: u8) -> Symbol
    ensures { result ≡ Definitions.escaped_symbol byte }
{
    if is_reserved(byte) {
        Symbol::EscapedReserved(byte)
    } else {
        Symbol::Plain(byte)
    }
}

/// The byte of an escape whose digits stand at the front, and what stands behind them. None where no two
/// digits stand there.
fn escape_behind_percent(digits: &[u8]) -> Option<(u8, &[u8])>
    ensures { MatchOption result (Definitions.symbols (37 ∷ digits.now) ≡ Symbol.Plain 37 ∷ Definitions.symbols digits.now)
        (λ x. (Definitions.symbols (37 ∷ digits.now) ≡ Definitions.escaped_symbol x.0 ∷ Definitions.symbols x.1.now)
        × (length x.1.now < length digits.now)) }
{
    let (high, rest) = digits.split_first()?;
    let (low, rest) = rest.split_first()?;
    let high = hex_value(*high)?;
    let low = hex_value(*low)?;
    Some((16 * high + low, rest))
}

/// The character that the front of a text says, and what stands behind it; None at its end. A `%` that begins
/// no escape stands for itself.
pub(crate) fn split_symbol(text: &[u8]) -> Option<(Symbol, &[u8])>
    ensures { MatchOption result (text.now ≡ []) (λ x. (Definitions.symbols text.now ≡ x.0 ∷ Definitions.symbols x.1.now)
        × (length x.1.now < length text.now)) }
{
    let (first, rest) = text.split_first()?;
    if *first != b'%' {
        return Some((Symbol::Plain(*first), rest));
    }
    match escape_behind_percent(rest) {
        Some((byte, rest)) => Some((escaped(byte), rest)),
        None => Some((Symbol::Plain(b'%'), rest)),
    }
}
