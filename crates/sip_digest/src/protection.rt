ghost use Rattle.std.specs.Prelude.{◌≡◌};
ghost use Rattle.sip_digest.specs.Protection.{count_in, count_with, seen};

use crate::hex_numbers::hex_number;

/// The quality of protection `auth` of an answer: `nc`, the count of the nonce's uses as it was sent,
/// and `cnonce`, the client's own nonce (RFC 2617 3.2.2).
#[derive(Clone, Copy)]
pub struct Protection<'a> {
    pub nc: &'a [u8],
    pub cnonce: &'a [u8],
}

/// The number in eight hexadecimal digits.
fn count_in(nc: &[u8]) -> Option<u64>
    ensures { result ≡ count_in nc.now }
{
    if nc.len() != 8 {
        return None;
    }
    let number = hex_number(nc)?;
    Some(number as u64)
}

/// Which use of the nonce an answer is: the number in `nc`, if that is eight hexadecimal digits, and 1 without a quality
/// of protection (RFC 2617 3.2.2: nonce-count).
pub fn nonce_count(protection: Option<Protection<'_>>) -> Option<u64>
    ensures { result ≡ count_with (seen protection.entry) }
{
    match protection {
        None => Some(1),
        Some(protection) => count_in(protection.nc),
    }
}
