ghost use Rattle.std.specs.Prelude.{◌≡◌, ◌<◌, length, IfSome};
ghost use Rattle.sip_uri_equality.specs.Equality as Definitions;
ghost use Rattle.sip_uri_equality.specs.Order.{order_of_texts};

use crate::symbols::split_symbol;
use sip_text::same_bytes;
use std::cmp::Ordering;

/// What stands behind the first byte of two texts, if that is the same and no `%`.
#[tactic(auto, using(crate::proofs::PlainLaws::past_says, crate::proofs::PlainLaws::past_order))]
fn behind_byte<'l, 'r>(left: &'l [u8], right: &'r [u8]) -> Option<(&'l [u8], &'r [u8])>
    ensures says { IfSome result (λ x. Definitions.says_same left.now right.now ≡ Definitions.says_same x.0.now x.1.now) }
    ensures order { IfSome result (λ x. order_of_texts left.now right.now ≡ order_of_texts x.0.now x.1.now) }
    ensures shorter { IfSome result (λ x. length x.0.now < length left.now) }
{
    let (first, left_behind) = left.split_first()?;
    let (second, right_behind) = right.split_first()?;
    if *first != *second || *first == b'%' {
        return None;
    }
    Some((left_behind, right_behind))
}

/// What stands behind the bytes at the front of two texts that are the same, up to a first `%`: texts are mostly the
/// same byte by byte, or differ soon.
fn behind_front<'l, 'r>(left: &'l [u8], right: &'r [u8]) -> (&'l [u8], &'r [u8])
    ensures says { Definitions.says_same result.0.now result.1.now ≡ Definitions.says_same left.now right.now }
    ensures order { order_of_texts result.0.now result.1.now ≡ order_of_texts left.now right.now }
{
    let mut left_rest = left;
    let mut right_rest = right;
    while let Some((left_behind, right_behind)) = behind_byte(left_rest, right_rest) {
        left_rest = left_behind;
        right_rest = right_behind;
    }
    (left_rest, right_rest)
}

/// Whether two texts of URIs say the same, byte by byte once escapes are resolved; an escape of one of
/// `;/?:@&=+$,` is another than that byte itself (RFC 3261 19.1.4). Takes no memory.
pub fn says_same(left: &[u8], right: &[u8]) -> bool
    ensures { result ≡ Definitions.says_same left.now right.now }
{
    if same_bytes(left, right) {
        return true;
    }
    let (left_behind, right_behind) = behind_front(left, right);
    let mut left_rest = left_behind;
    let mut right_rest = right_behind;
    while let Some((symbol, left_behind)) = split_symbol(left_rest) {
        let Some((other, right_behind)) = split_symbol(right_rest) else {
            return false;
        };
        if symbol.rank() != other.rank() {
            return false;
        }
        left_rest = left_behind;
        right_rest = right_behind;
    }
    right_rest.is_empty()
}

/// The order of two texts by what they say, the letters `A` to `Z` compared as small ones.
pub(crate) fn compare_texts(left: &[u8], right: &[u8]) -> Ordering
    ensures { result ≡ order_of_texts left.now right.now }
{
    if same_bytes(left, right) {
        return Ordering::Equal;
    }
    let (left_behind, right_behind) = behind_front(left, right);
    let mut left_rest = left_behind;
    let mut right_rest = right_behind;
    while let Some((symbol, left_behind)) = split_symbol(left_rest) {
        let Some((other, right_behind)) = split_symbol(right_rest) else {
            return Ordering::Greater;
        };
        let order = symbol.small().rank().cmp(&other.small().rank());
        if order.is_ne() {
            return order;
        }
        left_rest = left_behind;
        right_rest = right_behind;
    }
    if right_rest.is_empty() {
        Ordering::Equal
    } else {
        Ordering::Less
    }
}

/// Whether two texts of URIs say the same, the letters `A` to `Z` compared without case, as all texts but user
/// and password are (RFC 3261 19.1.4). Takes no memory.
pub fn says_same_no_case(left: &[u8], right: &[u8]) -> bool
    ensures { result ≡ Definitions.says_same_no_case left.now right.now }
{
    compare_texts(left, right).is_eq()
}
