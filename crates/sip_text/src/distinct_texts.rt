ghost use Rattle.std.specs.Prelude.{◌≡◌, map};
ghost use Rattle.std.specs.List.Sorted.{IsSorted};
ghost use Rattle.sip_text.specs.Distinct as Definitions;

use crate::words::same_no_case;
use std::cmp::Ordering;

/// Up to so many texts are as well compared each with each, which takes no list of them.
pub const FEW_TEXTS: usize = 8;

/// The order of two texts, the letters `A` to `Z` compared as small ones: byte by byte, then by length.
pub fn compare_no_case(left: &[u8], right: &[u8]) -> Ordering
    ensures { result ≡ Definitions.order_without_case left.now right.now }
{
    let mut behind = right;
    for byte in left {
        let Some((other, rest)) = behind.split_first() else {
            return Ordering::Greater;
        };
        let order = byte.to_ascii_lowercase().cmp(&other.to_ascii_lowercase());
        if order.is_ne() {
            return order;
        }
        behind = rest;
    }
    if behind.is_empty() {
        Ordering::Equal
    } else {
        Ordering::Less
    }
}

/// Whether no two neighbours are equal without case: of texts in order, whether no two are.
fn neighbours_differ(texts: &[&[u8]]) -> bool
    requires { IsSorted (λ a b. Definitions.order_without_case a.now b.now) texts.now }
    ensures { result ≡ Definitions.all_differ (map (λ x. x.now) texts.now) }
{
    for later in 1..texts.len() {
        if same_no_case(texts[later - 1], texts[later]) {
            return false;
        }
    }
    true
}

/// Whether no two texts are equal without case (RFC 3261 7.3.1). Puts them in order, so that many names that
/// a peer chose cost `n log n` comparisons whatever they are. Takes no memory.
pub fn all_differ(texts: &mut [&[u8]]) -> bool
    ensures { result ≡ Definitions.all_differ (map (λ x. x.now) texts.old) }
{
    texts.sort_unstable_by(|left, right| compare_no_case(left, right));
    neighbours_differ(texts)
}
