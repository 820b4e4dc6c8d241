ghost use Rattle.std.specs.Prelude.{◌≡◌};
ghost use Rattle.std.specs.List.{list_all, count_by};
ghost use Rattle.sip_uri_equality.specs.Equality as Definitions;

use crate::header_order::{many_are_same, some_are_same};
use crate::places::{FEW, SOME};
use crate::texts::says_same_no_case;
use sip_uri::UriHeader;

/// Whether two headers are the same, without case.
pub(crate) fn is_same_header(left: &UriHeader, right: &UriHeader) -> bool
    ensures { result ≡ Definitions.is_same_header left.now right.now }
{
    says_same_no_case(left.name.as_slice(), right.name.as_slice())
        && says_same_no_case(left.value.as_slice(), right.value.as_slice())
}

/// How often a header stands among others.
fn count_of(header: &UriHeader, headers: &[UriHeader]) -> usize
    ensures { result ≡ count_by (Definitions.is_same_header header.now) headers.now }
{
    headers
        .iter()
        .filter(|other| is_same_header(header, other))
        .count()
}

fn stand_as_often(headers: &[UriHeader], left: &[UriHeader], right: &[UriHeader]) -> bool
    ensures { result ≡ list_all (Definitions.stands_as_often left.now right.now) headers.now }
{
    headers
        .iter()
        .all(|header| count_of(header, left) == count_of(header, right))
}

/// The same as [`are_same_headers`], each compared with each.
fn few_are_same(left: &[UriHeader], right: &[UriHeader]) -> bool
    ensures { result ≡ Definitions.are_same_headers left.now right.now }
{
    stand_as_often(left, left, right) && stand_as_often(right, left, right)
}

/// Whether two URIs have the same headers, in any order (RFC 3261 19.1.4).
pub(crate) fn are_same_headers(left: &[UriHeader], right: &[UriHeader]) -> bool
    ensures { result ≡ Definitions.are_same_headers left.now right.now }
{
    if left.is_empty() || right.is_empty() {
        return few_are_same(left, right);
    }
    if left.len() <= FEW && right.len() <= FEW {
        return few_are_same(left, right);
    }
    if left.len() <= SOME && right.len() <= SOME {
        return some_are_same(left, right);
    }
    match many_are_same(left[0].name.allocator(), left, right) {
        Ok(is_same) => is_same,
        Err(_) => few_are_same(left, right),
    }
}
