//! Headers of two URIs compared (RFC 3261 19.1.4): put in order by name and value, on the stack where they are few.
ghost use Rattle.std.specs.Prelude.{◌≡◌, ◌≤◌, ◌<◌, length, IfOk};
ghost use Rattle.std.specs.Cmp.Lexicographic.{pointwise};
ghost use Rattle.std.specs.List.Sorted.{IsPermutation};
ghost use Rattle.sip_uri_equality.specs.Equality as Definitions;
ghost use Rattle.sip_uri_equality.specs.Order.{order_of_headers, AreInOrder, ArePutInOrder, those_of};

use crate::headers::is_same_header;
use crate::places::{SOME, refer_to};
use crate::texts::compare_texts;
use sip_uri::UriHeader;
use std::alloc::{AllocError, Global};
use std::cmp::Ordering;

/// The order of two headers: of their names, then of their values.
fn compare_headers(left: &UriHeader, right: &UriHeader) -> Ordering
    ensures { result ≡ order_of_headers left.now right.now }
{
    match compare_texts(left.name.as_slice(), right.name.as_slice()) {
        Ordering::Less => Ordering::Less,
        Ordering::Equal => compare_texts(left.value.as_slice(), right.value.as_slice()),
        Ordering::Greater => Ordering::Greater,
    }
}

/// Puts headers into places, in order.
pub(crate) fn put_in_order<'a>(places: &mut [&'a UriHeader], headers: &'a [UriHeader])
    requires { length places.old ≡ length headers.now }
    ensures moved { IsPermutation headers.now (those_of places.new) }
    ensures in_order { AreInOrder order_of_headers (those_of places.new) }
{
    refer_to(places, headers);
    places.sort_unstable_by(|left, right| compare_headers(left, right));
}

/// Whether two lists have the same headers at the same places.
fn are_same_at_each_place(left: &[&UriHeader], right: &[&UriHeader]) -> bool
    requires { length left.now ≡ length right.now }
    ensures { result ≡ pointwise Definitions.is_same_header (those_of left.now) (those_of right.now) }
{
    for (index, header) in left.iter().enumerate() {
        if !is_same_header(header, right[index]) {
            return false;
        }
    }
    true
}

/// The same of lists that may differ in length.
pub(crate) fn ordered_are_same(left: &[&UriHeader], right: &[&UriHeader]) -> bool
    ensures { result ≡ pointwise Definitions.is_same_header (those_of left.now) (those_of right.now) }
{
    if left.len() != right.len() {
        return false;
    }
    are_same_at_each_place(left, right)
}

/// Whether two lists have the same headers, compared in order in places that have room for them.
fn are_same_in_places<'a>(
    left: &'a [UriHeader],
    right: &'a [UriHeader],
    left_places: &mut [&'a UriHeader],
    right_places: &mut [&'a UriHeader],
) -> bool
    requires left { length left.now ≤ length left_places.old }
    requires right { length right.now ≤ length right_places.old }
    ensures { result ≡ Definitions.are_same_headers left.now right.now }
{
    let left_places = &mut left_places[..left.len()];
    let right_places = &mut right_places[..right.len()];
    put_in_order(left_places, left);
    put_in_order(right_places, right);
    ordered_are_same(left_places, right_places)
}

/// Whether two lists have the same headers, where there are few enough for places on the stack.
pub(crate) fn some_are_same<'a>(left: &'a [UriHeader], right: &'a [UriHeader]) -> bool
    requires left { (0 < length left.now) × (length left.now ≤ 256) }
    requires right { (0 < length right.now) × (length right.now ≤ 256) }
    ensures { result ≡ Definitions.are_same_headers left.now right.now }
{
    let mut left_places = [&left[0]; SOME];
    let mut right_places = [&right[0]; SOME];
    are_same_in_places(left, right, &mut left_places, &mut right_places)
}

/// Headers in order, in places of their own. `AllocError` is the only refusal.
pub(crate) fn in_order<'a>(
    alloc: Global,
    headers: &'a [UriHeader],
) -> Result<Vec<&'a UriHeader>, AllocError>
    ensures { IfOk result (λ places. ArePutInOrder order_of_headers headers.now places.items) }
{
    let Some(first) = headers.first() else {
        return Ok(Vec::new(alloc));
    };
    let mut places = Vec::from_elem(alloc, first, headers.len())?;
    put_in_order(places.as_mut_slice(), headers);
    Ok(places)
}

/// Whether two lists have the same headers, however many there are. `AllocError` is the only refusal.
pub(crate) fn many_are_same(
    alloc: Global,
    left: &[UriHeader],
    right: &[UriHeader],
) -> Result<bool, AllocError>
    ensures { IfOk result (λ is_same. is_same ≡ Definitions.are_same_headers left.now right.now) }
{
    let left_places = in_order(alloc, left)?;
    let right_places = in_order(alloc, right)?;
    Ok(ordered_are_same(left_places.as_slice(), right_places.as_slice()))
}
