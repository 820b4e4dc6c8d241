//! Parameters of two URIs compared in order of their names, where each with each would cost too much.
//! Where one list is short, or no memory is left for places, `parameters` compares each with each.
ghost use Rattle.std.specs.Prelude.{◌≡◌, ◌≤◌, ◌<◌, ◌+◌, length, not, ◌∷◌, true, false, IfOk};
ghost use Rattle.std.specs.List.{list_all};
ghost use Rattle.std.specs.List.Sorted.{IsPermutation};
ghost use Rattle.sip_uri_equality.specs.Equality as Definitions;
ghost use Rattle.sip_uri_equality.specs.Order.{order_of_names, AreInOrder, ArePutInOrder, begins_with, those_of};
ghost use Rattle.sip_uri_equality.specs.Walk.{IsAdvance};

use crate::parameters::{are_same_values, is_never_ignored};
use crate::places::{SOME, refer_to};
use crate::texts::{compare_texts, says_same_no_case};
use sip_text::same_bytes;
use sip_uri::UriParameter;
use std::alloc::{AllocError, Global};
use std::cmp::Ordering;

/// Puts parameters into places, in order of their names.
pub(crate) fn put_in_order<'a>(places: &mut [&'a UriParameter], parameters: &'a [UriParameter])
    requires { length places.old ≡ length parameters.now }
    ensures moved { IsPermutation parameters.now (those_of places.new) }
    ensures in_order { AreInOrder order_of_names (those_of places.new) }
{
    refer_to(places, parameters);
    places.sort_unstable_by(|left, right| {
        compare_texts(left.name.as_slice(), right.name.as_slice())
    });
}

fn begins_with_name(parameters: &[&UriParameter], name: &[u8]) -> bool
    ensures { result ≡ begins_with name.now (those_of parameters.now) }
{
    match parameters.first() {
        Some(first) => says_same_no_case(name, first.name.as_slice()),
        None => false,
    }
}

fn may_all_be_ignored(parameters: &[&UriParameter]) -> bool
    ensures { result ≡ list_all (λ p. not (Definitions.is_never_ignored p.name)) (those_of parameters.now) }
{
    for parameter in parameters {
        if is_never_ignored(parameter.name.as_slice()) {
            return false;
        }
    }
    true
}

/// Which of two lists goes on to its next parameter.
#[derive(Clone, Copy)]
enum Advance {
    Left,
    Right,
    Both,
    /// None: the lists differ.
    Differ,
}

/// Where to go on from two parameters of one name and value: past all of that name but the last of each list.
fn past_pair(
    first: &UriParameter,
    left: &[&UriParameter],
    second: &UriParameter,
    right: &[&UriParameter],
) -> Advance
    requires name { Definitions.says_same_no_case first.now.name second.now.name ≡ true }
    requires value { Definitions.both_or_none Definitions.says_same_no_case first.now.value second.now.value ≡ true }
    requires left { AreInOrder order_of_names (first.now ∷ those_of left.now) }
    requires right { AreInOrder order_of_names (second.now ∷ those_of right.now) }
    ensures { IsAdvance result (first.now ∷ those_of left.now) (second.now ∷ those_of right.now) }
{
    if begins_with_name(left, first.name.as_slice()) {
        return Advance::Left;
    }
    if begins_with_name(right, second.name.as_slice()) {
        return Advance::Right;
    }
    Advance::Both
}

/// Where to go on from the first parameters of two lists in order.
fn past_first(
    first: &UriParameter,
    left: &[&UriParameter],
    second: &UriParameter,
    right: &[&UriParameter],
) -> Advance
    requires left { AreInOrder order_of_names (first.now ∷ those_of left.now) }
    requires right { AreInOrder order_of_names (second.now ∷ those_of right.now) }
    ensures { IsAdvance result (first.now ∷ those_of left.now) (second.now ∷ those_of right.now) }
{
    let name = first.name.as_slice();
    let other_name = second.name.as_slice();
    match compare_texts(name, other_name) {
        Ordering::Less => {
            if is_never_ignored(name) {
                return Advance::Differ;
            }
            Advance::Left
        }
        Ordering::Greater => {
            if is_never_ignored(other_name) {
                return Advance::Differ;
            }
            Advance::Right
        }
        Ordering::Equal => {
            if !are_same_values(&first.value, &second.value) {
                return Advance::Differ;
            }
            past_pair(first, left, second, right)
        }
    }
}

/// Where to go on in two lists in order, neither of them empty.
fn advance_in(left: &[&UriParameter], right: &[&UriParameter]) -> Advance
    requires left { (0 < length left.now) × AreInOrder order_of_names (those_of left.now) }
    requires right { (0 < length right.now) × AreInOrder order_of_names (those_of right.now) }
    ensures { IsAdvance result (those_of left.now) (those_of right.now) }
{
    past_first(left[0], &left[1..], right[0], &right[1..])
}

/// Whether the parameters of two lists in order are the same: both lists are walked side by side.
pub(crate) fn ordered_are_same(left: &[&UriParameter], right: &[&UriParameter]) -> bool
    requires left { AreInOrder order_of_names (those_of left.now) }
    requires right { AreInOrder order_of_names (those_of right.now) }
    ensures { result ≡ Definitions.are_same_parameters (those_of left.now) (those_of right.now) }
{
    let mut left_at = 0;
    let mut right_at = 0;
    while left_at < left.len() {
        if right_at >= right.len() {
            return may_all_be_ignored(&left[left_at..]);
        }
        match advance_in(&left[left_at..], &right[right_at..]) {
            Advance::Left => left_at += 1,
            Advance::Right => right_at += 1,
            Advance::Both => {
                left_at += 1;
                right_at += 1;
            }
            Advance::Differ => return false,
        }
    }
    may_all_be_ignored(&right[right_at..])
}

/// Whether two parameters have one name, byte by byte, and different values.
#[tactic(auto, using(crate::proofs::PlaceLaws::values_differ_alone))]
fn differ(left: &UriParameter, right: &UriParameter) -> bool
    ensures { result ≡ true → Definitions.agrees left.now right.now ≡ false }
{
    same_bytes(left.name.as_slice(), right.name.as_slice())
        && !are_same_values(&left.value, &right.value)
}

/// Whether two lists differ where they have such parameters at the same place, as those do that differ in a value alone:
/// then nothing else has to be looked at.
pub(crate) fn differ_at_a_place(left: &[&UriParameter], right: &[&UriParameter]) -> bool
    ensures { result ≡ true → Definitions.are_same_parameters (those_of left.now) (those_of right.now) ≡ false }
{
    for (index, parameter) in left.iter().enumerate() {
        if index >= right.len() {
            return false;
        }
        if differ(parameter, right[index]) {
            return true;
        }
    }
    false
}

/// Whether the parameters of two lists are the same, compared in order of their names in places that have room
/// for them.
fn are_same_in_places<'a>(
    left: &'a [UriParameter],
    right: &'a [UriParameter],
    left_places: &mut [&'a UriParameter],
    right_places: &mut [&'a UriParameter],
) -> bool
    requires left { length left.now ≤ length left_places.old }
    requires right { length right.now ≤ length right_places.old }
    ensures { result ≡ Definitions.are_same_parameters left.now right.now }
{
    let left_places = &mut left_places[..left.len()];
    let right_places = &mut right_places[..right.len()];
    put_in_order(left_places, left);
    put_in_order(right_places, right);
    ordered_are_same(left_places, right_places)
}

/// Whether the parameters of two lists are the same, where there are few enough for places on the stack.
pub(crate) fn some_are_same<'a>(left: &'a [UriParameter], right: &'a [UriParameter]) -> bool
    requires left { (0 < length left.now) × (length left.now ≤ 256) }
    requires right { (0 < length right.now) × (length right.now ≤ 256) }
    ensures { result ≡ Definitions.are_same_parameters left.now right.now }
{
    let mut left_places = [&left[0]; SOME];
    let mut right_places = [&right[0]; SOME];
    are_same_in_places(left, right, &mut left_places, &mut right_places)
}

/// Parameters in order of their names, in places of their own. `AllocError` is the only refusal.
pub(crate) fn in_order<'a>(
    alloc: Global,
    parameters: &'a [UriParameter],
) -> Result<Vec<&'a UriParameter>, AllocError>
    ensures { IfOk result (λ places. ArePutInOrder order_of_names parameters.now places.items) }
{
    let Some(first) = parameters.first() else {
        return Ok(Vec::new(alloc));
    };
    let mut places = Vec::from_elem(alloc, first, parameters.len())?;
    put_in_order(places.as_mut_slice(), parameters);
    Ok(places)
}

/// Whether the parameters of two lists are the same, however many there are. `AllocError` is the only refusal.
pub(crate) fn many_are_same(
    alloc: Global,
    left: &[UriParameter],
    right: &[UriParameter],
) -> Result<bool, AllocError>
    ensures { IfOk result (λ is_same. is_same ≡ Definitions.are_same_parameters left.now right.now) }
{
    let left_places = in_order(alloc, left)?;
    let right_places = in_order(alloc, right)?;
    Ok(ordered_are_same(left_places.as_slice(), right_places.as_slice()))
}
