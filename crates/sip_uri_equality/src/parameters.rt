//! Whether the parameters of two URIs are the same (RFC 3261 19.1.4): which ones count where only one URI has them.
//! Where both lists are long they are compared in `parameter_order`.
ghost use Rattle.std.specs.Prelude.{◌≡◌};
ghost use Rattle.std.specs.List.{list_all, list_any};
ghost use Rattle.sip_uri_equality.specs.Equality as Definitions;

use crate::parameter_order::{many_are_same, some_are_same};
use crate::places::{FEW, SOME};
use crate::texts::says_same_no_case;
use sip_text::Bytes;
use sip_uri::UriParameter;

/// Whether two values say the same without case, or neither parameter has one.
pub(crate) fn are_same_values(left: &Option<Bytes>, right: &Option<Bytes>) -> bool
    ensures { result ≡ Definitions.both_or_none Definitions.says_same_no_case left.now right.now }
{
    match (left, right) {
        (Some(left), Some(right)) => says_same_no_case(left.as_slice(), right.as_slice()),
        (None, None) => true,
        _ => false,
    }
}

/// Whether two parameters have different names, or one value.
fn agrees(left: &UriParameter, right: &UriParameter) -> bool
    ensures { result ≡ Definitions.agrees left.now right.now }
{
    if says_same_no_case(left.name.as_slice(), right.name.as_slice()) {
        are_same_values(&left.value, &right.value)
    } else {
        true
    }
}

/// Whether a parameter of this name counts where only one URI has it (RFC 3261 19.1.4).
pub(crate) fn is_never_ignored(name: &[u8]) -> bool
    ensures { result ≡ Definitions.is_never_ignored name.now }
{
    says_same_no_case(name, b"user")
        || says_same_no_case(name, b"ttl")
        || says_same_no_case(name, b"method")
        || says_same_no_case(name, b"maddr")
        || says_same_no_case(name, b"transport")
}

fn has_name(parameters: &[UriParameter], name: &[u8]) -> bool
    ensures { result ≡ list_any (λ q. Definitions.says_same_no_case name.now q.name) parameters.now }
{
    parameters.iter().any(|parameter| says_same_no_case(name, parameter.name.as_slice()))
}

/// Whether a parameter may be ignored, or its name stands among others.
fn is_answered(others: &[UriParameter], parameter: &UriParameter) -> bool
    ensures { result ≡ Definitions.is_answered others.now parameter.now }
{
    let name = parameter.name.as_slice();
    !is_never_ignored(name) || has_name(others, name)
}

fn agrees_with_all(parameter: &UriParameter, others: &[UriParameter]) -> bool
    ensures { result ≡ list_all (λ q. Definitions.agrees parameter.now q) others.now }
{
    others.iter().all(|other| agrees(parameter, other))
}

fn all_agree(left: &[UriParameter], right: &[UriParameter]) -> bool
    ensures { result ≡ list_all (λ p. list_all (λ q. Definitions.agrees p q) right.now) left.now }
{
    left.iter()
        .all(|parameter| agrees_with_all(parameter, right))
}

fn all_answered(others: &[UriParameter], parameters: &[UriParameter]) -> bool
    ensures { result ≡ list_all (Definitions.is_answered others.now) parameters.now }
{
    parameters
        .iter()
        .all(|parameter| is_answered(others, parameter))
}

/// The same as [`are_same_parameters`], each compared with each.
fn few_are_same(left: &[UriParameter], right: &[UriParameter]) -> bool
    ensures { result ≡ Definitions.are_same_parameters left.now right.now }
{
    all_agree(left, right) && all_answered(right, left) && all_answered(left, right)
}

/// Whether each parameter that both URIs have agrees, and none that counts stands in only one (RFC 3261
/// 19.1.4).
pub(crate) fn are_same_parameters(left: &[UriParameter], right: &[UriParameter]) -> bool
    ensures { result ≡ Definitions.are_same_parameters left.now right.now }
{
    if left.len() <= FEW || right.len() <= FEW {
        return few_are_same(left, right);
    }
    if left.len() <= SOME && right.len() <= SOME {
        return some_are_same(left, right);
    }
    match many_are_same(left[0].name.allocator(), left, right) {
        Ok(is_same) => is_same,
        Err(_) => few_are_same(left, right),
    }
}
