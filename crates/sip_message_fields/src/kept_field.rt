ghost use Rattle.std.specs.Prelude.{◌≡◌, true};

use crate::KnownName;
use crate::known_names::same_known;
use sip_text::Span;

/// A field whose bytes stand in a store: a name that this project knows, or the span of its spelling, and the span
/// of its value.
#[derive(Clone, Copy)]
pub struct KeptField {
    pub known: Option<KnownName>,
    pub spelling: Span,
    pub value: Span,
}

/// Only where two names are one that this project knows, or neither is known.
fn same_name(left: Option<KnownName>, right: Option<KnownName>) -> bool
    ensures { result ≡ true → left ≡ right }
{
    match (left, right) {
        (Some(one), Some(other)) => same_known(one, other),
        (None, None) => true,
        _ => false,
    }
}

impl KeptField {
    /// Only where it is another one.
    fn is_same(&self, other: &KeptField) -> bool
        ensures { result ≡ true → self.now ≡ other.now }
    {
        same_name(self.known, other.known)
            && self.spelling.is_same(other.spelling)
            && self.value.is_same(other.value)
    }
}

/// Only where two lists have the same fields, in their order. Takes no memory.
pub fn same_fields(left: &[KeptField], right: &[KeptField]) -> bool
    ensures { result ≡ true → left.now ≡ right.now }
{
    if left.len() != right.len() {
        return false;
    }
    for at in 0..left.len() {
        if !left[at].is_same(&right[at]) {
            return false;
        }
    }
    true
}
