ghost use Rattle.std.specs.Prelude.{◌≡◌};
ghost use Rattle.sip_text.specs.Words.{decimal_of};
ghost use Rattle.sip_header.specs.MaxForwards as Reading;

use sip_message_form::fields::{FieldName, ViewFields};
use sip_text::decimal;

/// What the Max-Forwards of a message says (RFC 3261 20.22).
#[derive(Clone, Copy, PartialEq, Eq)]
pub enum MaxForwards {
    /// There is no such field.
    Absent,
    /// How many more times the request may be forwarded.
    Hops(u8),
    /// The field is repeated, or isn't a number of at most 255.
    Malformed,
}

/// What digits say.
fn hops_from(digits: &[u8]) -> MaxForwards
    ensures { result ≡ Reading.hops_from (decimal_of digits.now) }
{
    let Some(hops) = decimal(digits) else {
        return MaxForwards::Malformed;
    };
    if hops <= 255 {
        MaxForwards::Hops(hops as u8)
    } else {
        MaxForwards::Malformed
    }
}

/// What the Max-Forwards of a message says: a number of at most 255 (RFC 3261 20.22). Takes no memory.
#[tactic(auto, using(crate::proofs::Single::no_hops, crate::proofs::Single::some_hops, crate::proofs::Single::one_hops))]
pub fn max_forwards_of(fields: &ViewFields<'_>) -> MaxForwards
    ensures { result ≡ Reading.max_forwards_of fields.now }
{
    let Some(value) = fields.first(&FieldName::MaxForwards) else {
        return MaxForwards::Absent;
    };
    if 1 < fields.count(&FieldName::MaxForwards) {
        return MaxForwards::Malformed;
    }
    hops_from(value)
}
