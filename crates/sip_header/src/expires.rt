ghost use Rattle.std.specs.Prelude.{◌≡◌};
ghost use Rattle.std.specs.Option.{option_and_then};
ghost use Rattle.sip_header.specs.Expires as Reading;

use crate::contact_item::ContactItem;
use crate::parameters::{Parameters, parameter_of};
use sip_message_form::fields::{FieldName, ViewFields};
use sip_text::{Text, decimal};

/// How long something is to last: what an Expires field, or the `expires` of a contact, says (RFC 3261 20.19, 20.10).
#[derive(Clone, Copy, PartialEq, Eq)]
pub enum Expires {
    /// Nothing is said.
    Absent,
    Seconds(u64),
    /// What is said is no number below 2^64, or is said twice.
    Malformed,
}

/// What digits say.
fn expires_from(digits: &[u8]) -> Expires
    ensures { result ≡ Reading.expires_from (Reading.seconds_of digits.now) }
{
    match decimal(digits) {
        Some(seconds) => Expires::Seconds(seconds),
        None => Expires::Malformed,
    }
}

/// What the Expires of a message says: a number of seconds (RFC 3261 20.19). Takes no memory.
#[tactic(auto, using(crate::proofs::Single::no_expires, crate::proofs::Single::some_expires, crate::proofs::Single::one_expires))]
pub fn expires_of(fields: &ViewFields<'_>) -> Expires
    ensures { result ≡ Reading.expires_of fields.now }
{
    let Some(value) = fields.first(&FieldName::Expires) else {
        return Expires::Absent;
    };
    if 1 < fields.count(&FieldName::Expires) {
        return Expires::Malformed;
    }
    expires_from(value)
}

/// What the value of an `expires` parameter says; without a value it is malformed.
fn value_expires(value: &Option<Text<'_>>) -> Expires
    ensures { result ≡ Reading.expires_from (option_and_then Reading.seconds_of value.now) }
{
    match value {
        Some(digits) => expires_from(digits.as_slice()),
        None => Expires::Malformed,
    }
}

/// What the `expires` among the parameters of a contact says (RFC 3261 20.10); without a value, or quoted, it is malformed. Takes no
/// memory.
pub fn parameters_expires(parameters: &Parameters<'_>) -> Expires
    ensures { result ≡ Reading.parameters_expires parameters.now }
{
    match parameter_of(parameters, b"expires") {
        Some(parameter) => value_expires(&parameter.value),
        None => Expires::Absent,
    }
}

/// What the `expires` of a contact says (RFC 3261 20.10); without a value, or quoted, it is malformed. Takes no
/// memory.
pub fn contact_expires(item: &ContactItem<'_>) -> Expires
    ensures { result ≡ Reading.contact_expires item.now }
{
    match item {
        ContactItem::Star => Expires::Absent,
        ContactItem::Address(address) => parameters_expires(&address.parameters),
    }
}
