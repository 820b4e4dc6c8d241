//! For how long the answer to a REGISTER says that bindings are live (RFC 3261 10.3 step 8).
ghost use Rattle.std.specs.Prelude.{◌≡◌, IfOk};
ghost use Rattle.sipd_page_sections.specs.Notes as Definitions;

use sip_event::Packet;
use sip_message::{FieldName, ViewField};
use sipd_sources::message_in;
use std::alloc::{AllocError, Global};

/// A number, and one byte more of the text in which it is the last.
fn with_digit(number: u64, byte: u8) -> u64
    ensures { result ≡ Definitions.with_digit number byte }
{
    if byte.is_ascii_digit() {
        return number
            .saturating_mul(10)
            .saturating_add(u64::from(byte - 48));
    }
    0
}

/// The seconds with which a value ends.
#[tactic(auto, using(std::proofs::lemmas::List::at_drop_more, std::proofs::lemmas::List::drop_all))]
fn seconds_said(value: &[u8]) -> u64
    ensures { result ≡ Definitions.seconds_said value.now }
{
    let mut seconds = 0;
    for byte in value {
        seconds = with_digit(seconds, *byte);
    }
    seconds
}

/// Those of a Contact.
fn contact_seconds(field: &ViewField<'_>) -> u64
    ensures { result ≡ Definitions.contact_seconds field.now }
{
    if field.name().is_same(&FieldName::Contact) {
        return seconds_said(field.value().as_slice());
    }
    0
}

/// The most of some fields.
#[tactic(auto, using(std::proofs::lemmas::List::at_drop_more, std::proofs::lemmas::List::drop_all))]
fn longest_in(fields: &[ViewField<'_>]) -> u64
    ensures { result ≡ Definitions.longest_in fields.now }
{
    let mut seconds = 0;
    for field in fields {
        seconds = contact_seconds(field).max(seconds);
    }
    seconds
}

/// The most of what bytes say.
fn longest_of(alloc: Global, bytes: &[u8]) -> Result<u64, AllocError>
    ensures { IfOk result (λ seconds. seconds ≡ Definitions.longest_of bytes.now) }
{
    match message_in(alloc, bytes)? {
        Some(message) => Ok(longest_in(message.fields().as_slice())),
        None => Ok(0),
    }
}

/// The most of packets.
#[tactic(auto, using(std::proofs::lemmas::List::at_drop_more, std::proofs::lemmas::List::drop_all))]
pub(crate) fn longest(alloc: Global, packets: &[Packet]) -> Result<u64, AllocError>
    ensures { IfOk result (λ seconds. seconds ≡ Definitions.longest packets.now) }
{
    let mut seconds = 0;
    for packet in packets {
        let more = longest_of(alloc, packet.bytes.as_slice())?;
        seconds = more.max(seconds);
    }
    Ok(seconds)
}
