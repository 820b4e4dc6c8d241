//! Cases of a message's bytes: what it is read as, which of its values are parts of the datagram, and by which number each refusal is
//! told (RFC 3261 7).
use crate::bytes::gives_bytes;
use crate::cases::Row;
use sip_message::{read, view};
use sip_message_fields::FieldName;
use sip_message_form::{Message, View, write, written_length};
use std::alloc::Global;

const COMPACT_AND_FOLDED: &[u8] =
    b"\r\n\r\nOPTIONS sip:a@host.com sip/2.0\r\nv : SIP/2.0/UDP a;branch=1 , \tSIP/2.0/UDP b\r\nSubject: I know\r\n  you\r\nX-Note: one \r\n \r\n\ttwo\r\nl: 2\r\n\r\nabcd";

const WRITTEN: &[u8] =
    b"OPTIONS sip:a@host.com SIP/2.0\r\nVia: SIP/2.0/UDP a;branch=1\r\nVia: SIP/2.0/UDP b\r\nSubject: I know you\r\nX-Note: one two\r\nContent-Length: 2\r\n\r\nab";

/// A message, and the same as it is written.
pub(crate) const READ_SEEN_AND_WRITTEN: &[Row] = &[
    Row::Read(COMPACT_AND_FOLDED),
    Row::Read(WRITTEN),
];

fn has_four_fields(message: &Message) -> bool {
    match message.fields.clone() {
        Ok(copy) => copy.as_slice().len() == 4,
        Err(_) => false,
    }
}

fn has_two_vias(alloc: Global, message: &Message) -> bool {
    match message.fields.values(alloc, &FieldName::Via) {
        Ok(vias) => vias.len() == 2,
        Err(_) => false,
    }
}

/// Whether a message is the one of these texts: four fields, two of them a Via.
fn is_message(alloc: Global, message: &Message) -> bool {
    gives_bytes(write(alloc, message), WRITTEN)
        && written_length(message) == WRITTEN.len()
        && has_four_fields(message)
        && has_two_vias(alloc, message)
}

/// Whether a view is of that message.
fn is_seen(alloc: Global, view: &View<'_>) -> bool {
    match view.to_message(alloc) {
        Ok(message) => is_message(alloc, &message),
        Err(_) => false,
    }
}

fn is_viewed(alloc: Global, message: &Message) -> bool {
    match message.view(alloc) {
        Ok(view) => is_seen(alloc, &view),
        Err(_) => false,
    }
}

pub(crate) fn is_read(alloc: Global, text: &[u8]) -> bool {
    match read(alloc, text) {
        Ok(message) => is_viewed(alloc, &message),
        Err(_) => false,
    }
}

/// Whether the first value of a name is a part of what was read.
fn is_part(view: &View<'_>, name: &FieldName) -> bool {
    match view.fields().first_field(name) {
        Some(field) => field.value().as_part().is_some(),
        None => false,
    }
}

/// No byte of a value is copied, but of one with a fold.
pub(crate) fn parts_of_the_datagram(alloc: Global) -> bool {
    match view(alloc, COMPACT_AND_FOLDED) {
        Ok(view) => is_part(&view, &FieldName::Via) && !is_part(&view, &FieldName::Subject),
        Err(_) => false,
    }
}

/// Texts, and the numbers of their refusals, 0 where they are read.
pub(crate) const REFUSALS: &[Row] = &[
    Row::Refusal(b"OPTIONS sip:a SIP/7.10\r\n\r\n", 0),
    Row::Refusal(b"SIP/2.0 200 \r\n\r\n", 0),
    // an empty line is missing: NotSip comes before the bad field
    Row::Refusal(b"OPTIONS sip:a SIP/2.0\r\nbad\r\n", 2),
    Row::Refusal(b"OPTIONS sip:a SIP/2.0\r\nbad\r\n\r\n", 3),
    Row::Refusal(b"OPTIONS sip:a SIP/2.0\r\nX: a\nb\r\n\r\n", 3),
    Row::Refusal(b"SIP/2.0 200 O\nK\r\n\r\n", 2),
    Row::Refusal(b"OPTIONS sip:a SIP/2.0\r\n X: a\r\n\r\n", 3),
    Row::Refusal(
        b"OPTIONS sip:a SIP/2.0\r\nl: 1\r\nContent-Length: 1\r\n\r\na",
        3,
    ),
    Row::Refusal(b"OPTIONS sip:a SIP/2.0\r\nl: +1\r\n\r\na", 3),
    Row::Refusal(b"OPTIONS sip:a SIP/2.0\r\nContact: <a\r\n\r\n", 3),
    Row::Refusal(b"SIP/7.10 200 \r\n\r\n", 2),
    Row::Refusal(b"SIP/2.0 700 x\r\n\r\n", 2),
    Row::Refusal(b"\r\n\r\n", 2),
    Row::Refusal(b"OPTIONS sip:a SIP/2.0\r\nl: 3\r\n\r\nab", 4),
];

/// The number of a text's refusal, 0 where it is read.
pub(crate) fn refusal_of(alloc: Global, text: &[u8]) -> u8 {
    match read(alloc, text) {
        Ok(_) => 0,
        Err(e) => e.number(),
    }
}
