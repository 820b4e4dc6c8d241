use crate::cases::Row;
use sip_text::Bytes;
use sip_uri::parse_uri;
use sip_uri_equality::same;
use std::alloc::{AllocError, Global};

/// Pairs of texts, and whether they write equal URIs.
pub(crate) const URI_EQUALITY: &[Row] = &[
    Row::Equal(b"sip:h;%61=1;x", b"sip:h;A=1", true),
    Row::Equal(b"sip:h;%61=1;a=1", b"sip:h;a=2", false),
    Row::Equal(b"sip:h:05060", b"sip:h:5060", false),
];

/// Whether two texts write equal URIs. None where one of them isn't read.
pub(crate) fn are_equal(alloc: Global, left: &[u8], right: &[u8]) -> Option<bool> {
    match (parse_uri(alloc, left), parse_uri(alloc, right)) {
        (Ok(left), Ok(right)) => Some(same(&left, &right)),
        _ => None,
    }
}

fn push_parameters(text: &mut Bytes, falls: bool) -> Result<(), AllocError> {
    for place in 0..2_000u64 {
        text.extend(b";p")?;
        text.push_decimal(if falls { 1_999 - place } else { place })?;
        text.extend(b"=%41")?;
    }
    Ok(())
}

/// A URI with 2,000 parameters, whose numbers rise or fall.
fn with_parameters(alloc: Global, falls: bool) -> Result<Bytes, AllocError> {
    let mut text = Bytes::copy(alloc, b"sip:h")?;
    push_parameters(&mut text, falls)?;
    Ok(text)
}

/// Whether the rising parameters equal the falling ones.
fn are_equal_in_reverse(alloc: Global) -> Option<bool> {
    match (with_parameters(alloc, false), with_parameters(alloc, true)) {
        (Ok(rising), Ok(falling)) => are_equal(alloc, rising.as_slice(), falling.as_slice()),
        _ => None,
    }
}

pub(crate) fn many_parameters(alloc: Global) -> bool {
    are_equal_in_reverse(alloc) == Some(true)
}
