use crate::cases::Row;
use sip_text::TextError;
use std::alloc::Global;
use test_forms::gives_text;

/// Every mark of a token (RFC 3261 25.1).
pub(crate) const TOKENS: &[Row] = &[
    Row::Token(b"INVITE-1.!%*_+`'~", true),
    Row::Token(b"", false),
    Row::Token(b"a b", false),
];

pub(crate) fn bad_escape_printed(alloc: Global) -> bool {
    gives_text(TextError::BadEscape.to_string(alloc), "a bad escape")
}
