use crate::bytes::gives_bytes;
use crate::cases::Row;
use sip_audit::{AuditError, line_of, read_line};
use std::alloc::Global;
use test_forms::gives_text;

/// Lines of each operation and outcome, with and without a user, and of rules with and without a window. The server writes lines, and reads none.
pub(crate) const LINES_ARE_KEPT: &[Row] = &[
    Row::Line(b"1000 1 REGISTER - Mufasa@host.com register - challenge 401"),
    Row::Line(b"2000 2 REGISTER Mufasa Mufasa@host.com register 1 answer 200"),
    Row::Line(b"62000 4 INVITE - help@host.com send 4 sent 1"),
    Row::Line(b"2000 2 REGISTER alice Mufasa@host.com register 0 deny"),
    Row::Line(b"2000 2 REGISTER Mufasa Mufasa@host.com list 1 answer 200"),
    Row::Line(b"25199999 1 INVITE - help@host.com send - challenge 407"),
    Row::Line(b"25200000 1 INVITE - help@host.com send 4@480 answer 480"),
    Row::Line(b"25200000 1 INVITE - help@host.com send 4@0 deny"),
    Row::Line(b"25200000 1 INVITE - help@host.com send 4@1439 sent 16"),
    Row::Line(b"0 0 OPTIONS 0-_.+ @[::1] send 0 sent 0"),
    Row::Line(
        b"18446744073709551615 18446744073709551615 x%!`'~* a a%20b%40%2F%FF@a_b send 4294967295 sent 4294967295",
    ),
    Row::Line(
        b"1 1 MESSAGE a123456789a123456789a123456789a123456789a123456789a123456789abcd a@b send 1 answer 65535",
    ),
];

/// Whether a line is read as a record whose line it is.
pub(crate) fn is_kept(alloc: Global, line: &[u8]) -> bool {
    match read_line(alloc, line) {
        Ok(record) => gives_bytes(line_of(alloc, &record), line),
        Err(_) => false,
    }
}

/// Lines of no record.
pub(crate) const BAD_LINES: &[Row] = &[
    Row::BadLine(b""),
    Row::BadLine(b" "),
    Row::BadLine(b"1000 1 REGISTER - Mufasa@host.com register -"),
    // a blank too many, in front, between or behind
    Row::BadLine(b" 1000 1 REGISTER - Mufasa@host.com register - challenge 401"),
    Row::BadLine(b"1000  1 REGISTER - Mufasa@host.com register - challenge 401"),
    Row::BadLine(b"1000 1 REGISTER - Mufasa@host.com register - challenge 401 "),
    Row::BadLine(b"1000 1 REGISTER - Mufasa@host.com register - challenge 401\n"),
    // a leading zero, a number too large
    Row::BadLine(b"01000 1 REGISTER - Mufasa@host.com register - challenge 401"),
    Row::BadLine(b"1000 18446744073709551616 REGISTER - Mufasa@host.com register - challenge 401"),
    Row::BadLine(b"1000 1 REGISTER - Mufasa@host.com register - challenge 65536"),
    Row::BadLine(b"1000 1 REGISTER a Mufasa@host.com register 4294967296 deny"),
    Row::BadLine(b"1000 1 REGISTER a Mufasa@host.com register 01 deny"),
    // no token, no name, no host
    Row::BadLine(b"1000 1 REG(ISTER - Mufasa@host.com register - challenge 401"),
    Row::BadLine(b"1000 1 REGISTER Mu fasa Mufasa@host.com register 1 answer 200"),
    Row::BadLine(b"1000 1 REGISTER -a Mufasa@host.com register 1 answer 200"),
    Row::BadLine(b"1000 1 REGISTER - Mufasa@host/com register - challenge 401"),
    Row::BadLine(b"1000 1 REGISTER - Mufasa register - challenge 401"),
    Row::BadLine(
        b"1000 1 REGISTER a123456789a123456789a123456789a123456789a123456789a123456789abcde a@b register 1 deny",
    ),
    // an escape in lower case, one that isn't needed, one that is cut, a byte that needs one
    Row::BadLine(b"1000 1 INVITE a a%2fb@host.com send 1 deny"),
    Row::BadLine(b"1000 1 INVITE a %61@host.com send 1 deny"),
    Row::BadLine(b"1000 1 INVITE a a%2@host.com send 1 deny"),
    Row::BadLine(b"1000 1 INVITE a a/b@host.com send 1 deny"),
    // another word, a rule with a challenge, none with an answer, no number behind a word, one behind `deny`
    Row::BadLine(b"1000 1 INVITE a a@host.com call 1 deny"),
    Row::BadLine(b"1000 1 INVITE a a@host.com Send 1 deny"),
    Row::BadLine(b"1000 1 INVITE - a@host.com send 1 challenge 407"),
    Row::BadLine(b"1000 1 INVITE a a@host.com send - deny"),
    Row::BadLine(b"1000 1 INVITE a a@host.com send 1 sent"),
    Row::BadLine(b"1000 1 INVITE a a@host.com send 1 deny 1"),
    // no minute of the day, a minute of no rule
    Row::BadLine(b"1000 1 INVITE a a@host.com send 1@1440 deny"),
    Row::BadLine(b"1000 1 INVITE a a@host.com send 1@ deny"),
    Row::BadLine(b"1000 1 INVITE a a@host.com send 0@480 deny"),
    Row::BadLine(b"1000 1 INVITE a a@host.com send -@480 challenge 407"),
    Row::BadLinePrinted,
];

/// Whether a line is the line of no record.
pub(crate) fn is_refused(alloc: Global, line: &[u8]) -> bool {
    matches!(read_line(alloc, line), Err(AuditError::BadLine))
}

pub(crate) fn bad_line_printed(alloc: Global) -> bool {
    gives_text(AuditError::BadLine.to_string(alloc), "no audit line")
}
