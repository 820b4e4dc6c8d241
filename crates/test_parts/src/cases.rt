//! The cases by their names, each rows of a table. Each table is named alone: a table of them all takes the proof more steps than it has.
use crate::{
    audit, auth, best, config, dialogs, digest, edit, equality, header, hops, locations, message,
    nonces, onward, reply, text, uri,
};
use sip_edit_response::reason_of;
use sip_header::{bracketed_host_port, cseq_of};
use sip_text::is_token;
use sip_uri::plain_host_port;
use std::alloc::Global;
use std::io;
use test_forms::tell;

/// What is tried.
#[derive(Clone, Copy)]
pub(crate) enum Row {
    /// Bytes, and whether they are a token.
    Token(&'static [u8], bool),
    BadEscapePrinted,
    /// A text, and whether it is a URI.
    Uri(&'static [u8], bool),
    /// A URI, and its place.
    PlainPlace(&'static [u8], &'static [u8], Option<u16>),
    NoPlainPlace(&'static [u8]),
    SchemePrinted,
    /// Two URIs, and whether they are equal.
    Equal(&'static [u8], &'static [u8], bool),
    ManyParameters,
    /// A value with an address, and the URI of that.
    Address(&'static [u8], &'static [u8]),
    NoRoute(&'static [u8]),
    CSeq(&'static [u8]),
    /// A value, and the place in its brackets.
    BracketedPlace(&'static [u8], &'static [u8], Option<u16>),
    NoBracketedPlace(&'static [u8]),
    /// A message.
    Read(&'static [u8]),
    PartsOfTheDatagram,
    /// A text, and the number of its refusal, 0 where it is read.
    Refusal(&'static [u8], u8),
    /// A text, and its MD5.
    Digest(&'static [u8], u128),
    BothAnswers,
    FirstForTheRealm,
    NoncesFull,
    DialogsFull,
    Updates,
    AddressTable,
    NoMemoryPrinted,
    /// Two statuses, and whether the first outranks the second.
    Rank(u16, u16, bool),
    /// A status, and its reason phrase.
    Reason(u16, &'static [u8]),
    /// The line of a record.
    Line(&'static [u8]),
    BadLine(&'static [u8]),
    BadLinePrinted,
    AckOfAResponse,
    RecordRoute,
    /// A configuration, how many users, rules, hops, addresses of hosts and domains it states, and by how many minutes it is
    /// ahead of UTC.
    Counts(&'static str, [usize; 5], i16),
    /// A part of the sample, and a bad value that stands for it.
    BadValue(&'static str, &'static str),
    PrintedRefusals,
}

impl Row {
    fn holds(&self, alloc: Global) -> bool {
        match *self {
            Row::Token(text, is_right) => is_token(text) == is_right,
            Row::BadEscapePrinted => text::bad_escape_printed(alloc),
            Row::Uri(text, is_uri) => uri::is_read(alloc, text, is_uri),
            Row::PlainPlace(text, host, port) => uri::is_plain_place(text, host, port),
            Row::NoPlainPlace(text) => plain_host_port(text).is_none(),
            Row::SchemePrinted => uri::scheme_printed(alloc),
            Row::Equal(left, right, wanted) => {
                equality::are_equal(alloc, left, right) == Some(wanted)
            }
            Row::ManyParameters => equality::many_parameters(alloc),
            Row::Address(value, uri) => header::is_read(alloc, value, uri),
            Row::NoRoute(value) => header::is_no_route(alloc, value),
            Row::CSeq(value) => cseq_of(value).is_some(),
            Row::BracketedPlace(value, host, port) => {
                header::is_bracketed_place(value, host, port)
            }
            Row::NoBracketedPlace(value) => bracketed_host_port(value).is_none(),
            Row::Read(text) => message::is_read(alloc, text),
            Row::PartsOfTheDatagram => message::parts_of_the_datagram(alloc),
            Row::Refusal(text, number) => message::refusal_of(alloc, text) == number,
            Row::Digest(text, digest) => digest::has_digest(text, digest),
            Row::BothAnswers => digest::both_answers(),
            Row::FirstForTheRealm => auth::first_for_the_realm(alloc),
            Row::NoncesFull => nonces::nonces_full(alloc),
            Row::DialogsFull => dialogs::dialogs_full(alloc),
            Row::Updates => locations::updates(alloc),
            Row::AddressTable => hops::is_found(alloc),
            Row::NoMemoryPrinted => hops::no_memory_printed(alloc),
            Row::Rank(first, second, is_better) => best::is_ranked(first, second, is_better),
            Row::Reason(status, reason) => reason_of(status) == reason,
            Row::Line(line) => audit::is_kept(alloc, line),
            Row::BadLine(line) => audit::is_refused(alloc, line),
            Row::BadLinePrinted => audit::bad_line_printed(alloc),
            Row::AckOfAResponse => edit::ack_of_a_response(alloc),
            Row::RecordRoute => onward::record_route(alloc),
            Row::Counts(text, counts, offset) => {
                config::counts(alloc, text) == Some((counts, offset))
            }
            Row::BadValue(part, other) => config::is_bad_value(alloc, part, other),
            Row::PrintedRefusals => config::printed_refusals(alloc),
        }
    }
}

fn all_hold(alloc: Global, rows: &[Row]) -> bool {
    for row in rows {
        if !row.holds(alloc) {
            return false;
        }
    }
    true
}

fn tell_rows<R: Print + AllocGlobal>(rt: &R, name: &str, rows: &[Row]) -> io::Result<()> {
    tell(rt, name, all_hold(rt.alloc(), rows))
}

/// What is tried, by its name, in the order in which it is told.
const TEXTS: &[(&str, &[Row])] = &[
    ("tokens", text::TOKENS),
    ("bad_escape_printed", &[Row::BadEscapePrinted]),
];

const URIS: &[(&str, &[Row])] = &[
    ("texts_of_uris", uri::TEXTS_OF_URIS),
    ("plain_places", uri::PLAIN_PLACES),
    ("scheme_printed", &[Row::SchemePrinted]),
    ("uri_equality", equality::URI_EQUALITY),
    ("many_parameters", &[Row::ManyParameters]),
];

const HEADERS: &[(&str, &[Row])] = &[
    ("addresses", header::ADDRESSES),
    ("places_in_brackets", header::PLACES_IN_BRACKETS),
];

const MESSAGES: &[(&str, &[Row])] = &[
    ("read_seen_and_written", message::READ_SEEN_AND_WRITTEN),
    ("parts_of_the_datagram", &[Row::PartsOfTheDatagram]),
    ("refusals", message::REFUSALS),
];

const PROOFS: &[(&str, &[Row])] = &[
    ("md5_vectors", digest::MD5_VECTORS),
    ("both_answers", &[Row::BothAnswers]),
    ("first_for_the_realm", &[Row::FirstForTheRealm]),
    ("nonces_full", &[Row::NoncesFull]),
];

const TABLES: &[(&str, &[Row])] = &[
    ("dialogs_full", &[Row::DialogsFull]),
    ("updates", &[Row::Updates]),
    ("address_table", &[Row::AddressTable, Row::NoMemoryPrinted]),
];

const ANSWERS: &[(&str, &[Row])] = &[
    ("ranks", best::RANKS),
    ("reasons", reply::REASONS),
    ("lines_are_kept", audit::LINES_ARE_KEPT),
    ("bad_lines", audit::BAD_LINES),
];

const EDITS: &[(&str, &[Row])] = &[
    ("ack_of_a_response", &[Row::AckOfAResponse]),
    ("record_route", &[Row::RecordRoute]),
];

const CONFIGURATIONS: &[(&str, &[Row])] = &[
    ("examples_are_read", config::EXAMPLES_ARE_READ),
    ("bad_values", config::BAD_VALUES),
    ("printed_refusals", &[Row::PrintedRefusals]),
];

fn tell_each<R: Print + AllocGlobal>(rt: &R, cases: &[(&str, &[Row])]) -> io::Result<()> {
    for (name, rows) in cases {
        tell_rows(rt, name, rows)?;
    }
    Ok(())
}

/// Each case: its name, and whether it held.
pub fn tell_all<R: Print + AllocGlobal>(rt: &R) -> io::Result<()> {
    for cases in [
        TEXTS,
        URIS,
        HEADERS,
        MESSAGES,
        PROOFS,
        TABLES,
        ANSWERS,
        EDITS,
        CONFIGURATIONS,
    ] {
        tell_each(rt, cases)?;
    }
    Ok(())
}
