//! On which line of a configuration's text a key stands, for who is told that it is refused.
ghost use Rattle.std.specs.Prelude.{◌≡◌, count_by};
ghost use Rattle.sipd_config_faults.specs.Encoding.{is_line_end, line_of};

use crate::misplaced_keys::list_of;
use sip_config_values::{KeyPlace, TableKind};
use sip_text::{same_bytes, split_once, without_blanks, without_front_blanks};

/// What is between the brackets of a line `[[KEY]]`, if it is one.
fn list_header(line: &[u8]) -> Option<&[u8]> {
    let inner = line.strip_prefix(b"[[")?;
    let (key, _) = split_once(inner, b']')?;
    Some(without_blanks(key))
}

/// Whether a line is the header of a table, or of one of a list of tables, under a key.
fn is_header_of(line: &[u8], key: &[u8]) -> bool {
    if let Some(name) = list_header(line) {
        return same_bytes(name, key);
    }
    let Some(inner) = line.strip_prefix(b"[") else {
        return false;
    };
    match split_once(inner, b']') {
        Some((name, _)) => same_bytes(without_blanks(name), key),
        None => false,
    }
}

/// Whether a line gives a key a value.
fn gives(line: &[u8], key: &[u8]) -> bool {
    match line.strip_prefix(key) {
        Some(behind) => without_front_blanks(behind).starts_with(b"="),
        None => false,
    }
}

/// Where the lines of a text are searched.
#[derive(Clone, Copy)]
struct Search {
    /// How many headers of the kind stand above.
    headers: usize,
    /// Whether the lines are of the table.
    is_inside: bool,
    /// The number of the line of its header.
    header: Option<usize>,
}

impl Search {
    /// The search behind a line that is a header.
    fn behind_header(self, number: usize, line: &[u8], place: KeyPlace) -> Search {
        let is_of_kind = match list_header(line) {
            Some(key) => same_bytes(key, list_of(place.kind).name().as_bytes()),
            None => false,
        };
        if !is_of_kind {
            return Search {
                is_inside: false,
                ..self
            };
        }
        let is_inside = self.headers == place.before;
        Search {
            headers: self.headers.saturating_add(1),
            is_inside,
            header: if is_inside { Some(number) } else { self.header },
        }
    }
}

/// Whether a line is that of a key of a place: of its table, it gives the key, or it is the first header under a key
/// before all tables.
fn is_line_of(search: Search, line: &[u8], place: KeyPlace, key: &[u8]) -> bool {
    if line.starts_with(b"[") {
        return matches!(place.kind, TableKind::Whole) && is_header_of(line, key);
    }
    search.is_inside && gives(line, key)
}

/// The number of the line of a key of a place, from 1, or of the header of its table where the key isn't there. None where
/// neither is found, as in a list of tables in brackets.
pub(crate) fn line_number(text: &[u8], place: KeyPlace, key: &[u8]) -> Option<usize> {
    let mut search = Search {
        headers: 0,
        is_inside: matches!(place.kind, TableKind::Whole),
        header: None,
    };
    for (at, line) in text.split(|byte| *byte == b'\n').enumerate() {
        let line = without_blanks(line);
        let number = at.saturating_add(1);
        if is_line_of(search, line, place, key) {
            return Some(number);
        }
        if line.starts_with(b"[") {
            search = search.behind_header(number, line, place);
        }
    }
    search.header
}

/// How many lines end in some bytes.
#[tactic(auto, using(crate::proofs::LineEnds::ends_more, crate::proofs::LineEnds::ends_same, std::proofs::lemmas::List::take_all))]
fn ends_in(bytes: &[u8]) -> usize
    ensures { result ≡ count_by is_line_end bytes.now }
{
    let mut ends = 0;
    for byte in bytes {
        if *byte == b'\n' {
            ends += 1;
        }
    }
    ends
}

/// The number of the line that a byte of a text is in, from 1.
#[tactic(auto, using(crate::proofs::LineEnds::line_number))]
pub(crate) fn line_at(text: &[u8], place: usize) -> usize
    ensures { result ≡ line_of text.now place }
{
    ends_in(&text[..place.min(text.len())]).saturating_add(1)
}
