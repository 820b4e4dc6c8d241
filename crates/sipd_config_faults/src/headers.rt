use sip_text::{same_bytes, split_once, without_blanks};

/// The keys of the lists of tables.
const LIST_KEYS: [&[u8]; 4] = [b"user", b"hop", b"host_address", b"rule"];

/// A line that is the header of one table, or of a list by another name, where a list of tables is meant.
#[derive(Clone, Copy)]
pub(crate) struct WrongHeader<'a> {
    /// The number of the line, from 1.
    pub(crate) number: usize,
    /// What stands between its brackets.
    pub(crate) key: &'a [u8],
    /// Whether these are two and two.
    pub(crate) is_list: bool,
    /// The key of the list that is meant.
    pub(crate) wanted: &'static [u8],
}

/// The key of a header, and whether it is one of a list: `[KEY]` or `[[KEY]]`.
fn header_key(line: &[u8]) -> Option<(&[u8], bool)> {
    let inner = line.strip_prefix(b"[")?;
    match inner.strip_prefix(b"[") {
        Some(inner) => {
            let (key, _) = split_once(inner, b']')?;
            Some((without_blanks(key), true))
        }
        None => {
            let (key, _) = split_once(inner, b']')?;
            Some((without_blanks(key), false))
        }
    }
}

/// The list that is meant by a header, if the header isn't that list's.
fn list_meant(key: &[u8], is_list: bool) -> Option<&'static [u8]> {
    if same_bytes(key, b"address") {
        return Some(b"host_address");
    }
    if is_list {
        return None;
    }
    for wanted in &LIST_KEYS {
        if same_bytes(key, wanted) {
            return Some(wanted);
        }
    }
    None
}

/// The first header of a text that is one table's where a list of tables is meant.
pub(crate) fn wrong_header(text: &[u8]) -> Option<WrongHeader<'_>> {
    for (at, line) in text.split(|byte| *byte == b'\n').enumerate() {
        if let Some((key, is_list)) = header_key(without_blanks(line)) {
            if let Some(wanted) = list_meant(key, is_list) {
                return Some(WrongHeader {
                    number: at.saturating_add(1),
                    key,
                    is_list,
                    wanted,
                });
            }
        }
    }
    None
}
