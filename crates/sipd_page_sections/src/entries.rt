//! Numbers behind keys.
ghost use Rattle.std.specs.Prelude.{◌≡◌, ◌<◌, [], length, nat_lt, slice_set, OnOk};
ghost use Rattle.std.specs.List.{position_or_len};
ghost use Rattle.sipd_page_sections.specs.Entries as Definitions;

use sip_text::{Bytes, Items, same_bytes};
use std::alloc::AllocError;

/// A number behind a key.
pub struct Entry {
    pub key: Bytes,
    pub value: u64,
}

/// Written out, so that it is proved once and not wherever one is dropped.
impl Drop for Entry {
    fn drop(self) {
        let Entry { key: _, value: _ } = self;
    }
}

/// The number of a key; 0 where it has none.
pub(crate) fn value_of(rows: &[Entry], key: &[u8]) -> u64
    ensures { result ≡ Definitions.value_of key.now rows.now }
{
    for row in rows {
        if same_bytes(row.key.as_slice(), key) {
            return row.value;
        }
    }
    0
}

/// The place of a key; where it isn't among them, their number.
fn place_of(rows: &[Entry], key: &[u8]) -> usize
    ensures { result ≡ position_or_len (Definitions.is_of key.now) rows.now }
{
    for (i, row) in rows.iter().enumerate() {
        if same_bytes(row.key.as_slice(), key) {
            return i;
        }
    }
    rows.len()
}

/// The same of those that are kept.
fn place_in(rows: &Items<Entry>, key: &Bytes) -> usize
    ensures { result ≡ position_or_len (Definitions.is_of key.now) rows.now }
{
    place_of(rows.as_slice(), key.as_slice())
}

/// Whether a place is one of theirs.
fn is_within(rows: &Items<Entry>, place: usize) -> bool
    ensures { result ≡ nat_lt place (length rows.now) }
{
    place < rows.as_slice().len()
}

/// Puts an entry in a place.
fn put_at(rows: &mut [Entry], place: usize, row: Entry)
    requires { place < length rows.old }
    ensures { rows.new ≡ slice_set rows.old place row }
{
    rows[place] = row;
}

/// The same among those that are kept.
fn put_over(rows: &mut Items<Entry>, place: usize, row: Entry)
    requires { place < length rows.old }
    ensures { rows.new ≡ slice_set rows.old place row }
{
    put_at(rows.as_mut_slice(), place, row);
}

/// Puts an entry in the place of its key, or last.
pub(crate) fn put_entry(rows: &mut Items<Entry>, row: Entry) -> Result<(), AllocError>
    ensures { OnOk result (rows.new ≡ Definitions.with_entry row rows.old) }
{
    let place = place_in(rows, &row.key);
    let within = is_within(rows, place);
    if within {
        put_over(rows, place, row);
        return Ok(());
    }
    rows.push(row)
}
