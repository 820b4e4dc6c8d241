//! The line that holds a digest, and what stands at the front of a line of a record's file.
ghost use Rattle.std.specs.Prelude.{◌≡◌, ◌≤◌, length};
ghost use Rattle.sip_record_sealed.specs.Seal;
ghost use Rattle.sip_record_sealed.specs.declared.seal.Front.TheVariants as Fronts;

use crate::follows::{FOLLOWS, LONGEST};
use crate::line::part_of_line;
use hex::encode_to_slice;

/// How it begins.
pub(crate) const FRONT: &[u8] = b"sealed ";

/// How many bytes it has, with its LF.
pub(crate) const SIZE: usize = 72;

/// The line with a digest, and its LF.
pub fn seal_line(digest: &[u8; 32]) -> [u8; 72]
    ensures { result ≡ Seal.seal_line digest.now }
{
    let mut line = *b"sealed 0000000000000000000000000000000000000000000000000000000000000000\n";
    let done = encode_to_slice(digest.as_slice(), &mut line[7..71]);
    prove!(done.is_ok());
    line
}

/// What the bytes at the front of a line are.
#[derive(Clone, Copy)]
pub(crate) enum Front {
    /// Those of another line.
    Other,
    /// Those of a line with a digest, of which all bytes stand there, if its form is right.
    Seal,
    /// Those of a line that begins as one does that says which record is followed, up to its LF.
    Follows,
    /// Too few to know.
    Short,
}

/// What the bytes at the front of a line are.
pub(crate) fn front_of(bytes: &[u8]) -> Front
    ensures { result ≡ Fronts.Seal → 72 ≤ length bytes.now }
{
    if bytes.len() < SIZE {
        return short_front(bytes);
    }
    if bytes.starts_with(FRONT) {
        Front::Seal
    } else {
        Front::Other
    }
}

/// The same of fewer bytes than such a line has.
fn short_front(bytes: &[u8]) -> Front
    ensures { result ≡ Fronts.Seal → 72 ≤ length bytes.now }
{
    if bytes.starts_with(FRONT) {
        return Front::Short;
    }
    if FRONT.starts_with(bytes) {
        Front::Short
    } else {
        Front::Other
    }
}

/// The same of the second line of a file.
pub(crate) fn front_of_second(bytes: &[u8]) -> Front
    ensures { result ≡ Fronts.Seal → 72 ≤ length bytes.now }
{
    if FOLLOWS.starts_with(bytes) {
        return Front::Short;
    }
    if !bytes.starts_with(FOLLOWS) {
        return front_of(bytes);
    }
    let (count, ends) = part_of_line(bytes, LONGEST);
    if ends {
        return Front::Follows;
    }
    if count < LONGEST {
        Front::Short
    } else {
        Front::Other
    }
}
