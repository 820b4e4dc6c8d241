//! The line that says which record another one follows.
ghost use Rattle.std.specs.Prelude.{◌≡◌, IfOk};
ghost use Rattle.hex.specs.Hex.{encode_lower};
ghost use Rattle.sip_record_sealed.specs.Seal;

use hex::{decode_to_slice, encode_to_slice};
use std::alloc::{AllocError, Global};

/// How it begins.
pub(crate) const FOLLOWS: &[u8] = b"follows ";

/// The most bytes that the name of a file has.
const MOST_NAME: usize = 255;

/// The most bytes that such a line has, with its LF.
pub(crate) const LONGEST: usize = 329;

/// How many bytes stand behind the name: a blank, the digits of the digest and LF.
const BEHIND: usize = 66;

/// Which record another one follows: the name of its file, without its folder, and the digest in its last line.
pub struct Follows {
    pub name: Vec<u8>,
    pub digest: [u8; 32],
}

/// Written out, so that it is proved once and not wherever one is dropped.
impl Drop for Follows {
    fn drop(self) {
        let Follows { name: _, digest: _ } = self;
    }
}

/// Whether a line can say a file's name.
fn is_name(name: &[u8]) -> bool {
    !name.is_empty() && name.len() <= MOST_NAME && !name.iter().any(|byte| *byte == b'\n')
}

impl Follows {
    /// The record of a file with this name, whose last line holds this digest; none, where no line can say the name. `AllocError` is the only
    /// refusal.
    pub fn new(
        alloc: Global,
        name: &[u8],
        digest: [u8; 32],
    ) -> Result<Option<Follows>, AllocError> {
        if !is_name(name) {
            return Ok(None);
        }
        let name = Vec::from_slice(alloc, name)?;
        Ok(Some(Follows { name, digest }))
    }
}

/// The digits of a digest.
fn digits_of(digest: &[u8; 32]) -> [u8; 64]
    ensures { result ≡ encode_lower digest.now }
{
    let mut text = [0u8; 64];
    let done = encode_to_slice(digest.as_slice(), &mut text);
    prove!(done.is_ok());
    text
}

/// The line that says which record another one follows, and its LF. `AllocError` is the only refusal.
pub fn follows_line(alloc: Global, follows: &Follows) -> Result<Vec<u8>, AllocError>
    ensures { IfOk result (λ line. line.items ≡ Seal.follows_line follows.now.name.items follows.now.digest) }
{
    let mut line = Vec::with_capacity(alloc, LONGEST)?;
    line.extend_from_slice(FOLLOWS)?;
    line.extend_from_slice(follows.name.as_slice())?;
    line.extend_from_slice(b" ")?;
    line.extend_from_slice(&digits_of(&follows.digest))?;
    line.extend_from_slice(b"\n")?;
    Ok(line)
}

/// The digest that 64 digits write.
fn digest_in(digits: &[u8]) -> Option<[u8; 32]> {
    let mut digest = [0u8; 32];
    match decode_to_slice(digits, &mut digest) {
        Ok(()) => Some(digest),
        Err(_) => None,
    }
}

/// The name and the digits in a line, its LF with it, that begins and ends as such a one does.
fn parts_of(line: &[u8]) -> Option<(&[u8], &[u8])> {
    if !line.starts_with(FOLLOWS) {
        return None;
    }
    let end = line.len().checked_sub(BEHIND)?;
    let name = line.get(FOLLOWS.len()..end)?;
    let digits = line.get(end.saturating_add(1)..line.len().saturating_sub(1))?;
    Some((name, digits))
}

/// What a line says, its LF with it; none, where it is no such line, to the byte. `AllocError` is the only refusal.
pub(crate) fn read_follows(alloc: Global, line: &[u8]) -> Result<Option<Follows>, AllocError> {
    let Some((name, digits)) = parts_of(line) else {
        return Ok(None);
    };
    let Some(digest) = digest_in(digits) else {
        return Ok(None);
    };
    let Some(follows) = Follows::new(alloc, name, digest)? else {
        return Ok(None);
    };
    let written = follows_line(alloc, &follows)?;
    if written.as_slice() == line {
        Ok(Some(follows))
    } else {
        Ok(None)
    }
}
