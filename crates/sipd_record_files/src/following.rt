//! What a new record says of the one from which it goes on: the name of its file, and the digest in its last line, which is written for that.
use sip_journal::RecordMark;
use sip_record_sealed::Follows;
use sip_text::same_bytes;
use sipd_old_record::{OldRecord, SealedFile, open_any_record, seal_file};
use std::alloc::{AllocError, Global};
use std::io;
use std::io::{ErrorKind, Read};
use std::rt::Files;

/// What is known of a record from which a start may go on.
pub struct Followed {
    /// What the new one says of it, if anything.
    pub follows: Option<Follows>,
    /// Whether its digest couldn't be written behind it.
    pub is_unclosed: bool,
    /// Whether it held no digest before.
    pub was_unsealed: bool,
}

/// Written out, so that it is proved once and not wherever one is dropped.
impl Drop for Followed {
    fn drop(self) {
        let Followed {
            follows: _,
            is_unclosed: _,
            was_unsealed: _,
        } = self;
    }
}

impl Followed {
    /// Of what is no record, or of one from which no start goes on.
    fn none() -> Followed {
        Followed {
            follows: None,
            is_unclosed: false,
            was_unsealed: false,
        }
    }
}

/// The name of a file without its folder.
fn name_in(path: &str) -> &str {
    match path.rsplit_once('/') {
        Some((_, name)) => name,
        None => path,
    }
}

/// What a record says that follows the one at a path, whose last line holds this digest; nothing, where no line can say that. `AllocError` is the
/// only refusal.
pub fn follows_of(
    alloc: Global,
    path: &str,
    digest: [u8; 32],
) -> Result<Option<Follows>, AllocError> {
    Follows::new(alloc, name_in(path).as_bytes(), digest)
}

/// Which record the one of a file follows, if its second line says that.
pub fn follows_in<R: Files + AllocGlobal>(rt: &R, path: &str) -> Option<Follows> {
    let mut record = open_any_record(rt, rt.alloc(), path).ok()?;
    let mut byte = [0u8; 1];
    let _ = record.events.read(&mut byte);
    record.events.follows()
}

/// Whether the record of a file says that it follows the one of another, whose last line holds this digest.
pub fn goes_on_from<R: Files + AllocGlobal>(
    rt: &R,
    path: &str,
    before: &str,
    digest: Option<[u8; 32]>,
) -> bool {
    let Some(digest) = digest else {
        return false;
    };
    match follows_in(rt, path) {
        Some(follows) => {
            same_bytes(follows.name.as_slice(), name_in(before).as_bytes())
                && follows.digest == digest
        }
        None => false,
    }
}

/// Whether a path finds a record from which no other start went on.
fn is_whole<R: Files + AllocGlobal>(rt: &R, path: &str) -> bool {
    match open_any_record(rt, rt.alloc(), path) {
        Ok(OldRecord { head, .. }) => head.mark == RecordMark::Whole,
        Err(_) => false,
    }
}

/// What follows of the outcome of sealing a file.
fn followed_by(alloc: Global, path: &str, sealed: &SealedFile) -> Result<Followed, AllocError> {
    let follows = match sealed.digest {
        Some(digest) => follows_of(alloc, path, digest)?,
        None => None,
    };
    Ok(Followed {
        is_unclosed: follows.is_none(),
        follows,
        was_unsealed: sealed.was_unsealed,
    })
}

/// The same of a record, behind which its digest is written.
fn seal_old<R: Files + AllocGlobal>(rt: &R, path: &str) -> io::Result<Followed> {
    let alloc = rt.alloc();
    let sealed = seal_file(rt, alloc, path)?;
    Ok(followed_by(alloc, path, &sealed)?)
}

/// Closes a record from which a start may go on by the digest of all of it, and says what a new one says of it: nothing, where that can't be
/// written. What is no record, or one from which no start goes on, is left as it is.
pub fn follow<R: Files + AllocGlobal>(rt: &R, path: &str) -> Followed {
    if !is_whole(rt, path) {
        return Followed::none();
    }
    match seal_old(rt, path) {
        Ok(followed) => followed,
        // It was changed, which is told where it is read.
        Err(e) if e.kind() == ErrorKind::InvalidData => Followed::none(),
        Err(_) => Followed {
            follows: None,
            is_unclosed: true,
            was_unsealed: false,
        },
    }
}
