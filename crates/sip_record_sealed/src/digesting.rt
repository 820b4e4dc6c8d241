//! What is digested of a record's file.
use sha2::{Digest, Sha256};
use std::alloc::AllocError;

/// The mark of a whole record, which counts as that of each file, and the blank behind it.
const MARK: [u8; 7] = *b"record ";

/// The digest of the bytes of a file, as they come; the first seven count as the mark of a whole record.
#[derive(Drop)]
pub struct Digesting {
    hasher: Sha256,
    /// How many of the first seven bytes are still to come.
    marked: usize,
}

impl Digesting {
    /// No byte came yet.
    pub fn new() -> Self {
        Digesting {
            hasher: Sha256::new_with_prefix(&MARK),
            marked: MARK.len(),
        }
    }

    /// Bytes that stand behind those that came.
    pub fn take(&mut self, bytes: &[u8]) {
        let marked = self.marked.min(bytes.len());
        self.marked -= marked;
        self.hasher.update(&bytes[marked..]);
    }

    /// The digest of what came. `AllocError` is the only refusal.
    pub fn digest(&self) -> Result<[u8; 32], AllocError> {
        let hasher = self.hasher.clone()?;
        Ok(hasher.finalize())
    }
}
