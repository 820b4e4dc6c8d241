//! Which datagram had which word: its nonce, where it was challenged.
use std::alloc::{AllocError, Global};
use std::collections::HashMap;

/// How long a nonce lives, in milliseconds.
pub(crate) const LIFE: u64 = 300_000;

/// A datagram that had a word.
#[derive(Clone, Copy)]
struct Worded {
    number: u64,
    at: u64,
}

/// Whether something of a moment lives still.
fn lives(at: u64, now: u64) -> bool {
    now < at.saturating_add(LIFE)
}

/// The datagrams by their words, which this server drew.
#[derive(Drop)]
pub(crate) struct Words {
    rows: HashMap<u128, Worded>,
}

impl Words {
    /// None yet. Takes no memory.
    pub(crate) fn new(alloc: Global) -> Self {
        Words {
            rows: HashMap::new(alloc),
        }
    }

    /// A datagram has a word.
    pub(crate) fn note(&mut self, word: u128, number: u64, at: u64) -> Result<(), AllocError> {
        self.rows.insert(word, Worded { number, at })?;
        Ok(())
    }

    /// The number of the datagram with a word, if a nonce of it lives at a moment.
    pub(crate) fn living(&self, word: u128, now: u64) -> Option<u64> {
        let row = self.rows.get(&word)?;
        if lives(row.at, now) {
            Some(row.number)
        } else {
            None
        }
    }

    /// Forgets those of which no nonce lives any more.
    pub(crate) fn forget(&mut self, now: u64) {
        self.rows.retain(|_word, row| lives(row.at, now));
    }
}
