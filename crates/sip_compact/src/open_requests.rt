//! Which requests may be open: nothing that came behind the oldest of them may be left out.
use crate::seen::SeenMessage;
use crate::words::LIFE;
use sip_base::KeyedHasher;
use std::alloc::{AllocError, Global};
use std::collections::HashMap;

/// For how long a request stays behind its final answer, at most, in milliseconds: 64 times T1 (RFC 3261 17), and some more.
const ENDING: u64 = 40_000;

/// A request that may be open.
#[derive(Clone, Copy)]
struct Open {
    /// When it came.
    arrived: u64,
    /// When it was last heard of: it can't be open for much longer without a sign (RFC 3261 16.6 step 11, Timer C).
    sign: u64,
    /// When its first final answer came.
    answered: Option<u64>,
}

impl Open {
    /// Whether it may be open at a moment.
    fn may_last(&self, now: u64) -> bool {
        match self.answered {
            Some(at) => now < at.saturating_add(ENDING),
            None => now < self.sign.saturating_add(LIFE),
        }
    }
}

/// Which transaction a message is of: its Call-ID, method and number.
fn key_of(alloc: Global, seen: &SeenMessage) -> Result<Vec<u8>, AllocError> {
    let mut key = Vec::from_slice(alloc, seen.call_id.as_slice())?;
    key.push(seen.method.mark())?;
    key.extend_from_slice(&seen.sequence.to_be_bytes())?;
    Ok(key)
}

/// The requests that may be open, by their transactions, which peers choose.
#[derive(Drop)]
pub(crate) struct OpenRequests {
    alloc: Global,
    rows: HashMap<Vec<u8>, Open, KeyedHasher>,
}

impl OpenRequests {
    /// None yet, under a secret. Takes no memory.
    pub(crate) fn new(alloc: Global, keys: u128) -> Self {
        OpenRequests {
            alloc,
            rows: HashMap::with_hasher(alloc, KeyedHasher::new(keys)),
        }
    }

    /// A request came, or came again.
    pub(crate) fn came(&mut self, seen: &SeenMessage, at: u64) -> Result<(), AllocError> {
        let key = key_of(self.alloc, seen)?;
        if let Some(row) = self.rows.get_mut(key.as_slice()) {
            row.sign = at;
            return Ok(());
        }
        let row = Open {
            arrived: at,
            sign: at,
            answered: None,
        };
        self.rows.insert(key, row)?;
        Ok(())
    }

    /// An answer to one came.
    pub(crate) fn answered(
        &mut self,
        seen: &SeenMessage,
        status: u16,
        at: u64,
    ) -> Result<(), AllocError> {
        let key = key_of(self.alloc, seen)?;
        if let Some(row) = self.rows.get_mut(key.as_slice()) {
            row.sign = at;
            if status >= 200 && row.answered.is_none() {
                row.answered = Some(at);
            }
        }
        Ok(())
    }

    /// From which moment on nothing may be left out: that from which nonces may live, or the arrival of the oldest that may be
    /// open.
    pub(crate) fn begin(&self, now: u64) -> u64 {
        let mut begin = now.saturating_sub(LIFE);
        for row in self.rows.values() {
            if row.may_last(now) {
                begin = begin.min(row.arrived);
            }
        }
        begin
    }

    /// Forgets those that can't be open any more.
    pub(crate) fn forget(&mut self, now: u64) {
        self.rows.retain(|_key, row| row.may_last(now));
    }
}
