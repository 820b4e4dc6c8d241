//! The open keys by a hash under a secret, each with the number of its row: whichever keys peers choose, one is found in constant time.
//! The rows themselves stand in `numbered_rows`.
ghost use Rattle.std.specs.Prelude.{◌≡◌, ◌≤◌, ◌<◌, ◌+◌, ◌==◌, ◌++◌, ◌∷◌, [], ℕ, Some, length, remove, slice_get, if◌then◌else◌};
ghost use Rattle.std.specs.Prelude.{IfNone, IfSome, IfOk, OnOk};
ghost use Rattle.sip_base.specs.KeyedHasher.{fed_first};
ghost use Rattle.sip_transaction_table.specs.Digest.{digest_of, named_digest};
ghost use Rattle.sip_transaction_table.specs.Keys.{count_in, counted};

use crate::TransactionKey;
use crate::digest::{digest_of, named_digest};
use crate::front::take_out;
use sip_base::KeyedHasher;
use std::alloc::{AllocError, Global};
use std::collections::{HashMap, VecDeque};
use std::marker::Model;

/// What is known of the keys of one digest.
#[derive(Clone, Copy)]
pub(crate) struct KeyHint {
    /// The number of the newest row with this digest.
    pub(crate) number: u64,
    /// How many others have it.
    pub(crate) others: u64,
}

/// How many rows there are room for.
pub(crate) const ROOM: usize = 1024;

/// How many keys are open by their digests under a secret, with the number of the newest one's row.
#[derive(Drop)]
pub(crate) struct KeyIndex {
    secret: KeyedHasher,
    hints: HashMap<u64, KeyHint>,
    /// The digests of the keys in the order of their rows, so that a key isn't hashed again when its row closes.
    digests: VecDeque<u64>,
}

impl Model for KeyIndex {
    ghost use Rattle.std.specs.Prelude.{◌≤◌};
    ghost use Rattle.std.specs.HashMap.{spare};
    ghost use Rattle.std.specs.VecDeque.{deque_capacity};
    ghost use Rattle.sip_transaction_table.specs.Keys.{Filed};

    ghost Value = { Filed };

    ghost view = { λ k. record { secret = k.secret; entries = k.hints.entries; digests = k.digests.items; room = spare k.hints } };

    ghost invariant = { λ k. 1024 ≤ deque_capacity k.digests };
}

impl KeyIndex {
    /// No key, and room for the digests of all rows that may stand. Keys are hashed under the secret `keys`. `AllocError` is the only refusal.
    pub(crate) fn new(alloc: Global, keys: u128) -> Result<Self, AllocError>
        ensures entries { IfOk result (λ keys. keys.entries ≡ []) }
        ensures digests { IfOk result (λ keys. keys.digests ≡ []) }
        ensures secret { IfOk result (λ filed. filed.secret ≡ fed_first keys) }
    {
        let digests = VecDeque::with_capacity(alloc, ROOM)?;
        Ok(KeyIndex {
            secret: KeyedHasher::new(keys),
            hints: HashMap::new(alloc),
            digests,
        })
    }

    /// The number of a row that may have this key. None says that no key of its digest is filed.
    pub(crate) fn hint(&self, key: &TransactionKey) -> Option<u64>
        ensures { IfNone result (count_in (digest_of self.now.secret key.now) self.now.entries ≡ 0) }
    {
        match self.hints.get(&digest_of(&self.secret, key)) {
            Some(hint) => Some(hint.number),
            None => None,
        }
    }

    /// What is known of the keys that have the digest of those that a CANCEL with this key names. None says that none is filed.
    pub(crate) fn named(&self, cancel: &TransactionKey) -> Option<KeyHint>
        ensures none { IfNone result (count_in (named_digest self.now.secret cancel.now) self.now.entries ≡ 0) }
        ensures some { IfSome result (λ hint. count_in (named_digest self.now.secret cancel.now) self.now.entries ≡ counted hint) }
    {
        match self.hints.get(&named_digest(&self.secret, cancel)) {
            Some(hint) => Some(*hint),
            None => None,
        }
    }

    /// Makes room for one more key. `AllocError` is the only refusal.
    pub(crate) fn reserve(&mut self) -> Result<(), AllocError>
        ensures secret { self.new.secret ≡ self.old.secret }
        ensures counts { (d : ℕ) → count_in d self.new.entries ≡ count_in d self.old.entries }
        ensures digests { self.new.digests ≡ self.old.digests }
        ensures ok { OnOk result (1 ≤ self.new.room) }
        ensures room { self.old.room ≤ self.new.room }
    {
        self.hints.reserve(1)
    }

    /// Files a key, whose row has this number and stands behind all others. Takes no memory.
    pub(crate) fn add(&mut self, key: &TransactionKey, number: u64)
        requires room { 1 ≤ self.old.room }
        requires rows { length self.old.digests < 1024 }
        requires few { count_in (digest_of self.old.secret key.now) self.old.entries < 1024 }
        ensures secret { self.new.secret ≡ self.old.secret }
        ensures counts { (d : ℕ) → count_in d self.new.entries ≡ count_in d self.old.entries
            + (if digest_of self.old.secret key.now == d then 1 else 0) }
        ensures digests { self.new.digests ≡ self.old.digests ++ digest_of self.old.secret key.now ∷ [] }
        ensures room { self.old.room ≤ self.new.room + 1 }
    {
        let digest = digest_of(&self.secret, key);
        let others = match self.hints.get(&digest) {
            Some(hint) => hint.others + 1,
            None => 0,
        };
        let inserted: Result<_, _> = self.hints.insert(digest, KeyHint { number, others });
        let _before = inserted.unwrap();
        self.digests.push_back_reserved(digest);
    }

    /// The digest of the key of the row at a place, which is taken out.
    pub(crate) fn take_digest(&mut self, place: usize) -> u64
        requires { place < length self.old.digests }
        ensures digest { slice_get self.old.digests place ≡ Some result }
        ensures digests { self.new.digests ≡ remove self.old.digests place }
        ensures secret { self.new.secret ≡ self.old.secret }
        ensures entries { self.new.entries ≡ self.old.entries }
        ensures room { self.new.room ≡ self.old.room }
    {
        take_out(&mut self.digests, place)
    }

    /// Takes a key of a digest out, whose row's digest was taken. Takes no memory.
    pub(crate) fn remove(&mut self, digest: u64)
        requires { 1 ≤ count_in digest self.old.entries }
        ensures secret { self.new.secret ≡ self.old.secret }
        ensures counts { (d : ℕ) → count_in d self.old.entries ≡ count_in d self.new.entries + (if digest == d then 1 else 0) }
        ensures digests { self.new.digests ≡ self.old.digests }
        ensures room { self.old.room ≤ self.new.room }
    {
        if let Some(hint) = self.hints.get_mut(&digest) {
            if hint.others > 0 {
                hint.others -= 1;
                return;
            }
        }
        let _last = self.hints.remove(&digest);
    }
}
