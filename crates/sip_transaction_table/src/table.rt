//! The table of open requests: its rows (`numbered_rows`) and their keys (`keys`), which always agree (RFC 3261 17.2.3).
//! What a row is and which timers it has is said in `sip_fork`.
ghost use Rattle.std.specs.Prelude.{◌≡◌, ◌<◌, ◌≤◌, ◌++◌, ◌∷◌, ◌+◌, ◌==◌, [], false, length, position, find, remove, slice_get};
ghost use Rattle.std.specs.Prelude.{slice_set, nat_le, Option, Some, None, IfOk, OnOk};
ghost use Rattle.std.specs.List.{All, AllPairs};
ghost use Rattle.std.specs.Option.{option_and_then};
ghost use Rattle.sip_base.specs.KeyedHasher.{fed_first};
ghost use Rattle.sip_transaction_table.specs.Key.{same_key, is_cancelled_by};

use crate::boxed::Boxed;
use crate::keys::KeyIndex;
use crate::numbered_rows::NumberedRows;
use crate::row::TransactionRow;
use crate::{Transaction, TransactionKey, same_key};
use std::alloc::{AllocError, Global};
use std::marker::Model;

/// How many requests are open at most.
const OPEN: usize = 1024;

/// The open requests, in rising order of their numbers, each with a key of its own.
/// Seen as the list of them, how many more can be added with no memory, and the secret under which keys are hashed.
pub struct TransactionTable<R: TransactionRow> {
    rows: NumberedRows<R>,
    keys: KeyIndex,
}

/// Written out, so that it is proved once and not wherever one is dropped.
impl<R: TransactionRow> Drop for TransactionTable<R> {
    fn drop(self) {
        let TransactionTable { rows: _, keys: _ } = self;
    }
}

impl<R: TransactionRow> Model for TransactionTable<R> {
    ghost use Rattle.sip_transaction_table.specs.Rows.{Rows, AreFiled};

    ghost Value = { Rows R };

    ghost view = { λ t. record { rows = t.rows; room = t.keys.room; secret = t.keys.secret } };

    ghost invariant = { λ t. AreFiled R.key t.rows t.keys };
}

impl<R: TransactionRow> TransactionTable<R> {
    /// No open request. Keys are hashed under the secret `keys`. `AllocError` is the only refusal.
    pub fn new(alloc: Global, keys: u128) -> Result<Self, AllocError>
        ensures rows { IfOk result (λ table. table.rows ≡ []) }
        ensures secret { IfOk result (λ table. table.secret ≡ fed_first keys) }
    {
        let rows = NumberedRows::new(alloc)?;
        let keys = KeyIndex::new(alloc, keys)?;
        Ok(TransactionTable { rows, keys })
    }

    /// How many requests are open: at most 1,024. Their numbers rise, and their keys differ. Takes no memory.
    pub fn len(&self) -> usize
        ensures value { result ≡ length self.now.rows }
        ensures few { result ≤ 1024 }
        ensures rise { AllPairs (λ a b. R.number a < R.number b) self.now.rows }
        ensures apart { AllPairs (λ a b. same_key (R.key a) (R.key b) ≡ false) self.now.rows }
    {
        let _keys = &self.keys;
        self.rows.len()
    }

    /// Whether no more can be opened. Takes no memory.
    pub fn is_full(&self) -> bool
        ensures { result ≡ nat_le 1024 (length self.now.rows) }
    {
        OPEN <= self.len()
    }

    /// The row at a place. It's the only one with its number, and with its key. Takes no memory.
    pub fn get(&self, place: usize) -> &R
        requires { place < length self.now.rows }
        ensures row { slice_get self.now.rows place ≡ Some result.now }
        ensures number { position (λ r. R.number r == R.number result.now) self.now.rows ≡ Some place }
        ensures key { position (λ r. same_key (R.key r) (R.key result.now)) self.now.rows ≡ Some place }
    {
        let _keys = &self.keys;
        self.rows.get(place)
    }

    /// The place of the open request with a number, which is the only one, by bisection. Takes no memory.
    pub fn find_number(&self, number: u64) -> Option<usize>
        ensures place { result ≡ position (λ r. R.number r == number) self.now.rows }
        ensures row { option_and_then (slice_get self.now.rows) result ≡ find (λ r. R.number r == number) self.now.rows }
    {
        self.rows.find(number)
    }

    /// The place of the open request with a key (RFC 3261 17.2.3), which is the only one: by its hash under the secret,
    /// and the number known for it; row by row only where another open key has that hash. Takes no memory.
    pub fn find(&self, key: &TransactionKey) -> Option<usize>
        ensures place { result ≡ position (λ r. same_key (R.key r) key.now) self.now.rows }
        ensures row { option_and_then (slice_get self.now.rows) result ≡ find (λ r. same_key (R.key r) key.now) self.now.rows }
    {
        let number = match self.keys.hint(key) {
            Some(number) => number,
            None => return None,
        };
        if let Some(place) = self.rows.find(number) {
            if same_key(self.rows.get(place).key(), key) {
                return Some(place);
            }
        }
        self.rows.scan(key)
    }

    /// The place of the earliest open request that a CANCEL with this key names (RFC 3261 9.2): by the hash that its key has
    /// under the secret, and the number known for it; row by row only where several open keys have that hash, as those of one
    /// branch and sent-by with other methods do. Takes no memory.
    pub fn find_cancelled(&self, key: &TransactionKey) -> Option<usize>
        ensures place { result ≡ position (λ r. is_cancelled_by key.now (R.key r)) self.now.rows }
        ensures row { option_and_then (slice_get self.now.rows) result ≡ find (λ r. is_cancelled_by key.now (R.key r)) self.now.rows }
    {
        let hint = match self.keys.named(key) {
            Some(hint) => hint,
            None => return None,
        };
        if hint.others == 0 {
            if let Some(only) = self.rows.find(hint.number) {
                if self.rows.get(only).key().is_cancelled_by(key) {
                    return Some(only);
                }
            }
        }
        self.rows.scan_cancelled(key)
    }

    /// Makes room for one more row, so that the next `push` takes no memory. `AllocError` is the only refusal.
    pub fn reserve_one(&mut self) -> Result<(), AllocError>
        ensures rows { self.new.rows ≡ self.old.rows }
        ensures ok { OnOk result (1 ≤ self.new.room) }
        ensures room { self.old.room ≤ self.new.room }
        ensures secret { self.new.secret ≡ self.old.secret }
    {
        self.keys.reserve()
    }

    /// Opens a request whose number is above all others and whose key isn't open. Takes no memory.
    pub fn push(&mut self, row: Boxed<R>)
        requires few { length self.old.rows < 1024 }
        requires room { 1 ≤ self.old.room }
        requires last { All (λ r. R.number r < R.number row) self.old.rows }
        requires alone { position (λ r. same_key (R.key r) (R.key row)) self.old.rows ≡ None }
        ensures rows { self.new.rows ≡ self.old.rows ++ row ∷ [] }
        ensures room { self.old.room ≤ self.new.room + 1 }
        ensures secret { self.new.secret ≡ self.old.secret }
    {
        self.keys.add(row.get().key(), row.get().number());
        self.rows.push(row);
    }

    /// Puts a row in the place of one with its number and its key. Takes no memory.
    pub fn replace(&mut self, place: usize, row: Boxed<R>)
        requires place { place < length self.old.rows }
        requires number { (r : R) → slice_get self.old.rows place ≡ Some r → R.number row ≡ R.number r }
        requires key { (r : R) → slice_get self.old.rows place ≡ Some r → R.key row ≡ R.key r }
        ensures rows { self.new.rows ≡ slice_set self.old.rows place row }
        ensures room { self.new.room ≡ self.old.room }
        ensures secret { self.new.secret ≡ self.old.secret }
    {
        self.rows.replace(place, row);
    }

    /// A transaction of the open request at a place ends where it stands. Takes no memory.
    pub fn end(&mut self, place: usize, transaction: Transaction)
        requires { place < length self.old.rows }
        ensures rows { (r : R) → slice_get self.old.rows place ≡ Some r → self.new.rows ≡ slice_set self.old.rows place (R.ended transaction r) }
        ensures room { self.new.room ≡ self.old.room }
        ensures secret { self.new.secret ≡ self.old.secret }
    {
        self.rows.end(place, transaction);
    }

    /// Closes the request at a place: takes its row out, and its key isn't open any more. Takes no memory.
    pub fn remove(&mut self, place: usize) -> Boxed<R>
        requires { place < length self.old.rows }
        ensures rows { self.new.rows ≡ remove self.old.rows place }
        ensures old { slice_get self.old.rows place ≡ Some result }
        ensures closed { position (λ r. same_key (R.key r) (R.key result)) self.new.rows ≡ None }
        ensures room { self.old.room ≤ self.new.room }
        ensures secret { self.new.secret ≡ self.old.secret }
    {
        let row = self.rows.remove(place);
        let digest = self.keys.take_digest(place);
        self.keys.remove(digest);
        row
    }
}
