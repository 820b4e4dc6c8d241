//! The rows of open requests in rising order of their numbers: found by number, at either end at once and else by bisection, or
//! passed over one by one for a key. `table` finds them by key.
ghost use Rattle.std.specs.Prelude.{◌≡◌, ◌<◌, ◌≤◌, ◌++◌, ◌∷◌, ◌==◌, [], length, position, remove, slice_get, slice_set, Some, IfOk};
ghost use Rattle.std.specs.List.{All, AllPairs};
ghost use Rattle.sip_transaction_table.specs.Key.{same_key, is_cancelled_by};

use crate::boxed::Boxed;
use crate::front::take_out;
use crate::keys::ROOM;
use crate::row::TransactionRow;
use crate::{Transaction, TransactionKey, same_key};
use std::alloc::{AllocError, Global};
use std::collections::VecDeque;
use std::marker::Model;

/// At most 1,024 rows, whose numbers rise, seen as the list of them.
#[derive(Drop)]
pub(crate) struct NumberedRows<R: TransactionRow> {
    rows: VecDeque<Boxed<R>>,
}

impl<R: TransactionRow> Model for NumberedRows<R> {
    ghost use Rattle.std.specs.Prelude.{List};
    ghost use Rattle.std.specs.VecDeque.{deque_capacity};
    ghost use Rattle.sip_transaction_table.specs.Numbered.{IsNumbered};

    ghost Value = { List R };

    ghost view = { λ n. n.rows.items };

    ghost invariant = { λ n. IsNumbered R.number n.rows.items (deque_capacity n.rows) };
}

impl<R: TransactionRow> NumberedRows<R> {
    /// No row, and room for all that may stand. `AllocError` is the only refusal.
    pub(crate) fn new(alloc: Global) -> Result<Self, AllocError>
        ensures { IfOk result (λ rows. rows ≡ []) }
    {
        let rows = VecDeque::with_capacity(alloc, ROOM)?;
        Ok(NumberedRows { rows })
    }

    /// How many rows there are.
    pub(crate) fn len(&self) -> usize
        ensures value { result ≡ length self.now }
        ensures few { result ≤ 1024 }
        ensures rise { AllPairs (λ a b. R.number a < R.number b) self.now }
    {
        self.rows.len()
    }

    /// The row at a place.
    pub(crate) fn get(&self, place: usize) -> &R
        requires { place < length self.now }
        ensures row { slice_get self.now place ≡ Some result.now }
        ensures number { position (λ r. R.number r == R.number result.now) self.now ≡ Some place }
    {
        self.rows[place].get()
    }

    /// The place of the row with a number: mostly that of the newest or of the oldest, and else it is found by bisection.
    pub(crate) fn find(&self, number: u64) -> Option<usize>
        ensures { result ≡ position (λ r. R.number r == number) self.now }
    {
        if let Some(newest) = self.len().checked_sub(1) {
            if self.get(newest).number() == number {
                return Some(newest);
            }
            if self.get(0).number() == number {
                return Some(0);
            }
        }
        self.bisect(number)
    }

    /// The place of the row with a number, by bisection.
    fn bisect(&self, number: u64) -> Option<usize>
        ensures { result ≡ position (λ r. R.number r == number) self.now }
    {
        self.rows
            .binary_search_by_key(&number, |row| row.get().number())
            .ok()
    }

    /// The place of the first row with a key, row by row. Called only where two have one digest.
    pub(crate) fn scan(&self, key: &TransactionKey) -> Option<usize>
        ensures { result ≡ position (λ r. same_key (R.key r) key.now) self.now }
    {
        self.rows
            .iter()
            .position(|row| same_key(row.get().key(), key))
    }

    /// The place of the first row that a CANCEL with this key names, row by row.
    pub(crate) fn scan_cancelled(&self, key: &TransactionKey) -> Option<usize>
        ensures { result ≡ position (λ r. is_cancelled_by key.now (R.key r)) self.now }
    {
        self.rows
            .iter()
            .position(|row| row.get().key().is_cancelled_by(key))
    }

    /// Adds a row behind all others. Takes no memory.
    pub(crate) fn push(&mut self, row: Boxed<R>)
        requires room { length self.old < 1024 }
        requires last { All (λ r. R.number r < R.number row) self.old }
        ensures { self.new ≡ self.old ++ row ∷ [] }
    {
        self.rows.push_back_reserved(row);
    }

    /// Puts a row in the place of one with its number. Takes no memory.
    pub(crate) fn replace(&mut self, place: usize, row: Boxed<R>)
        requires number { (r : R) → slice_get self.old place ≡ Some r → R.number row ≡ R.number r }
        requires place { place < length self.old }
        ensures { self.new ≡ slice_set self.old place row }
    {
        self.rows[place] = row;
    }

    /// A transaction of the row at a place ends; its number and its key stay. Takes no memory.
    pub(crate) fn end(&mut self, place: usize, transaction: Transaction)
        requires { place < length self.old }
        ensures ended { (r : R) → slice_get self.old place ≡ Some r → self.new ≡ slice_set self.old place (R.ended transaction r) }
        ensures key { (r : R) → slice_get self.old place ≡ Some r → R.key (R.ended transaction r) ≡ R.key r }
    {
        self.rows[place].get_mut().end(transaction);
    }

    /// Takes a row out. Takes no memory.
    pub(crate) fn remove(&mut self, place: usize) -> Boxed<R>
        requires { place < length self.old }
        ensures new { self.new ≡ remove self.old place }
        ensures old { slice_get self.old place ≡ Some result }
    {
        take_out(&mut self.rows, place)
    }
}
