//! One list of timers by its ends, threaded through rows of a slab: one is put behind the others or taken out of its middle,
//! and the one that is due first is remembered. Which slot a list is of is known in `slots`.
ghost use Rattle.std.specs.Prelude.{◌≡◌, ◌≢◌, ◌≤◌, ◌<◌, ◌+◌, ◌==◌, ℕ, ◌∷◌, [], ◌++◌, Some, None, IfSome, length, MatchOption};
ghost use Rattle.std.specs.Prelude.{if◌then◌else◌, is_some, true};
ghost use Rattle.slab.specs.Slab.{get, ContainsKey, slab_len};
ghost use Rattle.sip_timers.specs.Timers.{keys_with, without, KeysDiffer};
ghost use Rattle.sip_timers_wheel.specs.declared.row.RowNumber.{RowNumber};
ghost use Rattle.sip_timers_wheel.specs.declared.row.TimerRow.{TimerRow};
ghost use Rattle.sip_timers_wheel.specs.Lists.{least};
ghost use Rattle.sip_timers_wheel.specs.Threads.{list_of, timer_of, IsHeld, IsLeastWith, known_least, other_than, SameSize};

use crate::row::{RowNumber, TimerRow, set_beside, set_next, set_previous};
use slab::Slab;

/// Where a list begins and ends, and what is known of it.
#[derive(Clone, Copy)]
pub(crate) struct ListHead {
    pub first: Option<RowNumber>,
    pub last: Option<RowNumber>,
    /// None is due before one that stands in front of it. A list in this order may be without this mark.
    pub is_rising: bool,
    /// The timer that is due first, if it is remembered.
    pub least: Option<RowNumber>,
    /// The timer that is due first once the least is taken out, if it is remembered.
    pub second: Option<RowNumber>,
}

impl ListHead {
    /// The head of an empty list.
    pub(crate) const EMPTY: ListHead = ListHead {
        first: None,
        last: None,
        is_rising: true,
        least: None,
        second: None,
    };

    /// The timer that is due first, if that is known without a look through the list.
    pub(crate) fn known_least(&self) -> Option<RowNumber>
        ensures { result ≡ known_least self.now }
    {
        if self.is_rising {
            self.first
        } else {
            self.least
        }
    }

    /// Remembers a row that is put behind the others, where it is due before the least or the second least.
    fn remember(&mut self, rows: &Slab<TimerRow>, number: RowNumber, due: u64)
        requires least { IfSome (known_least self.old) (λ n. ContainsKey rows.now n.0) }
        requires second { IfSome self.old.second (λ n. ContainsKey rows.now n.0) }
        ensures least { IsLeastWith rows.now (known_least self.old) number due self.new.least }
        ensures unknown { known_least self.old ≡ None → self.new.second ≡ None }
        ensures sooner { (n : RowNumber) (row : TimerRow) → known_least self.old ≡ Some n → get rows.now n.0 ≡ Some row
            → due < row.due → self.new.second ≡ Some n }
        ensures later { (n : RowNumber) (row : TimerRow) → known_least self.old ≡ Some n → get rows.now n.0 ≡ Some row
            → row.due ≤ due → IsLeastWith rows.now self.old.second number due self.new.second }
        ensures ends { (self.new.first ≡ self.old.first) × (self.new.last ≡ self.old.last) }
    {
        let known = self.known_least();
        self.least = known;
        let Some(least) = known else {
            self.second = None;
            return;
        };
        if due < rows[least.0].due {
            self.least = Some(number);
            self.second = Some(least);
            return;
        }
        if let Some(second) = self.second {
            if due < rows[second.0].due {
                self.second = Some(number);
            }
        }
    }

    /// Remembers a row no longer, which is taken out: the second least takes the place of the least.
    fn forget(&mut self, number: RowNumber)
        ensures least { MatchOption self.old.least (self.new.least ≡ None)
            (λ n. self.new.least ≡ (if n.0 == number.0 then self.old.second else self.old.least)) }
        ensures second { MatchOption self.old.least (self.new.second ≡ None)
            (λ n. self.new.second ≡ (if n.0 == number.0 then None else other_than number.0 self.old.second)) }
        ensures ends { (self.new.first ≡ self.old.first) × (self.new.last ≡ self.old.last) }
        ensures rising { self.new.is_rising ≡ self.old.is_rising }
    {
        let Some(least) = self.least else {
            self.second = None;
            return;
        };
        if least.0 == number.0 {
            self.least = self.second;
            self.second = None;
            return;
        }
        if let Some(second) = self.second {
            if second.0 == number.0 {
                self.second = None;
            }
        }
    }

    /// Whether the list is known to be in rising order with a timer of this moment behind the others.
    fn stays_rising(&self, rows: &Slab<TimerRow>, due: u64) -> bool
        requires { IfSome self.now.last (λ n. ContainsKey rows.now n.0) }
        ensures rising { result ≡ true → (n : RowNumber) → self.now.last ≡ Some n → self.now.is_rising ≡ true }
        ensures late { result ≡ true → (n : RowNumber) (row : TimerRow) → self.now.last ≡ Some n → get rows.now n.0 ≡ Some row
            → row.due ≤ due }
    {
        match self.last {
            Some(last) => self.is_rising && rows[last.0].due <= due,
            None => true,
        }
    }

    /// Puts a row that stands in no list behind the others.
    pub(crate) fn put_behind(&mut self, rows: &mut Slab<TimerRow>, number: RowNumber)
        requires held { IsHeld rows.old self.old (list_of rows.old self.old) }
        requires differ { KeysDiffer (list_of rows.old self.old) }
        requires stands { ContainsKey rows.old number.0 }
        requires fresh { keys_with number.0 (list_of rows.old self.old) ≡ 0 }
        requires fits { length (list_of rows.old self.old) + 1 ≤ slab_len rows.old }
        ensures put { (row : TimerRow) → get rows.old number.0 ≡ Some row
            → IsHeld rows.new self.new (list_of rows.old self.old ++ timer_of number.0 row ∷ []) }
        ensures others { (other : ℕ) → keys_with other (list_of rows.old self.old) ≡ 0 → other ≢ number.0 → get rows.new other ≡ get rows.old other }
        ensures size { SameSize rows.old rows.new }
    {
        let row = rows[number.0];
        let is_rising = self.stays_rising(rows, row.due);
        self.remember(rows, number, row.due);
        set_beside(rows, number, self.last, None);
        set_next(rows, self.last, Some(number));
        self.first = self.first.or(Some(number));
        self.last = Some(number);
        self.is_rising = is_rising;
    }

    /// Takes a row out: those beside it are tied to each other, and itself stays as it is.
    pub(crate) fn take_out(&mut self, rows: &mut Slab<TimerRow>, number: RowNumber)
        requires held { IsHeld rows.old self.old (list_of rows.old self.old) }
        requires differ { KeysDiffer (list_of rows.old self.old) }
        requires present { 1 ≤ keys_with number.0 (list_of rows.old self.old) }
        ensures taken { IsHeld rows.new self.new (without number.0 (list_of rows.old self.old)) }
        ensures others { (other : ℕ) → keys_with other (without number.0 (list_of rows.old self.old)) ≡ 0 → get rows.new other ≡ get rows.old other }
        ensures size { SameSize rows.old rows.new }
    {
        let row = rows[number.0];
        set_next(rows, row.previous, row.next);
        set_previous(rows, row.next, row.previous);
        self.first = end_without(row.previous, self.first, row.next);
        self.last = end_without(row.next, self.last, row.previous);
        self.forget(number);
    }
}

/// Where a list ends when a row is taken out: across from what stood beside the row, if nothing did.
fn end_without(
    beside: Option<RowNumber>,
    end: Option<RowNumber>,
    across: Option<RowNumber>,
) -> Option<RowNumber>
    ensures { result ≡ (if is_some beside then end else across) }
{
    if beside.is_some() { end } else { across }
}
