//! What a server that serves says of itself: its numbers, each ten seconds, where others read them.
ghost use Rattle.std.specs.Prelude.{◌≡◌, IfOk, OnErr, OnOk};
ghost use Rattle.sipd_status.specs.Book as Books;
ghost use Rattle.sipd_status.specs.Numbers;
ghost use Rattle.sipd_status.specs.Place.{with_text};

use crate::book::StatusBook;
use crate::numbers::{StatusNumbers, status_text};
use crate::place::{StatusFault, StatusPlace};
use std::alloc::{AllocError, Global};

/// Where the numbers are put, and what is kept beside them.
pub struct Status<S: StatusPlace> {
    pub place: S,
    pub book: StatusBook,
}

/// Written out, so that it is proved once and not wherever one is dropped.
impl<S: StatusPlace> Drop for Status<S> {
    fn drop(self) {
        let Status { place: _, book: _ } = self;
    }
}

impl<S: StatusPlace> Status<S> {
    /// Of a server of which nothing is known. `AllocError` is the only refusal.
    pub fn new(alloc: Global, place: S) -> Result<Self, AllocError>
        ensures place { IfOk result (λ status. status.place ≡ place) }
        ensures book { IfOk result (λ status. status.book ≡ Books.new_book) }
    {
        Ok(Status {
            place,
            book: StatusBook::new(alloc)?,
        })
    }

    /// Puts the text of these numbers in its place, where those who read it find it whole; it is put there again ten seconds later, whether
    /// it could be or not. Where it can't be, what stood there stays.
    pub fn write(
        &mut self,
        alloc: Global,
        numbers: &StatusNumbers,
        now: u64,
    ) -> Result<(), StatusFault>
        ensures written { OnOk result (S.texts self.new.place ≡ with_text (Numbers.status_text numbers.now) (S.texts self.old.place)) }
        ensures refused { OnErr result (S.texts self.new.place ≡ S.texts self.old.place) }
        ensures book { self.new.book ≡ Books.waiting now self.old.book }
    {
        self.book.wait(now);
        let Ok(text) = status_text(alloc, numbers) else {
            return Err(StatusFault::NoMemory);
        };
        self.place.put(text.as_slice())
    }
}
