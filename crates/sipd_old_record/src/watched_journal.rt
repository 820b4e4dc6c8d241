ghost use Rattle.std.specs.Prelude.{◌≡◌, [], IfSome, Option};
ghost use Rattle.sip_journal.specs.Record.{Notes};

use crate::record_file::RecordFile;
use sip_journal::{Journal, NoJournal, OnFault, RecordMark, Recorder};
use std::rt::{Clock, Files};

/// Why nothing more is recorded.
#[derive(Clone, Copy, PartialEq, Eq)]
pub enum Unrecorded {
    /// An event couldn't be written.
    Unwritten,
    /// Its file was taken away, or cut.
    Gone,
}

/// A journal that says whether it has failed.
pub trait WatchedJournal: Journal {
    /// Looks whether what was written stands where it belongs, has its digest be written where that is due, and has it be put on the disk where
    /// that is asked for each second. Where it doesn't, or that can't be, nothing is recorded from then on. One to three calls of the system.
    fn look(&mut self)
        ensures { Notes (Self.written self.old) (Self.written self.new) [] };

    /// Has the digest be written of all that was written, at its end, and all be put on the disk, where that is asked for at all.
    fn close(&mut self)
        ensures { Notes (Self.written self.old) (Self.written self.new) [] };

    /// Why nothing more is recorded; none where it goes on.
    fn why_failed(&self) -> Option<Unrecorded>
        ensures { IfSome result (λ _. Self.written self.now ≡ Option.None) };

    /// Whether the server goes on without it.
    fn goes_on(&self) -> bool;

    /// Says in its first line that it lacks events, so that no server goes on from it; whether it could.
    fn mark_broken(&mut self) -> bool
        ensures { Notes (Self.written self.old) (Self.written self.new) [] };
}

impl WatchedJournal for NoJournal {
    fn look(&mut self) {}

    fn close(&mut self) {}

    fn why_failed(&self) -> Option<Unrecorded> {
        None
    }

    fn goes_on(&self) -> bool {
        true
    }

    fn mark_broken(&mut self) -> bool {
        true
    }
}

impl<'a, R: Files + Clock> WatchedJournal for Recorder<RecordFile<'a, R>> {
    fn look(&mut self) {
        if self.has_failed {
            return;
        }
        if self.writer.is_lost()
            || self.writer.seal_if_due().is_err()
            || self.writer.sync_if_asked().is_err()
        {
            self.has_failed = true;
        }
    }

    fn close(&mut self) {
        if !self.has_failed {
            let _ = self.writer.seal();
            let _ = self.writer.sync_if_asked();
        }
    }

    fn why_failed(&self) -> Option<Unrecorded> {
        if !self.has_failed {
            return None;
        }
        if self.writer.was_lost() {
            Some(Unrecorded::Gone)
        } else {
            Some(Unrecorded::Unwritten)
        }
    }

    fn goes_on(&self) -> bool {
        match self.on_fault {
            OnFault::GoOn => true,
            OnFault::End => false,
        }
    }

    fn mark_broken(&mut self) -> bool {
        self.writer.mark(RecordMark::Broken).is_ok()
    }
}
