//! What is kept behind each turn for those who look on: who gave passwords, and the numbers of the server.
ghost use Rattle.std.specs.Prelude.{◌≡◌, false, length, IfSome};
ghost use Rattle.sipd_service.specs.Statuses;
ghost use Rattle.sipd_status.specs.Book.{is_due};

use crate::unheard_lines::count_unheard;
use sip_guard::Guard;
use sip_journal::{NoJournal, Recorder};
use sip_loop::engine::Engine;
use sip_policy::Rules;
use sip_timers::Timers;
use sip_transport::{Clock, Link};
use sipd_old_record::RecordFile;
use sipd_status::{Judged, Proof, Status, StatusBook, StatusNumbers, StatusPlace, Tally};
use std::alloc::Global;
use std::io::Write;
use std::rt;
use std::rt::Files;

/// A journal that says how long it is.
pub trait SizedJournal {
    /// How many bytes were written, where it is written.
    fn size(&self) -> Option<u64>;
}

impl SizedJournal for NoJournal {
    fn size(&self) -> Option<u64> {
        None
    }
}

impl<'a, R: Files + rt::Clock> SizedJournal for Recorder<RecordFile<'a, R>> {
    fn size(&self) -> Option<u64> {
        if self.has_failed {
            None
        } else {
            Some(self.writer.size())
        }
    }
}

/// What a server counts at a moment.
#[derive(Clone, Copy)]
pub(crate) struct ServerCounts {
    /// The number of the next datagram.
    pub next: u64,
    /// How many requests are open.
    pub open_requests: u64,
    /// How many dialogs stand in the table of them.
    pub dialogs: u64,
}

/// What a server counts now.
pub(crate) fn counts_of<T: Timers, P: Rules>(engine: &Engine<T, P>) -> ServerCounts
    ensures next { result.next ≡ engine.now.state.next }
    ensures requests { result.open_requests ≡ length engine.now.state.requests }
    ensures dialogs { result.dialogs ≡ length engine.now.state.dialogs }
{
    ServerCounts {
        next: engine.next_number(),
        open_requests: engine.open_count() as u64,
        dialogs: engine.dialog_count() as u64,
    }
}

/// What the last decision says of who asked, where it is that of the last datagram, by the number of the next one.
fn proof_of_last(judged: Option<Judged>, next: u64) -> Option<Proof>
    ensures { result ≡ Statuses.proof_of_last next judged }
{
    let judged = judged?;
    if judged.number.saturating_add(1) == next {
        Some(judged.proof)
    } else {
        None
    }
}

/// Notes what was decided of the datagram of this turn, if one was heard in it. Where there is no memory for that, it isn't noted.
fn note_turn<L: Link, C: Clock>(
    alloc: Global,
    book: &mut StatusBook,
    next: u64,
    link: &Guard<L, C>,
    judged: Option<Judged>,
) {
    let Some(from) = link.last() else {
        return;
    };
    if let Some(proof) = proof_of_last(judged, next) {
        let _ = book.note(alloc, proof, from.ip, link.bytes());
    }
}

/// Says who gave wrong passwords alone, once a minute.
fn say_tries<M: Write>(alloc: Global, book: &mut StatusBook, now: u64, complaints: &mut M) {
    if !book.is_minute_over(now) {
        return;
    }
    if let Ok(lines) = book.end_minute(alloc, now) {
        let _ = complaints.write_all(lines.as_slice());
    }
}

/// The numbers of a server.
fn numbers_of(
    tally: &Tally,
    counts: ServerCounts,
    wrong: u64,
    told: u64,
    unheard: u64,
    record_bytes: Option<u64>,
    memory_bytes: Option<u64>,
) -> StatusNumbers
    ensures { result ≡ Statuses.numbers_of tally.now counts wrong told unheard record_bytes memory_bytes }
{
    StatusNumbers {
        decisions: tally.decisions,
        wrong,
        unheard: told.saturating_add(unheard),
        open_requests: counts.open_requests,
        dialogs: counts.dialogs,
        record_bytes,
        memory_bytes,
    }
}

/// Writes the numbers. Where they can't be, that is said once, and nothing else comes of it.
fn write_status<S: StatusPlace, M: Write>(
    alloc: Global,
    status: &mut Status<S>,
    numbers: &StatusNumbers,
    now: u64,
    complaints: &mut M,
) {
    let is_refused = status.write(alloc, numbers, now).is_err();
    if status.book.says_refused(is_refused) {
        let _ = complaints.write_all(b"sipd: the status can't be written; the server goes on\n");
    }
}

/// Behind a turn: notes what was decided of its datagram, says once a minute who gave wrong passwords alone, and writes the numbers where ten
/// seconds are over.
pub(crate) fn keep_status<S: StatusPlace, L: Link, C: Clock, J: SizedJournal, M: Write>(
    alloc: Global,
    status: &mut Option<Status<S>>,
    counts: ServerCounts,
    link: &Guard<L, C>,
    journal: &J,
    tally: &Tally,
    told: u64,
    now: u64,
    complaints: &mut M,
)
    ensures seldom { IfSome status.old (λ before. IfSome status.new (λ after. is_due now before.book ≡ false
        → S.texts after.place ≡ S.texts before.place)) }
{
    let Some(status) = status else {
        return;
    };
    let is_due = status.book.is_due(now);
    note_turn(alloc, &mut status.book, counts.next, link, tally.judged);
    say_tries(alloc, &mut status.book, now, complaints);
    if !is_due {
        return;
    }
    let memory = status.place.memory();
    let unheard = count_unheard(link);
    let numbers = numbers_of(
        tally,
        counts,
        status.book.wrong,
        told,
        unheard,
        journal.size(),
        memory,
    );
    write_status(alloc, status, &numbers, now, complaints);
}
