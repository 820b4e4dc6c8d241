//! What chooses the events of a record that still matter.
ghost use Rattle.std.specs.Prelude.{◌≡◌, ◌++◌, ◌∷◌, [], IfOk};
ghost use Rattle.sip_compact.specs.Parts.{lines_in, IsPart};

use crate::bindings::BindingsByAor;
use crate::calls::Calls;
use crate::choice::{Chosen, choices_of};
use crate::marks::{Marks, is_marked};
use crate::open_requests::OpenRequests;
use crate::row::{Kind, Place, Row};
use crate::rows::Rows;
use crate::saying::seen_in;
use crate::seen::{Asks, Method, SeenMessage};
use crate::words::Words;
use sip_event::Ticket;
use sip_uri::Addr;
use std::alloc::{AllocError, Global};
use std::collections::HashMap;
use std::marker::Model;

/// Behind how many events at least what doesn't matter any more is forgotten.
const ROOM: usize = 4_096;

/// What chooses the events of a record that still matter, seen as the places of those that it may choose. Where memory runs out,
/// it isn't to be told more, nor asked: it may lack what the refused event said.
pub struct Chooser {
    alloc: Global,
    rows: Rows,
    /// The number of the next datagram.
    next: u64,
    /// From how many events on some are forgotten.
    most: usize,
    words: Words,
    open: OpenRequests,
    bindings: BindingsByAor,
    calls: Calls,
    /// The REGISTERs by which the target of a request outside a dialog was bound when it came, by the number of that.
    needs: HashMap<u64, Vec<u64>>,
}

/// Written out, so that it is proved once and not wherever one is dropped.
impl Drop for Chooser {
    fn drop(self) {
        let Chooser {
            alloc: _,
            rows: _,
            next: _,
            most: _,
            words: _,
            open: _,
            bindings: _,
            calls: _,
            needs: _,
        } = self;
    }
}

impl Model for Chooser {
    ghost use Rattle.std.specs.Prelude.{List};
    ghost use Rattle.sip_compact.specs.declared.row.Place.{Place};

    ghost Value = { List Place };

    ghost view = { λ c. c.rows };
}

impl Chooser {
    /// Told nothing yet of a record whose first datagram has this number, with a secret of its tables. Takes no memory.
    pub fn new(alloc: Global, first: u64, keys: u128) -> Self
        ensures { result ≡ [] }
    {
        Chooser {
            alloc,
            rows: Rows::new(alloc),
            next: first,
            most: ROOM,
            words: Words::new(alloc),
            open: OpenRequests::new(alloc, keys),
            bindings: BindingsByAor::new(alloc, keys),
            calls: Calls::new(alloc, keys),
            needs: HashMap::new(alloc),
        }
    }

    /// A datagram was heard, which has this number, at a moment in milliseconds, with a word, from an address. `AllocError` is
    /// the only refusal.
    #[tactic(auto, using(crate::proofs::Parting::part_pushed))]
    pub fn heard(
        &mut self,
        number: u64,
        at: u64,
        word: u128,
        from: Addr,
        bytes: &[u8],
        place: Place,
    ) -> Result<(), AllocError>
        ensures { IsPart self.new (self.old ++ place ∷ []) }
    {
        self.next = number.saturating_add(1);
        self.words.note(word, number, at)?;
        let challenge = self.learn(number, at, from, bytes)?;
        self.rows.push(Row {
            place,
            kind: Kind::Datagram,
            at,
            number,
            challenge,
        })?;
        self.make_room(at)
    }

    /// Time passed up to a moment. `AllocError` is the only refusal.
    pub fn passed(&mut self, at: u64, place: Place) -> Result<(), AllocError>
        ensures { IsPart self.new (self.old ++ place ∷ []) }
    {
        self.rows.push_time(Row {
            place,
            kind: Kind::Time,
            at,
            number: 0,
            challenge: None,
        })
    }

    /// A packet couldn't be sent. `AllocError` is the only refusal.
    #[tactic(auto, using(crate::proofs::Parting::part_pushed))]
    pub fn failed(&mut self, at: u64, ticket: Ticket, place: Place) -> Result<(), AllocError>
        ensures { IsPart self.new (self.old ++ place ∷ []) }
    {
        self.rows.push(Row {
            place,
            kind: Kind::Fault,
            at,
            number: ticket.datagram,
            challenge: None,
        })
    }

    /// What a shorter record has that is to lead where the events lead that were told, at the moment of the last of them.
    /// `AllocError` is the only refusal.
    pub fn chosen(&self, now: u64) -> Result<Chosen, AllocError>
        ensures { IfOk result (λ chosen. IsPart (lines_in chosen.choices) self.now) }
    {
        let marks = self.marks(now)?;
        choices_of(
            self.alloc,
            self.rows.as_slice(),
            marks.as_slice(),
            self.next,
        )
    }

    /// What a datagram says is kept; the number of the one whose word is the nonce of its credential.
    fn learn(
        &mut self,
        number: u64,
        at: u64,
        from: Addr,
        bytes: &[u8],
    ) -> Result<Option<u64>, AllocError>
        ensures { self.new ≡ self.old }
    {
        let Some(seen) = seen_in(self.alloc, bytes)? else {
            return Ok(None);
        };
        match seen.status {
            Some(status) => {
                self.open.answered(&seen, status, at)?;
                self.calls.answered(&seen, status, number, at, from)?;
                Ok(None)
            }
            None => self.learn_request(&seen, number, at, from),
        }
    }

    /// The same of a request.
    fn learn_request(
        &mut self,
        seen: &SeenMessage,
        number: u64,
        at: u64,
        from: Addr,
    ) -> Result<Option<u64>, AllocError>
        ensures { self.new ≡ self.old }
    {
        let challenge = match seen.nonce {
            Some(word) => self.words.living(word, at),
            None => None,
        };
        match seen.method {
            Method::Register if challenge.is_some() => self.learn_register(seen, number, at)?,
            Method::Register | Method::Cancel => {}
            Method::Ack => self.calls.went_on(seen, number, at, from)?,
            Method::Invite | Method::Bye | Method::Other => {
                self.learn_sent(seen, number, at, from)?
            }
        }
        Ok(challenge)
    }

    /// What a REGISTER says that was proven.
    fn learn_register(&mut self, seen: &SeenMessage, number: u64, at: u64) -> Result<(), AllocError>
        ensures { self.new ≡ self.old }
    {
        let Some(aor) = &seen.target else {
            return Ok(());
        };
        match seen.asks {
            Asks::Nothing => Ok(()),
            Asks::AllGo => {
                self.bindings.clear(aor);
                Ok(())
            }
            Asks::Lasts(lasts) => {
                self.bindings
                    .bind(aor, seen.call_id.as_slice(), number, at, lasts)
            }
        }
    }

    /// What a request says that may be sent on.
    fn learn_sent(
        &mut self,
        seen: &SeenMessage,
        number: u64,
        at: u64,
        from: Addr,
    ) -> Result<(), AllocError>
        ensures { self.new ≡ self.old }
    {
        self.open.came(seen, at)?;
        if seen.has_to_tag {
            return self.calls.went_on(seen, number, at, from);
        }
        if let Some(aor) = &seen.target {
            let bound = self.bindings.bound(aor, at)?;
            self.needs.insert(number, bound)?;
        }
        match seen.method {
            Method::Invite => self.calls.invited(seen, number, at),
            _ => self.calls.went_on(seen, number, at, from),
        }
    }

    /// Which events matter at a moment.
    fn marks(&self, now: u64) -> Result<Marks, AllocError> {
        let rows = self.rows.as_slice();
        let begin = self.open.begin(now);
        let mut marks = Marks::new(self.alloc, rows)?;
        mark_tail(rows, begin, &mut marks);
        self.bindings.mark(now, &mut marks)?;
        self.calls.mark(begin, now, &mut marks);
        self.mark_needs(rows, &mut marks);
        mark_faults(rows, &mut marks);
        mark_last_time(rows, &mut marks);
        Ok(marks)
    }

    /// Marks what the marked ones need, from the last to the first, since what one needs came before it: the datagram whose word
    /// is its nonce, and what bound its target when it came.
    fn mark_needs(&self, rows: &[Row], marks: &mut Marks) {
        for back in 0..rows.len() {
            let at = rows.len() - 1 - back;
            if rows[at].is_datagram() && is_marked(marks.as_slice(), at) {
                if let Some(challenge) = rows[at].challenge {
                    marks.mark(challenge);
                }
                if let Some(bound) = self.needs.get(&rows[at].number) {
                    marks.mark_all(bound.as_slice());
                }
            }
        }
    }

    /// Forgets what doesn't matter any more, if there is much of it.
    #[tactic(auto, using(crate::proofs::Parting::part_itself))]
    fn make_room(&mut self, now: u64) -> Result<(), AllocError>
        ensures { IsPart self.new self.old }
    {
        if self.rows.len() < self.most {
            return Ok(());
        }
        let marks = self.marks(now)?;
        self.forget(now, &marks);
        self.rows.keep(self.alloc, marks.as_slice())?;
        let count = self.rows.len();
        self.most = count.saturating_add(count).max(ROOM);
        Ok(())
    }

    /// Forgets what the tables have of what isn't marked.
    fn forget(&mut self, now: u64, marks: &Marks)
        ensures { self.new ≡ self.old }
    {
        let begin = self.open.begin(now);
        self.words.forget(now);
        self.open.forget(now);
        self.bindings.forget(now);
        self.calls.forget(begin, now);
        self.needs.retain(|number, _bound| marks.has(*number));
    }
}

/// Marks all from a moment on, but moments.
fn mark_tail(rows: &[Row], begin: u64, marks: &mut Marks) {
    for (at, row) in rows.iter().enumerate() {
        if row.at >= begin && !row.is_time() {
            marks.mark_at(at);
        }
    }
}

/// Marks the faults of packets of the marked ones.
fn mark_faults(rows: &[Row], marks: &mut Marks) {
    for (at, row) in rows.iter().enumerate() {
        if row.is_fault() && marks.has(row.number) {
            marks.mark_at(at);
        }
    }
}

/// Marks the last moment.
fn mark_last_time(rows: &[Row], marks: &mut Marks) {
    let mut last = None;
    for (at, row) in rows.iter().enumerate() {
        if row.is_time() {
            last = Some(at);
        }
    }
    if let Some(at) = last {
        marks.mark_at(at);
    }
}
