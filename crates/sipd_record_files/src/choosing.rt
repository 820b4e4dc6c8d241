//! What has the events of a record chosen that still matter.
ghost use Rattle.std.specs.Prelude.{◌≡◌, true, OnErr, OnOk};

use sha2::{Digest, Sha256};
use sip_compact::{Chooser, Chosen, Place, ShorterItem};
use sip_event::Ticket;
use sip_journal::{Journal, JournalFault};
use sip_text::Items;
use sip_uri::Addr;
use sipd_exit::Exit;
use std::alloc::{AllocError, Global};

/// A configuration of a record: how many events were told before it, and its digest (SHA-256).
#[derive(Clone, Copy)]
struct Period {
    events: u64,
    digest: [u8; 32],
}

/// A shorter record, and the digest of the configuration with which it begins.
pub struct Choice {
    pub chosen: Chosen,
    pub digest: [u8; 32],
}

/// Written out, so that it is proved once and not wherever one is dropped.
impl Drop for Choice {
    fn drop(self) {
        let Choice {
            chosen: _,
            digest: _,
        } = self;
    }
}

impl Choice {
    /// What the record has, and the digest.
    pub fn into_parts(self) -> (Chosen, [u8; 32]) {
        let Choice { chosen, digest } = self;
        (chosen, digest)
    }
}

/// The place of the first event that is chosen.
fn first_place(choices: &[ShorterItem]) -> Option<u64> {
    for choice in choices {
        if let ShorterItem::Line(place) = choice {
            return Some(place.start);
        }
    }
    None
}

/// The digest of the last configuration in front of a place, or of the last one.
fn digest_before(periods: &[Period], place: Option<u64>) -> [u8; 32] {
    let most = place.unwrap_or(u64::MAX);
    let mut digest = [0u8; 32];
    for period in periods {
        if period.events <= most {
            digest = period.digest;
        }
    }
    digest
}

/// What has the events chosen that still matter: the place of each is how many were told before it. It fails where memory runs out.
pub struct Choosing {
    chooser: Chooser,
    /// The number of the next datagram.
    number: u64,
    /// How many events were told.
    count: u64,
    periods: Items<Period>,
    pub has_failed: bool,
}

/// Written out, so that it is proved once and not wherever one is dropped.
impl Drop for Choosing {
    fn drop(self) {
        let Choosing {
            chooser: _,
            number: _,
            count: _,
            periods: _,
            has_failed: _,
        } = self;
    }
}

impl Choosing {
    /// Told nothing yet of a record whose first datagram has this number, with a secret of its tables. Takes no memory.
    pub fn new(alloc: Global, first: u64, keys: u128) -> Self {
        Choosing {
            chooser: Chooser::new(alloc, first, keys),
            number: first,
            count: 0,
            periods: Items::new(alloc),
            has_failed: false,
        }
    }

    /// What a shorter record has, at the moment of the last event. `Memory` is the only refusal.
    pub fn choice(&self, now: u64) -> Result<Choice, Exit> {
        let chosen = self.chooser.chosen(now)?;
        let place = first_place(chosen.choices.as_slice());
        let digest = digest_before(self.periods.as_slice(), place);
        Ok(Choice { chosen, digest })
    }

    /// The place of the next event.
    fn next_place(&mut self) -> Place
        ensures { self.new.has_failed ≡ self.old.has_failed }
    {
        let start = self.count;
        let end = start.saturating_add(1);
        self.count = end;
        Place { start, end }
    }

    /// The number of the next datagram.
    fn take_number(&mut self) -> u64
        ensures { self.new.has_failed ≡ self.old.has_failed }
    {
        let number = self.number;
        self.number = number.saturating_add(1);
        number
    }

    /// Keeps the digest of a configuration.
    fn note(&mut self, bytes: &[u8]) -> Result<(), AllocError>
        ensures { self.new.has_failed ≡ self.old.has_failed }
    {
        let period = Period {
            events: self.count,
            digest: Sha256::digest(bytes),
        };
        self.periods.push(period)?;
        Ok(())
    }

    /// What it answers where something was told.
    fn answer(&mut self, told: Result<(), AllocError>) -> Result<(), JournalFault>
        ensures ok { OnOk result (self.new.has_failed ≡ self.old.has_failed) }
        ensures err { OnErr result (self.new.has_failed ≡ true) }
    {
        match told {
            Ok(()) => Ok(()),
            Err(_) => {
                self.has_failed = true;
                Err(JournalFault)
            }
        }
    }
}

impl Journal for Choosing {
    ghost use Rattle.std.specs.Prelude.{Option};
    ghost use Rattle.sip_journal.specs.Recorder.{told};

    ghost written = { λ c. told c.has_failed Option.None };

    ghost faulted = { λ c. c.has_failed };

    fn heard(&mut self, at: u64, word: u128, from: Addr, bytes: &[u8]) -> Result<(), JournalFault> {
        if self.has_failed {
            return Err(JournalFault);
        }
        let place = self.next_place();
        let number = self.take_number();
        let told = self.chooser.heard(number, at, word, from, bytes, place);
        self.answer(told)
    }

    fn passed(&mut self, at: u64) -> Result<(), JournalFault> {
        if self.has_failed {
            return Err(JournalFault);
        }
        let place = self.next_place();
        let told = self.chooser.passed(at, place);
        self.answer(told)
    }

    fn failed(&mut self, at: u64, ticket: Ticket) -> Result<(), JournalFault> {
        if self.has_failed {
            return Err(JournalFault);
        }
        let place = self.next_place();
        let told = self.chooser.failed(at, ticket, place);
        self.answer(told)
    }

    fn configured(&mut self, bytes: &[u8]) -> Result<(), JournalFault> {
        if self.has_failed {
            return Err(JournalFault);
        }
        let told = self.note(bytes);
        self.answer(told)
    }
}
