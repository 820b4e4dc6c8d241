//! What writes the events of a record that were chosen into a shorter one.
ghost use Rattle.std.specs.Prelude.{◌≡◌, true, OnErr, OnOk};

use sip_compact::ShorterItem;
use sip_event::Ticket;
use sip_journal::{Journal, JournalFault, Recorder};
use sip_record_omitted::omitted_text;
use sip_replay_script::{TellingWriter, put};
use sip_text::{Buffer, Items};
use sip_uri::Addr;
use sipd_exit::Exit;
use std::alloc::Global;

/// Whether a choice is the event of a place.
fn is_line(choice: Option<&ShorterItem>, place: u64) -> bool {
    match choice {
        Some(ShorterItem::Line(line)) => line.start == place,
        Some(ShorterItem::Omitted(_)) | None => false,
    }
}

/// How many datagrams a choice leaves out; 0 where it is none of these.
fn left_out(choice: Option<&ShorterItem>) -> u64 {
    match choice {
        Some(ShorterItem::Omitted(count)) => *count,
        Some(ShorterItem::Line(_)) | None => 0,
    }
}

/// What writes the events that were chosen of those that it is told, and in the place of the datagrams between them how many they are; of the
/// configurations those under which an event is written, and the last one.
pub struct Keeping<W: TellingWriter + Drop> {
    alloc: Global,
    recorder: Recorder<W>,
    choices: Items<ShorterItem>,
    /// How many of the choices are written.
    done: usize,
    /// How many events were told.
    count: u64,
    /// The configuration that is in force, where it isn't written yet.
    held: Option<Buffer>,
    pub has_failed: bool,
}

/// Written out, so that it is proved once and not wherever one is dropped.
impl<W: TellingWriter + Drop> Drop for Keeping<W> {
    fn drop(self) {
        let Keeping {
            alloc: _,
            recorder: _,
            choices: _,
            done: _,
            count: _,
            held: _,
            has_failed: _,
        } = self;
    }
}

impl<W: TellingWriter + Drop> Keeping<W> {
    /// Nothing written yet. Takes no memory.
    pub fn new(alloc: Global, recorder: Recorder<W>, choices: Items<ShorterItem>) -> Self {
        Keeping {
            alloc,
            recorder,
            choices,
            done: 0,
            count: 0,
            held: None,
            has_failed: false,
        }
    }

    /// What has written.
    pub fn into_recorder(self) -> Recorder<W> {
        let Keeping {
            alloc: _,
            recorder,
            choices: _,
            done: _,
            count: _,
            held: _,
            has_failed: _,
        } = self;
        recorder
    }

    /// Writes how many datagrams are left out, if any are.
    fn write_gap(&mut self, count: u64) -> Result<(), JournalFault>
        ensures { self.new.has_failed ≡ self.old.has_failed }
    {
        if count == 0 {
            return Ok(());
        }
        let Ok(text) = omitted_text(self.alloc, count) else {
            return Err(JournalFault);
        };
        match put(&mut self.recorder.writer, text.as_slice()) {
            Ok(()) => Ok(()),
            Err(_) => Err(JournalFault),
        }
    }

    /// Whether the next event is one of those that were chosen; what is left out before it is written then.
    fn takes_next(&mut self) -> Result<bool, JournalFault>
        ensures { self.new.has_failed ≡ self.old.has_failed }
    {
        let place = self.count;
        self.count = place.saturating_add(1);
        let choices = self.choices.as_slice();
        let gap = left_out(choices.get(self.done));
        let line = if gap == 0 {
            self.done
        } else {
            self.done.saturating_add(1)
        };
        if !is_line(choices.get(line), place) {
            return Ok(false);
        }
        self.done = line.saturating_add(1);
        self.write_held()?;
        self.write_gap(gap)?;
        Ok(true)
    }

    /// Writes the configuration that is in force, where it isn't written yet.
    fn write_held(&mut self) -> Result<(), JournalFault>
        ensures { self.new.has_failed ≡ self.old.has_failed }
    {
        let Some(bytes) = self.held.take() else {
            return Ok(());
        };
        self.recorder.configured(bytes.as_slice())
    }

    /// Keeps the bytes of a configuration until an event is written that came under it.
    fn hold(&mut self, bytes: &[u8]) -> Result<(), JournalFault>
        ensures { self.new.has_failed ≡ self.old.has_failed }
    {
        match Buffer::copy(self.alloc, bytes) {
            Ok(copy) => {
                self.held = Some(copy);
                Ok(())
            }
            Err(_) => Err(JournalFault),
        }
    }

    /// Writes what stands behind the last event.
    fn write_rest(&mut self) -> Result<(), JournalFault> {
        self.write_held()?;
        let gap = left_out(self.choices.as_slice().get(self.done));
        self.write_gap(gap)
    }

    /// Writes the last configuration, and how many datagrams are left out behind the last event.
    pub fn finish(&mut self) -> Result<(), Exit> {
        match self.write_rest() {
            Ok(()) => Ok(()),
            Err(JournalFault) => Err(Exit::Recording),
        }
    }

    /// What it answers where something was written.
    fn answer<V: Drop>(&mut self, written: Result<V, JournalFault>) -> Result<V, JournalFault>
        ensures ok { OnOk result (self.new.has_failed ≡ self.old.has_failed) }
        ensures err { OnErr result (self.new.has_failed ≡ true) }
    {
        match written {
            Ok(value) => Ok(value),
            Err(JournalFault) => {
                self.has_failed = true;
                Err(JournalFault)
            }
        }
    }
}

impl<W: TellingWriter + Drop> Journal for Keeping<W> {
    ghost use Rattle.std.specs.Prelude.{Option};
    ghost use Rattle.sip_journal.specs.Recorder.{told};

    ghost written = { λ k. told k.has_failed Option.None };

    ghost faulted = { λ k. k.has_failed };

    fn heard(&mut self, at: u64, word: u128, from: Addr, bytes: &[u8]) -> Result<(), JournalFault> {
        if self.has_failed {
            return Err(JournalFault);
        }
        let taken = self.takes_next();
        if !self.answer(taken)? {
            return Ok(());
        }
        let written = self.recorder.heard(at, word, from, bytes);
        self.answer(written)
    }

    fn passed(&mut self, at: u64) -> Result<(), JournalFault> {
        if self.has_failed {
            return Err(JournalFault);
        }
        let taken = self.takes_next();
        if !self.answer(taken)? {
            return Ok(());
        }
        let written = self.recorder.passed(at);
        self.answer(written)
    }

    fn failed(&mut self, at: u64, ticket: Ticket) -> Result<(), JournalFault> {
        if self.has_failed {
            return Err(JournalFault);
        }
        let taken = self.takes_next();
        if !self.answer(taken)? {
            return Ok(());
        }
        let written = self.recorder.failed(at, ticket);
        self.answer(written)
    }

    fn configured(&mut self, bytes: &[u8]) -> Result<(), JournalFault> {
        if self.has_failed {
            return Err(JournalFault);
        }
        let held = self.hold(bytes);
        self.answer(held)
    }
}
