//! When a server that serves begins the next record of its folder: once a day, and where the one that it writes has become long.
ghost use Rattle.std.specs.Prelude.{◌≡◌, OnErr, OnOk};
ghost use Rattle.sip_config.specs.Stated.{States};
ghost use Rattle.sip_model.specs.SameAhead.{SameAhead};

use sip_journal::{RecordMark, Recorder};
use sip_policy::Rules;
use sip_timers::Timers;
use sipd_exit::Exit;
use sipd_old_record::{RecordFile, WatchedJournal};
use sipd_service::NextRecord;
use sipd_service::engine::Engine;
use sipd_start::{LastRecord, NextInFolder, RecordFolder};
use std::io::Write;
use std::rt::{Clock, Files};

/// The milliseconds of a minute.
const MINUTE: u64 = 60_000;

/// The milliseconds of a day.
const DAY: u64 = 86_400_000;

/// How many milliseconds at least pass until the next record is begun again, where it couldn't be.
const HOUR: u64 = 3_600_000;

/// How many milliseconds of a day a server waits for a turn in which it hears nothing.
const LONGEST_WAIT: u64 = 60_000;

/// From how many bytes on a record is a long one: a start takes what one file holds again, and is to take a few seconds at most.
const LONG: u64 = 32_000_000;

/// The milliseconds of an office's time, a day ahead, that is so many minutes ahead of UTC.
fn office_time(now: u64, offset: i16) -> u64 {
    let away = u64::from(offset.unsigned_abs()) * MINUTE;
    let now = now.saturating_add(DAY);
    if offset < 0 {
        now.saturating_sub(away)
    } else {
        now.saturating_add(away)
    }
}

/// The turning of a server that records in a folder from one record to the next.
pub struct RecordTurning<'a, R> {
    folder: RecordFolder<'a, R>,
    /// The path of the record that it writes.
    path: String,
    /// The day of the office on which that was begun, where the server has done a turn.
    day: Option<u64>,
    /// From how many bytes on it is a long one.
    long: u64,
    /// The number of the next datagram, as it was in the turn before.
    number: u64,
    /// When the next record couldn't be begun last, in milliseconds.
    refused: u64,
}

/// Written out, so that it is proved once and not wherever one is dropped.
impl<'a, R> Drop for RecordTurning<'a, R> {
    fn drop(self) {
        let RecordTurning {
            folder: _,
            path: _,
            day: _,
            long: _,
            number: _,
            refused: _,
        } = self;
    }
}

impl<'a, R: Files + Clock + Eprint + AllocGlobal> RecordTurning<'a, R> {
    /// The turning of a server that writes the record with this path.
    pub fn new(folder: RecordFolder<'a, R>, path: String) -> Self {
        RecordTurning {
            folder,
            path,
            day: None,
            long: LONG,
            number: 0,
            refused: 0,
        }
    }

    /// Begins the next record, and closes the one that was written up to here.
    fn turn<T: Timers, P: Rules, C: Write>(
        &mut self,
        engine: &mut Engine<T, P>,
        journal: &mut Recorder<RecordFile<'a, R>>,
        stated: &[u8],
        complaints: &mut C,
    ) -> Result<(), Exit>
        ensures stated { OnOk result (States stated.now engine.new.server.config) }
        ensures word { OnOk result (engine.new.server.word ≡ engine.old.server.word) }
        ensures same { OnOk result (SameAhead engine.new.state engine.old.state) }
        ensures still { OnErr result (engine.new ≡ engine.old) }
        ensures unwritten { OnErr result (journal.new ≡ journal.old) }
    {
        let last = LastRecord {
            path: self.path.as_str(),
            digest: journal.writer.end_digest(),
        };
        let next = self.folder.next(&last, stated, engine)?;
        let NextInFolder {
            engine: begun,
            recorder,
            path,
        } = next;
        if journal.writer.mark(RecordMark::Left).is_err() {
            say_unmarked(self.path.as_str(), complaints);
        }
        *engine = begun;
        *journal = recorder;
        self.path = path;
        Ok(())
    }

    /// The next record is begun, at a time of the office, and has so many bytes: that is said, and what is too old of the folder is taken away.
    fn go_on<C: Write>(&mut self, time: u64, size: u64, complaints: &mut C) {
        self.begin(time, size);
        say_turned(self.path.as_str(), complaints);
        self.folder.remove_old(complaints);
    }

    /// The next record can't be begun at this moment, in milliseconds: why is said.
    fn write_on<C: Write>(&mut self, why: Exit, now: u64, complaints: &mut C) {
        self.refused = now;
        say_unturned(self.path.as_str(), why, complaints);
    }

    /// Another record is written from here on, at a time of the office, which has so many bytes. However many of them were kept, it isn't a long one.
    fn begin(&mut self, time: u64, size: u64) {
        self.day = Some(time / DAY);
        self.long = LONG.max(size.saturating_mul(2));
    }

    /// Whether nothing was heard since the last turn, by the number of the next datagram.
    fn is_quiet(&mut self, number: u64) -> bool {
        let is_quiet = number == self.number;
        self.number = number;
        is_quiet
    }

    /// Whether it is time for the next record, where the one that is written has so many bytes: another day has begun, or it has become long; and
    /// nothing was heard in the last turn, or that was waited for long enough.
    fn is_time(&mut self, is_quiet: bool, time: u64, size: u64, now: u64) -> bool {
        let Some(day) = self.day else {
            self.begin(time, size);
            return false;
        };
        if now.saturating_sub(self.refused) < HOUR {
            return false;
        }
        if time / DAY > day {
            return is_quiet || time % DAY >= LONGEST_WAIT;
        }
        let rest = size.saturating_sub(self.long);
        size >= self.long && (is_quiet || rest >= self.long / 8)
    }
}

/// Says that a record that another one follows couldn't be marked so that no start goes on from it.
fn say_unmarked<C: Write>(path: &str, complaints: &mut C) {
    let _ = writeln!(
        complaints,
        "sipd: {path} can't be marked as left: let no other start go on from it"
    );
}

/// Says that the next record is begun.
fn say_turned<C: Write>(path: &str, complaints: &mut C) {
    let _ = writeln!(complaints, "sipd: {path} is written from here on");
}

/// Says why the next record isn't begun.
fn say_unturned<C: Write>(path: &str, why: Exit, complaints: &mut C) {
    let _ = match &why {
        Exit::NoShorter => writeln!(
            complaints,
            "sipd: no next record leads where {path} does: that is written on"
        ),
        exit => writeln!(
            complaints,
            "sipd: no next record could be begun, so {path} is written on: {exit}"
        ),
    };
}

impl<'a, T: Timers, P: Rules, R: Files + Clock + Eprint + AllocGlobal> NextRecord<
    T,
    P,
    Recorder<RecordFile<'a, R>>,
> for RecordTurning<'a, R> {
    fn look<C: Write>(
        &mut self,
        engine: &mut Engine<T, P>,
        journal: &mut Recorder<RecordFile<'a, R>>,
        stated: &[u8],
        now: u64,
        complaints: &mut C,
    ) {
        if journal.has_failed {
            return;
        }
        let time = office_time(now, engine.config().offset);
        let is_quiet = self.is_quiet(engine.next_number());
        if !self.is_time(is_quiet, time, journal.writer.size(), now) {
            return;
        }
        journal.close();
        match self.turn(engine, journal, stated, complaints) {
            Ok(()) => self.go_on(time, journal.writer.size(), complaints),
            Err(why) => self.write_on(why, now, complaints),
        }
    }
}
