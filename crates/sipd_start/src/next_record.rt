//! The next record of a folder, which is begun while the server serves on that wrote the last one: what still matters of that stands in it, and it is
//! used only where it leads to a server that goes on as the one that serves.
ghost use Rattle.std.specs.Prelude.{◌≡◌, IfOk, OnOk};
ghost use Rattle.sip_config.specs.Stated.{States};
ghost use Rattle.sip_model.specs.SameAhead.{SameAhead};

use crate::compacting::{Led, lead_part, rewrite, unless_failed};
use crate::not_resumed::StartStop;
use crate::opening::{InFile, read_old};
use crate::telling::tell_behind;
use sip_journal::{RecordHead, Recorder};
use sip_policy::Rules;
use sip_record_sealed::Follows;
use sip_replay_script::TellingReader;
use sip_resume::engine::Engine;
use sip_text::Bytes;
use sip_timers::Timers;
use sipd_exit::{Exit, RecordFault, RecordPlace, RecordSync, Stated};
use sipd_old_record::{RecordFile, head_in};
use sipd_record_files::{
    Choice, Choosing, RecordFiles, copy_of, follows_of, name_part, place_of, remove_old,
    remove_part,
};
use std::alloc::{AllocError, Global};
use std::io::Write;
use std::rt::{Clock, Files};

/// The next record, which has its name, and the server to which it leads.
#[derive(Drop)]
pub struct NextInFolder<'a, T: Timers, P: Rules, R: Files> {
    pub engine: Engine<T, P>,
    pub recorder: Recorder<RecordFile<'a, R>>,
    /// The path of its file.
    pub path: String,
}

/// What is chosen of a record: what its first line says, and what a shorter one has.
#[derive(Drop)]
struct Written {
    head: RecordHead,
    choice: Choice,
}

/// The last record of a folder: the path of its file, and the digest in its last line, where that holds one.
#[derive(Clone, Copy)]
pub struct LastRecord<'a> {
    pub path: &'a str,
    pub digest: Option<[u8; 32]>,
}

/// A folder of records, in which a server begins the next one.
pub struct RecordFolder<'a, R> {
    rt: &'a R,
    place: RecordPlace,
    fault: RecordFault,
    /// When what is recorded is put on the disk.
    sync: RecordSync,
    /// For how many days records stay; 0, where all stay.
    keep: u32,
    /// The secret of the tables of a server to which a record leads.
    keys: u128,
}

/// Written out, so that it is proved once and not wherever one is dropped.
impl<'a, R> Drop for RecordFolder<'a, R> {
    fn drop(self) {
        let RecordFolder {
            rt: _,
            place: _,
            fault: _,
            sync: _,
            keep: _,
            keys: _,
        } = self;
    }
}

/// What a record that a server wrote holds that still matters at a moment, in milliseconds: what chooses is told all of it, which a server wrote
/// under the configuration in force. No event of it is taken for that.
fn choose_written<I: TellingReader>(
    alloc: Global,
    stated: &Stated,
    keys: u128,
    now: u64,
    reader: &mut I,
) -> Result<Written, StartStop> {
    let head = head_in(alloc, reader)?;
    let mut choosing = Choosing::new(alloc, head.first, keys);
    let told = tell_behind(alloc, stated, &head, reader, &mut choosing);
    unless_failed(&choosing, told)?;
    let choice = choosing.choice(now)?;
    Ok(Written { head, choice })
}

/// The same of the record of a file. `Changed`, where it disagrees with a digest in it.
fn choose_written_in<R: Files + Clock + Eprint + AllocGlobal>(
    rt: &R,
    stated: &Stated,
    keys: u128,
    now: u64,
    old: &str,
) -> Result<Written, StartStop> {
    let mut reader = read_old(rt, old, false)?;
    let written = choose_written(rt.alloc(), stated, keys, now, &mut reader);
    InFile::of(&reader).checked(written)
}

/// That a server to which a record leads has the word of another one, and goes on as that. `NoShorter` is the only refusal.
fn check_goes_on<T: Timers, P: Rules>(
    new: &Led<T, P>,
    engine: &Engine<T, P>,
) -> Result<(), StartStop>
    ensures word { OnOk result (new.now.engine.server.word ≡ engine.now.server.word) }
    ensures same { OnOk result (SameAhead new.now.engine.state engine.now.state) }
{
    if new.engine.is_same(engine) {
        return Ok(());
    }
    Err(StartStop::Exits(Exit::NoShorter))
}

/// What the next record says of the last one.
fn followed_by<R: AllocGlobal>(rt: &R, last: &LastRecord<'_>) -> Result<Option<Follows>, Exit> {
    match last.digest {
        Some(digest) => Ok(follows_of(rt.alloc(), last.path, digest)?),
        None => Ok(None),
    }
}

/// Why the next record isn't begun. Where its last one can't be gone on from, none leads where the server is.
fn exit_of(stop: StartStop) -> Exit {
    match stop {
        StartStop::Exits(exit) => exit,
        StartStop::NotResumed(_) => Exit::NoShorter,
    }
}

impl<'a, R: Files + Clock + Eprint + AllocGlobal> RecordFolder<'a, R> {
    /// A folder, what is done where a record in it can't be written, when it is put on the disk, for how many days records stay there, and a
    /// secret. `AllocError` is the only refusal.
    pub fn new(
        rt: &'a R,
        folder: &str,
        fault: RecordFault,
        sync: RecordSync,
        keep: u32,
        keys: u128,
    ) -> Result<Self, AllocError> {
        let place = RecordPlace::Folder(String::from_str(rt.alloc(), folder)?);
        Ok(RecordFolder {
            rt,
            place,
            fault,
            sync,
            keep,
            keys,
        })
    }

    /// Takes away the records that are older than they are to stay. What can't be taken away is told, and changes nothing else.
    pub fn remove_old<C: Write>(&self, complaints: &mut C) {
        if let RecordPlace::Folder(folder) = &self.place {
            remove_old(self.rt, folder.as_str(), self.keep, complaints);
        }
    }

    /// The next record behind the last one of a folder, which hasn't its name yet: what still matters at a moment, in milliseconds.
    fn write(
        &self,
        last: &LastRecord<'_>,
        stated: &Stated,
        files: &RecordFiles,
        now: u64,
    ) -> Result<Recorder<RecordFile<'a, R>>, StartStop> {
        let written = choose_written_in(self.rt, stated, self.keys, now, last.path)?;
        let Written { head, choice } = written;
        let follows = followed_by(self.rt, last)?;
        rewrite(
            self.rt,
            stated,
            last.path,
            files,
            self.fault,
            &head,
            choice,
            follows.as_ref(),
        )
    }

    /// The next record, which has its name then, and the server to which it leads, which goes on as another one.
    fn make<T: Timers, P: Rules>(
        &self,
        last: &LastRecord<'_>,
        stated: &Stated,
        files: &RecordFiles,
        engine: &Engine<T, P>,
    ) -> Result<NextInFolder<'a, T, P, R>, StartStop>
        ensures stated { IfOk result (λ next. States stated.now.bytes next.engine.server.config) }
        ensures word { IfOk result (λ next. next.engine.server.word ≡ engine.now.server.word) }
        ensures same { IfOk result (λ next. SameAhead next.engine.state engine.now.state) }
    {
        let path = copy_of(self.rt, files.record.path.as_str())?;
        let mut recorder = self.write(last, stated, files, engine.moment())?;
        let new = lead_part::<T, P, R>(self.rt, stated, files, self.keys)?;
        check_goes_on(&new, engine)?;
        name_part(self.rt, files, &mut recorder.writer, self.sync)?;
        let (next, _) = new.into_parts();
        Ok(NextInFolder {
            engine: next,
            recorder,
            path,
        })
    }

    /// The next record behind the last one, all of which a server wrote that serves under the configuration whose file has these bytes: it has its
    /// name then, and leads to a server of that configuration and of the same word, which goes on as that one. Nothing is left of one that
    /// isn't begun. `NoShorter`, where what is chosen leads elsewhere, and the refusals of a start.
    pub fn next<T: Timers, P: Rules>(
        &self,
        last: &LastRecord<'_>,
        bytes: &[u8],
        engine: &Engine<T, P>,
    ) -> Result<NextInFolder<'a, T, P, R>, Exit>
        ensures stated { IfOk result (λ next. States bytes.now next.engine.server.config) }
        ensures word { IfOk result (λ next. next.engine.server.word ≡ engine.now.server.word) }
        ensures same { IfOk result (λ next. SameAhead next.engine.state engine.now.state) }
    {
        let stated = Stated::of(Bytes::copy(self.rt.alloc(), bytes)?);
        let files = place_of(self.rt, &self.place)?;
        match self.make(last, &stated, &files, engine) {
            Ok(next) => Ok(next),
            Err(stop) => {
                remove_part(self.rt, &files);
                Err(exit_of(stop))
            }
        }
    }
}
