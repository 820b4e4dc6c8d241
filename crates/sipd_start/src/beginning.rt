//! How a server that records begins: anew, or from where an older record leads; and what becomes of that record and of the new one.
//! The files are made in `making`, the older record is taken in `taking`.
ghost use Rattle.std.specs.Prelude.{◌≡◌, false, ℕ, List, Option, option_map, string_bytes, Err, IfErr, IfNone, IfOk, IfSome, None, Ok, OnErr};
ghost use Rattle.sip_resume.specs.run.Due.{standing_of};
ghost use Rattle.sip_replay_script.specs.Lines.{pending};
ghost use Rattle.sip_resume.specs.run.engine.engine_time.proxy.Proxy.{secrets_of};
ghost use Rattle.sipd_boot.specs.Boots.{behind_boot};
ghost use Rattle.sipd_exit.specs.declared.exit.Exit.TheVariants.{PipedRecord};
ghost use Rattle.sipd_exit.specs.declared.record_place.RecordFault.TheVariants.{GoOn};
ghost use Rattle.sipd_start.specs.Begins.{Begins, GoesOn, GoesOnFrom, GoesOnFromFile, IsFileNotResumed, IsLeftBehind, IsNoFileResumed, IsNotGoneOn};
ghost use Rattle.sipd_start.specs.Shorter.{GoesOnAlike, IsLedSomehow};
ghost use Rattle.sipd_start.specs.Begins.{IsNotResumed, IsOpened, LeadsTo, StartsAnew, StopsAt};
ghost use Rattle.sipd_record_files.specs.Places;
ghost use Rattle.sipd_record_files.specs.Places.{IsPlaceOf};
ghost use Rattle.sipd_old_record.specs.Readers.{HasStopped, most_asks};
ghost use Rattle.sipd_record_files.specs.Unmade.{IsUnmade};
ghost use Rattle.sipd_start.specs.Stops.{EndsStart};
ghost use Rattle.sipd_start.specs.declared.not_resumed.StartStop.TheVariants as Ended;

use crate::compacting::{Shorter, make_shorter};
use crate::not_resumed::{NotResumed, StartStop, unread};
use crate::old_lines::{OldBeginning, OldLines};
use crate::opening::{InFile, boot_again, open_old, read_old};
use crate::taking::{old_beginning, take_old, tell};
use rand_core::Rng;
use sip_event::{Boot, StepOut};
use sip_journal::{NoJournal, RecordHead, RecordMark, Recorder};
use sip_policy::Rules;
use sip_record_sealed::Follows;
use sip_replay_script::TellingReader;
use sip_resume::Resumed;
use sip_resume::engine::Engine;
use sip_text::same_bytes;
use sip_timers::Timers;
use sipd_boot::{new_boot, secret};
use sipd_exit::{Exit, RecordFault, RecordPlace, RecordSync, Stated, config_of_bytes};
use sipd_old_record::laws::asks_add_up;
use sipd_old_record::{RecordFile, head_in, mark_file};
use sipd_record_files::{
    Followed, RecordFiles, check_free, folder_of, follow, make_part, name_part, place_of,
    remove_old, remove_part,
};
use std::alloc::Global;
use std::fs;
use std::io::{ErrorKind, Write};
use std::os::unix::fs::FileTypeExt;
use std::rt::{Clock, Files};

/// How the input is called where a record is asked for.
const INPUT: &str = "-";

/// What a server that records is begun with.
#[derive(Drop)]
pub struct Beginning<'a, R> {
    rt: &'a R,
    alloc: Global,
    /// The file of its configuration.
    pub stated: &'a Stated,
    /// Where the new record is made.
    pub place: RecordFiles,
    pub fault: RecordFault,
    /// When what is recorded is put on the disk.
    sync: RecordSync,
    /// For how many days records stay in a folder; 0, where all stay.
    keep: u32,
    /// Whether somebody looks at standard error, where it is said then how far the older record is read.
    pub seen: bool,
}

impl<'a, R: Files + Clock + AllocGlobal> Beginning<'a, R> {
    /// The beginning of a server with the configuration of a file, whose record is wanted at a place; what to do where that can't be
    /// written, when it is put on the disk, and for how many days records stay in a folder; and whether somebody looks at standard error.
    pub fn new(
        rt: &'a R,
        stated: &'a Stated,
        wanted: &RecordPlace,
        fault: RecordFault,
        sync: RecordSync,
        keep: u32,
        seen: bool,
    ) -> Result<Self, Exit>
        ensures stated { IfOk result (λ beginning. beginning.stated.now ≡ stated.now) }
        ensures place { IfOk result (λ beginning. IsPlaceOf wanted.now beginning.place) }
        ensures fault { IfOk result (λ beginning. beginning.fault ≡ fault) }
    {
        let place = place_of(rt, wanted)?;
        check_old(rt, &place)?;
        Ok(Beginning {
            rt,
            alloc: rt.alloc(),
            stated,
            place,
            fault,
            sync,
            keep,
            seen,
        })
    }

    /// Whether it goes on from what the input gives: that may come for as long as another server serves.
    pub fn reads_input(&self) -> bool
        ensures { result ≡ Places.reads_input (option_map (λ old. string_bytes old) self.now.place.old) }
    {
        match &self.place.old {
            Some(old) => is_input(old.as_str()),
            None => false,
        }
    }
}

/// That the record from which a server is to go on isn't a named pipe: that might be waited for without end, before it is read and where it is
/// marked. What comes through one is the input.
fn check_old<R: Files>(rt: &R, place: &RecordFiles) -> Result<(), Exit>
    ensures { IfErr result (λ exit. (exit ≡ PipedRecord) × (Places.reads_input (option_map (λ old. string_bytes old) place.now.old) ≡ false)) }
{
    let Some(old) = &place.old else {
        return Ok(());
    };
    if is_input(old.as_str()) {
        return Ok(());
    }
    match fs::metadata(rt, old.as_str()) {
        Ok(found) if found.file_type().is_fifo() => Err(Exit::PipedRecord),
        _ => Ok(()),
    }
}

/// Whether a record is the input.
fn is_input(old: &str) -> bool
    ensures { result ≡ Places.is_input old.now }
{
    same_bytes(old.as_bytes(), INPUT.as_bytes())
}

/// A server that is begun.
pub struct Begun<'a, T: Timers, P: Rules, R: Files> {
    pub engine: Engine<T, P>,
    /// What writes its events into a record; none where that can't be written and the server goes on without it.
    pub recorder: Option<Recorder<RecordFile<'a, R>>>,
    /// The last step of the record from which it goes on: what it decided may not have been printed.
    pub last: Option<StepOut>,
    /// Behind how many lines of that record it goes on; 0 where it starts anew.
    pub lines: u64,
}

/// Written out, so that it is proved once and not wherever one is dropped.
impl<'a, T: Timers, P: Rules, R: Files> Drop for Begun<'a, T, P, R> {
    fn drop(self) {
        let Begun {
            engine: _,
            recorder: _,
            last: _,
            lines: _,
        } = self;
    }
}

impl<'a, T: Timers, P: Rules, R: Files> Begun<'a, T, P, R> {
    /// The server, what writes its events into a record, and the last step of an older one.
    pub fn into_parts(
        self,
    ) -> (
        Engine<T, P>,
        Option<Recorder<RecordFile<'a, R>>>,
        Option<StepOut>,
    )
        ensures engine { result.0 ≡ self.entry.engine }
        ensures recorder { result.1 ≡ self.entry.recorder }
        ensures last { result.2 ≡ self.entry.last }
    {
        let Begun {
            engine,
            recorder,
            last,
            lines: _,
        } = self;
        (engine, recorder, last)
    }
}

/// A server that has just started, with the configuration that is stated.
#[tactic(auto, using(crate::proofs::Beginnings::opened_standing))]
fn open<T: Timers, P: Rules>(
    alloc: Global,
    stated: &Stated,
    boot: Boot,
) -> Result<Engine<T, P>, Exit>
    ensures opened { IfOk result (λ engine. IsOpened stated.now.bytes boot engine.server (standing_of engine)) }
    ensures refused { IfErr result (EndsStart stated.now.bytes) }
    ensures secrets { IfOk result (λ engine. engine.secrets ≡ secrets_of boot.keys) }
{
    let config = config_of_bytes(alloc, stated.bytes.as_slice())?;
    Ok(Engine::open(alloc, config, boot)?)
}

/// A server that records nothing: it starts anew with the configuration of a file, by the next numbers of a source.
pub fn begin_unrecorded<T: Timers, P: Rules, R: AllocGlobal, W: Rng>(
    rt: &R,
    stated: &Stated,
    words: &mut W,
) -> Result<Engine<T, P>, Exit>
    ensures anew { IfOk result (λ engine. StartsAnew stated.now.bytes (W.stream words.old) engine.server (standing_of engine) engine.secrets None) }
    ensures left { W.stream words.new ≡ behind_boot (W.stream words.old) }
    ensures refused { IfErr result (EndsStart stated.now.bytes) }
{
    let boot = new_boot(words);
    open(rt.alloc(), stated, boot)
}

/// The new record of a start, of which the first line is written, with this digest, and which record it follows. It hasn't its name yet.
fn make<'a, R: Files + AllocGlobal>(
    beginning: &Beginning<'a, R>,
    boot: Boot,
    digest: [u8; 32],
    follows: Option<&Follows>,
) -> Result<Recorder<RecordFile<'a, R>>, Exit>
    ensures whole { IfOk result (λ r. r.has_failed ≡ false) }
    ensures refused { IfErr result IsUnmade }
{
    let head = RecordHead {
        mark: RecordMark::Whole,
        word: boot.word,
        first: boot.first,
        digest,
    };
    make_part(
        beginning.rt,
        &beginning.place,
        &head,
        beginning.stated,
        beginning.fault,
        follows,
    )
}

/// Gives the new record its name, if all that was taken stands in it.
fn name<'a, R: Files + AllocGlobal>(
    beginning: &Beginning<'a, R>,
    mut recorder: Recorder<RecordFile<'a, R>>,
) -> Result<Recorder<RecordFile<'a, R>>, Exit>
    ensures whole { IfOk result (λ r. r.has_failed ≡ false) }
    ensures refused { IfErr result IsUnmade }
{
    if recorder.has_failed() {
        return Err(Exit::Recording);
    }
    name_part(
        beginning.rt,
        &beginning.place,
        &mut recorder.writer,
        beginning.sync,
    )?;
    Ok(recorder)
}

/// The record with which a server goes on: the one that was made; or none, where it can't be written and the server is to go on
/// without it. Nothing is left of one that wasn't made.
fn settle<'a, R: Files + AllocGlobal>(
    beginning: &Beginning<'a, R>,
    made: Result<Recorder<RecordFile<'a, R>>, Exit>,
) -> Result<Option<Recorder<RecordFile<'a, R>>>, Exit>
    ensures same { IfOk result (λ settled. IfSome settled (λ r. made.entry ≡ Ok r)) }
    ensures none { IfOk result (λ settled. IfNone settled (beginning.now.fault ≡ GoOn)) }
    ensures refused { IfErr result (λ exit. made.entry ≡ Err exit) }
{
    let exit = match made {
        Ok(recorder) => return Ok(Some(recorder)),
        Err(exit) => exit,
    };
    remove_part(beginning.rt, &beginning.place);
    match (exit, beginning.fault) {
        (Exit::Recording { .. }, RecordFault::GoOn) => Ok(None),
        (exit, _) => Err(exit),
    }
}

/// The record of a server that starts anew: the configuration stands behind its first line. It has its name then.
fn make_anew<'a, R: Files + AllocGlobal>(
    beginning: &Beginning<'a, R>,
    boot: Boot,
) -> Result<Recorder<RecordFile<'a, R>>, Exit>
    ensures whole { IfOk result (λ r. r.has_failed ≡ false) }
    ensures refused { IfErr result IsUnmade }
{
    let mut recorder = make(beginning, boot, beginning.stated.digest, None)?;
    tell(beginning.stated.bytes.as_slice(), &mut recorder)?;
    name(beginning, recorder)
}

/// The same; or none, where it can't be written and the server is to go on without it.
fn record_anew<'a, R: Files + AllocGlobal>(
    beginning: &Beginning<'a, R>,
    boot: Boot,
) -> Result<Option<Recorder<RecordFile<'a, R>>>, Exit>
    ensures whole { IfOk result (λ recorder. IfSome recorder (λ r. r.has_failed ≡ false)) }
    ensures unrecorded { IfOk result (λ recorder. IfNone recorder (beginning.now.fault ≡ GoOn)) }
    ensures refused { IfErr result IsUnmade }
{
    settle(beginning, make_anew(beginning, boot))
}

/// Takes away what is too old of a folder, where the new record stands in it.
fn remove_behind<R: Files + Clock + AllocGlobal, C: Write>(
    beginning: &Beginning<'_, R>,
    is_recorded: bool,
    complaints: &mut C,
) {
    if is_recorded && beginning.place.copy.is_some() {
        let folder = folder_of(beginning.place.record.path.as_str());
        remove_old(beginning.rt, folder, beginning.keep, complaints);
    }
}

/// A server that starts anew, and its record. What is too old of a folder in which that stands is taken away then.
fn begin_anew<'a, T: Timers, P: Rules, R: Files + Clock + AllocGlobal, W: Rng, C: Write>(
    beginning: &Beginning<'a, R>,
    words: &mut W,
    complaints: &mut C,
) -> Result<Begun<'a, T, P, R>, Exit>
    ensures anew { IfOk result (λ begun. StartsAnew beginning.now.stated.now.bytes (W.stream words.old) begun.engine.server
        (standing_of begun.engine) begun.engine.secrets begun.last) }
    ensures left { W.stream words.new ≡ behind_boot (W.stream words.old) }
    ensures whole { IfOk result (λ begun. IfSome begun.recorder (λ r. r.has_failed ≡ false)) }
    ensures unrecorded { IfOk result (λ begun. IfNone begun.recorder (beginning.now.fault ≡ GoOn)) }
    ensures refused { IfErr result (EndsStart beginning.now.stated.now.bytes) }
{
    let boot = new_boot(words);
    let engine = open(beginning.alloc, beginning.stated, boot)?;
    let recorder = record_anew(beginning, boot)?;
    remove_behind(beginning, recorder.is_some(), complaints);
    Ok(Begun {
        engine,
        recorder,
        last: None,
        lines: 0,
    })
}

/// The record in which all stands that was taken, which has its name then; or none, where it can't be written and the server is to go on without
/// it.
fn record_whole<'a, R: Files + AllocGlobal>(
    beginning: &Beginning<'a, R>,
    recorder: Recorder<RecordFile<'a, R>>,
) -> Result<Option<Recorder<RecordFile<'a, R>>>, Exit>
    ensures whole { IfOk result (λ recorder. IfSome recorder (λ r. r.has_failed ≡ false)) }
    ensures unrecorded { IfOk result (λ recorder. IfNone recorder (beginning.now.fault ≡ GoOn)) }
    ensures refused { IfErr result IsUnmade }
{
    settle(beginning, name(beginning, recorder))
}

/// A server that has taken what is left of a record, which stands in the new record, too, where there is one. That has its name once it is whole, so
/// that the older one is needed no more.
#[tactic(auto, using(crate::proofs::Beginnings::leads, crate::proofs::Refusals::exits_at))]
fn go_on_to<'a, T: Timers, P: Rules, R: Files + AllocGlobal, I: TellingReader>(
    beginning: &Beginning<'a, R>,
    mut engine: Engine<T, P>,
    recorder: Option<Recorder<RecordFile<'a, R>>>,
    old: OldLines,
    reader: &mut I,
) -> Result<Begun<'a, T, P, R>, StartStop>
    requires unrecorded { IfNone recorder (beginning.now.fault ≡ GoOn) }
    ensures resumed { IfOk result (λ begun. LeadsTo old.first beginning.now.stated.now.bytes engine.server begun.engine.server
        (standing_of engine) old.lines.number (pending old.lines (I.remaining reader.old)) (standing_of begun.engine) begun.lines begun.last) }
    ensures whole { IfOk result (λ begun. IfSome begun.recorder (λ r. r.has_failed ≡ false)) }
    ensures unrecorded { IfOk result (λ begun. IfNone begun.recorder (beginning.now.fault ≡ GoOn)) }
    ensures stops { IfErr result (StopsAt old.first beginning.now.stated.now.bytes
        (HasStopped (I.has_failed reader.new) old.lines.asks (I.asked reader.old) (I.asked reader.new)) engine.server (standing_of engine)
        old.lines.number (pending old.lines (I.remaining reader.old))) }
    ensures secrets { IfOk result (λ begun. begun.engine.secrets ≡ engine.secrets) }
{
    let alloc = beginning.alloc;
    let stated = beginning.stated;
    match recorder {
        None => {
            let resumed = take_old(alloc, stated, &mut engine, old, reader, &mut NoJournal)?;
            let Resumed { lines, last } = resumed;
            Ok(Begun {
                engine,
                recorder: None,
                last,
                lines,
            })
        }
        Some(mut recorder) => {
            match take_old(alloc, stated, &mut engine, old, reader, &mut recorder) {
                Ok(Resumed { lines, last }) => Ok(Begun {
                    engine,
                    recorder: record_whole(beginning, recorder)?,
                    last,
                    lines,
                }),
                Err(stop) => {
                    remove_part(beginning.rt, &beginning.place);
                    Err(stop)
                }
            }
        }
    }
}

/// The new record of a server that goes on, whose first line has this digest; or none, where it can't be written and the server is to go on
/// without it.
fn record_again<'a, R: Files + AllocGlobal>(
    beginning: &Beginning<'a, R>,
    boot: Boot,
    digest: [u8; 32],
    follows: Option<&Follows>,
) -> Result<Option<Recorder<RecordFile<'a, R>>>, Exit>
    ensures whole { IfOk result (λ recorder. IfSome recorder (λ r. r.has_failed ≡ false)) }
    ensures unrecorded { IfOk result (λ recorder. IfNone recorder (beginning.now.fault ≡ GoOn)) }
    ensures refused { IfErr result IsUnmade }
{
    settle(beginning, make(beginning, boot, digest, follows))
}

/// A server that goes on from a record whose first line says this head, and whose events stand behind it. The new record's first line has
/// the same digest, since both begin with the configuration of that.
#[tactic(auto, using(crate::proofs::Refusals::exits_on, crate::proofs::Refusals::unbegun_so))]
fn go_on<'a, T: Timers, P: Rules, R: Files + AllocGlobal, I: TellingReader>(
    beginning: &Beginning<'a, R>,
    head: &RecordHead,
    reader: &mut I,
    keys: u128,
    follows: Option<&Follows>,
) -> Result<Begun<'a, T, P, R>, StartStop>
    ensures goes_on { IfOk result (λ begun. GoesOn beginning.now.stated.now.bytes beginning.now.stated.now.digest head.now
        (I.remaining reader.old) begun.engine.server (standing_of begun.engine) begun.lines begun.last) }
    ensures whole { IfOk result (λ begun. IfSome begun.recorder (λ r. r.has_failed ≡ false)) }
    ensures unrecorded { IfOk result (λ begun. IfNone begun.recorder (beginning.now.fault ≡ GoOn)) }
    ensures stopped { IfErr result (IsNotGoneOn beginning.now.stated.now.bytes beginning.now.stated.now.digest
        (HasStopped (I.has_failed reader.new) most_asks (I.asked reader.old) (I.asked reader.new)) head.now (I.remaining reader.old)) }
    ensures secrets { IfOk result (λ begun. begun.engine.secrets ≡ secrets_of keys) }
{
    asks_add_up();
    let boot = boot_again(head, keys);
    let alloc = beginning.alloc;
    let old = old_beginning(alloc, beginning.stated, head, reader)?;
    let OldBeginning { lines, config } = old;
    let engine = open_old(alloc, boot, config)?;
    let recorder = record_again(beginning, boot, head.digest, follows)?;
    go_on_to(beginning, engine, recorder, lines, reader)
}

/// A server that goes on from where a record leads that some reader gives, if that is whole, and one of this configuration or one that
/// holds its own.
#[tactic(auto, using(crate::proofs::Beginnings::goes_on_from, crate::proofs::Refusals::marked_off, crate::proofs::Refusals::stopped_behind_so))]
fn begin_from<'a, T: Timers, P: Rules, R: Files + AllocGlobal, I: TellingReader>(
    beginning: &Beginning<'a, R>,
    reader: &mut I,
    keys: u128,
    follows: Option<&Follows>,
) -> Result<Begun<'a, T, P, R>, StartStop>
    ensures goes_on { IfOk result (λ begun. GoesOnFrom beginning.now.stated.now.bytes beginning.now.stated.now.digest
        (I.remaining reader.old) begun.engine.server (standing_of begun.engine) begun.lines begun.last) }
    ensures whole { IfOk result (λ begun. IfSome begun.recorder (λ r. r.has_failed ≡ false)) }
    ensures unrecorded { IfOk result (λ begun. IfNone begun.recorder (beginning.now.fault ≡ GoOn)) }
    ensures refused { IfErr result (IsNotResumed beginning.now.stated.now.bytes beginning.now.stated.now.digest
        (I.has_failed reader.new) (I.asked reader.old) (I.asked reader.new) (I.remaining reader.old)) }
    ensures secrets { IfOk result (λ begun. begun.engine.secrets ≡ secrets_of keys) }
{
    asks_add_up();
    let head = match head_in(beginning.alloc, reader) {
        Ok(head) => head,
        Err(exit) => return Err(unread(exit)),
    };
    match head.mark {
        RecordMark::Whole => go_on(beginning, &head, reader, keys, follows),
        RecordMark::Broken => Err(StartStop::NotResumed(NotResumed::Broken)),
        RecordMark::Left => Err(StartStop::NotResumed(NotResumed::Left)),
    }
}

/// A server that goes on from a shorter record than that of a file, which is the new record; it has its name then.
#[tactic(auto, using(crate::proofs::Beginnings::goes_alike_apart))]
fn begin_shorter<'a, T: Timers, P: Rules, R: Files + Clock + Eprint + AllocGlobal>(
    beginning: &Beginning<'a, R>,
    old: &str,
    keys: u128,
    followed: &Followed,
    file: &mut InFile,
) -> Result<Begun<'a, T, P, R>, StartStop>
    ensures goes_on { IfOk result (λ begun. GoesOnAlike beginning.now.stated.now.bytes beginning.now.stated.now.digest
        begun.engine.server (standing_of begun.engine) begun.last) }
    ensures whole { IfOk result (λ begun. IfSome begun.recorder (λ r. r.has_failed ≡ false)) }
    ensures unrecorded { IfOk result (λ begun. IfNone begun.recorder (beginning.now.fault ≡ GoOn)) }
    ensures secrets { IfOk result (λ begun. begun.engine.secrets ≡ secrets_of keys) }
{
    let shorter = make_shorter::<T, P, R>(
        beginning.rt,
        beginning.stated,
        old,
        &beginning.place,
        beginning.fault,
        keys,
        beginning.seen,
        followed.follows.as_ref(),
        file,
    )?;
    file.note(followed);
    let Shorter {
        led,
        recorder,
        lines,
    } = shorter;
    let recorder = name(beginning, recorder)?;
    let (engine, last) = led.into_parts();
    Ok(Begun {
        engine,
        recorder: Some(recorder),
        last,
        lines,
    })
}

/// Lets a shorter record go that wasn't made: nothing is left of it. Where none leads where the whole one does, that is said; any other reason is
/// told where it is gone on from whole.
fn let_go<R: Files, C: Write>(
    beginning: &Beginning<'_, R>,
    old: &str,
    stop: StartStop,
    complaints: &mut C,
) {
    remove_part(beginning.rt, &beginning.place);
    if let StartStop::Exits(Exit::NoShorter { .. }) = stop {
        let _ = writeln!(
            complaints,
            "sipd: {old} couldn't be made shorter: all that it holds is kept"
        );
    }
}

/// A server that goes on from where the record of a file leads, and what is known of the file then. The record is made shorter, where that can be. What
/// the file holds no clause can say.
#[tactic(auto, using(crate::proofs::Beginnings::led_alike, crate::proofs::Beginnings::led_whole, crate::proofs::Refusals::file_not_resumed, crate::proofs::Refusals::unopened))]
fn begin_from_file<'a, T: Timers, P: Rules, R: Files + Clock + Eprint + AllocGlobal, C: Write>(
    beginning: &Beginning<'a, R>,
    old: &str,
    keys: u128,
    file: &mut InFile,
    complaints: &mut C,
) -> Result<Begun<'a, T, P, R>, StartStop>
    ensures goes_on { IfOk result (λ begun. IsLedSomehow beginning.now.stated.now.bytes beginning.now.stated.now.digest
        begun.engine.server (standing_of begun.engine) begun.last) }
    ensures whole { IfOk result (λ begun. IfSome begun.recorder (λ r. r.has_failed ≡ false)) }
    ensures unrecorded { IfOk result (λ begun. IfNone begun.recorder (beginning.now.fault ≡ GoOn)) }
    ensures refused { IfErr result (IsNoFileResumed beginning.now.stated.now.bytes beginning.now.stated.now.digest) }
    ensures secrets { IfOk result (λ begun. begun.engine.secrets ≡ secrets_of keys) }
{
    let followed = follow(beginning.rt, old);
    match begin_shorter(beginning, old, keys, &followed, file) {
        Ok(begun) => return Ok(begun),
        Err(stop) => let_go(beginning, old, stop, complaints),
    }
    match read_old(beginning.rt, old, beginning.seen) {
        Ok(mut reader) => {
            let begun = begin_from(beginning, &mut reader, keys, followed.follows.as_ref());
            *file = InFile::of(&reader);
            file.note(&followed);
            begun
        }
        Err(exit) => Err(unread(exit)),
    }
}

/// A server that goes on from where the record of a file leads, or of the input, where it can.
#[tactic(auto, using(crate::proofs::Beginnings::goes_on_from_input, crate::proofs::Beginnings::goes_on_led, crate::proofs::Refusals::input_not_resumed, crate::proofs::Refusals::of_file))]
fn begin_again<
    'a,
    T: Timers,
    P: Rules,
    R: Files + Clock + Eprint + AllocGlobal,
    I: TellingReader,
    W: Rng,
    C: Write,
>(
    beginning: &Beginning<'a, R>,
    old: &str,
    input: &mut I,
    words: &mut W,
    file: &mut InFile,
    complaints: &mut C,
) -> Result<Begun<'a, T, P, R>, StartStop>
    ensures goes_on { IfOk result (λ begun. GoesOnFromFile (Places.is_input old.now) (I.remaining input.old) beginning.now.stated.now.bytes
        beginning.now.stated.now.digest (W.stream words.old) begun.engine.server (standing_of begun.engine)
        begun.engine.secrets begun.last (W.stream words.new)) }
    ensures left_behind { OnErr result (IsLeftBehind (W.stream words.old) (W.stream words.new)) }
    ensures whole { IfOk result (λ begun. IfSome begun.recorder (λ r. r.has_failed ≡ false)) }
    ensures unrecorded { IfOk result (λ begun. IfNone begun.recorder (beginning.now.fault ≡ GoOn)) }
    ensures refused { IfErr result (IsFileNotResumed (Places.is_input old.now) (I.remaining input.old) (I.has_failed input.new)
        (I.asked input.old) (I.asked input.new) beginning.now.stated.now.bytes beginning.now.stated.now.digest) }
{
    let keys = secret(words);
    if is_input(old) {
        return begin_from(beginning, input, keys, None);
    }
    begin_from_file(beginning, old, keys, file, complaints)
}

/// Marks a record that is gone on from, so that no other start goes on from it. Where it came through the input, its file is somebody
/// else's; where it is no regular file, as a named pipe, nothing stands there any more.
fn leave<R: Files, C: Write>(rt: &R, old: &str, complaints: &mut C) {
    if is_input(old) {
        return;
    }
    if mark_file(rt, old, RecordMark::Left).is_err() {
        let _ = writeln!(
            complaints,
            "sipd: {old} can't be marked as left: let no other start go on from it"
        );
    }
}

/// How a record is called.
fn name_of_old(old: &str) -> &str {
    if is_input(old) { "standard input" } else { old }
}

/// Says behind how many lines of a record it goes on, whether a change of that would have been told, and where the new record doesn't say which one it
/// follows.
fn say_gone_on<C: Write>(
    old: &str,
    lines: u64,
    file: &InFile,
    is_recorded: bool,
    complaints: &mut C,
) {
    let name = name_of_old(old);
    let lines = file.line(lines);
    let _ = writeln!(complaints, "sipd: goes on behind {lines} lines of {name}");
    if file.is_unsealed {
        let _ = writeln!(
            complaints,
            "sipd: {name} holds no digests: a change of it isn't told"
        );
    }
    if file.is_unclosed && is_recorded {
        let _ = writeln!(
            complaints,
            "sipd: {name} can't be closed by a digest: the new record doesn't say that it follows it"
        );
    }
}

/// Says why a record isn't gone on from, what is lost with it, and until when. Where it can't be read nothing may be lost: so it is at a
/// first start.
fn say_lost<C: Write>(old: &str, why: NotResumed, file: &InFile, complaints: &mut C) {
    let old = name_of_old(old);
    if let Some(line) = file.changed {
        let _ = writeln!(
            complaints,
            "sipd: {old} isn't resumed: it was changed, its line {line} has the digest of other bytes; bindings, dialogs, open calls and nonces are lost: phones are found again when they register"
        );
        return;
    }
    if why.is_unreadable() {
        let _ = writeln!(
            complaints,
            "sipd: starts anew, since {old} isn't there or can't be read; what it holds, if anything, is lost: phones are found when they register"
        );
        return;
    }
    let _ = writeln!(
        complaints,
        "sipd: {old} isn't resumed: {}; bindings, dialogs, open calls and nonces are lost: phones are found again when they register",
        why.in_file(file)
    );
}

/// Says that no record stands in the folder in which it records: so it is at a first start, or where another disk is there.
fn say_first<C: Write>(place: &RecordFiles, complaints: &mut C) {
    if place.copy.is_some() {
        let path = place.record.path.as_str();
        let _ = writeln!(
            complaints,
            "sipd: starts anew, since no record stands beside {path} yet; phones are found when they register"
        );
    }
}

/// Reads the input, which can be read, up to its end, or until it fails, since until then another server may serve.
fn read_out<I: TellingReader>(input: &mut I) {
    let mut part = [0u8; 512];
    for _ in 0..u32::MAX {
        match input.ask(&mut part) {
            Ok(0) => return,
            Ok(_) => {}
            Err(e) if e.kind() == ErrorKind::Interrupted => {}
            Err(_) => return,
        }
    }
}

/// Reads the rest of the input, where a record was to come through it that isn't resumed, and not since it can't be read.
#[tactic(auto, using(crate::proofs::Refusals::still_so))]
fn pass_rest<I: TellingReader>(old: &str, why: NotResumed, input: &mut I)
    ensures { (given : Option (List ℕ)) (before : Option ℕ) (bytes digest : List ℕ)
        → IsFileNotResumed (Places.is_input old.now) given (I.has_failed input.old) before (I.asked input.old) bytes digest (Ended.NotResumed why)
        → IsFileNotResumed (Places.is_input old.now) given (I.has_failed input.new) before (I.asked input.new) bytes digest (Ended.NotResumed why) }
{
    if !is_input(old) {
        return;
    }
    if why.is_unreadable() {
        return;
    }
    read_out(input);
}

/// A server that records: one that goes on from where an older record leads, if there is one and it can be had, or else one that starts
/// anew. The older record may be the input, which is read up to its end then, unless it can't be read. Where it goes on, `last` is the last
/// step of that record; what it records isn't in it. What is too old of a folder in which it records is taken away then.
#[tactic(auto, using(crate::proofs::Beginnings::begins_again, crate::proofs::Beginnings::begins_anew, crate::proofs::Beginnings::begins_alone, crate::proofs::Refusals::file_exits))]
pub fn begin<
    'a,
    T: Timers,
    P: Rules,
    R: Files + Clock + Eprint + AllocGlobal,
    I: TellingReader,
    W: Rng,
    C: Write,
>(
    beginning: &Beginning<'a, R>,
    input: &mut I,
    words: &mut W,
    complaints: &mut C,
) -> Result<Begun<'a, T, P, R>, Exit>
    ensures begins { IfOk result (λ begun. Begins (option_map (λ old. string_bytes old) beginning.now.place.old) (I.remaining input.old)
        (I.has_failed input.new) (I.asked input.old) (I.asked input.new) beginning.now.stated.now.bytes beginning.now.stated.now.digest
        (W.stream words.old) begun.engine.server (standing_of begun.engine) begun.engine.secrets begun.last (W.stream words.new)) }
    ensures alone { beginning.now.place.old ≡ None → IfOk result (λ begun. StartsAnew beginning.now.stated.now.bytes
        (W.stream words.old) begun.engine.server (standing_of begun.engine) begun.engine.secrets begun.last) }
    ensures whole { IfOk result (λ begun. IfSome begun.recorder (λ r. r.has_failed ≡ false)) }
    ensures unrecorded { IfOk result (λ begun. IfNone begun.recorder (beginning.now.fault ≡ GoOn)) }
    ensures refused { IfErr result (EndsStart beginning.now.stated.now.bytes) }
{
    check_free(beginning.rt, &beginning.place)?;
    let Some(old) = &beginning.place.old else {
        say_first(&beginning.place, complaints);
        return begin_anew(beginning, words, complaints);
    };
    let old = old.as_str();
    let mut file = InFile::unknown();
    match begin_again(beginning, old, input, words, &mut file, complaints) {
        Ok(begun) => {
            leave(beginning.rt, old, complaints);
            let is_recorded = begun.recorder.is_some();
            say_gone_on(old, begun.lines, &file, is_recorded, complaints);
            remove_behind(beginning, is_recorded, complaints);
            Ok(begun)
        }
        Err(StartStop::NotResumed(why)) => {
            say_lost(old, why, &file, complaints);
            pass_rest(old, why, input);
            begin_anew(beginning, words, complaints)
        }
        Err(StartStop::Exits(exit)) => Err(exit),
    }
}
