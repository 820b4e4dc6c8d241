//! A record made shorter. Of its events those are written again that still matter, with how many datagrams are left out between them; and the
//! new record is used only where it leads to a server that goes on as the one to which the old record leads.
ghost use Rattle.std.specs.Prelude.{◌≡◌, IfOk, Ok, OnOk};
ghost use Rattle.sip_journal.specs.declared.record_mark.RecordMark.TheVariants as Marks;
ghost use Rattle.sip_model.specs.SameAhead.{SameAhead};
ghost use Rattle.sip_resume.specs.run.Due.{standing_of};
ghost use Rattle.sip_resume.specs.run.engine.engine_time.proxy.Proxy.{secrets_of};
ghost use Rattle.sipd_old_record.specs.OldRecord.{SaysHead};
ghost use Rattle.sipd_start.specs.Begins.{GoesOn, GoesOnFrom, IsServerOf};
ghost use Rattle.sipd_start.specs.Shorter.{IsLedByFile, LeadsAlike};

use crate::not_resumed::{NotResumed, StartStop};
use crate::old_lines::OldBeginning;
use crate::opening::{InFile, boot_again, open_old, read_old};
use crate::taking::{old_beginning, take_old};
use crate::telling::tell_behind;
use rand_core::Rng;
use sip_event::StepOut;
use sip_journal::{Journal, NoJournal, RecordHead, RecordMark, Recorder};
use sip_policy::Rules;
use sip_record_sealed::Follows;
use sip_replay_script::TellingReader;
use sip_resume::Resumed;
use sip_resume::engine::Engine;
use sip_timers::Timers;
use sipd_boot::secret;
use sipd_exit::{Exit, RecordFault, RecordPlace, RecordSync, Stated};
use sipd_old_record::{RecordFile, head_in};
use sipd_record_files::{
    Choice, Choosing, Keeping, RecordFiles, check_free, make_part, name_part, place_of, remove_part,
};
use std::alloc::Global;
use std::io::Write;
use std::rt::{Clock, Files};

/// A server to which a record leads.
pub(crate) struct Led<T: Timers, P: Rules> {
    pub(crate) engine: Engine<T, P>,
    /// The word that its first line says.
    pub(crate) word: u64,
    /// How many of its lines were taken.
    pub(crate) lines: u64,
    /// The last step of it.
    pub(crate) last: Option<StepOut>,
}

/// Written out, so that it is proved once and not wherever one is dropped.
impl<T: Timers, P: Rules> Drop for Led<T, P> {
    fn drop(self) {
        let Led {
            engine: _,
            word: _,
            lines: _,
            last: _,
        } = self;
    }
}

impl<T: Timers, P: Rules> Led<T, P> {
    /// The server, and the last step of the record.
    pub(crate) fn into_parts(self) -> (Engine<T, P>, Option<StepOut>)
        ensures engine { result.0 ≡ self.engine }
        ensures last { result.1 ≡ self.last }
    {
        let Led {
            engine,
            word: _,
            lines: _,
            last,
        } = self;
        (engine, last)
    }
}

/// A record that may be made shorter: what its first line says, the server to which it leads, and what the shorter one has.
#[derive(Drop)]
struct Whole<T: Timers, P: Rules> {
    head: RecordHead,
    led: Led<T, P>,
    choice: Choice,
}

/// A shorter record, which hasn't its name yet, and the server to which it leads.
#[derive(Drop)]
pub(crate) struct Shorter<'a, T: Timers, P: Rules, R: Files> {
    pub(crate) led: Led<T, P>,
    pub(crate) recorder: Recorder<RecordFile<'a, R>>,
    /// How many lines of the whole record were taken.
    pub(crate) lines: u64,
}

/// That a record is whole, and that no start went on from it.
fn check_mark(head: &RecordHead) -> Result<(), StartStop>
    ensures { OnOk result (head.now.mark ≡ Marks.Whole) }
{
    match head.mark {
        RecordMark::Whole => Ok(()),
        RecordMark::Broken => Err(StartStop::NotResumed(NotResumed::Broken)),
        RecordMark::Left => Err(StartStop::NotResumed(NotResumed::Left)),
    }
}

/// What the first line of a record says that is whole, and that no start went on from.
fn whole_head<I: TellingReader>(alloc: Global, reader: &mut I) -> Result<RecordHead, StartStop>
    ensures head { IfOk result (SaysHead (I.remaining reader.old) (I.remaining reader.new)) }
    ensures whole { IfOk result (λ head. head.mark ≡ Marks.Whole) }
{
    let head = head_in(alloc, reader)?;
    check_mark(&head)?;
    Ok(head)
}

/// The server to which a record leads whose first line says this head, under the configuration of a file; a journal is told each event and
/// configuration.
#[tactic(auto, using(crate::proofs::Beginnings::goes_on_after, crate::proofs::Beginnings::under_head))]
fn lead<T: Timers, P: Rules, I: TellingReader, J: Journal>(
    alloc: Global,
    stated: &Stated,
    head: &RecordHead,
    keys: u128,
    reader: &mut I,
    journal: &mut J,
) -> Result<Led<T, P>, StartStop>
    ensures goes_on { IfOk result (λ led. GoesOn stated.now.bytes stated.now.digest head.now (I.remaining reader.old) led.engine.server
        (standing_of led.engine) led.lines led.last) }
    ensures server { IfOk result (λ led. IsServerOf stated.now.bytes led.word led.engine.server) }
    ensures secrets { IfOk result (λ led. led.engine.secrets ≡ secrets_of keys) }
{
    let boot = boot_again(head, keys);
    let old = old_beginning(alloc, stated, head, reader)?;
    let OldBeginning { lines, config } = old;
    let mut engine = open_old(alloc, boot, config)?;
    let resumed = take_old(alloc, stated, &mut engine, lines, reader, journal)?;
    let Resumed { lines, last } = resumed;
    Ok(Led {
        engine,
        word: head.word,
        lines,
        last,
    })
}

/// What was made while what chooses was told events. `Memory`, where that ran out there.
pub(crate) fn unless_failed<A: Drop>(
    choosing: &Choosing,
    made: Result<A, StartStop>,
) -> Result<A, StartStop>
    ensures { IfOk result (λ a. made ≡ Ok a) }
{
    if choosing.has_failed {
        return Err(StartStop::Exits(Exit::Memory));
    }
    made
}

/// The server to which a record leads, while its events are told to what chooses of them; and what that has chosen.
fn lead_choosing<T: Timers, P: Rules, I: TellingReader>(
    alloc: Global,
    stated: &Stated,
    head: &RecordHead,
    keys: u128,
    reader: &mut I,
    choosing: &mut Choosing,
) -> Result<Whole<T, P>, StartStop>
    ensures goes_on { IfOk result (λ whole. GoesOn stated.now.bytes stated.now.digest head.now (I.remaining reader.old) whole.led.engine.server
        (standing_of whole.led.engine) whole.led.lines whole.led.last) }
    ensures server { IfOk result (λ whole. IsServerOf stated.now.bytes whole.led.word whole.led.engine.server) }
{
    let made = lead::<T, P, _, _>(alloc, stated, head, keys, reader, choosing);
    let led = unless_failed(choosing, made)?;
    let choice = choosing.choice(led.engine.moment())?;
    Ok(Whole {
        head: *head,
        led,
        choice,
    })
}

/// What a record holds that still matters, as it leads to a server.
#[tactic(auto, using(crate::proofs::Beginnings::goes_on_from))]
fn choose<T: Timers, P: Rules, I: TellingReader>(
    alloc: Global,
    stated: &Stated,
    keys: u128,
    reader: &mut I,
) -> Result<Whole<T, P>, StartStop>
    ensures goes_on { IfOk result (λ whole. GoesOnFrom stated.now.bytes stated.now.digest (I.remaining reader.old) whole.led.engine.server
        (standing_of whole.led.engine) whole.led.lines whole.led.last) }
    ensures server { IfOk result (λ whole. IsServerOf stated.now.bytes whole.led.word whole.led.engine.server) }
{
    let head = whole_head(alloc, reader)?;
    let mut choosing = Choosing::new(alloc, head.first, keys);
    lead_choosing(alloc, stated, &head, keys, reader, &mut choosing)
}

/// Writes what was chosen of a record, which is read once more.
fn write_chosen<'a, R: Files + AllocGlobal, I: TellingReader>(
    rt: &'a R,
    stated: &Stated,
    reader: &mut I,
    keeping: &mut Keeping<RecordFile<'a, R>>,
) -> Result<(), StartStop> {
    let alloc = rt.alloc();
    let head = head_in(alloc, reader)?;
    tell_behind(alloc, stated, &head, reader, keeping)?;
    keeping.finish()?;
    Ok(())
}

/// The same of the record of a file, and what is known of that. `Changed`, where it disagrees with a digest in it.
#[tactic(auto, using(crate::proofs::Beginnings::led_by_file))]
fn choose_in<T: Timers, P: Rules, R: Files + Clock + Eprint + AllocGlobal>(
    rt: &R,
    stated: &Stated,
    keys: u128,
    old: &str,
    seen: bool,
    file: &mut InFile,
) -> Result<Whole<T, P>, StartStop>
    ensures goes_on { IfOk result (λ whole. IsLedByFile stated.now.bytes stated.now.digest whole.led.engine.server (standing_of whole.led.engine)
        whole.led.lines whole.led.last) }
    ensures server { IfOk result (λ whole. IsServerOf stated.now.bytes whole.led.word whole.led.engine.server) }
{
    let mut reader = read_old(rt, old, seen)?;
    let chosen = choose::<T, P, _>(rt.alloc(), stated, keys, &mut reader);
    *file = InFile::of(&reader);
    file.checked(chosen)
}

/// The shorter record, which hasn't its name yet, of that of a file.
pub(crate) fn rewrite<'a, R: Files + Clock + Eprint + AllocGlobal>(
    rt: &'a R,
    stated: &Stated,
    old: &str,
    files: &RecordFiles,
    fault: RecordFault,
    head: &RecordHead,
    choice: Choice,
    follows: Option<&Follows>,
) -> Result<Recorder<RecordFile<'a, R>>, StartStop> {
    let (chosen, digest) = choice.into_parts();
    let shorter = RecordHead {
        mark: RecordMark::Whole,
        word: head.word,
        first: chosen.first,
        digest,
    };
    let recorder = make_part(rt, files, &shorter, stated, fault, follows)?;
    let mut keeping = Keeping::new(rt.alloc(), recorder, chosen.into_choices());
    let mut reader = read_old(rt, old, false)?;
    write_chosen(rt, stated, &mut reader, &mut keeping)?;
    let mut recorder = keeping.into_recorder();
    match recorder.writer.seal() {
        Ok(()) => Ok(recorder),
        Err(_) => Err(StartStop::Exits(Exit::Recording)),
    }
}

/// That a server goes on as another one. `NoShorter` is the only refusal.
fn check_same<T: Timers, P: Rules>(new: &Led<T, P>, old: &Led<T, P>) -> Result<(), StartStop>
    ensures same { OnOk result (SameAhead new.now.engine.state old.now.engine.state) }
    ensures word { OnOk result (new.now.word ≡ old.now.word) }
{
    if new.word != old.word {
        return Err(StartStop::Exits(Exit::NoShorter));
    }
    if new.engine.is_same(&old.engine) {
        return Ok(());
    }
    Err(StartStop::Exits(Exit::NoShorter))
}

/// The server to which the shorter record leads, which is read as a start reads it.
fn lead_again<T: Timers, P: Rules, I: TellingReader>(
    alloc: Global,
    stated: &Stated,
    keys: u128,
    reader: &mut I,
) -> Result<Led<T, P>, StartStop>
    ensures goes_on { IfOk result (λ led. GoesOnFrom stated.now.bytes stated.now.digest (I.remaining reader.old) led.engine.server
        (standing_of led.engine) led.lines led.last) }
    ensures server { IfOk result (λ led. IsServerOf stated.now.bytes led.word led.engine.server) }
    ensures secrets { IfOk result (λ led. led.engine.secrets ≡ secrets_of keys) }
{
    let head = whole_head(alloc, reader)?;
    lead(alloc, stated, &head, keys, reader, &mut NoJournal)
}

/// The same of a new record that hasn't its name yet.
#[tactic(auto, using(crate::proofs::Beginnings::led_by_file))]
pub(crate) fn lead_part<T: Timers, P: Rules, R: Files + Clock + Eprint + AllocGlobal>(
    rt: &R,
    stated: &Stated,
    files: &RecordFiles,
    keys: u128,
) -> Result<Led<T, P>, StartStop>
    ensures goes_on { IfOk result (λ led. IsLedByFile stated.now.bytes stated.now.digest led.engine.server (standing_of led.engine)
        led.lines led.last) }
    ensures server { IfOk result (λ led. IsServerOf stated.now.bytes led.word led.engine.server) }
    ensures secrets { IfOk result (λ led. led.engine.secrets ≡ secrets_of keys) }
{
    let mut reader = read_old(rt, files.record.part.as_str(), false)?;
    lead_again::<T, P, _>(rt.alloc(), stated, keys, &mut reader)
}

/// Makes the shorter record of that of a file, which hasn't its name then; and what is known of that file. `NoShorter` where what is chosen leads elsewhere.
#[tactic(auto, using(crate::proofs::Beginnings::alike_in_files))]
pub(crate) fn make_shorter<'a, T: Timers, P: Rules, R: Files + Clock + Eprint + AllocGlobal>(
    rt: &'a R,
    stated: &Stated,
    old: &str,
    files: &RecordFiles,
    fault: RecordFault,
    keys: u128,
    seen: bool,
    follows: Option<&Follows>,
    file: &mut InFile,
) -> Result<Shorter<'a, T, P, R>, StartStop>
    ensures leads { IfOk result (λ shorter. LeadsAlike stated.now.bytes stated.now.digest shorter.led.engine.server
        (standing_of shorter.led.engine) shorter.led.lines shorter.led.last) }
    ensures secrets { IfOk result (λ shorter. shorter.led.engine.secrets ≡ secrets_of keys) }
{
    let whole = choose_in::<T, P, R>(rt, stated, keys, old, seen, file)?;
    let Whole { head, led, choice } = whole;
    let recorder = rewrite(rt, stated, old, files, fault, &head, choice, follows)?;
    let new = lead_part::<T, P, R>(rt, stated, files, keys)?;
    check_same(&new, &led)?;
    Ok(Shorter {
        led: new,
        recorder,
        lines: led.lines,
    })
}

/// Makes a shorter record, and gives it its name.
fn make_named<T: Timers, P: Rules, R: Files + Clock + Eprint + AllocGlobal>(
    rt: &R,
    stated: &Stated,
    old: &str,
    files: &RecordFiles,
    keys: u128,
    seen: bool,
) -> Result<(), StartStop> {
    let mut file = InFile::unknown();
    let shorter = make_shorter::<T, P, R>(
        rt,
        stated,
        old,
        files,
        RecordFault::End,
        keys,
        seen,
        None,
        &mut file,
    )?;
    let Shorter {
        led: _,
        mut recorder,
        lines: _,
    } = shorter;
    name_part(rt, files, &mut recorder.writer, RecordSync::Never)?;
    Ok(())
}

/// The files of a new record of this name, where there is none yet.
fn files_of<R: Files + Clock + AllocGlobal>(rt: &R, new: &str) -> Result<RecordFiles, Exit> {
    let wanted = RecordPlace::File {
        path: String::from_str(rt.alloc(), new)?,
        resume: None,
    };
    let files = place_of(rt, &wanted)?;
    check_free(rt, &files)?;
    Ok(files)
}

/// Makes a shorter record of that of a file, with the configuration of another file, which is that of the same server to others; it has its
/// name only where it leads to a server that goes on as the one to which the whole record leads. `NoShorter` where that can't be gone on from, or
/// what is chosen leads elsewhere.
///
/// `seen`: whether somebody looks at standard error, where it is said then how far the record is read.
pub fn compact<T: Timers, P: Rules, R: Files + Clock + Eprint + AllocGlobal, W: Rng, C: Write>(
    rt: &R,
    stated: &Stated,
    old: &str,
    new: &str,
    seen: bool,
    words: &mut W,
    complaints: &mut C,
) -> Result<(), Exit> {
    let files = files_of(rt, new)?;
    let keys = secret(words);
    let made = make_named::<T, P, R>(rt, stated, old, &files, keys, seen);
    remove_part(rt, &files);
    match made {
        Ok(()) => Ok(()),
        Err(StartStop::Exits(exit)) => Err(exit),
        Err(StartStop::NotResumed(why)) => {
            let _ = writeln!(complaints, "sipd: {old} can't be gone on from: {why}");
            Err(Exit::NoShorter)
        }
    }
}
