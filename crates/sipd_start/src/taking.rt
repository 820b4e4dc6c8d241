//! What is taken of an older record: the configuration with which it begins, its events, and at last the file's own configuration.
//! Why it may not be gone on from is said in `not_resumed`.
ghost use Rattle.std.specs.Prelude.{◌≡◌, IfErr, IfNone, IfOk, IfSome, None, Some, OnErr, OnOk};
ghost use Rattle.sip_resume.specs.run.Due.{standing_of};
ghost use Rattle.sip_config.specs.Stated.{States};
ghost use Rattle.sip_config_change.specs.Frame.{frame_key_of};
ghost use Rattle.sip_config_change.specs.declared.key.FrameKey.{FrameKey};
ghost use Rattle.sip_journal.specs.Record.{NotesConfiguration};
ghost use Rattle.sip_replay_script.specs.Devices.{later};
ghost use Rattle.sip_replay_script.specs.Lines.{pending};
ghost use Rattle.sipd_exit.specs.declared.exit.Exit.TheVariants.{Memory, Recording};
ghost use Rattle.sipd_old_record.specs.Own.{unread};
ghost use Rattle.sipd_old_record.specs.Readers.{most_asks, HasStopped};
ghost use Rattle.sipd_start.specs.Begins.{IsServerOf, StopsAt, TakesOld};
ghost use Rattle.sipd_start.specs.OldRecords.{HaveFrameOf, IsBegunBy, IsNotFirst, IsUnbegun};
ghost use Rattle.sipd_start.specs.Stops.{IsNotUnder};
ghost use Rattle.sipd_start.specs.declared.not_resumed.NotResumed.TheVariants.{OtherFrame};
ghost use Rattle.sipd_start.specs.declared.not_resumed.StartStop.TheVariants as Ended;

use crate::not_resumed::{NotResumed, StartStop, unheld, untaken};
use crate::old_lines::{OldBeginning, OldLines};
use sip_config_change::frame_key;
use sip_config_change::laws::frame_is_place_and_realm;
use sip_config_types::Config;
use sip_journal::{Journal, JournalFault, RecordHead};
use sip_policy::Rules;
use sip_replay_print::NoSink;
use sip_replay_script::{ScriptLines, TellingReader};
use sip_resume::engine::{ChangeError, Engine};
use sip_resume::{Resumed, resume_record};
use sip_segment_config::RecordedConfig;
use sip_text::Buffer;
use sip_timers::Timers;
use sipd_exit::{Exit, Stated, config_of_bytes};
use sipd_old_record::laws::asks_add_up;
use sipd_old_record::{is_made_with, own_configuration};
use sipd_reload::MOST_BYTES;
use std::alloc::Global;

/// The line of a record's file with which a configuration of its own begins.
const OWN_LINE: u64 = 2;

/// Lines of which nothing is read.
fn new_lines(alloc: Global) -> Result<ScriptLines, Exit>
    ensures new { IfOk result (λ lines. lines ≡ unread) }
    ensures refused { IfErr result (λ exit. exit ≡ Memory) }
{
    Ok(ScriptLines::new(alloc)?)
}

/// That a record's own configuration is one of the same server to others as that of a file. `OtherFrame` is the only refusal.
fn check_frame(config: &Config, own: &Config) -> Result<(), StartStop>
    ensures same { OnOk result (frame_key_of config.now own.now ≡ None) }
    ensures other { IfErr result (λ stop. (key : FrameKey) × (stop ≡ Ended.NotResumed (OtherFrame 2 key)) × (frame_key_of config.now own.now ≡ Some key)) }
{
    match frame_key(config, own) {
        None => Ok(()),
        Some(key) => Err(StartStop::NotResumed(NotResumed::OtherFrame(OWN_LINE, key))),
    }
}

/// A copy of the bytes of a file.
fn copy_of(alloc: Global, stated: &Stated) -> Result<Buffer, Exit>
    ensures same { IfOk result (λ copy. copy ≡ stated.now.bytes) }
    ensures refused { IfErr result (λ exit. exit ≡ Memory) }
{
    Ok(Buffer::copy(alloc, stated.bytes.as_slice())?)
}

/// The configuration with which the first events of a record were taken whose first line says this head, where it may be gone on from with that
/// of a file: its own, which has to be one of the same server; or, where it holds none, the file's, which has to have the digest of the head.
/// Refusals: `OtherFrame`; `OtherConfiguration`; `Memory`; what is wrong with the file's configuration.
#[tactic(auto, using(crate::proofs::OldBeginnings::have_frame, crate::proofs::OldBeginnings::own_frame))]
fn first_of(
    alloc: Global,
    stated: &Stated,
    head: &RecordHead,
    own: Option<RecordedConfig>,
) -> Result<RecordedConfig, StartStop>
    ensures states { IfNone own (IfOk result (λ first. States first.text first.config)) }
    ensures frame { IfOk result (λ first. HaveFrameOf stated.now.bytes first.config) }
    ensures own { IfSome own (λ held. IfOk result (λ first. (first ≡ held) × HaveFrameOf stated.now.bytes held.config)) }
    ensures file { IfNone own (IfOk result (λ first. (first.text ≡ stated.now.bytes) × (head.now.digest ≡ stated.now.digest))) }
    ensures refused { IfErr result (IsNotFirst stated.now.bytes stated.now.digest head.now own) }
{
    frame_is_place_and_realm();
    let config = config_of_bytes(alloc, stated.bytes.as_slice())?;
    match own {
        Some(held) => {
            check_frame(&config, &held.config)?;
            Ok(held)
        }
        None if is_made_with(head, &stated.digest) => {
            let text = copy_of(alloc, stated)?;
            Ok(RecordedConfig { text, config })
        }
        None => Err(StartStop::NotResumed(NotResumed::OtherConfiguration)),
    }
}

/// What a record goes on with behind its first line, which says this head, where it may be gone on from with the configuration of a file.
#[tactic(auto, using(crate::proofs::OldBeginnings::unheld_so, crate::proofs::OldBeginnings::unbegun_of, crate::proofs::OldBeginnings::begun_of, crate::proofs::OldBeginnings::states_of))]
pub fn old_beginning<I: TellingReader>(
    alloc: Global,
    stated: &Stated,
    head: &RecordHead,
    reader: &mut I,
) -> Result<OldBeginning, StartStop>
    ensures states { IfOk result (λ old. States old.lines.first old.config) }
    ensures frame { IfOk result (λ old. HaveFrameOf stated.now.bytes old.config) }
    ensures begun { IfOk result (λ old. IsBegunBy stated.now.bytes stated.now.digest head.now (I.remaining reader.old)
        old.lines.lines (I.remaining reader.new) old.lines.first) }
    ensures asked { IfOk result (λ old. later old.lines.lines.asks (I.asked reader.new) ≡ later most_asks (I.asked reader.old)) }
    ensures refused { IfErr result (IsUnbegun (HasStopped (I.has_failed reader.new) most_asks (I.asked reader.old) (I.asked reader.new)) stated.now.bytes
        stated.now.digest head.now (I.remaining reader.old)) }
{
    asks_add_up();
    let mut lines = new_lines(alloc)?;
    let own = match own_configuration(alloc, head, &mut lines, reader) {
        Ok(own) => own,
        Err(stop) => return Err(unheld(stop)),
    };
    let first = first_of(alloc, stated, head, own)?;
    let RecordedConfig { text, config } = first;
    let lines = OldLines { lines, first: text };
    Ok(OldBeginning { lines, config })
}

/// Tells a journal that the configuration of these bytes is in force from here on. `Recording` is the only refusal, where the journal failed.
pub fn tell<J: Journal>(bytes: &[u8], journal: &mut J) -> Result<(), Exit>
    ensures noted { OnOk result (NotesConfiguration (J.written journal.old) (J.written journal.new) bytes.now) }
    ensures refused { IfErr result (λ exit. exit ≡ Recording) }
    ensures failed { OnErr result (J.written journal.new ≡ None) }
{
    match journal.configured(bytes) {
        Ok(()) => Ok(()),
        Err(JournalFault) => Err(Exit::Recording),
    }
}

/// Has a server be under the configuration of a file. Refusals: `Memory`; what is wrong with the file's configuration; `OtherFrame`, where that
/// has another frame than what is in force, as no configuration has that a server took which was opened with one of the file's frame
/// (`take_old`).
#[tactic(auto, using(crate::proofs::Beginnings::same_standing))]
fn come_under<T: Timers, P: Rules>(
    alloc: Global,
    engine: &mut Engine<T, P>,
    stated: &Stated,
) -> Result<(), Exit>
    ensures under { OnOk result (IsServerOf stated.now.bytes engine.old.server.word engine.new.server) }
    ensures standing { standing_of engine.new ≡ standing_of engine.old }
    ensures refused { IfErr result (IsNotUnder stated.now.bytes engine.old.server.config) }
    ensures secrets { engine.new.secrets ≡ engine.old.secrets }
{
    let config = config_of_bytes(alloc, stated.bytes.as_slice())?;
    match engine.change(config) {
        Ok(()) => Ok(()),
        Err(ChangeError::NoMemory) => Err(Exit::Memory),
        Err(ChangeError::OtherFrame(_)) => Err(Exit::OtherFrame),
    }
}

/// Has a server that was opened with the configuration with which a record begins take what is left of that, and come under the one of a file;
/// and has a journal be told all of it, so that a record that has the same first line is one of this server.
#[tactic(auto, using(crate::proofs::Beginnings::takes_old, crate::proofs::Refusals::untold_at))]
pub fn take_old<T: Timers, P: Rules, I: TellingReader, J: Journal>(
    alloc: Global,
    stated: &Stated,
    engine: &mut Engine<T, P>,
    old: OldLines,
    reader: &mut I,
    journal: &mut J,
) -> Result<Resumed, StartStop>
    ensures taken { IfOk result (λ resumed. TakesOld old.first stated.now.bytes engine.old.server engine.new.server (standing_of engine.old)
        (standing_of engine.new) old.lines.number (pending old.lines (I.remaining reader.old)) resumed.lines resumed.last (J.written journal.old)
        (J.written journal.new)) }
    ensures stopped { IfErr result (StopsAt old.first stated.now.bytes
        (HasStopped (I.has_failed reader.new) old.lines.asks (I.asked reader.old) (I.asked reader.new)) engine.old.server (standing_of engine.old)
        old.lines.number (pending old.lines (I.remaining reader.old))) }
    ensures secrets { engine.new.secrets ≡ engine.old.secrets }
{
    asks_add_up();
    frame_is_place_and_realm();
    let OldLines { mut lines, first } = old;
    tell(first.as_slice(), journal)?;
    let mut sink = NoSink;
    let resumed = match resume_record(
        alloc, engine, &mut lines, reader, MOST_BYTES, journal, &mut sink,
    ) {
        Ok(resumed) => resumed,
        Err(e) => return Err(untaken(e)),
    };
    tell(stated.bytes.as_slice(), journal)?;
    come_under(alloc, engine, stated)?;
    Ok(resumed)
}
