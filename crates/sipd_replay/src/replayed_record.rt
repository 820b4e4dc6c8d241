//! The command `replay --record` carried out, and how the program ends where it is refused.
ghost use Rattle.std.specs.Prelude.{◌≡◌, ◌⊎◌, IfErr, OnOk};
ghost use Rattle.sip_replay_script.specs.Devices.{GaveUp};
ghost use Rattle.sipd_replay.specs.ReplayExits as Exits;
ghost use Rattle.sipd_replay.specs.Replays.{IsKeptBack, IsReplayed, IsReplayedOn, IsUnreplayed};

use sip_event::Boot;
use sip_journal::{RecordHead, RecordMark};
use sip_policy::Rules;
use sip_record_omitted::Expanding;
use sip_replay::resume::RecordError;
use sip_replay_print::Printer;
use sip_replay_script::{PrintStop, ScriptLines, TellingReader, TellingWriter, hand_on};
use sip_timers::Timers;
use sipd_exit::{DeviceFault, Exit, Stated};
use sipd_old_record::{
    OldRecord, configuration_of, exit_in_file, line_of_file, named_file, open_any_record,
};
use sipd_progress::{Watched, size_of_file};
use sipd_reload::MOST_BYTES;
use std::alloc::Global;
use std::io::Write;
use std::rt::{Clock, Files};

/// How the program ends where the replay of a record is refused, of which so many lines behind the first one were read.
fn exit_of_record(e: RecordError, lines: u64) -> Exit
    ensures { result ≡ Exits.exit_of_record e lines }
{
    match e {
        RecordError::NoMemory => Exit::Memory,
        RecordError::Damaged(line)
        | RecordError::TooLong(line)
        | RecordError::NoConfiguration(line, _)
        | RecordError::OtherFrame(line, _) => Exit::Script(line_of_file(line)),
        RecordError::Step => Exit::Script(line_of_file(lines)),
        RecordError::Read | RecordError::Write => Exit::Device(DeviceFault::Other),
        RecordError::Journal => Exit::Recording,
    }
}

/// How the program ends where what was printed isn't handed on.
fn exit_of_print(stop: PrintStop) -> Exit
    ensures { result ≡ Exits.exit_of_print stop }
{
    match stop {
        PrintStop::NoMemory => Exit::Memory,
        PrintStop::Write => Exit::Device(DeviceFault::Other),
    }
}

/// Replays what a reader gives behind the first line of a record, which says this head, under the configuration with which it begins, and
/// under each that comes into force in it. What was printed before a refusal stays. Refused as `configuration_of` and
/// `sip_replay::replay_record`, too.
fn replay_behind<T: Timers, P: Rules, I: TellingReader, W: TellingWriter + Drop>(
    alloc: Global,
    head: &RecordHead,
    named: Option<&Stated>,
    reader: &mut I,
    printer: &mut Printer<W>,
) -> Result<(), Exit>
    ensures replayed { OnOk result (IsReplayed head.now named.entry (I.remaining reader.old) (W.contents printer.old.writer) (W.contents printer.new.writer)) }
    ensures refused { IfErr result (IsUnreplayed head.now named.entry (I.has_failed reader.new) (I.asked reader.old) (I.asked reader.new)
        (GaveUp (W.has_failed printer.new.writer) (W.called printer.new.writer)) (I.remaining reader.old)
        (W.contents printer.old.writer) (W.contents printer.new.writer)) }
{
    let mut lines = ScriptLines::new(alloc)?;
    let config = configuration_of(alloc, head, named, &mut lines, reader)?;
    let boot = Boot {
        word: head.word,
        first: head.first,
        keys: 0,
    };
    match sip_replay::replay_record::<T, P, I, W>(
        alloc, config, boot, &mut lines, reader, MOST_BYTES, printer,
    ) {
        Ok(()) => Ok(()),
        Err(e) => Err(exit_of_record(e, lines.number())),
    }
}

/// The same, and hands on what was printed.
fn replay_whole<T: Timers, P: Rules, I: TellingReader, W: TellingWriter + Drop>(
    alloc: Global,
    head: &RecordHead,
    named: Option<&Stated>,
    reader: &mut I,
    printer: &mut Printer<W>,
) -> Result<(), Exit>
    ensures replayed { OnOk result (IsReplayedOn head.now named.entry (I.remaining reader.old) (W.contents printer.old.writer) (W.contents printer.new.writer)) }
    ensures flushed { OnOk result (W.is_flushed printer.new.writer) }
    ensures refused { IfErr result (λ exit. IsUnreplayed head.now named.entry (I.has_failed reader.new) (I.asked reader.old) (I.asked reader.new)
        (GaveUp (W.has_failed printer.new.writer) (W.called printer.new.writer)) (I.remaining reader.old)
        (W.contents printer.old.writer) (W.contents printer.new.writer) exit
        ⊎ IsKeptBack head.now named.entry (GaveUp (W.has_failed printer.new.writer) (W.called printer.new.writer)) (I.remaining reader.old)
        (W.contents printer.old.writer) (W.contents printer.new.writer) exit) }
{
    replay_behind::<T, P, I, W>(alloc, head, named, reader, printer)?;
    match hand_on(&mut printer.writer) {
        Ok(()) => Ok(()),
        Err(stop) => Err(exit_of_print(stop)),
    }
}

/// Replays a record, whatever became of it, with the configurations that it holds; one of before, which holds none, with that of the file
/// with which it was made. Complains where it lacks events. Gives the digest in its last line, where that holds one.
///
/// `seen`: whether somebody looks at standard error, where it is said then how far it is.
pub(crate) fn replay_file<
    T: Timers,
    P: Rules,
    R: Files + Clock + Eprint + AllocGlobal,
    W: Write,
    C: Write,
>(
    rt: &R,
    config: Option<&str>,
    path: &str,
    seen: bool,
    output: &mut W,
    complaints: &mut C,
) -> Result<Option<[u8; 32]>, Exit> {
    let alloc = rt.alloc();
    let named = named_file(rt, config)?;
    let OldRecord { head, events } = open_any_record(rt, alloc, path)?;
    let events = Watched::new(rt, events, path, size_of_file(rt, path), seen);
    let mut events = Expanding::new(alloc, events)?;
    if head.mark == RecordMark::Broken {
        let _ = writeln!(
            complaints,
            "sipd: the writing of {path} failed: it lacks what came behind"
        );
    }
    let mut printer = Printer::new(alloc, output);
    let replayed = replay_whole::<T, P, _, _>(
        alloc,
        &head,
        named.as_ref(),
        &mut events,
        &mut printer,
    );
    if let Err(Exit::BareRecord) = &replayed {
        let _ = writeln!(
            complaints,
            "sipd: an older record: name its file with --config"
        );
    }
    let file = &events.inner.reader;
    if replayed.is_ok() && file.seals() == 0 {
        let _ = writeln!(
            complaints,
            "sipd: {path} holds no digests: a change of it isn't told"
        );
    }
    match replayed {
        Ok(()) => Ok(file.end_digest()),
        Err(exit) => Err(exit_in_file(exit, file, events.added())),
    }
}

/// Replays a record.
pub fn replay_record<
    T: Timers,
    P: Rules,
    R: Files + Clock + Eprint + AllocGlobal,
    W: Write,
    C: Write,
>(
    rt: &R,
    config: Option<&str>,
    path: &str,
    seen: bool,
    output: &mut W,
    complaints: &mut C,
) -> Result<(), Exit> {
    match replay_file::<T, P, R, W, C>(rt, config, path, seen, output, complaints) {
        Ok(_) => Ok(()),
        Err(exit) => Err(exit),
    }
}
