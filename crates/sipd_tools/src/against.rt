//! The configuration from which a change is told (`check --against`): that of a file, or the last one of a record.
ghost use Rattle.std.specs.Prelude.{◌≡◌, IfErr, IfOk};
ghost use Rattle.sip_replay_script.specs.Devices.{later};
ghost use Rattle.sip_replay_script.specs.Lines.{pending, IsSpent};
ghost use Rattle.sipd_tools.specs.Against;
ghost use Rattle.sipd_tools.specs.Against.{Begins, IsBefore, IsFirstUnread, IsLastBehind, IsLastOf, IsNotLast, IsStated, IsWithoutLast};

use sip_config_types::Config;
use sip_journal::RecordHead;
use sip_record_omitted::Expanding;
use sip_record_sealed::Unsealing;
use sip_replay_script::{ScriptLines, TellingReader};
use sip_segment_config::{SegmentStop, last_configuration};
use sipd_exit::{DeviceFault, Exit, config_of};
use sipd_old_record::{OldRecord, exit_in_file, line_of_file, open_any_record, own_configuration};
use sipd_reload::MOST_BYTES;
use std::alloc::Global;
use std::fs;
use std::io::{Read, Write};
use std::rt::Files;

/// How the program ends where the last configuration of a record isn't read; one that is refused is as that of a file is.
pub(crate) fn exit_of_last(stop: SegmentStop) -> Exit
    ensures { result ≡ Against.exit_of_last stop }
{
    match stop {
        SegmentStop::NoMemory => Exit::Memory,
        SegmentStop::Damaged(line)
        | SegmentStop::TooLong(line)
        | SegmentStop::OtherFrame(line, _) => Exit::Script(line_of_file(line)),
        SegmentStop::Cut(_) => Exit::BareRecord,
        SegmentStop::Read => Exit::Device(DeviceFault::Other),
        SegmentStop::NoConfiguration(_, e) => Exit::from(e),
    }
}

/// The configuration of its own with which a record begins whose first line says this head; none, where it holds none.
fn first_of<I: TellingReader>(
    alloc: Global,
    head: &RecordHead,
    lines: &mut ScriptLines,
    events: &mut I,
) -> Result<Option<Config>, Exit>
    ensures first { IfOk result (Begins head.now.digest lines.old lines.new (I.remaining events.old) (I.remaining events.new)) }
    ensures refused { IfErr result (IsFirstUnread head.now.digest (IsSpent (I.has_failed events.new) lines.new.asks) lines.old (I.remaining events.old)) }
    ensures asked { later lines.new.asks (I.asked events.new) ≡ later lines.old.asks (I.asked events.old) }
{
    match own_configuration(alloc, head, lines, events) {
        Ok(Some(held)) => Ok(Some(held.config)),
        Ok(None) => Ok(None),
        Err(stop) => Err(exit_of_last(stop)),
    }
}

/// The last configuration of what is left of a record, in which this one is in force, if any is. `BareRecord`, where there is none.
fn last_behind<I: TellingReader>(
    alloc: Global,
    first: Option<Config>,
    lines: &mut ScriptLines,
    events: &mut I,
) -> Result<Config, Exit>
    ensures last { IfOk result (IsLastBehind first (pending lines.old (I.remaining events.old))) }
    ensures refused { IfErr result (IsWithoutLast first (IsSpent (I.has_failed events.new) lines.new.asks) (pending lines.old (I.remaining events.old)) lines.old.number) }
    ensures asked { later lines.new.asks (I.asked events.new) ≡ later lines.old.asks (I.asked events.old) }
{
    match last_configuration(alloc, lines, events, MOST_BYTES) {
        Ok(Some(held)) => Ok(held.config),
        Ok(None) => match first {
            Some(config) => Ok(config),
            None => Err(Exit::BareRecord),
        },
        Err(stop) => Err(exit_of_last(stop)),
    }
}

/// The last configuration of a record whose first line says this head. Refusals: `BareRecord`, where it holds none, or was cut in the first one;
/// `Script`, with the line of its file that is damaged, the first one where that has another digest than the first configuration, or that begins
/// a configuration that is too long; `Configuration`; `Memory`; `Device`, where the reader failed or was asked as often as it may be.
fn last_of<I: TellingReader>(
    alloc: Global,
    head: &RecordHead,
    events: &mut I,
) -> Result<Config, Exit>
    ensures last { IfOk result (IsLastOf head.now.digest (I.remaining events.old)) }
    ensures stated { IfOk result IsStated }
    ensures refused { IfErr result (IsNotLast head.now.digest (I.has_failed events.new) (I.asked events.old) (I.asked events.new)
        (I.remaining events.old)) }
{
    let mut lines = ScriptLines::new(alloc)?;
    let first = first_of(alloc, head, &mut lines, events)?;
    last_behind(alloc, first, &mut lines, events)
}

/// The last configuration of a record, in which lines may stand for datagrams that were left out.
fn last_in<I: Read + Drop>(alloc: Global, record: OldRecord<Unsealing<I>>) -> Result<Config, Exit>
    ensures { IfOk result IsStated }
{
    let OldRecord { head, events } = record;
    let mut events = Expanding::new(alloc, events)?;
    match last_of(alloc, &head, &mut events) {
        Ok(config) => Ok(config),
        Err(exit) => Err(exit_in_file(exit, &events.inner, events.added())),
    }
}

/// Whether a path finds a file that can be read twice, as a pipe can't.
fn is_file<R: Files>(rt: &R, path: &str) -> bool {
    match fs::metadata(rt, path) {
        Ok(found) => found.is_file(),
        Err(_) => false,
    }
}

/// The configuration of a file, or the last one of the record that it is: then it begins with a record's first line.
fn config_at<R: Files + AllocGlobal>(rt: &R, path: &str) -> Result<Config, Exit>
    ensures { IfOk result IsStated }
{
    if !is_file(rt, path) {
        return config_of(rt, Some(path));
    }
    match open_any_record(rt, rt.alloc(), path) {
        Ok(record) => last_in(rt.alloc(), record),
        Err(Exit::NoRecord { .. }) => config_of(rt, Some(path)),
        Err(exit) => Err(exit),
    }
}

/// The configuration from which a change is told; where there is none, what is refused is complained of.
fn config_before<R: Files + AllocGlobal, C: Write>(
    rt: &R,
    path: &str,
    complaints: &mut C,
) -> Result<Config, Exit>
    ensures { IfOk result IsStated }
{
    match config_at(rt, path) {
        Ok(config) => Ok(config),
        Err(exit) => {
            let _ = writeln!(complaints, "sipd: of --against");
            Err(exit)
        }
    }
}

/// That configuration, where a file is named.
pub(crate) fn before_of<R: Files + AllocGlobal, C: Write>(
    rt: &R,
    path: &Option<String>,
    complaints: &mut C,
) -> Result<Option<Config>, Exit>
    ensures { IfOk result (IsBefore path.now) }
{
    match path {
        Some(path) => Ok(Some(config_before(rt, path.as_str(), complaints)?)),
        None => Ok(None),
    }
}
