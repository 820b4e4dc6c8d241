//! With which configuration a record begins, and how the program ends where it has none.
ghost use Rattle.std.specs.Prelude.{◌≡◌, IfErr, IfNone, IfOk, IfSome, OnOk};
ghost use Rattle.sip_replay_script.specs.Devices.{later};
ghost use Rattle.sip_replay_script.specs.Lines.{IsSpent};
ghost use Rattle.sipd_old_record.specs.FirstConfiguration.{BeginsWith, GivesOwn, HasDigest, IsOfAnother, IsUnconfigured, OwnUnread, StatesNamed, UnnamedStops};
ghost use Rattle.sipd_old_record.specs.FirstConfiguration as Definitions;
ghost use Rattle.sipd_old_record.specs.Own.{HoldsNone};

use crate::old_record::{is_made_with, line_of_file};
use crate::record_configuration::own_configuration;
use sip_config_types::Config;
use sip_journal::RecordHead;
use sip_replay_script::{ScriptLines, TellingReader};
use sip_segment_config::SegmentStop;
use sipd_exit::{DeviceFault, Exit, Stated, config_of_bytes, stated_in};
use std::alloc::Global;
use std::rt::Files;

/// How the program ends where the configuration isn't read with which a record begins.
fn exit_of_segment(stop: SegmentStop) -> Exit
    ensures { result ≡ Definitions.exit_of_segment stop }
{
    match stop {
        SegmentStop::NoMemory => Exit::Memory,
        SegmentStop::Damaged(line)
        | SegmentStop::Cut(line)
        | SegmentStop::TooLong(line)
        | SegmentStop::NoConfiguration(line, _)
        | SegmentStop::OtherFrame(line, _) => Exit::Script(line_of_file(line)),
        SegmentStop::Read => Exit::Device(DeviceFault::Other),
    }
}

/// The configuration of its own with which a record begins whose first line says this head; none where it holds none. Refusals: `Script`, where
/// what comes is neither a configuration nor an event, and with the first line, where that has the digest of other bytes; `Memory`; `Device`,
/// where the reader failed.
fn first_of<I: TellingReader>(
    alloc: Global,
    head: &RecordHead,
    lines: &mut ScriptLines,
    reader: &mut I,
) -> Result<Option<Config>, Exit>
    ensures own { IfOk result (λ found. IfSome found (GivesOwn head.now.digest lines.old lines.new (I.remaining reader.old) (I.remaining reader.new))) }
    ensures none { IfOk result (λ found. IfNone found (HoldsNone lines.old lines.new (I.remaining reader.old) (I.remaining reader.new))) }
    ensures refused { IfErr result (OwnUnread head.now.digest (IsSpent (I.has_failed reader.new) lines.new.asks) lines.old (I.remaining reader.old)) }
    ensures asked { later lines.new.asks (I.asked reader.new) ≡ later lines.old.asks (I.asked reader.old) }
{
    match own_configuration(alloc, head, lines, reader) {
        Ok(Some(held)) => Ok(Some(held.config)),
        Ok(None) => Ok(None),
        Err(stop) => Err(exit_of_segment(stop)),
    }
}

/// The configuration of the file that is named, for a record that holds none. Refusals: `BareRecord`, where none is named; `Memory`,
/// and `Configuration`, where its bytes state none.
fn named_configuration(alloc: Global, named: Option<&Stated>) -> Result<Config, Exit>
    ensures stated { IfOk result (StatesNamed named.entry) }
    ensures refused { IfErr result (UnnamedStops named.entry) }
{
    match named {
        Some(file) => config_of_bytes(alloc, file.bytes.as_slice()),
        None => Err(Exit::BareRecord),
    }
}

/// That a file that is named has the digest of a record's first line. `OtherConfiguration` is the only refusal.
fn check_digest(head: &RecordHead, named: Option<&Stated>) -> Result<(), Exit>
    ensures same { OnOk result (HasDigest head.now.digest named.entry) }
    ensures other { IfErr result (IsOfAnother head.now.digest named.entry) }
{
    let Some(file) = named else {
        return Ok(());
    };
    if is_made_with(head, &file.digest) {
        Ok(())
    } else {
        Err(Exit::OtherConfiguration)
    }
}

/// The configuration with which a record begins whose first line says this head: its own; or of one that holds none that of the file that is
/// named. Refusals: `OtherConfiguration`, where a file is named that hasn't the digest of the head, in either case; `Script`, where what comes is
/// neither a configuration nor an event, and with the first line, where that has the digest of other bytes; `BareRecord`, where the record holds
/// none and no file is named; `Configuration`, where the file's bytes state none; `Memory`; `Device`, where the reader failed.
pub fn configuration_of<I: TellingReader>(
    alloc: Global,
    head: &RecordHead,
    named: Option<&Stated>,
    lines: &mut ScriptLines,
    reader: &mut I,
) -> Result<Config, Exit>
    ensures begins { IfOk result (BeginsWith head.now.digest named.entry lines.old lines.new (I.remaining reader.old) (I.remaining reader.new)) }
    ensures refused { IfErr result (IsUnconfigured head.now.digest named.entry (IsSpent (I.has_failed reader.new) lines.new.asks) lines.old (I.remaining reader.old)) }
    ensures asked { later lines.new.asks (I.asked reader.new) ≡ later lines.old.asks (I.asked reader.old) }
{
    check_digest(head, named)?;
    match first_of(alloc, head, lines, reader)? {
        Some(config) => Ok(config),
        None => Ok(named_configuration(alloc, named)?),
    }
}

/// The file that is named, if one is, with its digest.
pub fn named_file<R: Files + AllocGlobal>(
    rt: &R,
    config: Option<&str>,
) -> Result<Option<Stated>, Exit> {
    match config {
        Some(path) => Ok(Some(stated_in(rt, path)?)),
        None => Ok(None),
    }
}
