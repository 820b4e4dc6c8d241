//! How the office's clock was set, as the configurations of records say: from which moments on it was how far ahead of UTC. No server takes the
//! events of a record for that.
ghost use Rattle.std.specs.Prelude.{◌≡◌, ◌++◌, ◌<◌, length, IfNone, IfOk, IfSome, OnOk};
ghost use Rattle.sip_replay_script.specs.Lines.{left, pending};
ghost use Rattle.sip_segment_config.specs.Last.{EndsCut};
ghost use Rattle.sipd_tools.specs.Clocks as Definitions;
ghost use Rattle.sipd_tools.specs.Clocks.{AddsSome, AddsZones, HasZonesOf, SaysNext};

use crate::against::exit_of_last;
use sip_config_types::Config;
use sip_event::Event;
use sip_journal::{Upcoming, look_ahead};
use sip_record_omitted::Expanding;
use sip_replay_script::{ReadStop, ScriptLines, TellingReader, next_recorded};
use sip_segment_config::{SegmentStop, read_configuration};
use sipd_exit::{DeviceFault, Exit};
use sipd_old_record::{OldRecord, exit_in_file, open_any_record};
use sipd_reload::MOST_BYTES;
use sipd_report::Zone;
use std::alloc::{AllocError, Global};
use std::rt::Files;

/// What a record says next.
#[derive(Clone, Copy)]
pub(crate) enum ClockPart {
    /// An event, at this moment.
    Happened(u64),
    /// A configuration, by which the office's clock is so many minutes ahead of UTC.
    Set(i16),
}

/// The moment of an event.
fn moment_of(event: &Event) -> u64
    ensures { result ≡ Definitions.moment_of event.now }
{
    match event {
        Event::Datagram { at, .. } => *at,
        Event::Time { at } => *at,
        Event::Fault { at, .. } => *at,
    }
}

/// Passes the next event of a record; none where it ends, or was cut in it.
#[tactic(auto, using(crate::proofs::Clocked::said_event, crate::proofs::Clocked::fewer_event, crate::proofs::Clocked::over_ends, crate::proofs::Clocked::cut_event_ends))]
fn pass_event<I: TellingReader>(
    alloc: Global,
    lines: &mut ScriptLines,
    events: &mut I,
) -> Result<Option<ClockPart>, Exit>
    ensures said { IfOk result (λ found. IfSome found (SaysNext (pending lines.old (I.remaining events.old)) (pending lines.new (I.remaining events.new)))) }
    ensures over { IfOk result (λ found. IfNone found (IfSome (pending lines.old (I.remaining events.old)) EndsCut)) }
    ensures fewer { IfOk result (λ found. IfSome found (λ part. left lines.new < left lines.old)) }
{
    let first = lines.number() + 1;
    match next_recorded(alloc, lines, events) {
        Ok(Some(event)) => Ok(Some(ClockPart::Happened(moment_of(&event)))),
        Ok(None) | Err(ReadStop::Cut) => Ok(None),
        Err(ReadStop::NoMemory) => Err(Exit::Memory),
        Err(ReadStop::Damaged) => Err(exit_of_last(SegmentStop::Damaged(first))),
        Err(ReadStop::Read) => Err(Exit::Device(DeviceFault::Other)),
    }
}

/// How many minutes ahead of UTC the office's clock is by a configuration.
fn offset_in(config: &Config) -> i16
    ensures { result ≡ config.now.offset }
{
    config.offset
}

/// Reads the next configuration of a record; none where it ends, or was cut in it.
#[tactic(auto, using(crate::proofs::Clocked::said_clock, crate::proofs::Clocked::fewer_clock, crate::proofs::Clocked::over_ends, crate::proofs::Clocked::cut_configuration_ends))]
fn read_clock<I: TellingReader>(
    alloc: Global,
    lines: &mut ScriptLines,
    events: &mut I,
) -> Result<Option<ClockPart>, Exit>
    ensures said { IfOk result (λ found. IfSome found (SaysNext (pending lines.old (I.remaining events.old)) (pending lines.new (I.remaining events.new)))) }
    ensures over { IfOk result (λ found. IfNone found (IfSome (pending lines.old (I.remaining events.old)) EndsCut)) }
    ensures fewer { IfOk result (λ found. IfSome found (λ part. left lines.new < left lines.old)) }
{
    match read_configuration(alloc, lines, events, MOST_BYTES) {
        Ok(Some(held)) => Ok(Some(ClockPart::Set(offset_in(&held.config)))),
        Ok(None) | Err(SegmentStop::Cut(_)) => Ok(None),
        Err(stop) => Err(exit_of_last(stop)),
    }
}

/// What comes next in a record, which is passed or read; nothing where it ends, or was cut in it.
#[tactic(auto, using(crate::proofs::Clocked::over_ends, crate::proofs::Clocked::fewer_behind))]
fn next_part<I: TellingReader>(
    alloc: Global,
    lines: &mut ScriptLines,
    events: &mut I,
) -> Result<Option<ClockPart>, Exit>
    ensures said { IfOk result (λ found. IfSome found (SaysNext (pending lines.old (I.remaining events.old)) (pending lines.new (I.remaining events.new)))) }
    ensures over { IfOk result (λ found. IfNone found (IfSome (pending lines.old (I.remaining events.old)) EndsCut)) }
    ensures fewer { IfOk result (λ found. IfSome found (λ part. left lines.new < left lines.old)) }
{
    match look_ahead(lines, events) {
        Ok(Upcoming::Over) => Ok(None),
        Ok(Upcoming::Event) => pass_event(alloc, lines, events),
        Ok(Upcoming::Configuration) => read_clock(alloc, lines, events),
        Err(_) => Err(Exit::Device(DeviceFault::Other)),
    }
}

/// How the clock was set behind a part, if no event came behind that yet.
fn set_behind(part: ClockPart) -> Option<i16>
    ensures { result ≡ Definitions.set_behind part }
{
    match part {
        ClockPart::Happened(_) => None,
        ClockPart::Set(offset) => Some(offset),
    }
}

/// Adds the zone that a part begins.
fn push_zone(zones: &mut Vec<Zone>, set: Option<i16>, part: ClockPart) -> Result<(), AllocError>
    ensures { OnOk result (zones.new.items ≡ zones.old.items ++ Definitions.zone_begun set part) }
{
    let Some(offset) = set else {
        return Ok(());
    };
    match part {
        ClockPart::Happened(since) => {
            zones.push(Zone { since, offset })?;
            Ok(())
        }
        ClockPart::Set(_) => Ok(()),
    }
}

/// Adds the zones of what stands behind the first line of a record. Refusals: `Script`, with the line of its file that is damaged, or that begins
/// a configuration that is too long; `Configuration`; `Memory`; `Device`, where the reader failed or was asked as often as it may be.
#[tactic(auto, using(crate::proofs::Clocked::all_so_far))]
fn add_zones<I: TellingReader>(
    alloc: Global,
    events: &mut I,
    zones: &mut Vec<Zone>,
) -> Result<(), Exit>
    ensures { OnOk result (AddsZones (I.remaining events.old) zones.old.items zones.new.items) }
{
    let mut lines = ScriptLines::new(alloc)?;
    let mut set = None;
    'parts: loop {
        let Some(part) = next_part(alloc, &mut lines, events)? else {
            return Ok(());
        };
        push_zone(zones, set, part)?;
        set = set_behind(part);
    }
}

/// Adds the zones of the record in a file, in which lines may stand for datagrams that were left out.
#[tactic(auto, using(crate::proofs::Clocked::added_some))]
fn add_zones_in<R: Files + AllocGlobal>(
    rt: &R,
    path: &str,
    zones: &mut Vec<Zone>,
) -> Result<(), Exit>
    ensures { OnOk result (AddsSome zones.old.items zones.new.items) }
{
    let OldRecord { head: _, events } = open_any_record(rt, rt.alloc(), path)?;
    let mut events = Expanding::new(rt.alloc(), events)?;
    match add_zones(rt.alloc(), &mut events, zones) {
        Ok(()) => Ok(()),
        Err(exit) => Err(exit_in_file(exit, &events.inner, events.added())),
    }
}

/// From which moments on the office's clock was how far ahead of UTC, as the configurations of some records say, one record behind the other.
pub(crate) fn zones_in<R: Files + AllocGlobal>(rt: &R, paths: &[String]) -> Result<Vec<Zone>, Exit>
    ensures { IfOk result (λ zones. HasZonesOf (length paths.now) zones.items) }
{
    let mut zones = Vec::new(rt.alloc());
    for path in paths {
        add_zones_in(rt, path.as_str(), &mut zones)?;
    }
    Ok(zones)
}
