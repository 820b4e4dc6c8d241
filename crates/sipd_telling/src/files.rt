//! The records in files, told to a listener as one history: of one that follows the one before only what that didn't tell.
ghost use Rattle.std.specs.Prelude.{◌<◌, ◌⊎◌, length, IfErr, OnOk};
ghost use Rattle.sipd_telling.specs.Records.{TellsFiles, TellsFront, TellsNext, TellsNone, TellsRecord};

use crate::day::{exit_of_file, open_day};
use crate::onward::Onward;
use crate::telling::{begin, tell};
use sip_journal::RecordHead;
use sip_listener::Listener;
use sip_policy::Rules;
use sip_replay_script::TellingReader;
use sip_retell::laws::what_is_told_is_lawful;
use sip_timers::Timers;
use sipd_exit::{Exit, Stated};
use sipd_old_record::{OldRecord, named_file};
use sipd_record_files::goes_on_from;
use std::alloc::Global;
use std::io::Write;
use std::rt::{Clock, Files};

/// How records are read.
pub struct DayReading {
    /// The file of the configuration of those that hold none.
    pub named: Option<Stated>,
    /// Whether somebody looks at standard error.
    pub seen: bool,
}

/// Written out, so that it is proved once and not wherever one is dropped.
impl Drop for DayReading {
    fn drop(self) {
        let DayReading { named: _, seen: _ } = self;
    }
}

/// How records are read, with the configuration in a file for those that hold none.
pub fn reading_of<R: Files + AllocGlobal>(
    rt: &R,
    config: &Option<String>,
    seen: bool,
) -> Result<DayReading, Exit> {
    let named: Option<Stated> = named_file(rt, config.as_ref().map(String::as_str))?;
    Ok(DayReading { named, seen })
}

/// Whether the record in one of these files goes on from that in the file before, whose last line holds this digest.
fn follows_last<R: Files + AllocGlobal>(
    rt: &R,
    paths: &[String],
    place: usize,
    digest: Option<[u8; 32]>,
) -> bool
    requires { place < length paths.now }
{
    if place == 0 {
        return false;
    }
    goes_on_from(rt, paths[place].as_str(), paths[place - 1].as_str(), digest)
}

/// Tells a listener what a reader gives behind the first line of a record, which says this head, up to its end. Refused as `begin` and `tell` are.
fn tell_day<T: Timers, P: Rules, I: TellingReader, L: Listener>(
    alloc: Global,
    head: &RecordHead,
    named: Option<&Stated>,
    events: &mut I,
    listener: &mut L,
) -> Result<(), Exit>
    ensures told { OnOk result (TellsRecord L.hears head.now named.entry (I.remaining events.old) listener.old listener.new) }
    ensures refused { IfErr result (λ exit. TellsNone head.now named.entry (I.has_failed events.new) (I.asked events.old) (I.asked events.new)
        (I.remaining events.old) listener.old listener.new exit
        ⊎ TellsFront L.hears L.refuses head.now named.entry (I.has_failed events.new) (I.asked events.old) (I.asked events.new)
        (I.remaining events.old) listener.old listener.new (L.gave_up listener.new) exit) }
{
    what_is_told_is_lawful();
    let mut telling = begin::<T, P, I>(alloc, head, named, events)?;
    tell(alloc, &mut telling, events, None, listener)
}

/// Tells it the record in a file, where that follows the one before without the steps that this one told; gives the digest in its last line, where
/// that holds one. Refused as `open_day` and, at that line of its file, `tell_day` are.
fn tell_file<
    T: Timers,
    P: Rules,
    R: Files + Clock + Eprint + AllocGlobal,
    L: Listener + Drop,
    C: Write,
>(
    rt: &R,
    path: &str,
    reading: &DayReading,
    follows: bool,
    onward: &mut Onward<L>,
    complaints: &mut C,
) -> Result<Option<[u8; 32]>, Exit>
    ensures { OnOk result (TellsNext L.hears onward.old.reached onward.new.reached onward.old.listener onward.new.listener) }
{
    let OldRecord { head, mut events } = open_day(rt, path, reading.seen, complaints)?;
    onward.turn(follows, head.first);
    let named = reading.named.as_ref();
    match tell_day::<T, P, _, Onward<L>>(rt.alloc(), &head, named, &mut events, onward) {
        Ok(()) => Ok(events.inner.reader.end_digest()),
        Err(exit) => Err(exit_of_file(exit, &events, complaints)),
    }
}

/// Tells it records as one history, one behind the other. One goes on from the one before where its second line says so, and this one's last line
/// has the digest that it names: then it is told what wasn't told before, and else all. A record that is being written may be among them.
///
/// What was told before a refusal stays told: the records in front of the one that is refused, and of that what is in front of its damage. Refused as
/// `open_day`, `begin` and `tell` are, with the line of that record's file; or with `Changed`, where a line of it has the digest of other bytes.
pub fn tell_files<
    T: Timers,
    P: Rules,
    R: Files + Clock + Eprint + AllocGlobal,
    L: Listener + Drop,
    C: Write,
>(
    rt: &R,
    paths: &[String],
    reading: &DayReading,
    onward: &mut Onward<L>,
    complaints: &mut C,
) -> Result<(), Exit>
    ensures { OnOk result (TellsFiles L.hears (length paths.now) onward.old.listener onward.new.listener) }
{
    onward.begin();
    let mut digest = None;
    for place in 0..paths.len() {
        let follows = follows_last(rt, paths, place, digest);
        let path = paths[place].as_str();
        let told = tell_file::<T, P, R, L, C>(rt, path, reading, follows, onward, complaints)?;
        digest = told;
    }
    Ok(())
}
