//! What a record says of a time, as text: who was registered then, which calls stood, or what each address did up to it.
ghost use Rattle.std.specs.Prelude.{◌≡◌, ◌<◌, ◌^◌, ◌++◌, [], None, Ok, option_map, unwrap_or, IfErr, IfNone, IfOk, IfSome, OnOk};
ghost use Rattle.std.specs.Io.KnownBytes.{Appends};
ghost use Rattle.sip_replay_script.specs.Devices.{later};
ghost use Rattle.sip_replay_script.specs.Lines.{IsSpent, pending};
ghost use Rattle.sipd_telling.specs.run.Due.{standing_of};
ghost use Rattle.sip_days.specs.Hearing.{adds_calls};
ghost use Rattle.sip_days.specs.Phones.{adds_phones};
ghost use Rattle.sipd_sources.specs.Told.{adds_sources, none as no_sources};
ghost use Rattle.sipd_exit.specs.declared.exit.Exit.TheVariants.{Memory};
ghost use Rattle.sipd_days.specs.Days.{forgets, IsNoDay};
ghost use Rattle.sipd_standing.specs.Standing.{standing_text, tables_text};
ghost use Rattle.sipd_days.specs.DayAt as Definitions;
ghost use Rattle.sipd_days.specs.DayAt.{forgets_phones, forgets_sources, IsTableAt, IsTableTold, IsTold, WasTableIf};
ghost use Rattle.sipd_report.specs.Said.{moment_at};

use crate::standing::{DayClock, stand_at};
use sip_config_types::Config;
use sip_days::laws::{calls_grow_by_a_step, phones_grow_by_a_step};
use sip_days::{Call, Calls, Phones};
use sip_journal::RecordHead;
use sip_policy::Rules;
use sip_record_omitted::Expanding;
use sip_record_sealed::Unsealing;
use sip_replay_script::TellingReader;
use sip_text::Bytes;
use sip_timers::Timers;
use sipd_calls::Notation;
use sipd_exit::{Exit, Stated, print};
use sipd_progress::Watched;
use sipd_sources::laws::sources_grow_by_a_step;
use sipd_sources::{SourceFilter, Sources, sources_text};
use sipd_standing::{phones_text, standing_text, tables_text};
use sipd_telling::engine::Engine;
use sipd_telling::laws::what_is_told_is_lawful;
use sipd_telling::{Telling, begin, exit_of_day};
use std::alloc::{AllocError, Global};
use std::io::{BufReader, Write};
use std::rt::{Clock, Files};

/// What is asked of a time.
#[derive(Clone, Copy)]
pub enum DayTable {
    /// Who was registered.
    Phones,
    /// Which calls rang or were talked.
    Standing,
    /// What each address did up to it from which datagrams came that are counted.
    Sources(SourceFilter),
}

/// The text of a table; the clock of which the time was taken to be, and that of the configuration in force then; and how the program ends, where the record wasn't told up to the time.
pub(crate) struct DayAt {
    pub text: Bytes,
    pub taken: DayClock,
    pub in_force: DayClock,
    pub end: Option<Exit>,
}

/// Written out, so that it is proved once and not wherever one is dropped.
impl Drop for DayAt {
    fn drop(self) {
        let DayAt {
            text: _,
            taken: _,
            in_force: _,
            end: _,
        } = self;
    }
}

/// How the program ends, where a record wasn't told to its end.
fn ended(end: Option<Exit>) -> Result<(), Exit>
    ensures { OnOk result (end ≡ None) }
{
    match end {
        None => Ok(()),
        Some(exit) => Err(exit),
    }
}

/// At a line of the record's file, where it doesn't end well.
fn end_of_day<R: Files + Clock + Eprint + AllocGlobal>(
    end: Option<Exit>,
    events: &Expanding<Watched<'_, R, Unsealing<BufReader<R::File>>>>,
) -> Option<Exit>
    ensures { IfNone result (end ≡ None) }
{
    match end {
        None => None,
        Some(exit) => Some(exit_of_day(exit, events)),
    }
}

impl DayAt {
    /// The clock in force, where that is another one.
    pub(crate) fn other_clock(&self) -> Option<DayClock>
        ensures same { IfNone result (self.now.in_force.ahead ≡ self.now.taken.ahead) }
        ensures other { IfSome result (λ clock. clock.ahead ≡ self.now.in_force.ahead) }
    {
        if self.in_force.ahead == self.taken.ahead {
            return None;
        }
        Some(self.in_force)
    }

    /// The same, where the program ends at a line of the record's file.
    pub(crate) fn in_file<R: Files + Clock + Eprint + AllocGlobal>(
        self,
        events: &Expanding<Watched<'_, R, Unsealing<BufReader<R::File>>>>,
    ) -> DayAt
        ensures text { result.text ≡ self.text }
        ensures taken { result.taken.ahead ≡ self.taken.ahead }
        ensures in_force { result.in_force.ahead ≡ self.in_force.ahead }
        ensures end { IfNone result.end (self.end ≡ None) }
    {
        let DayAt {
            text,
            taken,
            in_force,
            end,
        } = self;
        DayAt {
            text,
            taken,
            in_force,
            end: end_of_day(end, events),
        }
    }

    /// Prints it; the program ends as it says.
    pub(crate) fn print_to<W: Write>(self, output: &mut W) -> Result<(), Exit>
        ensures printed { OnOk result (Appends (W.contents output.old) (W.contents output.new) self.text) }
        ensures whole { OnOk result (self.end ≡ None) }
    {
        let DayAt {
            text,
            taken: _,
            in_force: _,
            end,
        } = self;
        match print(text.as_slice(), output) {
            Ok(()) => ended(end),
            Err(exit) => Err(exit),
        }
    }

    /// The text, where the program ends well.
    pub(crate) fn into_text(self) -> Result<Bytes, Exit>
        ensures text { IfOk result (λ text. text ≡ self.text) }
        ensures whole { OnOk result (self.end ≡ None) }
    {
        let DayAt {
            text,
            taken: _,
            in_force: _,
            end,
        } = self;
        match end {
            None => Ok(text),
            Some(exit) => Err(exit),
        }
    }
}

/// A table whose text was made, if memory was enough.
fn day_of(
    text: Result<Bytes, AllocError>,
    taken: DayClock,
    in_force: DayClock,
    end: Option<Exit>,
) -> Result<DayAt, Exit>
    ensures text { IfOk result (λ day. text ≡ Ok day.text) }
    ensures taken { IfOk result (λ day. day.taken.ahead ≡ taken.ahead) }
    ensures in_force { IfOk result (λ day. day.in_force.ahead ≡ in_force.ahead) }
    ensures end { IfOk result (λ day. day.end ≡ end) }
    ensures refused { IfErr result (λ exit. exit ≡ Memory) }
{
    match text {
        Ok(text) => Ok(DayAt {
            text,
            taken,
            in_force,
            end,
        }),
        Err(_) => Err(Exit::Memory),
    }
}

/// The clock by a configuration.
fn clock_of(config: &Config) -> DayClock
    ensures { result.ahead ≡ config.now.offset }
{
    DayClock {
        ahead: config.offset,
    }
}

/// The clock by the configuration of a server.
fn clock_in<T: Timers, P: Rules>(engine: &Engine<T, P>) -> DayClock
    ensures { result.ahead ≡ engine.now.server.config.offset }
{
    clock_of(engine.config())
}

/// The clock that is given, or, where none is, that of a server.
fn clock_by<T: Timers, P: Rules>(engine: &Engine<T, P>, clock: Option<DayClock>) -> DayClock
    ensures { result.ahead ≡ unwrap_or (option_map (λ c. c.ahead) clock) engine.now.server.config.offset }
{
    match clock {
        Some(clock) => clock,
        None => clock_in(engine),
    }
}

/// Who is registered with a server.
fn phones_in<T: Timers, P: Rules>(
    alloc: Global,
    form: Option<Notation>,
    engine: &Engine<T, P>,
    at: u64,
    phones: &Phones,
) -> Result<Bytes, AllocError>
    ensures { IfOk result (λ text. text ≡ Definitions.phones_in form engine.now.server engine.now.state at phones.now) }
{
    phones_text(alloc, form, engine, at, phones.as_slice())
}

/// The calls that ring or are talked, on the clock of a configuration, and how full the tables of a server are.
fn calls_text(
    alloc: Global,
    form: Option<Notation>,
    config: &Config,
    at: u64,
    calls: &[Call],
    requests: usize,
    dialogs: usize,
) -> Result<Bytes, AllocError>
    ensures { IfOk result (λ text. text ≡ standing_text form config.now.offset at calls.now ++ tables_text form requests dialogs) }
{
    let mut text = standing_text(alloc, form, config, at, calls)?;
    let tables = tables_text(alloc, form, requests, dialogs)?;
    text.extend(tables.as_slice())?;
    Ok(text)
}

/// The same of a server.
fn calls_in<T: Timers, P: Rules>(
    alloc: Global,
    form: Option<Notation>,
    engine: &Engine<T, P>,
    at: u64,
    calls: &Calls,
) -> Result<Bytes, AllocError>
    ensures { IfOk result (λ text. text ≡ Definitions.calls_in form engine.now.server engine.now.state at calls.now) }
{
    calls_text(
        alloc,
        form,
        engine.config(),
        at,
        calls.as_slice(),
        engine.open_count(),
        engine.dialog_count(),
    )
}

/// The addresses from which datagrams came, on the clock of a server.
fn sources_in<T: Timers, P: Rules>(
    alloc: Global,
    form: Option<Notation>,
    engine: &Engine<T, P>,
    at: u64,
    sources: Sources,
) -> Result<Bytes, AllocError>
    ensures { IfOk result (λ text. text ≡ Definitions.sources_in form engine.now.server engine.now.state at sources) }
{
    sources_text(alloc, form, engine.config(), at, sources)
}

/// Who is registered at a time of a clock with a server that takes what is left of a record.
fn tell_phones<T: Timers, P: Rules, I: TellingReader>(
    alloc: Global,
    telling: &mut Telling<T, P>,
    events: &mut I,
    form: Option<Notation>,
    time: Option<u64>,
    taken: DayClock,
) -> Result<DayAt, Exit>
    requires { IfSome time (λ t. t < 2 ^ 50) }
    ensures told { IfOk result (λ day. IsTold adds_phones forgets_phones [] (Definitions.phones_in form) telling.old.engine.server
        (standing_of telling.old.engine) (IsSpent (I.has_failed events.new) telling.new.lines.asks) (pending telling.old.lines (I.remaining events.old))
        telling.old.lines.number (option_map (λ t. moment_at t taken.ahead) time) day.text day.in_force.ahead day.end) }
    ensures taken { IfOk result (λ day. day.taken.ahead ≡ taken.ahead) }
    ensures refused { IfErr result (λ exit. exit ≡ Memory) }
    ensures asked { later telling.new.lines.asks (I.asked events.new) ≡ later telling.old.lines.asks (I.asked events.old) }
{
    let mut phones = Phones::new(alloc);
    let reached = stand_at(alloc, telling, events, time, taken, &mut phones)?;
    let text = phones_in(alloc, form, &telling.engine, reached.at, &phones);
    day_of(text, taken, clock_in(&telling.engine), reached.end)
}

/// The calls that ring or are talked then.
fn tell_calls<T: Timers, P: Rules, I: TellingReader>(
    alloc: Global,
    telling: &mut Telling<T, P>,
    events: &mut I,
    form: Option<Notation>,
    time: Option<u64>,
    taken: DayClock,
) -> Result<DayAt, Exit>
    requires { IfSome time (λ t. t < 2 ^ 50) }
    ensures told { IfOk result (λ day. IsTold adds_calls forgets [] (Definitions.calls_in form) telling.old.engine.server
        (standing_of telling.old.engine) (IsSpent (I.has_failed events.new) telling.new.lines.asks) (pending telling.old.lines (I.remaining events.old))
        telling.old.lines.number (option_map (λ t. moment_at t taken.ahead) time) day.text day.in_force.ahead day.end) }
    ensures taken { IfOk result (λ day. day.taken.ahead ≡ taken.ahead) }
    ensures refused { IfErr result (λ exit. exit ≡ Memory) }
    ensures asked { later telling.new.lines.asks (I.asked events.new) ≡ later telling.old.lines.asks (I.asked events.old) }
{
    let mut calls = Calls::new(alloc);
    let reached = stand_at(alloc, telling, events, time, taken, &mut calls)?;
    let text = calls_in(alloc, form, &telling.engine, reached.at, &calls);
    day_of(text, taken, clock_in(&telling.engine), reached.end)
}

/// The addresses up to then.
fn tell_sources<T: Timers, P: Rules, I: TellingReader>(
    alloc: Global,
    telling: &mut Telling<T, P>,
    events: &mut I,
    filter: SourceFilter,
    form: Option<Notation>,
    time: Option<u64>,
    taken: DayClock,
) -> Result<DayAt, Exit>
    requires { IfSome time (λ t. t < 2 ^ 50) }
    ensures told { IfOk result (λ day. IsTold adds_sources forgets_sources (no_sources filter) (Definitions.sources_in form) telling.old.engine.server
        (standing_of telling.old.engine) (IsSpent (I.has_failed events.new) telling.new.lines.asks) (pending telling.old.lines (I.remaining events.old))
        telling.old.lines.number (option_map (λ t. moment_at t taken.ahead) time) day.text day.in_force.ahead day.end) }
    ensures taken { IfOk result (λ day. day.taken.ahead ≡ taken.ahead) }
    ensures refused { IfErr result (λ exit. exit ≡ Memory) }
    ensures asked { later telling.new.lines.asks (I.asked events.new) ≡ later telling.old.lines.asks (I.asked events.old) }
{
    let mut sources = Sources::new(alloc, filter);
    let reached = stand_at(alloc, telling, events, time, taken, &mut sources)?;
    let text = sources_in(alloc, form, &telling.engine, reached.at, sources);
    day_of(text, taken, clock_in(&telling.engine), reached.end)
}

/// What is asked of a time of a clock, of a server that takes what is left of a record.
fn tell_table<T: Timers, P: Rules, I: TellingReader>(
    alloc: Global,
    table: DayTable,
    telling: &mut Telling<T, P>,
    events: &mut I,
    form: Option<Notation>,
    time: Option<u64>,
    taken: DayClock,
) -> Result<DayAt, Exit>
    requires { IfSome time (λ t. t < 2 ^ 50) }
    ensures told { IfOk result (λ day. IsTableTold table form telling.old.engine.server (standing_of telling.old.engine)
        (IsSpent (I.has_failed events.new) telling.new.lines.asks) (pending telling.old.lines (I.remaining events.old)) telling.old.lines.number
        (option_map (λ t. moment_at t taken.ahead) time) day.text day.in_force.ahead day.end) }
    ensures taken { IfOk result (λ day. day.taken.ahead ≡ taken.ahead) }
    ensures refused { IfErr result (λ exit. exit ≡ Memory) }
    ensures asked { later telling.new.lines.asks (I.asked events.new) ≡ later telling.old.lines.asks (I.asked events.old) }
{
    match table {
        DayTable::Phones => tell_phones(alloc, telling, events, form, time, taken),
        DayTable::Standing => tell_calls(alloc, telling, events, form, time, taken),
        DayTable::Sources(filter) => {
            tell_sources(alloc, telling, events, filter, form, time, taken)
        }
    }
}

/// What is asked of a time of what a reader gives behind the first line of a record, which says this head. The time is one of a clock; where none is
/// given, of that of the configuration with which the record begins. Refusals: as `sipd_telling::begin` says, where the record has no configuration;
/// `Memory`, at any point.
fn table_at<T: Timers, P: Rules, I: TellingReader>(
    alloc: Global,
    table: DayTable,
    head: &RecordHead,
    named: Option<&Stated>,
    events: &mut I,
    form: Option<Notation>,
    time: Option<u64>,
    clock: Option<DayClock>,
) -> Result<DayAt, Exit>
    requires { IfSome time (λ t. t < 2 ^ 50) }
    ensures shown { IfOk result (λ day. IsTableAt table form head.now named.entry (I.has_failed events.new) (I.asked events.old) (I.asked events.new)
        (I.remaining events.old) time (option_map (λ c. c.ahead) clock) day.text day.taken.ahead day.in_force.ahead day.end) }
    ensures refused { IfErr result (IsNoDay head.now named.entry (I.has_failed events.new) (I.asked events.old) (I.asked events.new) (I.remaining events.old)) }
{
    what_is_told_is_lawful();
    phones_grow_by_a_step();
    calls_grow_by_a_step();
    sources_grow_by_a_step();
    let mut telling = begin::<T, P, I>(alloc, head, named, events)?;
    let taken = clock_by(&telling.engine, clock);
    tell_table(alloc, table, &mut telling, events, form, time, taken)
}

/// The same of a record, whatever it holds.
pub(crate) fn table_of<T: Timers, P: Rules, I: TellingReader>(
    alloc: Global,
    table: DayTable,
    head: &RecordHead,
    named: Option<&Stated>,
    events: &mut I,
    form: Option<Notation>,
    time: Option<u64>,
    clock: Option<DayClock>,
) -> Result<DayAt, Exit>
    requires { IfSome time (λ t. t < 2 ^ 50) }
    ensures { IfOk result (λ day. WasTableIf table form time (option_map (λ c. c.ahead) clock) day.text day.taken.ahead day.in_force.ahead day.end) }
{
    table_at::<T, P, I>(alloc, table, head, named, events, form, time, clock)
}
