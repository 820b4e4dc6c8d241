//! The addresses of a day, kept while it is told.
ghost use Rattle.std.specs.Prelude.{◌≡◌, ◌++◌, IfOk, OnOk};
ghost use Rattle.sipd_sources.specs.Told as Definitions;
ghost use Rattle.sipd_sources.specs.Told.{held, names_in};

use crate::asked::{Asked, asked_in};
use crate::filter::SourceFilter;
use crate::source::{Mark, Source, SourceMoment, number_of};
use sip_config_types::Config;
use sip_event::{Event, StepOut};
use sip_listener::Listener;
use sip_replay_script::PrintStop;
use sip_text::Bytes;
use std::alloc::{AllocError, Global};
use std::collections::{BTreeMap, BTreeSet};
use std::marker::Model;

/// What each IPv4 address did on a day from which datagrams came that are counted, as far as the day was told.
pub struct Sources {
    alloc: Global,
    filter: SourceFilter,
    /// By the numbers of the addresses.
    rows: BTreeMap<u32, Source>,
    /// The names that were tried, each behind the four bytes of its address.
    tried: BTreeSet<Vec<u8>>,
}

/// Written out, so that it is proved once and not wherever one is dropped.
impl Drop for Sources {
    fn drop(self) {
        let Sources {
            alloc: _,
            filter: _,
            rows: _,
            tried: _,
        } = self;
    }
}

impl Model for Sources {
    ghost use Rattle.sipd_sources.specs.Told.{Known, held, names_in};

    ghost Value = { Known };

    ghost view = { λ s. held s.filter s.rows.entries (names_in s.tried.keys) };
}

impl Sources {
    /// None yet. Takes no memory.
    pub fn new(alloc: Global, filter: SourceFilter) -> Self
        ensures { result ≡ Definitions.none filter }
    {
        Sources {
            alloc,
            filter,
            rows: BTreeMap::new(alloc),
            tried: BTreeSet::new(alloc),
        }
    }

    /// The addresses, by their numbers.
    pub(crate) fn into_rows(self) -> BTreeMap<u32, Source>
        ensures { result.entries ≡ self.rows }
    {
        let Sources {
            alloc: _,
            filter: _,
            rows,
            tried: _,
        } = self;
        rows
    }
}

/// What is known of an address; of a new one nothing.
fn known(rows: &BTreeMap<u32, Source>, ip: [u8; 4], moment: SourceMoment) -> Source
    ensures { result ≡ Definitions.known_of ip moment rows.now.entries }
{
    let number = number_of(ip);
    match rows.get(&number) {
        Some(source) => *source,
        None => Source::silent(ip, moment),
    }
}

/// Counts a datagram to its address.
fn count(
    rows: &mut BTreeMap<u32, Source>,
    ip: [u8; 4],
    moment: SourceMoment,
    mark: Mark,
) -> Result<(), AllocError>
    ensures { OnOk result (rows.new.entries ≡ Definitions.rows_with ip moment mark rows.old.entries) }
{
    let source = known(rows, ip, moment).hearing(moment, mark);
    rows.insert(number_of(ip), source)?;
    Ok(())
}

/// An address and a name, as one text.
fn tried_text(alloc: Global, ip: [u8; 4], name: &[u8]) -> Result<Vec<u8>, AllocError>
    ensures { IfOk result (λ text. text.items ≡ ip ++ name.now) }
{
    let mut text = Vec::from_slice(alloc, ip.as_slice())?;
    text.extend_from_slice(name)?;
    Ok(text)
}

/// Keeps a name that an address tried, and says whether it is a new one.
fn try_name(
    alloc: Global,
    tried: &mut BTreeSet<Vec<u8>>,
    ip: [u8; 4],
    name: &[u8],
) -> Result<bool, AllocError>
    ensures new { IfOk result (λ is_new. is_new ≡ Definitions.is_new (ip ++ name.now) (names_in tried.old.keys)) }
    ensures tried { OnOk result (names_in tried.new.keys ≡ Definitions.with_text (ip ++ name.now) (names_in tried.old.keys)) }
{
    let text = tried_text(alloc, ip, name)?;
    let is_new = tried.insert(text)?;
    Ok(is_new)
}

/// The same, if a datagram tried one.
fn try_if_named(
    alloc: Global,
    tried: &mut BTreeSet<Vec<u8>>,
    ip: [u8; 4],
    name: &Option<Bytes>,
) -> Result<bool, AllocError>
    ensures new { IfOk result (λ is_new. is_new ≡ Definitions.tries_new ip name.now (names_in tried.old.keys)) }
    ensures tried { OnOk result (names_in tried.new.keys ≡ Definitions.tried_with ip name.now (names_in tried.old.keys)) }
{
    match name {
        Some(name) => try_name(alloc, tried, ip, name.as_slice()),
        None => Ok(false),
    }
}

/// Tells of a datagram from an address, of which this came.
fn tell_asked(
    alloc: Global,
    rows: &mut BTreeMap<u32, Source>,
    tried: &mut BTreeSet<Vec<u8>>,
    ip: [u8; 4],
    moment: SourceMoment,
    asked: &Asked,
) -> Result<(), AllocError>
    ensures rows { OnOk result (rows.new.entries ≡ Definitions.rows_with ip moment (Definitions.mark_of ip asked.now (names_in tried.old.keys)) rows.old.entries) }
    ensures tried { OnOk result (names_in tried.new.keys ≡ Definitions.tried_with ip asked.now.name (names_in tried.old.keys)) }
{
    let is_new = try_if_named(alloc, tried, ip, &asked.name)?;
    let mark = Mark {
        challenged: asked.challenged,
        proven: asked.proven,
        wrong: asked.wrong,
        is_new,
    };
    count(rows, ip, moment, mark)
}

/// When a step was, and on which clock of the office.
fn moment_of(config: &Config, out: &StepOut) -> SourceMoment
    ensures { result ≡ Definitions.moment_of config.now out.now }
{
    SourceMoment {
        at: out.at,
        offset: config.offset,
    }
}

/// Tells of a datagram, if it is counted.
fn tell_datagram(
    alloc: Global,
    filter: SourceFilter,
    rows: &mut BTreeMap<u32, Source>,
    tried: &mut BTreeSet<Vec<u8>>,
    config: &Config,
    ip: [u8; 4],
    bytes: &[u8],
    out: &StepOut,
) -> Result<(), AllocError>
    ensures { OnOk result (held filter rows.new.entries (names_in tried.new.keys)
        ≡ Definitions.heard_from config.now out.now ip bytes.now (held filter rows.old.entries (names_in tried.old.keys))) }
{
    let moment = moment_of(config, out);
    let counts = filter.takes(moment, ip);
    if !counts {
        return Ok(());
    }
    let asked = asked_in(alloc, config.realm.as_slice(), bytes, out)?;
    tell_asked(alloc, rows, tried, ip, moment, &asked)
}

/// Tells of an event.
fn tell_event(
    alloc: Global,
    filter: SourceFilter,
    rows: &mut BTreeMap<u32, Source>,
    tried: &mut BTreeSet<Vec<u8>>,
    config: &Config,
    event: &Event,
    out: &StepOut,
) -> Result<(), AllocError>
    ensures { OnOk result (held filter rows.new.entries (names_in tried.new.keys)
        ≡ Definitions.heard_by config.now out.now event.now (held filter rows.old.entries (names_in tried.old.keys))) }
{
    match event {
        Event::Datagram { from, bytes, .. } => tell_datagram(
            alloc,
            filter,
            rows,
            tried,
            config,
            from.ip,
            bytes.as_slice(),
            out,
        ),
        Event::Time { .. } => Ok(()),
        Event::Fault { .. } => Ok(()),
    }
}

/// Tells of a step.
fn tell_step(
    alloc: Global,
    filter: SourceFilter,
    rows: &mut BTreeMap<u32, Source>,
    tried: &mut BTreeSet<Vec<u8>>,
    config: &Config,
    event: &Option<Event>,
    out: &StepOut,
) -> Result<(), AllocError>
    ensures { OnOk result (held filter rows.new.entries (names_in tried.new.keys)
        ≡ Definitions.known_by config.now out.now event.now (held filter rows.old.entries (names_in tried.old.keys))) }
{
    match event {
        Some(event) => tell_event(alloc, filter, rows, tried, config, event, out),
        None => Ok(()),
    }
}

impl Listener for Sources {
    ghost use Rattle.std.specs.Prelude.{⊤};
    ghost use Rattle.sipd_sources.specs.Told.{adds_sources};

    ghost hears = { adds_sources };

    ghost refuses = { λ _ _ _. ⊤ };

    ghost gave_up = { λ _. ⊥ };

    fn hear(
        &mut self,
        config: &Config,
        event: Option<Event>,
        out: StepOut,
    ) -> Result<(), PrintStop> {
        match tell_step(
            self.alloc,
            self.filter,
            &mut self.rows,
            &mut self.tried,
            config,
            &event,
            &out,
        ) {
            Ok(()) => Ok(()),
            Err(_) => Err(PrintStop::NoMemory),
        }
    }
}
