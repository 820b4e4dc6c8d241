//! What every trial of `serve` is made of: an engine with the sample, a link, a recorder, and the readings of a clock.
use crate::counting::Counting;
use crate::datagrams::Datagram;
use sip_config_types::sample;
use sip_event::Boot;
use sip_journal::{OnFault, Recorder};
use sip_loop::engine::Engine;
use sip_loop::{AuditLog, NoAudit, ServeError, serve};
use sip_policy_index::IndexedRules;
use sip_replay_print::NoSink;
use sip_replay_script::ScriptLines;
use sip_resume::{RecordError, resume_record};
use sip_timers_wheel::WheelTimers;
use sip_transport::{Given, Link, MemoryClock, MemoryLink, SendOutcome};
use std::alloc::{AllocError, Global};

/// The most bytes of a configuration in a record, where a trial names no others.
pub const LONGEST: usize = 65_536;

/// The engine of the program.
type TrialServer = Engine<WheelTimers, IndexedRules>;

/// An engine with the sample configuration, and what it is served with.
pub struct Trial<L: Link> {
    alloc: Global,
    engine: TrialServer,
    link: L,
    record: Recorder<Vec<u8>>,
    clock: MemoryClock,
    words: Counting,
}

/// Written out, so that it is proved once and not wherever one is dropped.
impl<L: Link> Drop for Trial<L> {
    fn drop(self) {
        let Trial {
            alloc: _,
            engine: _,
            link: _,
            record: _,
            clock: _,
            words: _,
        } = self;
    }
}

impl<L: Link> Trial<L> {
    /// The first datagram has this number; the clock gives these readings.
    pub fn new(alloc: Global, first: u64, link: L, readings: &[u64]) -> Result<Self, AllocError> {
        let boot = Boot {
            word: 0,
            first,
            keys: 0,
        };
        let engine = TrialServer::open(alloc, sample(alloc)?, boot)?;
        let record = Recorder::new(alloc, Vec::new(alloc), OnFault::End)?;
        let readings = Vec::from_slice(alloc, readings)?;
        Ok(Trial {
            alloc,
            engine,
            link,
            record,
            clock: MemoryClock::new(readings),
            words: Counting::new(),
        })
    }

    /// Serves, and prints decisions on this.
    pub fn serve_on<A: AuditLog>(&mut self, audit: &mut A, turns: u32) -> Result<(), ServeError> {
        serve(
            self.alloc,
            &mut self.engine,
            &mut self.link,
            &mut self.record,
            audit,
            &mut self.clock,
            &mut self.words,
            turns,
        )
    }

    /// Serves for so many turns.
    pub fn serve(&mut self, turns: u32) -> Result<(), ServeError> {
        self.serve_on(&mut NoAudit, turns)
    }

    /// Takes a record that may hold configurations, of at most so many bytes each; how many of its lines were taken.
    pub fn resume(&mut self, mut record: &[u8], longest: usize) -> Result<u64, RecordError> {
        let Ok(mut lines) = ScriptLines::new(self.alloc) else {
            return Err(RecordError::NoMemory);
        };
        let resumed = resume_record(
            self.alloc,
            &mut self.engine,
            &mut lines,
            &mut record,
            longest,
            &mut self.record,
            &mut NoSink,
        )?;
        Ok(resumed.lines)
    }

    /// Nothing can be written to its record any more.
    pub fn fill_record(&mut self) {
        self.record.has_failed = true;
    }

    /// What was recorded.
    pub fn recorded(&self) -> &[u8] {
        self.record.writer.as_slice()
    }
}

/// What comes over memory: the number of the first datagram, what the link hears, and what the clock gives.
#[derive(Clone, Copy)]
pub struct Course {
    pub first: u64,
    pub heard: &'static [Datagram],
    pub readings: &'static [u64],
}

/// At which calls the link fails, by their numbers.
#[derive(Clone, Copy)]
pub enum Fails {
    Never,
    Receives(&'static [u64]),
    Sends(&'static [u64]),
}

impl Fails {
    fn receives(self) -> &'static [u64] {
        match self {
            Fails::Receives(numbers) => numbers,
            Fails::Never | Fails::Sends(_) => &[],
        }
    }

    fn sends(self) -> &'static [u64] {
        match self {
            Fails::Sends(numbers) => numbers,
            Fails::Never | Fails::Receives(_) => &[],
        }
    }
}

/// Whether this is the datagram that was given, and what became of it.
fn is(given: &Given, wanted: Datagram, sending: SendOutcome) -> bool {
    given.to == wanted.addr()
        && given.bytes.as_slice() == wanted.bytes()
        && given.sending == sending
}

/// Whether these are the datagrams that were given.
fn are(given: &[Given], wanted: &[(Datagram, SendOutcome)]) -> bool {
    for (given, (datagram, sending)) in given.iter().zip(wanted) {
        if !is(given, *datagram, *sending) {
            return false;
        }
    }
    given.len() == wanted.len()
}

impl Trial<MemoryLink> {
    /// Whether the link was given these behind so many, and nothing else.
    pub fn gave(&self, behind: usize, wanted: &[(Datagram, SendOutcome)]) -> bool {
        match self.link.given().get(behind..) {
            Some(given) => are(given, wanted),
            None => false,
        }
    }
}

fn hear_all(link: &mut MemoryLink, heard: &[Datagram]) -> Result<(), AllocError> {
    for datagram in heard {
        link.hear(datagram.addr(), datagram.bytes())?;
    }
    Ok(())
}

fn link(alloc: Global, heard: &[Datagram], fails: Fails) -> Result<MemoryLink, AllocError> {
    let receive_fails = Vec::from_slice(alloc, fails.receives())?;
    let send_fails = Vec::from_slice(alloc, fails.sends())?;
    let mut link = MemoryLink::new(alloc, receive_fails, send_fails);
    hear_all(&mut link, heard)?;
    Ok(link)
}

/// A trial over memory.
pub fn over_memory(
    alloc: Global,
    course: &Course,
    fails: Fails,
) -> Result<Trial<MemoryLink>, AllocError> {
    let link = link(alloc, course.heard, fails)?;
    Trial::new(alloc, course.first, link, course.readings)
}
