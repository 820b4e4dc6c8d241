//! What may begin a new record between two turns, while the server serves on.
ghost use Rattle.sipd_service.specs.NextRecords.{MayGoOver};

use sip_loop::engine::Engine;
use sip_policy::Rules;
use sip_timers::Timers;
use sipd_old_record::WatchedJournal;
use std::io::Write;

/// What begins a new record where it is time for one. The server to which that leads serves from then on in place of the one that served: it goes
/// on alike.
pub trait NextRecord<T: Timers, P: Rules, J: WatchedJournal>: Drop {
    /// Looks whether it is time for a new record, at a moment in milliseconds, and begins one then, under the configuration in force, whose file
    /// has these bytes. Where it can't be begun, that is said, and the server goes on in the one that it has.
    fn look<M: Write>(
        &mut self,
        engine: &mut Engine<T, P>,
        journal: &mut J,
        stated: &[u8],
        now: u64,
        complaints: &mut M,
    )
        ensures { MayGoOver stated.now engine.old engine.new (J.written journal.old) (J.written journal.new) };
}

/// One record alone, or none.
#[derive(Clone, Copy, Drop)]
pub struct OneRecord;

impl<T: Timers, P: Rules, J: WatchedJournal> NextRecord<T, P, J> for OneRecord {
    fn look<M: Write>(
        &mut self,
        _engine: &mut Engine<T, P>,
        _journal: &mut J,
        _stated: &[u8],
        _now: u64,
        _complaints: &mut M,
    ) {}
}
