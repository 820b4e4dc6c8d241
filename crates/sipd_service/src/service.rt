//! The turns of a serving program: it looks at record and configuration, begins a new record where it is time for one, waits until a datagram comes or something is due, and serves.
//! One turn itself is `serve` of `sip_loop`.
ghost use Rattle.std.specs.Prelude.{◌≡◌, ◌^◌, ◌-◌, [], false, None, IfErr, IfNone, IfSome, IsSome, OnErr, OnOk};
ghost use Rattle.std.specs.Io.KnownBytes.{Appends};
ghost use Rattle.sip_journal.specs.Record.{Notes};
ghost use Rattle.sipd_exit.specs.Exits.{IsPrintFault};
ghost use Rattle.sipd_service.specs.Exits;
ghost use Rattle.sipd_service.specs.NextRecords;
ghost use Rattle.sipd_service.specs.NextRecords.{MayGoOver};
ghost use Rattle.sipd_service.specs.Printing.{PrintsServed, start_text};
ghost use Rattle.sipd_service.specs.Reloads.{FollowsHops, IsUnnoted, MayChange};
ghost use Rattle.sipd_service.specs.Turns.{AreTurns, EndsCounted, EndsEarly, EndsTurn, EndsWithin, IsTurn, Serves, ServesCounted, service_seen};

use crate::line_printer::LinePrinter;
use crate::next_record::NextRecord;
use crate::reloading::reload;
use crate::status_turn::{SizedJournal, counts_of, keep_status};
use crate::unheard_lines::{count_unheard, tell_unheard};
use rand_core::Rng;
use sip_audit::Record;
use sip_guard::Guard;
use sip_journal::JournalFault;
use sip_loop::engine::Engine;
use sip_loop::{AuditFault, AuditLog, ServeError, serve};
use sip_policy::Rules;
use sip_text::Bytes;
use sip_timers::Timers;
use sip_transport::{Clock, Link};
use sip_uri::Addr;
use sipd_exit::{DeviceFault, Exit};
use sipd_old_record::{Unrecorded, WatchedJournal};
use sipd_reload::{Watch, WatchedFile};
use sipd_status::{Status, StatusPlace};
use std::alloc::Global;
use std::io::Write;

/// The most milliseconds between two lines on what wasn't heard: they come once a minute at most.
const MINUTE: u64 = 60_000;

/// The fewest milliseconds between two looks at the record's file.
const SECOND: u64 = 1000;

/// A server, and what drives it.
pub struct Service<
    T: Timers,
    P: Rules,
    L: Link,
    C: Clock,
    J: WatchedJournal,
    X: NextRecord<T, P, J>,
    N: Rng + Drop,
    F: WatchedFile,
    S: StatusPlace,
> {
    pub engine: Engine<T, P>,
    pub link: Guard<L, C>,
    pub journal: J,
    pub clock: C,
    pub words: N,
    /// What looks at the configuration's file, where it may change while the service runs.
    pub watch: Option<Watch<F>>,
    /// The port that is bound.
    pub port: u16,
    /// The path of that file, as it was given.
    pub path: Bytes,
    /// What begins a new record where it is time for one.
    pub next: X,
    /// The bytes of the configuration with which it began.
    pub stated: Bytes,
    pub said: Said,
    /// What is kept for those who look on, where that is asked for.
    pub status: Option<Status<S>>,
}

/// Lets a watch go. It stands apart, so that its cases don't stand beside those of all else that a service has.
fn let_go<F: WatchedFile>(_watch: Option<Watch<F>>) {}

/// Written out, so that it is proved once and not wherever one is dropped.
impl<
    T: Timers,
    P: Rules,
    L: Link,
    C: Clock,
    J: WatchedJournal,
    X: NextRecord<T, P, J>,
    N: Rng + Drop,
    F: WatchedFile,
    S: StatusPlace,
> Drop for Service<T, P, L, C, J, X, N, F, S> {
    fn drop(self) {
        let Service {
            engine: _,
            link: _,
            journal: _,
            clock: _,
            words: _,
            watch,
            port: _,
            path: _,
            next: _,
            stated: _,
            said: _,
            status: _,
        } = self;
        let_go(watch);
    }
}

/// Where it serves, what was decided before and may not have been printed, and how many turns there are; as many as come where none
/// are named.
#[derive(Clone, Copy)]
pub struct Serving<'a> {
    pub address: Addr,
    pub decided: &'a [Record],
    pub turns: Option<u32>,
}

/// What was complained about and looked at.
#[derive(Clone, Copy)]
pub struct Said {
    /// Whether it was said that the journal failed.
    pub fault: bool,
    /// When it was last said what wasn't heard, in milliseconds.
    pub unheard: u64,
    /// Of how many datagrams that weren't heard it was said.
    pub told: u64,
    /// When the journal was last looked at, in milliseconds.
    pub looked: u64,
}

impl Said {
    /// Nothing yet.
    pub fn new() -> Said {
        Said {
            fault: false,
            unheard: 0,
            told: 0,
            looked: 0,
        }
    }
}

/// How the program ends where a server can't go on, printing having failed by this fault, if it did.
fn exit_of_serve(e: ServeError, fault: DeviceFault) -> Exit
    ensures { result ≡ Exits.exit_of_serve e fault }
{
    match e {
        ServeError::NoMemory => Exit::Memory,
        ServeError::Link | ServeError::Step => Exit::Device(DeviceFault::Other),
        ServeError::Journal => Exit::Recording,
        ServeError::Audit => Exit::Device(fault),
    }
}

/// Looks at the journal, once a second at most.
fn look<J: WatchedJournal>(journal: &mut J, said: &mut Said, now: u64)
    ensures noted { Notes (J.written journal.old) (J.written journal.new) [] }
{
    if now.saturating_sub(said.looked) >= SECOND {
        said.looked = now;
        journal.look();
    }
}

/// What is said of a record that has failed. Where the server ends for that, the program says so at its end.
fn fault_text(why: Unrecorded, goes_on: bool) -> &'static str {
    match (why, goes_on) {
        (Unrecorded::Gone, true) => {
            "sipd: the record's file was taken away or cut; nothing more is recorded\n"
        }
        (Unrecorded::Gone, false) => "sipd: the record's file was taken away or cut\n",
        (Unrecorded::Unwritten, true) => {
            "sipd: the record can't be written; nothing more is recorded\n"
        }
        (Unrecorded::Unwritten, false) => "",
    }
}

/// Says once that the journal failed; where the server goes on without it, in its first line, too.
fn say_fault<J: WatchedJournal, M: Write>(journal: &mut J, said: &mut Said, complaints: &mut M)
    ensures noted { Notes (J.written journal.old) (J.written journal.new) [] }
{
    if said.fault {
        return;
    }
    let Some(why) = journal.why_failed() else {
        return;
    };
    said.fault = true;
    let goes_on = journal.goes_on();
    let _ = complaints.write_all(fault_text(why, goes_on).as_bytes());
    if goes_on && !journal.mark_broken() {
        let _ = complaints.write_all(
            b"sipd: the record can't be marked as broken: let no start go on from it\n",
        );
    }
}

/// Lets the configuration change, where its file is watched, and the hops that the guard hears always with it. The journal's fault is the
/// only refusal.
fn change<T: Timers, P: Rules, L: Link, C: Clock, F: WatchedFile, J: WatchedJournal, M: Write>(
    alloc: Global,
    engine: &mut Engine<T, P>,
    link: &mut Guard<L, C>,
    port: u16,
    path: &[u8],
    watch: &mut Option<Watch<F>>,
    journal: &mut J,
    now: u64,
    complaints: &mut M,
) -> Result<(), JournalFault>
    ensures changed { OnOk result (MayChange port now engine.old.server engine.new.server watch.old watch.new (J.written journal.old) (J.written journal.new)) }
    ensures hears { FollowsHops engine.old.server engine.new.server link.old link.new }
    ensures unnoted { OnErr result (IfSome watch.old (λ watched. IsUnnoted port now engine.old.server engine.new.server watched)) }
    ensures watched { OnErr result (IsSome watch.old) }
    ensures failed { OnErr result (J.written journal.new ≡ None) }
    ensures state { engine.new.state ≡ engine.old.state }
    ensures timers { engine.new.timers ≡ engine.old.timers }
{
    match watch {
        Some(watch) => reload(
            alloc, engine, link, port, path, watch, journal, now, complaints,
        ),
        None => Ok(()),
    }
}

/// The bytes of the configuration in force.
fn in_force<'a, F: WatchedFile>(watch: &'a Option<Watch<F>>, stated: &'a Bytes) -> &'a [u8]
    ensures { result.now ≡ NextRecords.in_force stated.now watch.now }
{
    match watch {
        Some(watch) => watch.in_force(),
        None => stated.as_slice(),
    }
}

/// Lets a new record be begun, where it is time for one.
fn go_over<
    T: Timers,
    P: Rules,
    J: WatchedJournal,
    X: NextRecord<T, P, J>,
    F: WatchedFile,
    M: Write,
>(
    next: &mut X,
    engine: &mut Engine<T, P>,
    journal: &mut J,
    watch: &Option<Watch<F>>,
    stated: &Bytes,
    now: u64,
    complaints: &mut M,
)
    ensures { MayGoOver (NextRecords.in_force stated.now watch.now) engine.old engine.new (J.written journal.old) (J.written journal.new) }
{
    next.look(engine, journal, in_force(watch, stated), now, complaints);
}

/// Says what wasn't heard, once a minute at most.
fn say_unheard<L: Link, C: Clock, M: Write>(
    link: &mut Guard<L, C>,
    said: &mut Said,
    now: u64,
    complaints: &mut M,
)
    ensures link { link.new.link ≡ link.old.link }
{
    if now.saturating_sub(said.unheard) < MINUTE {
        return;
    }
    let count = count_unheard(link);
    if tell_unheard(link, complaints) {
        said.unheard = now;
        said.told = said.told.saturating_add(count);
    }
}

/// Looks at the journal, lets a new record be begun, and lets the configuration change; then waits for a datagram until something is due, and lets the server do one
/// turn, in which it prints its records. Complains about a record that can't be written, and about what wasn't heard. What is kept for those
/// who look on is kept behind the turn. Where a change can't be told to the journal, there is no turn.
fn do_turn<
    T: Timers,
    P: Rules,
    L: Link,
    C: Clock,
    J: WatchedJournal + SizedJournal,
    X: NextRecord<T, P, J>,
    N: Rng + Drop,
    F: WatchedFile,
    S: StatusPlace,
    O: Write + Drop,
    M: Write,
>(
    alloc: Global,
    service: &mut Service<T, P, L, C, J, X, N, F, S>,
    printer: &mut LinePrinter<O>,
    complaints: &mut M,
) -> Result<(), Exit>
    ensures failed { OnOk result (printer.new.has_failed ≡ printer.old.has_failed) }
    ensures turn { OnOk result (IsTurn
        (service_seen service.old.engine service.old.port service.old.watch service.old.stated
        service.old.link (C.readings service.old.clock) (J.written service.old.journal) (J.faulted service.old.journal)
        (N.stream service.old.words) printer.old.has_failed (O.contents printer.old.output))
        (service_seen service.new.engine service.new.port service.new.watch service.new.stated
        service.new.link (C.readings service.new.clock) (J.written service.new.journal) (J.faulted service.new.journal)
        (N.stream service.new.words) printer.new.has_failed (O.contents printer.new.output))) }
    ensures ended { IfErr result (EndsTurn
        (service_seen service.old.engine service.old.port service.old.watch service.old.stated
        service.old.link (C.readings service.old.clock) (J.written service.old.journal) (J.faulted service.old.journal)
        (N.stream service.old.words) printer.old.has_failed (O.contents printer.old.output))
        (service_seen service.new.engine service.new.port service.new.watch service.new.stated
        service.new.link (C.readings service.new.clock) (J.written service.new.journal) (J.faulted service.new.journal)
        (N.stream service.new.words) printer.new.has_failed (O.contents printer.new.output)) printer.new.fault) }
{
    let now = service.clock.now();
    look(&mut service.journal, &mut service.said, now);
    go_over(
        &mut service.next,
        &mut service.engine,
        &mut service.journal,
        &service.watch,
        &service.stated,
        now,
        complaints,
    );
    let changed = change(
        alloc,
        &mut service.engine,
        &mut service.link,
        service.port,
        service.path.as_slice(),
        &mut service.watch,
        &mut service.journal,
        now,
        complaints,
    );
    if changed.is_err() {
        say_fault(&mut service.journal, &mut service.said, complaints);
        return Err(Exit::Recording);
    }
    let due = service.engine.next_due();
    service.link.wait_until_due(due, now);
    let served = serve(
        alloc,
        &mut service.engine,
        &mut service.link,
        &mut service.journal,
        printer,
        &mut service.clock,
        &mut service.words,
        1,
    );
    say_fault(&mut service.journal, &mut service.said, complaints);
    say_unheard(&mut service.link, &mut service.said, now, complaints);
    keep_status(
        alloc,
        &mut service.status,
        counts_of(&service.engine),
        &service.link,
        &service.journal,
        &printer.tally,
        service.said.told,
        now,
        complaints,
    );
    match served {
        Ok(_) => Ok(()),
        Err(e) => Err(exit_of_serve(e, printer.fault())),
    }
}

/// Does so many turns.
fn do_turns<
    T: Timers,
    P: Rules,
    L: Link,
    C: Clock,
    J: WatchedJournal + SizedJournal,
    X: NextRecord<T, P, J>,
    N: Rng + Drop,
    F: WatchedFile,
    S: StatusPlace,
    O: Write + Drop,
    M: Write,
>(
    alloc: Global,
    service: &mut Service<T, P, L, C, J, X, N, F, S>,
    turns: u64,
    printer: &mut LinePrinter<O>,
    complaints: &mut M,
) -> Result<(), Exit>
    ensures failed { OnOk result (printer.new.has_failed ≡ printer.old.has_failed) }
    ensures turns { OnOk result (AreTurns turns
        (service_seen service.old.engine service.old.port service.old.watch service.old.stated
        service.old.link (C.readings service.old.clock) (J.written service.old.journal) (J.faulted service.old.journal)
        (N.stream service.old.words) printer.old.has_failed (O.contents printer.old.output))
        (service_seen service.new.engine service.new.port service.new.watch service.new.stated
        service.new.link (C.readings service.new.clock) (J.written service.new.journal) (J.faulted service.new.journal)
        (N.stream service.new.words) printer.new.has_failed (O.contents printer.new.output))) }
    ensures ended { IfErr result (EndsWithin turns
        (service_seen service.old.engine service.old.port service.old.watch service.old.stated
        service.old.link (C.readings service.old.clock) (J.written service.old.journal) (J.faulted service.old.journal)
        (N.stream service.old.words) printer.old.has_failed (O.contents printer.old.output))
        (service_seen service.new.engine service.new.port service.new.watch service.new.stated
        service.new.link (C.readings service.new.clock) (J.written service.new.journal) (J.faulted service.new.journal)
        (N.stream service.new.words) printer.new.has_failed (O.contents printer.new.output)) printer.new.fault) }
{
    for _ in 0..turns {
        do_turn(alloc, service, printer, complaints)?;
    }
    Ok(())
}

/// Prints where it serves, and the records that were decided before it was begun and may not have been printed.
fn print_start<O: Write + Drop>(
    address: Addr,
    records: &[Record],
    printer: &mut LinePrinter<O>,
) -> Result<(), Exit>
    ensures printed { OnOk result (Appends (O.contents printer.old.output) (O.contents printer.new.output) (start_text address records.now)) }
    ensures failed { OnOk result (printer.new.has_failed ≡ false) }
    ensures refused { IfErr result IsPrintFault }
{
    printer.print_serving(address)?;
    match printer.print(records) {
        Ok(()) => Ok(()),
        Err(AuditFault::NoMemory) => Err(Exit::Memory),
        Err(AuditFault::Device) => Err(Exit::Device(printer.fault())),
    }
}

/// Prints the start, and does so many turns.
fn serve_on<
    T: Timers,
    P: Rules,
    L: Link,
    C: Clock,
    J: WatchedJournal + SizedJournal,
    X: NextRecord<T, P, J>,
    N: Rng + Drop,
    F: WatchedFile,
    S: StatusPlace,
    O: Write + Drop,
    M: Write,
>(
    alloc: Global,
    service: &mut Service<T, P, L, C, J, X, N, F, S>,
    served: &Serving<'_>,
    turns: u64,
    printer: &mut LinePrinter<O>,
    complaints: &mut M,
) -> Result<(), Exit>
    ensures served { OnOk result (Serves served.now.address served.now.decided.now turns
        (service_seen service.old.engine service.old.port service.old.watch service.old.stated
        service.old.link (C.readings service.old.clock) (J.written service.old.journal) (J.faulted service.old.journal)
        (N.stream service.old.words) printer.old.has_failed (O.contents printer.old.output))
        (service_seen service.new.engine service.new.port service.new.watch service.new.stated
        service.new.link (C.readings service.new.clock) (J.written service.new.journal) (J.faulted service.new.journal)
        (N.stream service.new.words) printer.new.has_failed (O.contents printer.new.output))
        (O.contents printer.old.output) (O.contents printer.new.output)) }
    ensures ended { IfErr result (EndsEarly served.now.address served.now.decided.now turns
        (service_seen service.old.engine service.old.port service.old.watch service.old.stated
        service.old.link (C.readings service.old.clock) (J.written service.old.journal) (J.faulted service.old.journal)
        (N.stream service.old.words) printer.old.has_failed (O.contents printer.old.output))
        (service_seen service.new.engine service.new.port service.new.watch service.new.stated
        service.new.link (C.readings service.new.clock) (J.written service.new.journal) (J.faulted service.new.journal)
        (N.stream service.new.words) printer.new.has_failed (O.contents printer.new.output))
        (O.contents printer.old.output) printer.new.fault) }
{
    print_start(served.address, served.decided, printer)?;
    do_turns(alloc, service, turns, printer, complaints)
}

/// Does the same for so many turns, and says then that they are over.
fn serve_counted<
    T: Timers,
    P: Rules,
    L: Link,
    C: Clock,
    J: WatchedJournal + SizedJournal,
    X: NextRecord<T, P, J>,
    N: Rng + Drop,
    F: WatchedFile,
    S: StatusPlace,
    O: Write + Drop,
    M: Write,
>(
    alloc: Global,
    service: &mut Service<T, P, L, C, J, X, N, F, S>,
    served: &Serving<'_>,
    turns: u32,
    printer: &mut LinePrinter<O>,
    complaints: &mut M,
) -> Result<(), Exit>
    ensures served { OnOk result (ServesCounted served.now.address served.now.decided.now turns
        (service_seen service.old.engine service.old.port service.old.watch service.old.stated
        service.old.link (C.readings service.old.clock) (J.written service.old.journal) (J.faulted service.old.journal)
        (N.stream service.old.words) printer.old.has_failed (O.contents printer.old.output))
        (service_seen service.new.engine service.new.port service.new.watch service.new.stated
        service.new.link (C.readings service.new.clock) (J.written service.new.journal) (J.faulted service.new.journal)
        (N.stream service.new.words) printer.new.has_failed (O.contents printer.new.output))
        (O.contents printer.old.output) (O.contents printer.new.output)) }
    ensures printed { OnOk result (PrintsServed served.now.address served.now.decided.now turns (O.contents printer.old.output) (O.contents printer.new.output)) }
    ensures ended { IfErr result (EndsCounted served.now.address served.now.decided.now turns
        (service_seen service.old.engine service.old.port service.old.watch service.old.stated
        service.old.link (C.readings service.old.clock) (J.written service.old.journal) (J.faulted service.old.journal)
        (N.stream service.old.words) printer.old.has_failed (O.contents printer.old.output))
        (service_seen service.new.engine service.new.port service.new.watch service.new.stated
        service.new.link (C.readings service.new.clock) (J.written service.new.journal) (J.faulted service.new.journal)
        (N.stream service.new.words) printer.new.has_failed (O.contents printer.new.output))
        (O.contents printer.old.output) printer.new.fault) }
{
    serve_on(
        alloc,
        service,
        served,
        u64::from(turns),
        printer,
        complaints,
    )?;
    printer.print_turns(turns)
}

/// Serves at an address, for so many turns, or until the process is ended. Prints where it serves, what was decided before, the
/// record of each decision before what it decides is sent, and the number of turns at their end; nothing else. Each turn waits as long as
/// nothing is due, a second at most, and is one of `sip_loop::serve`.
pub fn serve_turns<
    T: Timers,
    P: Rules,
    L: Link,
    C: Clock,
    J: WatchedJournal + SizedJournal,
    X: NextRecord<T, P, J>,
    N: Rng + Drop,
    F: WatchedFile,
    S: StatusPlace,
    O: Write + Drop,
    M: Write,
>(
    alloc: Global,
    service: &mut Service<T, P, L, C, J, X, N, F, S>,
    served: &Serving<'_>,
    printer: &mut LinePrinter<O>,
    complaints: &mut M,
) -> Result<(), Exit>
    ensures served { IfSome served.now.turns (λ turns. OnOk result (ServesCounted served.now.address served.now.decided.now turns
        (service_seen service.old.engine service.old.port service.old.watch service.old.stated
        service.old.link (C.readings service.old.clock) (J.written service.old.journal) (J.faulted service.old.journal)
        (N.stream service.old.words) printer.old.has_failed (O.contents printer.old.output))
        (service_seen service.new.engine service.new.port service.new.watch service.new.stated
        service.new.link (C.readings service.new.clock) (J.written service.new.journal) (J.faulted service.new.journal)
        (N.stream service.new.words) printer.new.has_failed (O.contents printer.new.output))
        (O.contents printer.old.output) (O.contents printer.new.output))) }
    ensures printed { IfSome served.now.turns (λ turns. OnOk result (PrintsServed served.now.address served.now.decided.now turns
        (O.contents printer.old.output) (O.contents printer.new.output))) }
    ensures ended { IfSome served.now.turns (λ turns. IfErr result (EndsCounted served.now.address served.now.decided.now turns
        (service_seen service.old.engine service.old.port service.old.watch service.old.stated
        service.old.link (C.readings service.old.clock) (J.written service.old.journal) (J.faulted service.old.journal)
        (N.stream service.old.words) printer.old.has_failed (O.contents printer.old.output))
        (service_seen service.new.engine service.new.port service.new.watch service.new.stated
        service.new.link (C.readings service.new.clock) (J.written service.new.journal) (J.faulted service.new.journal)
        (N.stream service.new.words) printer.new.has_failed (O.contents printer.new.output))
        (O.contents printer.old.output) printer.new.fault)) }
    ensures endless { IfNone served.now.turns (OnOk result (Serves served.now.address served.now.decided.now (2 ^ 64 - 1)
        (service_seen service.old.engine service.old.port service.old.watch service.old.stated
        service.old.link (C.readings service.old.clock) (J.written service.old.journal) (J.faulted service.old.journal)
        (N.stream service.old.words) printer.old.has_failed (O.contents printer.old.output))
        (service_seen service.new.engine service.new.port service.new.watch service.new.stated
        service.new.link (C.readings service.new.clock) (J.written service.new.journal) (J.faulted service.new.journal)
        (N.stream service.new.words) printer.new.has_failed (O.contents printer.new.output))
        (O.contents printer.old.output) (O.contents printer.new.output))) }
    ensures ended_endless { IfNone served.now.turns (IfErr result (EndsEarly served.now.address served.now.decided.now (2 ^ 64 - 1)
        (service_seen service.old.engine service.old.port service.old.watch service.old.stated
        service.old.link (C.readings service.old.clock) (J.written service.old.journal) (J.faulted service.old.journal)
        (N.stream service.old.words) printer.old.has_failed (O.contents printer.old.output))
        (service_seen service.new.engine service.new.port service.new.watch service.new.stated
        service.new.link (C.readings service.new.clock) (J.written service.new.journal) (J.faulted service.new.journal)
        (N.stream service.new.words) printer.new.has_failed (O.contents printer.new.output))
        (O.contents printer.old.output) printer.new.fault)) }
{
    match served.turns {
        Some(turns) => serve_counted(alloc, service, served, turns, printer, complaints),
        None => serve_on(alloc, service, served, u64::MAX, printer, complaints),
    }
}
