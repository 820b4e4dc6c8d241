//! The command `serve` carried out: the configuration is read, the address bound, the record begun, and a guard put over the socket.
//! The turns themselves are in `sipd_service`.
ghost use Rattle.std.specs.Prelude.{◌≡◌, [], IfOk, OnOk, string_bytes};
ghost use Rattle.sip_guard.specs.Guard.{guard_over, link_told};
ghost use Rattle.sipd_boot.specs.Boots.{behind_secret, secret_from};
ghost use Rattle.sipd_service.specs.Hops.{hop_addresses};
ghost use Rattle.sipd_command.specs.Starts.{bound_address, decided_before, PrintsAt, PrintsFor, PrintsSomewhere};

use crate::beside::{Beside, BesideFiles, beside_of};
use crate::record_turning::RecordTurning;
use rand::rngs::StdRng;
use rand_core::Rng;
use sip_audit::Record;
use sip_config_types::Config;
use sip_event::StepOut;
use sip_guard::Guard;
use sip_journal::{NoJournal, Recorder};
use sip_policy::Rules;
use sip_record_omitted::Expanding;
use sip_record_sealed::Unsealing;
use sip_replay_script::TellingReader;
use sip_text::Bytes;
use sip_timers::Timers;
use sip_transport::{Clock, Link, SteadyClock, UdpLink};
use sip_uri::Addr;
use sipd_arguments::ServeCall;
use sipd_boot::secret;
use sipd_exit::{DeviceFault, Exit, RecordPlace, Stated, config_of_bytes, stated_in};
use sipd_old_record::{RecordFile, WatchedJournal};
use sipd_progress::Watched;
use sipd_reload::WatchedFile;
use sipd_service::engine::Engine;
use sipd_service::{
    LinePrinter, NextRecord, OneRecord, Said, Service, Serving, SizedJournal, hops_of, serve_turns,
};
use sipd_start::{Beginning, Begun, RecordFolder, begin, begin_unrecorded, check_stack};
use sipd_status::StatusPlace;
use std::alloc::{AllocError, Global};
use std::io::{ErrorKind, Read, Write};
use std::net::Net;
use std::random::RandomSource;
use std::rt;
use std::rt::Files;

/// What a server of one start serves with, beside its engine and its journal.
struct ServeStart<L: Link, N: Rng + Drop> {
    link: L,
    address: Addr,
    /// The path of the configuration's file, as the command line says it.
    path: Bytes,
    /// What that file stated.
    stated: Bytes,
    /// The IP addresses of the configured hops, which are heard however much they send.
    hops: Vec<[u8; 4]>,
    words: N,
    per_source: Option<u32>,
    turns: Option<u32>,
}

/// Written out, so that it is proved once and not wherever one is dropped.
impl<L: Link, N: Rng + Drop> Drop for ServeStart<L, N> {
    fn drop(self) {
        let ServeStart {
            link: _,
            address: _,
            path: _,
            stated: _,
            hops: _,
            words: _,
            per_source: _,
            turns: _,
        } = self;
    }
}

/// What a service has of a start.
#[derive(Drop)]
struct Guarded<L: Link, C: Clock, N: Rng + Drop> {
    link: Guard<L, C>,
    words: N,
    port: u16,
    path: Bytes,
    stated: Bytes,
}

impl<L: Link, N: Rng + Drop> ServeStart<L, N> {
    /// What a service has of it: over its link a guard hears so many datagrams a second from one address as are asked for, and hops always. The
    /// guard's keys are the source's next numbers.
    fn guarded<C: Clock>(self, alloc: Global, aside: C) -> Result<Guarded<L, C, N>, AllocError>
        ensures words { IfOk result (λ guarded. N.stream guarded.words ≡ behind_secret (N.stream self.words)) }
        ensures guard { IfOk result (λ guarded. guarded.link ≡ guard_over (secret_from (N.stream self.words)) self.hops.items self.per_source
            (link_told (L.heard self.link) (L.fresh self.link) (L.aside self.link) (L.given self.link) (L.held self.link)
            (L.waits self.link) (L.receives self.link) (L.failures self.link)) (C.readings aside)) }
        ensures port { IfOk result (λ guarded. guarded.port ≡ self.address.port) }
        ensures path { IfOk result (λ guarded. guarded.path ≡ self.path) }
        ensures stated { IfOk result (λ guarded. guarded.stated ≡ self.stated) }
    {
        let ServeStart {
            link,
            address,
            path,
            stated,
            hops,
            mut words,
            per_source,
            turns: _,
        } = self;
        let keys = secret(&mut words);
        let link = Guard::new(alloc, keys, link, aside, per_source, hops)?;
        Ok(Guarded {
            link,
            words,
            port: address.port,
            path,
            stated,
        })
    }
}

/// Where a configuration says that a server is bound.
fn address_of(config: &Config) -> Addr
    ensures { result ≡ bound_address config.now }
{
    Addr {
        ip: config.own.ip,
        port: config.bound_port,
    }
}

/// A socket that is bound to an address.
fn bind<R: Net + AllocGlobal>(rt: &R, address: Addr) -> Result<UdpLink, Exit> {
    match UdpLink::bind(rt, rt.alloc(), address) {
        Ok(link) => Ok(link),
        Err(e) if e.kind() == ErrorKind::PermissionDenied => {
            Err(Exit::Device(DeviceFault::NoRightToPort))
        }
        Err(e) => Err(Exit::from(e)),
    }
}

/// What a server starts with over a link, as a command line and a configuration say.
fn start_of<L: Link, N: Rng + Drop>(
    alloc: Global,
    call: &ServeCall,
    config: &Config,
    stated: &Stated,
    link: L,
    words: N,
) -> Result<ServeStart<L, N>, AllocError>
    ensures link { IfOk result (λ start. start.link ≡ link) }
    ensures address { IfOk result (λ start. start.address ≡ bound_address config.now) }
    ensures path { IfOk result (λ start. start.path ≡ string_bytes call.now.config) }
    ensures stated { IfOk result (λ start. start.stated ≡ stated.now.bytes) }
    ensures hops { IfOk result (λ start. start.hops.items ≡ hop_addresses config.now) }
    ensures words { IfOk result (λ start. start.words ≡ words) }
    ensures per_source { IfOk result (λ start. start.per_source ≡ call.now.per_source) }
    ensures turns { IfOk result (λ start. start.turns ≡ call.now.turns) }
{
    Ok(ServeStart {
        link,
        address: address_of(config),
        path: Bytes::copy(alloc, call.config.as_bytes())?,
        stated: Bytes::copy(alloc, stated.bytes.as_slice())?,
        hops: hops_of(alloc, config)?,
        words,
        per_source: call.per_source,
        turns: call.turns,
    })
}

/// A clock for a server that is at a moment, whatever the wall clock says; complains where that is behind.
fn clock_from<'a, R: rt::Clock, M: Write>(
    rt: &'a R,
    moment: u64,
    complaints: &mut M,
) -> SteadyClock<'a, R>
    ensures { result ≡ record { wall = result.wall; least = moment; passed = 0 } }
{
    let clock = SteadyClock::from(rt, moment);
    let behind = clock.behind();
    if behind > 0 {
        let _ = writeln!(
            complaints,
            "sipd: the clock is {behind} ms behind the record; moments go on from the record's last one"
        );
    }
    clock
}

/// The service of a start.
fn service_of<
    T: Timers,
    P: Rules,
    L: Link,
    C: Clock,
    J: WatchedJournal,
    X: NextRecord<T, P, J>,
    N: Rng + Drop,
    F: WatchedFile,
    S: StatusPlace,
>(
    alloc: Global,
    start: ServeStart<L, N>,
    engine: Engine<T, P>,
    journal: J,
    next: X,
    aside: C,
    clock: C,
    beside: Beside<F, S>,
) -> Result<Service<T, P, L, C, J, X, N, F, S>, AllocError>
    ensures engine { IfOk result (λ service. service.engine ≡ engine) }
    ensures journal { IfOk result (λ service. service.journal ≡ journal) }
    ensures clock { IfOk result (λ service. service.clock ≡ clock) }
    ensures words { IfOk result (λ service. N.stream service.words ≡ behind_secret (N.stream start.words)) }
    ensures guard { IfOk result (λ service. service.link ≡ guard_over (secret_from (N.stream start.words)) start.hops.items start.per_source
        (link_told (L.heard start.link) (L.fresh start.link) (L.aside start.link) (L.given start.link) (L.held start.link)
        (L.waits start.link) (L.receives start.link) (L.failures start.link)) (C.readings aside)) }
    ensures watch { IfOk result (λ service. (service.watch ≡ beside.watch) × (service.port ≡ start.address.port) × (service.path ≡ start.path)) }
    ensures stated { IfOk result (λ service. service.stated ≡ start.stated) }
    ensures status { IfOk result (λ service. service.status ≡ beside.status) }
{
    let Guarded {
        link,
        words,
        port,
        path,
        stated,
    } = start.guarded(alloc, aside)?;
    let (watch, status) = beside.apart();
    Ok(Service {
        engine,
        link,
        journal,
        clock,
        words,
        watch,
        port,
        path,
        next,
        stated,
        said: Said::new(),
        status,
    })
}

/// Serves with an engine whose events are told to a journal. Prints first what was decided before and may not have been printed.
fn serve_with<
    T: Timers,
    P: Rules,
    R: Files + rt::Clock + AllocGlobal,
    J: WatchedJournal + SizedJournal,
    X: NextRecord<T, P, J>,
    W: Write + Drop,
    M: Write,
>(
    rt: &R,
    start: ServeStart<UdpLink, StdRng>,
    engine: Engine<T, P>,
    journal: J,
    next: X,
    decided: &[Record],
    beside: BesideFiles<'_, R>,
    printer: &mut LinePrinter<W>,
    complaints: &mut M,
) -> Result<(), Exit>
    ensures { OnOk result (PrintsFor start.turns start.address decided.now (W.contents printer.old.output) (W.contents printer.new.output)) }
{
    let alloc = rt.alloc();
    let clock = clock_from(rt, engine.moment(), complaints);
    let serving = Serving {
        address: start.address,
        decided,
        turns: start.turns,
    };
    let aside = SteadyClock::new(rt);
    let mut service = service_of(alloc, start, engine, journal, next, aside, clock, beside)?;
    let served = serve_turns(alloc, &mut service, &serving, printer, complaints);
    service.journal.close();
    served
}

/// What the last step of an older record decided, where there is one.
fn decided_by(last: &Option<StepOut>) -> &[Record]
    ensures { result.now ≡ decided_before last.now }
{
    match last {
        Some(out) => out.records.as_slice(),
        None => &[],
    }
}

/// Says that nothing is recorded.
fn say_unrecorded<M: Write>(complaints: &mut M) {
    let _ = writeln!(
        complaints,
        "sipd: the record can't be written; nothing is recorded"
    );
}

/// Lets what turns from one record to the next go, where nothing is recorded. It stands apart, so that its cases don't stand beside those of all
/// that a server has.
fn let_turning_go<R>(_turning: Option<RecordTurning<'_, R>>) {}

/// Lets the last step of an older record go. It stands apart, as that.
fn let_last_go(_last: Option<StepOut>) {}

/// Serves with a server that is begun, which records: in one file, or in a folder in which it turns to the next one; or couldn't.
fn serve_begun<
    'a,
    T: Timers,
    P: Rules,
    R: Files + rt::Clock + Eprint + AllocGlobal,
    W: Write + Drop,
    M: Write,
>(
    rt: &'a R,
    start: ServeStart<UdpLink, StdRng>,
    begun: Begun<'a, T, P, R>,
    turning: Option<RecordTurning<'a, R>>,
    beside: BesideFiles<'_, R>,
    printer: &mut LinePrinter<W>,
    complaints: &mut M,
) -> Result<(), Exit>
    ensures { OnOk result (PrintsFor start.turns start.address (decided_before begun.entry.last) (W.contents printer.old.output)
        (W.contents printer.new.output)) }
{
    let (engine, recorder, last) = begun.into_parts();
    let decided = decided_by(&last);
    let Some(recorder) = recorder else {
        let_turning_go(turning);
        say_unrecorded(complaints);
        let served = serve_with(
            rt, start, engine, NoJournal, OneRecord, decided, beside, printer, complaints,
        );
        let_last_go(last);
        return served;
    };
    if let Some(turning) = turning {
        let served = serve_with(
            rt, start, engine, recorder, turning, decided, beside, printer, complaints,
        );
        let_last_go(last);
        return served;
    }
    let served = serve_with(
        rt, start, engine, recorder, OneRecord, decided, beside, printer, complaints,
    );
    let_last_go(last);
    served
}

/// What turns from one record to the next, where a server records in a folder.
fn turning_of<'a, R: Files + rt::Clock + Eprint + AllocGlobal>(
    rt: &'a R,
    call: &ServeCall,
    beginning: &Beginning<'a, R>,
    words: &mut StdRng,
) -> Result<Option<RecordTurning<'a, R>>, AllocError> {
    let Some(RecordPlace::Folder(folder)) = &call.record else {
        return Ok(None);
    };
    let keys = secret(words);
    let folder = RecordFolder::new(
        rt,
        folder.as_str(),
        call.record_fault,
        call.sync,
        call.keep,
        keys,
    )?;
    let path = String::from_str(rt.alloc(), beginning.place.record.path.as_str())?;
    Ok(Some(RecordTurning::new(folder, path)))
}

/// The link of a server, where its address is bound already.
struct Bound {
    link: Option<UdpLink>,
}

/// Written out, so that it is proved once and not wherever one is dropped.
impl Drop for Bound {
    fn drop(self) {
        let Bound { link: _ } = self;
    }
}

impl Bound {
    /// The link alone.
    fn into_link(self) -> Option<UdpLink> {
        let Bound { link } = self;
        link
    }
}

/// The link of a server that records, where its address is bound first.
fn bind_first<R: Files + Net + rt::Clock + AllocGlobal>(
    rt: &R,
    config: &Config,
    beginning: &Beginning<'_, R>,
    bound: &mut Bound,
) -> Result<(), Exit> {
    bound.link = if beginning.reads_input() {
        None
    } else {
        Some(bind(rt, address_of(config))?)
    };
    Ok(())
}

/// The link of a server that may be bound already.
fn bind_last<R: Net + AllocGlobal>(rt: &R, config: &Config, bound: Bound) -> Result<UdpLink, Exit> {
    match bound.into_link() {
        Some(link) => Ok(link),
        None => bind(rt, address_of(config)),
    }
}

/// A server that is begun, and its link, where that is bound already: the address is bound first, unless the server goes on from what the input
/// gives, since until then it is the address of the server whose record comes there.
fn begin_bound<
    'a,
    T: Timers,
    P: Rules,
    R: Files + Net + rt::Clock + Eprint + AllocGlobal,
    I: TellingReader,
    M: Write,
>(
    rt: &'a R,
    config: &Config,
    beginning: &Beginning<'a, R>,
    words: &mut StdRng,
    input: &mut I,
    bound: &mut Bound,
    complaints: &mut M,
) -> Result<Begun<'a, T, P, R>, Exit> {
    bind_first(rt, config, beginning, bound)?;
    begin::<T, P, R, I, _, M>(beginning, input, words, complaints)
}

/// What a server that records starts with over its link, which is bound by then, and what turns from its record to the next.
fn start_recorded<'a, R: Files + Net + rt::Clock + Eprint + AllocGlobal>(
    rt: &'a R,
    call: &ServeCall,
    config: &Config,
    beginning: &Beginning<'a, R>,
    bound: Bound,
    words: StdRng,
) -> Result<(ServeStart<UdpLink, StdRng>, Option<RecordTurning<'a, R>>), Exit>
    ensures turns { IfOk result (λ made. made.0.turns ≡ call.now.turns) }
    ensures address { IfOk result (λ made. made.0.address ≡ bound_address config.now) }
{
    let link = bind_last(rt, config, bound)?;
    let mut start = start_of(rt.alloc(), call, config, beginning.stated, link, words)?;
    let turning = turning_of(rt, call, beginning, &mut start.words)?;
    Ok((start, turning))
}

/// Serves and records.
fn serve_recorded<
    'a,
    T: Timers,
    P: Rules,
    R: Files + Net + rt::Clock + Eprint + AllocGlobal,
    I: TellingReader,
    W: Write + Drop,
    M: Write,
>(
    rt: &'a R,
    call: &ServeCall,
    config: &Config,
    beginning: &Beginning<'a, R>,
    mut words: StdRng,
    beside: BesideFiles<'_, R>,
    input: &mut I,
    printer: &mut LinePrinter<W>,
    complaints: &mut M,
) -> Result<(), Exit>
    ensures { OnOk result (PrintsAt call.now.turns (bound_address config.now) (W.contents printer.old.output) (W.contents printer.new.output)) }
{
    let mut bound = Bound { link: None };
    let begun = begin_bound::<T, P, R, I, M>(
        rt, config, beginning, &mut words, input, &mut bound, complaints,
    )?;
    let (start, turning) = start_recorded(rt, call, config, beginning, bound, words)?;
    serve_begun(rt, start, begun, turning, beside, printer, complaints)
}

/// A server that records nothing, and what it starts with over its link. The address is bound first.
fn begin_alone<T: Timers, P: Rules, R: Net + AllocGlobal>(
    rt: &R,
    call: &ServeCall,
    config: &Config,
    stated: &Stated,
    words: StdRng,
) -> Result<(ServeStart<UdpLink, StdRng>, Engine<T, P>), Exit>
    ensures turns { IfOk result (λ made. made.0.turns ≡ call.now.turns) }
    ensures address { IfOk result (λ made. made.0.address ≡ bound_address config.now) }
{
    let link = bind(rt, address_of(config))?;
    let mut start = start_of(rt.alloc(), call, config, stated, link, words)?;
    let engine = begin_unrecorded::<T, P, _, _>(rt, stated, &mut start.words)?;
    Ok((start, engine))
}

/// Serves, and records nothing.
fn serve_unrecorded<
    T: Timers,
    P: Rules,
    R: Files + Net + rt::Clock + AllocGlobal,
    W: Write + Drop,
    M: Write,
>(
    rt: &R,
    call: &ServeCall,
    config: &Config,
    stated: &Stated,
    words: StdRng,
    beside: BesideFiles<'_, R>,
    printer: &mut LinePrinter<W>,
    complaints: &mut M,
) -> Result<(), Exit>
    ensures { OnOk result (PrintsFor call.now.turns (bound_address config.now) [] (W.contents printer.old.output) (W.contents printer.new.output)) }
{
    let (start, engine) = begin_alone::<T, P, R>(rt, call, config, stated, words)?;
    serve_with(
        rt,
        start,
        engine,
        NoJournal,
        OneRecord,
        &[],
        beside,
        printer,
        complaints,
    )
}

/// What comes through an input as a record.
type Incoming<'b, R, I> = Expanding<Watched<'b, R, Unsealing<&'b mut I>>>;

/// What comes through an input as a record, without the lines that hold digests of it.
fn record_in<'b, R: rt::Clock + Eprint + AllocGlobal, I: Read>(
    rt: &'b R,
    seen: bool,
    input: &'b mut I,
) -> Result<Incoming<'b, R, I>, AllocError> {
    let alloc = rt.alloc();
    let unsealing = Unsealing::new(alloc, input)?;
    let watched = Watched::new(rt, unsealing, "the record that comes", None, seen);
    Expanding::new(alloc, watched)
}

/// What a server that records at a place is begun with, and what comes through an input as a record.
struct Placed<'b, R: rt::Clock + Eprint + AllocGlobal, I: Read> {
    beginning: Beginning<'b, R>,
    record: Incoming<'b, R, I>,
}

/// Written out, so that it is proved once and not wherever one is dropped.
impl<'b, R: rt::Clock + Eprint + AllocGlobal, I: Read> Drop for Placed<'b, R, I> {
    fn drop(self) {
        let Placed {
            beginning: _,
            record: _,
        } = self;
    }
}

/// What a server that records at a place is begun with, and what comes through an input as a record.
fn begun_with<'b, R: Files + rt::Clock + Eprint + AllocGlobal, I: Read>(
    rt: &'b R,
    call: &ServeCall,
    place: &RecordPlace,
    stated: &'b Stated,
    seen: bool,
    input: &'b mut I,
) -> Result<Placed<'b, R, I>, Exit> {
    let beginning = Beginning::new(
        rt,
        stated,
        place,
        call.record_fault,
        call.sync,
        call.keep,
        seen,
    )?;
    let record = record_in(rt, seen, input)?;
    Ok(Placed { beginning, record })
}

/// Serves and records at a place. The record from which the server goes on may come through an input.
fn serve_placed<
    'b,
    T: Timers,
    P: Rules,
    R: Files + Net + rt::Clock + Eprint + AllocGlobal,
    I: Read,
    W: Write + Drop,
    M: Write,
>(
    rt: &'b R,
    call: &ServeCall,
    place: &RecordPlace,
    config: &Config,
    stated: &'b Stated,
    words: StdRng,
    beside: BesideFiles<'_, R>,
    seen: bool,
    input: &'b mut I,
    printer: &mut LinePrinter<W>,
    complaints: &mut M,
) -> Result<(), Exit>
    ensures { OnOk result (PrintsAt call.now.turns (bound_address config.now) (W.contents printer.old.output) (W.contents printer.new.output)) }
{
    let mut placed = begun_with(rt, call, place, stated, seen, input)?;
    let lent = &mut placed;
    serve_recorded::<T, P, R, _, _, M>(
        rt,
        call,
        config,
        &lent.beginning,
        words,
        beside,
        &mut lent.record,
        printer,
        complaints,
    )
}

/// The file of a server's configuration, and what it states.
struct Configured {
    stated: Stated,
    config: Config,
}

/// Written out, so that it is proved once and not wherever one is dropped.
impl Drop for Configured {
    fn drop(self) {
        let Configured {
            stated: _,
            config: _,
        } = self;
    }
}

/// The configuration of a file.
fn configuration_in<R: Files + AllocGlobal>(rt: &R, path: &str) -> Result<Configured, Exit> {
    let alloc = rt.alloc();
    let stated = stated_in(rt, path)?;
    let config = config_of_bytes(alloc, stated.bytes.as_slice())?;
    Ok(Configured { stated, config })
}

/// What a server has before it is bound: its configuration, numbers that nobody knows, and what is looked at and written beside its traffic.
fn prepared<'a, R: Files + RandomSource + AllocGlobal>(
    rt: &'a R,
    call: &'a ServeCall,
) -> Result<(Configured, StdRng, BesideFiles<'a, R>), Exit> {
    check_stack(rt)?;
    let file = configuration_in(rt, call.config.as_str())?;
    let words: StdRng = rand::make_rng(rt)?;
    let beside = beside_of(rt, call, &file.stated)?;
    Ok((file, words, beside))
}

/// Serves with the configuration of a file, for as many turns as a command line asks for.
pub fn serve_file<
    T: Timers,
    P: Rules,
    R: Files + Net + rt::Clock + RandomSource + Eprint + AllocGlobal,
    I: Read,
    W: Write + Drop,
    M: Write,
>(
    rt: &R,
    call: &ServeCall,
    seen: bool,
    input: &mut I,
    printer: &mut LinePrinter<W>,
    complaints: &mut M,
) -> Result<(), Exit>
    ensures { OnOk result (PrintsSomewhere call.now.turns (W.contents printer.old.output) (W.contents printer.new.output)) }
{
    let (file, words, beside) = prepared(rt, call)?;
    let Some(place) = &call.record else {
        return serve_unrecorded::<T, P, R, _, M>(
            rt,
            call,
            &file.config,
            &file.stated,
            words,
            beside,
            printer,
            complaints,
        );
    };
    serve_placed::<T, P, R, I, _, M>(
        rt,
        call,
        place,
        &file.config,
        &file.stated,
        words,
        beside,
        seen,
        input,
        printer,
        complaints,
    )
}
