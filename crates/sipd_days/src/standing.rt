//! A record told up to a moment.
ghost use Rattle.std.specs.Prelude.{◌≡◌, ◌⊎◌, ◌<◌, ◌^◌, None, Some, option_map, unwrap_or, IfErr, IfOk, IfSome, OnOk};
ghost use Rattle.sip_replay_script.specs.Devices.{later};
ghost use Rattle.sip_replay_script.specs.Lines.{IsSpent, pending};
ghost use Rattle.sipd_telling.specs.run.Due.{standing_of};
ghost use Rattle.sipd_exit.specs.declared.exit.Exit.TheVariants.{Memory};
ghost use Rattle.sipd_report.specs.Said as Definitions;
ghost use Rattle.sipd_days.specs.Standing.{IsStood, IsUnpassedThen, IsUnstood, Reaches};
ghost use Rattle.sipd_telling.specs.Tellings.{IsUntoldOn};

use sip_listener::Listener;
use sip_policy::Rules;
use sip_replay_script::TellingReader;
use sip_timers::Timers;
use sipd_exit::Exit;
use sipd_report::moment_at;
use sipd_telling::{Telling, pass, tell};
use std::alloc::Global;

/// A clock that is so many minutes ahead of UTC.
#[derive(Clone, Copy)]
pub(crate) struct DayClock {
    pub ahead: i16,
}

/// Where a record was told to: the moment at which its server stands, and how the program ends, where it wasn't told to the moment that was
/// asked for.
#[derive(Drop)]
pub(crate) struct Reached {
    pub at: u64,
    pub end: Option<Exit>,
}

/// Tells a listener a record up to a moment, and what is due by then.
fn tell_up_to<T: Timers, P: Rules, I: TellingReader, L: Listener>(
    alloc: Global,
    telling: &mut Telling<T, P>,
    events: &mut I,
    at: u64,
    listener: &mut L,
) -> Result<(), Exit>
    ensures told { OnOk result (IsStood L.hears telling.old.engine.server telling.new.engine.server (standing_of telling.old.engine)
        (standing_of telling.new.engine) (pending telling.old.lines (I.remaining events.old)) telling.old.lines.number (Some at) listener.old listener.new) }
    ensures refused { IfErr result (IsUnstood L.hears L.refuses telling.old.engine.server telling.new.engine.server (standing_of telling.old.engine)
        (standing_of telling.new.engine) (IsSpent (I.has_failed events.new) telling.new.lines.asks) (pending telling.old.lines (I.remaining events.old))
        telling.old.lines.number (Some at) listener.old listener.new (L.gave_up listener.new)) }
    ensures asked { later telling.new.lines.asks (I.asked events.new) ≡ later telling.old.lines.asks (I.asked events.old) }
{
    match tell(alloc, telling, events, Some(at), listener) {
        Ok(()) => pass(telling, at, listener),
        Err(exit) => Err(exit),
    }
}

/// The same up to its end.
fn tell_to_end<T: Timers, P: Rules, I: TellingReader, L: Listener>(
    alloc: Global,
    telling: &mut Telling<T, P>,
    events: &mut I,
    listener: &mut L,
) -> Result<(), Exit>
    ensures told { OnOk result (IsStood L.hears telling.old.engine.server telling.new.engine.server (standing_of telling.old.engine)
        (standing_of telling.new.engine) (pending telling.old.lines (I.remaining events.old)) telling.old.lines.number None listener.old listener.new) }
    ensures refused { IfErr result (IsUnstood L.hears L.refuses telling.old.engine.server telling.new.engine.server (standing_of telling.old.engine)
        (standing_of telling.new.engine) (IsSpent (I.has_failed events.new) telling.new.lines.asks) (pending telling.old.lines (I.remaining events.old))
        telling.old.lines.number None listener.old listener.new (L.gave_up listener.new)) }
    ensures asked { later telling.new.lines.asks (I.asked events.new) ≡ later telling.old.lines.asks (I.asked events.old) }
{
    match tell(alloc, telling, events, None, listener) {
        Ok(()) => Ok(()),
        Err(exit) => Err(exit),
    }
}

/// The same up to a moment, if one is given, and else up to its end.
fn tell_to<T: Timers, P: Rules, I: TellingReader, L: Listener>(
    alloc: Global,
    telling: &mut Telling<T, P>,
    events: &mut I,
    at: Option<u64>,
    listener: &mut L,
) -> Result<(), Exit>
    ensures told { OnOk result (IsStood L.hears telling.old.engine.server telling.new.engine.server (standing_of telling.old.engine)
        (standing_of telling.new.engine) (pending telling.old.lines (I.remaining events.old)) telling.old.lines.number at listener.old listener.new) }
    ensures refused { IfErr result (IsUnstood L.hears L.refuses telling.old.engine.server telling.new.engine.server (standing_of telling.old.engine)
        (standing_of telling.new.engine) (IsSpent (I.has_failed events.new) telling.new.lines.asks) (pending telling.old.lines (I.remaining events.old))
        telling.old.lines.number at listener.old listener.new (L.gave_up listener.new)) }
    ensures asked { later telling.new.lines.asks (I.asked events.new) ≡ later telling.old.lines.asks (I.asked events.old) }
{
    match at {
        Some(at) => tell_up_to(alloc, telling, events, at, listener),
        None => tell_to_end(alloc, telling, events, listener),
    }
}

/// The moment of a time on a clock.
fn moment_of(time: Option<u64>, clock: DayClock) -> Option<u64>
    requires { IfSome time (λ t. t < 2 ^ 50) }
    ensures { result ≡ option_map (λ t. Definitions.moment_at t clock.ahead) time }
{
    match time {
        Some(time) => Some(moment_at(time, clock.ahead)),
        None => None,
    }
}

/// The moment that is asked for, or, where none is, that of the last step.
fn moment_there<T: Timers, P: Rules>(telling: &Telling<T, P>, at: Option<u64>) -> u64
    ensures { result ≡ unwrap_or at telling.now.engine.state.moment }
{
    match at {
        Some(at) => at,
        None => telling.engine.moment(),
    }
}

/// Where a record isn't told further: at the moment of the last step; memory alone is a refusal.
fn reached_before(at: u64, exit: Exit) -> Result<Reached, Exit>
    ensures at { IfOk result (λ reached. reached.at ≡ at) }
    ensures end { IfOk result (λ reached. reached.end ≡ Some exit) }
    ensures refused { IfErr result (λ e. e ≡ Memory) }
{
    if let Exit::Memory = &exit {
        return Err(Exit::Memory);
    }
    Ok(Reached {
        at,
        end: Some(exit),
    })
}

/// Tells a listener a record up to a time of a clock, and what is due by then; to its end, where no time is given. `Memory` is the only refusal.
pub(crate) fn stand_at<T: Timers, P: Rules, I: TellingReader, L: Listener>(
    alloc: Global,
    telling: &mut Telling<T, P>,
    events: &mut I,
    time: Option<u64>,
    clock: DayClock,
    listener: &mut L,
) -> Result<Reached, Exit>
    requires { IfSome time (λ t. t < 2 ^ 50) }
    ensures reached { IfOk result (λ reached. Reaches reached.end L.hears L.refuses telling.old.engine.server telling.new.engine.server
        (standing_of telling.old.engine) (standing_of telling.new.engine) (IsSpent (I.has_failed events.new) telling.new.lines.asks)
        (pending telling.old.lines (I.remaining events.old)) telling.old.lines.number (option_map (λ t. Definitions.moment_at t clock.ahead) time)
        listener.old listener.new (L.gave_up listener.new) reached.at) }
    ensures refused { IfErr result (λ exit. exit ≡ Memory) }
    ensures asked { later telling.new.lines.asks (I.asked events.new) ≡ later telling.old.lines.asks (I.asked events.old) }
{
    let moment = moment_of(time, clock);
    match tell_to(alloc, telling, events, moment, listener) {
        Ok(()) => Ok(Reached {
            at: moment_there(telling, moment),
            end: None,
        }),
        Err(exit) => reached_before(telling.engine.moment(), exit),
    }
}
