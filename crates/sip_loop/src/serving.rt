//! The public call that serves turn by turn: one reading of the clock, what is due by it (`due_moments`), and one question to the
//! link.
//! It never waits: who serves phones does that between two turns (`sipd_service`).
ghost use Rattle.std.specs.Prelude.{◌≡◌, ◌≢◌, ◌⊎◌, ℕ, ◌∷◌, [], true, false, List, Option, None, Some, Err, IfOk, IfErr, OnOk, OnErr};
ghost use Rattle.sip_transport.specs.Told.{counted};
ghost use Rattle.sip_loop.specs.Counts.{counted_times, IsAskedWithin};
ghost use Rattle.sip_model.specs.steps_model.Step.{moment_of};
ghost use Rattle.sip_run.specs.Due.{NothingDueBy, standing_of};
ghost use Rattle.sip_loop.specs.Courses.{Breaks, Goes, LinkFails, StepFails, TakesTurn, TurnBreaks, TurnGoes};
ghost use Rattle.sip_loop.specs.Printing.{Prints};
ghost use Rattle.sip_journal.specs.Record.{Notes};
ghost use Rattle.sip_loop.specs.Serving.{IsServed, IsUnserved, behind_word, between_turns, event_of_turn, kept, told_by, turn_at, word_from};
ghost use Rattle.sip_loop.specs.declared.serve_error.ServeError.TheVariants as Refusal;

use crate::audit_log::AuditLog;
use crate::due_moments::pass_due;
use crate::handing::hand_out;
use crate::serve_error::ServeError;
use rand_core::Rng;
use sip_audit::Record;
use sip_event::StepOut;
use sip_journal::Journal;
use sip_model::bounds::every_history_is_bounded;
use sip_model::histories::steps_stand_at_their_moments;
use sip_model::laws::every_history_has_access;
use sip_model::order::no_deadline_passed;
use sip_policy::Rules;
use sip_run::engine::Engine;
use sip_timers::Timers;
use sip_transport::{Clock, Link};
use sip_uri::Addr;
use std::alloc::Global;

/// 2^64: what the high half of a word counts for.
const HALF: u128 = 1 << 64;

/// The word of a datagram that was heard, and its source.
#[derive(Clone, Copy)]
struct Arrived {
    word: u128,
    from: Addr,
}

/// The step of a turn's event, and the datagram that it was, if one was heard.
struct TakenEvent {
    out: StepOut,
    arrived: Option<Arrived>,
}

/// The next two numbers of a source as one word, the high half first.
fn next_word<W: Rng>(words: &mut W) -> u128
    ensures word { result ≡ word_from (W.stream words.old) }
    ensures left { W.stream words.new ≡ behind_word (W.stream words.old) }
{
    let high = words.next_u64();
    let low = words.next_u64();
    u128::from(high) * HALF + u128::from(low)
}

/// Asks the link once, and takes the datagram that it heard at a moment, with the next word, or that moment alone.
fn take_event<T: Timers, R: Rules, L: Link, W: Rng>(
    engine: &mut Engine<T, R>,
    link: &mut L,
    words: &mut W,
    at: u64,
) -> Result<TakenEvent, ServeError>
    requires { NothingDueBy (moment_of engine.old.state at) engine.old.state }
    ensures server { engine.new.server ≡ engine.old.server }
    ensures asked { L.receives link.new ≡ counted (L.receives link.old) }
    ensures link_failed { result ≡ Err Refusal.Link → L.failures link.new ≡ counted (L.failures link.old) }
    ensures link_held { ¬ (result ≡ Err Refusal.Link) → L.failures link.new ≡ L.failures link.old }
    ensures not_journal { IfErr result (λ e. ¬ (e ≡ Refusal.Journal)) }
    ensures given { L.given link.new ≡ L.given link.old }
    ensures link_waits { L.waits link.new ≡ L.waits link.old }
    ensures taken { IfOk result (λ taken. TakesTurn engine.old.server (standing_of engine.old) at (L.heard link.old) (L.heard link.new)
        (W.stream words.old) (W.stream words.new) (turn_at at taken.arrived (L.held link.new)) taken.out (standing_of engine.new)) }
    ensures broken { IfErr result (λ e. LinkFails (L.heard link.old) (L.heard link.new) (W.stream words.old) (W.stream words.new) e
        ⊎ StepFails engine.old.state at (L.heard link.old) (L.heard link.new) (W.stream words.old) (W.stream words.new) e) }
    ensures none_left { OnOk result (NothingDueBy engine.new.state.moment engine.new.state) }
    ensures unchanged { OnErr result (engine.new ≡ engine.old) }
{
    no_deadline_passed();
    engine.is_reached();
    match link.receive()? {
        Some(from) => {
            let word = next_word(words);
            let out = engine.deliver(at, word, from, link.bytes())?;
            let arrived = Some(Arrived { word, from });
            Ok(TakenEvent { out, arrived })
        }
        None => {
            let out = engine.fire(at)?;
            Ok(TakenEvent { out, arrived: None })
        }
    }
}

/// Tells the journal the event of a turn.
fn note_turn<J: Journal>(
    journal: &mut J,
    at: u64,
    arrived: Option<Arrived>,
    bytes: &[u8],
) -> Result<(), ServeError>
    ensures noted { OnOk result (Notes (J.written journal.old) (J.written journal.new) (event_of_turn (turn_at at arrived bytes.now) ∷ [])) }
    ensures refused { IfErr result (λ e. e ≡ Refusal.Journal) }
    ensures told { OnErr result (J.written journal.new ≡ None) }
    ensures whole { OnOk result ((J.faulted journal.old ≡ false) × (J.faulted journal.new ≡ false)) }
    ensures said { OnErr result (J.faulted journal.new ≡ true) }
{
    match arrived {
        Some(arrived) => Ok(journal.heard(at, arrived.word, arrived.from, bytes)?),
        None => Ok(journal.passed(at)?),
    }
}

/// Prints the lines of records, where there are any.
fn log_records<A: AuditLog>(audit: &mut A, records: &[Record]) -> Result<(), ServeError>
    ensures printed { OnOk result (Prints (A.printed audit.old) (A.printed audit.new) records.now) }
    ensures refused { IfErr result (λ e. (e ≡ Refusal.NoMemory) ⊎ (e ≡ Refusal.Audit)) }
    ensures told { OnErr result (A.printed audit.new ≡ None) }
    ensures whole { OnOk result (records.now ≢ [] → A.faulted audit.old ≡ false) }
    ensures held { OnOk result (A.faulted audit.new ≡ A.faulted audit.old) }
    ensures said { OnErr result (A.faulted audit.new ≡ true) }
{
    if records.is_empty() {
        return Ok(());
    }
    audit.print(records)?;
    Ok(())
}

/// The rest of a turn, once all that was due by its reading has happened: its event is taken and told to the journal, the lines of what
/// it records are printed, and then its packets are given to the link.
fn take_turn<T: Timers, R: Rules, L: Link, J: Journal, A: AuditLog, W: Rng>(
    engine: &mut Engine<T, R>,
    link: &mut L,
    journal: &mut J,
    audit: &mut A,
    words: &mut W,
    at: u64,
) -> Result<(), ServeError>
    requires { NothingDueBy (moment_of engine.old.state at) engine.old.state }
    ensures server { engine.new.server ≡ engine.old.server }
    ensures asked { L.receives link.new ≡ counted (L.receives link.old) }
    ensures link_failed { result ≡ Err Refusal.Link → L.failures link.new ≡ counted (L.failures link.old) }
    ensures link_held { ¬ (result ≡ Err Refusal.Link) → L.failures link.new ≡ L.failures link.old }
    ensures journal_failed { result ≡ Err Refusal.Journal → J.written journal.new ≡ None }
    ensures link_waits { L.waits link.new ≡ L.waits link.old }
    ensures goes { OnOk result ((readings : Option (List ℕ)) → TurnGoes engine.old.server (standing_of engine.old) (standing_of engine.new) at
        (told_by (L.heard link.old) (L.given link.old) readings (kept (J.written journal.old) (J.faulted journal.old))
        (kept (A.printed audit.old) (A.faulted audit.old)) (W.stream words.old))
        (told_by (L.heard link.new) (L.given link.new) readings (kept (J.written journal.new) (J.faulted journal.new))
        (kept (A.printed audit.new) (A.faulted audit.new)) (W.stream words.new))) }
    ensures broken { IfErr result (λ e. (readings : Option (List ℕ)) → TurnBreaks engine.old.server (standing_of engine.old) (standing_of engine.new) at
        (told_by (L.heard link.old) (L.given link.old) readings (kept (J.written journal.old) (J.faulted journal.old))
        (kept (A.printed audit.old) (A.faulted audit.old)) (W.stream words.old))
        (told_by (L.heard link.new) (L.given link.new) readings (kept (J.written journal.new) (J.faulted journal.new))
        (kept (A.printed audit.new) (A.faulted audit.new)) (W.stream words.new)) e) }
{
    steps_stand_at_their_moments();
    let taken = take_event(engine, link, words, at)?;
    let TakenEvent { mut out, arrived } = taken;
    note_turn(journal, at, arrived, link.bytes())?;
    log_records(audit, out.records.as_slice())?;
    hand_out(engine, link, journal, &mut out.packets)
}

/// One turn: the clock is read once, all that is due by then happens, and the link is asked once.
fn turn<T: Timers, R: Rules, L: Link, J: Journal, A: AuditLog, C: Clock, W: Rng>(
    alloc: Global,
    engine: &mut Engine<T, R>,
    link: &mut L,
    journal: &mut J,
    audit: &mut A,
    clock: &mut C,
    words: &mut W,
) -> Result<(), ServeError>
    ensures server { engine.new.server ≡ engine.old.server }
    ensures asked_all { OnOk result (L.receives link.new ≡ counted (L.receives link.old)) }
    ensures asked { IsAskedWithin 1 (L.receives link.old) (L.receives link.new) }
    ensures link_failed { result ≡ Err Refusal.Link → L.failures link.new ≡ counted (L.failures link.old) }
    ensures link_held { ¬ (result ≡ Err Refusal.Link) → L.failures link.new ≡ L.failures link.old }
    ensures journal_failed { result ≡ Err Refusal.Journal → J.written journal.new ≡ None }
    ensures link_waits { L.waits link.new ≡ L.waits link.old }
    ensures goes { OnOk result (Goes engine.old.server (standing_of engine.old) (standing_of engine.new)
        (told_by (L.heard link.old) (L.given link.old) (C.readings clock.old) (kept (J.written journal.old) (J.faulted journal.old))
        (kept (A.printed audit.old) (A.faulted audit.old)) (W.stream words.old))
        (told_by (L.heard link.new) (L.given link.new) (C.readings clock.new) (kept (J.written journal.new) (J.faulted journal.new))
        (kept (A.printed audit.new) (A.faulted audit.new)) (W.stream words.new)) 1) }
    ensures broken { IfErr result (Breaks engine.old.server (standing_of engine.old) (standing_of engine.new) (between_turns engine.old.state.moment)
        (told_by (L.heard link.old) (L.given link.old) (C.readings clock.old) (kept (J.written journal.old) (J.faulted journal.old))
        (kept (A.printed audit.old) (A.faulted audit.old)) (W.stream words.old))
        (told_by (L.heard link.new) (L.given link.new) (C.readings clock.new) (kept (J.written journal.new) (J.faulted journal.new))
        (kept (A.printed audit.new) (A.faulted audit.new)) (W.stream words.new)) 1) }
{
    let at = clock.now();
    pass_due(alloc, engine, link, journal, at)?;
    take_turn(engine, link, journal, audit, words, at)
}

/// Serves for some turns. In each the clock is read once, in milliseconds; all that is due by then happens, moment by moment: what is due at
/// one happens whole, and the moment is an event; and the link is asked once: the datagram that it heard, with the next two numbers of
/// `words` as its word, or the reading alone, is the turn's event. Each event that was taken, a fault too, is told to the journal, then the
/// lines of what it records are printed, and only then what it and what was due by it hand out is given to the link, in its order; where a
/// packet fails, its fault is taken before any other packet is given, and the packets of that go behind those that still wait
/// (`in_order`). Each valid new request outside a dialog is sent to exactly the unexpired bindings or the configured hop that the
/// first matching rule gives its proven user; bindings change or are listed exactly as an allowed REGISTER says; every policy denial is a
/// 403 whose Warning names that rule; all else sent belongs to an open request or a known dialog (`access` in `Serves`). Where the
/// journal tells what it holds, that says exactly the events that were taken (`noted` there). Where all turns were served, neither the
/// journal nor the log answered a fault (`held`); where it ends before, one of them has failed just where the last event wasn't told to
/// it, or its lines weren't printed (`faulted`). Refusals, behind which what was sent stays sent and the engine goes on from where it is:
/// `NoMemory`; `Journal`, where an event couldn't be told, which was taken, and of which nothing was given to the link; `Audit`, where
/// the lines of one couldn't be printed, likewise; `Link`, where `receive` failed; `Step`, where a moment is 2^62 ms or more, or a
/// datagram's number would be.
pub fn serve<T: Timers, R: Rules, L: Link, J: Journal, A: AuditLog, C: Clock, W: Rng>(
    alloc: Global,
    engine: &mut Engine<T, R>,
    link: &mut L,
    journal: &mut J,
    audit: &mut A,
    clock: &mut C,
    words: &mut W,
    turns: u32,
) -> Result<(), ServeError>
    ensures server { engine.new.server ≡ engine.old.server }
    ensures served { OnOk result (IsServed turns engine.old.server (standing_of engine.old) (standing_of engine.new)
        (told_by (L.heard link.old) (L.given link.old) (C.readings clock.old) (kept (J.written journal.old) (J.faulted journal.old))
        (kept (A.printed audit.old) (A.faulted audit.old)) (W.stream words.old))
        (told_by (L.heard link.new) (L.given link.new) (C.readings clock.new) (kept (J.written journal.new) (J.faulted journal.new))
        (kept (A.printed audit.new) (A.faulted audit.new)) (W.stream words.new))) }
    ensures refused { IfErr result (IsUnserved turns engine.old.server (standing_of engine.old) (standing_of engine.new)
        (told_by (L.heard link.old) (L.given link.old) (C.readings clock.old) (kept (J.written journal.old) (J.faulted journal.old))
        (kept (A.printed audit.old) (A.faulted audit.old)) (W.stream words.old))
        (told_by (L.heard link.new) (L.given link.new) (C.readings clock.new) (kept (J.written journal.new) (J.faulted journal.new))
        (kept (A.printed audit.new) (A.faulted audit.new)) (W.stream words.new))) }
    ensures asked_all { OnOk result (L.receives link.new ≡ counted_times turns (L.receives link.old)) }
    ensures asked { IsAskedWithin turns (L.receives link.old) (L.receives link.new) }
    ensures link_failed { result ≡ Err Refusal.Link → L.failures link.new ≡ counted (L.failures link.old) }
    ensures journal_failed { result ≡ Err Refusal.Journal → J.written journal.new ≡ None }
    ensures link_waits { L.waits link.new ≡ L.waits link.old }
    ensures link_held { ¬ (result ≡ Err Refusal.Link) → L.failures link.new ≡ L.failures link.old }
{
    every_history_has_access();
    every_history_is_bounded();
    for _ in 0..turns {
        turn(alloc, engine, link, journal, audit, clock, words)?;
    }
    Ok(())
}
