//! Packets given to the link in their order. One that fails is a fault at once, whose own packets go behind those that wait.
//! What waits here is of events that were told to the journal before.
ghost use Rattle.std.specs.Prelude.{◌≡◌, ◌<◌, ◌≤◌, ◌+◌, ◌++◌, ℕ, Option, [], drop, length, IfOk, IfErr, OnOk, OnErr};
ghost use Rattle.sip_model.specs.Ends.{sends_left};
ghost use Rattle.sip_loop.specs.Courses.{Breaks, Course, IsNoFurther, Others, TakesFault, told_with, waiting_at};
ghost use Rattle.sip_run.specs.Due.{NothingDueBy, standing_of};
ghost use Rattle.sip_loop.specs.ServeErrors.{IsOfHanding};
ghost use Rattle.sip_loop.specs.Serving.{kept};
ghost use Rattle.sip_loop.specs.declared.serve_error.ServeError.TheVariants.{NoMemory};

use crate::serve_error::ServeError;
use sip_event::{Packet, StepOut, Ticket};
use sip_journal::Journal;
use sip_model::histories::steps_stand_at_their_moments;
use sip_model::order::no_deadline_passed;
use sip_model::runs::failed_sends_end;
use sip_model::ties::fault_leaves_nothing_due;
use sip_policy::Rules;
use sip_run::engine::Engine;
use sip_text::Items;
use sip_timers::Timers;
use sip_transport::{Link, SendOutcome};
use std::alloc::AllocError;
use std::mem::swap;

/// A copy of a packet.
fn copy_of(packet: &Packet) -> Result<Packet, AllocError>
    ensures { IfOk result (λ copy. copy ≡ packet.now) }
{
    Ok(Packet {
        to: packet.to,
        bytes: packet.bytes.clone()?,
        ticket: packet.ticket,
        again: packet.again,
    })
}

/// Adds copies of packets at the end.
#[tactic(auto, using(std::proofs::lemmas::List::at_drop_more, std::proofs::lemmas::List::drop_all))]
fn add_packets(packets: &mut Items<Packet>, more: &[Packet]) -> Result<(), ServeError>
    ensures added { OnOk result (packets.new ≡ packets.old ++ more.now) }
    ensures refused { IfErr result (λ e. e ≡ NoMemory) }
{
    for packet in more {
        packets.push(copy_of(packet)?)?;
    }
    Ok(())
}

/// Puts what a step hands out behind what waits. Where nothing does, the step's own list is taken, so that nothing is copied.
pub(crate) fn wait_for(
    waiting: &mut Items<Packet>,
    packets: &mut Items<Packet>,
) -> Result<(), ServeError>
    ensures added { OnOk result (waiting.new ≡ waiting.old ++ packets.old) }
    ensures refused { IfErr result (λ e. e ≡ NoMemory) }
{
    if waiting.as_slice().is_empty() {
        swap(waiting, packets);
        return Ok(());
    }
    add_packets(waiting, packets.as_slice())
}

/// Takes the fault of a packet that could not be sent, at the moment of the step that handed it out.
fn take_fault<T: Timers, R: Rules>(
    engine: &mut Engine<T, R>,
    ticket: Ticket,
) -> Result<StepOut, ServeError>
    requires { NothingDueBy engine.old.state.moment engine.old.state }
    ensures server { engine.new.server ≡ engine.old.server }
    ensures taken { IfOk result (λ out. TakesFault engine.old.server (standing_of engine.old) ticket out (standing_of engine.new)) }
    ensures refused { IfErr result (λ e. e ≡ NoMemory) }
    ensures unchanged { OnErr result (engine.new ≡ engine.old) }
{
    no_deadline_passed();
    steps_stand_at_their_moments();
    failed_sends_end();
    fault_leaves_nothing_due();
    engine.is_reached();
    let at = engine.moment();
    let out = engine.fault(at, ticket)?;
    Ok(out)
}

/// Gives the packet at a place to the link. If it fails, its fault is taken at once and told to the journal, and the packets of that
/// go behind those that still wait.
fn hand_one<T: Timers, R: Rules, L: Link, J: Journal>(
    engine: &mut Engine<T, R>,
    link: &mut L,
    journal: &mut J,
    packets: &mut Items<Packet>,
    place: usize,
) -> Result<(), ServeError>
    requires there { place < length packets.old }
    requires none_due { NothingDueBy engine.old.state.moment engine.old.state }
    ensures server { engine.new.server ≡ engine.old.server }
    ensures receives { L.receives link.new ≡ L.receives link.old }
    ensures failures { L.failures link.new ≡ L.failures link.old }
    ensures heard { L.heard link.new ≡ L.heard link.old }
    ensures link_waits { L.waits link.new ≡ L.waits link.old }
    ensures handed { OnOk result ((others : Others) (turn : Option ℕ) → Course engine.old.server (standing_of engine.old) (standing_of engine.new)
        (waiting_at turn (drop place packets.old) engine.old.state.moment) (waiting_at turn (drop (place + 1) packets.new) engine.new.state.moment)
        (told_with others (L.given link.old) (kept (J.written journal.old) (J.faulted journal.old)))
        (told_with others (L.given link.new) (kept (J.written journal.new) (J.faulted journal.new))) [] 0 0) }
    ensures none_left { OnOk result (NothingDueBy engine.new.state.moment engine.new.state) }
    ensures more { OnOk result (place + 1 ≤ length packets.new) }
    ensures fewer { OnOk result (length packets.new + sends_left engine.new.state ≤ length packets.old + sends_left engine.old.state) }
    ensures no_further { OnOk result (IsNoFurther engine.old.state engine.new.state) }
    ensures refused { IfErr result (λ e. IsOfHanding e (J.written journal.new)) }
    ensures broken { IfErr result (λ e. (others : Others) (turn : Option ℕ) → Breaks engine.old.server (standing_of engine.old) (standing_of engine.new)
        (waiting_at turn (drop place packets.old) engine.old.state.moment)
        (told_with others (L.given link.old) (kept (J.written journal.old) (J.faulted journal.old)))
        (told_with others (L.given link.new) (kept (J.written journal.new) (J.faulted journal.new))) 0 e) }
{
    let packet = &packets.as_slice()[place];
    let ticket = packet.ticket;
    match link.send(packet.to, packet.bytes.as_slice())? {
        SendOutcome::Went => Ok(()),
        SendOutcome::Failed => {
            let at = engine.moment();
            let out = take_fault(engine, ticket)?;
            journal.failed(at, ticket)?;
            add_packets(packets, out.packets.as_slice())
        }
    }
}

/// Gives all packets that wait to the link, in their order, and what faults of theirs hand out behind them. Refused with
/// `NoMemory`, and with `Journal` where a fault can't be told to it; the packets that were given then are a front.
pub(crate) fn hand_out<T: Timers, R: Rules, L: Link, J: Journal>(
    engine: &mut Engine<T, R>,
    link: &mut L,
    journal: &mut J,
    packets: &mut Items<Packet>,
) -> Result<(), ServeError>
    requires { NothingDueBy engine.old.state.moment engine.old.state }
    ensures server { engine.new.server ≡ engine.old.server }
    ensures receives { L.receives link.new ≡ L.receives link.old }
    ensures failures { L.failures link.new ≡ L.failures link.old }
    ensures heard { L.heard link.new ≡ L.heard link.old }
    ensures link_waits { L.waits link.new ≡ L.waits link.old }
    ensures handed { OnOk result ((others : Others) (turn : Option ℕ) → Course engine.old.server (standing_of engine.old) (standing_of engine.new)
        (waiting_at turn packets.old engine.old.state.moment) (waiting_at turn [] engine.new.state.moment)
        (told_with others (L.given link.old) (kept (J.written journal.old) (J.faulted journal.old)))
        (told_with others (L.given link.new) (kept (J.written journal.new) (J.faulted journal.new))) [] 0 0) }
    ensures no_further { OnOk result (IsNoFurther engine.old.state engine.new.state) }
    ensures refused { IfErr result (λ e. IsOfHanding e (J.written journal.new)) }
    ensures broken { IfErr result (λ e. (others : Others) (turn : Option ℕ) → Breaks engine.old.server (standing_of engine.old) (standing_of engine.new)
        (waiting_at turn packets.old engine.old.state.moment)
        (told_with others (L.given link.old) (kept (J.written journal.old) (J.faulted journal.old)))
        (told_with others (L.given link.new) (kept (J.written journal.new) (J.faulted journal.new))) 0 e) }
{
    let mut place = 0;
    while place < packets.as_slice().len() {
        hand_one(engine, link, journal, packets, place)?;
        place += 1;
    }
    Ok(())
}
