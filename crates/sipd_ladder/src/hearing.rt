//! What the steps of a day have of a call.
ghost use Rattle.std.specs.Prelude.{◌≡◌, ◌++◌, [], ◌∷◌, Some, map, IfOk, OnOk};
ghost use Rattle.std.specs.List.{flat_map, list_any};
ghost use Rattle.sipd_ladder.specs.Hearing as Definitions;
ghost use Rattle.sipd_ladder.specs.declared.rung.RungKind.TheVariants as Kinds;
ghost use Rattle.sipd_ladder.specs.Table;

use crate::rung::{AddrName, Rung, RungKind, RungPlace};
use crate::saying::{decided_text, word_in};
use crate::table::ladder_text;
use sip_audit::Record;
use sip_dialog::is_same_addr;
use sip_event::{Event, Packet, StepOut};
use sip_text::{Bytes, Items, same_bytes};
use sip_uri::Addr;
use std::alloc::{AllocError, Global};

/// A call that is looked for in the steps of a day: what was heard of it, and who was proven from where.
#[derive(Drop)]
pub struct Ladder {
    pub call_id: Bytes,
    pub rungs: Items<Rung>,
    pub names: Items<AddrName>,
}

/// Whether a rung is a datagram of the same bytes from the same address.
fn is_copy(from: Addr, bytes: &[u8], kind: &RungKind) -> bool
    ensures { result ≡ Definitions.is_copy from bytes.now kind.now }
{
    match kind {
        RungKind::Came {
            from: source,
            bytes: others,
            ..
        } => is_same_addr(*source, from) && same_bytes(others.as_slice(), bytes),
        RungKind::Noted { .. } => false,
        RungKind::Went { .. } => false,
    }
}

fn is_copy_rung(from: Addr, bytes: &[u8], rung: &Rung) -> bool
    ensures { result ≡ Definitions.is_copy_rung from bytes.now rung.now }
{
    is_copy(from, bytes, &rung.kind)
}

/// Whether a datagram came before.
fn came_before(from: Addr, bytes: &[u8], rungs: &[Rung]) -> bool
    ensures { result ≡ Definitions.came_before from bytes.now rungs.now }
{
    rungs.iter().any(|rung| is_copy_rung(from, bytes, rung))
}

/// A copy of a name, if there is one.
fn copied(name: &Option<Bytes>) -> Result<Option<Bytes>, AllocError>
    ensures { IfOk result (λ copy. copy ≡ name.now) }
{
    match name {
        Some(name) => Ok(Some(name.clone()?)),
        None => Ok(None),
    }
}

fn decided(alloc: Global, decision: &Record) -> Result<RungKind, AllocError>
    ensures { IfOk result (λ kind. kind ≡ Definitions.decided decision.now) }
{
    let text = decided_text(alloc, decision.outcome, decision.minute)?;
    let who = copied(&decision.who)?;
    Ok(RungKind::Noted { who, text })
}

/// Adds a rung of a step.
fn push_rung(
    rungs: &mut Items<Rung>,
    place: RungPlace,
    out: &StepOut,
    kind: RungKind,
) -> Result<(), AllocError>
    ensures { OnOk result (rungs.new ≡ rungs.old ++ Definitions.rung place out.now kind ∷ []) }
{
    rungs.push(Rung {
        at: out.at,
        place,
        kind,
    })
}

fn push_decision(
    alloc: Global,
    rungs: &mut Items<Rung>,
    place: RungPlace,
    out: &StepOut,
    decision: &Record,
) -> Result<(), AllocError>
    ensures { OnOk result (rungs.new ≡ rungs.old ++ Definitions.decided_rung place out.now decision.now ∷ []) }
{
    let kind = decided(alloc, decision)?;
    push_rung(rungs, place, out, kind)
}

/// Adds what was decided in a step.
fn push_decisions(
    alloc: Global,
    rungs: &mut Items<Rung>,
    place: RungPlace,
    out: &StepOut,
    records: &[Record],
) -> Result<(), AllocError>
    ensures { OnOk result (rungs.new ≡ rungs.old ++ map (Definitions.decided_rung place out.now) records.now) }
{
    for decision in records {
        push_decision(alloc, rungs, place, out, decision)?;
    }
    Ok(())
}

/// Adds a datagram of the call that came, and what was decided of it.
fn push_came(
    alloc: Global,
    rungs: &mut Items<Rung>,
    place: RungPlace,
    from: Addr,
    bytes: &[u8],
    out: &StepOut,
    word: Bytes,
) -> Result<(), AllocError>
    ensures { OnOk result (rungs.new ≡ rungs.old ++ (Definitions.rung place out.now (Kinds.Came from (Definitions.came_before from bytes.now rungs.old) word
        bytes.now) ∷ map (Definitions.decided_rung place out.now) out.now.records)) }
{
    let again = came_before(from, bytes, rungs.as_slice());
    let bytes = Bytes::copy(alloc, bytes)?;
    let kind = RungKind::Came {
        from,
        again,
        word,
        bytes,
    };
    push_rung(rungs, place, out, kind)?;
    push_decisions(alloc, rungs, place, out, out.records.as_slice())
}

/// The same, if it is of the call.
fn push_datagram(
    alloc: Global,
    rungs: &mut Items<Rung>,
    call_id: &[u8],
    place: RungPlace,
    from: Addr,
    bytes: &[u8],
    out: &StepOut,
) -> Result<(), AllocError>
    ensures { OnOk result (rungs.new ≡ rungs.old ++ Definitions.came call_id.now place rungs.old from bytes.now out.now) }
{
    match word_in(alloc, call_id, bytes)? {
        Some(word) => push_came(alloc, rungs, place, from, bytes, out, word),
        None => Ok(()),
    }
}

/// Whether a packet is of the call.
fn is_of(alloc: Global, call_id: &[u8], packet: &Packet) -> Result<bool, AllocError>
    ensures { IfOk result (λ is. is ≡ Definitions.is_of call_id.now packet.now) }
{
    let word = word_in(alloc, call_id, packet.bytes.as_slice())?;
    Ok(word.is_some())
}

fn any_is_of(alloc: Global, call_id: &[u8], packets: &[Packet]) -> Result<bool, AllocError>
    ensures { IfOk result (λ is. is ≡ list_any (Definitions.is_of call_id.now) packets.now) }
{
    for packet in packets {
        if is_of(alloc, call_id, packet)? {
            return Ok(true);
        }
    }
    Ok(false)
}

/// Adds what happened without a datagram, where a packet of the call went then.
fn push_caused(
    alloc: Global,
    rungs: &mut Items<Rung>,
    call_id: &[u8],
    place: RungPlace,
    text: &[u8],
    out: &StepOut,
) -> Result<(), AllocError>
    ensures { OnOk result (rungs.new ≡ rungs.old ++ Definitions.caused call_id.now place text.now out.now) }
{
    if !any_is_of(alloc, call_id, out.packets.as_slice())? {
        return Ok(());
    }
    let text = Bytes::copy(alloc, text)?;
    push_rung(rungs, place, out, RungKind::Noted { who: None, text })
}

/// Adds what an event brought.
fn push_given(
    alloc: Global,
    rungs: &mut Items<Rung>,
    call_id: &[u8],
    place: RungPlace,
    event: &Event,
    out: &StepOut,
) -> Result<(), AllocError>
    ensures { OnOk result (rungs.new ≡ rungs.old ++ Definitions.event_rungs call_id.now place rungs.old (Some event.now) out.now) }
{
    match event {
        Event::Datagram { from, bytes, .. } => {
            push_datagram(alloc, rungs, call_id, place, *from, bytes.as_slice(), out)
        }
        Event::Time { .. } => Ok(()),
        Event::Fault { .. } => push_caused(alloc, rungs, call_id, place, b"not sent", out),
    }
}

/// Adds what came in a step, or fell due.
fn push_event(
    alloc: Global,
    rungs: &mut Items<Rung>,
    call_id: &[u8],
    place: RungPlace,
    event: &Option<Event>,
    out: &StepOut,
) -> Result<(), AllocError>
    ensures { OnOk result (rungs.new ≡ rungs.old ++ Definitions.event_rungs call_id.now place rungs.old event.now out.now) }
{
    match event {
        Some(event) => push_given(alloc, rungs, call_id, place, event, out),
        None => push_caused(alloc, rungs, call_id, place, b"timer", out),
    }
}

/// Adds a packet that went, if it is of the call.
fn push_packet(
    alloc: Global,
    rungs: &mut Items<Rung>,
    call_id: &[u8],
    place: RungPlace,
    out: &StepOut,
    packet: &Packet,
) -> Result<(), AllocError>
    ensures { OnOk result (rungs.new ≡ rungs.old ++ Definitions.went call_id.now place out.now packet.now) }
{
    let Some(word) = word_in(alloc, call_id, packet.bytes.as_slice())? else {
        return Ok(());
    };
    let kind = RungKind::Went {
        to: packet.to,
        again: packet.again,
        word,
    };
    push_rung(rungs, place, out, kind)
}

fn push_packets(
    alloc: Global,
    rungs: &mut Items<Rung>,
    call_id: &[u8],
    place: RungPlace,
    out: &StepOut,
    packets: &[Packet],
) -> Result<(), AllocError>
    ensures { OnOk result (rungs.new ≡ rungs.old ++ flat_map (Definitions.went call_id.now place out.now) packets.now) }
{
    for packet in packets {
        push_packet(alloc, rungs, call_id, place, out, packet)?;
    }
    Ok(())
}

/// Adds what a step has of a call.
fn push_step(
    alloc: Global,
    rungs: &mut Items<Rung>,
    call_id: &[u8],
    place: RungPlace,
    event: &Option<Event>,
    out: &StepOut,
) -> Result<(), AllocError>
    ensures { OnOk result (rungs.new ≡ Definitions.rungs_with call_id.now place event.now out.now rungs.old) }
{
    push_event(alloc, rungs, call_id, place, event, out)?;
    push_packets(alloc, rungs, call_id, place, out, out.packets.as_slice())
}

/// Adds the user who was proven, if one was, with an address.
fn push_name(names: &mut Items<AddrName>, from: Addr, decision: &Record) -> Result<(), AllocError>
    ensures { OnOk result (names.new ≡ names.old ++ Definitions.name_by from decision.now) }
{
    match &decision.who {
        Some(name) => names.push(AddrName {
            addr: from,
            name: name.clone()?,
        }),
        None => Ok(()),
    }
}

fn push_names(names: &mut Items<AddrName>, from: Addr, records: &[Record]) -> Result<(), AllocError>
    ensures { OnOk result (names.new ≡ names.old ++ flat_map (Definitions.name_by from) records.now) }
{
    for decision in records {
        push_name(names, from, decision)?;
    }
    Ok(())
}

/// Adds who was proven in a step, and from where.
fn push_proven(
    names: &mut Items<AddrName>,
    event: &Option<Event>,
    out: &StepOut,
) -> Result<(), AllocError>
    ensures { OnOk result (names.new ≡ Definitions.names_with event.now out.now names.old) }
{
    match event {
        Some(Event::Datagram { from, .. }) => push_names(names, *from, out.records.as_slice()),
        _ => Ok(()),
    }
}

/// How a day stands where so many users were proven.
fn place_at(offset: i16, names: &[AddrName]) -> RungPlace
    ensures { result ≡ Definitions.place_at offset names.now }
{
    RungPlace {
        offset,
        known: names.len(),
    }
}

impl Ladder {
    /// Nothing heard yet of the call of a Call-ID. `AllocError` is the only refusal.
    pub fn new(alloc: Global, call_id: &[u8]) -> Result<Ladder, AllocError>
        ensures call_id { IfOk result (λ ladder. ladder.call_id ≡ call_id.now) }
        ensures empty { IfOk result (λ ladder. ladder.rungs ≡ []) }
        ensures nobody { IfOk result (λ ladder. ladder.names ≡ []) }
    {
        Ok(Ladder {
            call_id: Bytes::copy(alloc, call_id)?,
            rungs: Items::new(alloc),
            names: Items::new(alloc),
        })
    }

    /// Hears a step, under a configuration whose clock is so many minutes ahead of UTC. `AllocError` is the only refusal.
    pub fn hear(
        &mut self,
        alloc: Global,
        offset: i16,
        event: &Option<Event>,
        out: &StepOut,
    ) -> Result<(), AllocError>
        ensures call { OnOk result (self.new.call_id ≡ self.old.call_id) }
        ensures names { OnOk result (self.new.names ≡ Definitions.names_with event.now out.now self.old.names) }
        ensures rungs { OnOk result (self.new.rungs ≡ Definitions.rungs_with self.old.call_id (Definitions.place_at offset self.new.names) event.now out.now
            self.old.rungs) }
    {
        push_proven(&mut self.names, event, out)?;
        let place = place_at(offset, self.names.as_slice());
        push_step(
            alloc,
            &mut self.rungs,
            self.call_id.as_slice(),
            place,
            event,
            out,
        )
    }

    /// The diagram; nothing where nothing was heard of the call. `AllocError` is the only refusal.
    pub fn text(&self, alloc: Global) -> Result<Bytes, AllocError>
        ensures { IfOk result (λ text. text ≡ Table.ladder_text self.now.call_id self.now.names self.now.rungs) }
    {
        ladder_text(
            alloc,
            self.call_id.as_slice(),
            self.names.as_slice(),
            self.rungs.as_slice(),
        )
    }
}
