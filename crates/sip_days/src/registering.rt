ghost use Rattle.std.specs.Prelude.{◌≡◌, ◌<◌, [], Some, length, nat_lt, slice_set, OnOk, IfOk};
ghost use Rattle.std.specs.List.{position_or_len};
ghost use Rattle.sip_days.specs.Phones as Definitions;

use crate::registered::Registered;
use sip_audit::{AuditOperation, AuditOutcome, Record};
use sip_config_types::Config;
use sip_event::{Event, StepOut};
use sip_listener::Listener;
use sip_replay_script::PrintStop;
use sip_text::Items;
use sip_uri::{Addr, Aor, same_aor};
use std::alloc::{AllocError, Global};
use std::marker::Model;

/// The addresses of record that were registered on a day, as far as it was told, each with its last REGISTER, in the order of their first ones.
#[derive(Drop)]
pub struct Phones {
    rows: Items<Registered>,
}

impl Model for Phones {
    ghost use Rattle.std.specs.Prelude.{List};
    ghost use Rattle.sip_days.specs.declared.registered.Registered.{Registered};

    ghost Value = { List Registered };

    ghost view = { λ p. p.rows };
}

impl Phones {
    /// None yet. Takes no memory.
    pub fn new(alloc: Global) -> Self
        ensures { result ≡ [] }
    {
        Phones {
            rows: Items::new(alloc),
        }
    }

    /// The addresses.
    pub fn as_slice(&self) -> &[Registered]
        ensures { result.now ≡ self.now }
    {
        self.rows.as_slice()
    }
}

fn is_register(operation: AuditOperation) -> bool
    ensures { result ≡ Definitions.is_register operation }
{
    match operation {
        AuditOperation::Register => true,
        AuditOperation::List => false,
        AuditOperation::Send => false,
    }
}

fn is_done(outcome: AuditOutcome) -> bool
    ensures { result ≡ Definitions.is_done outcome }
{
    match outcome {
        AuditOutcome::Challenge { status: _ } => false,
        AuditOutcome::Deny { rule: _ } => false,
        AuditOutcome::Sent {
            rule: _,
            targets: _,
        } => false,
        AuditOutcome::Answer { rule: _, status } => status == 200,
    }
}

/// Whether a record is that of a REGISTER that was let through, and done.
fn is_registered(decision: &Record) -> bool
    ensures { result ≡ Definitions.is_registered decision.now }
{
    is_register(decision.operation) && is_done(decision.outcome)
}

/// Where the datagram of an event came from.
fn source_of(event: &Event) -> Option<Addr>
    ensures { result ≡ Definitions.source_in (Some event.now) }
{
    match event {
        Event::Datagram { from, .. } => Some(*from),
        Event::Time { .. } => None,
        Event::Fault { .. } => None,
    }
}

/// Where the datagram of a step came from.
fn source_in(event: &Option<Event>) -> Option<Addr>
    ensures { result ≡ Definitions.source_in event.now }
{
    match event {
        Some(event) => source_of(event),
        None => None,
    }
}

/// The place of an address; where it isn't among them, their number.
fn place_of(rows: &[Registered], aor: &Aor) -> usize
    ensures { result ≡ position_or_len (Definitions.is_of aor.now) rows.now }
{
    for (i, row) in rows.iter().enumerate() {
        if same_aor(&row.aor, aor) {
            return i;
        }
    }
    rows.len()
}

/// The same of those that are kept.
fn place_in(rows: &Items<Registered>, aor: &Aor) -> usize
    ensures { result ≡ position_or_len (Definitions.is_of aor.now) rows.now }
{
    place_of(rows.as_slice(), aor)
}

/// Whether a place is one of theirs.
fn is_within(rows: &Items<Registered>, place: usize) -> bool
    ensures { result ≡ nat_lt place (length rows.now) }
{
    place < rows.as_slice().len()
}

/// Puts an address in a place.
fn put_at(rows: &mut [Registered], place: usize, row: Registered)
    requires { place < length rows.old }
    ensures { rows.new ≡ slice_set rows.old place row }
{
    rows[place] = row;
}

/// The same among those that are kept.
fn put_over(rows: &mut Items<Registered>, place: usize, row: Registered)
    requires { place < length rows.old }
    ensures { rows.new ≡ slice_set rows.old place row }
{
    put_at(rows.as_mut_slice(), place, row);
}

/// Puts an address in its place, or last.
fn put_registered(rows: &mut Items<Registered>, row: Registered) -> Result<(), AllocError>
    ensures { OnOk result (rows.new ≡ Definitions.with_registered row rows.old) }
{
    let place = place_in(rows, &row.aor);
    let within = is_within(rows, place);
    if within {
        put_over(rows, place, row);
        return Ok(());
    }
    rows.push(row)
}

/// What a record says of an address, on the clock of the configuration in force then.
fn registered_by(
    config: &Config,
    event: &Option<Event>,
    decision: &Record,
) -> Result<Registered, AllocError>
    ensures { IfOk result (λ row. row ≡ Definitions.registered_by config.now.offset event.now decision.now) }
{
    Ok(Registered {
        aor: decision.target.clone()?,
        at: decision.at,
        source: source_in(event),
        offset: config.offset,
    })
}

/// Puts the address of a record, if that is of a REGISTER that was done.
fn put_one(
    rows: &mut Items<Registered>,
    config: &Config,
    event: &Option<Event>,
    decision: &Record,
) -> Result<(), AllocError>
    ensures { OnOk result (rows.new ≡ Definitions.if_registered config.now.offset event.now decision.now rows.old) }
{
    let registered = is_registered(decision);
    if !registered {
        return Ok(());
    }
    let row = registered_by(config, event, decision)?;
    put_registered(rows, row)
}

/// Puts the addresses of records.
fn put_all(
    rows: &mut Items<Registered>,
    config: &Config,
    event: &Option<Event>,
    records: &[Record],
) -> Result<(), AllocError>
    ensures { OnOk result (rows.new ≡ Definitions.phones_with config.now.offset event.now records.now rows.old) }
{
    for decision in records {
        put_one(rows, config, event, decision)?;
    }
    Ok(())
}

impl Listener for Phones {
    ghost use Rattle.std.specs.Prelude.{⊤};
    ghost use Rattle.sip_days.specs.Phones.{adds_phones};

    ghost hears = { adds_phones };

    ghost refuses = { λ _ _ _. ⊤ };

    ghost gave_up = { λ _. ⊥ };

    fn hear(
        &mut self,
        config: &Config,
        event: Option<Event>,
        out: StepOut,
    ) -> Result<(), PrintStop> {
        match put_all(&mut self.rows, config, &event, out.records.as_slice()) {
            Ok(()) => Ok(()),
            Err(_) => Err(PrintStop::NoMemory),
        }
    }
}
