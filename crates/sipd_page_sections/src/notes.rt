//! What is kept of a record while it is told.
ghost use Rattle.std.specs.Prelude.{◌≡◌, ◌++◌, fold, IfOk, OnOk};
ghost use Rattle.sip_days.specs.Phones.{is_done, is_register, is_registered as registers};
ghost use Rattle.sipd_page_sections.specs.Notes as Definitions;

use crate::entries::{Entry, put_entry, value_of};
use crate::leases::longest;
use sip_audit::{AuditOperation, AuditOutcome, Record};
use sip_config_types::Config;
use sip_event::{Event, StepOut};
use sip_listener::Listener;
use sip_replay_script::PrintStop;
use sip_text::{Bytes, Items};
use sipd_report::put_target;
use std::alloc::{AllocError, Global};

/// Five minutes, in milliseconds.
pub(crate) const STEP: u64 = 300_000;

/// What is kept of a record, as far as it was told: how many requests each rule denied; until when each address of record has a live binding; how
/// many had one, from five minutes to five minutes; and the moment of the last step.
pub struct Notes {
    pub alloc: Global,
    pub denied: Items<Entry>,
    pub leases: Items<Entry>,
    pub live: Items<u64>,
    pub at: Option<u64>,
}

/// Written out, so that it is proved once and not wherever one is dropped.
impl Drop for Notes {
    fn drop(self) {
        let Notes {
            alloc: _,
            denied: _,
            leases: _,
            live: _,
            at: _,
        } = self;
    }
}

/// The entry of a rule that denied one request more.
fn denied_more(alloc: Global, denied: &[Entry], rule: u32) -> Result<Entry, AllocError>
    ensures { IfOk result (λ row. row ≡ Definitions.denied_entry rule denied.now) }
{
    let mut key = Bytes::new(alloc);
    key.push_decimal(u64::from(rule))?;
    let value = value_of(denied, key.as_slice()).saturating_add(1);
    Ok(Entry { key, value })
}

/// Counts a request that a rule denied.
fn count_rule(alloc: Global, denied: &mut Items<Entry>, rule: u32) -> Result<(), AllocError>
    ensures { OnOk result (denied.new ≡ Definitions.denied_more rule denied.old) }
{
    let row = denied_more(alloc, denied.as_slice(), rule)?;
    put_entry(denied, row)
}

/// Counts a request, if it was denied.
fn count_denial(
    alloc: Global,
    denied: &mut Items<Entry>,
    outcome: AuditOutcome,
) -> Result<(), AllocError>
    ensures { OnOk result (denied.new ≡ Definitions.denied_by outcome denied.old) }
{
    match outcome {
        AuditOutcome::Challenge { status: _ } => Ok(()),
        AuditOutcome::Deny { rule } => count_rule(alloc, denied, rule),
        AuditOutcome::Sent {
            rule: _,
            targets: _,
        } => Ok(()),
        AuditOutcome::Answer { rule: _, status: _ } => Ok(()),
    }
}

#[tactic(auto, using(std::proofs::lemmas::List::at_drop_more, std::proofs::lemmas::List::drop_all))]
fn count_denials(
    alloc: Global,
    denied: &mut Items<Entry>,
    records: &[Record],
) -> Result<(), AllocError>
    ensures { OnOk result (denied.new ≡ fold Definitions.with_denial denied.old records.now) }
{
    for decision in records {
        count_denial(alloc, denied, decision.outcome)?;
    }
    Ok(())
}

fn is_registration(operation: AuditOperation) -> bool
    ensures { result ≡ is_register operation }
{
    match operation {
        AuditOperation::Register => true,
        AuditOperation::List => false,
        AuditOperation::Send => false,
    }
}

fn is_answered(outcome: AuditOutcome) -> bool
    ensures { result ≡ is_done outcome }
{
    match outcome {
        AuditOutcome::Challenge { status: _ } => false,
        AuditOutcome::Deny { rule: _ } => false,
        AuditOutcome::Sent {
            rule: _,
            targets: _,
        } => false,
        AuditOutcome::Answer { rule: _, status } => status == 200,
    }
}

/// Whether a record is that of a REGISTER that was let through, and done.
fn is_registered(decision: &Record) -> bool
    ensures { result ≡ registers decision.now }
{
    is_registration(decision.operation) && is_answered(decision.outcome)
}

/// Until when the address of such a record has a live binding.
fn lease_of(alloc: Global, out: &StepOut, decision: &Record) -> Result<Entry, AllocError>
    ensures { IfOk result (λ row. row ≡ Definitions.lease_of out.now decision.now) }
{
    let mut key = Bytes::new(alloc);
    put_target(&mut key, &decision.target)?;
    let seconds = longest(alloc, out.packets.as_slice())?;
    Ok(Entry {
        key,
        value: out.at.saturating_add(seconds.saturating_mul(1000)),
    })
}

/// Keeps until when an address has one, if a record says so.
fn put_lease(
    alloc: Global,
    leases: &mut Items<Entry>,
    out: &StepOut,
    decision: &Record,
) -> Result<(), AllocError>
    ensures { OnOk result (leases.new ≡ Definitions.with_lease out.now leases.old decision.now) }
{
    let registered = is_registered(decision);
    if !registered {
        return Ok(());
    }
    let row = lease_of(alloc, out, decision)?;
    put_entry(leases, row)
}

#[tactic(auto, using(std::proofs::lemmas::List::at_drop_more, std::proofs::lemmas::List::drop_all))]
fn put_leases(
    alloc: Global,
    leases: &mut Items<Entry>,
    out: &StepOut,
    records: &[Record],
) -> Result<(), AllocError>
    ensures { OnOk result (leases.new ≡ fold (Definitions.with_lease out.now) leases.old records.now) }
{
    for decision in records {
        put_lease(alloc, leases, out, decision)?;
    }
    Ok(())
}

/// A count, and one more where a binding is live at a moment.
fn with_live(at: u64, count: u64, row: &Entry) -> u64
    ensures { result ≡ Definitions.with_live at count row.now }
{
    if at < row.value {
        return count.saturating_add(1);
    }
    count
}

/// How many addresses have a live binding at a moment.
#[tactic(auto, using(std::proofs::lemmas::List::at_drop_more, std::proofs::lemmas::List::drop_all))]
fn live_at(at: u64, rows: &[Entry]) -> u64
    ensures { result ≡ Definitions.live_at at rows.now }
{
    let mut count = 0;
    for row in rows {
        count = with_live(at, count, row);
    }
    count
}

/// The same at one of the moments that are looked at.
fn look_at(rows: &[Entry], first: u64, n: u64) -> u64
    ensures { result ≡ Definitions.look_at rows.now first n }
{
    live_at(first.saturating_add(n).saturating_mul(STEP), rows)
}

/// Looks at so many moments.
#[tactic(auto, using(crate::proofs::Looks::one_more))]
fn look(live: &mut Items<u64>, rows: &[Entry], first: u64, count: u64) -> Result<(), AllocError>
    ensures { OnOk result (live.new ≡ live.old ++ Definitions.looked rows.now first count) }
{
    for n in 0..count {
        live.push(look_at(rows, first, n))?;
    }
    Ok(())
}

/// Looks at each moment that is later than the last step, and not later than this one.
fn look_up_to(
    live: &mut Items<u64>,
    rows: &[Entry],
    last: Option<u64>,
    at: u64,
) -> Result<(), AllocError>
    ensures { OnOk result (live.new ≡ live.old ++ Definitions.looks rows.now last at) }
{
    match last {
        Some(last) => look(
            live,
            rows,
            last / STEP + 1,
            (at / STEP).saturating_sub(last / STEP),
        ),
        None => Ok(()),
    }
}

/// Keeps what a step says.
fn note(notes: &mut Notes, out: &StepOut) -> Result<(), AllocError>
    ensures { OnOk result (Definitions.AddsNotes notes.old out.now notes.new) }
{
    let records = out.records.as_slice();
    count_denials(notes.alloc, &mut notes.denied, records)?;
    look_up_to(&mut notes.live, notes.leases.as_slice(), notes.at, out.at)?;
    put_leases(notes.alloc, &mut notes.leases, out, records)?;
    notes.at = Some(out.at);
    Ok(())
}

impl Notes {
    /// Nothing yet. Takes no memory.
    pub fn new(alloc: Global) -> Self
        ensures { Definitions.AreFresh result }
    {
        Notes {
            alloc,
            denied: Items::new(alloc),
            leases: Items::new(alloc),
            live: Items::new(alloc),
            at: None,
        }
    }
}

impl Listener for Notes {
    ghost use Rattle.std.specs.Prelude.{⊤};
    ghost use Rattle.sipd_page_sections.specs.Notes.{hears_notes};

    ghost hears = { hears_notes };

    ghost refuses = { λ _ _ _. ⊤ };

    ghost gave_up = { λ _. ⊥ };

    fn hear(
        &mut self,
        config: &Config,
        event: Option<Event>,
        out: StepOut,
    ) -> Result<(), PrintStop> {
        match note(self, &out) {
            Ok(()) => Ok(()),
            Err(_) => Err(PrintStop::NoMemory),
        }
    }
}
