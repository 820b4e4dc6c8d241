//! The calls of the registrar: bindings are looked up, a REGISTER is planned, and its plan is taken (RFC 3261 10.3 steps 6 to 8).
//! Who may register or list is decided before (`sip_verdict`).
ghost use Rattle.std.specs.Prelude.{◌≡◌, ◌≤◌, ◌<◌, ◌^◌, ℕ, List, [], true, false, nat_lt, length, filter, Ok, IsOk, IfOk, IfErr, IfSome, OnOk, OnErr};
ghost use Rattle.sip_uri.specs.declared.aor.Aor.{Aor};
ghost use Rattle.sip_uri.specs.Aor.{is_same_aor};
ghost use Rattle.sip_location.specs.declared.binding.Binding.{Binding};
ghost use Rattle.sip_location.specs.declared.error.LocationError.TheVariants.{NoMemory};
ghost use Rattle.sip_location.specs.declared.registration.Registration.{Registration};
ghost use Rattle.sip_location.specs.Binding.{live};
ghost use Rattle.sip_location.specs.AorBindings.{bindings_of};
ghost use Rattle.sip_location.specs.Locations.{of_aor, IsPlan, IsRefusal};
ghost use Rattle.sip_location.specs.Registration.{edited, registered};
ghost use Rattle.sip_location.specs.Refreshing.{asked_by};
ghost use Rattle.sip_location.specs.Sameness.{SameBindings, SameOutcome};

use crate::aor_bindings::AorBindings;
use crate::aor_ref::AorRef;
use crate::binding_table::BindingTable;
use crate::candidates::Candidates;
use crate::edits::apply_contacts;
use crate::error::LocationError;
use crate::kept_aor::KeptAor;
use crate::live::{Bindings, LiveBindings};
use crate::plan::RegisterPlan;
use crate::read_binding::{ReadBinding, is_live_row, standing_of};
use crate::refreshing::refreshed;
use crate::refusals::{has_bad_star, has_old_cseq, is_too_brief};
use crate::registration::{Refresh, Registration};
use crate::row::BindingRow;
use crate::rows::BindingRows;
use sip_uri::Aor;
use std::alloc::{AllocError, Global};
use std::marker::Model;

/// The most bindings that an address of record has.
const MOST: usize = 16;

/// The location service of a registrar (RFC 3261 10.3): the bindings of each address of record. What is asked of one
/// address costs by its own rows, however many addresses there are. Performs no I/O and reads no clock: moments are
/// handed in, in milliseconds.
#[derive(Drop)]
pub struct Locations {
    filing: BindingTable,
}

impl Model for Locations {
    ghost use Rattle.sip_location.specs.Locations.{LocationService};

    ghost Value = { LocationService };

    ghost view = { λ l. l.filing };
}

impl Locations {
    /// No binding. Refused with NoMemory where memory runs out.
    pub fn new(alloc: Global) -> Result<Self, LocationError>
        ensures ok { IfOk result (λ locations. locations.rows ≡ []) }
        ensures refused { IfErr result (λ e. e ≡ NoMemory) }
    {
        let filing = BindingTable::new(alloc);
        Ok(Locations { filing })
    }

    /// The live bindings of an address of record, in their order, lent. Takes no memory.
    pub fn live<'a>(&'a self, aor: &'a Aor, now: u64) -> LiveBindings<'a>
        ensures { result ≡ live aor.now now self.now.rows }
    {
        LiveBindings::new(
            Bindings::new(AorRef::of(aor), self.filing.rows_of(aor)),
            now,
        )
    }

    /// How many live bindings an address of record has. Takes no memory.
    pub fn count(&self, aor: &Aor, now: u64) -> usize
        ensures { result ≡ length (live aor.now now self.now.rows) }
    {
        live_count(self.filing.rows_of(aor), now)
    }

    /// Only where others say the same from a moment on: each address of record has the same live bindings, in their order. Takes
    /// no memory; a look-up for each address in either.
    pub fn is_same(&self, other: &Locations, now: u64) -> bool
        ensures { result ≡ true → SameBindings now self.now.rows other.now.rows }
    {
        if !self.filing.lives_in(&other.filing, now) {
            return false;
        }
        other.filing.lives_in(&self.filing, now)
    }

    /// What a REGISTER is to make of the bindings of its address of record (RFC 3261 10.3). It changes no binding, and
    /// makes the room that [`Locations::apply`] uses. Refused with BadStar, TooBrief, OldCSeq or TooMany, in this order;
    /// with NoMemory, possibly in place of any other answer, where memory runs out. Moments are below 2^62.
    pub fn plan(
        &mut self,
        request: &Registration<'_>,
        now: u64,
    ) -> Result<RegisterPlan, LocationError>
        requires { now < 2 ^ 62 }
        ensures plan { IfOk result (IsPlan self.old.rows request.now now) }
        ensures refused { IfErr result (IsRefusal self.old.rows request.now now) }
        ensures unchanged { self.new.rows ≡ self.old.rows }
        ensures room { OnOk result (1 ≤ self.new.room) }
    {
        let alloc = self.filing.alloc();
        let kept = self.filing.rows_of(&request.aor);
        let rows = planned(alloc, kept, &*request, now)?;
        let aor = KeptAor::of(alloc, &request.aor)?;
        self.filing.reserve_one()?;
        Ok(RegisterPlan {
            filed: AorBindings { aor, rows },
        })
    }

    /// What such a REGISTER is to make of them that has one Contact, the only binding's: the same plan, for which neither is
    /// read. None says nothing. It changes no binding, and makes the room that [`Locations::apply`] uses. `AllocError` is the
    /// only refusal. Moments are below 2^62.
    pub fn plan_refresh(
        &mut self,
        request: &Refresh<'_>,
        now: u64,
    ) -> Result<Option<RegisterPlan>, AllocError>
        requires { now < 2 ^ 62 }
        ensures plan { IfOk result (λ made. IfSome made (IsPlan self.old.rows (asked_by request.now) now)) }
        ensures unchanged { self.new.rows ≡ self.old.rows }
        ensures room { IfOk result (λ made. IfSome made (λ plan. 1 ≤ self.new.room)) }
    {
        let alloc = self.filing.alloc();
        let kept = self.filing.rows_of(request.aor);
        let Some(rows) = refreshed(alloc, kept, request, now)? else {
            return Ok(None);
        };
        let aor = KeptAor::of(alloc, request.aor)?;
        self.filing.reserve_one()?;
        Ok(Some(RegisterPlan {
            filed: AorBindings { aor, rows },
        }))
    }

    /// Gives the address of record of a plan its bindings, in place of all that it has. Takes no memory: `plan` made the
    /// room.
    pub fn apply(&mut self, plan: RegisterPlan)
        requires { 1 ≤ self.old.room }
        ensures own { of_aor plan.aor self.new.rows ≡ plan.bindings }
        ensures others { (other : Aor) → is_same_aor other plan.aor ≡ false → of_aor other self.new.rows ≡ of_aor other self.old.rows }
        ensures registered { (r : Registration) (now : ℕ) → IsPlan self.old.rows r now plan
            → SameOutcome now (Ok self.new.rows) (registered self.old.rows r now) }
    {
        let RegisterPlan { filed } = plan;
        self.filing.file(filed);
    }

    /// `plan`, then `apply`.
    pub fn update(&mut self, request: &Registration<'_>, now: u64) -> Result<(), LocationError>
        requires { now < 2 ^ 62 }
        ensures updated { OnOk result (SameOutcome now (Ok self.new.rows) (registered self.old.rows request.now now)) }
        ensures refused { IfErr result (IsRefusal self.old.rows request.now now) }
        ensures unchanged { OnErr result (self.new.rows ≡ self.old.rows) }
    {
        let plan = self.plan(request, now)?;
        self.apply(plan);
        Ok(())
    }
}

/// How many of some rows are live.
fn live_count(rows: &[BindingRow], now: u64) -> usize
    ensures { result ≡ length (filter (λ kept. nat_lt now kept.expires_at) rows.now) }
{
    rows.iter().filter(|row| is_live_row(row, now)).count()
}

/// The bindings that an address of record is to have, made of those that stand.
fn edited<'a>(
    alloc: Global,
    standing: &'a [ReadBinding<'_>],
    request: &'a Registration<'_>,
    now: u64,
) -> Result<Candidates<'a>, LocationError>
    requires { now < 2 ^ 62 }
    ensures plan { IfOk result (λ bindings. (rows : List Binding) → standing.now ≡ live request.now.aor now rows
        → IsOk (registered rows request.now now) × (bindings ≡ edited rows request.now now)) }
    ensures refused { IfErr result (λ e. (rows : List Binding) → standing.now ≡ live request.now.aor now rows → IsRefusal rows request.now now e) }
{
    let mut bindings = Candidates::of(alloc, standing)?;
    if request.contacts.as_slice().is_empty() {
        return Ok(bindings);
    }
    if has_bad_star(request) {
        return Err(LocationError::BadStar);
    }
    if is_too_brief(request) {
        return Err(LocationError::TooBrief);
    }
    if has_old_cseq(alloc, request, bindings.as_slice())? {
        return Err(LocationError::OldCSeq);
    }
    apply_contacts(alloc, &mut bindings, request, now)?;
    if bindings.as_slice().len() > MOST {
        return Err(LocationError::TooMany);
    }
    Ok(bindings)
}

/// What is to be kept of an address of record, made of what is kept.
fn planned<'a>(
    alloc: Global,
    rows: &'a [BindingRow],
    request: &'a Registration<'_>,
    now: u64,
) -> Result<BindingRows, LocationError>
    requires { now < 2 ^ 62 }
    ensures plan { IfOk result (λ planned. IsOk (registered (bindings_of request.now.aor rows.now) request.now now)
        × (bindings_of request.now.aor planned ≡ edited (bindings_of request.now.aor rows.now) request.now now)) }
    ensures refused { IfErr result (IsRefusal (bindings_of request.now.aor rows.now) request.now now) }
{
    let standing = standing_of(alloc, &request.aor, rows, now)?;
    let bindings = edited(alloc, standing.as_slice(), &*request, now)?;
    let rows = BindingRows::of(alloc, bindings.as_slice())?;
    Ok(rows)
}
