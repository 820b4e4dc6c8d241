//! Requests that are planned or are to be opened, with all memory that this takes: what is done with them afterwards takes none.
ghost use Rattle.std.specs.Prelude.{◌≡◌, ◌<◌, ◌^◌, IfOk};
ghost use Rattle.std.specs.List.{AllByRecursion, list_all};
ghost use Rattle.model_steps.specs.context_model.BranchById.{HasNumbers};
ghost use Rattle.sip_dialog_updates.specs.state.State as States;
ghost use Rattle.sip_dialog_updates.specs.state.declared.branch.Branch.{Branch};
ghost use Rattle.sip_request.specs.Named.{HasKeys};

use crate::row::OpenRow;
use sip_context::Sent;
use sip_dialog_updates::state::{Branch, OpenRequest, Phase, Side};
use sip_request::{Request, RequestPlan};
use sip_transaction_table::Boxed;
use std::alloc::{AllocError, Global};
use std::marker::Model;

/// An open request as it is to be, where it is to stand, with all the memory that it takes to take the place of the one of
/// its number and its key; seen as the request.
#[derive(Drop)]
pub struct ChangedRow {
    pub(crate) row: Boxed<OpenRow>,
}

impl Model for ChangedRow {
    ghost use Rattle.sip_dialog_updates.specs.state.declared.open_request.OpenRequest.{OpenRequest};
    ghost use Rattle.sip_fork.specs.Contexts.{IsPlaced};

    ghost Value = { OpenRequest };

    ghost view = { λ c. c.row.open_request };

    ghost invariant = { λ c. IsPlaced c.row };
}

/// A request as it is to be opened, where it is to stand, with all the memory that it takes; seen as the request.
#[derive(Drop)]
pub struct NewRow {
    pub(crate) place: Boxed<OpenRow>,
}

impl Model for NewRow {
    ghost use Rattle.sip_dialog_updates.specs.state.declared.open_request.OpenRequest.{OpenRequest};
    ghost use Rattle.sip_fork.specs.Contexts.{IsPlaced};

    ghost Value = { OpenRequest };

    ghost view = { λ o. o.place.open_request };

    ghost invariant = { λ o. IsPlaced o.place };
}

/// What an input makes of an open request: the request as it is to be, and what is sent.
#[derive(Drop)]
pub struct Prepared {
    pub change: ChangedRow,
    pub sent: Sent,
}

/// Whether the transactions of all branches have ended.
pub(crate) fn have_ended(branches: &[Branch]) -> bool
    ensures { result ≡ list_all (λ (b : Branch). States.is_ended b.phase) branches.now }
{
    branches
        .iter()
        .all(|branch| matches!(branch.phase, Phase::Ended))
}

/// Whether a request stays open no longer.
fn has_left(request: &OpenRequest) -> bool
    ensures { result ≡ States.has_left request.now }
{
    matches!(request.side, Side::Closed) && have_ended(request.branches.as_slice())
}

/// The number of a branch is one of 32 bits.
fn number_of(branch: &Branch) -> u32
    ensures same { result ≡ branch.now.number }
    ensures fits { branch.now.number < 2 ^ 32 }
{
    branch.number
}

/// The numbers of branches are of 32 bits.
fn numbers_fit(branches: &[Branch])
    ensures { AllByRecursion (λ (b : Branch). b.number < 2 ^ 32) branches.now }
{
    for branch in branches {
        let _number = number_of(branch);
    }
}

/// The number of a request is one of 64 bits, and those of its branches are of 32.
fn has_numbers(request: &OpenRequest) -> u64
    ensures same { result ≡ request.now.number }
    ensures fits { HasNumbers request.now }
{
    numbers_fit(request.branches.as_slice());
    request.number
}

impl ChangedRow {
    /// An open request as it was planned. Takes no memory.
    pub(crate) fn of(row: Boxed<OpenRow>) -> Self
        requires { HasKeys row.open_request row.branches }
        ensures { result ≡ row.open_request }
    {
        let _number = has_numbers(&row.get().request.open_request);
        ChangedRow { row }
    }

    /// The request.
    pub fn request(&self) -> &OpenRequest
        ensures { result.now ≡ self.now }
    {
        &self.row.get().request.open_request
    }

    /// Whether it stays open no longer.
    pub(crate) fn closes(&self) -> bool
        ensures { result ≡ States.has_left self.now }
    {
        has_left(&self.row.get().request.open_request)
    }
}

impl NewRow {
    /// A request as it is to be opened. `AllocError` is the only refusal.
    pub fn of(alloc: Global, request: OpenRequest) -> Result<Self, AllocError>
        ensures { IfOk result (λ opening. opening ≡ request) }
    {
        let plan = RequestPlan::of(alloc, request)?;
        let request = Request::planned(plan);
        let _number = has_numbers(&request.open_request);
        let place = Boxed::new(alloc, OpenRow { request })?;
        Ok(NewRow { place })
    }

    /// The request.
    pub fn request(&self) -> &OpenRequest
        ensures { result.now ≡ self.now }
    {
        &self.place.get().request.open_request
    }
}
