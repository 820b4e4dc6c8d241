//! Transactions that end where their request stands, since their deadline does no more: without a plan, and without memory.
ghost use Rattle.std.specs.Prelude.{◌≡◌, ◌≤◌, ◌^◌, true, ℕ, [], if◌then◌else◌, Some, None};
ghost use Rattle.std.specs.List.{list_all};
ghost use Rattle.sip_dialog_updates.specs.state.State as States;
ghost use Rattle.sip_dialog_updates.specs.state.declared.branch.Branch.{Branch};
ghost use Rattle.sip_dialog_updates.specs.state.declared.server.Server.{Server};
ghost use Rattle.sip_context.specs.declared.input.Input.{Input};
ghost use Rattle.sip_context.specs.Inputs.{changing, outcome_of};
ghost use Rattle.sip_fork.specs.Quiet.{alone, ends_alone};
ghost use Rattle.sip_request.specs.Ended.{become, ended_at};
ghost use Rattle.sip_request.specs.Named.{named_by};
ghost use Rattle.sip_request.specs.Near.{IsNear};
ghost use Rattle.sip_timers.specs.Moves.{IsHeld, Moves};
ghost use Rattle.sip_timers.specs.Setting.{SetsInOrder};
ghost use Rattle.sip_fork.specs.Ending.{IsDeadlineOf, ended};

use crate::change::have_ended;
use crate::quiet_ending::{branch_ends_quietly, side_ends_quietly};
use sip_context::state::is_invite;
use sip_dialog_updates::state::{Branch, OpenRequest, Side};
use sip_request::Request;
use sip_timers::Timers;
use sip_transaction_table::Transaction;

/// Whether the deadline of a transaction of an open request does no more than to end it: nothing is sent, and nothing else
/// of the request changes.
#[tactic(auto, using(crate::proofs::Ends::quiet_is, crate::proofs::Ends::side_quiet, crate::proofs::Ends::ends_there, crate::proofs::Ends::ends_nowhere))]
pub(crate) fn ends_quietly(request: &OpenRequest, transaction: Transaction) -> bool
    ensures exact { result ≡ ends_alone transaction request.now }
    ensures outcome { result ≡ true → (server : Server) (now : ℕ) (input : Input) → IsDeadlineOf request.now transaction input
        → outcome_of server now request.now input ≡ changing (alone (ended transaction request.now)) [] }
{
    match transaction {
        Transaction::Server => side_ends_quietly(request),
        Transaction::Client { place } => {
            let branches = request.branches.as_slice();
            if place >= branches.len() {
                return false;
            }
            branch_ends_quietly(request, &branches[place])
        }
    }
}

/// Whether the transactions of all branches have ended, once that of the branch at a place has.
fn have_others_ended(branches: &[Branch], place: usize) -> bool
    ensures { result ≡ list_all (λ (b : Branch). States.is_ended b.phase) (ended_at place branches.now) }
{
    if place >= branches.len() {
        return have_ended(branches);
    }
    let before = have_ended(&branches[..place]);
    if before {
        have_ended(&branches[place + 1..])
    } else {
        false
    }
}

/// Whether a request stays open no longer once a transaction of it has ended.
pub(crate) fn leaves_with(request: &OpenRequest, transaction: Transaction) -> bool
    ensures { result ≡ States.has_left (ended transaction request.now) }
{
    match transaction {
        Transaction::Server => have_ended(request.branches.as_slice()),
        Transaction::Client { place } => {
            matches!(request.side, Side::Closed)
                && have_others_ended(request.branches.as_slice(), place)
        }
    }
}

/// The number of an open request, if that is an INVITE.
pub(crate) fn invite_number(request: &OpenRequest) -> Option<u64>
    ensures { result ≡ (if States.is_invite request.now then Some request.now.number else None) }
{
    if is_invite(request) {
        Some(request.number)
    } else {
        None
    }
}

/// The timers of a transaction of an open request, which is to end, are stopped.
pub(crate) fn stop<T: Timers>(timers: &mut T, request: &Request, transaction: Transaction)
    requires held { IsHeld (T.pending timers.old) (named_by request.now) }
    requires timed { IsNear (2 ^ 64) request.now.open_request }
    ensures moves { Moves (T.pending timers.old) (named_by request.now) (T.pending timers.new)
        (named_by (become (ended transaction request.now.open_request) request.now)) }
    ensures sets { SetsInOrder (T.pending timers.old) [] (T.pending timers.new) [] }
    ensures left { T.room timers.old ≤ T.room timers.new }
    ensures still { T.reached timers.new ≡ T.reached timers.old }
{
    match transaction {
        Transaction::Server => request.stop_side(timers),
        Transaction::Client { place } => request.stop_branch(timers, place),
    }
}

/// A transaction of an open request ends. Its timers were stopped.
pub(crate) fn end(request: &mut Request, transaction: Transaction)
    ensures { request.new ≡ become (ended transaction request.old.open_request) request.old }
{
    match transaction {
        Transaction::Server => request.end_side(),
        Transaction::Client { place } => request.end_branch(place),
    }
}
