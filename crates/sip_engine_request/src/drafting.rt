ghost use Rattle.std.specs.Prelude.{◌≡◌, ◌≤◌, ◌<◌, ◌^◌, length, slice_get, Some, IfOk, IfSome};
ghost use Rattle.sip_proxy.specs.fork.Due.{GoesAgainBefore, IsDue, IsFirst};
ghost use Rattle.sip_proxy.specs.fork.Keeping.{IsKeptAs};
ghost use Rattle.sip_dialog_updates.specs.DialogUpdates.{beginnings};
ghost use Rattle.sip_dialog_updates.specs.state.declared.open_request.OpenRequest.{OpenRequest};
ghost use Rattle.sip_dialog_updates.specs.state.declared.server.Server as Declared;
ghost use Rattle.sip_proxy.specs.fork.Ending.{IsDeadlineOf, ended};
ghost use Rattle.sip_engine_request.specs.TimeSteps.{IsDueAs, IsFired, IsLastOf, IsOfPart, IsQuietEnd, ending_of};

use sip_dialog_updates::state::{Branch, OpenRequest};
use sip_proxy::context::Input;
use sip_proxy::fork::{Due, FirstDue};
use sip_proxy::transaction_table::Transaction;
use sip_proxy::{Configured, EventDraft, Proxy};
use sip_timers::Timers;
use std::alloc::{AllocError, Global};

/// The branch of an open request at a place.
pub(crate) fn branch_of(request: &OpenRequest, branch: usize) -> &Branch
    requires { branch < length request.now.branches }
    ensures { slice_get request.now.branches branch ≡ Some result.now }
{
    &request.branches.as_slice()[branch]
}

/// What is due of an open request, as an input to it.
fn input_of<'a>(request: &'a OpenRequest, first: FirstDue) -> Input<'a>
    requires { IsDue request.now first.due first.what }
    ensures due { IsDueAs request.now first.due result }
    ensures part { IsOfPart request.now first.what result }
    ensures last { GoesAgainBefore request.now first.due first.what → IsLastOf request.now first.due result }
    ensures ends { IfSome (ending_of first.what) (λ transaction. IsDeadlineOf request.now transaction result) }
{
    match first.what {
        Due::AnswerAgain => Input::AnswerAgain,
        Due::AnswerEnds => Input::SideDeadline,
        Due::BranchAgain { place } => Input::BranchAgain {
            branch: branch_of(request, place),
        },
        Due::BranchEnds { place } => Input::BranchDeadline {
            branch: branch_of(request, place),
        },
    }
}

/// The transaction whose deadline passes, if one does.
fn transaction_of(what: Due) -> Option<Transaction>
    ensures { result ≡ ending_of what }
{
    match what {
        Due::AnswerAgain => None,
        Due::AnswerEnds => Some(Transaction::Server),
        Due::BranchAgain { .. } => None,
        Due::BranchEnds { place } => Some(Transaction::Client { place }),
    }
}

/// The transaction that what is due first does no more than to end, if it does: nothing is sent, and nothing else of its open
/// request changes. Takes no memory.
pub(crate) fn quiet_end<T: Timers>(proxy: &Proxy<T>, first: FirstDue) -> Option<Transaction>
    requires first { IsFirst proxy.now.state.requests first }
    requires later { proxy.now.state.moment ≤ first.due }
    ensures quiet { IfSome result (λ transaction. (r : OpenRequest) → slice_get proxy.now.state.requests first.place ≡ Some r
        → IsQuietEnd first.due first.what r (ended transaction r)) }
    ensures kept { IfSome result (λ transaction. (server : Declared.Server) (r : OpenRequest) → slice_get proxy.now.state.requests first.place ≡ Some r
        → IsKeptAs first.due r (ended transaction r)) }
{
    let transaction = transaction_of(first.what)?;
    let _input = input_of(proxy.get(first.place), first);
    if proxy.ends_quietly(first.place, transaction) {
        Some(transaction)
    } else {
        None
    }
}

/// Drafts what is due first, at its own moment. `AllocError` is the only refusal.
pub(crate) fn draft_first<T: Timers>(
    alloc: Global,
    configured: &Configured<'_>,
    proxy: &Proxy<T>,
    first: FirstDue,
) -> Result<EventDraft, AllocError>
    requires first { IsFirst proxy.now.state.requests first }
    requires later { proxy.now.state.moment ≤ first.due }
    requires small { first.due < 2 ^ 62 }
    ensures fired { IfOk result (λ draft. (r : OpenRequest) → slice_get proxy.now.state.requests first.place ≡ Some r
        → IsFired configured.now.hops.now.addresses configured.now.server.now first.due first.what r draft) }
    ensures kept { IfOk result (λ draft. (r : OpenRequest) → slice_get proxy.now.state.requests first.place ≡ Some r
        → IsKeptAs first.due r draft.change) }
    ensures few { IfOk result (λ draft. beginnings draft.drafted.updates ≤ 1) }
{
    let input = input_of(proxy.get(first.place), first);
    proxy.draft_input(alloc, configured, first.due, first.place, input)
}
