//! A request as it is before anything of it is sent, with its key and its branches. What is sent first is in `opening`.
ghost use Rattle.std.specs.Prelude.{◌≡◌, ◌+◌, ◌<◌, ◌^◌, ◌∷◌, [], length, Some, IfOk};
ghost use Rattle.sip_transaction_table.specs.Key.{key_of};
ghost use Rattle.sip_targets.specs.Targets.{target_list};
ghost use Rattle.sip_context_branches.specs.context_model.Opening as Definitions;
ghost use Rattle.sip_forwarding.specs.Arrivals.{arrived};

use crate::arrival::{Arrival, arriving};
use crate::branches::{branches_to, dialog_branch};
use model_steps::state::{Branch, KeptRequest, OpenRequest, Server};
use sip_base::Shared;
use sip_best::Final;
use sip_targets::Targets;
use sip_text::Items;
use sip_transaction_table::TransactionKey;
use sip_uri::Addr;
use std::alloc::{AllocError, Global};

/// The answers of the branches without an address: each counts as 503 (RFC 3261 16.9).
fn unsent(alloc: Global, branches: &[Branch]) -> Result<Items<Final>, AllocError>
    ensures { IfOk result (λ finals. finals ≡ Definitions.unsent branches.now) }
{
    let mut finals = Items::new(alloc);
    for branch in branches {
        if branch.address.is_none() {
            finals.push(Final {
                status: 503,
                message: None,
            })?;
        }
    }
    Ok(finals)
}

/// A request that came, with its key and its branches. `AllocError` is the only refusal.
pub(crate) fn forking(
    alloc: Global,
    arrival: Arrival,
    key: Shared<TransactionKey>,
    request: Shared<KeptRequest>,
    branches: Items<Branch>,
) -> Result<OpenRequest, AllocError>
    requires key { key_of request.message ≡ Some key }
    requires now { arrival.now + 32000 < 2 ^ 64 }
    ensures { IfOk result (λ open_request. open_request ≡ Definitions.forking (arrived arrival request) request.message branches) }
{
    let finals = unsent(alloc, branches.as_slice())?;
    let mut open_request = arriving(alloc, arrival, key, request);
    open_request.finals = finals;
    open_request.branches = branches;
    Ok(open_request)
}

/// A request that came and goes to its targets, with its key (RFC 3261 16.6). `AllocError` is the only refusal.
pub(crate) fn fork_to(
    alloc: Global,
    arrival: Arrival,
    key: Shared<TransactionKey>,
    request: Shared<KeptRequest>,
    targets: &Targets,
) -> Result<OpenRequest, AllocError>
    requires key { key_of request.message ≡ Some key }
    requires now { arrival.now + 32000 < 2 ^ 64 }
    requires count { length (target_list targets.now) + 1 < 2 ^ 32 }
    ensures { IfOk result (λ call. call ≡ Definitions.forking (arrived arrival request) request.message
        (Definitions.branches_from arrival.now 1 (target_list targets.now))) }
{
    let branches = branches_to(alloc, arrival.now, targets)?;
    forking(alloc, arrival, key, request, branches)
}

/// The one branch of a request in a dialog.
fn dialog_branches(
    alloc: Global,
    server: &Server,
    now: u64,
    request: &KeptRequest,
    address: Addr,
) -> Result<Items<Branch>, AllocError>
    requires { now + 32000 < 2 ^ 64 }
    ensures { IfOk result (λ branches. branches ≡ Definitions.dialog_branch server.now now request.now.message address ∷ []) }
{
    let view = request.view(alloc)?;
    let mut branches = Items::new(alloc);
    branches.push(dialog_branch(alloc, server, now, &view, address)?)?;
    Ok(branches)
}

/// A request of a dialog that came and goes to the address that the dialog holds, with its key (RFC 3261 16.12).
/// `AllocError` is the only refusal.
pub(crate) fn fork_within(
    alloc: Global,
    server: &Server,
    arrival: Arrival,
    key: Shared<TransactionKey>,
    request: Shared<KeptRequest>,
    address: Addr,
) -> Result<OpenRequest, AllocError>
    requires key { key_of request.message ≡ Some key }
    requires now { arrival.now + 32000 < 2 ^ 64 }
    ensures { IfOk result (λ call. call ≡ Definitions.forking (arrived arrival request) request.message
        (Definitions.dialog_branch server.now arrival.now request.message address ∷ [])) }
{
    let branches = dialog_branches(alloc, server, arrival.now, request.get(), address)?;
    forking(alloc, arrival, key, request, branches)
}
