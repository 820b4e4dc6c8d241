ghost use Rattle.std.specs.Prelude.{◌≡◌, ◌<◌, ◌+◌, ◌^◌, IfOk, OnOk};
ghost use Rattle.sip_context.specs.Inputs.{IsFit, outcome, outcome_of};
ghost use Rattle.sip_request.specs.Named.{HasKeys};

use crate::change::{ChangedRow, Prepared};
use crate::row::OpenRow;
use sip_context::{Input, Sent, take_input};
use sip_dialog_updates::state::{OpenRequest, Server};
use sip_request::{Request, RequestPlan};
use sip_text::Items;
use sip_transaction_table::Boxed;
use std::alloc::{AllocError, Global};

/// A copy of an open request.
#[inline(always)]
fn clone_of(request: &OpenRequest) -> Result<OpenRequest, AllocError>
    ensures { IfOk result (λ copy. copy ≡ request.now) }
{
    request.clone()
}

/// A copy of an open request, where it is to stand, without keys. `AllocError` is the only refusal.
fn copied(alloc: Global, request: &OpenRequest) -> Result<Boxed<OpenRow>, AllocError>
    ensures { IfOk result (λ row. row.open_request ≡ request.now) }
{
    let plan = RequestPlan {
        request: clone_of(request)?,
        keys: Items::new(alloc),
    };
    let request = Request::planned(plan);
    Boxed::new(alloc, OpenRow { request })
}

/// Lets a request become what an input makes of it, where it is to stand. `AllocError` is the only refusal.
fn take_in(
    alloc: Global,
    server: &Server,
    now: u64,
    row: &mut Boxed<OpenRow>,
    input: Input<'_>,
) -> Result<Sent, AllocError>
    requires now { now + 185000 < 2 ^ 64 }
    requires fit { IsFit row.old.open_request input }
    ensures { IfOk result (λ sent. outcome row.new.open_request sent ≡ outcome_of server.now now row.old.open_request input.entry) }
{
    let standing = row.get_mut();
    take_input(
        alloc,
        server,
        now,
        &mut standing.request.open_request,
        input,
    )
}

/// Gives a request keys for its branches. `AllocError` is the only refusal.
fn give_keys(alloc: Global, row: &mut Boxed<OpenRow>) -> Result<(), AllocError>
    ensures request { row.new.open_request ≡ row.old.open_request }
    ensures keys { OnOk result (HasKeys row.new.open_request row.new.branches) }
{
    let standing = row.get_mut();
    standing.request.branches = RequestPlan::room_for(alloc, &standing.request.open_request)?;
    Ok(())
}

/// Prepares what an input makes of an open request at a moment, in milliseconds, and what is sent then: exactly the change
/// of its response context, or what goes again (RFC 3261 16.7 to 16.10, 17). `AllocError` is the only refusal.
pub(crate) fn prepared(
    alloc: Global,
    server: &Server,
    now: u64,
    request: &OpenRequest,
    input: Input<'_>,
) -> Result<Prepared, AllocError>
    requires now { now + 185000 < 2 ^ 64 }
    requires fit { IsFit request.now input }
    ensures { IfOk result (λ prepared. outcome prepared.change prepared.sent ≡ outcome_of server.now now request.now input.entry) }
{
    let mut row = copied(alloc, request)?;
    let sent = take_in(alloc, server, now, &mut row, input)?;
    give_keys(alloc, &mut row)?;
    let change = ChangedRow::of(row);
    Ok(Prepared { change, sent })
}
