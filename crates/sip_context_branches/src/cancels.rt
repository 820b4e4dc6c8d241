//! The CANCELs that branches are sent now (RFC 3261 9.1), each right behind its branch. Which are to be cancelled is said in `branches`.
ghost use Rattle.std.specs.Prelude.{◌≡◌, ◌+◌, ◌<◌, ◌^◌, ◌++◌, map, filter, count_by, IfOk, OnOk};
ghost use Rattle.std.specs.List.{flat_map};
ghost use Rattle.model_context.specs.Branches as Contexts;

use crate::branch::{cancel_branch, held_branch, is_cancellable};
use model_context::state::Branch;
use sip_text::Items;
use std::alloc::{AllocError, Global};

/// How many branches are sent a CANCEL now.
fn cancellable_count(branches: &[Branch]) -> usize
    ensures { result ≡ count_by Contexts.is_cancellable branches.now }
{
    let mut count = 0;
    for branch in branches {
        if is_cancellable(branch) {
            count += 1;
        }
    }
    count
}

/// The CANCELs of the branches that are sent one now, in a list of so much room.
#[inline(never)]
fn made_cancels(
    alloc: Global,
    now: u64,
    branches: &[Branch],
    room: usize,
) -> Result<Items<Branch>, AllocError>
    requires { now + 32000 < 2 ^ 64 }
    ensures { IfOk result (λ cancels. cancels ≡ map (Contexts.cancel_branch now) (filter Contexts.is_cancellable branches.now)) }
{
    let mut cancels = Items::with_room(alloc, room)?;
    for branch in branches {
        if is_cancellable(branch) {
            cancels.push(cancel_branch(now, branch)?)?;
        }
    }
    Ok(cancels)
}

/// The CANCELs of the branches that are sent one now. `AllocError` is the only refusal; where there is none, no memory
/// is asked for.
pub fn new_cancels(
    alloc: Global,
    now: u64,
    branches: &[Branch],
) -> Result<Items<Branch>, AllocError>
    requires { now + 32000 < 2 ^ 64 }
    ensures { IfOk result (λ cancels. cancels ≡ map (Contexts.cancel_branch now) (filter Contexts.is_cancellable branches.now)) }
{
    let count = cancellable_count(branches);
    if count == 0 {
        return Ok(Items::new(alloc));
    }
    made_cancels(alloc, now, branches, count)
}

/// Adds a branch, and right behind it the CANCEL that it is sent now, if it is.
fn put_with_cancel(
    now: u64,
    branches: &mut Items<Branch>,
    branch: &Branch,
) -> Result<(), AllocError>
    requires { now + 32000 < 2 ^ 64 }
    ensures { OnOk result (branches.new ≡ branches.old ++ Contexts.with_cancel now branch.now) }
{
    if is_cancellable(branch) {
        branches.push(held_branch(now, branch)?)?;
        branches.push(cancel_branch(now, branch)?)
    } else {
        branches.push(branch.clone()?)
    }
}

/// Some branches with the CANCELs that are sent now, in a list of so much room.
fn with_cancels(
    alloc: Global,
    now: u64,
    branches: &[Branch],
    room: usize,
) -> Result<Items<Branch>, AllocError>
    requires { now + 32000 < 2 ^ 64 }
    ensures { IfOk result (λ all. all ≡ flat_map (Contexts.with_cancel now) branches.now) }
{
    let mut all = Items::with_room(alloc, room)?;
    for branch in branches {
        put_with_cancel(now, &mut all, branch)?;
    }
    Ok(all)
}

/// The branches that are sent a CANCEL now wait for their final answers, and each has its CANCEL right behind it
/// (RFC 3261 9.1). `AllocError` is the only refusal; where none is sent one, no memory is asked for.
pub fn add_cancels(alloc: Global, now: u64, branches: &mut Items<Branch>) -> Result<(), AllocError>
    requires { now + 32000 < 2 ^ 64 }
    ensures { OnOk result (branches.new ≡ flat_map (Contexts.with_cancel now) branches.old) }
{
    let new = cancellable_count(branches.as_slice());
    if new == 0 {
        return Ok(());
    }
    let room = branches.as_slice().len().saturating_add(new);
    *branches = with_cancels(alloc, now, branches.as_slice(), room)?;
    Ok(())
}
