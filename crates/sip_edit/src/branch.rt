ghost use Rattle.std.specs.Prelude.{◌≡◌, IfOk, IfSome, option_map};
ghost use Rattle.sip_edit.specs.OwnViaPrefix.{IsOwnViaPrefix, branch_said};
ghost use Rattle.sip_route.specs.Own.{own_branch};

use crate::own_via_prefix::OwnViaPrefix;
use sip_route::Own;
use sip_route::header::{Via, branch_of, via_of};
use std::alloc::{AllocError, Global};

/// The branch of a Via, if the Via is this server's.
fn own_branch<'v>(own: &Own, via: &Via<'v>) -> Option<&'v [u8]>
    ensures { option_map (λ branch. branch.now) result ≡ own_branch own.now via.now }
{
    if own.is_own_via(via) {
        return branch_of(&via.parameters);
    }
    None
}

/// The branch of a value of a Via, in any form, if it is this server's.
fn read_branch<'v>(
    alloc: Global,
    own: &Own,
    value: &'v [u8],
) -> Result<Option<&'v [u8]>, AllocError>
    ensures { IfOk result (λ branch. option_map (λ text. text.now) branch ≡ branch_said own.now value.now) }
{
    match via_of(alloc, value)? {
        Some(via) => Ok(own_branch(own, &via)),
        None => Ok(None),
    }
}

/// The same, where Vias of this server's begin so: one that does isn't read.
#[tactic(auto, using(crate::proofs::OwnFronts::branch_is))]
fn branch_by_front<'v>(
    alloc: Global,
    own: &Own,
    front: &OwnViaPrefix,
    value: &'v [u8],
) -> Result<Option<&'v [u8]>, AllocError>
    requires { IsOwnViaPrefix own.now front.now }
    ensures { IfOk result (λ branch. option_map (λ text. text.now) branch ≡ branch_said own.now value.now) }
{
    match front.branch_in(value) {
        Some(branch) => Ok(Some(branch)),
        None => read_branch(alloc, own, value),
    }
}

/// The same, where it may be known what Vias of this server's begin with.
pub(crate) fn branch_in<'v>(
    alloc: Global,
    own: &Own,
    front: Option<&OwnViaPrefix>,
    value: &'v [u8],
) -> Result<Option<&'v [u8]>, AllocError>
    requires { IfSome front (λ f. IsOwnViaPrefix own.now f.now) }
    ensures { IfOk result (λ branch. option_map (λ text. text.now) branch ≡ branch_said own.now value.now) }
{
    match front {
        Some(front) => branch_by_front(alloc, own, front, value),
        None => read_branch(alloc, own, value),
    }
}
