//! What all Vias of one run of this server begin with, read once, so that a response's top Via is known by its bytes alone
//! (RFC 3261 16.7 step 1, 18.1.2).
ghost use Rattle.std.specs.Prelude.{◌≡◌, ◌++◌, true, drop, IfOk, IfSome};
ghost use Rattle.sip_edit.specs.OwnViaPrefix.{EndsIn, IsOwnViaPrefix, IsOwnHostPort};

use crate::own_via::{branch_text, own_via_value};
use sip_route::Own;
use sip_route::header::via_before_branch;
use sip_text::{Buffer, Bytes, is_token};
use sip_text_runs::begins_with;
use std::alloc::{AllocError, Global};

/// How many bytes of a branch stand before its numbers: the magic cookie, the word of the run and a `.`.
const BEFORE_NUMBERS: usize = 24;

/// What each Via of a run of this server begins with, up to the numbers that end its branch. What such a Via says was read
/// once: so those on top of responses needn't be read.
#[derive(Drop)]
pub(crate) struct OwnViaPrefix {
    text: Bytes,
    /// How many of its bytes stand before the branch.
    before_branch: usize,
}

/// Whether a text is what a Via of this server's begins with, up to its branch.
#[tactic(auto, using(crate::proofs::OwnFronts::place_is))]
fn is_own_host_port(own: &Own, text: &[u8]) -> bool
    ensures { result ≡ true → IsOwnHostPort own.now text.now }
{
    match via_before_branch(text) {
        Some(via) => own.is_own_via(&via),
        None => false,
    }
}

/// What stands before the numbers of a branch.
fn before_numbers(branch: &[u8]) -> &[u8] {
    let (front, _) = branch.split_at(BEFORE_NUMBERS.min(branch.len()));
    front
}

/// A text with another behind it.
fn joined(alloc: Global, front: &[u8], rest: &[u8]) -> Result<Bytes, AllocError>
    ensures { IfOk result (λ text. text ≡ front.now ++ rest.now) }
{
    let mut text = Buffer::copy(alloc, front)?;
    text.extend(rest)?;
    Ok(text.into_bytes())
}

/// What follows a text at the front of a value, if it stands there.
#[tactic(auto, using(crate::proofs::OwnFronts::behind_is))]
fn behind<'v>(text: &[u8], value: &'v [u8]) -> Option<&'v [u8]>
    ensures { IfSome result (λ rest. value.now ≡ text.now ++ rest.now) }
{
    if !begins_with(value, text) {
        return None;
    }
    from_place(value, text.len())
}

/// A value from a place on.
fn from_place(value: &[u8], place: usize) -> Option<&[u8]>
    ensures { IfSome result (λ rest. rest.now ≡ drop place value.now) }
{
    if value.len() < place {
        return None;
    }
    let (_, rest) = value.split_at(place);
    Some(rest)
}

impl OwnViaPrefix {
    /// What the Vias of the run with this word begin with. None where they can't be told so, so that each is read. `AllocError`
    /// is the only refusal.
    #[tactic(auto, using(crate::proofs::OwnFronts::front_is))]
    pub(crate) fn of(
        alloc: Global,
        own: &Own,
        word: u64,
    ) -> Result<Option<OwnViaPrefix>, AllocError>
        ensures { IfOk result (λ front. IfSome front (IsOwnViaPrefix own.now)) }
    {
        let place = own_via_value(alloc, own, b"")?;
        if !is_own_host_port(own, place.as_slice()) {
            return Ok(None);
        }
        let branch = branch_text(alloc, word, 0, 0)?;
        let begun = before_numbers(branch.as_slice());
        if !is_token(begun) {
            return Ok(None);
        }
        let text = joined(alloc, place.as_slice(), begun)?;
        let before_branch = place.as_slice().len();
        Ok(Some(OwnViaPrefix {
            text,
            before_branch,
        }))
    }

    /// The branch of a Via that begins so and ends with it. None says nothing. Takes no memory.
    #[tactic(auto, using(crate::proofs::OwnFronts::ends_in))]
    pub(crate) fn branch_in<'v>(&self, value: &'v [u8]) -> Option<&'v [u8]>
        ensures { IfSome result (λ branch. EndsIn self.now value.now branch.now) }
    {
        let rest = behind(self.text.as_slice(), value)?;
        if !is_token(rest) {
            return None;
        }
        from_place(value, self.before_branch)
    }
}
