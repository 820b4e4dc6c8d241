//! What the Contacts of a REGISTER do to a list of bindings (RFC 3261 10.3 steps 6 and 7): all go, one goes, or one is put.
//! Which of these a Contact asks for is read in `edits`.
ghost use Rattle.std.specs.Prelude.{◌≡◌, ◌<◌, [], length, IfOk, OnOk};
ghost use Rattle.std.specs.List.{list_any, position_or_len};
ghost use Rattle.sip_uri_equality.specs.Equality as Equality;
ghost use Rattle.sip_location.specs.Binding.{without_contact, put};

use crate::candidate_binding::CandidateBinding;
use crate::read_binding::ReadBinding;
use sip_uri_equality::Ordered;
use std::alloc::{AllocError, Global};
use std::marker::Model;

/// The bindings that an address of record may have after a REGISTER, in their order.
#[derive(Drop)]
pub(crate) struct Candidates<'a> {
    list: Vec<CandidateBinding<'a>>,
}

impl<'a> Model for Candidates<'a> {
    ghost use Rattle.std.specs.Prelude.{List};
    ghost use Rattle.sip_location.specs.declared.binding.Binding.{Binding};

    ghost Value = { List Binding };

    ghost view = { λ c. c.list.items };
}

impl<'a> Candidates<'a> {
    /// The bindings that stand.
    pub(crate) fn of(alloc: Global, bindings: &'a [ReadBinding<'_>]) -> Result<Self, AllocError>
        ensures { IfOk result (λ candidates. candidates ≡ bindings.now) }
    {
        let list = lent(alloc, bindings)?;
        Ok(Candidates { list })
    }

    pub(crate) fn as_slice(&self) -> &[CandidateBinding<'a>]
        ensures { result.now ≡ self.now }
    {
        self.list.as_slice()
    }

    /// Removes every binding.
    pub(crate) fn clear(&mut self)
        ensures { self.new ≡ [] }
    {
        self.list.clear();
    }

    /// Removes the bindings whose contact is equal to a URI.
    pub(crate) fn remove(&mut self, uri: &Ordered<'_>)
        ensures { self.new ≡ without_contact uri.now self.old }
    {
        remove_equal(&mut self.list, uri);
    }

    /// Puts a binding into the place of the first whose contact is equal to its own, or last; the others that
    /// are equal go.
    pub(crate) fn put(&mut self, binding: CandidateBinding<'a>) -> Result<(), AllocError>
        ensures { OnOk result (self.new ≡ put binding.entry self.old) }
    {
        put_in_place(&mut self.list, binding)
    }
}

fn lent<'a>(
    alloc: Global,
    bindings: &'a [ReadBinding<'_>],
) -> Result<Vec<CandidateBinding<'a>>, AllocError>
    ensures { IfOk result (λ candidates. candidates.items ≡ bindings.now) }
{
    let mut list = Vec::with_capacity(alloc, bindings.len().saturating_add(1))?;
    for binding in bindings {
        list.push(binding.candidate(alloc)?)?;
    }
    Ok(list)
}

fn remove_equal(list: &mut Vec<CandidateBinding<'_>>, uri: &Ordered<'_>)
    ensures { list.new.items ≡ without_contact uri.now list.old.items }
{
    list.retain(|binding| !binding.uri().same(uri));
}

/// The place of the first binding whose contact is equal to a URI; where there is none, their number.
fn place_of(bindings: &[CandidateBinding<'_>], uri: &Ordered<'_>) -> usize
    ensures { result ≡ position_or_len (λ b. Equality.same b.uri uri.now) bindings.now }
{
    for (i, binding) in bindings.iter().enumerate() {
        if binding.uri().same(uri) {
            return i;
        }
    }
    bindings.len()
}

/// Whether a binding among some has a contact that is equal to a URI.
fn any_is_equal(bindings: &[CandidateBinding<'_>], uri: &Ordered<'_>) -> bool
    ensures { result ≡ list_any (λ b. Equality.same b.uri uri.now) bindings.now }
{
    bindings.iter().any(|binding| binding.uri().same(uri))
}

/// Puts a binding into the place of the first whose contact is equal to its own; the others that are equal go, but
/// mostly there is none.
fn put_at<'a>(
    list: &mut Vec<CandidateBinding<'a>>,
    place: usize,
    binding: CandidateBinding<'a>,
) -> Result<(), AllocError>
    requires first { place ≡ position_or_len (λ b. Equality.same b.uri binding.uri) list.old.items }
    requires within { place < length list.old.items }
    ensures { OnOk result (list.new.items ≡ put binding.entry list.old.items) }
{
    if any_is_equal(&list[place + 1..], binding.uri()) {
        remove_equal(list, binding.uri());
        list.insert(place, binding)?;
        return Ok(());
    }
    list[place] = binding;
    Ok(())
}

/// Puts a binding among others, each of which is compared with it once, unless several are equal to it.
fn put_in_place<'a>(
    list: &mut Vec<CandidateBinding<'a>>,
    binding: CandidateBinding<'a>,
) -> Result<(), AllocError>
    ensures { OnOk result (list.new.items ≡ put binding.entry list.old.items) }
{
    let place = place_of(list, binding.uri());
    if place < list.len() {
        return put_at(list, place, binding);
    }
    list.push(binding)?;
    Ok(())
}
