//! Why a REGISTER is refused (RFC 3261 10.3 steps 6 and 7).
ghost use Rattle.std.specs.Prelude.{◌≡◌, ◌&&◌, is_some, IfOk};
ghost use Rattle.sip_uri_equality.specs.Equality as Equality;
ghost use Rattle.sip_location.specs.Newer.{is_of_call};
ghost use Rattle.std.specs.List.{list_any};
ghost use Rattle.sip_header.specs.NameAddr.{sip_uri};
ghost use Rattle.sip_location.specs.Registration as Definitions;

use crate::candidate_binding::CandidateBinding;
use crate::interval::{is_brief, is_zero, seconds_for};
use crate::registration::Registration;
use sip_header::{AnyUri, ContactItem, Expires};
use sip_text::same_bytes;
use sip_uri_equality::Ordered;
use std::alloc::{AllocError, Global};

fn is_star(contact: &ContactItem<'_>) -> bool
    ensures { result ≡ Definitions.is_star contact.now }
{
    match contact {
        ContactItem::Star => true,
        ContactItem::Address(_) => false,
    }
}

fn has_star(contacts: &[ContactItem<'_>]) -> bool
    ensures { result ≡ list_any Definitions.is_star contacts.now }
{
    contacts.iter().any(|contact| is_star(contact))
}

/// A `*` beside another Contact, or without an Expires of 0.
pub(crate) fn has_bad_star(request: &Registration<'_>) -> bool
    ensures { result ≡ Definitions.has_bad_star request.now }
{
    let contacts = request.contacts.as_slice();
    has_star(contacts) && !(contacts.len() == 1 && is_zero(request.expires))
}

fn is_sip(uri: &AnyUri<'_>) -> bool
    ensures { result ≡ is_some (sip_uri uri.now) }
{
    matches!(uri, AnyUri::Sip(_))
}

fn asks_briefly(contact: &ContactItem<'_>, expires: Expires) -> bool
    ensures { result ≡ Definitions.asks_briefly expires contact.now }
{
    match contact {
        ContactItem::Star => false,
        ContactItem::Address(address) => {
            is_sip(&address.uri) && is_brief(seconds_for(contact, expires))
        }
    }
}

fn any_asks_briefly(contacts: &[ContactItem<'_>], expires: Expires) -> bool
    ensures { result ≡ list_any (Definitions.asks_briefly expires) contacts.now }
{
    contacts
        .iter()
        .any(|contact| asks_briefly(contact, expires))
}

/// Whether some contact asks for less than a minute.
pub(crate) fn is_too_brief(request: &Registration<'_>) -> bool
    ensures { result ≡ Definitions.is_too_brief request.now }
{
    any_asks_briefly(request.contacts.as_slice(), request.expires)
}

/// Whether a binding was made in the same Call-ID by a CSeq that isn't lower.
fn is_of_call(binding: &CandidateBinding<'_>, request: &Registration<'_>) -> bool
    ensures { result ≡ is_of_call request.now binding.now }
{
    same_bytes(binding.call_id(), request.call_id.as_slice()) && request.cseq <= binding.cseq()
}

fn any_of_call(bindings: &[CandidateBinding<'_>], request: &Registration<'_>) -> bool
    ensures { result ≡ list_any (is_of_call request.now) bindings.now }
{
    bindings.iter().any(|binding| is_of_call(binding, request))
}

/// Whether such a binding's contact is equal to a URI.
fn any_equal_of_call(
    bindings: &[CandidateBinding<'_>],
    request: &Registration<'_>,
    uri: &Ordered<'_>,
) -> bool
    ensures { result ≡ list_any (λ b. is_of_call request.now b && Equality.same b.uri uri.now) bindings.now }
{
    bindings.iter().any(|binding| is_of_call(binding, request) && binding.uri().same(uri))
}

/// Whether a contact speaks of such a binding.
fn speaks_of_newer(
    alloc: Global,
    contact: &ContactItem<'_>,
    request: &Registration<'_>,
    bindings: &[CandidateBinding<'_>],
) -> Result<bool, AllocError>
    ensures { IfOk result (λ speaks. speaks ≡ list_any (λ b. is_of_call request.now b && Definitions.speaks_of b contact.now) bindings.now) }
{
    match contact {
        ContactItem::Star => Ok(any_of_call(bindings, request)),
        ContactItem::Address(address) => match &address.uri {
            AnyUri::Sip(uri) => {
                let uri = Ordered::of(alloc, uri)?;
                Ok(any_equal_of_call(bindings, request, &uri))
            }
            AnyUri::Other(_) => Ok(false),
        },
    }
}

/// Whether some contact speaks of such a binding.
#[tactic(auto, using(std::proofs::lemmas::List::at_drop_more, std::proofs::lemmas::List::drop_all))]
fn any_speaks_of_newer(
    alloc: Global,
    contacts: &[ContactItem<'_>],
    request: &Registration<'_>,
    bindings: &[CandidateBinding<'_>],
) -> Result<bool, AllocError>
    ensures { IfOk result
        (λ speaks. speaks ≡ list_any (λ c. list_any (λ b. is_of_call request.now b && Definitions.speaks_of b c) bindings.now) contacts.now) }
{
    for contact in contacts {
        if speaks_of_newer(alloc, contact, request, bindings)? {
            return Ok(true);
        }
    }
    Ok(false)
}

/// Whether a live binding from before the request is newer than it. Mostly none is of its Call-ID with such a CSeq.
#[tactic(auto, using(crate::proofs::Older::by_contacts, crate::proofs::Older::none_of_call))]
pub(crate) fn has_old_cseq(
    alloc: Global,
    request: &Registration<'_>,
    bindings: &[CandidateBinding<'_>],
) -> Result<bool, AllocError>
    ensures { IfOk result (λ old. old ≡ Definitions.has_old_cseq request.now bindings.now) }
{
    if !any_of_call(bindings, request) {
        return Ok(false);
    }
    any_speaks_of_newer(alloc, request.contacts.as_slice(), request, bindings)
}
