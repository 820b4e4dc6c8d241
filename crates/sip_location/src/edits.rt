//! What a REGISTER makes of the live bindings of its address of record (RFC 3261 10.3 steps 6 and 7).
ghost use Rattle.std.specs.Prelude.{◌≡◌, ◌<◌, ◌≤◌, ◌^◌, OnOk};
ghost use Rattle.std.specs.Option.{option_map_or};
ghost use Rattle.sip_header.specs.NameAddr.{sip_uri};
ghost use Rattle.sip_uri.specs.Uri.{IsValid};
ghost use Rattle.sip_location.specs.ReadContacts.{IsValidUri, IsValidContact};
ghost use Rattle.sip_location.specs.Registration as Definitions;

use crate::candidate_binding::CandidateBinding;
use crate::candidates::Candidates;
use crate::interval::seconds_for;
use crate::registration::Registration;
use sip_header::{AnyUri, ContactItem};
use sip_uri::Uri;
use sip_uri_equality::Ordered;
use std::alloc::{AllocError, Global};

/// Binds a URI for some seconds, or removes what is equal to it for 0.
fn apply_uri<'a>(
    alloc: Global,
    bindings: &mut Candidates<'a>,
    request: &'a Registration<'_>,
    now: u64,
    uri: &'a Uri,
    seconds: u64,
) -> Result<(), AllocError>
    requires valid { IsValid uri.now }
    requires now { now < 2 ^ 62 }
    requires small { seconds ≤ 86400 }
    ensures { OnOk result (bindings.new ≡ Definitions.after_uri request.now now seconds bindings.old uri.now) }
{
    let uri = Ordered::of(alloc, uri)?;
    if seconds == 0 {
        bindings.remove(&uri);
        return Ok(());
    }
    bindings.put(CandidateBinding::bound(request, now, uri, seconds))
}

/// Does the same for a URI of any scheme. One of another than `sip` and `sips` leaves the bindings as they are.
fn apply_any_uri<'a>(
    alloc: Global,
    bindings: &mut Candidates<'a>,
    request: &'a Registration<'_>,
    now: u64,
    uri: &'a AnyUri<'_>,
    seconds: u64,
) -> Result<(), AllocError>
    requires valid { IsValidUri uri.now }
    requires now { now < 2 ^ 62 }
    requires small { seconds ≤ 86400 }
    ensures { OnOk result (bindings.new ≡ option_map_or (Definitions.after_uri request.now now seconds bindings.old) (sip_uri uri.now) bindings.old) }
{
    match uri {
        AnyUri::Sip(uri) => apply_uri(alloc, bindings, request, now, uri, seconds),
        AnyUri::Other(_) => Ok(()),
    }
}

fn apply_contact<'a>(
    alloc: Global,
    bindings: &mut Candidates<'a>,
    request: &'a Registration<'_>,
    now: u64,
    contact: &'a ContactItem<'_>,
) -> Result<(), AllocError>
    requires valid { IsValidContact contact.now }
    requires now { now < 2 ^ 62 }
    ensures { OnOk result (bindings.new ≡ Definitions.after_contact request.now now contact.now bindings.old) }
{
    match contact {
        ContactItem::Star => {
            bindings.clear();
            Ok(())
        }
        ContactItem::Address(address) => {
            let seconds = seconds_for(contact, request.expires);
            apply_any_uri(alloc, bindings, request, now, &address.uri, seconds)
        }
    }
}

/// Applies the contacts of a REGISTER in their order.
#[tactic(auto, using(std::proofs::lemmas::List::at_drop_more, std::proofs::lemmas::List::drop_all))]
pub(crate) fn apply_contacts<'a>(
    alloc: Global,
    bindings: &mut Candidates<'a>,
    request: &'a Registration<'_>,
    now: u64,
) -> Result<(), AllocError>
    requires now { now < 2 ^ 62 }
    ensures { OnOk result (bindings.new ≡ Definitions.after_contacts request.now now request.now.contacts bindings.old) }
{
    for contact in request.contacts.as_slice() {
        apply_contact(alloc, bindings, request, now, contact)?;
    }
    Ok(())
}
