//! Requests that name a dialog (RFC 3261 12.2.2, 16.12.1): one goes on only to an address that this dialog is known to hold.
ghost use Rattle.std.specs.Prelude.{◌≡◌, IfOk, IfSome, Some, []};
ghost use Rattle.std.specs.Option.{option_and_then, unwrap_or};
ghost use Rattle.std.specs.Result.{result_ok};
ghost use Rattle.sip_dialog.specs.DialogId as Names;
ghost use Rattle.sip_header.specs.CoreFields.{core_of};
ghost use Rattle.sip_header.specs.Parameters as Parameters;
ghost use Rattle.sip_hops.specs.HostAddress.{address_of};
ghost use Rattle.sip_route.specs.Way as Ways;
ghost use Rattle.sip_verdict.specs.Within.{GoesOn};

use crate::Judge;
use crate::validated::Validated;
use sip_dialog::{DialogId, Dialogs};
use sip_header::{CoreFields, tag_of};
use sip_policy::Rules;
use sip_route::Way;
use sip_targets::RequestUri;
use sip_uri::Addr;
use std::alloc::{AllocError, Global};

/// The tag of From; it is empty where there is none.
fn from_tag<'v>(core: &CoreFields<'v>) -> &'v [u8]
    ensures { result.now ≡ unwrap_or (Parameters.tag_of core.now.from.parameters) [] }
{
    match tag_of(core.from.parameters()) {
        Some(tag) => tag,
        None => b"",
    }
}

/// The dialog that a request with these core fields names, if its To has a tag (RFC 3261 12.2.2).
fn dialog_of(alloc: Global, core: &CoreFields<'_>) -> Result<Option<DialogId>, AllocError>
    ensures { IfOk result (λ id. id ≡ Names.id_of core.now) }
{
    let Some(to_tag) = tag_of(core.to.parameters()) else {
        return Ok(None);
    };
    let id = DialogId::of(alloc, core.call_id.as_slice(), from_tag(core), to_tag)?;
    Ok(Some(id))
}

/// The address to which a request goes by its Request-URI, if it has one.
fn address_for<R: Rules>(judge: &Judge<R>, uri: &RequestUri<'_>) -> Option<Addr>
    ensures { result ≡ option_and_then (address_of judge.now.config.addresses) uri.now }
{
    uri.address(judge.hops())
}

/// The address of the URI that the first Route of a way names. It stands apart, so that no room is made for a URI where
/// none is read.
#[inline(never)]
fn routed_address<R: Rules>(
    alloc: Global,
    judge: &Judge<R>,
    way: &Way<'_>,
) -> Result<Option<Addr>, AllocError>
    ensures { IfOk result (λ address. address ≡ option_and_then (address_of judge.now.config.addresses) (Ways.next_uri way.now)) }
{
    match way.next_uri(alloc)? {
        Some(uri) => Ok(judge.hops().address_of(&uri)),
        None => Ok(None),
    }
}

/// The address where a request of which this was read is to go next. Its Request-URI isn't read again.
#[tactic(auto, using(crate::proofs::Going::straight))]
fn next_address<R: Rules>(
    alloc: Global,
    judge: &Judge<R>,
    way: &Way<'_>,
    uri: &RequestUri<'_>,
) -> Result<Option<Addr>, AllocError>
    requires { uri.now ≡ Ways.request_uri_in way.now }
    ensures { IfOk result (λ address. address ≡ option_and_then (address_of judge.now.config.addresses) (Ways.next_uri way.now)) }
{
    if way.routes.as_slice().is_empty() {
        return Ok(address_for(judge, uri));
    }
    routed_address(alloc, judge, way)
}

/// Where a request that passed the checks goes in a dialog that is known: to the next address of its way, if the dialog
/// that it names holds that (RFC 3261 12.2.2, 16.12.1). None where it isn't in a dialog that is known.
#[tactic(auto, using(crate::proofs::Going::unnamed, crate::proofs::Going::unaddressed, crate::proofs::Going::held, crate::proofs::Going::not_held, crate::proofs::Going::left))]
pub(crate) fn within<R: Rules>(
    alloc: Global,
    judge: &Judge<R>,
    dialogs: &Dialogs,
    request: &Validated<'_, '_>,
) -> Result<Option<(Addr, DialogId)>, AllocError>
    requires core { result_ok (core_of request.now.message.now) ≡ Some request.now.core.now }
    requires way { request.now.way.now ≡ Ways.way_of judge.now.config.own request.now.message.now }
    requires uri { request.now.uri.now ≡ Ways.request_uri_of judge.now.config.own request.now.message.now }
    ensures goes { IfOk result (GoesOn judge.now dialogs.now.dialogs request.now.moment request.now.message.now) }
    ensures named { IfOk result (λ way. IfSome way (λ on. Some on.1 ≡ Names.id_of request.now.core.now)) }
{
    let Some(id) = dialog_of(alloc, request.core)? else {
        return Ok(None);
    };
    let Some(address) = next_address(alloc, judge, request.way, request.uri)? else {
        return Ok(None);
    };
    if dialogs.allows(&id, address, request.moment) {
        return Ok(Some((address, id)));
    }
    Ok(None)
}
