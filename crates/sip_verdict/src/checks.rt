ghost use Rattle.std.specs.Prelude.{◌≡◌, IfOk, Some, option_map};
ghost use Rattle.std.specs.Result.{result_ok};
ghost use Rattle.sip_edit.specs.ReceivedRequest.{top_via};
ghost use Rattle.sip_header.specs.CoreFields.{core_of};
ghost use Rattle.sip_route.specs.Way.{way_of, request_uri_in};
ghost use Rattle.sip_validate.specs.Refusal.{refusal_of};
ghost use Rattle.sip_validate.specs.Refused.{refused_with};

use crate::Judge;
use crate::received::Received;
use sip_header::CoreFields;
use sip_policy::Rules;
use sip_route::Way;
use sip_targets::RequestUri;
use sip_validate::{Refused, refusal_of};
use std::alloc::{AllocError, Global};

/// The SIP or SIPS URI that a request is for, by its way.
#[inline]
pub(crate) fn request_uri<'a>(alloc: Global, way: &'a Way<'_>) -> Result<RequestUri<'a>, AllocError>
    ensures { IfOk result (λ uri. uri ≡ request_uri_in way.now) }
{
    RequestUri::of(alloc, way.uri.as_slice())
}

/// What refuses a request of which this was read, if anything does (RFC 3261 16.3).
pub(crate) fn refusal<R: Rules>(
    alloc: Global,
    judge: &Judge<R>,
    request: &Received<'_, '_>,
    core: &CoreFields<'_>,
    way: &Way<'_>,
    uri: &RequestUri<'_>,
) -> Result<Option<Refused>, AllocError>
    requires via { top_via request.now.message.now ≡ Some request.now.via.now }
    requires core { result_ok (core_of request.now.message.now) ≡ Some core.now }
    requires way { way.now ≡ way_of judge.now.config.own request.now.message.now }
    requires uri { uri.now ≡ request_uri_in way.now }
    ensures { IfOk result (λ refused. refused ≡ option_map refused_with (refusal_of judge.now.config.own request.now.message.now
        request.now.short)) }
{
    let own = &judge.server().config.own;
    refusal_of(
        alloc,
        request.message,
        request.via,
        request.short,
        own,
        core,
        way,
        uri.is_some(),
    )
}
