//! The checks of a request, as they are asked for: `sip_verdict` asks `refusal_of` of a new one, and `is_bad_request` of a
//! CANCEL.
ghost use Rattle.std.specs.Prelude.{◌≡◌, IfOk, Some, None, false, is_ok, is_some, option_map};
ghost use Rattle.std.specs.Result.{result_ok};
ghost use Rattle.std.specs.Option.{option_and_then, option_map_or};
ghost use Rattle.sip_message_fields.specs.declared.field_name.FieldName.TheVariants as Name;
ghost use Rattle.sip_message_fields.specs.Values.{first_value};
ghost use Rattle.sip_uri.specs.Reading.{reading_of};
ghost use Rattle.sip_header.specs.CoreFields as Cores;
ghost use Rattle.sip_header.specs.Via.{via_of};
ghost use Rattle.sip_route.specs.Way as Ways;
ghost use Rattle.sip_validate.specs.UncheckedRequest.{on_way, unchecked_with, is_request};
ghost use Rattle.sip_validate.specs.Faults;
ghost use Rattle.sip_validate.specs.Refusal as Definition;
ghost use Rattle.sip_validate.specs.Refused.{refused_with};
ghost use Rattle.sip_validate.specs.Checked.{Validates, validation_of};

use crate::checked::Checked;
use crate::refused::Refused;
use crate::unchecked_request::UncheckedRequest;
use sip_header::{CoreFields, HeaderError, Via, core_of};
use sip_message_form::{View, ViewStart};
use sip_route::{Own, Way, way_of};
use std::alloc::{AllocError, Global};

/// The core fields of a message, if each stands there once and can be read.
fn core_read<'v>(alloc: Global, message: &'v View<'_>) -> Result<Option<CoreFields<'v>>, AllocError>
    ensures { IfOk result (λ core. core ≡ result_ok (Cores.core_of message.now)) }
{
    match core_of(alloc, message) {
        Ok(core) => Ok(Some(core)),
        Err(HeaderError::NoMemory) => Err(AllocError),
        Err(_) => Ok(None),
    }
}

/// What refuses a message, if these are its top Via, its core fields and its way, and the Request-URI that is left is a
/// SIP or SIPS URI or not; nothing refuses a response.
#[tactic(auto, using(crate::proofs::Routes::of_candidate))]
fn refusal(
    alloc: Global,
    message: &View<'_>,
    via: &Via<'_>,
    short: bool,
    own: &Own,
    core: &CoreFields<'_>,
    way: &Way<'_>,
    is_uri: bool,
) -> Result<Option<Refused>, AllocError>
    requires via { option_and_then via_of (first_value Name.Via message.now.fields) ≡ Some via.now }
    requires way { way.now ≡ Ways.way_of own.now message.now }
    requires uri { is_uri ≡ is_ok (reading_of way.now.uri) }
    ensures { IfOk result (λ refused. refused ≡ option_map refused_with
        (option_map_or (λ r. Definition.refusal (on_way way.now r))
        (unchecked_with (Some core.now) own.now message.now.fields short message.now.start) None)) }
{
    match UncheckedRequest::of(own, message, via, short, core) {
        Some(candidate) => candidate.with_uri_left(way, is_uri).refusal(alloc, way),
        None => Ok(None),
    }
}

/// What refuses a request of which this was read, each once (RFC 3261 16.3, 8.2.2, 10.3): its top Via, its core fields, its
/// way, and whether the Request-URI that is left is a SIP or SIPS URI. All of it stays where it was read. `short` says that
/// fewer bytes of its body came than its Content-Length says. None where it may be served. `AllocError` is the only refusal of
/// the call.
#[tactic(auto, using(crate::proofs::Serving::by_table, crate::proofs::Uris::there_is_uri))]
pub fn refusal_of(
    alloc: Global,
    request: &View<'_>,
    via: &Via<'_>,
    short: bool,
    own: &Own,
    core: &CoreFields<'_>,
    way: &Way<'_>,
    is_uri: bool,
) -> Result<Option<Refused>, AllocError>
    requires via { option_and_then via_of (first_value Name.Via request.now.fields) ≡ Some via.now }
    requires core { result_ok (Cores.core_of request.now) ≡ Some core.now }
    requires way { way.now ≡ Ways.way_of own.now request.now }
    requires uri { is_uri ≡ is_some (Ways.request_uri_in way.now) }
    ensures row { IfOk result (λ refused. refused ≡ option_map refused_with (Definition.refusal_of own.now request.now short)) }
{
    refusal(alloc, request, via, short, own, core, way, is_uri)
}

/// Whether a message is a bad request, if its top Via and core fields are these; a response is none.
fn is_bad(
    alloc: Global,
    message: &View<'_>,
    via: &Via<'_>,
    short: bool,
    own: &Own,
    core: &CoreFields<'_>,
) -> Result<bool, AllocError>
    requires { option_and_then via_of (first_value Name.Via message.now.fields) ≡ Some via.now }
    ensures { IfOk result (λ bad. bad ≡ option_map_or Faults.is_bad
        (unchecked_with (Some core.now) own.now message.now.fields short message.now.start) false) }
{
    match UncheckedRequest::of(own, message, via, short, core) {
        Some(candidate) => candidate.is_bad(alloc),
        None => Ok(false),
    }
}

/// Whether a message is a request.
fn is_request(message: &View<'_>) -> bool
    ensures { result ≡ is_request message.now.start }
{
    match message.start() {
        ViewStart::Request { .. } => true,
        ViewStart::Status { .. } => false,
    }
}

/// What is read of a request that passes every check (RFC 3261 16.3, 8.2.2, 10.3), each once: its core fields, its way
/// and its Request-URI; its top Via was read before. `short` says that fewer bytes of its body came than its
/// Content-Length says. Refusals: `Status` with the status of the first row of the table that applies, and the value of
/// Unsupported in a 420; `NoMemory`. Of a response only the core fields are asked for, and 400 is its only status.
#[tactic(auto, using(crate::proofs::Serving::lacking, crate::proofs::Uris::read_is_uri))]
pub fn validate<'v>(
    alloc: Global,
    request: &'v View<'_>,
    via: &Via<'_>,
    short: bool,
    own: &Own,
) -> Result<Checked<'v>, Refused>
    requires { option_and_then via_of (first_value Name.Via request.now.fields) ≡ Some via.now }
    ensures { Validates result (validation_of own.now request.now short) }
{
    // Matched, not `?`: what is read is large, and is moved less so.
    let core = match core_of(alloc, request) {
        Ok(core) => core,
        Err(HeaderError::NoMemory) => return Err(Refused::NoMemory),
        Err(_) => return Err(Refused::of(alloc, 400)),
    };
    let way = way_of(alloc, own, request)?;
    let uri = match way.request_uri(alloc) {
        Ok(uri) => uri,
        Err(_) => return Err(Refused::NoMemory),
    };
    let is_uri = uri.is_some();
    if let Some(refused) = refusal(alloc, request, via, short, own, &core, &way, is_uri)? {
        return Err(refused);
    }
    Ok(Checked { core, way, uri })
}

/// Whether a request with this top Via is a bad one: what refuses a CANCEL, which no other row does (RFC 3261 9.2,
/// 16.10). A response is none. `AllocError` is the only refusal.
#[tactic(auto, using(crate::proofs::Serving::lacking_is_bad, crate::proofs::Serving::is_bad_with))]
pub fn is_bad_request(
    alloc: Global,
    request: &View<'_>,
    via: &Via<'_>,
    short: bool,
    own: &Own,
) -> Result<bool, AllocError>
    requires { option_and_then via_of (first_value Name.Via request.now.fields) ≡ Some via.now }
    ensures { IfOk result (λ bad. bad ≡ Definition.is_bad_request own.now request.now short) }
{
    let Some(core) = core_read(alloc, request)? else {
        return Ok(is_request(request));
    };
    is_bad(alloc, request, via, short, own, &core)
}
