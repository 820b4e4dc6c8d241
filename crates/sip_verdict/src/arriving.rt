//! The verdict on a request that no open one is found for: the cases in their order, of which the first that applies counts.
//! It changes nothing: `sip_engine` carries it out.
ghost use Rattle.std.specs.Prelude.{◌≡◌, ◌≢◌, ◌<◌, ◌^◌, IfOk, OnOk, Bool, false, ℕ, List, Option, Some, None, is_some, [], codes};
ghost use Rattle.std.specs.Str.{bytes_eq};
ghost use Rattle.std.specs.Result.{result_ok};
ghost use Rattle.sip_dialog.specs.DialogId.{id_of};
ghost use Rattle.sip_edit.specs.ReceivedRequest.{top_via};
ghost use Rattle.sip_message_form.specs.declared.message.Message.{Message};
ghost use Rattle.sip_header.specs.CoreFields.{core_of};
ghost use Rattle.sip_header.specs.declared.error.HeaderError.TheVariants.{NoMemory};
ghost use Rattle.sip_transaction_table.specs.declared.key.TransactionKey.{TransactionKey};
ghost use Rattle.sip_location.specs.declared.binding.Binding.{Binding};
ghost use Rattle.model_verdict.specs.state.Arrival.{Arrival};
ghost use Rattle.model_verdict.specs.state.Names.{AreNames};
ghost use Rattle.model_verdict.specs.state.declared.open_request.OpenRequest.{OpenRequest};
ghost use Rattle.model_verdict.specs.state.declared.proxy_state.ProxyState.{ProxyState};
ghost use Rattle.model_verdict.specs.state.declared.server.Server.{Server};
ghost use Rattle.sip_route.specs.Way.{way_of, request_uri_of};
ghost use Rattle.sip_validate.specs.Refusal.{refusal_of};
ghost use Rattle.model_verdict.specs.Verdict as Definition;
ghost use Rattle.sip_verdict.specs.Verdict as Spec;
ghost use Rattle.sip_verdict.specs.Verdict.{Is, IsRequestOf, Knows, HasRoom, goes_on};

use crate::Judge;
use crate::acknowledging::ack_verdict;
use crate::cancelling::cancel_verdict;
use crate::checks::{refusal, request_uri};
use crate::dialog_request::within;
use crate::known_tables::KnownTables;
use crate::policy::policy_verdict;
use crate::question::is_register;
use crate::received::Received;
use crate::validated::Validated;
use crate::verdict::{PolicyOutcome, Verdict};
use model_verdict::state::DialogNames;
use sip_dialog::Dialogs;
use sip_edit_response::unsupported_field;
use sip_header::{CoreFields, HeaderError, core_of, tag_of};
use sip_location::Locations;
use sip_message_fields::Fields;
use sip_policy::Rules;
use sip_route::way_of;
use sip_targets::Targets;
use sip_validate::Refused;
use sip_validate::laws::unread_is_refused;
use std::alloc::{AllocError, Global};

/// The fields of a status that refuses a request (RFC 3261 8.2.2.3).
fn refusal_fields(alloc: Global, status: u16, items: &[u8]) -> Result<Fields, AllocError>
    ensures { IfOk result (λ fields. fields ≡ Definition.refusal_fields (status, items.now)) }
{
    let mut fields = Fields::new(alloc);
    if status == 420 {
        fields.push(unsupported_field(alloc, items)?)?;
    }
    Ok(fields)
}

/// A request that the checks refuse is answered so.
fn refusal_verdict<'v>(alloc: Global, status: u16, items: &[u8]) -> Result<Verdict<'v>, AllocError>
    ensures verdict { IfOk result (λ verdict. (server : Server) (state : ProxyState) (now : ℕ) (m : Message) (method : List ℕ)
        (rows : List Binding) (named : Option OpenRequest)
        → Is server rows now named (Definition.checked_verdict server state now m method (Some (status, items.now))) verdict) }
    ensures room { IfOk result (λ verdict. (room : ℕ) → HasRoom room verdict) }
    ensures kept { IfOk result (λ verdict. goes_on verdict ≡ false) }
{
    Ok(Verdict::Answer(status, refusal_fields(alloc, status, items)?))
}

/// A request whose core fields can't be read is a bad one.
fn unread_verdict<'v>(alloc: Global, error: &HeaderError) -> Result<Verdict<'v>, AllocError>
    ensures verdict { IfOk result (λ verdict. (server : Server) (state : ProxyState) (now : ℕ) (m : Message) (method : List ℕ)
        (rows : List Binding) (named : Option OpenRequest)
        → Is server rows now named (Definition.checked_verdict server state now m method (Some (400, []))) verdict) }
    ensures memory { OnOk result (error.now ≢ NoMemory) }
    ensures room { IfOk result (λ verdict. (room : ℕ) → HasRoom room verdict) }
    ensures kept { IfOk result (λ verdict. goes_on verdict ≡ false) }
{
    match error {
        HeaderError::NoMemory => Err(AllocError),
        HeaderError::Missing(_) | HeaderError::Malformed(_) => refusal_verdict(alloc, 400, &[]),
    }
}

/// Whether To has a tag, so that a request names a dialog (RFC 3261 12.2).
fn names_dialog(core: &CoreFields<'_>) -> bool
    ensures { result ≡ is_some (id_of core.now) }
{
    match tag_of(core.to.parameters()) {
        Some(_) => true,
        None => false,
    }
}

/// Whether a request is outside a dialog: its To has no tag, or it is a REGISTER, which belongs to none (RFC 3261 10.2,
/// 12.2).
fn is_outside(method: &[u8], core: &CoreFields<'_>) -> bool
    ensures { result ≡ Definition.is_outside method.now core.now }
{
    if is_register(method) {
        return true;
    }
    !names_dialog(core)
}

/// Whether a request goes to somebody by what policy decided.
fn goes_out(outcome: &PolicyOutcome) -> bool
    ensures { result ≡ Spec.goes_out outcome.now }
{
    match outcome {
        PolicyOutcome::Send(_, targets) => match targets {
            Targets::Bindings(_) | Targets::Hop(_, _) => true,
            Targets::NotFound | Targets::Unavailable => false,
        },
        PolicyOutcome::Challenge | PolicyOutcome::Deny(_) | PolicyOutcome::Register(_, _) => false,
    }
}

/// A request that passed the checks goes on in its dialog; where that isn't known, it is answered 481. What names its dialogs
/// shares the texts by which that one was looked up.
#[tactic(auto, using(crate::proofs::Going::names_are))]
fn request_within<'v, R: Rules>(
    alloc: Global,
    judge: &Judge<R>,
    dialogs: &Dialogs,
    request: &Validated<'v, '_>,
    names: &mut Option<DialogNames>,
) -> Result<Verdict<'v>, AllocError>
    requires core { result_ok (core_of request.now.message.now) ≡ Some request.now.core.now }
    requires way { request.now.way.now ≡ way_of judge.now.config.own request.now.message.now }
    requires uri { request.now.uri.now ≡ request_uri_of judge.now.config.own request.now.message.now }
    requires names { AreNames request.now.message.now names.now }
    requires none { names.now ≡ None }
    ensures verdict { IfOk result (λ verdict. (state : ProxyState) → state.dialogs ≡ dialogs.now.dialogs
        → (rows : List Binding) (named : Option OpenRequest)
        → Is judge.now rows request.now.moment named (Definition.within judge.now state request.now.moment request.now.message.now
        Definition.InDialog (Definition.Answer 481 [])) verdict) }
    ensures room { IfOk result (λ verdict. (room : ℕ) → HasRoom room verdict) }
    ensures names { AreNames request.now.message.now names.new }
    ensures made { IfOk result (λ verdict. is_some names.new ≡ goes_on verdict) }
{
    match within(alloc, judge, dialogs, request)? {
        Some((address, id)) => {
            *names = Some(DialogNames::of_dialog(alloc, &id)?);
            Ok(Verdict::InDialog(address, id))
        }
        None => Ok(Verdict::Answer(481, Fields::new(alloc))),
    }
}

/// The verdict on a request that passed the checks and for which there is room.
fn core_verdict<'v, R: Rules>(
    alloc: Global,
    judge: &Judge<R>,
    locations: &mut Locations,
    known: &KnownTables<'_>,
    request: &Validated<'v, '_>,
    names: &mut Option<DialogNames>,
) -> Result<Verdict<'v>, AllocError>
    requires moment { request.now.moment < 2 ^ 62 }
    requires core { result_ok (core_of request.now.message.now) ≡ Some request.now.core.now }
    requires way { request.now.way.now ≡ way_of judge.now.config.own request.now.message.now }
    requires uri { request.now.uri.now ≡ request_uri_of judge.now.config.own request.now.message.now }
    requires names { AreNames request.now.message.now names.now }
    requires none { names.now ≡ None }
    ensures verdict { IfOk result (λ verdict. (state : ProxyState) (is_full : Bool)
        → Knows state locations.old.rows known.now.nonces.now known.now.dialogs.now.dialogs is_full → (named : Option OpenRequest)
        → Is judge.now locations.old.rows request.now.moment named (Definition.core_verdict judge.now state request.now.moment
        request.now.message.now request.now.method.now (Some request.now.core.now)) verdict) }
    ensures unchanged { locations.new.rows ≡ locations.old.rows }
    ensures room { IfOk result (HasRoom locations.new.room) }
    ensures names { AreNames request.now.message.now names.new }
    ensures made { IfOk result (λ verdict. is_some names.new ≡ goes_on verdict) }
{
    let core = request.core;
    if is_outside(request.method, core) {
        return match policy_verdict(alloc, judge, locations, known.nonces, request) {
            Ok(judged) => {
                if goes_out(&judged.get().outcome) {
                    *names = Some(DialogNames::of(alloc, core)?);
                }
                Ok(Verdict::Judged(judged))
            }
            Err(refusal) => Err(refusal),
        };
    }
    request_within(alloc, judge, known.dialogs, request, names)
}

/// The verdict on a request that passed the checks: 503 without room, else it is served.
fn passed_verdict<'v, R: Rules>(
    alloc: Global,
    judge: &Judge<R>,
    locations: &mut Locations,
    known: &KnownTables<'_>,
    request: &Validated<'v, '_>,
    names: &mut Option<DialogNames>,
) -> Result<Verdict<'v>, AllocError>
    requires moment { request.now.moment < 2 ^ 62 }
    requires core { result_ok (core_of request.now.message.now) ≡ Some request.now.core.now }
    requires way { request.now.way.now ≡ way_of judge.now.config.own request.now.message.now }
    requires uri { request.now.uri.now ≡ request_uri_of judge.now.config.own request.now.message.now }
    requires names { AreNames request.now.message.now names.now }
    requires none { names.now ≡ None }
    ensures verdict { IfOk result (λ verdict. (state : ProxyState)
        → Knows state locations.old.rows known.now.nonces.now known.now.dialogs.now.dialogs known.now.is_full → (named : Option OpenRequest)
        → Is judge.now locations.old.rows request.now.moment named (Definition.checked_verdict judge.now state request.now.moment
        request.now.message.now request.now.method.now None) verdict) }
    ensures unchanged { locations.new.rows ≡ locations.old.rows }
    ensures room { IfOk result (HasRoom locations.new.room) }
    ensures names { AreNames request.now.message.now names.new }
    ensures made { IfOk result (λ verdict. is_some names.new ≡ goes_on verdict) }
{
    if known.is_full {
        return Ok(Verdict::Answer(503, Fields::new(alloc)));
    }
    core_verdict(alloc, judge, locations, known, request, names)
}

/// The verdict on a request with these core fields that isn't ACK or CANCEL.
fn read_verdict<'v, R: Rules>(
    alloc: Global,
    judge: &Judge<R>,
    locations: &mut Locations,
    known: &KnownTables<'_>,
    request: &Received<'v, '_>,
    core: &CoreFields<'v>,
    names: &mut Option<DialogNames>,
) -> Result<Verdict<'v>, AllocError>
    requires moment { request.now.moment < 2 ^ 62 }
    requires via { top_via request.now.message.now ≡ Some request.now.via.now }
    requires core { result_ok (core_of request.now.message.now) ≡ Some core.now }
    requires names { AreNames request.now.message.now names.now }
    requires none { names.now ≡ None }
    ensures verdict { IfOk result (λ verdict. (state : ProxyState)
        → Knows state locations.old.rows known.now.nonces.now known.now.dialogs.now.dialogs known.now.is_full → (named : Option OpenRequest)
        → Is judge.now locations.old.rows request.now.moment named (Definition.checked_verdict judge.now state request.now.moment
        request.now.message.now request.now.method.now (refusal_of judge.now.config.own request.now.message.now request.now.short)) verdict) }
    ensures unchanged { locations.new.rows ≡ locations.old.rows }
    ensures room { IfOk result (HasRoom locations.new.room) }
    ensures names { AreNames request.now.message.now names.new }
    ensures made { IfOk result (λ verdict. is_some names.new ≡ goes_on verdict) }
{
    let own = &judge.server().config.own;
    let way = way_of(alloc, own, request.message)?;
    let uri = request_uri(alloc, &way)?;
    let refused = refusal(alloc, judge, request, core, &way, &uri)?;
    match refused {
        None => {
            let validated = Validated {
                moment: request.moment,
                message: request.message,
                method: request.method,
                core,
                way: &way,
                uri: &uri,
            };
            passed_verdict(alloc, judge, locations, known, &validated, names)
        }
        Some(Refused::Status(status, items)) => refusal_verdict(alloc, status, items.as_slice()),
        Some(Refused::NoMemory) => Err(AllocError),
    }
}

/// The verdict on a request that isn't ACK or CANCEL.
fn checked_verdict<'v, R: Rules>(
    alloc: Global,
    judge: &Judge<R>,
    locations: &mut Locations,
    known: &KnownTables<'_>,
    request: &Received<'v, '_>,
    names: &mut Option<DialogNames>,
) -> Result<Verdict<'v>, AllocError>
    requires moment { request.now.moment < 2 ^ 62 }
    requires request { IsRequestOf request.now.method.now request.now.message.now.start }
    requires via { top_via request.now.message.now ≡ Some request.now.via.now }
    requires names { AreNames request.now.message.now names.now }
    requires none { names.now ≡ None }
    ensures verdict { IfOk result (λ verdict. (state : ProxyState)
        → Knows state locations.old.rows known.now.nonces.now known.now.dialogs.now.dialogs known.now.is_full → (named : Option OpenRequest)
        → Is judge.now locations.old.rows request.now.moment named (Definition.checked_verdict judge.now state request.now.moment
        request.now.message.now request.now.method.now (refusal_of judge.now.config.own request.now.message.now request.now.short)) verdict) }
    ensures unchanged { locations.new.rows ≡ locations.old.rows }
    ensures room { IfOk result (HasRoom locations.new.room) }
    ensures names { AreNames request.now.message.now names.new }
    ensures made { IfOk result (λ verdict. is_some names.new ≡ goes_on verdict) }
{
    unread_is_refused();
    // Lent, not `?`: what is read is large, and isn't moved so.
    let core = core_of(alloc, request.message);
    match &core {
        Ok(core) => read_verdict(alloc, judge, locations, known, request, core, names),
        Err(error) => unread_verdict(alloc, error),
    }
}

/// Whether a method is ACK.
pub fn is_ack(method: &[u8]) -> bool
    ensures { result ≡ bytes_eq method.now (codes "ACK") }
{
    method == b"ACK".as_slice()
}

/// Whether a method is CANCEL.
fn is_cancel(method: &[u8]) -> bool
    ensures { result ≡ bytes_eq method.now (codes "CANCEL") }
{
    method == b"CANCEL".as_slice()
}

/// The verdict on a request that no open one is found for: the first case that applies. An ACK is sent on in a dialog
/// or dropped; a CANCEL is decided by the request that it names, unless it is bad or there is no room; every other is
/// refused by the checks, answered 503 where 1,024 requests are open, sent on in its dialog, or judged by policy, and
/// then registered or sent to its targets (RFC 3261 9.2, 10.3, 16.3 to 16.5). What names its dialogs is made exactly
/// where it goes on and is kept, of what the checks read. No binding changes; there is room for the plan that a
/// REGISTER gives. `AllocError` is the only refusal. Moments are below 2^62.
pub fn new_verdict<'v, R: Rules>(
    alloc: Global,
    judge: &Judge<R>,
    locations: &mut Locations,
    known: &KnownTables<'_>,
    request: &Received<'v, '_>,
    names: &mut Option<DialogNames>,
) -> Result<Verdict<'v>, AllocError>
    requires moment { request.now.moment < 2 ^ 62 }
    requires request { IsRequestOf request.now.method.now request.now.message.now.start }
    requires via { top_via request.now.message.now ≡ Some request.now.via.now }
    ensures verdict { IfOk result (λ verdict. (state : ProxyState)
        → Knows state locations.old.rows known.now.nonces.now known.now.dialogs.now.dialogs known.now.is_full
        → (a : Arrival) (key : TransactionKey) → a.now ≡ request.now.moment
        → Is judge.now locations.old.rows request.now.moment (Definition.found_for_cancel state key a.from)
        (Definition.new_verdict judge.now state a request.now.message.now request.now.short request.now.method.now key) verdict) }
    ensures unchanged { locations.new.rows ≡ locations.old.rows }
    ensures room { IfOk result (HasRoom locations.new.room) }
    ensures names { AreNames request.now.message.now names.new }
    ensures made { IfOk result (λ verdict. is_some names.new ≡ goes_on verdict) }
{
    *names = None;
    if is_ack(request.method) {
        return ack_verdict(alloc, judge, known.dialogs, request);
    }
    if is_cancel(request.method) {
        return cancel_verdict(alloc, &judge.server().config.own, known.is_full, request);
    }
    checked_verdict(alloc, judge, locations, known, request, names)
}
