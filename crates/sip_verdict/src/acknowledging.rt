//! An ACK that no server transaction takes (RFC 3261 16.11, 17.2.1): it goes on in its dialog or is dropped, as nothing answers it.
ghost use Rattle.std.specs.Prelude.{◌≡◌, ◌≢◌, ℕ, false, List, Option, Some, IfOk, OnOk};
ghost use Rattle.std.specs.Result.{result_ok};
ghost use Rattle.sip_edit.specs.ReceivedRequest.{top_via};
ghost use Rattle.sip_header.specs.CoreFields.{core_of};
ghost use Rattle.sip_header.specs.declared.error.HeaderError.TheVariants.{NoMemory};
ghost use Rattle.sip_location.specs.declared.binding.Binding.{Binding};
ghost use Rattle.model_verdict.specs.state.declared.open_request.OpenRequest.{OpenRequest};
ghost use Rattle.model_verdict.specs.state.declared.proxy_state.ProxyState.{ProxyState};
ghost use Rattle.sip_route.specs.Way.{way_of, request_uri_of};
ghost use Rattle.model_verdict.specs.Verdict as Definition;
ghost use Rattle.sip_verdict.specs.declared.verdict.Verdict.TheVariants.{Dropped};
ghost use Rattle.sip_verdict.specs.Verdict.{Is, IsRequestOf, HasRoom, goes_on};

use crate::Judge;
use crate::checks::{refusal, request_uri};
use crate::dialog_request::within;
use crate::received::Received;
use crate::validated::Validated;
use crate::verdict::Verdict;
use sip_dialog::Dialogs;
use sip_header::{CoreFields, HeaderError, core_of};
use sip_policy::Rules;
use sip_route::way_of;
use sip_validate::Refused;
use sip_validate::laws::unread_is_refused;
use std::alloc::{AllocError, Global};

/// An ACK that passed the checks goes on in its dialog, or nowhere.
fn ack_within<'v, R: Rules>(
    alloc: Global,
    judge: &Judge<R>,
    dialogs: &Dialogs,
    request: &Validated<'v, '_>,
) -> Result<Verdict<'v>, AllocError>
    requires core { result_ok (core_of request.now.message.now) ≡ Some request.now.core.now }
    requires way { request.now.way.now ≡ way_of judge.now.config.own request.now.message.now }
    requires uri { request.now.uri.now ≡ request_uri_of judge.now.config.own request.now.message.now }
    ensures verdict { IfOk result (λ verdict. (state : ProxyState) → state.dialogs ≡ dialogs.now.dialogs
        → (rows : List Binding) (named : Option OpenRequest)
        → Is judge.now rows request.now.moment named (Definition.within judge.now state request.now.moment request.now.message.now
        Definition.AckOn Definition.Drop) verdict) }
    ensures room { IfOk result (λ verdict. (room : ℕ) → HasRoom room verdict) }
    ensures kept { IfOk result (λ verdict. goes_on verdict ≡ false) }
{
    match within(alloc, judge, dialogs, request)? {
        Some((address, id)) => Ok(Verdict::AckOn(address, id)),
        None => Ok(Verdict::Dropped),
    }
}

/// The verdict on an ACK with these core fields that no server transaction takes.
fn read_ack<'v, R: Rules>(
    alloc: Global,
    judge: &Judge<R>,
    dialogs: &Dialogs,
    request: &Received<'v, '_>,
    core: &CoreFields<'v>,
) -> Result<Verdict<'v>, AllocError>
    requires via { top_via request.now.message.now ≡ Some request.now.via.now }
    requires core { result_ok (core_of request.now.message.now) ≡ Some core.now }
    ensures verdict { IfOk result (λ verdict. (state : ProxyState) → state.dialogs ≡ dialogs.now.dialogs
        → (rows : List Binding) (named : Option OpenRequest)
        → Is judge.now rows request.now.moment named (Definition.ack_verdict judge.now state request.now.moment request.now.message.now
        request.now.short) verdict) }
    ensures room { IfOk result (λ verdict. (room : ℕ) → HasRoom room verdict) }
    ensures kept { IfOk result (λ verdict. goes_on verdict ≡ false) }
{
    let way = way_of(alloc, &judge.server().config.own, request.message)?;
    let uri = request_uri(alloc, &way)?;
    let refused = refusal(alloc, judge, request, core, &way, &uri)?;
    match refused {
        None => {
            let validated = Validated {
                moment: request.moment,
                message: request.message,
                method: request.method,
                core,
                way: &way,
                uri: &uri,
            };
            ack_within(alloc, judge, dialogs, &validated)
        }
        Some(Refused::Status(_status, _items)) => Ok(Verdict::Dropped),
        Some(Refused::NoMemory) => Err(AllocError),
    }
}

/// The verdict on an ACK whose core fields can't be read.
fn unread_ack<'v>(error: &HeaderError) -> Result<Verdict<'v>, AllocError>
    ensures verdict { IfOk result (λ verdict. verdict ≡ Dropped) }
    ensures memory { OnOk result (error.now ≢ NoMemory) }
    ensures room { IfOk result (λ verdict. (room : ℕ) → HasRoom room verdict) }
    ensures kept { IfOk result (λ verdict. goes_on verdict ≡ false) }
{
    match error {
        HeaderError::NoMemory => Err(AllocError),
        HeaderError::Missing(_) | HeaderError::Malformed(_) => Ok(Verdict::Dropped),
    }
}

/// The verdict on an ACK that no server transaction takes: it is sent on in a dialog that is known, or dropped, since
/// nothing answers an ACK (RFC 3261 16.11, 17.2.1). `AllocError` is the only refusal.
pub fn ack_verdict<'v, R: Rules>(
    alloc: Global,
    judge: &Judge<R>,
    dialogs: &Dialogs,
    request: &Received<'v, '_>,
) -> Result<Verdict<'v>, AllocError>
    requires request { IsRequestOf request.now.method.now request.now.message.now.start }
    requires via { top_via request.now.message.now ≡ Some request.now.via.now }
    ensures verdict { IfOk result (λ verdict. (state : ProxyState) → state.dialogs ≡ dialogs.now.dialogs
        → (rows : List Binding) (named : Option OpenRequest)
        → Is judge.now rows request.now.moment named (Definition.ack_verdict judge.now state request.now.moment request.now.message.now
        request.now.short) verdict) }
    ensures room { IfOk result (λ verdict. (room : ℕ) → HasRoom room verdict) }
    ensures kept { IfOk result (λ verdict. goes_on verdict ≡ false) }
{
    unread_is_refused();
    // Lent, not `?`: what is read is large, and isn't moved so.
    let core = core_of(alloc, request.message);
    match &core {
        Ok(core) => read_ack(alloc, judge, dialogs, request, core),
        Err(error) => unread_ack(error),
    }
}
