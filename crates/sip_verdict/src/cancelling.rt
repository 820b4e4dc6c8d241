ghost use Rattle.std.specs.Prelude.{◌≡◌, ℕ, false, List, Some, IfOk};
ghost use Rattle.sip_edit.specs.ReceivedRequest.{top_via};
ghost use Rattle.sip_transaction_table.specs.declared.key.TransactionKey.{TransactionKey};
ghost use Rattle.sip_location.specs.declared.binding.Binding.{Binding};
ghost use Rattle.model_verdict.specs.state.Arrival.{Arrival};
ghost use Rattle.model_verdict.specs.state.declared.proxy_state.ProxyState.{ProxyState};
ghost use Rattle.model_verdict.specs.state.declared.server.Server.{Server};
ghost use Rattle.model_verdict.specs.Verdict as Definition;
ghost use Rattle.sip_verdict.specs.Verdict.{Is, HasRoom, goes_on};

use crate::received::Received;
use crate::verdict::Verdict;
use sip_message_fields::Fields;
use sip_route::Own;
use sip_validate::is_bad_request;
use std::alloc::{AllocError, Global};

/// The verdict on a CANCEL: 400 if it is a bad request, 503 without room, else by what it names (RFC 3261 9.2, 16.10).
pub(crate) fn cancel_verdict<'v>(
    alloc: Global,
    own: &Own,
    is_full: bool,
    request: &Received<'v, '_>,
) -> Result<Verdict<'v>, AllocError>
    requires { top_via request.now.message.now ≡ Some request.now.via.now }
    ensures verdict { IfOk result (λ verdict. (server : Server) (state : ProxyState) (a : Arrival) (key : TransactionKey)
        (rows : List Binding) (now : ℕ) → server.config.own ≡ own.now → Definition.is_full state ≡ is_full
        → Is server rows now (Definition.found_for_cancel state key a.from) (Definition.cancel_verdict server state a request.now.message.now
        request.now.short key) verdict) }
    ensures room { IfOk result (λ verdict. (room : ℕ) → HasRoom room verdict) }
    ensures kept { IfOk result (λ verdict. goes_on verdict ≡ false) }
{
    if is_bad_request(alloc, request.message, request.via, request.short, own)? {
        return Ok(Verdict::Answer(400, Fields::new(alloc)));
    }
    if is_full {
        return Ok(Verdict::Answer(503, Fields::new(alloc)));
    }
    Ok(Verdict::Cancel)
}
