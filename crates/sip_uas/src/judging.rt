ghost use Rattle.std.specs.Prelude.{◌≡◌, ◌+◌, ◌<◌, ◌^◌, true, IfOk, IfSome, List, Option};
ghost use Rattle.sip_forwarding.specs.Arrivals.{arrival_of};
ghost use Rattle.sip_forwarding.specs.steps_model.Effect as Effects;
ghost use Rattle.sip_dialog_updates.specs.state.declared.open_request.OpenRequest.{OpenRequest};
ghost use Rattle.sip_dialog_updates.specs.state.declared.proxy_state.ProxyState.{ProxyState};
ghost use Rattle.sip_verdict.specs.verdict_model.Verdict as Definition;
ghost use Rattle.sip_location.specs.declared.binding.Binding.{Binding};
ghost use Rattle.sip_verdict.specs.declared.verdict.Verdict.TheVariants as Arrived;
ghost use Rattle.sip_verdict.specs.Verdict.{Is, plan_of};
ghost use Rattle.sip_uas.specs.Asking as Asking;
ghost use Rattle.sip_uas.specs.Drafts.{Does, IsOpenable};

use crate::answer_draft::AnswerDraft;
use crate::judged_request::JudgedRequest;
use crate::keyed_request::KeyedRequest;
use sip_dialog_updates::state::Server;
use sip_verdict::{Judged, PolicyOutcome};
use std::alloc::{AllocError, Global};

/// What is done with a request outside a dialog that is answered here, of what policy decided about it: it is
/// challenged, denied, registered, or goes to nobody; its answer goes, it is recorded, and it is open from then on, unless
/// 1,024 are (RFC 3261 10.3, 16.5, 22). A right credential is used up, and a challenge issues its nonce; the bindings are
/// those of the plan, if there is one; dialogs stay. `AllocError` is the only refusal.
pub fn judged(
    alloc: Global,
    server: &Server,
    request: KeyedRequest,
    judged: &Judged<'_>,
    is_full: bool,
) -> Result<AnswerDraft, AllocError>
    requires now { request.arrival.now + 32000 < 2 ^ 64 }
    requires here { Asking.is_answered_here judged.now.outcome ≡ true }
    ensures does { IfOk result (λ draft. (state : ProxyState) (rows : List Binding) (named : Option OpenRequest)
        (verdict : Definition.Verdict) → state.bindings ≡ rows → Definition.is_full state ≡ is_full
        → Is server.now rows request.arrival.now named verdict (Arrived.Judged judged.now)
        → Does request.arrival.now draft (Asking.after_asking (arrival_of request.arrival) judged.now state.nonces) (plan_of judged.now.outcome) state
        (Effects.effect_of server.now (arrival_of request.arrival) request.request.message verdict state)) }
    ensures opens { IfOk result (λ draft. (rows : List Binding) (named : Option OpenRequest) (verdict : Definition.Verdict)
        → Is server.now rows request.arrival.now named verdict (Arrived.Judged judged.now) → Asking.AnswersFinally verdict
        → IfSome draft.opened (IsOpenable request.arrival request.key)) }
{
    let received = JudgedRequest {
        server,
        request,
        judged,
        is_full,
    };
    match &judged.outcome {
        PolicyOutcome::Challenge => received.challenged(alloc),
        PolicyOutcome::Deny(rule) => received.denied(alloc, *rule),
        PolicyOutcome::Send(rule, targets) => received.unsent(alloc, *rule, targets),
        PolicyOutcome::Register(rule, outcome) => received.registering(alloc, *rule, outcome),
    }
}
