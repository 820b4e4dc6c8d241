//! From the decision of policy about a request to what comes of it: a challenge, a denial, what a REGISTER comes to, or targets
//! (RFC 3261 10.3, 16.3 step 6, 16.5).
ghost use Rattle.std.specs.Prelude.{◌≡◌, ◌<◌, ◌^◌, IfOk};
ghost use Rattle.model_verdict.specs.state.declared.proxy_state.ProxyState.{ProxyState};
ghost use Rattle.sip_route.specs.Way.{request_uri_of};
ghost use Rattle.model_verdict.specs.Verdict as Definition;
ghost use Rattle.sip_verdict.specs.Verdict.{IsOutcome, HasRoomFor};

use crate::Judge;
use crate::question::is_register;
use crate::validated::Validated;
use crate::verdict::{Judged, PolicyOutcome};
use model_verdict::Question;
use sip_digest::Nonces;
use sip_location::Locations;
use sip_policy::{Decision, Rules};
use sip_transaction_table::Boxed;
use std::alloc::{AllocError, Global};

/// What comes of a request that a rule let through: a REGISTER is taken, every other is sent to its targets.
fn let_through<R: Rules>(
    alloc: Global,
    judge: &Judge<R>,
    locations: &mut Locations,
    request: &Validated<'_, '_>,
    question: &Question<'_>,
    id: u32,
    decision: &Decision,
) -> Result<PolicyOutcome, AllocError>
    requires moment { request.now.moment < 2 ^ 62 }
    requires uri { request.now.uri.now ≡ request_uri_of judge.now.config.own request.now.message.now }
    requires question { question.now.target ≡ Definition.target_of judge.now request.now.message.now request.now.method.now
        request.now.core.now }
    ensures outcome { IfOk result (λ outcome. (state : ProxyState) → state.bindings ≡ locations.old.rows
        → IsOutcome locations.old.rows request.now.moment question.now (Definition.let_through judge.now state request.now.moment
        request.now.message.now request.now.method.now request.now.core.now question.now id decision.now) outcome) }
    ensures unchanged { locations.new.rows ≡ locations.old.rows }
    ensures room { IfOk result (HasRoomFor locations.new.room) }
{
    if is_register(request.method) {
        let registering = judge.registering(alloc, locations, request, &question.target)?;
        return Ok(PolicyOutcome::Register(id, registering));
    }
    let targets = judge.targets_by(alloc, locations, request, question, decision)?;
    Ok(PolicyOutcome::Send(id, targets))
}

/// What comes of a decision about a request.
fn decided<R: Rules>(
    alloc: Global,
    judge: &Judge<R>,
    locations: &mut Locations,
    request: &Validated<'_, '_>,
    question: &Question<'_>,
    decision: &Decision,
) -> Result<PolicyOutcome, AllocError>
    requires moment { request.now.moment < 2 ^ 62 }
    requires uri { request.now.uri.now ≡ request_uri_of judge.now.config.own request.now.message.now }
    requires question { question.now.target ≡ Definition.target_of judge.now request.now.message.now request.now.method.now
        request.now.core.now }
    ensures outcome { IfOk result (λ outcome. (state : ProxyState) → state.bindings ≡ locations.old.rows
        → IsOutcome locations.old.rows request.now.moment question.now (Definition.decided judge.now state request.now.moment
        request.now.message.now request.now.method.now request.now.core.now question.now decision.now) outcome) }
    ensures unchanged { locations.new.rows ≡ locations.old.rows }
    ensures room { IfOk result (HasRoomFor locations.new.room) }
{
    match decision {
        Decision::Challenge => Ok(PolicyOutcome::Challenge),
        Decision::Deny(id) => Ok(PolicyOutcome::Deny(*id)),
        Decision::Allow(id) => {
            let_through(alloc, judge, locations, request, question, *id, decision)
        }
        Decision::Via(id, _) => {
            let_through(alloc, judge, locations, request, question, *id, decision)
        }
    }
}

/// What policy decides about a request, about which it is asked this.
fn judged<'v, R: Rules>(
    alloc: Global,
    judge: &Judge<R>,
    locations: &mut Locations,
    request: &Validated<'_, '_>,
    question: Question<'v>,
) -> Result<Boxed<Judged<'v>>, AllocError>
    requires moment { request.now.moment < 2 ^ 62 }
    requires uri { request.now.uri.now ≡ request_uri_of judge.now.config.own request.now.message.now }
    requires question { question.target ≡ Definition.target_of judge.now request.now.message.now request.now.method.now
        request.now.core.now }
    ensures question { IfOk result (λ judged. judged.question ≡ question.entry) }
    ensures minute { IfOk result (λ judged. judged.minute ≡ Definition.minute_on judge.now judged.question) }
    ensures outcome { IfOk result (λ judged. (state : ProxyState) → state.bindings ≡ locations.old.rows
        → IsOutcome locations.old.rows request.now.moment judged.question (Definition.decided judge.now state request.now.moment
        request.now.message.now request.now.method.now request.now.core.now judged.question
        (Definition.answer_of judge.now judged.question)) judged.outcome) }
    ensures unchanged { locations.new.rows ≡ locations.old.rows }
    ensures room { IfOk result (λ judged. HasRoomFor locations.new.room judged.outcome) }
{
    let ruling = judge.ruling(&question);
    let decision = &ruling.decision;
    match decided(alloc, judge, locations, request, &question, decision) {
        Ok(outcome) => {
            let judged = Judged {
                question,
                minute: ruling.minute,
                outcome,
            };
            let held = Boxed::new(alloc, judged)?;
            Ok(held)
        }
        Err(refusal) => Err(refusal),
    }
}

/// What policy says of a request outside a dialog that passed the checks (RFC 3261 16.3 step 6, 16.5, 10.3).
pub(crate) fn policy_verdict<'v, R: Rules>(
    alloc: Global,
    judge: &Judge<R>,
    locations: &mut Locations,
    nonces: &Nonces,
    request: &Validated<'v, '_>,
) -> Result<Boxed<Judged<'v>>, AllocError>
    requires moment { request.now.moment < 2 ^ 62 }
    requires uri { request.now.uri.now ≡ request_uri_of judge.now.config.own request.now.message.now }
    ensures minute { IfOk result (λ judged. judged.minute ≡ Definition.minute_on judge.now judged.question) }
    ensures outcome { IfOk result (λ judged. (state : ProxyState) → state.bindings ≡ locations.old.rows → state.nonces ≡ nonces.now
        → IsOutcome locations.old.rows request.now.moment judged.question (Definition.policy_verdict judge.now state request.now.moment
        request.now.message.now request.now.method.now request.now.core.now) judged.outcome) }
    ensures unchanged { locations.new.rows ≡ locations.old.rows }
    ensures room { IfOk result (λ judged. HasRoomFor locations.new.room judged.outcome) }
{
    // Matched, not `?`: what is asked is large, and is moved less so.
    match judge.question_of(alloc, nonces, request) {
        Ok(question) => judged(alloc, judge, locations, request, question),
        Err(refusal) => Err(refusal),
    }
}
