//! What is answered here to a request that policy decided about (RFC 3261 10.3, 16.5, 21.4.4, 22.1), each answer with its record.
//! All of it is drafted; nothing changes here.
ghost use Rattle.std.specs.Prelude.{◌≡◌, ◌+◌, ◌<◌, ◌^◌, true, [], ◌∷◌, Ok, IfOk, IfSome, List};

use crate::answer_draft::AnswerDraft;
use crate::answers::{FinalAnswer, answer};
use crate::asking::nobody_status;
use crate::keyed_request::KeyedRequest;
use crate::policy_records::records_of;
use crate::{challenge_status, challenges_to, contact_fields, denial_fields};
use sip_audit::AuditOutcome as Recorded;
use sip_dialog_updates::state::Server;
use sip_location::RegisterPlan;
use sip_message_fields::Fields;
use sip_targets::Targets;
use sip_verdict::{Judged, Registering};
use std::alloc::{AllocError, Global};

/// A request outside a dialog that was received, with what policy decided about it: all that its answer is made of.
pub(crate) struct JudgedRequest<'a, 'v> {
    pub(crate) server: &'a Server,
    pub(crate) request: KeyedRequest,
    pub(crate) judged: &'a Judged<'v>,
    /// Whether 1,024 requests are open, so that it isn't kept.
    pub(crate) is_full: bool,
    ghost in_time: { request.arrival.now + 32000 < 2 ^ 64 },
}

/// Written out, so that it is proved once and not wherever one is dropped. One is dropped only for want of memory.
impl<'a, 'v> Drop for JudgedRequest<'a, 'v> {
    fn drop(self) {
        let JudgedRequest {
            server: _,
            request: _,
            judged: _,
            is_full: _,
        } = self;
    }
}

impl<'a, 'v> JudgedRequest<'a, 'v> {
    ghost use Rattle.sip_forwarding.specs.Arrivals.{arrival_of};
    ghost use Rattle.sip_forwarding.specs.steps_model.Effect as Effects;
    ghost use Rattle.sip_digest.specs.Nonces.{issued};
    ghost use Rattle.sip_dialog_updates.specs.state.declared.proxy_state.ProxyState.{ProxyState};
    ghost use Rattle.sip_verdict.specs.verdict_model.Verdict as Definition;
    ghost use Rattle.sip_location.specs.declared.binding.Binding.{Binding};
    ghost use Rattle.sip_location.specs.declared.registration.Registration.{Registration};
    ghost use Rattle.sip_location.specs.Locations.{IsPlan};
    ghost use Rattle.sip_location.specs.Registration.{registered};
    ghost use Rattle.sip_verdict.specs.Registering.{ComesTo, plan_in};
    ghost use Rattle.model_transactions.specs.Fits.{IsFinalAnswer};
    ghost use Rattle.sip_uas.specs.Asking as Asking;
    ghost use Rattle.sip_uas.specs.Drafts.{Does, IsOpenable};
    ghost use Rattle.sip_uas.specs.JudgedRequest.{after_use, DraftsAnswer};

    /// It is answered so, and this is recorded of it.
    fn replied(
        self,
        alloc: Global,
        outcome: Recorded,
        status: u16,
        extras: &Fields,
    ) -> Result<AnswerDraft, AllocError>
        ensures does { IfOk result (DraftsAnswer self.entry (λ nonces. nonces)
            (λ s a m q. Effects.replied s a m status extras.now (Effects.record_of s a m q outcome ∷ []))) }
        ensures opens { IfOk result (λ draft. IsFinalAnswer status → IfSome draft.opened (IsOpenable self.entry.request.arrival self.entry.request.key)) }
    {
        let said = FinalAnswer { status, extras };
        let arrival = self.request.arrival;
        let records = records_of(
            alloc,
            arrival,
            self.request.request.get(),
            self.judged,
            outcome,
        )?;
        let JudgedRequest {
            server,
            request,
            judged: _,
            is_full,
        } = self;
        answer(alloc, server, request, &said, records, is_full)
    }

    /// It is challenged (RFC 3261 22.1).
    pub(crate) fn challenged(self, alloc: Global) -> Result<AnswerDraft, AllocError>
        ensures does { IfOk result (DraftsAnswer self.entry
            (λ nonces. issued (after_use self.entry nonces) self.entry.request.arrival.word self.entry.request.arrival.now) Effects.challenged) }
        ensures opens { IfOk result (λ draft. IfSome draft.opened (IsOpenable self.entry.request.arrival self.entry.request.key)) }
    {
        let question = &self.judged.question;
        let status = challenge_status(&question.operation);
        let extras = challenges_to(alloc, self.server, self.request.arrival.word, question)?;
        let outcome = Recorded::Challenge { status };
        self.replied(alloc, outcome, status, &extras)
    }

    /// A rule denies it (RFC 3261 21.4.4).
    pub(crate) fn denied(self, alloc: Global, rule: u32) -> Result<AnswerDraft, AllocError>
        ensures does { IfOk result (DraftsAnswer self.entry (after_use self.entry) (λ s a m q. Effects.denied s a m q rule)) }
        ensures opens { IfOk result (λ draft. IfSome draft.opened (IsOpenable self.entry.request.arrival self.entry.request.key)) }
    {
        let extras = denial_fields(alloc, self.server, rule)?;
        let outcome = Recorded::Deny { rule };
        self.replied(alloc, outcome, 403, &extras)
    }

    /// A rule let it through, and it is answered here.
    fn answered_by_rule(
        self,
        alloc: Global,
        rule: u32,
        status: u16,
        extras: &Fields,
    ) -> Result<AnswerDraft, AllocError>
        ensures does { IfOk result (DraftsAnswer self.entry (after_use self.entry)
            (λ s a m q. Effects.answered_by_rule s a m q rule status extras.now)) }
        ensures opens { IfOk result (λ draft. IsFinalAnswer status → IfSome draft.opened (IsOpenable self.entry.request.arrival self.entry.request.key)) }
    {
        let outcome = Recorded::Answer { rule, status };
        self.replied(alloc, outcome, status, extras)
    }

    /// It goes to nobody (RFC 3261 16.5).
    pub(crate) fn unsent(
        self,
        alloc: Global,
        rule: u32,
        targets: &Targets,
    ) -> Result<AnswerDraft, AllocError>
        requires { Asking.are_nobody targets.now ≡ true }
        ensures does { IfOk result (DraftsAnswer self.entry (after_use self.entry)
            (λ s a m q. Effects.sending s a m q rule targets.now)) }
        ensures opens { IfOk result (λ draft. IfSome draft.opened (IsOpenable self.entry.request.arrival self.entry.request.key)) }
    {
        let extras = Fields::new(alloc);
        let status = nobody_status(targets);
        self.answered_by_rule(alloc, rule, status, &extras)
    }

    /// It is a REGISTER that is taken, and the 200 lists what is bound after it (RFC 3261 10.3 step 8).
    fn bound(self, alloc: Global, rule: u32, plan: &RegisterPlan) -> Result<AnswerDraft, AllocError>
        ensures does { IfOk result (λ draft. (rows after : List Binding) (r : Registration)
            → IsPlan rows r self.entry.request.arrival.now plan.now → registered rows r self.entry.request.arrival.now ≡ Ok after
            → plan.now.aor ≡ self.entry.judged.now.question.target
            → DraftsAnswer self.entry (after_use self.entry) (λ s a m q. Effects.answered_by_rule s a m q rule 200
            (Effects.contact_fields a.now q.target after)) draft) }
        ensures opens { IfOk result (λ draft. IfSome draft.opened (IsOpenable self.entry.request.arrival self.entry.request.key)) }
    {
        let extras = contact_fields(alloc, self.request.arrival.now, plan)?;
        self.answered_by_rule(alloc, rule, 200, &extras)
    }

    /// It is a REGISTER that was let through (RFC 3261 10.3).
    pub(crate) fn registering(
        self,
        alloc: Global,
        rule: u32,
        outcome: &Registering,
    ) -> Result<AnswerDraft, AllocError>
        ensures does { IfOk result (λ draft.
            self.entry.judged.now.minute ≡ Definition.minute_on self.entry.server.now self.entry.judged.now.question
            → (state : ProxyState) (registered : Definition.Registered) → Definition.is_full state ≡ self.entry.is_full
            → ComesTo state.bindings self.entry.request.arrival.now self.entry.judged.now.question.target registered outcome.now
            → Does self.entry.request.arrival.now draft (after_use self.entry state.nonces) (plan_in outcome.now) state
            (Effects.registering self.entry.server.now (arrival_of self.entry.request.arrival) self.entry.request.request.message
            self.entry.judged.now.question rule registered state)) }
        ensures opens { IfOk result (λ draft. (rows : List Binding) (registered : Definition.Registered)
            → ComesTo rows self.entry.request.arrival.now self.entry.judged.now.question.target registered outcome.now
            → Asking.RefusesFinally registered → IfSome draft.opened (IsOpenable self.entry.request.arrival self.entry.request.key)) }
    {
        match outcome {
            Registering::Planned(plan) => self.bound(alloc, rule, plan),
            Registering::Refused(status, extras) => {
                self.answered_by_rule(alloc, rule, *status, extras)
            }
        }
    }
}
