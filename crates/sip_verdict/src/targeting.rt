ghost use Rattle.std.specs.Prelude.{◌≡◌, IfOk};
ghost use Rattle.sip_policy.specs.User.{is_users_address};
ghost use Rattle.sip_location.specs.Binding.{contacts_of};
ghost use Rattle.sip_targets.specs.Targets.{targets_for};
ghost use Rattle.model_verdict.specs.Verdict as Verdict;

use crate::judge::Judge;
use crate::validated::Validated;
use model_verdict::Question;
use sip_location::Locations;
use sip_policy::{Decision, Rules, is_users_address};
use sip_targets::{RequestUri, Targets, targets_of};
use sip_uri::Aor;
use std::alloc::{AllocError, Global};

impl<R: Rules> Judge<R> {
    /// The targets that a decision gives a request to an address of record.
    fn targets_for(
        &self,
        alloc: Global,
        locations: &Locations,
        now: u64,
        target: &Aor,
        decision: &Decision,
        uri: &RequestUri<'_>,
    ) -> Result<Targets, AllocError>
        ensures { IfOk result (λ targets. targets ≡ targets_for decision.now
            (is_users_address self.now.config.users self.now.config.own.domains target.now) uri.now
            (contacts_of locations.now.rows now target.now) self.now.config.hops self.now.config.addresses) }
    {
        let config = &self.server().config;
        let domains = config.own.domains.as_slice();
        let is_known = is_users_address(&config.users, domains, target);
        let bindings = locations.live(target, now);
        targets_of(alloc, decision, is_known, uri, bindings, self.hops())
    }

    /// Where a request that passed the checks goes, about which policy was asked and decided so (RFC 3261 16.5): without a
    /// SIP or SIPS URI nowhere. `AllocError` is the only refusal.
    #[tactic(auto, using(crate::proofs::RequestUris::targets_are))]
    pub fn targets_by(
        &self,
        alloc: Global,
        locations: &Locations,
        request: &Validated<'_, '_>,
        question: &Question<'_>,
        decision: &Decision,
    ) -> Result<Targets, AllocError>
        ensures { IfOk result (λ targets. targets ≡ Verdict.targets_by self.now locations.now.rows request.now.moment
            question.now.target decision.now request.now.uri.now) }
    {
        let now = request.moment;
        self.targets_for(
            alloc,
            locations,
            now,
            &question.target,
            decision,
            request.uri,
        )
    }
}
