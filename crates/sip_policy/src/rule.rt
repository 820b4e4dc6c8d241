//! One rule: for whom, for what and when it is, and what it decides. Which rule of several counts is said in `list_rules`.
ghost use Rattle.std.specs.Prelude.{◌≡◌, Some};
ghost use Rattle.std.specs.Option.{option_copied};
ghost use Rattle.sip_policy.specs.Rule.{matches, applies, needs_no_proof};
ghost use Rattle.sip_policy.specs.Decision.{decision_by, minute_for};

use crate::Users;
use crate::decision::Decision;
use crate::operation::{Operation, OperationPattern};
use crate::rule_verdict::RuleVerdict;
use crate::target_pattern::TargetPattern;
use crate::who::Who;
use crate::window::{Window, holds};
use sip_text::Bytes;
use sip_uri::Aor;
use std::alloc::AllocError;

/// A policy rule.
pub struct Rule {
    /// The number by which a denial names the rule, 1 to 999,999.
    pub id: u32,
    pub who: Who,
    pub operation: OperationPattern,
    pub target: TargetPattern,
    /// When it holds; without one, always.
    pub window: Option<Window>,
    pub verdict: RuleVerdict,
}

/// Written out, so that it is proved once and not wherever a rule is dropped.
impl Drop for Rule {
    fn drop(self) {
        let Rule {
            id: _,
            who: _,
            operation: _,
            target: _,
            window: _,
            verdict: _,
        } = self;
    }
}

impl Clone for Rule {
    ghost is_clone = { λ rule copy. copy ≡ rule };

    fn clone(&self) -> Result<Rule, AllocError> {
        Ok(Rule {
            id: self.id,
            who: self.who.clone()?,
            operation: self.operation.clone()?,
            target: self.target.clone()?,
            window: self.window,
            verdict: self.verdict,
        })
    }
}

impl Rule {
    /// Whether the operation, the target and, where a user is proven, that user are of the rule's patterns.
    /// Takes no memory.
    pub fn matches(
        &self,
        users: &Users,
        domains: &[Bytes],
        proven: Option<&[u8]>,
        operation: &Operation,
        aor: &Aor,
    ) -> bool
        ensures { result ≡ matches users.now domains.now (option_copied proven.entry) operation.now aor.now self.now }
    {
        self.operation.matches(operation)
            && self.target.matches(users, domains, proven, aor)
            && self.who.matches(users, proven)
    }

    /// Whether the rule decides about a request that comes at a minute of the day, unless one before it does:
    /// it holds then, whoever is proven, and it matches. Takes no memory.
    pub fn applies(
        &self,
        users: &Users,
        domains: &[Bytes],
        proven: Option<&[u8]>,
        operation: &Operation,
        aor: &Aor,
        minute: u16,
    ) -> bool
        ensures { result ≡ applies users.now domains.now (option_copied proven.entry) operation.now aor.now minute self.now }
    {
        holds(self.window, minute) && self.matches(users, domains, proven, operation, aor)
    }

    /// Whether the rule may be obeyed where nobody is proven: it is for anyone, and its target isn't `self`.
    /// Takes no memory.
    pub fn needs_no_proof(&self) -> bool
        ensures { result ≡ needs_no_proof self.now }
    {
        self.who.is_anyone() && !self.target.is_self()
    }

    /// What the rule decides about a request that it applies to: its verdict, but with nobody proven a
    /// challenge unless it needs no proof. Takes no memory.
    pub fn decision(&self, proven: Option<&[u8]>) -> Decision
        ensures { result ≡ decision_by (option_copied proven.entry) self.now }
    {
        if proven.is_some() || self.needs_no_proof() {
            self.verdict.decision(self.id)
        } else {
            Decision::Challenge
        }
    }

    /// The minute that is recorded of a decision by the rule: that of the day, if the rule has a window; with
    /// a challenge no rule is named, and no minute. Takes no memory.
    pub fn recorded_minute(&self, decision: Decision, minute: u16) -> Option<u16>
        ensures { result ≡ minute_for decision minute (Some self.now) }
    {
        match (decision, self.window) {
            (Decision::Challenge, _) => None,
            (_, Some(_)) => Some(minute),
            (_, None) => None,
        }
    }
}
