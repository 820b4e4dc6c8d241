ghost use Rattle.std.specs.Prelude.{◌≡◌, ◌<◌};
ghost use Rattle.sip_policy.specs.declared.rule.Rule.{Rule};
ghost use Rattle.sip_policy_index.specs.RuleQuestion.{applies_to};

use sip_policy::{Operation, Rule, Users, holds};
use sip_text::Bytes;
use sip_uri::Aor;

/// What is asked of the rules, with all that it is decided by.
#[derive(Drop)]
pub(crate) struct RuleQuestion<'a> {
    pub(crate) rules: &'a [Rule],
    pub(crate) users: &'a Users,
    pub(crate) domains: &'a [Bytes],
    /// The name of the proven user, or nobody.
    pub(crate) proven: Option<&'a [u8]>,
    /// The groups of the proven user.
    pub(crate) groups: &'a [Bytes],
    pub(crate) operation: &'a Operation,
    pub(crate) aor: &'a Aor,
    pub(crate) minute: u16,
}

impl RuleQuestion<'_> {
    /// Whether a rule applies. What mostly decides among the rules of one list, its window and its target, is looked
    /// at first. Takes no memory.
    pub(crate) fn is_for(&self, rule: &Rule) -> bool
        ensures { result ≡ applies_to self.now rule.now }
    {
        holds(rule.window, self.minute)
            && rule
                .target
                .matches(self.users, self.domains, self.proven, self.aor)
            && rule.operation.matches(self.operation)
            && rule.who.matches(self.users, self.proven)
    }
}
