ghost use Rattle.std.specs.Prelude.{◌≡◌};
ghost use Rattle.sip_policy.specs.Decision.{decision_for};

use crate::decision::Decision;

/// What a rule says of the requests that it decides.
#[derive(Clone, Copy)]
pub enum RuleVerdict {
    Allow,
    Deny,
    /// `via HOP`: to the hop at this place of the configured list, counted from 0.
    Via(usize),
}

impl RuleVerdict {
    /// What the verdict of the rule of a number comes to. Takes no memory.
    pub fn decision(self, id: u32) -> Decision
        ensures { result ≡ decision_for id self }
    {
        match self {
            RuleVerdict::Allow => Decision::Allow(id),
            RuleVerdict::Deny => Decision::Deny(id),
            RuleVerdict::Via(hop) => Decision::Via(id, hop),
        }
    }
}
