ghost use Rattle.std.specs.Prelude.{◌≡◌, ℕ, List, Some, None, IfOk, IfErr};
ghost use Rattle.sip_policy.specs.declared.rule.Rule.{Rule};
ghost use Rattle.sip_policy.specs.declared.user.User.{User};
ghost use Rattle.sip_policy.specs.declared.error.PolicyError.TheVariants.{NoMemory};
ghost use Rattle.sip_policy.specs.Decision.{decision_of, recorded_minute};

use crate::operation::Operation;
use crate::rule::Rule;
use crate::ruling::Ruling;
use crate::{PolicyError, Users};
use sip_text::{Bytes, Items};
use sip_uri::Aor;
use std::alloc::Global;

/// Rules in the order of the file, of which the first that holds at the minute of a request and matches it
/// decides.
pub trait Rules: Drop {
    // The rules, the first of the file at the head.
    ghost rules_of: { Self → List Rule };

    // The users, with their groups.
    ghost users_of: { Self → List User };

    // The own domains.
    ghost domains_of: { Self → List (List ℕ) };

    /// These rules, of these users and own domains, copied.
    ///
    /// Refuses NoMemory.
    fn new(
        alloc: Global,
        rules: &Items<Rule>,
        users: &Users,
        domains: &Items<Bytes>,
    ) -> Result<Self, PolicyError>
        ensures rules { IfOk result (λ policy. rules_of policy ≡ rules.now) }
        ensures users { IfOk result (λ policy. users_of policy ≡ users.now) }
        ensures domains { IfOk result (λ policy. domains_of policy ≡ domains.now) }
        ensures refused { IfErr result (λ e. e ≡ NoMemory) };

    /// What is decided about a request of the proven user of this name, at a minute of the day. Takes no
    /// memory.
    fn decide(&self, name: &[u8], operation: &Operation, aor: &Aor, minute: u16) -> Ruling
        ensures decision { result.decision ≡ decision_of (rules_of self.now) (users_of self.now) (domains_of self.now) (Some name.now)
            operation.now aor.now minute }
        ensures minute { result.minute ≡ recorded_minute (rules_of self.now) (users_of self.now) (domains_of self.now) (Some name.now)
            operation.now aor.now minute };

    /// What is decided about a request with nobody proven, at a minute of the day. Takes no memory.
    fn decide_unproven(&self, operation: &Operation, aor: &Aor, minute: u16) -> Ruling
        ensures decision { result.decision ≡ decision_of (rules_of self.now) (users_of self.now) (domains_of self.now) None operation.now
            aor.now minute }
        ensures minute { result.minute ≡ recorded_minute (rules_of self.now) (users_of self.now) (domains_of self.now) None operation.now
            aor.now minute };
}
