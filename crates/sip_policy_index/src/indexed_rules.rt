//! The rules that the program has: one more kind of `Rules`, which decides as the plain list of `sip_policy` does.
ghost use Rattle.std.specs.Prelude.{◌≡◌};
ghost use Rattle.std.specs.Option.{option_copied};
ghost use Rattle.sip_policy.specs.Decision.{decision_of, recorded_minute};
ghost use Rattle.sip_policy_index.specs.RuleQuestion.{AreGroupsOf, AreGroupsOfProven};

use crate::index::Index;
use crate::rule_question::RuleQuestion;
use crate::search::first_place;
use sip_policy::{Operation, PolicyError, Rule, Rules, Ruling, Users, ruling_by};
use sip_text::{Bytes, Items};
use sip_uri::Aor;
use std::alloc::Global;
use std::marker::Model;

/// Rules with an index by what they are for: a decision passes over the rules for other operations and, where a user is
/// proven, over those for others than this user, however many there are. It takes no memory.
pub struct IndexedRules {
    rules: Items<Rule>,
    users: Users,
    domains: Items<Bytes>,
    index: Index,
}

/// Written out, so that it is proved once and not wherever they are dropped.
impl Drop for IndexedRules {
    fn drop(self) {
        let IndexedRules {
            rules: _,
            users: _,
            domains: _,
            index: _,
        } = self;
    }
}

impl Model for IndexedRules {
    ghost use Rattle.sip_policy.specs.Policy.{Policy};
    ghost use Rattle.sip_policy_index.specs.Index.{IsIndexOf};

    ghost Value = { Policy };

    ghost view = { λ i. record { rules = i.rules; users = i.users; domains = i.domains } };

    ghost invariant = { λ i. IsIndexOf i.rules i.index };
}

impl Rules for IndexedRules {
    ghost rules_of = { λ i. i.rules };

    ghost users_of = { λ i. i.users };

    ghost domains_of = { λ i. i.domains };

    fn new(
        alloc: Global,
        rules: &Items<Rule>,
        users: &Users,
        domains: &Items<Bytes>,
    ) -> Result<Self, PolicyError> {
        let rules = rules.clone()?;
        let users = users.clone()?;
        let domains = domains.clone()?;
        let index = Index::new(alloc, rules.as_slice())?;
        Ok(IndexedRules {
            rules,
            users,
            domains,
            index,
        })
    }

    fn decide(&self, name: &[u8], operation: &Operation, aor: &Aor, minute: u16) -> Ruling {
        self.ruling(Some(name), operation, aor, minute)
    }

    fn decide_unproven(&self, operation: &Operation, aor: &Aor, minute: u16) -> Ruling {
        self.ruling(None, operation, aor, minute)
    }
}

impl IndexedRules {
    fn ruling(&self, proven: Option<&[u8]>, operation: &Operation, aor: &Aor, minute: u16) -> Ruling
        ensures decision { result.decision ≡ decision_of self.now.rules self.now.users self.now.domains (option_copied proven.entry)
            operation.now aor.now minute }
        ensures minute { result.minute ≡ recorded_minute self.now.rules self.now.users self.now.domains (option_copied proven.entry)
            operation.now aor.now minute }
    {
        let asked = RuleQuestion {
            rules: self.rules.as_slice(),
            users: &self.users,
            domains: self.domains.as_slice(),
            proven,
            groups: groups_of(&self.users, proven),
            operation,
            aor,
            minute,
        };
        let place = first_place(&self.index, &asked);
        ruling_by(asked.rules.get(place), proven, minute)
    }
}

/// The groups of a proven user; none of nobody, and of a name that is no user's.
fn groups_of<'a>(users: &'a Users, proven: Option<&[u8]>) -> &'a [Bytes]
    ensures { AreGroupsOfProven users.now (option_copied proven.entry) result.now }
{
    match proven {
        Some(name) => groups_of_user(users, name),
        None => &[],
    }
}

/// The groups of the user of a name; none, if it is no user's.
fn groups_of_user<'a>(users: &'a Users, name: &[u8]) -> &'a [Bytes]
    ensures { AreGroupsOf users.now name.now result.now }
{
    match users.find(name) {
        Some(user) => user.groups.as_slice(),
        None => &[],
    }
}
