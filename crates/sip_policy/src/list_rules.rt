//! The rules as a plain list: the first one that applies decides, as in every other kind of `Rules`.
//! The program has an index of them (`sip_policy_index`).
ghost use Rattle.std.specs.Prelude.{◌≡◌, IfOk};
ghost use Rattle.std.specs.Option.{option_copied};
ghost use Rattle.sip_policy.specs.Decision as Definitions;
ghost use Rattle.sip_policy.specs.Decision.{decision_of, recorded_minute};

use crate::operation::Operation;
use crate::rule::Rule;
use crate::rules::Rules;
use crate::ruling::{Ruling, ruling_by};
use crate::{PolicyError, Users, copy_texts};
use sip_text::{Bytes, Items};
use sip_uri::Aor;
use std::alloc::{AllocError, Global};
use std::marker::Model;

/// A plain list of rules, walked in the order of the file.
pub struct ListRules {
    rules: Items<Rule>,
    users: Users,
    domains: Items<Bytes>,
}

/// Written out, so that it is proved once and not wherever they are dropped.
impl Drop for ListRules {
    fn drop(self) {
        let ListRules {
            rules: _,
            users: _,
            domains: _,
        } = self;
    }
}

impl Model for ListRules {
    ghost use Rattle.sip_policy.specs.Policy.{Policy};

    ghost Value = { Policy };

    ghost view = { λ l. record { rules = l.rules; users = l.users; domains = l.domains } };
}

impl Rules for ListRules {
    ghost rules_of = { λ l. l.rules };

    ghost users_of = { λ l. l.users };

    ghost domains_of = { λ l. l.domains };

    fn new(
        alloc: Global,
        rules: &Items<Rule>,
        users: &Users,
        domains: &Items<Bytes>,
    ) -> Result<Self, PolicyError> {
        let rules = copy_rules(alloc, rules.as_slice())?;
        let users = users.clone()?;
        let domains = copy_texts(alloc, domains.as_slice())?;
        Ok(ListRules {
            rules,
            users,
            domains,
        })
    }

    fn decide(&self, name: &[u8], operation: &Operation, aor: &Aor, minute: u16) -> Ruling {
        self.ruling(Some(name), operation, aor, minute)
    }

    fn decide_unproven(&self, operation: &Operation, aor: &Aor, minute: u16) -> Ruling {
        self.ruling(None, operation, aor, minute)
    }
}

impl ListRules {
    fn ruling(&self, proven: Option<&[u8]>, operation: &Operation, aor: &Aor, minute: u16) -> Ruling
        ensures decision { result.decision ≡ decision_of self.now.rules self.now.users self.now.domains (option_copied proven.entry)
            operation.now aor.now minute }
        ensures minute { result.minute ≡ recorded_minute self.now.rules self.now.users self.now.domains (option_copied proven.entry)
            operation.now aor.now minute }
    {
        let rule = deciding_rule(
            self.rules.as_slice(),
            &self.users,
            self.domains.as_slice(),
            proven,
            operation,
            aor,
            minute,
        );
        ruling_by(rule, proven, minute)
    }
}

/// The first rule that applies.
pub fn deciding_rule<'a>(
    rules: &'a [Rule],
    users: &Users,
    domains: &[Bytes],
    proven: Option<&[u8]>,
    operation: &Operation,
    aor: &Aor,
    minute: u16,
) -> Option<&'a Rule>
    ensures { option_copied result ≡ Definitions.deciding_rule rules.now users.now domains.now (option_copied proven.entry) operation.now
        aor.now minute }
{
    for rule in rules {
        if rule.applies(users, domains, proven, operation, aor, minute) {
            return Some(rule);
        }
    }
    None
}

/// Rules, copied.
fn copy_rules(alloc: Global, rules: &[Rule]) -> Result<Items<Rule>, AllocError>
    ensures { IfOk result (λ copies. copies ≡ rules.now) }
{
    let mut copies = Items::new(alloc);
    for rule in rules {
        copies.push(rule.clone()?)?;
    }
    Ok(copies)
}
