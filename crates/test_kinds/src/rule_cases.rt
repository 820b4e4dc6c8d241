//! What the sample's rules decide, for each kind of rules alike. None of them has a window.
use crate::asking::Asking;
use crate::case::{Case, Trial};
use sip_config_types::sample;
use sip_policy::{Decision, PolicyError, Rules};
use std::alloc::Global;

/// A request: the name that was proven, or nobody's, its method, its target's user and host, and what is decided about it.
pub(crate) type Asked = (
    Option<&'static str>,
    &'static str,
    &'static str,
    &'static str,
    Decision,
);

/// The sample's domain.
const OWN: &str = "host.com";

/// What is tried.
pub(crate) const CASES: &[Case] = &[
    // A call of nobody's is challenged.
    Case {
        name: "call_challenge",
        trial: Trial::Rules(&[(None, "INVITE", "alice", OWN, Decision::Challenge)]),
    },
    // Nobody reaches the vault, proven or not.
    Case {
        name: "vault_denied",
        trial: Trial::Rules(&[
            (None, "INVITE", "vault", OWN, Decision::Deny(3)),
            (Some("Mufasa"), "INVITE", "vault", OWN, Decision::Deny(3)),
            (Some("alice"), "INVITE", "vault", OWN, Decision::Deny(3)),
        ]),
    },
    // No rule is about another domain, whoever asks.
    Case {
        name: "foreign_domain_denied",
        trial: Trial::Rules(&[
            (None, "MESSAGE", "x", "other.net", Decision::Deny(0)),
            (None, "MESSAGE", "alice", OWN, Decision::Challenge),
            (
                Some("Mufasa"),
                "MESSAGE",
                "x",
                "other.net",
                Decision::Deny(0),
            ),
        ]),
    },
    // Staff call by the gateway, and nobody else does.
    Case {
        name: "gateway",
        trial: Trial::Rules(&[
            (None, "INVITE", "911", OWN, Decision::Challenge),
            (Some("Mufasa"), "INVITE", "911", OWN, Decision::Via(5, 0)),
            (Some("Mufasa"), "MESSAGE", "911", OWN, Decision::Allow(6)),
            (Some("alice"), "INVITE", "911", OWN, Decision::Allow(6)),
        ]),
    },
    // A proven user may call every address of the domain, whether or not it is a user's.
    Case {
        name: "no_binding_no_user",
        trial: Trial::Rules(&[
            (None, "INVITE", "911", OWN, Decision::Challenge),
            (Some("alice"), "INVITE", "Mufasa", OWN, Decision::Allow(6)),
            (Some("alice"), "INVITE", "none", OWN, Decision::Allow(6)),
        ]),
    },
    // A user registers contacts of no address but the own one.
    Case {
        name: "third_party_register",
        trial: Trial::Rules(&[
            (None, "REGISTER", "Mufasa", OWN, Decision::Challenge),
            (Some("alice"), "REGISTER", "Mufasa", OWN, Decision::Deny(0)),
            (
                Some("Mufasa"),
                "REGISTER",
                "Mufasa",
                OWN,
                Decision::Allow(1),
            ),
        ]),
    },
];

/// The sample's rules.
fn sample_rules<P: Rules>(alloc: Global) -> Result<P, PolicyError> {
    let config = sample(alloc)?;
    P::new(alloc, &config.rules, &config.users, &config.own.domains)
}

/// Whether rules decide so about a request, which has a Contact, at midnight.
fn is_decided<P: Rules>(alloc: Global, rules: &P, row: &Asked) -> bool {
    let (proven, method, user, host, decision) = *row;
    let asking = Asking {
        proven,
        method,
        has_contact: true,
        user,
        host,
        minute: 0,
    };
    match asking.ruling(alloc, rules) {
        Ok(ruling) => ruling.decision == decision && ruling.minute.is_none(),
        Err(_) => false,
    }
}

fn are_decided<P: Rules>(alloc: Global, rules: &P, rows: &[Asked]) -> bool {
    for row in rows {
        if !is_decided(alloc, rules, row) {
            return false;
        }
    }
    true
}

/// Whether the sample's rules, in a kind of rules, decide so about each of some requests.
pub(crate) fn hold<P: Rules>(alloc: Global, rows: &[Asked]) -> bool {
    match sample_rules::<P>(alloc) {
        Ok(rules) => are_decided(alloc, &rules, rows),
        Err(_) => false,
    }
}
