//! Call policy: configured users, by their names, and rules in the order of the file, of which the first that holds at the
//! minute of a request and matches it decides.
//!
//! - Used: `sip_verdict` asks it about each request outside a dialog; the configuration fills it.
//! - Not here: who proved to ask (`sip_auth`), and where an allowed request goes (`sip_targets`).
//! - Tried: worked examples in `src/examples.rt`, as contracts that compute; `test_parts`, `test_kinds`.
#![tactic(auto)]

mod decision;
mod domains;
mod error;
pub mod examples;
pub mod laws;
mod list_rules;
mod operation;
mod rule;
mod rule_verdict;
mod rules;
mod ruling;
mod target_pattern;
mod texts;
mod user;
mod users;
mod who;
mod window;

pub use decision::Decision;
pub use domains::{is_own_domain, is_users_address};
pub use error::PolicyError;
pub use list_rules::{ListRules, deciding_rule};
pub use operation::{Operation, OperationPattern};
pub use rule::Rule;
pub use rule_verdict::RuleVerdict;
pub use rules::Rules;
pub use ruling::{Ruling, ruling_by};
pub use target_pattern::TargetPattern;
pub use texts::copy_texts;
pub use user::User;
pub use users::Users;
pub use who::Who;
pub use window::{Window, holds, minute_of};
