//! Rules that are found by an index: a decision looks only at the rules that can be for the operation and the user
//! that it is about, however many others there are.
//!
//! - Used: the program `sipd`.
//! - Not here: another meaning: it is one more `Rules` of `sip_policy`, proved to decide as the list does.
//! - Tried: `test_kinds`, beside the list.
#![tactic(auto)]

mod code;
mod index;
mod indexed_rules;
mod places;
mod rule_question;
mod search;

pub use indexed_rules::IndexedRules;
