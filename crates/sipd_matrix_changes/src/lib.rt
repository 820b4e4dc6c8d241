//! What changes between two policies: the cells of both together of which they make something else, and nothing else.
//!
//! - Used: `sipd_tools`, for `matrix --against`.
//! - Not here: the table of one configuration (`sip_matrix`, `sipd_matrix`); what else a change does (`sipd_changes`).
//! - Tried: worked examples in `src/examples.rt`, as contracts that compute.
//!
//! That no question is missing that is decided otherwise, and none is told that isn't, is said in `laws`.
#![tactic(auto)]

mod both_configurations;
mod change;
pub mod examples;
pub mod laws;
mod lines;
mod table;

pub use lines::changes_text;
