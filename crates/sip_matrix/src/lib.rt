//! The whole policy as a table: who asks by what is asked by when, in finitely many cells, in each of which one rule decides.
//!
//! - Used: `sipd_matrix`, `sipd_matrix_forms` and `sipd_matrix_changes`, for the command `matrix`; `sipd_expect`, for `check --expect`.
//! - Not here: what a rule decides (`sip_policy`), and the text of the table (`sipd_matrix`).
//! - Tried: worked examples in `src/examples.rt`, as contracts that compute.
//!
//! That no question is missing and none is decided otherwise is said in `laws`.
#![tactic(auto)]

mod cell;
mod column;
mod column_examples;
pub mod examples;
mod expectation;
mod expectation_outcome;
pub mod laws;
mod listing;
mod pieces;
mod rows;
mod table;

pub use cell::rule_in;
pub use column::{Column, agree};
pub use expectation::{Askers, Expectation, ExpectedDestination, Fault, Times};
pub use expectation_outcome::{ExpectationOutcome, standing_of};
pub use listing::{all_columns, columns_among};
pub use pieces::pieces_of;
pub use rows::ask_alike;
pub use table::{PolicyTable, table_of};
