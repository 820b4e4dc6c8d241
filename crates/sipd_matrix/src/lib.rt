//! The whole policy of a configuration as text: for each piece of the day a line for each class of addresses, and in it a cell for
//! each class of who asks.
//!
//! - Used: `sipd_tools`, for the command `matrix`; `sipd_matrix_forms` and `sipd_matrix_changes`, for what stands in a cell and its words.
//! - Not here: which cells there are, and that they are all (`sip_matrix`); one question (`sipd_ask`).
//! - Tried: worked examples in `src/examples.rt`, as contracts that compute.
//!
//! That no rule which decides is told to decide nothing, and that all users of a row are of its groups, is said in `laws`.
#![tactic(auto)]

mod cell;
mod cells;
pub mod examples;
pub mod laws;
mod matrix;
mod numbers;
mod text;
mod unused_names;
mod words;

pub use cell::Cell;
pub use cells::{
    are_known, are_of_class, are_of_row, hop_at, number_at, put_mark_at, put_value, rule_at,
};
pub use matrix::{Matrix, policy_table};
pub use numbers::numbers_of;
pub use text::{matrix_text, put_foot, put_legend, put_members, put_title, put_users};
pub use words::{end_of, operation_word, put_both, put_clock, put_column};
