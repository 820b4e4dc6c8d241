//! The calls of a recorded day as a table of 80 columns, and for programs; which of them are shown; and what other tables of a day are made
//! of: moments and lengths of time, and the members of a line of CSV (RFC 4180), of an object of JSON (RFC 8259), or of a row of HTML.
//!
//! - Used: `sipd_days`, for `sipd calls`; `sipd_standing` writes cells, members and times as it does.
//! - Not here: what a call is (`sip_days`); dates, and how far a clock is ahead of UTC (`sipd_report`).
//! - Tried: worked rows in `src/examples.rt`, as contracts that compute; `test_server`.
//!
//! ```text
//! let text = table_text(alloc, &choice, calls.as_slice())?;
//! ```
#![tactic(auto)]

mod cells;
mod choice;
pub mod examples;
pub mod laws;
mod moments;
mod notation;
mod program;
mod table;
mod totals;
mod words;

pub use cells::{push_cell, push_number, push_ruled};
pub use choice::CallFilter;
pub use moments::{push_iso_at, push_length, push_start_at, push_title, seconds_of};
pub use notation::{Notation, Value, push_end, push_first, push_further};
pub use program::{names_text, objects_text, push_called, push_source, words_of};
pub use table::table_text;
pub use words::ruled_text;
