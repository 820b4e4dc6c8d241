//! What an audit says, for people and for programs: audit lines read back, those that are asked for as rows of a table or of
//! CSV, and what is counted of them.
//!
//! - Used: `sipd_tools`, for `report`; `sipd_expect`, for the lines of a log and what each says; `sipd_matrix_forms`, for fields of
//!   comma-separated values; `sipd_days`, `sipd_calls` and the rooms above it read times, choose, and write dates, times and cells as
//!   it does.
//! - Not here: audit lines (`sip_audit`), and which words of a command line ask for a report.
//! - Tried: worked examples in `src/examples.rt`, as contracts that compute.
//!
//! ```text
//! let none = report(alloc, &query, &mut input, &mut output)?;
//! ```
#![tactic(auto)]

mod calendar;
mod cells;
mod chosen;
mod ending;
mod entry;
mod error;
pub mod examples;
mod html;
pub mod laws;
mod lines;
mod query;
mod reporting;
mod row;
mod said;
mod tally;
mod target;
mod times;
mod totals;
mod zone;

pub use calendar::{Date, date_of, days_of_months};
pub use cells::{push_field, push_padded};
pub use chosen::{is_of_target, is_within};
pub use entry::entry_of;
pub use error::ReportError;
pub use html::put_escaped;
pub use lines::next_front;
pub use query::{Form, Query, is_challenge, is_of_user};
pub use reporting::report;
pub use said::{moment_at, no_time, time_said};
pub use target::{push_user, put_target, upper_digit};
pub use times::{push_clock, push_dated, push_offset, push_two_digits, shown_seconds};
pub use zone::Zone;
