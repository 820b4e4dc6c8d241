//! What is expected of a configuration's policy, a line each, in the words of its rules; whether each question that a line means is decided
//! so, and one that isn't.
//!
//! Here, too: the requests that a log tells, asked again under another configuration: the lines that would be decided otherwise, each with
//! what would be decided.
//!
//! - Used: `sipd_tools`, for `check --expect`; `sipd_tools`, for `decide --log`.
//! - Not here: that no question is missing (`sip_matrix`), and what is decided about one (`sipd_ask`).
//! - Tried: worked examples in `src/examples.rt`, as contracts that compute; `tests/expectations.py`; `test_server`; worked examples in
//!   `src/log_examples.rt`.
//!
//! ```text
//! let told = told_of(alloc, &config, b"group interns INVITE 9*@office.local never\n")?;
//! ```
//!
//! ```text
//! let counts = ask_again(alloc, &config, &mut input, &mut output)?;
//! ```
#![tactic(auto)]

mod asking;
mod counts;
mod error;
pub mod examples;
mod file;
mod line;
pub mod log_examples;
mod log_lines;
mod log_telling;
mod telling;
mod times;

pub use counts::Counts;
pub use error::LineError;
pub use file::{ExpectationReport, FileError, told_of};
pub use line::fault_of_line;
pub use log_lines::ask_again;
