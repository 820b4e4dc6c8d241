//! What the program does with a configuration and without a server: it is checked, shown and asked, its whole policy is a table, a user's table and a report are
//! made.
//!
//! - Used: `sipd_command`.
//! - Not here: what is said (`sipd_config_faults`, `sipd_ask`, `sipd_matrix`, `sipd_changes`, `sipd_expect`, `sipd_report`,
//!   `sipd_expect`), and what a record holds
//!   (`sip_segment_config`).
//! - Tried: `test_server`, `tests/mistakes.py`, `tests/changes.py`, `tests/expectations.py`, `tests/serve.py`, `tests/faults.py`.
#![tactic(auto)]

mod against;
mod clocks;
mod deciding;
mod expectations;
mod tools;

pub use deciding::decide;
pub use tools::{check, make_report, make_user, matrix};
