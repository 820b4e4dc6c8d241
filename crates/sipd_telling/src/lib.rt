//! The records in files, told to a listener as one history: the configuration with which each begins, a server that takes its events again, what of
//! it the record before it didn't tell, and how the program ends where one isn't told to its end.
//!
//! - Used: `sipd_days`, for the tables of recorded days; `sipd_traces` and `sipd_page`, whose listeners are told records by it.
//! - Not here: how the steps of a record are told (`sip_retell`), with which configuration one begins (`sipd_old_record`), which files the records
//!   are that are named (`sipd_record_files`), and what is kept of their steps (each listener's room).
//! - Tried: `test_server`.
#![tactic(auto)]

mod day;
mod exits;
mod files;
pub mod laws;
mod onward;
mod telling;

pub use day::{complain_of_older, exit_of_day, exit_of_file, open_day};
pub use files::{DayReading, reading_of, tell_files};
pub use onward::{DayPoint, Onward};
pub use telling::{Telling, begin, pass, tell};

/// Of `sip_engine`.
pub mod engine {
    pub use sip_retell::engine::Engine;
}
