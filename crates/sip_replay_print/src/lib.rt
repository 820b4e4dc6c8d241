//! How steps are printed: each packet with its line, each record as its line, through a writer that may fail at any call.
//!
//! - Used: `sip_replay`, for each step of a replay; `sip_resume`, where the steps of a record are shown, `sipd_start`, which prints them,
//!   and `sipd_start`, which doesn't; `sip_replay` says what is printed.
//! - Not here: the text of a script (`sip_replay_script`); the server.
//! - Tried: a worked example in `src/examples.rt`, as a contract that computes; `test_engine`.
#![tactic(auto)]

pub mod examples;
mod packet_head;
mod print;
mod sink;
mod writing;

pub use print::{PrintRoom, print_step};
pub use sink::{NoSink, Printer, StepSink};
