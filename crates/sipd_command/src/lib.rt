//! The program's command line carried out: phones are served over a socket; what is replayed goes to `sipd_replay`, what is told of recorded
//! days to `sipd_days`, to `sipd_traces` what came and went on them, to `sipd_page` the page of them, and what else is asked for to `sipd_tools`.
//!
//! - Used: the program `sipd`, with its kinds of timers and rules.
//! - Not here: how a server that records begins (`sipd_start`), its turns (`sipd_service`); the process's streams themselves.
//! - Tried: `test_server`, `tests/serve.py`, `tests/faults.py`.
#![tactic(auto)]

mod beside;
mod compacting;
mod program;
mod record_turning;
mod serving;
mod status_file;

pub use program::command;
pub use sipd_arguments::{Parsed, ProgramCall, parse, summary_of};
pub use sipd_exit::Exit;
pub use sipd_replay::replay_script;
