//! A server that serves: turn by turn, with a configuration that may change and a record that may be begun anew between two of them, a journal that is looked at, and each
//! decision printed before what it decides is sent; and, where that is asked for, its numbers kept for those who look on.
//!
//! - Used: `sipd_command`, once the server is begun.
//! - Not here: what is served in a turn (`sip_loop`), what the numbers look like (`sipd_status`), how the server begins (`sipd_start`), and the socket and the clocks themselves.
//! - Tried: `test_server`, `tests/serve.py`, `tests/changes.py`.
#![tactic(auto)]

mod hops;
pub mod laws;
mod line_printer;
mod next_record;
mod printing;
mod reloading;
mod service;
mod status_turn;
mod unheard_lines;

pub use hops::hops_of;
pub use line_printer::LinePrinter;
pub use next_record::{NextRecord, OneRecord};
pub use service::{Said, Service, Serving, serve_turns};
pub use status_turn::SizedJournal;

/// Of `sip_engine`.
pub mod engine {
    pub use sip_loop::engine::Engine;
}
