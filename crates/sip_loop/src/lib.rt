//! What drives the server on a link: a link and a clock are asked turn by turn, what comes is handed to the engine, told to a journal
//! and printed, and then the packets that the engine hands out are given to the link.
//!
//! - Used: `sipd_command`, turn by turn.
//! - Not here: the socket itself (`sip_transport`), what a journal writes (`sip_journal`), and what lines are printed on.
//! - Tried: `test_serve`, and over sockets `tests/serve.py`.
//!
//! ```text
//! serve(alloc, &mut engine, &mut link, &mut journal, &mut audit, &mut clock, &mut words, turns)?;
//! ```
#![tactic(auto)]

mod audit_log;
mod due_moments;
mod handing;
pub mod laws;
mod no_audit;
mod serve_error;
mod serving;

pub use audit_log::{AuditFault, AuditLog};
pub use no_audit::NoAudit;
pub use serve_error::ServeError;
pub use serving::serve;

/// Of `sip_engine`.
pub mod engine {
    pub use sip_run::engine::{ChangeError, Engine};
}
