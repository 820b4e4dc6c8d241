//! A record told: a server takes again what the record says, and each step is handed to a listener, with the event whose own step it
//! is, and the configuration in force.
//!
//! - Used: `sipd_telling`, for whatever shows a recorded day. `sip_resume` and `sip_replay` take a record in the same way, and write of it to a
//!   journal or print its packets alone.
//! - Not here: what a listener makes of it; what writes a record (`sip_journal`), and how it is printed (`sip_replay_print`).
//! - Tried: `test_server`.
//!
//! ```text
//! let retold = retell_record(alloc, &mut engine, &mut lines, &mut reader, longest, None, &mut listener)?;
//! ```
#![tactic(auto)]

mod error;
pub mod laws;
mod next;
mod passing;
mod retelling;

pub use error::RetellError;
pub use passing::pass_time;
pub use retelling::{Retold, retell_record};

/// Of `sip_engine`.
pub mod engine {
    pub use sip_resume::engine::Engine;
}
