//! Audit lines: what is recorded of a request that policy decided, and its text, which is written and read.
//!
//! - Used: `sip_uas` and `sip_engine_request` make records, `sipd_command` and `sip_replay_script` write their lines.
//! - Not here: where lines go: whoever runs the server says that.
//! - Tried: worked examples in `src/examples.rt`, as contracts that compute; `test_parts`.
//!
//! ```text
//! let line = line_of(alloc, &record)?;
//! ```
#![tactic(auto)]

mod decision;
mod error;
pub mod examples;
pub mod laws;
mod name;
mod parts;
mod reading;
mod record;
mod target;
mod writing;

pub use error::AuditError;
pub use reading::read_line;
pub use record::{AuditOperation, AuditOutcome, Record};
pub use writing::{line_of, operation_word, who_word};
