//! How a server that serves is: its numbers as Prometheus' textfile collector reads them, and who gave wrong passwords in the last minute, for
//! those who look on and for what shuts such sources out.
//!
//! - Used: `sipd_service`, behind each turn, where that is asked for; `sipd_command` has the file.
//! - Not here: what is recorded of a decision (`sip_audit`); who wasn't heard (`sip_guard`); the file itself.
//! - Tried: worked examples in `src/examples.rt`, as contracts that compute; `tests/status.py`.
//!
//! ```text
//! tally.add(records);
//! status.book.note(alloc, judged.proof, source, datagram)?;
//! if status.book.is_due(now) {
//!     status.write(alloc, &numbers, now)?;
//! }
//! ```
#![tactic(auto)]

mod book;
pub mod examples;
mod giver;
mod memory;
mod numbers;
mod place;
mod status;
mod tally;
mod tries;

pub use book::StatusBook;
pub use giver::given_name;
pub use memory::memory_said;
pub use numbers::{StatusNumbers, status_text};
pub use place::{StatusFault, StatusPlace};
pub use status::Status;
pub use tally::{Decisions, Judged, Proof, Tally};
pub use tries::{TriedSource, Tries};
