//! What a serving program needs to notice, between two turns, that the file of its configuration holds other bytes which are to be
//! taken: a file as a trait, with one of the system and one over memory, and a watch of it.
//!
//! - Used: `sipd_command` asks it once a turn, where a service is to take its configuration anew; `sipd_exit` reads each file of a
//!   configuration by it; `sipd_old_record`, `sipd_start` and `sipd_tools` read no longer configuration of a record.
//! - Not here: what the bytes say, and what is done with them.
//! - Tried: worked examples in `src/examples.rt`, as contracts that compute; `test_kinds`, on memory, with each allocation refused.
//!
//! ```text
//! match watch.look(now) {
//!     Look::Settled(bytes) => watch.take(bytes),
//!     Look::Nothing | Look::Unsettled | Look::Unread(_) => {}
//! }
//! ```
#![tactic(auto)]

pub mod examples;
mod file_answer;
mod file_fault;
mod file_state;
pub mod laws;
mod limits;
mod look;
mod memory_file;
mod path_file;
mod reading;
mod seen;
mod sight;
mod stamp;
mod watch;
mod watched_file;

pub use file_answer::FileAnswer;
pub use file_fault::FileFault;
pub use file_state::FileState;
pub use limits::MOST_BYTES;
pub use look::Look;
pub use memory_file::MemoryFile;
pub use path_file::PathFile;
pub use reading::read_configuration_file;
pub use stamp::Stamp;
pub use watch::Watch;
pub use watched_file::WatchedFile;
