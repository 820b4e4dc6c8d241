//! A file that is to be a record, opened: its first line is read, and held against the file of a configuration; and the configuration with
//! which it begins: its own, where it holds one, or that of a file that is named. What stands behind is left to the reader.
//!
//! Here, too: the file of a server's record, and what is asked of a journal beside its events: whether what was written stands where it
//! belongs.
//!
//! - Used: `sipd_start`, for the record from which a server goes on, and for the one that is replayed; `sipd_telling`, for one that is told;
//!   `sipd_tools`, for one that a change is told against; `sipd_start` makes the file, `sipd_service` looks at the journal.
//! - Not here: what the first line says (`sip_journal`), how a configuration stands in a record (`sip_segment_config`), and what stands
//!   behind the first one (`sip_resume`).
//! - Tried: `tests/serve.py`, `tests/faults.py`.
#![tactic(auto)]

mod first_configuration;
pub mod laws;
mod old_record;
mod record_configuration;
mod record_file;
mod watched_journal;

pub use first_configuration::{configuration_of, named_file};
pub use old_record::{
    OldRecord, at_line_of_file, exit_in_file, head_in, is_made_with, line_of_file, open_any_record,
    open_file,
};
pub use record_configuration::own_configuration;
pub use record_file::{RecordFile, SealedFile, mark_file, new_file, seal_file};
pub use watched_journal::{Unrecorded, WatchedJournal};
