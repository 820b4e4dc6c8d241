//! What the program replays: the script of its input, the record in a file, and those of a folder, each with the configuration that it is to have;
//! and how the program ends where a replay is refused, or one of a folder's records is missing.
//!
//! - Used: `sipd_command`.
//! - Not here: the replay itself (`sip_replay`); what stands in a record (`sip_journal`), and its first line (`sipd_old_record`).
//! - Tried: `tests/serve.py`, `tests/seals.py`; `test_server`.
#![tactic(auto)]

mod replayed_folder;
mod replayed_record;
mod replayed_script;

pub use replayed_folder::replay_records;
pub use replayed_script::replay_script;
