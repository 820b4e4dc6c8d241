//! The files of a server's records: what they are called, in a folder or by name, which of them is the newest and which are too old to stay; how a
//! new one is made under the name of a part, and gets its own once it is whole; and what it says of the record that it follows. And which events a
//! shorter record has, as those of the whole one are told, and what writes these.
//!
//! - Used: `sipd_start`, for the record of a start, and for the next one of a server that serves; `sipd_replay`, `sipd_days` and `sipd_traces`, for the
//!   records of a folder; `sipd_telling`, for whether a record goes on from another.
//! - Not here: what is written into a record (`sip_journal`), its file as the system has it and its digests (`sipd_old_record`), and which events
//!   matter (`sip_compact`); whether a shorter one serves (`sipd_start`).
//! - Tried: `tests/serve.py`, `tests/faults.py`, `tests/turns.py`.
#![tactic(auto)]

mod choosing;
mod following;
mod keeping;
mod making;
mod named_records;
mod record_folder;

pub use choosing::{Choice, Choosing};
pub use following::{Followed, follow, follows_in, follows_of, goes_on_from};
pub use keeping::Keeping;
pub use making::{
    NewFile, RecordFiles, check_free, copy_of, folder_of, make_part, name_part, place_of,
    remove_part,
};
pub use named_records::{is_folder, record_files};
pub use record_folder::{FolderFiles, name_of, numbers_in, remove_old};
