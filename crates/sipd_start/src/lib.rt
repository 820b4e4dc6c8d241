//! How a server begins: anew, or from where an older record leads; a record that is made shorter, and the next one of a server that serves; and
//! whether the process may have the stack that it needs.
//!
//! - Used: `sipd_command`, before it serves, while it does, and for `compact`.
//! - Not here: the serving; the numbers of a start (`sipd_boot`); the files of its record and what is chosen for a shorter one (`sipd_record_files`), what stands in a record
//!   (`sip_journal`), and the first line of an older one (`sipd_old_record`).
//! - Tried: `tests/serve.py`, `tests/faults.py`, `tests/turns.py`; `test_server`.
#![tactic(auto)]

mod beginning;
mod compacting;
mod next_record;
mod not_resumed;
mod old_lines;
mod opening;
mod stack_limit;
mod taking;
mod telling;

pub use beginning::{Beginning, Begun, begin, begin_unrecorded};
pub use compacting::compact;
pub use next_record::{LastRecord, NextInFolder, RecordFolder};
pub use stack_limit::check_stack;
