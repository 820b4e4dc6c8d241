//! How the program ends, and why; the files that it reads, and where it is to record; how a text is printed whole. Nothing here knows the
//! server or the command line.
//!
//! - Used: `sipd_arguments`, `sipd_old_record`, `sipd_tools`, `sipd_start`, `sipd_service`, `sipd_command`.
//! - Not here: the words of the command line (`sipd_arguments`); the file of a configuration that changes (`sipd_reload`); the file of a record
//!   (`sipd_old_record`).
//! - Tried: `test_server`, `tests/serve.py`, `tests/faults.py`.
#![tactic(auto)]

mod device_fault;
mod exit;
mod files;
mod printing;
mod record_place;

pub use device_fault::DeviceFault;
pub use exit::Exit;
pub use files::{Stated, bytes_in, config_of, config_of_bytes, stated_in};
pub use printing::print;
pub use record_place::{RecordFault, RecordPlace, RecordSync};
