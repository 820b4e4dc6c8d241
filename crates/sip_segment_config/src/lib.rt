//! The configurations that stand in a record, read without a server: the next one, with what its text states, and the last one.
//!
//! - Used: `sip_resume`, for each that a server takes; `sipd_old_record`, for the one with which a record begins (`read_configuration`);
//!   `sipd_tools`, for the last one (`last_configuration`).
//! - Not here: how a record holds them (`sip_journal`), and what a text states (`sip_config`).
//! - Tried: `test_serve`, through `sip_resume`; over files by `tests/serve.py` and `tests/changes.py`.
//!
//! ```text
//! let held = read_configuration(alloc, &mut lines, &mut reader, longest)?;
//! ```
#![tactic(auto)]

mod last_text;
mod reading;
mod stop;

pub use last_text::last_configuration;
pub use reading::{RecordedConfig, read_configuration};
pub use stop::SegmentStop;
