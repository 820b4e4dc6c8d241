//! A server brought to where a record leads: the events that the record says are taken again, each under the configuration that was in
//! force, so that a run goes on behind them. Nothing of it is sent; what was decided and sent then can be shown.
//!
//! - Used: `sipd_start`, where `serve` is to go on from a record; `sip_replay`, where a record is replayed. `sip_replay` says what a
//!   resumed server has for its record.
//! - Not here: what writes a record (`sip_journal`), what the text of a configuration states
//!   (`sip_segment_config`), how steps are printed (`sip_replay_print`).
//! - Tried: `test_serve`, and over sockets `tests/serve.py`.
//!
//! ```text
//! let resumed = resume_record(alloc, &mut engine, &mut lines, &mut reader, longest, &mut journal, &mut NoSink)?;
//! ```
#![tactic(auto)]

mod error;
mod events;
pub mod laws;
mod parts;
mod record_error;
mod resuming;
mod segments;
mod taking;
mod whole_record;

pub use record_error::RecordError;
pub use taking::take_configuration;
pub use whole_record::{Resumed, resume_record};

/// Of `sip_engine`.
pub mod engine {
    pub use sip_run::engine::{ChangeError, Engine, StepError};
}

/// Of `sip_run`.
pub mod run {
    pub use sip_run::{event_moment, fire_next, run, take_datagram, take_event};
}
