//! A script or a record replayed: its events are handed to the engine, each at its moment, and the packets and records that the engine
//! hands out are printed.
//!
//! Of `recorded_laws`, `scripts`: what a record replays is what was served: what is served, gone on with and replayed of one text, with the
//! configurations that it says came into force, are the same steps. The same of a script, which says events alone (`scripts`).
//!
//! - Used: `sipd_start`.
//! - Not here: the program's words and streams.
//! - Tried: `test_engine`, and each stored run of `test_server`.
//!
//! ```text
//! replay::<WheelTimers, IndexedRules, _, _>(alloc, config, &mut reader, &mut writer)?;
//! ```
#![tactic(auto)]

mod due_steps;
mod error;
pub mod laws;
mod playback;
mod record;
pub mod recorded_laws;
pub mod scripts;
mod stop;

pub use error::ReplayError;
pub use playback::replay;
pub use record::replay_record;

/// Of `sip_engine`.
pub mod engine {
    pub use sip_resume::engine::{ChangeError, Engine, StepError};
}

/// Of `sip_run`.
pub mod run {
    pub use sip_resume::run::{event_moment, fire_next, run, take_event};
}

/// Of `sip_resume`.
pub mod resume {
    pub use sip_resume::{RecordError, Resumed, engine, resume_record};
}
