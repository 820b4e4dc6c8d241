//! The server over a list of events: each is handed in at its moment, behind all that was due by then, and the steps are listed.
//!
//! - Used: `sip_resume`, `sip_replay` and `sip_loop` let happen what is due by it (`fire_next`).
//! - Not here: a script or a link.
//! - Tried: `test_engine`.
//!
//! ```text
//! let run = run::<WheelTimers, IndexedRules>(alloc, config, boot, &events);
//! ```
#![tactic(auto)]

mod due_step;
mod outcome;
mod running;
mod taking;

pub use due_step::fire_next;
pub use outcome::Run;
pub use running::run;
pub use taking::{event_moment, take_datagram, take_event};

/// Of `sip_engine`.
pub mod engine {
    pub use sip_engine::{ChangeError, Engine, StepError};
}
