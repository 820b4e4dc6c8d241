//! What came and went on recorded days: as a capture, and of one call as a diagram.
//!
//! - Used: `sipd_command`.
//! - Not here: how a record is opened and told (`sipd_telling`, `sip_retell`), the bytes of a capture (`sipd_capture`), the diagram (`sipd_ladder`) and
//!   the drawing (`sipd_ladder_picture`).
//! - Tried: `test_server`.
#![tactic(auto)]

mod climber;
mod climbing;
mod finder;
pub mod laws;
mod naming;
mod tracer;
mod tracing;

pub use climbing::draw_ladder;
pub use tracing::write_trace;
