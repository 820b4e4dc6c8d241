//! A call of a recorded day as a sequence diagram in text: who sent what to whom, what was decided by which rule, what came and went again, and
//! which timers sent something.
//!
//! - Used: `sipd_traces`, for `sipd ladder`; `sipd_ladder_picture` draws the same rows.
//! - Not here: how the steps of a record are told (`sip_retell`), and the same as a drawing (`sipd_ladder_picture`).
//! - Tried: worked rows in `src/examples.rt`, as contracts that compute; `test_server`.
//!
//! ```text
//! let mut ladder = Ladder::new(alloc, call_id)?;
//! ladder.hear(alloc, config.offset, &event, &out)?;
//! let text = ladder.text(alloc)?;
//! ```
#![tactic(auto)]

mod drawing;
pub mod examples;
mod hearing;
pub mod laws;
mod rung;
mod saying;
mod table;

pub use drawing::{Arrow, cut, push_seconds};
pub use hearing::Ladder;
pub use rung::{AddrName, Rung, RungKind, RungPlace};
pub use saying::push_plain;
pub use table::{
    inward, label, name_of, names_by, outward, place_of, places_of, push_call, push_moment,
};
