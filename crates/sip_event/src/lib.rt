//! What a server is told and what it hands out: events in, and for each step its packets and records.
//!
//! - Used: the engine takes events and hands out steps; scripts and links are read into events.
//! - Not here: what an event does.
//! - Tried: `test_engine`.
#![tactic(auto)]

mod event;
mod packet;

pub use event::{Boot, Event, StepOut};
pub use packet::{Packet, Ticket};
