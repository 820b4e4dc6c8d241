//! Timers: what RFC 3261 17 calls them and the intervals that they are set to, a trait over what stands, in the order in
//! which it fires, and a plain list of timers (`ListTimers`; the program has a wheel, `sip_timers_wheel`). Over any of them
//! the timers of a part of an open request are set where there is room, and stopped while they stand (`start`, `stop`). No
//! clock is read here: each moment is handed in. `specs/Machine` says what a transaction machine is.
//!
//! - Used: `sip_request` sets and stops timers, `sip_fork` looks at the first.
//! - Not here: what happens when a timer fires (`sip_engine_request`), and which intervals a phase has (`sip_context`).
//! - Tried: worked examples in `src/examples.rt`, as contracts that compute; each kind of timers in `test_kinds`.
#![tactic(auto)]

mod actions;
mod error;
pub mod examples;
mod interval;
pub mod laws;
mod letter;
mod list_timers;
pub mod move_laws;
mod running;
pub mod setting_laws;
mod timer;
mod timers;

pub use actions::Actions;
pub use error::TimerError;
pub use interval::{T1, T2, T4, TIMER_C, TIMER_C_PAST_B, doubled};
pub use letter::Letter;
pub use list_timers::ListTimers;
pub use running::{start, stop};
pub use timer::{Name, Owner, Timer};
pub use timers::Timers;
