//! A timer wheel: other timers than those of the plain list, which cost the same however many stand. Its slots are lists of
//! timers, doubly linked, threaded through the rows of one slab by their numbers: a timer is put behind the others of its
//! slot, taken out of its middle, or moved to another slot, each in a time that doesn't depend on how many there are.
//!
//! - Used: the program `sipd`, which chooses the kinds of its timers and rules.
//! - Not here: what a timer is for: it is one more `Timers` of `sip_timers`.
//! - Tried: `test_kinds`, beside the plain list.
#![tactic(auto)]

mod head;
mod least;
mod levels;
mod marks;
mod places;
mod row;
mod slots;
mod wheel_timers;

pub use slots::Slots;
pub use wheel_timers::WheelTimers;
