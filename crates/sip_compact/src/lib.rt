//! Which events of a record still matter: a shorter record of these, with `omitted COUNT` in the place of the datagrams between
//! them, is to lead a server to a state that is the same for whatever comes. Nothing that is said here is believed: whoever
//! writes the shorter record compares the two servers that both lead to. So it has no contract but that the events that it names
//! are ones it was told, in their order. It may name too many, which costs room, or too few, and then the longer record stays.
//!
//! It is told each event once, in order, with the place of its text in the file; it keeps what it read of those that may matter,
//! some 100 bytes a phone, 200 a call, and each datagram of the last five minutes.
//!
//! - Used: `sipd_start`, where a record is made shorter.
//! - Not here: how the shorter record is written and read (`sip_journal`, `sip_record_omitted`); whether it serves
//!   (`sip_model`).
//! - Tried: `tests/compacts.py`.
//!
//! ```text
//! let mut chooser = Chooser::new(alloc, first, keys);
//! chooser.heard(number, at, word, from, bytes, place)?;
//! let chosen = chooser.chosen(now)?;
//! ```
#![tactic(auto)]

mod bindings;
mod calls;
mod choice;
mod chooser;
pub mod examples;
mod marks;
mod open_requests;
mod row;
mod rows;
mod saying;
mod seen;
mod words;

pub use choice::{Chosen, ShorterItem};
pub use chooser::Chooser;
pub use row::Place;
