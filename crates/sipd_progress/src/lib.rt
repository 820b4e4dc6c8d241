//! How far a long reading is, said on standard error while it goes on, to somebody who looks on.
//!
//! - Used: `sipd_start`, for what is replayed; `sipd_start`, for the record that a server goes on from; `sipd_telling`, for one
//!   that is told.
//! - Not here: whether somebody looks on: the program says whether standard error is a terminal.
//! - Tried: `tests/faults.py`.
//!
//! ```text
//! let mut reader = Watched::new(rt, reader, path, whole, seen);
//! ```
#![tactic(auto)]

pub mod examples;
mod pace;
mod watched;

pub use pace::Pace;
pub use watched::{Watched, size_of_file};
