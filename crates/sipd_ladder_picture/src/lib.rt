//! A call of a recorded day as a drawing of SVG, which needs no other file: the rows of `sipd_ladder`, each with its arrow or its text.
//!
//! - Used: `sipd_traces`, for `sipd ladder --svg`.
//! - Not here: which rows a call has, and the same in text (`sipd_ladder`).
//! - Tried: worked examples in `src/examples.rt`, as contracts that compute; `test_server`.
//!
//! ```text
//! let drawing = picture(alloc, &ladder)?;
//! ```
//!
//! That there is a row for each rung, in their order, and that no byte of a datagram is markup there, is said in `laws`.
#![tactic(auto)]

mod drawing;
pub mod examples;
mod kinds;
pub mod laws;
mod parts;
mod rows;

pub use drawing::picture;
