//! The best response of a forked request (RFC 3261 16.7 step 6): which of the final answers of all
//! branches goes up, and with which challenges.
//!
//! - Used: `sip_context`, when all branches have their final answer.
//! - Not here: when an answer goes up (`sip_context`).
//! - Tried: worked examples in `src/examples.rt`, as contracts that compute; `test_parts`.
//!
//! ```text
//! let chosen = best(alloc, finals.as_slice())?;
//! ```
#![tactic(auto)]

mod challenges;
mod choice;
pub mod examples;
mod final_answer;
pub mod laws;
mod rank;

pub use choice::best;
pub use final_answer::Final;
pub use rank::better;
