//! The line `omitted COUNT` of a record's file, which stands for so many datagrams that say no message: what it says, and a
//! reader that gives in its place so many lines of such a datagram. So whoever reads a record through it reads one as it always
//! was, in which each datagram that was left out has taken its number.
//!
//! - Used: `sipd_start` and `sipd_tools`, for the records that they read; `sipd_command`, for one that comes through
//!   the input.
//! - Not here: the other lines of a record (`sip_replay_script`, `sip_journal`); what may be left out (`sip_compact`), and
//!   what stands for it in a run (`sip_model`).
//! - Tried: worked examples in `src/examples.rt`, as contracts that compute.
//!
//! ```text
//! let mut reader = Expanding::new(alloc, file)?;
//! let head = head_in(alloc, &mut reader)?;
//! ```
#![tactic(auto)]

pub mod examples;
mod expanding;
mod front;
mod held;
pub mod laws;
mod line;
mod part;

pub use expanding::Expanding;
pub use line::{omitted_of, omitted_text};
