//! What a change from one configuration to another would do: the list of what differs, its text, and a few words on it.
//!
//! - Used: `sipd_tools`, for `check --against`; `sipd_command`, where a change comes into force.
//! - Not here: what may change while a server runs (`sip_config_change`), the texts of rules (`sipd_ask`), the change itself.
//! - Tried: worked examples in `src/examples.rt`, as contracts that compute; `tests/changes.py`.
//!
//! ```text
//! let changes = changes_of(alloc, &old, &new)?;
//! let text = told(alloc, &changes)?;
//! let words = summed_up(alloc, &changes)?;
//! ```
#![tactic(auto)]

mod difference;
mod differing;
pub mod examples;
mod fate;
pub mod laws;
mod places;
mod rules;
mod summary;
mod telling;
mod users;

pub use difference::{Difference, DigestKey, Move, Revision};
pub use differing::{can_be_taken, changes_of};
pub use summary::summed_up;
pub use telling::told;
