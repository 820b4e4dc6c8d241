//! What the page of recorded days keeps of their steps, and how it is written: whether a log comes out of lines again; how many requests each rule
//! denied; how many addresses had a live binding, as a picture; and all that the page says of a record.
//!
//! - Used: `sipd_page`, which tells records to the notes, and makes the page of it.
//! - Not here: how a record is told, and the lines and the calls of a history (`sipd_page`, over `sipd_telling`), the tables of calls and of addresses
//!   (`sipd_calls`, `sipd_sources`), and the policy as HTML (`sipd_matrix_forms`).
//! - Tried: worked parts in `src/examples.rt`, as contracts that compute; `tests/page.py`.
//!
//! That no text of a record, a log or a configuration adds a tag is said in `laws`.
//!
//! ```text
//! put_section(body, path.as_bytes(), &told, sources.as_slice(), &notes)?;
//! ```
#![tactic(auto)]

mod comparing;
mod entries;
pub mod examples;
pub mod laws;
mod leases;
mod notes;
mod picture;
mod sections;
mod told;

pub use comparing::put_verdict;
pub use entries::Entry;
pub use notes::Notes;
pub use sections::{put_calls, put_section};
pub use told::{FileTold, policy_of};
