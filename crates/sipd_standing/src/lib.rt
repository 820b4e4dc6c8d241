//! What stands at a moment, as tables and for programs: the calls that ring or are talked, and who is registered, by the live bindings of the
//! addresses of record that a day registered.
//!
//! - Used: `sipd_days`, for `sipd now` and `sipd phones`.
//! - Not here: what a call is, and which addresses were registered (`sip_days`); how long a binding lives (`sip_location`); other cells
//!   (`sipd_calls`).
//! - Tried: worked rows in `src/examples.rt`, as contracts that compute; `test_server`.
//!
//! ```text
//! let text = standing_text(alloc, None, engine.config(), at, calls.as_slice())?;
//! let text = phones_text(alloc, None, &engine, at, phones.as_slice())?;
//! ```
#![tactic(auto)]

pub mod examples;
mod phone_cells;
mod phone_program;
mod phone_table;
mod program;
mod standing;
mod table;

pub use phone_table::phones_text;
pub use table::{standing_text, tables_text};
