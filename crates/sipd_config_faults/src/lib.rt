//! A configuration read for a reader: what a text states, or why it is refused, as a line: the line, the table and the key at which
//! the reading stops, and what would do; or where it isn't UTF-8.
//!
//! - Used: `sipd_tools`, for `check --show`.
//! - Not here: the reading and its order of refusals (`sip_config`); what a configuration that is taken says (`sipd_ask`).
//! - Tried: `tests/mistakes.py`, sixty changed files.
//!
//! ```text
//! match read_or_tell(alloc, text)? { Reading::Stated(config) => .., Reading::Refused(error, line) => .. }
//! ```
#![tactic(auto)]

mod encoding;
mod headers;
mod line_number;
mod misplaced_keys;
mod telling;
mod wanted_values;

pub use encoding::explain_encoding;
pub use telling::{Reading, read_or_tell};
