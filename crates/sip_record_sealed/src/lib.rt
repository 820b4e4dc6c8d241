//! The line `sealed DIGEST` of a record's file, which holds the SHA-256 of all that stands before it: how one is written, what is digested,
//! and a reader that takes these lines out, and fails at the first one that disagrees. So who reads a record through it reads one as it
//! always was, up to where its file was changed. A second line `follows NAME DIGEST`, which says which record a record follows, with the digest in
//! that one's last line, is written and taken out here, too.
//!
//! The first word of a file is its mark, which is written over in its place; it counts as `record` in a digest, whatever it is.
//!
//! - Used: `sipd_old_record`, for the files that it writes and opens; `sipd_command`, for a record that comes through the input.
//! - Not here: when a file is sealed (`sipd_old_record`); the other lines of a record (`sip_replay_script`, `sip_journal`).
//! - Tried: `tests/seals.py`.
//!
//! ```text
//! let mut reader = Unsealing::new(alloc, file)?;
//! let head = head_in(alloc, &mut reader)?;
//! ```
#![tactic(auto)]

mod digesting;
mod follows;
mod line;
mod seal;
mod unsealing;
mod window;

pub use digesting::Digesting;
pub use follows::{Follows, follows_line};
pub use seal::seal_line;
pub use unsealing::Unsealing;
