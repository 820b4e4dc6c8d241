//! With which numbers a start begins: the word of a server, the number of its first datagram, and the secrets of its tables, as a source gives
//! them in the order in which they are drawn.
//!
//! - Used: `sipd_start`, `sipd_command`.
//! - Not here: the word of a server that goes on, which its record says (`sipd_start`); the source itself.
//! - Tried: `tests/serve.py`.
#![tactic(auto)]

mod boot;

pub use boot::{new_boot, secret};
