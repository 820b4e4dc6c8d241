//! The configuration file: TOML of version 1 or 2, read into what a server is told before it starts: its limits, users,
//! hosts and hops, and its rules, the tables `[[rule]]` with each of their lines and what they name. What a file states
//! is a definition over its keys; a file that states nothing is refused by the first fault, in the order of a table of
//! keys.
//!
//! - Used: `sipd_exit`, once, before the server is, and for the words of a complaint; of the bytes of a file that changed, and of
//!   the configurations of a record, `sip_segment_config`.
//! - Not here: what a single key may hold, and how it is refused (`sip_config_values`); anything that runs while the server does.
//! - Tried: worked examples in `src/examples.rt`, as contracts that compute; `test_parts`.
//!
//! ```text
//! let config = read_config(alloc, text)?;
//! ```
#![tactic(auto)]

mod configuration;
pub mod examples;
mod head;
mod hops;
mod host_addresses;
mod host_ports;
mod keys;
pub mod laws;
mod limits;
mod rules;
mod users;

pub use configuration::{read_config, read_config_bytes, read_table};
pub use keys::{may_have, unknown_key};
pub use sip_config_values::ConfigError;
