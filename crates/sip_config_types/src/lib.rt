//! What a server is told before it starts, of the types of those who read it, and the sample configuration.
//!
//! - Used: `sip_config` makes one, the engine is opened with one.
//! - Not here: the file and its grammar (`sip_config`).
//! - Tried: the stored runs of `test_server`.
#![tactic(auto)]

mod config;
mod samples;

pub use config::Config;
pub use samples::sample;
