//! Who is told the steps of a record, one after the other: each with the event whose own step it is, and the configuration that is in force.
//!
//! - Used: `sip_retell`, which tells them; `sip_days`, whose calls and registrations hear them.
//! - Not here: which steps these are (`sip_retell`), and what a listener makes of them.
//! - Tried: `test_server`.
//!
//! ```text
//! listener.hear(engine.config(), Some(event), out)?;
//! ```
#![tactic(auto)]

mod listener;

pub use listener::Listener;
