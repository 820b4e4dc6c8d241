//! What of a configuration may not change while a server runs: its frame, by which requests that are open make their packets anew
//! at each sending and know their responses. All else, users, rules, the offset, hops and the addresses of hosts, may.
//!
//! - Used: `sip_engine`, before it takes another configuration.
//! - Not here: the change itself; what else two configurations differ in.
//! - Tried: worked examples in `src/examples.rt`, as contracts that compute.
//!
//! ```text
//! match frame_key(&old, &new) {
//!     Some(key) => refused(key),
//!     None => changed(new),
//! }
//! ```
#![tactic(auto)]

pub mod examples;
mod frame;
mod key;
pub mod laws;

pub use frame::frame_key;
pub use key::FrameKey;
