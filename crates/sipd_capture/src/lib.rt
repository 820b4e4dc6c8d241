//! The datagrams of a step as a capture has them, in the order in which they came and went: a file as Wireshark, sngrep and tcpdump read it (libpcap,
//! with raw IP), in which each stands behind an IP (RFC 791) and a UDP header (RFC 768); those of one call, or all; whole, or with `x` in the place
//! of credentials and bodies.
//!
//! - Used: `sipd_traces`, for `sipd trace`.
//! - Not here: how the steps of a record are told (`sip_retell`), and where they are written.
//! - Tried: worked frames and fields in `src/examples.rt`, as contracts that compute; `test_server`.
//!
//! ```text
//! let frames = frames_of(alloc, &choice, config, &event, &out)?;
//! ```
#![tactic(auto)]

mod choice;
pub mod examples;
mod frames;
mod headers;
mod hiding;
pub mod laws;

pub use choice::CaptureChoice;
pub use frames::{call_id_in, frames_of, head_of};
