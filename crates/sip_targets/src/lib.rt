//! The targets of a request that policy lets through: where it is sent on, by which hop, or why nowhere
//! (RFC 3261 16.5); and what its Request-URI says for that: the host, the address and the address of record.
//!
//! - Used: `sip_verdict`, which reads the Request-URI before the checks, and makes targets once policy let a request through.
//! - Not here: the branches to these targets (`sip_forwarding`).
//! - Tried: worked examples in `src/examples.rt`, as contracts that compute.
//!
//! ```text
//! let targets = targets_of(alloc, &decision, is_known, &uri, live, &hops)?;
//! ```
#![tactic(auto)]

pub mod examples;
pub mod laws;
mod request_uri;
mod target;
mod target_set;
mod target_uri;
mod targets;
mod uri_address;

pub use request_uri::RequestUri;
pub use target::Target;
pub use target_set::targets_of;
pub use target_uri::TargetUri;
pub use targets::Targets;
