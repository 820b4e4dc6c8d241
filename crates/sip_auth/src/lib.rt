//! Whom a request proves to come from: its credentials for this server's realm, the configured user whom they
//! name, and the nonces that were issued (RFC 2617 3.2.2; RFC 3261 22; RFC 8760 2).
//!
//! - Used: `sip_verdict`, for each request outside a dialog.
//! - Not here: whether that user may do it (`sip_policy`), and the challenge (`sip_uas`).
//! - Tried: worked examples in `src/examples.rt`, as contracts that compute; `test_parts`.
//!
//! ```text
//! let proof = proof_of(alloc, realm, &users, &nonces, now, &message)?;
//! ```
#![tactic(auto)]

mod claim;
mod claiming;
pub mod examples;
mod finding;
pub mod laws;
mod offer;
mod proof;
mod proving;
mod quality;
mod realm;
mod right_claim;
mod uris;

pub use offer::offers_sha256;
pub use proof::Proof;
pub use proving::proof_of;
