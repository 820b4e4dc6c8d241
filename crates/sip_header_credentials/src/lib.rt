//! Digest credentials (RFC 2617 3.2.2, RFC 3261 20.7 and 20.28): what the value of an Authorization or a
//! Proxy-Authorization says, or that it is malformed.
//!
//! - Used: `sip_auth`, and `sip_edit`, which takes off credentials of this server's realm.
//! - Not here: whether a credential is right (`sip_auth`).
//! - Tried: `test_parts`.
//!
//! ```text
//! let said = credentials_of(alloc, value)?;
//! ```
#![tactic(auto)]

mod credentials;
pub mod examples;
pub mod laws;

pub use credentials::{Credentials, credentials_of};
