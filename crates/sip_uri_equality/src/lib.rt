//! Whether two SIP or SIPS URIs are equal (RFC 3261 19.1.4), and whether two texts of URIs say the same.
//!
//! - Used: `sip_location` for contacts and bindings, `sip_route` for own places, `sip_auth` for the `uri` of a credential.
//! - Not here: the comparison of header fields.
//! - Tried: worked examples in `src/examples.rt`, as contracts that compute; `test_parts`.
//!
//! ```text
//! let is_one = same(&left, &right);
//! ```
#![tactic(auto)]

mod equality;
pub mod examples;
mod header_order;
mod headers;
pub mod laws;
mod ordered;
mod parameter_order;
mod parameters;
mod places;
mod symbols;
mod texts;

pub use equality::same;
pub use ordered::Ordered;
pub use texts::{says_same, says_same_no_case};
