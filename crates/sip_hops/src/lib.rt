//! Addresses of the next hop: the configured tables that give the address of a URI and of a hop. A
//! table stands in for DNS (RFC 3263).
//!
//! - Used: `sip_targets` and `sip_route_facts`: whatever goes out needs an address.
//! - Not here: DNS, which this server never asks.
//! - Tried: worked examples in `src/examples.rt`, as contracts that compute; `test_parts`.
//!
//! ```text
//! let address = hops.address_of(&uri);
//! ```
#![tactic(auto)]

mod address_table;
mod code;
mod error;
pub mod examples;
mod hop;
mod hops;
mod host_address;
mod way;

pub use error::HopsError;
pub use hop::Hop;
pub use hops::Hops;
pub use host_address::HostAddress;
pub use way::{is_by_udp, port_or_default};
