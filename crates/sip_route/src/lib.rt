//! Where this server is, and where a request goes once this server's own part of its way is taken off
//! (RFC 3261 16.4, 16.12).
//!
//! - Used: `sip_validate` and `sip_edit`.
//! - Not here: the address behind a URI (`sip_hops`).
//! - Tried: worked examples in `src/examples.rt`, as contracts that compute.
//!
//! ```text
//! let way = way_of(alloc, &own, &message)?;
//! ```
#![tactic(auto)]

pub mod examples;
pub mod laws;
mod own;
mod routes;
mod routes_kept;
mod way;

pub use own::{Own, is_address, loose_routing};
pub use routes_kept::{RoutesKept, kept_routes};
pub use way::{Way, has_lr, request_uri, uri_left, way_of};

/// Of `sip_header`.
pub mod header {
    pub use sip_header::{
        MaxForwards, Via, branch_of, cseq_of, max_forwards_of, one_before_rport, parameter_of,
        via_before_branch, via_of,
    };
}
