//! Where the addresses lead that a request gives, read once for whichever server asks: its first Route, its Request-URI
//! where a server put that into Record-Route, its Contact and Record-Route; and so which of its Routes are left for a
//! server (RFC 3261 12.1.1, 16.4).
//!
//! - Used: `sip_state`.
//! - Not here: the addresses behind what it tells (`sip_hops`).
//! - Tried: `test_server` by its stored runs.
#![tactic(auto)]

mod contact_host_ports;
pub mod laws;
mod route_facts;

pub use contact_host_ports::host_ports_in;
pub use route_facts::{HostPort, RecordedHostPort, RouteFacts};
