//! What a new request does that is answered here (RFC 3261 8.2, 9.2, 10.3, 16.5, 22): one that is refused at once, one about which policy
//! was asked and that goes nowhere, and a CANCEL; and what one does that is sent on: to its targets, once policy let it through (16.5,
//! 16.6), or to the address that its dialog holds (12.2, 16.12), and an ACK without a transaction (16.11). Each is one step, which is taken
//! whole or not at all. No clock is read: the moment is handed in.
//!
//! Here, too: what happens to requests that are open: a datagram that belongs to one, a response to one of its branches or a copy of it
//! (RFC 3261 16.7, 17.2), or that is dropped; a deadline that passes, something that goes again, time that passes (17, 16.8: Timer C), and
//! a packet that could not be sent (16.9). Each is one step, which is taken whole or is refused with nothing changed. No clock is read: the
//! moment is handed in.
//!
//! - Used: `sip_engine`.
//! - Not here: the clock, which whoever drives the engine reads.
//! - Tried: `test_server` by its stored runs; `test_engine`.
#![tactic(auto)]

mod acknowledging;
mod answered_request;
mod cancelling;
mod copying;
mod counting;
mod deciding;
mod dialog_request;
mod drafting;
mod dropping;
mod failing;
mod firing;
mod forwarded_request;
mod judging;
mod next;
pub mod open_laws;
mod records;
mod responding;
mod routed_request;
mod sending;
mod stepping;
mod taking;

pub use acknowledging::send_ack;
pub use answered_request::take_answered;
pub use cancelling::take_cancel;
pub use copying::take_copy;
pub use dialog_request::send_within;
pub use dropping::take_dropped;
pub use failing::fault;
pub use firing::fire;
pub use judging::take_judged;
pub use next::next_due;
pub use responding::take_response;
pub use routed_request::RoutedRequest;
pub use sending::send_to;
pub use sip_uas::KeyedRequest;

/// Of `sip_uas`.
pub mod uas {
    pub use sip_uas::{is_answered_here, laws};
}

/// Of `sip_context`.
pub mod context {
    pub use sip_proxy::context::is_accepted;
}

/// Of `sip_forwarding`.
pub mod forwarding {
    pub use sip_proxy::forwarding::Arrival;
}

/// Of `sip_proxy`.
pub mod proxy {
    pub use sip_proxy::{Configured, Proxy, ReceivedRequest, ReceivedResponse};
}
