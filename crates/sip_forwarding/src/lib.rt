//! How an open request begins (RFC 3261 16.2, 16.6, 17.2): answered at once, or sent to the branches of its targets or of
//! its dialog; and what is sent on, as drafts that are made before anything is changed: a request to its targets, a
//! request and an ACK in a dialog (16.6, 16.11, 16.12), and what an event of an open request sends (16.7 to 16.10). Each
//! draft has its packets in their order and the updates of the dialogs (12). Nothing here waits or reads a clock.
//!
//! - Used: `sip_uas` for a request that is answered here, `sip_proxy` for events, `sip_engine_request` for what is new.
//! - Not here: the decision where a request goes (`sip_verdict`), and the taking of a draft (`sip_proxy`).
//! - Tried: `test_server` by its stored runs.
//!
//! ```text
//! let forwarded = forward_to(alloc, &server, &hops, arrival, key, heard, &targets)?;
//! ```
#![tactic(auto)]

mod acking;
mod arrival;
mod branches;
mod changing;
mod copies;
mod forks;
mod forwarding;
mod laws;
mod opening;
mod packets;
mod renewing;
mod replying;

pub use arrival::Arrival;
pub use changing::{Drafted, draft_change};
pub use copies::copy_packets;
pub use forwarding::{Forwarded, forward_to, forward_within};
pub use packets::put_packets;
pub use renewing::{ForwardedAck, forward_ack};
pub use replying::{Replied, reply};

/// Of `sip_state`.
pub mod state {
    pub use model_steps::state::KeptRequest;
}

/// Of `model_transactions`.
pub mod transactions_model {
    pub use model_transactions::bounds;
}
