//! What a proxy knows while it runs, and the ways in which a step changes it: a moment passes, an open request changes, a
//! request is opened, and what comes with it for bindings and nonces (RFC 3261 10, 16). What a step does is drafted
//! before, with all its memory, so that no step is refused half way.
//!
//! - Used: the two rooms of steps, `sip_engine_request`.
//! - Not here: which step a datagram takes (`sip_engine`).
//! - Tried: `test_server` by its stored runs.
#![tactic(auto)]

mod cancelling;
mod changing;
mod configured;
mod drafting;
mod ending;
mod judging;
mod proxy;
mod received_request;
mod received_response;
mod registering;

pub use configured::Configured;
pub use drafting::EventDraft;
pub use proxy::Proxy;
pub use received_request::ReceivedRequest;
pub use received_response::ReceivedResponse;

/// Of `sip_context`.
pub mod context {
    pub use sip_fork::context::{Input, is_accepted};
}

/// Of `sip_fork`.
pub mod fork {
    pub use sip_fork::{Due, FirstDue, NewRow};
}

/// Of `sip_transaction_table`.
pub mod transaction_table {
    pub use sip_fork::transaction_table::Transaction;
}

/// Of `sip_forwarding`.
pub mod forwarding {
    pub use sip_forwarding::{
        Arrival, Drafted, Forwarded, copy_packets, forward_ack, forward_to, forward_within,
    };
}

/// Of `sip_verdict`.
pub mod verdict {
    pub use sip_verdict::{Judged, PolicyOutcome, is_ack, state};
}
