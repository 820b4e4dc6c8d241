//! What a datagram is, of all that finds what it belongs to: a response, with the branch and the method that find the
//! branch of an open request, or a request, with the key that finds an open one; or nothing (RFC 3261 16.7 step 1,
//! 17.1.3, 17.2.3). And what is to be done with a request that no open one is found for, of all that a server knows: the
//! first case that applies (9.2, 10.3, 16.3 to 16.5), with what the configured server judges of it: what policy is asked
//! and decides, what a REGISTER asks for and comes to, and where a request goes (`Judge`). It decides, looks nothing up
//! among the open requests, and changes nothing.
//!
//! - Used: `sip_engine`, first of all, and then about each new request and each ACK.
//! - Not here: the tables that it gives keys for; the carrying out of a verdict: `sip_uas`, `sip_forwarding`.
//! - Tried: `test_server` by its stored runs.
//!
//! ```text
//! let incoming = judge.incoming(alloc, &message, short)?;
//! ```
#![tactic(auto)]

mod acknowledging;
mod arriving;
mod cancelling;
mod checks;
mod copies;
mod datagram;
mod dialog_request;
mod incoming;
mod judge;
mod key_reading;
mod known_tables;
pub mod laws;
mod policy;
mod question;
mod reading;
mod received;
mod registering;
mod registration;
mod requesting;
mod responding;
mod targeting;
mod validated;
mod verdict;

pub use acknowledging::ack_verdict;
pub use arriving::{is_ack, new_verdict};
pub use datagram::read_datagram;
pub use incoming::Incoming;
pub use judge::Judge;
pub use known_tables::KnownTables;
pub use received::Received;
pub use registering::Registering;
pub use validated::Validated;
pub use verdict::{Judged, PolicyOutcome, Verdict};

/// Of `sip_state`.
pub mod state {
    pub use model_verdict::state::{DialogNames, KeptRequest, OpenRequest, Server};
}

/// Of `model_verdict`.
pub mod verdict_model {
    pub use model_verdict::Question;
}
