//! What a datagram does to what a proxy knows, and what a step is: a datagram taken, a deadline passed, something sent again,
//! a send that failed, or time alone (RFC 3261 16, 17). Definitions, which worked examples compute; nothing runs here. What
//! holds of every run of such steps is said in `sip_model`.
//!
//! - Used: contracts of each step up to `Engine`.
//! - Not here: laws about runs (`sip_model`).
//! - Tried: worked examples in `src/examples.rt`, `registrations.rt` and `configurations.rt`, as contracts that compute to
//!   the byte.
#![tactic(auto)]

pub mod configurations;
pub mod examples;
pub mod registrations;
pub mod steps;

/// Of `model_context`.
pub mod context_model {
    pub use model_verdict::context_model::laws;
}

/// Of `sip_state`.
pub mod state {
    pub use model_verdict::state::{
        AnswerText, Branch, KeptRequest, LastAnswer, OpenRequest, Phase, Server, Side, Upward,
    };
}
