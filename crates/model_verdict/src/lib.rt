//! What is to be done with a datagram, of all that a proxy knows: the first case that applies (RFC 3261 9.2,
//! 10.3, 16.3 to 16.5, 17.1.3, 17.2.3). Nothing runs here.
//!
//! - Used: contracts of `sip_verdict`, and `model_steps`.
//! - Not here: a body.
//! - Tried: worked examples in `src/examples.rt`, as contracts that compute.
#![tactic(auto)]

pub mod examples;
pub mod laws;
mod question;

pub use question::Question;

/// Of `model_context`.
pub mod context_model {
    pub use model_context::laws;
}

/// Of `sip_state`.
pub mod state {
    pub use model_context::state::{
        AnswerText, Branch, DialogNames, KeptRequest, LastAnswer, OpenRequest, Phase, Server, Side,
        Upward,
    };
}
