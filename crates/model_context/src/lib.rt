//! What an event makes of one open request, its response context: answers that go to the caller, CANCELs and ACKs that go to
//! the branches, the branch that a response is to (RFC 3261 16.6 to 16.10, 17; RFC 6026); and what goes again of it, and
//! when (RFC 3261 13.3.1.4, 17). Nothing runs here; bodies are proved equal to these definitions.
//!
//! - Used: contracts of `sip_context_*` and of `sip_fork` cite its definitions.
//! - Not here: a body.
//! - Tried: worked examples in `src/examples.rt` and `src/calls.rt`, as contracts that compute.
#![tactic(auto)]

pub mod calls;
pub mod examples;
pub mod laws;

/// Of `sip_state`.
pub mod state {
    pub use sip_state::{
        AnswerText, Branch, DialogNames, KeptAnswer, KeptRequest, LastAnswer, OpenRequest, Phase,
        Resend, Server, Side, Upward, first_resend, is_decline, is_failure, is_invite,
        is_provisional, is_success,
    };
}
