//! The branches of an open request: their phases, which of them are to be cancelled, and their CANCELs (RFC 3261 9.1,
//! 16.7, 16.8, 16.10); and what of a request goes again, and when (17): its last answer, to a copy of the request or by
//! itself, the requests and CANCELs of its branches, and their ACKs. A branch is told by its number and by whether it is
//! a CANCEL. Nothing here waits or reads a clock.
//!
//! - Used: `sip_context`, `sip_forwarding` for copies, and `sip_fork` for the moments.
//! - Not here: packets (`sip_context`).
//! - Tried: worked examples of `model_context`, which its contracts cite.
#![tactic(auto)]

mod answer;
mod branch;
mod branches;
mod cancels;
mod hearing;
mod phase;
mod resends;
mod retransmission;
mod wait;

pub use answer::{answer_again, answer_due};
pub use branch::{is_cancellable, is_same_branch};
pub use branches::{all_final, mark, set_final, set_phase, want_cancel};
pub use cancels::{add_cancels, new_cancels};
pub use hearing::{invite_heard, other_heard};
pub use phase::is_final;
pub use resends::{answer_went, branch_went};
pub use retransmission::{branch_due, is_acked_again};

/// Of `sip_state`.
pub mod state {
    pub use model_context::state::{
        AnswerText, Branch, KeptAnswer, LastAnswer, OpenRequest, Phase, Resend, Server, Side,
        Upward, first_resend, is_decline, is_failure, is_invite, is_provisional, is_success,
    };
}

/// Of `model_context`.
pub mod context_model {
    pub use model_context::state;
}
