//! One open request, its response context: what a response, a deadline, a packet that could not be sent, the caller's CANCEL and ACK, and
//! what goes again by time make of it, as one input, and what it sends then (RFC 3261 16.7 to 16.10, 17; RFC 6026). Nothing here waits,
//! reads a clock or sets a timer. A refusal says nothing of the request: its caller works on a clone of it.
//!
//! Here, too: what is sent of an open request (RFC 3261 8.2.6, 9.1, 16.6, 17.1.1.3): its answers, its requests to targets, their CANCELs
//! and ACKs, each made from the request as it came and written once.
//!
//! - Used: `sip_fork`, which plans every change by it, and `sip_forwarding` for an answer at once.
//! - Not here: the timers (`sip_request`); which branches there are, and what goes again (`sip_context_branches`).
//! - Tried: worked examples of `model_context`, which its contracts cite; `test_server` by its stored runs.
//!
//! ```text
//! let sent = take_input(alloc, &server, now, &mut request, input)?;
//! ```
#![tactic(auto)]

mod acknowledging;
mod answers;
mod caller_packets;
mod cancelling;
mod deadlines;
mod events;
mod faults;
mod finals;
mod input;
mod relays;
mod responses;
mod sent;
mod settling;
mod side;
mod target_packets;

pub use caller_packets::{answer_packet, answer_to, made_answer};
pub use events::take_input;
pub use input::Input;
pub use sent::Sent;
pub use settling::settle_alone;
pub use side::{is_accepted, is_answering};
pub use target_packets::packets_of_branches;

/// Of `sip_context_branches`.
pub mod context_branches {
    pub use sip_context_branches::{answer_due, branch_due, is_cancellable, is_same_branch};
}

/// Of `sip_state`.
pub mod state {
    pub use sip_context_branches::state::{Branch, OpenRequest, Server, first_resend, is_invite};
}
