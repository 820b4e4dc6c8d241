//! The transaction machines of RFC 3261 17 and RFC 6026 that an open request runs without having them: which machine of `sip_transactions`
//! runs each branch, which of `sip_transactions` the answering side, and that at every event the machine's next state fits what the
//! definitions make of the part, its actions are what the event sends, and its timers are those that the part then has (`fitting_events`,
//! `machines`); which timers an open request names, at which moments something goes again, and how many copies may still be sent (`ties`,
//! `copies`); in which order all that stand fire (`queue`); and that each of its moments is at most 185,000 ms past that of the last event
//! (`bounds`, `events`, `openings`, `timers`; RFC 3261 16.6 step 11). Nothing runs here: bodies call these laws.
//!
//! Of `branches`: the branches of an open request over its events: branches to targets, each with a number of its own, and right behind
//! some of them the CANCEL that was sent to it (RFC 3261 9.1, 16.10). An event leaves all that were there in their order, and CANCELs join
//! them.
//!
//! - Used: `sip_request`, `sip_forwarding` and `sip_uas` call its laws; `sip_forwarding` and `sip_fork` call its laws.
//! - Not here: a body.
//! - Tried: the machines' own worked runs in `sip_transactions`.
#![tactic(auto)]

pub mod bounds;
pub mod branches;
pub mod copies;
pub mod events;
pub mod fitting_events;
pub mod invite_client;
pub mod invite_server;
pub mod machines;
pub mod openings;
pub mod other_client;
pub mod other_server;
pub mod queue;
pub mod ties;
mod timer_keys;
pub mod timers;

pub use timer_keys::TimerKeys;

/// Of `sip_state`.
pub mod state {
    pub use sip_context_branches::state::{
        Branch, LastAnswer, OpenRequest, Phase, Resend, Side, is_invite, is_success,
    };
}
