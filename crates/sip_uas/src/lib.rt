//! What is answered here (RFC 3261 8.2, 9.2, 10.3, 16.5, 22): an answer, the challenge, the denial, and what becomes of a
//! REGISTER or of a request that goes to nobody; and what such an answer says and what is recorded of it: challenges,
//! denials, the bindings that a 200 lists, the extensions that a 420 names. All of it is drafted, with all memory, before
//! anything changes.
//!
//! - Used: `sip_engine_request`, and `sip_engine_request` for its records.
//! - Not here: the decision (`sip_verdict`).
//! - Tried: `test_server` by its stored runs.
#![tactic(auto)]

mod answer_draft;
mod answers;
mod asking;
mod challenges;
mod contacts;
mod judged_request;
mod judging;
mod keyed_request;
pub mod laws;
mod policy_records;
mod records;
mod refusals;

pub use answer_draft::AnswerDraft;
pub use answers::{FinalAnswer, answer};
pub use asking::is_answered_here;
pub use challenges::{challenge_name, challenge_status, challenges_to};
pub use contacts::contact_fields;
pub use judging::judged;
pub use keyed_request::KeyedRequest;
pub use policy_records::records_of;
pub use records::{method_of, recorded};
pub use refusals::denial_fields;

/// Of `sip_forwarding`.
pub mod forwarding {
    pub use sip_forwarding::{Arrival, put_packets, reply};
}

/// Of `model_transactions`.
pub mod transactions_model {
    pub use model_transactions::{fitting_events, openings};
}
