//! What a server answers by itself: whole responses with their reasons and To tags, challenges, the values
//! of Contact in a list of bindings, and the fields that only some responses have (RFC 3261 8.2.6, 10.3;
//! RFC 2617 3.2.1; RFC 8760 2.3).
//!
//! - Used: `sip_context`, for whatever this server answers by itself.
//! - Not here: an answer of a phone that goes on (`sip_edit`).
//! - Tried: worked examples in `src/examples.rt`, as contracts that compute and `extras.rt`; `test_parts`.
//!
//! ```text
//! let answer = reply_view(alloc, &request, status, to_tag, &extras)?;
//! ```
#![tactic(auto)]

mod challenges;
mod contacts;
pub mod examples;
mod extras;
pub mod laws;
mod reasons;
mod reply;
mod reply_text;
mod tags;

pub use challenges::{challenge, challenge_fields};
pub use contacts::contact_value;
pub use extras::{denial_warning, min_expires, unsupported_field};
pub use reasons::reason_of;
pub use reply::{reply_view, respond};
pub use tags::{ToTag, to_tag};
