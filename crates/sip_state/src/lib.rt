//! What a proxy knows: its open requests with their branches, bindings, nonces and dialogs; what dialogs learn from what
//! is sent; and when two states are the same (RFC 3261 12, 16). What the code holds is of these types. A request as it
//! was heard is kept beyond its datagram (`KeptRequest`), and beside its bytes what it says that is asked for again and again
//! while it is open, read once: of the request and its source alone, so that any server may ask.
//!
//! - Used: all rooms of the open request above it, and the definitions of the model; `sip_engine` keeps each new request
//!   as a `KeptRequest`, and whatever is sent of it is made from there.
//! - Not here: what changes a state (`sip_context`).
//! - Tried: `test_server` by its stored runs.
//!
//! ```text
//! let heard = KeptRequest::of(alloc, &request, &via, from)?;
//! ```
#![tactic(auto)]

mod answer_text;
mod branch;
pub mod dialogs;
mod kept_answer;
mod kept_request;
pub mod laws;
mod names;
mod onward;
mod open_request;
mod proxy_state;
mod resend;
mod server;
mod status;
mod tail;
mod top_via;

pub use answer_text::AnswerText;
pub use branch::{Branch, Phase};
pub use kept_answer::KeptAnswer;
pub use kept_request::KeptRequest;
pub use names::DialogNames;
pub use open_request::{LastAnswer, OpenRequest, Side, Upward};
pub use proxy_state::ProxyState;
pub use resend::{Resend, first_resend};
pub use server::Server;
pub use status::{is_decline, is_failure, is_invite, is_provisional, is_success};
