//! What a server changes of a message that goes on, written straight from the message as it came: the source of a request in its top Via,
//! and where its responses go; the own Via and its branch, and a response without it; the ACK and the CANCEL of a request that was sent
//! (RFC 3261 9.1, 16.6, 16.7, 17.1.1.3, 18.2.1 and 18.2.2; RFC 3581 4). And a request as it goes on to its targets (16.4, 16.6): the text
//! that is the same for all of them, that of the request to one of them, with this server's Record-Route, and the Request-URI with which a
//! request goes on that is its own target.
//!
//! Here, too: this server's own Via on top of a response, by whose branch the response finds its own (RFC 3261 16.7 step 1, 18.1.2). What
//! each Via of a run of this server begins with, up to the numbers that end its branch, is read once, when the server is made: a Via that
//! begins so isn't read, and any other one is.
//!
//! - Used: `sip_state` for a request as it came, once for all its targets; `sip_context` for what is sent; `sip_verdict`, of each response.
//! - Not here: answers made here (`sip_edit_response`); the same edits as views of a message's fields, which the program doesn't make
//!   (`sip_edit_views`).
//! - Tried: worked examples in `src/examples.rt` and `src/onward_examples.rt`, as contracts that compute; `test_parts`; `test_server`.
//!
//! ```text
//! let tail = received_tail(alloc, realm, routes, &request, via)?;
//! ```
//!
//! ```text
//! let branch = own_vias.top_branch(alloc, &response)?;
//! ```
#![tactic(auto)]

mod branch;
mod branch_id;
pub mod examples;
pub mod laws;
mod onward;
pub mod onward_examples;
mod own_request_text;
mod own_via;
mod own_via_prefix;
mod own_vias;
mod received_request;
mod tail;
mod tail_text;
mod top_via;

pub use branch_id::{BranchId, branch_of_text};
pub use onward::{hops_left, is_for_realm, onward_uri};
pub use own_request_text::{ack_text, cancel_text, to_field};
pub use own_via::{kept_without_via, pop_via};
pub use own_vias::OwnVias;
pub use received_request::with_top_via;
pub use tail::{text_onward, text_to_target};
pub use tail_text::received_tail;
pub use top_via::{received_top, received_via_of};
