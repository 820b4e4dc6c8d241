//! Not in the program: the edits of a message as views of its fields, which are made and then written. The program writes each
//! packet straight from the message as it came (`sip_edit`: `text_to_target`, `ack_text`, `cancel_text`), and both ways are
//! proved to give what the same definitions say. Here are a request as it goes on to its targets (RFC 3261 16.4, 16.6), this
//! server's Record-Route, and the ACK and the CANCEL of a request that was sent (9.1, 17.1.1.3).
//!
//! - Used: by tests alone; whoever edits a message by hand has here what the definitions name.
//! - Not here: the definitions, and what of these edits is the same in both ways (`sip_edit`); a response without its top Via,
//!   which the program makes so, too (`sip_edit`: `pop_via`).
//! - Tried: `test_parts`.
//!
//! ```text
//! let base = onward_base(alloc, &own, realm, records_route, &request)?;
//! let sent = to_target(alloc, &base, uri, via)?;
//! ```
#![tactic(auto)]

mod onward;
mod own_requests;
mod record_route;

pub use onward::{onward_base, to_target};
pub use own_requests::{ack_of, ack_with, cancel_of};
pub use record_route::push_record_route;
