//! What the steps of a recorded day say of its calls and of who was registered: who called whom from where, by which rule, what came of it, how
//! long it rang and was talked, and who ended it; when an address was registered last, and from where. Both are defined by the steps that are
//! told of a record, and kept while they are told.
//!
//! - Used: `sipd_days`, for `sipd calls`, `sipd phones` and `sipd now`; `sipd_calls` and `sipd_standing`, for what a call is.
//! - Not here: how the steps of a record are told (`sip_retell`), the bindings of an address (`sip_location`), and the tables.
//! - Tried: worked days in `src/examples.rt`, as contracts that compute; `test_server`.
//!
//! ```text
//! let mut calls = Calls::new(alloc);
//! retell_record(alloc, &mut engine, &mut lines, &mut reader, longest, None, &mut calls)?;
//! ```
#![tactic(auto)]

mod call;
mod call_result;
pub mod examples;
mod hearing;
pub mod laws;
mod registered;
mod registering;
mod saying;

pub use call::{Answer, Call, Ending};
pub use call_result::{CallResult, is_taken};
pub use hearing::Calls;
pub use registered::Registered;
pub use registering::Phones;
