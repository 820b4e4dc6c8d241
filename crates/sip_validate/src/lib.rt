//! Whether a request may be served at all (RFC 3261 16.3, 8.1.1, 8.2.2 and 10.3): the first check that it
//! doesn't pass names the status that refuses it.
//!
//! - Used: `sip_verdict`, before anything else of a request is asked.
//! - Not here: whether bytes are a message (`sip_message`).
//! - Tried: worked examples in `src/examples.rt`, as contracts that compute; the stored runs of `test_server`.
//!
//! ```text
//! let checked = validate(alloc, &request, &via, short, &own)?;
//! ```
#![tactic(auto)]

mod checked;
pub mod examples;
mod faults;
pub mod laws;
mod refusal;
mod refused;
mod unchecked_request;
mod validation;

pub use checked::Checked;
pub use refused::Refused;
pub use validation::{is_bad_request, refusal_of, validate};
