//! The typed header fields of SIP messages (RFC 3261 20 and 25.1; RFC 2617 3.2.2): one reader for each
//! field, which takes the bytes of a value and gives its meaning or says that it is malformed, and the
//! readers over whole messages that look a field up by its name.
//!
//! - Used: whoever asks what a field says: the checks, the keys, the registrar, the edits.
//! - Not here: which fields a request needs (`sip_validate`).
//! - Tried: worked examples in `src/examples.rt`, as contracts that compute; `test_parts`.
//!
//! ```text
//! let core = core_of(alloc, &message)?;
//! ```
#![tactic(auto)]

mod contact_item;
mod core_fields;
mod core_values;
mod cseq;
mod error;
pub mod examples;
mod expires;
pub mod laws;
mod max_forwards;
mod name_addr;
mod parameters;
mod plain_address;
mod route;
mod via;
mod written_address;
mod written_uri;

pub use contact_item::{ContactItem, contact_of};
pub use core_fields::{CoreFields, core_of};
pub use cseq::{CSeq, cseq_of};
pub use error::HeaderError;
pub use expires::{Expires, contact_expires, expires_of, parameters_expires};
pub use max_forwards::{MaxForwards, max_forwards_of};
pub use name_addr::{AnyUri, NameAddr, name_addr_of, parameters_behind_bracket};
pub use parameters::{
    HeaderParameter, Parameters, branch_of, one_before_rport, parameter_of, tag_of, value_of,
};
pub use plain_address::{bracketed_host_port, placed_host_port};
pub use route::route_of;
pub use via::{Via, via_before_branch, via_of};
pub use written_address::{WrittenAddress, written_address_of};

/// Of `sip_message_form`.
pub mod forms {
    pub use sip_message_form::{View, ViewStart};
}
