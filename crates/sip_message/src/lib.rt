//! SIP messages: `view` takes a datagram apart by the grammar of RFC 3261 7 and 25.1, in this project's
//! profile, as parts of itself; `read` gives the same message with bytes of its own, and `write` the written
//! form of a message. A text that is read says one message, and what is written of it says it again.
//!
//! - Used: `sip_verdict` reads each datagram once.
//! - Not here: the meaning of a value (`sip_header`), and which messages are refused (`sip_validate`).
//! - Tried: worked examples in `src/examples.rt`, as contracts that compute; `test_parts`.
//!
//! ```text
//! let message = view(alloc, datagram)?;
//! ```
#![tactic(auto)]

mod body;
mod content;
mod datagram_parts;
mod entries;
pub mod examples;
mod filling;
mod joined_line;
mod keeping;
pub mod laws;
mod line;
mod line_fault;
mod lines;
mod part_field;
mod parting;
mod reading;
mod stands;
mod start_line;
mod viewing;

pub use datagram_parts::DatagramParts;
pub use part_field::PartField;
pub use parting::parts;
pub use reading::read;
pub use sip_message_fields::{
    Field, FieldName, Fields, Value, ViewField, ViewFields, ViewName, ViewPiece,
};
pub use sip_message_form::{
    Kept, Message, ReadError, Start, View, ViewError, ViewRefusal, ViewStart, write, written_length,
};
pub use viewing::view;
