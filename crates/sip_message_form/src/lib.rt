//! A SIP message in its forms: with bytes of its own (`Message`), as parts of what was read (`View`), kept as its written
//! form (`Kept`) or in fewer bytes (`KeptParts`), and written (`write`, RFC 3261 7); and why bytes are none.
//!
//! - Used: every room that holds a message.
//! - Not here: the reader of datagrams (`sip_message`).
//! - Tried: `test_parts`.
//!
//! ```text
//! let kept = Kept::of(alloc, &view)?;
//! ```
#![tactic(auto)]

mod error;
mod kept;
mod kept_fields;
mod kept_parts;
mod kept_start;
mod kept_text;
mod lengths;
mod message;
mod message_view;
mod putting;
mod view_error;
mod view_length;
mod view_refusal;
mod view_start;
mod view_writing;
mod writing;

pub use error::ReadError;
pub use kept::Kept;
pub use kept_parts::KeptParts;
pub use message::{Message, Start};
pub use message_view::View;
pub use putting::{put_body, put_line, put_request_line, put_status_line};
pub use view_error::ViewError;
pub use view_refusal::ViewRefusal;
pub use view_start::ViewStart;
pub use view_writing::{put_field, put_fields};
pub use writing::{write, written_length};

/// Of `sip_message_fields`.
pub mod fields {
    pub use sip_message_fields::{FieldName, Value, ViewField, ViewFields};
}
