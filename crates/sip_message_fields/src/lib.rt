//! The fields of SIP messages (RFC 3261 7.3): the names that this project knows and their compact forms, a field, and a list
//! of fields with what is looked up, copied and edited in it by name. The same as parts of what was read, which copy no byte
//! where none was joined (`ViewField`, `ViewFields`), and put into a store, where their bytes stand once.
//!
//! - Used: `sip_message` fills views, the edits change them, a kept request stores them.
//! - Not here: what a value says (`sip_header`), and the start line and the body (`sip_message_form`).
//! - Tried: `test_parts`.
//!
//! ```text
//! let via = view.fields.first(FieldName::Via);
//! ```
#![tactic(auto)]

mod field;
mod field_name;
mod fields;
mod full_spelling;
mod kept_field;
mod known_names;
mod lines;
mod name_ends;
mod named_values;
mod piece;
mod slices;
mod store;
mod value;
mod view_edits;
mod view_field;
mod view_fields;
mod view_lookups;
mod view_name;

pub use field::Field;
pub use field_name::{FieldName, known_name};
pub use fields::Fields;
pub use kept_field::{KeptField, same_fields};
pub use known_names::KnownName;
pub use lines::{FieldLines, lines_at, put_marked};
pub use piece::ViewPiece;
pub use slices::{slice_before, slice_from, slice_of};
pub use store::{fields_in, fields_in_with_first, put};
pub use value::Value;
pub use view_field::ViewField;
pub use view_fields::ViewFields;
pub use view_name::ViewName;

/// Of `sip_text`.
pub mod text {
    pub use sip_text::{Buffer, Bytes, Span, same_bytes, same_no_case};
}
