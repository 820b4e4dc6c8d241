ghost use Rattle.std.specs.Prelude.{◌≡◌, IfOk};

use crate::field_name::FieldName;
use sip_text::Bytes;
use std::alloc::{AllocError, Global};

/// A field of a message: its name, and its value without blanks at both ends (RFC 3261 7.3.1).
#[derive(Clone)]
pub struct Field {
    pub name: FieldName,
    pub value: Bytes,
}

/// Written out, so that it is proved once and not wherever one is dropped.
impl Drop for Field {
    fn drop(self) {
        let Field { name: _, value: _ } = self;
    }
}

impl Field {
    /// The field of this name with this value, which is copied.
    pub fn new(alloc: Global, name: FieldName, value: &[u8]) -> Result<Self, AllocError>
        ensures { IfOk result (λ field. (field.name ≡ name) × (field.value ≡ value.now)) }
    {
        let value = Bytes::copy(alloc, value)?;
        Ok(Field { name, value })
    }
}
