//! The fields of a message that owns them (RFC 3261 7.3.1). A datagram that is read has them as parts of itself, which are looked up and
//! edited (`ViewFields`).
ghost use Rattle.std.specs.Prelude.{◌≡◌, [], ◌∷◌, ◌++◌, IfOk, OnOk, OnErr, map};

use crate::field::Field;
use crate::field_name::FieldName;
use crate::named_values::values_in;
use std::alloc::{AllocError, Global};
use std::marker::Model;

/// The fields of a message, in their order, seen as the list of them.
#[derive(Clone, Drop)]
pub struct Fields {
    list: Vec<Field>,
}

impl Model for Fields {
    ghost use Rattle.std.specs.Prelude.{List};
    ghost use Rattle.sip_message_fields.specs.declared.field.Field.{Field};

    ghost Value = { List Field };

    ghost view = { λ f. f.list.items };
}

impl Fields {
    ghost use Rattle.sip_message_fields.specs.Values.{values_of};

    /// No fields. Takes no memory.
    pub fn new(alloc: Global) -> Self
        ensures { result ≡ [] }
    {
        Fields {
            list: Vec::new(alloc),
        }
    }

    /// Adds a field at the end. At an error the fields are as before.
    pub fn push(&mut self, field: Field) -> Result<(), AllocError>
        ensures ok { OnOk result (self.new ≡ self.old ++ field ∷ []) }
        ensures err { OnErr result (self.new ≡ self.old) }
    {
        self.list.push(field)?;
        Ok(())
    }

    /// The fields, in their order.
    pub fn as_slice(&self) -> &[Field]
        ensures { result.now ≡ self.now }
    {
        self.list.as_slice()
    }

    /// The values of the fields of a name, in their order.
    pub fn values(&self, alloc: Global, name: &FieldName) -> Result<Vec<&[u8]>, AllocError>
        ensures { IfOk result (λ values. map (λ value. value.now) values.items ≡ values_of name.now self.now) }
    {
        values_in(alloc, self.list.as_slice(), name)
    }
}
