//! A field that is lent, a part of what was read (RFC 3261 7.3.1): its name, its value, and its line as it was written, where that is
//! known, so that it is copied as a whole where the field goes on.
ghost use Rattle.std.specs.Prelude.{◌≡◌, IfOk, IfSome};
ghost use Rattle.sip_message_fields.specs.Lines.{line_of};

use crate::Field;
use crate::value::Value;
use crate::view_name::ViewName;
use std::alloc::{AllocError, Global};
use std::marker::Model;

/// A field of a view, seen as that field. Where its line stands so in what was read, it has that, too: it is copied as a
/// whole where the field is written.
pub struct ViewField<'a> {
    name: ViewName<'a>,
    value: Value<'a>,
    line: Option<&'a [u8]>,
}

/// Written out, so that it is proved once and not wherever one is dropped.
impl<'a> Drop for ViewField<'a> {
    fn drop(self) {
        let ViewField {
            name: _,
            value: _,
            line: _,
        } = self;
    }
}

impl<'a> Model for ViewField<'a> {
    ghost use Rattle.sip_message_fields.specs.declared.field.Field.{Field};
    ghost use Rattle.sip_message_fields.specs.Lines.{IsLineOf};

    ghost Value = { Field };

    ghost view = { λ f. record { name = f.name; value = f.value } };

    ghost invariant = { λ f. IsLineOf f.line (record { name = f.name; value = f.value }) };
}

/// Written out, so that a copy is known to be equal.
impl<'a> Clone for ViewField<'a> {
    ghost is_clone = { λ field copy. copy ≡ field };

    fn clone(&self) -> Result<ViewField<'a>, AllocError> {
        let name = self.name.clone()?;
        let value = self.value.clone()?;
        Ok(ViewField {
            name,
            value,
            line: self.line,
        })
    }
}

impl<'a> ViewField<'a> {
    /// The field of this name with this value.
    #[inline]
    pub fn new(name: ViewName<'a>, value: Value<'a>) -> Self
        ensures { result ≡ record { name = name.entry; value = value.entry } }
    {
        ViewField {
            name,
            value,
            line: None,
        }
    }

    /// The field of this name with this value, whose line stands so in what was read.
    #[inline]
    pub(crate) fn of_line(name: ViewName<'a>, value: &'a [u8], line: &'a [u8]) -> Self
        requires { line.now ≡ line_of (record { name = name; value = value.now }) }
        ensures { result ≡ record { name = name.entry; value = value.now } }
    {
        ViewField {
            name,
            value: Value::of_part(value),
            line: Some(line),
        }
    }

    /// A field that was made, of which no byte is copied. In the server no response that is made as a view has further fields.
    pub fn of_field(field: &'a Field) -> Result<Self, AllocError>
        ensures { IfOk result (λ view. view ≡ field.now) }
    {
        let name = ViewName::of_field_name(&field.name);
        Ok(ViewField::new(name, Value::of_part(field.value.as_slice())))
    }

    /// The same field, of which no byte is copied.
    #[inline]
    pub fn lent(&self) -> Result<ViewField<'_>, AllocError>
        ensures { IfOk result (λ view. view ≡ self.now) }
    {
        let name = self.name.lent()?;
        Ok(ViewField {
            name,
            value: Value::of_part(self.value.as_slice()),
            line: self.line,
        })
    }

    /// Its name.
    #[inline]
    pub fn name(&self) -> &ViewName<'a>
        ensures { result.now ≡ self.now.name }
    {
        &self.name
    }

    /// Its value.
    #[inline]
    pub fn value(&self) -> &Value<'a>
        ensures { result.now ≡ self.now.value }
    {
        &self.value
    }

    /// Its line with its CRLF, if what was read has it so (RFC 3261 7.3.1).
    #[inline]
    pub fn line(&self) -> Option<&[u8]>
        ensures { IfSome result (λ line. line.now ≡ line_of self.now) }
    {
        self.line
    }

    /// The field, which owns its bytes.
    pub fn to_field(&self, alloc: Global) -> Result<Field, AllocError>
        ensures { IfOk result (λ field. field ≡ self.now) }
    {
        let name = self.name.to_name(alloc)?;
        Field::new(alloc, name, self.value.as_slice())
    }
}
