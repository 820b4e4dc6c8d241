ghost use Rattle.std.specs.Prelude.{◌≡◌, IfOk, map};
ghost use Rattle.sip_message_fields.specs.Values.{values_of};

use crate::field::Field;
use crate::field_name::FieldName;
use std::alloc::{AllocError, Global};

/// The values of those of some fields that have a name. Among fields that are lent the same is in `view_lookups`.
pub(crate) fn values_in<'a>(
    alloc: Global,
    fields: &'a [Field],
    name: &FieldName,
) -> Result<Vec<&'a [u8]>, AllocError>
    ensures { IfOk result (λ found. map (λ value. value.now) found.items ≡ values_of name.now fields.now) }
{
    let mut found = Vec::new(alloc);
    for field in fields {
        if field.name.is_same(name) {
            found.push(field.value.as_slice())?;
        }
    }
    Ok(found)
}
