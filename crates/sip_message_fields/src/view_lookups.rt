ghost use Rattle.std.specs.Prelude.{◌≡◌, IfOk, map, option_map, count_by};
ghost use Rattle.sip_message_fields.specs.FieldName.{is_same_name};
ghost use Rattle.sip_message_fields.specs.Named.{first_named};
ghost use Rattle.sip_message_fields.specs.Values.{values_of};

use crate::view_field::ViewField;
use crate::view_fields::ViewFields;
use crate::{Field, FieldName, Fields, KnownName};
use std::alloc::{AllocError, Global};

/// The first of some fields that has a name.
pub(crate) fn first_of<'f, 'a>(
    fields: &'f [ViewField<'a>],
    name: &FieldName,
) -> Option<&'f ViewField<'a>>
    ensures { option_map (λ field. field.now) result ≡ first_named name.now fields.now }
{
    let known = KnownName::of(name);
    for field in fields {
        if field.name().is_named(known, name) {
            return Some(field);
        }
    }
    None
}

/// How many of some fields have a name.
pub(crate) fn count_of(fields: &[ViewField<'_>], name: &FieldName) -> usize
    ensures { result ≡ count_by (λ field. is_same_name field.name name.now) fields.now }
{
    let known = KnownName::of(name);
    let mut count = 0;
    for field in fields {
        if field.name().is_named(known, name) {
            count += 1;
        }
    }
    count
}

/// The values of those of some fields that have a name.
pub(crate) fn values_in<'f>(
    alloc: Global,
    fields: &'f [ViewField<'_>],
    name: &FieldName,
) -> Result<Vec<&'f [u8]>, AllocError>
    ensures { IfOk result (λ found. map (λ value. value.now) found.items ≡ values_of name.now fields.now) }
{
    let known = KnownName::of(name);
    let mut found = Vec::new(alloc);
    for field in fields {
        if field.name().is_named(known, name) {
            found.push(field.value().as_slice())?;
        }
    }
    Ok(found)
}

/// Some fields, which own their bytes.
pub(crate) fn fields_of(alloc: Global, fields: &[ViewField<'_>]) -> Result<Fields, AllocError>
    ensures { IfOk result (λ copies. copies ≡ fields.now) }
{
    let mut copies = Fields::new(alloc);
    for field in fields {
        copies.push(field.to_field(alloc)?)?;
    }
    Ok(copies)
}

/// Views of some fields, of which no byte is copied.
pub(crate) fn views_of<'a>(alloc: Global, fields: &'a [Field]) -> Result<ViewFields<'a>, AllocError>
    ensures { IfOk result (λ views. views ≡ fields.now) }
{
    let mut views = ViewFields::with_room(alloc, fields.len())?;
    for field in fields {
        views.push(ViewField::of_field(field)?)?;
    }
    Ok(views)
}
