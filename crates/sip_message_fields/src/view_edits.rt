ghost use Rattle.std.specs.Prelude.{◌≡◌, ◌++◌, IfOk, OnOk};
ghost use Rattle.sip_message_fields.specs.Named.{all_named};
ghost use Rattle.sip_message_fields.specs.Values;

use crate::value::Value;
use crate::view_field::ViewField;
use crate::view_fields::ViewFields;
use crate::{Field, FieldName, KnownName};
use std::alloc::{AllocError, Global};

/// Adds views of some fields, of which no byte is copied.
pub(crate) fn put_all<'a>(out: &mut ViewFields<'a>, fields: &'a [Field]) -> Result<(), AllocError>
    ensures { OnOk result (out.new ≡ out.old ++ fields.now) }
{
    for field in fields {
        out.push(ViewField::of_field(field)?)?;
    }
    Ok(())
}

/// Adds views of those of some fields that have a name.
pub(crate) fn put_named<'a>(
    out: &mut ViewFields<'a>,
    fields: &'a [ViewField<'_>],
    name: &FieldName,
) -> Result<(), AllocError>
    ensures { OnOk result (out.new ≡ out.old ++ all_named name.now fields.now) }
{
    let known = KnownName::of(name);
    for field in fields {
        if field.name().is_named(known, name) {
            out.push(field.lent()?)?;
        }
    }
    Ok(())
}

/// The same field with another value.
fn with_value<'a>(field: &'a ViewField<'_>, value: &'a [u8]) -> Result<ViewField<'a>, AllocError>
    ensures { IfOk result (λ edited. edited ≡ record field.now { value = value.now }) }
{
    let name = field.name().lent()?;
    Ok(ViewField::new(name, Value::of_part(value)))
}

/// Views of some fields, the first of a name with another value.
pub(crate) fn with_first<'a>(
    alloc: Global,
    fields: &'a [ViewField<'_>],
    name: &FieldName,
    value: &'a [u8],
) -> Result<ViewFields<'a>, AllocError>
    ensures { IfOk result (λ views. views ≡ Values.with_first name.now value.now fields.now) }
{
    let mut views = ViewFields::with_room(alloc, fields.len())?;
    let known = KnownName::of(name);
    let mut is_edited = false;
    for field in fields {
        if !is_edited && field.name().is_named(known, name) {
            views.push(with_value(field, value)?)?;
            is_edited = true;
        } else {
            views.push(field.lent()?)?;
        }
    }
    Ok(views)
}
