//! Bytes put into one store, and fields viewed there whose lines stand in it (`lines`): a message that is kept stands once
//! (`sip_message_form`).
ghost use Rattle.std.specs.Prelude.{◌≡◌, IfOk, All, map};
ghost use Rattle.sip_message_fields.specs.Values;
ghost use Rattle.sip_message_fields.specs.KeptField.{field_kept, IsStored, IsPut};

use crate::kept_field::KeptField;
use crate::value::Value;
use crate::view_field::ViewField;
use crate::view_fields::ViewFields;
use crate::view_name::ViewName;
use crate::{FieldName, KnownName};
use sip_text::{Buffer, Span};
use std::alloc::{AllocError, Global};

/// Puts bytes at the end of a store. What stood in it stays where it is.
pub fn put(store: &mut Buffer, more: &[u8]) -> Result<Span, AllocError>
    ensures { IfOk result (λ span. IsPut store.old more.now store.new span) }
{
    let start = store.as_slice().len();
    store.extend(more)?;
    let end = store.as_slice().len();
    Ok(Span { start, end })
}

/// The name that is kept so in a store.
fn name_in<'k>(bytes: &'k [u8], kept: &KeptField) -> ViewName<'k>
    requires { IsStored bytes.now kept.now }
    ensures { result ≡ (field_kept bytes.now kept.now).name }
{
    ViewName::of_kept(kept.known, kept.spelling.of(bytes))
}

/// The field that is kept so in a store.
fn field_in<'k>(bytes: &'k [u8], kept: &KeptField) -> ViewField<'k>
    requires { IsStored bytes.now kept.now }
    ensures { result ≡ field_kept bytes.now kept.now }
{
    ViewField::new(name_in(bytes, kept), Value::of_part(kept.value.of(bytes)))
}

/// The fields that are kept so in a store, of which no byte is copied.
pub fn fields_in<'k>(
    alloc: Global,
    bytes: &'k [u8],
    list: &'k [KeptField],
) -> Result<ViewFields<'k>, AllocError>
    requires { All (IsStored bytes.now) list.now }
    ensures { IfOk result (λ fields. fields ≡ map (field_kept bytes.now) list.now) }
{
    let mut fields = ViewFields::with_room(alloc, list.len())?;
    for kept in list {
        fields.push(field_in(bytes, kept))?;
    }
    Ok(fields)
}

/// The fields that are kept so in a store, the first of a name with another value. No byte is copied.
pub fn fields_in_with_first<'k>(
    alloc: Global,
    bytes: &'k [u8],
    list: &'k [KeptField],
    name: &FieldName,
    value: &'k [u8],
) -> Result<ViewFields<'k>, AllocError>
    requires { All (IsStored bytes.now) list.now }
    ensures { IfOk result (λ fields. fields ≡ Values.with_first name.now value.now (map (field_kept bytes.now) list.now)) }
{
    let mut fields = ViewFields::with_room(alloc, list.len())?;
    let known = KnownName::of(name);
    let mut is_edited = false;
    for kept in list {
        let field = field_in(bytes, kept);
        if !is_edited && field.name().is_named(known, name) {
            fields.push(ViewField::new(name_in(bytes, kept), Value::of_part(value)))?;
            is_edited = true;
        } else {
            fields.push(field)?;
        }
    }
    Ok(fields)
}
