//! Fields that stand in a store, for `KeptParts`: one is looked up by its name, viewed, or put into a text.
ghost use Rattle.std.specs.Prelude.{◌≡◌, ◌++◌, All, IfSome, OnOk, map, option_map};
ghost use Rattle.std.specs.List.{flat_map};
ghost use Rattle.sip_message_fields.specs.FieldName.{is_same_name, spelling};
ghost use Rattle.sip_message_fields.specs.KeptField.{field_kept, IsStored};
ghost use Rattle.sip_message_fields.specs.KnownName.{name_seen};
ghost use Rattle.sip_message_fields.specs.Named.{all_named, first_named};
ghost use Rattle.sip_message_fields.specs.Values.{with_first};
ghost use Rattle.sip_message_form.specs.Text.{field_text};

use crate::putting::put_line;
use sip_message_fields::text::{Buffer, same_no_case};
use sip_message_fields::{FieldName, KeptField, KnownName, Value, ViewField, ViewName};
use std::alloc::AllocError;

/// The spelling of the name of a field that is kept so in a store.
fn spelling_in<'k>(store: &'k [u8], kept: &KeptField) -> &'k [u8]
    requires { IsStored store.now kept.now }
    ensures { result.now ≡ spelling (field_kept store.now kept.now).name }
{
    match kept.known {
        Some(known) => known.spelling(),
        None => kept.spelling.of(store),
    }
}

/// Whether a field that is kept so in a store is spelled as a name is. It stands apart, so that where a field is looked for
/// known names are compared in place.
#[inline(never)]
fn is_spelled(store: &[u8], kept: &KeptField, name: &FieldName) -> bool
    requires { IsStored store.now kept.now }
    ensures { result ≡ is_same_name (field_kept store.now kept.now).name name.now }
{
    same_no_case(spelling_in(store, kept), name.spelling())
}

/// Whether a field that is kept so in a store has a name, of which it is known whether this project knows it. An unknown name of
/// another length isn't compared with a known one.
#[inline(always)]
#[tactic(auto, using(crate::proofs::OtherLengths::other_length))]
fn is_named(store: &[u8], kept: &KeptField, known: Option<KnownName>, name: &FieldName) -> bool
    requires stored { IsStored store.now kept.now }
    requires known { name_seen known (spelling name.now) ≡ name.now }
    ensures { result ≡ is_same_name (field_kept store.now kept.now).name name.now }
{
    match (kept.known, known) {
        (Some(left), Some(right)) => left.is_same(right),
        (None, Some(right)) => {
            if kept.spelling.of(store).len() != right.spelling().len() {
                return false;
            }
            is_spelled(store, kept, name)
        }
        _ => is_spelled(store, kept, name),
    }
}

/// The first of the fields that are kept so in a store which has a name.
pub(crate) fn first_in<'k>(
    store: &[u8],
    list: &'k [KeptField],
    name: &FieldName,
) -> Option<&'k KeptField>
    requires { All (IsStored store.now) list.now }
    ensures named { option_map (λ kept. field_kept store.now kept.now) result ≡ first_named name.now (map (field_kept store.now) list.now) }
    ensures within { IfSome result (λ kept. IsStored store.now kept.now) }
{
    let known = KnownName::of(name);
    for kept in list {
        if is_named(store, kept, known, name) {
            return Some(kept);
        }
    }
    None
}

/// A field that is kept so in a store, of which no byte is copied.
pub(crate) fn field_in<'k>(store: &'k [u8], kept: &KeptField) -> ViewField<'k>
    requires { IsStored store.now kept.now }
    ensures { result ≡ field_kept store.now kept.now }
{
    let name = match kept.known {
        Some(known) => ViewName::of_name(known),
        None => ViewName::of_other(kept.spelling.of(store)),
    };
    ViewField::new(name, Value::of_part(kept.value.of(store)))
}

/// Puts a field that is kept so in a store, with its CRLF.
pub(crate) fn put_kept(out: &mut Buffer, store: &[u8], kept: &KeptField) -> Result<(), AllocError>
    requires { IsStored store.now kept.now }
    ensures { OnOk result (out.new ≡ out.old ++ field_text (field_kept store.now kept.now)) }
{
    put_line(out, spelling_in(store, kept), kept.value.of(store))
}

/// Puts those of the fields that are kept so in a store which have a name, the first of them with another value.
#[tactic(auto, using(crate::proofs::KeptFields::other_field, crate::proofs::KeptFields::first_field, crate::proofs::KeptFields::further_field))]
pub(crate) fn put_with_first(
    out: &mut Buffer,
    store: &[u8],
    list: &[KeptField],
    name: &FieldName,
    value: &[u8],
) -> Result<(), AllocError>
    requires { All (IsStored store.now) list.now }
    ensures { OnOk result (out.new ≡ out.old
        ++ flat_map field_text (all_named name.now (with_first name.now value.now (map (field_kept store.now) list.now)))) }
{
    let known = KnownName::of(name);
    let mut is_first = true;
    for kept in list {
        if !is_named(store, kept, known, name) {
            continue;
        }
        if is_first {
            put_line(out, spelling_in(store, kept), value)?;
            is_first = false;
        } else {
            put_kept(out, store, kept)?;
        }
    }
    Ok(())
}
