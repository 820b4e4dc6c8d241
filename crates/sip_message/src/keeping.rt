//! How the field of a line is kept: a list as a field for each of its items (RFC 3261 7.3.1), any other as it is.
//! Which names are lists is said in `sip_message_fields`.
ghost use Rattle.std.specs.Prelude.{◌≡◌, [], ◌∷◌, true, false, map, IfOk, OnOk, All, Some, MatchResult};
ghost use Rattle.sip_message_fields.specs.FieldName.{is_length, is_list};
ghost use Rattle.sip_text.specs.Lists.{cut};
ghost use Rattle.sip_text.specs.Span.{part, IsWithin};
ghost use Rattle.sip_message_fields.specs.Piece.{bytes_of};
ghost use Rattle.sip_message_fields.specs.Slice.{IsPieceCutFrom};
ghost use Rattle.sip_message.specs.HeadContent.{IsFault};
ghost use Rattle.sip_message.specs.Field.{pieces};
ghost use Rattle.sip_message.specs.Parts.{field_seen, IsKept, AreItemsKept};

use crate::line_fault::LineFault;
use crate::part_field::PartField;
use sip_text::{Span, TextError, cut_list, is_one_item};
use std::alloc::{AllocError, Global};

/// The field with this part of its value.
fn with_part<'a>(
    alloc: Global,
    field: &PartField<'a>,
    span: Span,
) -> Result<PartField<'a>, AllocError>
    requires { IsWithin span (bytes_of field.now.value) }
    ensures seen { IfOk result (λ f. field_seen f ≡ record (field_seen field.now) { value = part (bytes_of field.now.value) span }) }
    ensures cut { IfOk result (λ f. IsPieceCutFrom field.now.value f.value) }
{
    let name = field.name.clone()?;
    let value = field.value.within(alloc, span)?;
    Ok(PartField { name, value })
}

/// Keeps a field for this part of its value.
fn keep_part<'a>(
    alloc: Global,
    fields: &mut Vec<PartField<'a>>,
    field: &PartField<'a>,
    span: Span,
) -> Result<(), AllocError>
    requires { IsWithin span (bytes_of field.now.value) }
    ensures { OnOk result (AreItemsKept fields.old.items field.now (span ∷ []) fields.new.items) }
{
    fields.push(with_part(alloc, field, span)?)?;
    Ok(())
}

/// Keeps a field for each of these parts of its value.
fn keep_parts<'a>(
    alloc: Global,
    fields: &mut Vec<PartField<'a>>,
    field: &PartField<'a>,
    spans: &[Span],
) -> Result<(), AllocError>
    requires { All (λ span. IsWithin span (bytes_of field.now.value)) spans.now }
    ensures { OnOk result (AreItemsKept fields.old.items field.now spans.now fields.new.items) }
{
    for span in spans {
        keep_part(alloc, fields, field, *span)?;
    }
    Ok(())
}

/// The items of a list (RFC 3261 7.3.1).
pub(crate) fn items_of(alloc: Global, value: &[u8]) -> Result<Vec<Span>, LineFault>
    ensures items { MatchResult result (λ spans. cut value.now ≡ Some (map (part value.now) spans.items)) (λ e. IsFault e (cut value.now)) }
    ensures within { IfOk result (λ spans. All (λ span. IsWithin span value.now) spans.items) }
{
    match cut_list(alloc, value) {
        Ok(spans) => Ok(spans),
        Err(TextError::NoMemory) => Err(LineFault::NoMemory),
        Err(_) => Err(LineFault::BadField),
    }
}

/// Keeps a field for each item of a list.
pub(crate) fn keep_items<'a>(
    alloc: Global,
    fields: &mut Vec<PartField<'a>>,
    field: &PartField<'a>,
) -> Result<(), LineFault>
    requires not_length { is_length field.now.name ≡ false }
    requires list { is_list field.now.name ≡ true }
    ensures { MatchResult result (λ _. IsKept fields.old.items field.now fields.new.items) (λ e. IsFault e (pieces (field_seen field.now))) }
{
    let spans = items_of(alloc, field.value.as_slice())?;
    keep_parts(alloc, fields, field, &spans)?;
    Ok(())
}

/// Keeps a list: one of one item as it is.
fn keep_list<'a>(
    alloc: Global,
    fields: &mut Vec<PartField<'a>>,
    field: PartField<'a>,
) -> Result<(), LineFault>
    requires not_length { is_length field.name ≡ false }
    requires list { is_list field.name ≡ true }
    ensures { MatchResult result (λ _. IsKept fields.old.items field.entry fields.new.items) (λ e. IsFault e (pieces (field_seen field.entry))) }
{
    if is_one_item(field.value.as_slice()) {
        fields.push(field)?;
        return Ok(());
    }
    keep_items(alloc, fields, &field)
}

/// Keeps a field that isn't Content-Length: a list as its items. A field that isn't cut is moved.
pub(crate) fn keep<'a>(
    alloc: Global,
    fields: &mut Vec<PartField<'a>>,
    field: PartField<'a>,
) -> Result<(), LineFault>
    requires not_length { is_length field.name ≡ false }
    ensures { MatchResult result (λ _. IsKept fields.old.items field.entry fields.new.items) (λ e. IsFault e (pieces (field_seen field.entry))) }
{
    if field.name.is_list() {
        return keep_list(alloc, fields, field);
    }
    fields.push(field)?;
    Ok(())
}
