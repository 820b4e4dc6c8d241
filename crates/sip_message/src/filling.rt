//! A head taken line by line into the fields of a view (RFC 3261 7.3), a list as a field for each item (7.3.1).
//! Lines in their usual form are taken in place, any other goes the general way. `content` does the same for `parts`.
ghost use Rattle.std.specs.Prelude.{◌≡◌, ◌⊎◌, ◌++◌, [], ◌∷◌, true, false, map, All, MatchResult, IfOk, OnOk, Some, None};
ghost use Rattle.std.specs.List.{list_all};
ghost use Rattle.sip_text_runs.specs.TextRun.{is_text};
ghost use Rattle.sip_message.specs.Named.{IsNamed};
ghost use Rattle.sip_message.specs.Seen.{seen_field};
ghost use Rattle.sip_message.specs.Filled.{item_of, IsFieldFilled, IsLineFilled, filled_seen};
ghost use Rattle.sip_message.specs.Stands.{IsStanding, IsTakenAs};
ghost use Rattle.sip_message.specs.HeadContent.{IsFault, IsLineRefused, next_length, field_taken};
ghost use Rattle.sip_message.specs.Reading.{Gives, head_said};
ghost use Rattle.sip_message_fields.specs.FieldName.{is_length, is_list, name_of};
ghost use Rattle.sip_message_fields.specs.Lines.{line_of};
ghost use Rattle.sip_message_form.specs.Text.{AreLinesOf};
ghost use Rattle.sip_text.specs.Lists.{cut};
ghost use Rattle.sip_text.specs.Span.{IsWithin};
ghost use Rattle.sip_message.specs.Lines.{is_fold};

use crate::content::{USUAL_FIELDS, length_behind, refusal_of};
use crate::entries::{
    any_parts, behind_space, field_of_line, parts_of_line, plain_parts, trimmed_slice,
};
use crate::keeping::items_of;
use crate::line_fault::LineFault;
use crate::lines::{HeadLine, NamedLine, Slice, head_line, is_fold_line, named_line, whole_line};
use crate::part_field::PartField;
use crate::stands::{HeadLayout, Stands, TakenLine, go_on, lines_in};
use sip_message_fields::{Value, ViewField, ViewFields, ViewName};
use sip_message_form::{ViewError, ViewRefusal};
use sip_text::{Span, is_one_item};
use sip_text_runs::is_one_value;
use std::alloc::{AllocError, Global};

/// What the lines of a head say so far, as a view has it: the fields that are kept, and the one Content-Length
/// (RFC 3261 20.14).
#[derive(Drop)]
pub(crate) struct Filling<'a> {
    pub fields: ViewFields<'a>,
    pub length: Option<u64>,
    /// The lines of the fields, once it was seen that they stand in the head as they are written, one behind the other.
    pub lines: Option<&'a [u8]>,
}

/// Puts a field with a part of a value behind those of a view.
fn put_item<'a>(
    alloc: Global,
    fields: &mut ViewFields<'a>,
    name: &ViewName<'a>,
    value: &Value<'a>,
    span: Span,
) -> Result<(), AllocError>
    requires { IsWithin span value.now }
    ensures { OnOk result (fields.new ≡ fields.old ++ item_of name.now value.now span ∷ []) }
{
    let name = name.clone()?;
    let item = value.within(alloc, span)?;
    fields.push(ViewField::new(name, item))
}

/// Puts a field for each of these parts of a value behind those of a view.
fn put_items<'a>(
    alloc: Global,
    fields: &mut ViewFields<'a>,
    name: &ViewName<'a>,
    value: &Value<'a>,
    spans: &[Span],
) -> Result<(), AllocError>
    requires { All (λ span. IsWithin span value.now) spans.now }
    ensures { OnOk result (fields.new ≡ fields.old ++ map (item_of name.now value.now) spans.now) }
{
    for span in spans {
        put_item(alloc, fields, name, value, *span)?;
    }
    Ok(())
}

/// Whether a list is seen at once to be of one item. It stands apart, so that other fields are taken in registers.
#[inline(never)]
fn is_one_in_list(value: &[u8]) -> bool
    ensures { result ≡ true → cut value.now ≡ Some (value.now ∷ []) }
{
    if is_one_value(value) {
        return true;
    }
    is_one_item(value)
}

/// Whether a field is kept as one field.
#[inline(always)]
fn is_one_field(name: &ViewName<'_>, value: &[u8]) -> bool
    ensures one { result ≡ true → is_list name.now ≡ true → cut value.now ≡ Some (value.now ∷ []) }
    ensures list { result ≡ false → is_list name.now ≡ true }
{
    if !name.is_list() {
        return true;
    }
    is_one_in_list(value)
}

impl<'a> Filling<'a> {
    /// Takes the value of a Content-Length behind the others.
    fn take_length(&mut self, value: &[u8]) -> Result<(), LineFault>
        ensures fields { self.new.fields ≡ self.old.fields }
        ensures length { MatchResult result (λ _. next_length self.old.length value.now ≡ Some self.new.length)
            (λ _. next_length self.old.length value.now ≡ None) }
    {
        self.length = Some(length_behind(self.length, value)?);
        Ok(())
    }

    /// Takes a field for each item of a list (RFC 3261 7.3.1).
    #[inline(never)]
    fn take_items(
        &mut self,
        alloc: Global,
        name: &ViewName<'a>,
        value: &Value<'a>,
    ) -> Result<(), LineFault>
        requires not_length { is_length name.now ≡ false }
        requires list { is_list name.now ≡ true }
        ensures { MatchResult result
            (λ _. IsFieldFilled self.old (record { name = name.now; value = value.now }) self.new)
            (λ e. IsFault e (field_taken self.old.length (record { name = name.now; value = value.now }))) }
    {
        let spans = items_of(alloc, value.as_slice())?;
        put_items(alloc, &mut self.fields, name, value, &spans)?;
        Ok(())
    }

    /// Takes a field of one item, whose line stands in the datagram as it is written.
    #[inline(always)]
    fn take_field(
        &mut self,
        name: ViewName<'a>,
        value: &'a [u8],
        line: &'a [u8],
    ) -> Result<Stands, LineFault>
        requires one { is_list name ≡ true → cut value.now ≡ Some (value.now ∷ []) }
        requires line { line.now ≡ line_of (record { name = name; value = value.now }) }
        ensures filled { MatchResult result
            (λ _. IsFieldFilled self.old (record { name = name.entry; value = value.now }) self.new)
            (λ e. IsFault e (field_taken self.old.length (record { name = name.entry; value = value.now }))) }
        ensures stands { IfOk result (λ stands. IsStanding stands line.now self.old.fields self.new.fields) }
    {
        if name.is_content_length() {
            self.take_length(value)?;
            return Ok(Stands::AsLength);
        }
        self.fields.push_line(name, value, line)?;
        Ok(Stands::AsField)
    }

    /// Takes a field of any form, wherever its value stands.
    #[inline(never)]
    fn take_any(
        &mut self,
        alloc: Global,
        name: ViewName<'a>,
        value: Value<'a>,
    ) -> Result<(), LineFault>
        ensures { MatchResult result
            (λ _. IsFieldFilled self.old (record { name = name.entry; value = value.entry }) self.new)
            (λ e. IsFault e (field_taken self.old.length (record { name = name.entry; value = value.entry }))) }
    {
        let bytes = value.as_slice();
        if name.is_content_length() {
            return self.take_length(bytes);
        }
        if !is_one_field(&name, bytes) {
            return self.take_items(alloc, &name, &value);
        }
        self.fields.push(ViewField::new(name, value))?;
        Ok(())
    }

    /// Takes a field of any form of which the name and the value are written so in the datagram. It stands apart and makes
    /// the name itself, so that a field of one item is taken in registers.
    #[inline(never)]
    fn take_parts(
        &mut self,
        alloc: Global,
        name: &'a [u8],
        value: &'a [u8],
    ) -> Result<(), LineFault>
        ensures { MatchResult result
            (λ _. IsFieldFilled self.old (seen_field name.now value.now) self.new)
            (λ e. IsFault e (field_taken self.old.length (seen_field name.now value.now))) }
    {
        self.take_any(alloc, ViewName::of_part(name), Value::of_part(value))
    }

    /// The same in place, where it is one field, of which it was read what its name is.
    #[inline(always)]
    fn take_seen(
        &mut self,
        alloc: Global,
        seen: ViewName<'a>,
        name: &'a [u8],
        value: &'a [u8],
    ) -> Result<(), LineFault>
        requires { seen ≡ name_of name.now }
        ensures { MatchResult result
            (λ _. IsFieldFilled self.old (seen_field name.now value.now) self.new)
            (λ e. IsFault e (field_taken self.old.length (seen_field name.now value.now))) }
    {
        if seen.is_content_length() || !is_one_field(&seen, value) {
            return self.take_parts(alloc, name, value);
        }
        self.fields.push_part(seen, value)?;
        Ok(())
    }

    /// Takes a line with its folds, and gives what follows them.
    #[inline(never)]
    fn take_folded(
        &mut self,
        alloc: Global,
        line: &'a [u8],
        after: &'a [u8],
    ) -> Result<&'a [u8], LineFault>
        ensures { MatchResult result (λ rest. IsLineFilled self.old line.now after.now self.new rest.now)
            (λ e. (e ≡ LineFault.NoMemory) ⊎ IsLineRefused self.old.length line.now after.now) }
    {
        let (whole, rest) = whole_line(alloc, line, after)?;
        let PartField { name, value } = field_of_line(alloc, &whole)?;
        self.take_any(alloc, name, Value::of_piece(value))?;
        Ok(rest)
    }

    /// Takes a line without folds of any form, and gives what follows it.
    #[inline(never)]
    fn take_other(&mut self, alloc: Global, next: HeadLine<'a>) -> Result<&'a [u8], LineFault>
        requires no_fold { is_fold next.after.now ≡ false }
        ensures { MatchResult result (λ rest. IsLineFilled self.old next.entry.line.now next.entry.after.now self.new rest.now)
            (λ e. (e ≡ LineFault.NoMemory) ⊎ IsLineRefused self.old.length next.entry.line.now next.entry.after.now) }
    {
        let Some((name, value)) = parts_of_line(next.line) else {
            return Err(LineFault::BadField);
        };
        self.take_parts(alloc, name, value)?;
        Ok(next.after)
    }

    /// Takes a line without folds at whose front no `:` follows a name at once, and gives what follows it.
    #[inline(never)]
    fn take_unnamed(&mut self, alloc: Global, next: HeadLine<'a>) -> Result<&'a [u8], LineFault>
        requires no_fold { is_fold next.after.now ≡ false }
        ensures { MatchResult result (λ rest. IsLineFilled self.old next.entry.line.now next.entry.after.now self.new rest.now)
            (λ e. (e ≡ LineFault.NoMemory) ⊎ IsLineRefused self.old.length next.entry.line.now next.entry.after.now) }
    {
        let Some((name, value)) = any_parts(next.line) else {
            return Err(LineFault::BadField);
        };
        self.take_parts(alloc, name, value)?;
        Ok(next.after)
    }

    /// Takes a line, which isn't empty, with its folds, and gives what follows them.
    #[inline(never)]
    fn take_line(&mut self, alloc: Global, next: HeadLine<'a>) -> Result<&'a [u8], LineFault>
        requires text { next.is_text ≡ true → list_all is_text next.line.now ≡ true }
        ensures { MatchResult result (λ rest. IsLineFilled self.old next.entry.line.now next.entry.after.now self.new rest.now)
            (λ e. (e ≡ LineFault.NoMemory) ⊎ IsLineRefused self.old.length next.entry.line.now next.entry.after.now) }
    {
        if is_fold_line(next.after) {
            return self.take_folded(alloc, next.line, next.after);
        }
        if !next.is_text {
            return self.take_other(alloc, next);
        }
        let Some((name, value)) = plain_parts(next.line) else {
            return self.take_unnamed(alloc, next);
        };
        self.take_parts(alloc, name, value)?;
        Ok(next.after)
    }

    /// Takes a line with a name and without folds behind whose `:` no space stands alone, and gives what follows it.
    #[inline(always)]
    fn take_unusual(&mut self, alloc: Global, next: NamedLine<'a>) -> Result<&'a [u8], LineFault>
        requires no_fold { is_fold next.after.now ≡ false }
        requires named { IsNamed next.line.now next.name.now next.value.now }
        requires text { list_all is_text next.value.now ≡ true }
        ensures { MatchResult result (λ rest. IsLineFilled self.old next.entry.line.now next.entry.after.now self.new rest.now)
            (λ e. (e ≡ LineFault.NoMemory) ⊎ IsLineRefused self.old.length next.entry.line.now next.entry.after.now) }
    {
        let seen = ViewName::of_part(next.name);
        self.take_seen(alloc, seen, next.name, trimmed_slice(next.value))?;
        Ok(next.after)
    }

    /// Takes a line with a name and its folds, and gives what follows them, and whether the line stands as its field is written.
    #[inline(always)]
    fn take_named(&mut self, alloc: Global, next: NamedLine<'a>) -> Result<TakenLine<'a>, LineFault>
        requires named { IsNamed next.line.now next.name.now next.value.now }
        requires text { list_all is_text next.value.now ≡ true }
        requires whole { next.text.now ≡ next.line.now ++ 13 ∷ 10 ∷ [] }
        ensures filled { MatchResult result (λ taken. IsLineFilled self.old next.entry.line.now next.entry.after.now self.new taken.after.now)
            (λ e. (e ≡ LineFault.NoMemory) ⊎ IsLineRefused self.old.length next.entry.line.now next.entry.after.now) }
        ensures stands { IfOk result (λ taken. IsTakenAs taken.stands next.entry.text.now next.entry.after.now self.old.fields self.new.fields
            taken.after.now) }
    {
        if is_fold_line(next.after) {
            let after = self.take_folded(alloc, next.line, next.after)?;
            return Ok(TakenLine::apart(after));
        }
        let Some(value) = behind_space(next.value) else {
            let after = self.take_unusual(alloc, next)?;
            return Ok(TakenLine::apart(after));
        };
        let (name, is_full) = ViewName::of_written(next.name);
        if !is_full {
            self.take_seen(alloc, name, next.name, value)?;
            return Ok(TakenLine::apart(next.after));
        }
        if !is_one_field(&name, value) {
            self.take_parts(alloc, next.name, value)?;
            return Ok(TakenLine::apart(next.after));
        }
        let stands = self.take_field(name, value, next.text)?;
        let after = next.after;
        Ok(TakenLine { after, stands })
    }
}

/// What the lines of a head say, as a view has it, and what follows the empty line at its end (RFC 3261 7.3). It stands
/// apart, so that what is done for each line is done in registers.
#[inline(never)]
pub(crate) fn filling_of_head<'a>(
    alloc: Global,
    head: &'a [u8],
) -> Result<(Filling<'a>, &'a [u8]), ViewError<'a>>
    ensures said { Gives filled_seen result (head_said head.now) }
    ensures lines { IfOk result (λ x. AreLinesOf x.0.lines x.0.fields) }
{
    let fields = ViewFields::with_room(alloc, USUAL_FIELDS)?;
    let mut filling = Filling {
        fields,
        length: None,
        lines: None,
    };
    let mut rest = Slice { bytes: head };
    let mut run = HeadLayout::Going;
    'by_lines: loop {
        if let Some(next) = named_line(rest.bytes) {
            match filling.take_named(alloc, next) {
                Ok(taken) => {
                    let count = filling.fields.as_slice().len();
                    go_on(&mut run, taken.stands, count, rest.bytes.len());
                    rest = Slice { bytes: taken.after };
                }
                Err(fault) => return Err(refusal_of(fault, next.after)),
            }
            continue 'by_lines;
        }
        let Some(next) = head_line(rest.bytes) else {
            return Err(ViewError::new(ViewRefusal::NotSip));
        };
        if next.line.is_empty() {
            let count = filling.fields.as_slice().len();
            filling.lines = lines_in(run, count, head, rest.bytes);
            return Ok((filling, next.after));
        }
        match filling.take_line(alloc, next) {
            Ok(after) => {
                run = HeadLayout::Parted;
                rest = Slice { bytes: after };
            }
            Err(fault) => return Err(refusal_of(fault, next.after)),
        }
    }
}
