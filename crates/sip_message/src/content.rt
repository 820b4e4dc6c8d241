//! What the lines of a head say, taken one by one: its fields, and the one Content-Length (RFC 3261 7.3, 20.14), for `parts`.
//! What a view has of a head is taken in `filling`.
ghost use Rattle.std.specs.Prelude.{◌≡◌, ◌⊎◌, MatchResult, MatchOption, IfOk, Some, None};
ghost use Rattle.sip_message.specs.HeadContent.{IsFault, next_length, part_field, IsFieldTaken, IsLineTaken, IsLineRefused, IsContentOf};
ghost use Rattle.sip_message.specs.HeadContent.{content_seen, field_taken};
ghost use Rattle.sip_message.specs.Lines.{head_at};
ghost use Rattle.sip_message.specs.Parts.{field_seen};
ghost use Rattle.sip_message.specs.Reading.{Gives, head_said};
ghost use Rattle.sip_message_form.specs.declared.error.ReadError.TheVariants.{NoMemory, NotSip, BadField};

use crate::entries::{field_of_line, parts_of_line};
use crate::keeping::{keep, keep_items};
use crate::line_fault::LineFault;
use crate::lines::{Slice, first_line, has_end, is_fold_line, whole_line};
use crate::part_field::PartField;
use sip_message_fields::{ViewName, ViewPiece};
use sip_message_form::{ViewError, ViewRefusal};
use sip_text::{decimal, is_one_item};
use std::alloc::Global;

/// Room for the fields of most messages: what desk phones send has some more than twenty.
pub(crate) const USUAL_FIELDS: usize = 24;

/// The length, once one more is written behind others: a second one, and what is none below 2^64, is refused
/// (RFC 3261 20.14).
pub(crate) fn length_behind(length: Option<u64>, value: &[u8]) -> Result<u64, LineFault>
    ensures { MatchResult result (λ n. next_length length value.now ≡ Some (Some n)) (λ _. next_length length value.now ≡ None) }
{
    if length.is_some() {
        return Err(LineFault::BadField);
    }
    let Some(length) = decimal(value) else {
        return Err(LineFault::BadField);
    };
    Ok(length)
}

/// What the lines of a head say so far: the fields that are kept, and the one Content-Length (RFC 3261 20.14).
#[derive(Drop)]
pub(crate) struct Content<'a> {
    pub fields: Vec<PartField<'a>>,
    pub length: Option<u64>,
}

impl<'a> Content<'a> {
    /// Takes the value of a Content-Length behind the others.
    fn take_length(&mut self, value: &[u8]) -> Result<(), LineFault>
        ensures fields { self.new.fields ≡ self.old.fields }
        ensures length { MatchResult result (λ _. next_length self.old.length value.now ≡ Some self.new.length)
            (λ _. next_length self.old.length value.now ≡ None) }
    {
        self.length = Some(length_behind(self.length, value)?);
        Ok(())
    }

    /// Takes a field whose value stands in the datagram: it is made where it is to stay.
    #[inline]
    fn take_part(
        &mut self,
        alloc: Global,
        name: ViewName<'a>,
        value: &'a [u8],
    ) -> Result<(), LineFault>
        ensures { MatchResult result (λ _. IsFieldTaken self.old (part_field name.entry value.entry) self.new)
            (λ e. IsFault e (field_taken self.old.length (field_seen (part_field name.entry value.entry)))) }
    {
        if name.is_content_length() {
            return self.take_length(value);
        }
        let is_cut = name.is_list() && !is_one_item(value);
        let value = ViewPiece::Part(value);
        if is_cut {
            return keep_items(alloc, &mut self.fields, &PartField { name, value });
        }
        self.fields.push(PartField { name, value })?;
        Ok(())
    }

    /// Takes a field behind the others.
    fn take(&mut self, alloc: Global, field: PartField<'a>) -> Result<(), LineFault>
        ensures { MatchResult result (λ _. IsFieldTaken self.old field.entry self.new)
            (λ e. IsFault e (field_taken self.old.length (field_seen field.entry))) }
    {
        if !field.name.is_content_length() {
            return keep(alloc, &mut self.fields, field);
        }
        self.take_length(field.value.as_slice())
    }

    /// Takes a line that goes on with what follows it.
    fn take_folded(
        &mut self,
        alloc: Global,
        line: &'a [u8],
        after: &'a [u8],
    ) -> Result<&'a [u8], LineFault>
        ensures { MatchResult result (λ rest. IsLineTaken self.old line.entry after.entry self.new rest)
            (λ e. (e ≡ LineFault.NoMemory) ⊎ IsLineRefused self.old.length line.now after.now) }
    {
        let (whole, rest) = whole_line(alloc, line, after)?;
        let field = field_of_line(alloc, &whole)?;
        self.take(alloc, field)?;
        Ok(rest)
    }

    /// Takes a line, which isn't empty, with its folds, and gives what follows them.
    pub(crate) fn take_line(
        &mut self,
        alloc: Global,
        line: &'a [u8],
        after: &'a [u8],
    ) -> Result<&'a [u8], LineFault>
        ensures { MatchResult result (λ rest. IsLineTaken self.old line.entry after.entry self.new rest)
            (λ e. (e ≡ LineFault.NoMemory) ⊎ IsLineRefused self.old.length line.now after.now) }
    {
        if is_fold_line(after) {
            return self.take_folded(alloc, line, after);
        }
        let Some((name, value)) = parts_of_line(line) else {
            return Err(LineFault::BadField);
        };
        self.take_part(alloc, ViewName::of_part(name), value)?;
        Ok(after)
    }
}

/// Why a head is refused of which a line isn't taken: without an end it is no head, whatever its lines say.
pub(crate) fn refusal_of<'a>(fault: LineFault, after: &[u8]) -> ViewError<'a>
    ensures memory { fault ≡ LineFault.NoMemory → result ≡ NoMemory }
    ensures bad { fault ≡ LineFault.BadField → MatchOption (head_at after.now) (result ≡ NotSip) (λ _. result ≡ BadField) }
{
    match fault {
        LineFault::NoMemory => ViewError::new(ViewRefusal::NoMemory),
        LineFault::BadField => {
            if has_end(after) {
                ViewError::new(ViewRefusal::BadField)
            } else {
                ViewError::new(ViewRefusal::NotSip)
            }
        }
    }
}

/// What the lines of a head say, and what follows the empty line at its end (RFC 3261 7.3).
pub(crate) fn content_of_head<'a>(
    alloc: Global,
    head: &'a [u8],
) -> Result<(Content<'a>, &'a [u8]), ViewError<'a>>
    ensures said { Gives content_seen result (head_said head.now) }
    ensures cut { IfOk result (λ x. IsContentOf head.entry x.0 x.1) }
{
    let fields = Vec::with_capacity(alloc, USUAL_FIELDS)?;
    let mut content = Content {
        fields,
        length: None,
    };
    let mut rest = Slice { bytes: head };
    while let Some((line, after)) = first_line(rest.bytes) {
        if line.is_empty() {
            return Ok((content, after));
        }
        match content.take_line(alloc, line, after) {
            Ok(next) => rest = Slice { bytes: next },
            Err(fault) => return Err(refusal_of(fault, after)),
        }
    }
    Err(ViewError::new(ViewRefusal::NotSip))
}
