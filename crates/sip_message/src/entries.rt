//! The field that one line of a head writes: its name, and its value without the blanks round it (RFC 3261 7.3.1).
//! No byte is copied but of a value with folds. What becomes of a field is said in `content` and `filling`.
ghost use Rattle.std.specs.Prelude.{◌≡◌, ◌∷◌, true, length, take, option_map, IfOk, IfSome, MatchResult, Some};
ghost use Rattle.std.specs.List.{list_all};
ghost use Rattle.sip_text.specs.Lists.{trimmed, end_trimmed};
ghost use Rattle.sip_text.specs.Words.{is_token_text};
ghost use Rattle.sip_text.specs.Splits.{split_at_byte};
ghost use Rattle.sip_message_fields.specs.declared.piece.ViewPiece.TheVariants.{Part, Joined};
ghost use Rattle.sip_message_fields.specs.Slice.{IsCutFrom, IsPieceCutFrom};
ghost use Rattle.sip_message.specs.HeadContent.{IsFault};
ghost use Rattle.sip_text_runs.specs.TextRun.{is_text};
ghost use Rattle.sip_message.specs.Field.{field_from, field_of};
ghost use Rattle.sip_message.specs.Line.{line_piece, line_bytes};
ghost use Rattle.sip_message.specs.Named.{IsNamed};
ghost use Rattle.sip_message.specs.Parts.{field_seen};
ghost use Rattle.sip_message.specs.Seen.{seen_field};

use crate::joined_line::JoinedLine;
use crate::line::WholeLine;
use crate::line_fault::LineFault;
use crate::part_field::PartField;
use httparse::is_header_value;
use sip_message_fields::{ViewName, ViewPiece, slice_before, slice_from};
use sip_text::{Buffer, is_token, split_once, without_end_blanks, without_front_blanks};
use sip_text_runs::name_length;
use std::alloc::{AllocError, Global};

/// Whether bytes may be a value: those that may stand in one of HTTP are the same, so that `httparse` looks at sixteen
/// at a time.
#[tactic(auto, using(crate::proofs::TextBytes::same_values))]
fn is_text_value(bytes: &[u8]) -> bool
    ensures { result ≡ list_all is_text bytes.now }
{
    is_header_value(bytes)
}

/// What stands before the first of a byte, and what follows it, where they stand.
fn halves(bytes: &[u8], mark: u8) -> Option<(&[u8], &[u8])>
    ensures halves { option_map (λ x. (x.0.now, x.1.now)) result ≡ split_at_byte mark bytes.now }
    ensures cut { IfSome result (λ x. IsCutFrom bytes.entry x.0 × IsCutFrom bytes.entry x.1) }
{
    let (front, _) = split_once(bytes, mark)?;
    let at = front.len();
    Some((slice_before(bytes, at), slice_from(bytes, at + 1)))
}

/// What stands behind a space at the front, where no other blank stands at either end, as of most values.
#[inline]
#[tactic(auto, using(crate::proofs::Spaced::spaced, crate::proofs::Spaced::one_space))]
pub(crate) fn behind_space(bytes: &[u8]) -> Option<&[u8]>
    ensures value { IfSome result (λ x. x.now ≡ trimmed bytes.now) }
    ensures space { IfSome result (λ x. bytes.now ≡ 32 ∷ x.now) }
    ensures cut { IfSome result (λ x. IsCutFrom bytes.entry x) }
{
    let length = bytes.len();
    if length < 2 {
        return None;
    }
    if bytes[0] != b' ' {
        return None;
    }
    if bytes[1] <= b' ' {
        return None;
    }
    if bytes[length - 1] <= b' ' {
        return None;
    }
    Some(slice_from(bytes, 1))
}

/// Bytes without the spaces and tabs at both ends, where they stand.
#[inline]
pub(crate) fn trimmed_slice(bytes: &[u8]) -> &[u8]
    ensures value { result.now ≡ trimmed bytes.now }
    ensures cut { IsCutFrom bytes.entry result }
{
    if let Some(value) = behind_space(bytes) {
        return value;
    }
    let start = bytes.len() - without_front_blanks(bytes).len();
    let end = without_end_blanks(bytes).len();
    slice_before(slice_from(bytes, start), end.saturating_sub(start))
}

/// The written name and the value of the field of what stands before its `:` and behind it.
fn field_from_parts<'a>(front: &'a [u8], value: &'a [u8]) -> Option<(&'a [u8], &'a [u8])>
    ensures field { option_map (λ x. seen_field x.0.now x.1.now) result ≡ field_from front.now value.now }
    ensures name { IfSome result (λ x. (is_token_text x.0.now ≡ true) × (x.0.now ≡ end_trimmed front.now)) }
    ensures cut { IfSome result (λ x. IsCutFrom value.entry x.1) }
{
    let name = without_end_blanks(front);
    if !is_token(name) {
        return None;
    }
    if !is_text_value(value) {
        return None;
    }
    Some((name, trimmed_slice(value)))
}

/// The name at the front of a line that a `:` follows at once, as in most, and what stands behind it. None says nothing.
#[inline]
#[tactic(auto, using(crate::proofs::Names::named))]
fn plain_halves(line: &[u8]) -> Option<(&[u8], &[u8])>
    ensures halves { IfSome result (λ x. IsNamed line.now x.0.now x.1.now) }
    ensures cut { IfSome result (λ x. IsCutFrom line.entry x.1) }
{
    let at = name_length(line);
    if at == 0 {
        return None;
    }
    if at >= line.len() {
        return None;
    }
    if line[at] != b':' {
        return None;
    }
    Some((slice_before(line, at), slice_from(line, at + 1)))
}

/// The written name and the value of the field that a line of any form writes.
pub(crate) fn any_parts(line: &[u8]) -> Option<(&[u8], &[u8])>
    ensures field { option_map (λ x. seen_field x.0.now x.1.now) result ≡ field_of line.now }
    ensures name { IfSome result (λ x. (is_token_text x.0.now ≡ true) × (take (length x.0.now) line.now ≡ x.0.now)) }
    ensures cut { IfSome result (λ x. IsCutFrom line.entry x.1) }
{
    let (front, value) = halves(line, b':')?;
    field_from_parts(front, value)
}

/// The written name and the value of the field that a line writes.
pub(crate) fn parts_of_line(line: &[u8]) -> Option<(&[u8], &[u8])>
    ensures field { option_map (λ x. seen_field x.0.now x.1.now) result ≡ field_of line.now }
    ensures name { IfSome result (λ x. (is_token_text x.0.now ≡ true) × (take (length x.0.now) line.now ≡ x.0.now)) }
    ensures cut { IfSome result (λ x. IsCutFrom line.entry x.1) }
{
    let Some((name, value)) = plain_halves(line) else {
        return any_parts(line);
    };
    if !is_text_value(value) {
        return None;
    }
    Some((name, trimmed_slice(value)))
}

/// The written name and the value of the field that a line writes, where each byte of it may stand in a value and a `:`
/// follows the name at once, as in most. None says nothing.
#[inline]
pub(crate) fn plain_parts(line: &[u8]) -> Option<(&[u8], &[u8])>
    requires text { list_all is_text line.now ≡ true }
    ensures { IfSome result (λ x. Some (seen_field x.0.now x.1.now) ≡ field_of line.now) }
{
    let Some((name, value)) = plain_halves(line) else {
        return None;
    };
    Some((name, trimmed_slice(value)))
}

/// The field with this name and this value, which is copied.
fn copied<'a>(alloc: Global, name: &'a [u8], value: &[u8]) -> Result<PartField<'a>, AllocError>
    ensures field { IfOk result (λ field. field_seen field ≡ seen_field name.now value.now) }
    ensures joined { IfOk result (λ field. IsPieceCutFrom (Joined value.now) field.value) }
{
    let value = ViewPiece::Joined(Buffer::copy(alloc, value)?);
    Ok(PartField {
        name: ViewName::of_part(name),
        value,
    })
}

/// The field that a line without folds writes. No byte is copied.
fn field_of_part<'a>(line: &'a [u8]) -> Option<PartField<'a>>
    ensures field { option_map field_seen result ≡ field_of line.now }
    ensures cut { IfSome result (λ field. IsPieceCutFrom (Part line.entry) field.value) }
{
    let (name, value) = parts_of_line(line)?;
    Some(PartField {
        name: ViewName::of_part(name),
        value: ViewPiece::Part(value),
    })
}

/// The field that a line with folds writes: of its value alone, bytes are copied.
fn field_of_joined<'a>(alloc: Global, line: &JoinedLine<'a>) -> Result<PartField<'a>, LineFault>
    ensures field { MatchResult result (λ field. field_of line.now.bytes.items ≡ Some (field_seen field))
        (λ e. IsFault e (field_of line.now.bytes.items)) }
    ensures joined { IfOk result (λ field. IsPieceCutFrom (Joined line.now.bytes.items) field.value) }
{
    match parts_of_line(line.as_slice()) {
        Some((name, value)) => Ok(copied(alloc, line.front(name), value)?),
        None => Err(LineFault::BadField),
    }
}

/// The field that a line writes.
pub(crate) fn field_of_line<'a>(
    alloc: Global,
    line: &WholeLine<'a>,
) -> Result<PartField<'a>, LineFault>
    ensures field { MatchResult result (λ field. field_of (line_bytes line.now) ≡ Some (field_seen field))
        (λ e. IsFault e (field_of (line_bytes line.now))) }
    ensures cut { IfOk result (λ field. IsPieceCutFrom (line_piece line.now) field.value) }
{
    match line {
        WholeLine::Part(part) => field_of_part(part).ok_or(LineFault::BadField),
        WholeLine::Unfolded(joined) => field_of_joined(alloc, joined),
    }
}
