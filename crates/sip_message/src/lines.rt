//! The lines of a head: cut at their CRLF, empty ones at the front passed over (RFC 3261 7.5), and joined with their folds (7.3.1).
//! What a line says is read in `entries`.
ghost use Rattle.std.specs.Prelude.{◌≡◌, ◌+◌, ◌<◌, ◌∷◌, ◌++◌, [], length, IfOk, IfSome, MatchOption, option_map, take, slice_index, true, false, Some};
ghost use Rattle.sip_text.specs.Words.{is_token_byte};
ghost use Rattle.sip_message_fields.specs.Slice.{IsCutFrom};
ghost use Rattle.std.specs.List.{list_all};
ghost use Rattle.sip_text_runs.specs.TextRun.{is_text};
ghost use Rattle.sip_message.specs.HeadContent.{IsWhole};
ghost use Rattle.sip_message.specs.Named.{IsNamed};
ghost use Rattle.sip_message.specs.Lines.{after_blanks, line_at, is_fold, head_at};

use crate::line::WholeLine;
use sip_message_fields::{slice_before, slice_from};
use sip_text::is_space_or_tab;
use sip_text_runs::{find_crlf, name_end, name_length, text_length};
use std::alloc::{AllocError, Global};

/// A slice with its place: of a variable that is a reference, an invariant sees what it points to, and not where
/// that stands.
#[derive(Clone, Copy)]
pub(crate) struct Slice<'a> {
    pub bytes: &'a [u8],
}

/// A line of a head, what follows its CRLF, and whether it was seen that each byte of it may stand in a value.
#[derive(Clone, Copy)]
pub(crate) struct HeadLine<'a> {
    pub line: &'a [u8],
    pub after: &'a [u8],
    pub is_text: bool,
}

/// A line of a head at whose front a `:` follows a name at once, and each byte behind it may stand in a value: the name,
/// what stands behind the `:`, the line with its CRLF, and what follows that.
#[derive(Clone, Copy)]
pub(crate) struct NamedLine<'a> {
    pub line: &'a [u8],
    pub name: &'a [u8],
    pub value: &'a [u8],
    pub text: &'a [u8],
    pub after: &'a [u8],
}

/// What follows a CRLF at the front.
fn after_crlf(bytes: &[u8]) -> Option<&[u8]>
    ensures rest { MatchOption result (after_blanks bytes.now ≡ bytes.now)
        (λ rest. (after_blanks bytes.now ≡ after_blanks rest.now) × (length rest.now < length bytes.now)) }
    ensures cut { IfSome result (λ rest. IsCutFrom bytes.entry rest) }
{
    let (first, rest) = bytes.split_first()?;
    let (second, _) = rest.split_first()?;
    if *first == b'\r' && *second == b'\n' {
        Some(slice_from(bytes, 2))
    } else {
        None
    }
}

/// What follows the empty lines at the front.
pub(crate) fn without_blank_lines(bytes: &[u8]) -> &[u8]
    ensures rest { result.now ≡ after_blanks bytes.now }
    ensures cut { IsCutFrom bytes.entry result }
{
    let mut rest = Slice { bytes };
    while let Some(after) = after_crlf(rest.bytes) {
        rest = Slice { bytes: after };
    }
    rest.bytes
}

/// The first line, and what follows its CRLF.
pub(crate) fn first_line(bytes: &[u8]) -> Option<(&[u8], &[u8])>
    ensures line { option_map (λ x. (x.0.now, x.1.now)) result ≡ line_at bytes.now }
    ensures cut { IfSome result (λ x. IsCutFrom bytes.entry x.0 × IsCutFrom bytes.entry x.1) }
{
    let at = find_crlf(bytes)?;
    Some((slice_before(bytes, at), slice_from(bytes, at + 2)))
}

/// The first line, and what follows its CRLF, where each byte of it may stand in a value and none is a tab, as of most
/// lines. None says nothing.
#[inline(always)]
fn text_line(bytes: &[u8]) -> Option<(&[u8], &[u8])>
    ensures line { IfSome result (λ x. Some (x.0.now, x.1.now) ≡ line_at bytes.now) }
    ensures text { IfSome result (λ x. list_all is_text x.0.now ≡ true) }
    ensures whole { IfSome result (λ x. bytes.now ≡ x.0.now ++ 13 ∷ 10 ∷ x.1.now) }
{
    let end = text_length(bytes);
    if bytes.len() - end < 2 {
        return None;
    }
    if bytes[end] != b'\r' {
        return None;
    }
    if bytes[end + 1] != b'\n' {
        return None;
    }
    Some((slice_before(bytes, end), slice_from(bytes, end + 2)))
}

/// Where a `:` stands right behind a name at the front that is longer than most, or has other bytes than letters and dashes. It stands
/// apart, so that it takes no register where most names are read.
#[inline(never)]
fn longer_name_end(bytes: &[u8]) -> Option<usize>
    ensures within { IfSome result (λ at. (0 < at) × (at < length bytes.now)) }
    ensures token { IfSome result (λ at. list_all is_token_byte (take at bytes.now) ≡ true) }
    ensures mark { IfSome result (λ at. slice_index bytes.now at ≡ 58) }
{
    let at = name_length(bytes);
    if at == 0 {
        return None;
    }
    if at >= bytes.len() {
        return None;
    }
    if bytes[at] != b':' {
        return None;
    }
    Some(at)
}

/// Where a `:` stands right behind a name at the front.
#[inline(always)]
fn field_name_end(bytes: &[u8]) -> Option<usize>
    ensures within { IfSome result (λ at. (0 < at) × (at < length bytes.now)) }
    ensures token { IfSome result (λ at. list_all is_token_byte (take at bytes.now) ≡ true) }
    ensures mark { IfSome result (λ at. slice_index bytes.now at ≡ 58) }
{
    match name_end(bytes, b':') {
        Some(at) => Some(at),
        None => longer_name_end(bytes),
    }
}

/// The first line of a head where it has a name, and each byte of it may stand in a value, as of most. None says nothing.
#[inline(always)]
#[tactic(auto, using(crate::proofs::NamedLines::named_line))]
pub(crate) fn named_line(bytes: &[u8]) -> Option<NamedLine<'_>>
    ensures line { IfSome result (λ x. Some (x.line.now, x.after.now) ≡ line_at bytes.now) }
    ensures named { IfSome result (λ x. IsNamed x.line.now x.name.now x.value.now) }
    ensures text { IfSome result (λ x. list_all is_text x.value.now ≡ true) }
    ensures whole { IfSome result (λ x. x.text.now ≡ x.line.now ++ 13 ∷ 10 ∷ []) }
{
    let at = field_name_end(bytes)?;
    let (value, after) = text_line(slice_from(bytes, at + 1))?;
    Some(NamedLine {
        line: slice_before(bytes, at + 1 + value.len()),
        name: slice_before(bytes, at),
        value,
        text: slice_before(bytes, at + 3 + value.len()),
        after,
    })
}

/// The first line of a head, and what follows its CRLF, where no name with a `:` at once behind it begins it: of one that
/// it begins, each byte was looked at before. None says nothing.
#[inline]
fn other_text_line(bytes: &[u8]) -> Option<(&[u8], &[u8])>
    ensures line { IfSome result (λ x. Some (x.0.now, x.1.now) ≡ line_at bytes.now) }
    ensures text { IfSome result (λ x. list_all is_text x.0.now ≡ true) }
{
    if name_end(bytes, b':').is_some() {
        return None;
    }
    text_line(bytes)
}

/// The first line of a head, and what follows its CRLF.
#[inline]
pub(crate) fn head_line(bytes: &[u8]) -> Option<HeadLine<'_>>
    ensures line { option_map (λ x. (x.line.now, x.after.now)) result ≡ line_at bytes.now }
    ensures text { IfSome result (λ x. x.is_text ≡ true → list_all is_text x.line.now ≡ true) }
{
    if let Some((line, after)) = other_text_line(bytes) {
        return Some(HeadLine {
            line,
            after,
            is_text: true,
        });
    }
    let (line, after) = first_line(bytes)?;
    Some(HeadLine {
        line,
        after,
        is_text: false,
    })
}

/// Whether a line goes on with the line before it.
#[inline]
#[tactic(auto, using(crate::proofs::Spaced::empty_fold, crate::proofs::Spaced::first_fold))]
pub(crate) fn is_fold_line(line: &[u8]) -> bool
    ensures { result ≡ is_fold line.now }
{
    if line.is_empty() {
        return false;
    }
    is_space_or_tab(line[0])
}

/// A line with its folds, and what follows them.
pub(crate) fn whole_line<'a>(
    alloc: Global,
    line: &'a [u8],
    after: &'a [u8],
) -> Result<(WholeLine<'a>, &'a [u8]), AllocError>
    ensures { IfOk result (λ x. IsWhole line.entry after.entry x.0 x.1) }
{
    let mut whole = WholeLine::Part(line);
    let mut rest = Slice { bytes: after };
    while is_fold_line(rest.bytes) {
        let Some((fold, next)) = first_line(rest.bytes) else {
            return Ok((whole, rest.bytes));
        };
        whole = whole.with_fold(alloc, fold)?;
        rest = Slice { bytes: next };
    }
    Ok((whole, rest.bytes))
}

/// Whether there is an empty line, which ends a head.
pub(crate) fn has_end(bytes: &[u8]) -> bool
    ensures { MatchOption (head_at bytes.now) (result ≡ false) (λ _. result ≡ true) }
{
    let mut rest = Slice { bytes };
    while let Some((line, after)) = first_line(rest.bytes) {
        if line.is_empty() {
            return true;
        }
        rest = Slice { bytes: after };
    }
    false
}
