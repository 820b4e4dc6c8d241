//! Lists cut at their commas (RFC 3261 7.3.1), outside quoted text and angle brackets, and the blanks round a text.
ghost use Rattle.std.specs.Prelude.{◌≡◌, ◌≤◌, length, reverse, map, take_while, IfOk, All};
ghost use Rattle.sip_text.specs.Lists.{is_blank, trimmed, front_trimmed, end_trimmed, place_after, is_cut, cut};
ghost use Rattle.sip_text.specs.Span.{part, IsWithin};
ghost use Rattle.sip_text.specs.Reading.{Reads};

use crate::error::TextError;
use crate::span::Span;
use std::alloc::Global;

/// Whether a byte is a space or a tab (RFC 3261 25.1, `WSP`).
#[inline]
pub fn is_space_or_tab(byte: u8) -> bool
    ensures { result ≡ is_blank byte }
{
    byte == b' ' || byte == b'\t'
}

fn blanks_before(bytes: &[u8]) -> usize
    ensures { result ≡ length (take_while is_blank bytes.now) }
{
    for at in 0..bytes.len() {
        if !is_space_or_tab(bytes[at]) {
            return at;
        }
    }
    bytes.len()
}

fn blanks_behind(bytes: &[u8]) -> usize
    ensures { result ≡ length (take_while is_blank (reverse bytes.now)) }
{
    let mut end = bytes.len();
    while end > 0 && is_space_or_tab(bytes[end - 1]) {
        end -= 1;
    }
    bytes.len() - end
}

/// Where a byte of a list stands: outside, in quoted text, behind a `\` in it, or between `<` and the
/// next `>`.
#[derive(Clone, Copy)]
enum ListState {
    Outside,
    Quoted,
    Escaped,
    Bracketed,
}

impl ListState {
    fn is_cut(self, byte: u8) -> bool
        ensures { result ≡ is_cut self byte }
    {
        matches!(self, ListState::Outside) && byte == b','
    }

    fn after(self, byte: u8) -> ListState
        ensures { result ≡ place_after self byte }
    {
        match (self, byte) {
            (ListState::Outside, b'"') => ListState::Quoted,
            (ListState::Outside, b'<') => ListState::Bracketed,
            (ListState::Outside, _) => ListState::Outside,
            (ListState::Quoted, b'"') => ListState::Outside,
            (ListState::Quoted, b'\\') => ListState::Escaped,
            (ListState::Quoted, _) => ListState::Quoted,
            (ListState::Escaped, _) => ListState::Quoted,
            (ListState::Bracketed, b'>') => ListState::Outside,
            (ListState::Bracketed, _) => ListState::Bracketed,
        }
    }
}

/// The part of a source from `start` up to `end`, without spaces and tabs at both ends.
fn trimmed_part(source: &[u8], start: usize, end: usize) -> Span
    requires ordered { start ≤ end }
    requires inside { end ≤ length source.now }
    ensures part { part source.now result ≡ trimmed (part source.now (record { start = start; end = end })) }
    ensures within { IsWithin result source.now }
{
    let bytes = &source[start..end];
    let before = blanks_before(bytes);
    let behind = blanks_behind(bytes);
    if before + behind < bytes.len() {
        Span {
            start: start + before,
            end: end - behind,
        }
    } else {
        Span { start, end: start }
    }
}

/// The items of a list, as the parts of the source that hold them: what stands between its commas
/// outside quoted text and angle brackets, trimmed (RFC 3261 7.3.1). Refused `Unbalanced` where a
/// quote or a bracket is left open or an item is empty, `NoMemory` where memory runs out.
///
/// `items_are_between_commas` says the same by the grammar of the list.
pub fn cut_list(alloc: Global, source: &[u8]) -> Result<Vec<Span>, TextError>
    ensures items { Reads (λ spans. map (part source.now) spans.items) TextError.Unbalanced result (cut source.now) }
    ensures within { IfOk result (λ spans. All (λ span. IsWithin span source.now) spans.items) }
{
    let mut spans = Vec::new(alloc);
    let mut place = ListState::Outside;
    let mut start = 0;
    for (at, byte) in source.iter().enumerate() {
        if place.is_cut(*byte) {
            let item = trimmed_part(source, start, at);
            if item.start == item.end {
                return Err(TextError::Unbalanced);
            }
            spans.push(item)?;
            start = at + 1;
        }
        place = place.after(*byte);
    }
    let ListState::Outside = place else {
        return Err(TextError::Unbalanced);
    };
    let item = trimmed_part(source, start, source.len());
    if item.start == item.end {
        return Err(TextError::Unbalanced);
    }
    spans.push(item)?;
    Ok(spans)
}

/// Bytes without the spaces and tabs at both ends (RFC 3261 25.1, `SWS` on one line).
pub fn without_blanks(bytes: &[u8]) -> &[u8]
    ensures { result.now ≡ trimmed bytes.now }
{
    trimmed_part(bytes, 0, bytes.len()).of(bytes)
}

/// Bytes without the spaces and tabs at the front.
pub fn without_front_blanks(bytes: &[u8]) -> &[u8]
    ensures { result.now ≡ front_trimmed bytes.now }
{
    let (_, rest) = bytes.split_at(blanks_before(bytes));
    rest
}

/// Bytes without the spaces and tabs at the end.
pub fn without_end_blanks(bytes: &[u8]) -> &[u8]
    ensures { result.now ≡ end_trimmed bytes.now }
{
    let (front, _) = bytes.split_at(bytes.len() - blanks_behind(bytes));
    front
}
