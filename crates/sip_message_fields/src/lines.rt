ghost use Rattle.std.specs.Prelude.{◌≡◌, ◌∷◌, ◌++◌, [], IfOk, IfSome, OnOk};
ghost use Rattle.sip_message_fields.specs.KeptField.{IsPut};
ghost use Rattle.sip_message_fields.specs.Lines.{IsLineAt, AreLinesAt};

use crate::kept_field::KeptField;
use crate::view_field::ViewField;
use sip_text::{Buffer, Span};
use std::alloc::{AllocError, Global};

/// Puts bytes at the end of a store, and behind them what marks their end. What stood in it stays where it is.
#[inline]
pub fn put_marked(store: &mut Buffer, more: &[u8], mark: &[u8]) -> Result<Span, AllocError>
    ensures put { IfOk result (λ span. IsPut store.old more.now store.new span) }
    ensures text { OnOk result (store.new ≡ store.old ++ more.now ++ mark.now) }
{
    let start = store.as_slice().len();
    store.extend(more)?;
    let end = store.as_slice().len();
    store.extend(mark)?;
    Ok(Span { start, end })
}

/// A field as its line stands in a text, and where the next line begins.
#[derive(Clone, Copy)]
struct FieldLine {
    kept: KeptField,
    end: usize,
}

/// The line of a field that begins at a byte of a text (RFC 3261 7.3.1); none where no text is so long.
#[inline]
fn line_at(field: &ViewField<'_>, start: usize) -> Option<FieldLine>
    ensures { IfSome result (λ line. IsLineAt start field.now line.kept line.end) }
{
    let name = field.name();
    let name_end = start.checked_add(name.spelling().len())?;
    let value_start = name_end.checked_add(b": ".len())?;
    let value_end = value_start.checked_add(field.value().as_slice().len())?;
    let end = value_end.checked_add(b"\r\n".len())?;
    let kept = KeptField {
        known: name.known(),
        spelling: Span {
            start,
            end: name_end,
        },
        value: Span {
            start: value_start,
            end: value_end,
        },
    };
    Some(FieldLine { kept, end })
}

/// Fields as their lines stand in a text, one behind the other, and where the last one ends.
#[derive(Drop)]
pub struct FieldLines {
    pub list: Vec<KeptField>,
    pub end: usize,
}

/// Adds a field behind the others, for which mostly there is room.
#[inline(always)]
fn push(list: &mut Vec<KeptField>, kept: KeptField) -> Result<(), AllocError>
    ensures { OnOk result (list.new.items ≡ list.old.items ++ kept ∷ []) }
{
    if list.len() == list.capacity() {
        list.reserve(1)?;
    }
    list.push_reserved(kept);
    Ok(())
}

/// Where the lines of fields stand in a text in which the first of them begins at a byte (RFC 3261 7.3.1). `AllocError` is
/// the only refusal.
pub fn lines_at(
    alloc: Global,
    fields: &[ViewField<'_>],
    start: usize,
) -> Result<FieldLines, AllocError>
    ensures { IfOk result (λ lines. AreLinesAt start fields.now lines.list.items lines.end) }
{
    let mut list = Vec::with_capacity(alloc, fields.len())?;
    let mut end = start;
    for field in fields {
        let Some(line) = line_at(field, end) else {
            return Err(AllocError);
        };
        push(&mut list, line.kept)?;
        end = line.end;
    }
    Ok(FieldLines { list, end })
}
