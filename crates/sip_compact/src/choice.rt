//! What a shorter record has, in its order.
ghost use Rattle.std.specs.Prelude.{◌≡◌, ◌++◌, ◌∷◌, [], IfOk, OnOk};
ghost use Rattle.sip_compact.specs.Parts.{lines_in, places_of, IsPart};

use crate::marks::is_marked;
use crate::row::{Place, Row};
use sip_text::Items;
use std::alloc::{AllocError, Global};

/// What a shorter record has next.
#[derive(Clone, Copy)]
pub enum ShorterItem {
    /// The event whose text stands there.
    Line(Place),
    /// Nothing of so many datagrams, at least one, which take their numbers.
    Omitted(u64),
}

/// A shorter record.
pub struct Chosen {
    /// The number of its first datagram.
    pub first: u64,
    pub choices: Items<ShorterItem>,
}

/// Written out, so that it is proved once and not wherever one is dropped.
impl Drop for Chosen {
    fn drop(self) {
        let Chosen {
            first: _,
            choices: _,
        } = self;
    }
}

impl Chosen {
    /// The choices.
    pub fn into_choices(self) -> Items<ShorterItem> {
        let Chosen { first: _, choices } = self;
        choices
    }
}

/// The number of the first marked datagram, or the number of the next one.
fn first_marked(rows: &[Row], marks: &[bool], next: u64) -> u64 {
    for (at, row) in rows.iter().enumerate() {
        if row.is_datagram() && is_marked(marks, at) {
            return row.number;
        }
    }
    next
}

/// Adds that the datagrams from a number up to another are left out, if there are any.
fn push_gap(choices: &mut Items<ShorterItem>, from: u64, to: u64) -> Result<(), AllocError>
    ensures { OnOk result (lines_in choices.new ≡ lines_in choices.old) }
{
    if from < to {
        choices.push(ShorterItem::Omitted(to - from))?;
    }
    Ok(())
}

/// Adds an event, behind the datagrams that are left out before it; and the number of the datagram behind it.
#[tactic(auto, using(crate::proofs::Parting::lines_push, crate::proofs::Parting::lines_gap))]
fn push_row(choices: &mut Items<ShorterItem>, row: &Row, from: u64) -> Result<u64, AllocError>
    ensures { OnOk result (lines_in choices.new ≡ lines_in choices.old ++ row.now.place ∷ []) }
{
    let mut next = from;
    if row.is_datagram() {
        push_gap(choices, from, row.number)?;
        next = row.number.saturating_add(1);
    }
    choices.push(ShorterItem::Line(row.place()))?;
    Ok(next)
}

/// The marked ones of some events, and what is left out between them, of a record whose next datagram has this number.
#[tactic(auto, using(crate::proofs::Parting::lines_kept, crate::proofs::Parting::whole_there))]
pub(crate) fn choices_of(
    alloc: Global,
    rows: &[Row],
    marks: &[bool],
    next: u64,
) -> Result<Chosen, AllocError>
    ensures { IfOk result (λ chosen. IsPart (lines_in chosen.choices) (places_of rows.now)) }
{
    let first = first_marked(rows, marks, next);
    let mut choices = Items::new(alloc);
    let mut from = first;
    for at in 0..rows.len() {
        if is_marked(marks, at) {
            from = push_row(&mut choices, &rows[at], from)?;
        }
    }
    push_gap(&mut choices, from, next)?;
    Ok(Chosen { first, choices })
}
