//! The events that may be chosen, in the order in which they were told.
ghost use Rattle.std.specs.Prelude.{◌≡◌, ◌++◌, ◌∷◌, [], IfOk, OnOk, OnErr};
ghost use Rattle.sip_compact.specs.Parts.{place_of, places_of, IsPart};

use crate::marks::is_marked;
use crate::row::Row;
use std::alloc::{AllocError, Global};
use std::marker::Model;

/// These events, seen as the places of their texts.
#[derive(Drop)]
pub(crate) struct Rows {
    list: Vec<Row>,
}

impl Model for Rows {
    ghost use Rattle.std.specs.Prelude.{List};
    ghost use Rattle.sip_compact.specs.declared.row.Place.{Place};

    ghost Value = { List Place };

    ghost use Rattle.sip_compact.specs.Parts.{places_of};

    ghost view = { λ r. places_of r.list.items };
}

/// The marked ones of some events.
#[tactic(auto, using(crate::proofs::Parting::whole_there))]
fn kept_rows(alloc: Global, rows: &[Row], marks: &[bool]) -> Result<Vec<Row>, AllocError>
    ensures { IfOk result (λ kept. IsPart (places_of kept.items) (places_of rows.now)) }
{
    let mut kept = Vec::new(alloc);
    for at in 0..rows.len() {
        if is_marked(marks, at) {
            kept.push(rows[at])?;
        }
    }
    Ok(kept)
}

impl Rows {
    /// None yet. Takes no memory.
    pub(crate) fn new(alloc: Global) -> Self
        ensures { result ≡ [] }
    {
        Rows {
            list: Vec::new(alloc),
        }
    }

    /// These events.
    pub(crate) fn as_slice(&self) -> &[Row]
        ensures { places_of result.now ≡ self.now }
    {
        self.list.as_slice()
    }

    /// How many they are.
    pub(crate) fn len(&self) -> usize {
        self.list.len()
    }

    /// Adds an event.
    #[tactic(auto, using(crate::proofs::Parting::places_push))]
    pub(crate) fn push(&mut self, row: Row) -> Result<(), AllocError>
        ensures added { OnOk result (self.new ≡ self.old ++ place_of row ∷ []) }
        ensures same { OnErr result (self.new ≡ self.old) }
    {
        self.list.push(row)?;
        Ok(())
    }

    /// Drops the last event, if it is a moment.
    #[tactic(auto, using(crate::proofs::Parting::places_pop))]
    fn drop_time(&mut self)
        ensures { IsPart self.new self.old }
    {
        let Some(last) = self.list.last() else {
            return;
        };
        if last.is_time() {
            let _ = self.list.pop();
        }
    }

    /// Adds a moment in the place of one that stands right before it.
    #[tactic(auto, using(crate::proofs::Parting::part_added, crate::proofs::Parting::part_kept))]
    pub(crate) fn push_time(&mut self, row: Row) -> Result<(), AllocError>
        ensures { IsPart self.new (self.old ++ place_of row ∷ []) }
    {
        self.drop_time();
        self.push(row)
    }

    /// Drops the events that aren't marked. Where memory runs out all stay.
    #[tactic(auto, using(crate::proofs::Parting::part_itself))]
    pub(crate) fn keep(&mut self, alloc: Global, marks: &[bool]) -> Result<(), AllocError>
        ensures { IsPart self.new self.old }
    {
        let kept = kept_rows(alloc, self.list.as_slice(), marks)?;
        self.list = kept;
        Ok(())
    }
}
