ghost use Rattle.std.specs.Prelude.{◌≡◌, ◌∷◌, [], map, IfOk};
ghost use Rattle.sip_location.specs.KeptBinding.{kept_of};

use crate::candidate_binding::CandidateBinding;
use crate::row::BindingRow;
use std::alloc::{AllocError, Global};
use std::boxed::BoxedSlice;
use std::marker::Model;

/// What is kept of the bindings of an address of record, in their order, in a list that has their number.
#[derive(Drop)]
pub(crate) struct BindingRows {
    list: BoxedSlice<BindingRow, Global>,
}

impl Model for BindingRows {
    ghost use Rattle.std.specs.Prelude.{List};
    ghost use Rattle.std.specs.Box.{boxed_slice_items};
    ghost use Rattle.sip_location.specs.KeptBinding.{KeptBinding};

    ghost Value = { List KeptBinding };

    ghost view = { λ r. boxed_slice_items r.list };
}

impl BindingRows {
    /// What is kept of some bindings.
    pub(crate) fn of(
        alloc: Global,
        bindings: &[CandidateBinding<'_>],
    ) -> Result<BindingRows, AllocError>
        ensures { IfOk result (λ rows. rows ≡ map kept_of bindings.now) }
    {
        let list = rows_of(alloc, bindings)?.into_boxed_slice();
        Ok(BindingRows { list })
    }

    /// One row alone.
    pub(crate) fn one(alloc: Global, row: BindingRow) -> Result<BindingRows, AllocError>
        ensures { IfOk result (λ rows. rows ≡ row ∷ []) }
    {
        let mut list = Vec::with_capacity(alloc, 1)?;
        list.push(row)?;
        Ok(BindingRows {
            list: list.into_boxed_slice(),
        })
    }

    pub(crate) fn as_slice(&self) -> &[BindingRow]
        ensures { result.now ≡ self.now }
    {
        self.list.as_slice()
    }
}

fn rows_of(alloc: Global, bindings: &[CandidateBinding<'_>]) -> Result<Vec<BindingRow>, AllocError>
    ensures { IfOk result (λ rows. rows.items ≡ map kept_of bindings.now) }
{
    let mut list = Vec::with_capacity(alloc, bindings.len())?;
    for binding in bindings {
        list.push(binding.row(alloc)?)?;
    }
    Ok(list)
}
