ghost use Rattle.std.specs.Prelude.{IfOk};
ghost use Rattle.sip_policy_index.specs.Index.{IsIndexOf};

use crate::places::RulePlaces;
use sip_policy::Rule;
use std::alloc::{AllocError, Global};

/// The places of rules: those of each operation pattern, and those of each operation and user pattern.
pub(crate) struct Index {
    pub(crate) by_operation: RulePlaces,
    pub(crate) by_class: RulePlaces,
}

/// Written out, so that it is proved once and not wherever an index is dropped.
impl Drop for Index {
    fn drop(self) {
        let Index {
            by_operation: _,
            by_class: _,
        } = self;
    }
}

impl Index {
    /// The index of some rules. `AllocError` is the only refusal.
    pub(crate) fn new(alloc: Global, rules: &[Rule]) -> Result<Index, AllocError>
        ensures { IfOk result (IsIndexOf rules.now) }
    {
        let by_operation = RulePlaces::by_operation(alloc, rules)?;
        let by_class = RulePlaces::by_class(alloc, rules)?;
        Ok(Index {
            by_operation,
            by_class,
        })
    }
}
