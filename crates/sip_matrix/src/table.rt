ghost use Rattle.std.specs.Prelude.{◌≡◌, IfOk};
ghost use Rattle.sip_matrix.specs.Table as Definitions;

use crate::column::Column;
use crate::listing::{classes_among, columns_among, columns_of_all};
use crate::pieces::pieces_of;
use crate::rows::rows;
use sip_policy::{Rule, Users};
use sip_text::{Bytes, Items};
use std::alloc::{AllocError, Global};

/// The rows, the columns and the pieces of the day of a policy's table.
pub struct PolicyTable {
    /// The first user of each row; that of nobody stands before them.
    pub rows: Items<Bytes>,
    /// Each column once.
    pub columns: Items<Column>,
    /// The classes of columns about which the same is decided, each by its first.
    pub classes: Items<Column>,
    /// The first minute of each piece of the day, rising.
    pub pieces: Items<u16>,
}

/// Written out, so that it is proved once and not wherever one is dropped.
impl Drop for PolicyTable {
    fn drop(self) {
        let PolicyTable {
            rows: _,
            columns: _,
            classes: _,
            pieces: _,
        } = self;
    }
}

/// The table of these rules, users and own domains. `AllocError` is the only refusal.
pub fn table_of(
    alloc: Global,
    rules: &[Rule],
    users: &Users,
    domains: &[Bytes],
) -> Result<PolicyTable, AllocError>
    ensures { IfOk result (λ table. table ≡ Definitions.table_of rules.now users.now domains.now) }
{
    let rows = rows(alloc, rules, users)?;
    let all = columns_of_all(alloc, rules, users, domains)?;
    let columns = columns_among(alloc, all.as_slice())?;
    let classes = classes_among(alloc, rules, users, domains, all.as_slice())?;
    let pieces = pieces_of(alloc, rules)?;
    Ok(PolicyTable {
        rows,
        columns,
        classes,
        pieces,
    })
}
