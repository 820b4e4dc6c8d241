//! The order in which addresses are shown.
ghost use Rattle.std.specs.Prelude.{◌≡◌, IfOk};
ghost use Rattle.sipd_sources.specs.Ranking as Definitions;

use crate::source::Source;
use std::alloc::{AllocError, Global};
use std::collections::BTreeMap;

/// The place of an address of a number among others: the more wrong credentials it gave, the earlier it comes.
fn rank(number: u32, source: Source) -> u128
    ensures { result ≡ Definitions.rank number source }
{
    u128::from(u64::MAX - source.wrong) * 4_294_967_296 + u128::from(number)
}

/// The addresses in the order in which they are shown.
pub(crate) fn ranked(
    alloc: Global,
    rows: BTreeMap<u32, Source>,
) -> Result<BTreeMap<u128, Source>, AllocError>
    ensures { IfOk result (λ ranked. ranked.entries ≡ Definitions.ranked_of rows.entries) }
{
    let mut left = rows;
    let mut ranked = BTreeMap::new(alloc);
    while let Some((number, source)) = left.pop_first() {
        ranked.insert(rank(number, source), source)?;
    }
    Ok(ranked)
}
