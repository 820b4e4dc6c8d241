//! The table, and what programs get.
ghost use Rattle.std.specs.Prelude.{◌≡◌, ◌++◌, IfOk, OnOk};
ghost use Rattle.std.specs.List.{flat_map};
ghost use Rattle.sipd_calls.specs.Moments.{title};
ghost use Rattle.sipd_sources.specs.Program.{columns as columns_of};
ghost use Rattle.sipd_sources.specs.Table as Definitions;

use crate::cells::{push_names, push_row};
use crate::listening::Sources;
use crate::program::{columns, push_object};
use crate::ranking::ranked;
use crate::source::Source;
use sip_config_types::Config;
use sip_text::Bytes;
use sipd_calls::{Notation, push_title};
use std::alloc::{AllocError, Global};
use std::collections::BTreeMap;

/// Adds an address, in a row of the table or for programs.
fn push_source(
    alloc: Global,
    out: &mut Bytes,
    form: Option<Notation>,
    source: &Source,
) -> Result<(), AllocError>
    ensures { OnOk result (out.new ≡ out.old ++ Definitions.row_in form source.now) }
{
    match form {
        None => push_row(alloc, out, source),
        Some(notation) => push_object(alloc, out, notation, source),
    }
}

/// Adds addresses in their order.
fn push_ranked(
    alloc: Global,
    out: &mut Bytes,
    form: Option<Notation>,
    ranked: BTreeMap<u128, Source>,
) -> Result<(), AllocError>
    ensures { OnOk result (out.new ≡ out.old ++ flat_map (Definitions.entry_in form) ranked.entries) }
{
    let mut left = ranked;
    while let Some((_, source)) = left.pop_first() {
        push_source(alloc, out, form, &source)?;
    }
    Ok(())
}

/// Adds the moment that the table is of, on the office's clock.
fn push_above(out: &mut Bytes, config: &Config, at: u64) -> Result<(), AllocError>
    ensures { OnOk result (out.new ≡ out.old ++ title config.now.offset at) }
{
    push_title(out, config.offset, at)
}

/// Adds what stands above the rows.
fn push_head(
    out: &mut Bytes,
    form: Option<Notation>,
    config: &Config,
    at: u64,
) -> Result<(), AllocError>
    ensures { OnOk result (out.new ≡ out.old ++ Definitions.head_in form config.now.offset at) }
{
    match form {
        None => {
            push_above(out, config, at)?;
            push_names(out)
        }
        Some(_) => Ok(()),
    }
}

/// What a text for programs begins with: the names of the columns, in CSV.
pub fn columns_text(notation: Notation) -> &'static [u8]
    ensures { result.now ≡ columns_of notation }
{
    columns(notation)
}

/// The addresses of a day up to a moment, as a table on the office's clock, or for programs where a notation is given: the one with the most
/// wrong credentials first, and of those with as many the lower address. `AllocError` is the only refusal.
pub fn sources_text(
    alloc: Global,
    form: Option<Notation>,
    config: &Config,
    at: u64,
    sources: Sources,
) -> Result<Bytes, AllocError>
    ensures { IfOk result (λ text. text ≡ Definitions.sources_text form config.now.offset at sources) }
{
    let mut out = Bytes::new(alloc);
    push_head(&mut out, form, config, at)?;
    let rows = ranked(alloc, sources.into_rows())?;
    push_ranked(alloc, &mut out, form, rows)?;
    Ok(out)
}
