//! A row of the table, and its head.
ghost use Rattle.std.specs.Prelude.{◌≡◌, ◌++◌, OnOk};
ghost use Rattle.sipd_calls.specs.Moments.{start_text};
ghost use Rattle.sipd_sources.specs.Cells as Definitions;

use crate::source::{Source, SourceMoment};
use sip_text::Bytes;
use sip_uri::ip_text;
use sipd_calls::{push_cell, push_start_at};
use std::alloc::{AllocError, Global};

/// Adds the names of the columns.
pub(crate) fn push_names(out: &mut Bytes) -> Result<(), AllocError>
    ensures { OnOk result (out.new ≡ out.old ++ Definitions.names) }
{
    out.extend(b"address         heard    asked  proven wrong names first          last\n")
}

/// Adds the text of an address.
fn push_address(alloc: Global, out: &mut Bytes, ip: [u8; 4]) -> Result<(), AllocError>
    ensures { OnOk result (out.new ≡ out.old ++ Definitions.address_cell ip) }
{
    let text = ip_text(alloc, ip)?;
    push_cell(out, 15, text.as_slice())
}

/// Adds a count.
fn push_count(alloc: Global, out: &mut Bytes, width: usize, count: u64) -> Result<(), AllocError>
    ensures { OnOk result (out.new ≡ out.old ++ Definitions.count_cell width count) }
{
    let mut cell = Bytes::new(alloc);
    cell.push_decimal(count)?;
    push_cell(out, width, cell.as_slice())
}

/// Adds a moment on the clock of then.
fn push_moment(text: &mut Bytes, moment: SourceMoment) -> Result<(), AllocError>
    ensures { OnOk result (text.new ≡ text.old ++ start_text moment.offset moment.at) }
{
    push_start_at(text, moment.offset, moment.at)
}

/// Adds when the first datagram came.
fn push_first(alloc: Global, out: &mut Bytes, moment: SourceMoment) -> Result<(), AllocError>
    ensures { OnOk result (out.new ≡ out.old ++ Definitions.first_cell moment) }
{
    let mut cell = Bytes::new(alloc);
    push_moment(&mut cell, moment)?;
    push_cell(out, 14, cell.as_slice())
}

/// Adds when the last one came, and the row's end.
fn push_last(out: &mut Bytes, moment: SourceMoment) -> Result<(), AllocError>
    ensures { OnOk result (out.new ≡ out.old ++ Definitions.last_cell moment) }
{
    push_moment(out, moment)?;
    out.push(b'\n')
}

/// Adds the address, how many datagrams came from there, and how many of these were asked for a credential.
fn push_heard(alloc: Global, out: &mut Bytes, source: &Source) -> Result<(), AllocError>
    ensures { OnOk result (out.new ≡ out.old ++ Definitions.heard_cells source.now) }
{
    push_address(alloc, out, source.ip)?;
    push_count(alloc, out, 8, source.heard)?;
    push_count(alloc, out, 6, source.challenged)
}

/// Adds how many were proven, gave a wrong credential, and how many names they tried.
fn push_proven(alloc: Global, out: &mut Bytes, source: &Source) -> Result<(), AllocError>
    ensures { OnOk result (out.new ≡ out.old ++ Definitions.proven_cells source.now) }
{
    push_count(alloc, out, 6, source.proven)?;
    push_count(alloc, out, 5, source.wrong)?;
    push_count(alloc, out, 5, source.names)
}

/// Adds the row of an address.
pub(crate) fn push_row(alloc: Global, out: &mut Bytes, source: &Source) -> Result<(), AllocError>
    ensures { OnOk result (out.new ≡ out.old ++ Definitions.source_row source.now) }
{
    push_heard(alloc, out, source)?;
    push_proven(alloc, out, source)?;
    push_first(alloc, out, source.first)?;
    push_last(out, source.last)
}
