//! A row of the table, and its head.
ghost use Rattle.std.specs.Prelude.{◌≡◌, ◌-◌, ◌/◌, ◌++◌, Some, OnOk};
ghost use Rattle.sipd_calls.specs.Moments.{start_text};
ghost use Rattle.sipd_standing.specs.PhoneCells as Definitions;

use sip_days::Registered;
use sip_location::BindingRef;
use sip_text::Bytes;
use sip_uri::{Addr, addr_text};
use sipd_calls::{push_cell, push_length, push_start_at};
use sipd_report::push_user;
use std::alloc::{AllocError, Global};

/// How many whole seconds a binding still lives at a moment.
pub(crate) fn seconds_left(at: u64, binding: &BindingRef<'_>) -> u64
    ensures { result ≡ (binding.now.expires_at - at) / 1000 }
{
    binding.expires_at().saturating_sub(at) / 1000
}

/// Adds the names of the columns.
pub(crate) fn push_names(out: &mut Bytes) -> Result<(), AllocError>
    ensures { OnOk result (out.new ≡ out.old ++ Definitions.names) }
{
    out.extend(b"registered   contact                     left    since          from\n")
}

fn push_address(alloc: Global, out: &mut Bytes, row: &Registered) -> Result<(), AllocError>
    ensures { OnOk result (out.new ≡ out.old ++ Definitions.user_cell row.now) }
{
    let mut cell = Bytes::new(alloc);
    push_user(&mut cell, row.aor.user.as_slice())?;
    push_cell(out, 12, cell.as_slice())
}

fn push_left(
    alloc: Global,
    out: &mut Bytes,
    at: u64,
    binding: &BindingRef<'_>,
) -> Result<(), AllocError>
    ensures { OnOk result (out.new ≡ out.old ++ Definitions.left_cell ((binding.now.expires_at - at) / 1000)) }
{
    let seconds = seconds_left(at, binding);
    let mut cell = Bytes::new(alloc);
    push_length(&mut cell, seconds)?;
    push_cell(out, 7, cell.as_slice())
}

/// Adds the moment of an address's last REGISTER, on the clock of then.
fn push_moment(text: &mut Bytes, row: &Registered) -> Result<(), AllocError>
    ensures { OnOk result (text.new ≡ text.old ++ start_text row.now.offset row.now.at) }
{
    push_start_at(text, row.offset, row.at)
}

fn push_since(alloc: Global, out: &mut Bytes, row: &Registered) -> Result<(), AllocError>
    ensures { OnOk result (out.new ≡ out.old ++ Definitions.since_cell row.now) }
{
    let mut cell = Bytes::new(alloc);
    push_moment(&mut cell, row)?;
    push_cell(out, 14, cell.as_slice())
}

/// Adds where a REGISTER came from, where that is known, and the row's end.
fn push_place(alloc: Global, out: &mut Bytes, source: Addr) -> Result<(), AllocError>
    ensures { OnOk result (out.new ≡ out.old ++ Definitions.source_cell (Some source)) }
{
    let text = addr_text(alloc, source)?;
    out.extend(text.as_slice())?;
    out.push(b'\n')
}

fn push_source(alloc: Global, out: &mut Bytes, source: Option<Addr>) -> Result<(), AllocError>
    ensures { OnOk result (out.new ≡ out.old ++ Definitions.source_cell source) }
{
    match source {
        Some(source) => push_place(alloc, out, source),
        None => out.push(b'\n'),
    }
}

/// Adds the row of a binding.
pub(crate) fn push_row(
    alloc: Global,
    out: &mut Bytes,
    at: u64,
    row: &Registered,
    binding: &BindingRef<'_>,
) -> Result<(), AllocError>
    ensures { OnOk result (out.new ≡ out.old ++ Definitions.phone_row at row.now binding.now) }
{
    push_address(alloc, out, row)?;
    push_cell(out, 27, binding.uri_text())?;
    push_left(alloc, out, at, binding)?;
    push_since(alloc, out, row)?;
    push_source(alloc, out, row.source)
}
