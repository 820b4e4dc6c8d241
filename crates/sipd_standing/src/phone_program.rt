//! Who is registered, for programs: a line of CSV or an object of JSON for a binding, or a row of HTML for a page.
ghost use Rattle.std.specs.Prelude.{◌≡◌, ◌++◌, OnOk};
ghost use Rattle.sipd_calls.specs.Moments.{iso_text};
ghost use Rattle.sipd_standing.specs.PhoneProgram as Definitions;

use crate::phone_cells::seconds_left;
use sip_days::Registered;
use sip_location::BindingRef;
use sip_text::Bytes;
use sipd_calls::{Notation, Value, push_end, push_first, push_further, push_iso_at, push_source};
use sipd_report::put_target;
use std::alloc::{AllocError, Global};

/// The names of the columns, in CSV and in HTML.
pub(crate) fn columns(notation: Notation) -> &'static [u8]
    ensures { result.now ≡ Definitions.columns notation }
{
    match notation {
        Notation::Csv => b"registered,contact,left,since,from\r\n",
        Notation::Json => b"",
        Notation::Html =>
            b"<tr><th>registered</th><th>contact</th><th>left</th><th>since</th><th>from</th></tr>\n",
    }
}

/// Adds the address of record.
fn push_address(
    alloc: Global,
    out: &mut Bytes,
    notation: Notation,
    row: &Registered,
) -> Result<(), AllocError>
    ensures { OnOk result (out.new ≡ out.old ++ Definitions.address_member notation row.now) }
{
    let mut address = Bytes::new(alloc);
    put_target(&mut address, &row.aor)?;
    push_first(
        out,
        notation,
        b"registered",
        &Value::Words(address.as_slice()),
    )
}

/// Adds the moment of its last REGISTER, on the clock of then.
fn push_moment(text: &mut Bytes, row: &Registered) -> Result<(), AllocError>
    ensures { OnOk result (text.new ≡ text.old ++ iso_text row.now.offset row.now.at) }
{
    push_iso_at(text, row.offset, row.at)
}

/// Adds when it was registered last.
fn push_since(
    alloc: Global,
    out: &mut Bytes,
    notation: Notation,
    row: &Registered,
) -> Result<(), AllocError>
    ensures { OnOk result (out.new ≡ out.old ++ Definitions.since_member notation row.now) }
{
    let mut moment = Bytes::new(alloc);
    push_moment(&mut moment, row)?;
    push_further(out, notation, b"since", &Value::Words(moment.as_slice()))
}

/// Adds whose binding it is, its contact, and how long it still lives.
fn push_front(
    alloc: Global,
    out: &mut Bytes,
    notation: Notation,
    at: u64,
    row: &Registered,
    binding: &BindingRef<'_>,
) -> Result<(), AllocError>
    ensures { OnOk result (out.new ≡ out.old ++ Definitions.front_text notation at row.now binding.now) }
{
    push_address(alloc, out, notation, row)?;
    push_further(out, notation, b"contact", &Value::Words(binding.uri_text()))?;
    push_further(
        out,
        notation,
        b"left",
        &Value::Number(seconds_left(at, binding)),
    )
}

/// Adds when its address was registered last, and from where.
fn push_back(
    alloc: Global,
    out: &mut Bytes,
    notation: Notation,
    row: &Registered,
) -> Result<(), AllocError>
    ensures { OnOk result (out.new ≡ out.old ++ Definitions.back_text notation row.now) }
{
    push_since(alloc, out, notation, row)?;
    push_source(alloc, out, notation, row.source)?;
    push_end(out, notation)
}

/// Adds a binding.
pub(crate) fn push_object(
    alloc: Global,
    out: &mut Bytes,
    notation: Notation,
    at: u64,
    row: &Registered,
    binding: &BindingRef<'_>,
) -> Result<(), AllocError>
    ensures { OnOk result (out.new ≡ out.old ++ Definitions.phone_text notation at row.now binding.now) }
{
    push_front(alloc, out, notation, at, row, binding)?;
    push_back(alloc, out, notation, row)
}
