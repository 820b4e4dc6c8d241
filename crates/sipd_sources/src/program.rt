//! An address for programs: a line of CSV or an object of JSON, or a row of HTML for a page.
ghost use Rattle.std.specs.Prelude.{◌≡◌, ◌++◌, OnOk};
ghost use Rattle.sipd_calls.specs.Moments.{iso_text};
ghost use Rattle.sipd_sources.specs.Program as Definitions;

use crate::source::{Source, SourceMoment};
use sip_text::Bytes;
use sip_uri::ip_text;
use sipd_calls::{Notation, Value, push_end, push_first, push_further, push_iso_at};
use std::alloc::{AllocError, Global};

/// The names of the columns, in CSV and in HTML.
pub(crate) fn columns(notation: Notation) -> &'static [u8]
    ensures { result.now ≡ Definitions.columns notation }
{
    match notation {
        Notation::Csv => b"address,heard,asked,proven,wrong,names,first,last\r\n",
        Notation::Json => b"",
        Notation::Html =>
            b"<tr><th>address</th><th>heard</th><th>asked</th><th>proven</th><th>wrong</th><th>names</th><th>first</th><th>last</th></tr>\n",
    }
}

/// Adds the text of an address.
fn push_address(
    alloc: Global,
    out: &mut Bytes,
    notation: Notation,
    ip: [u8; 4],
) -> Result<(), AllocError>
    ensures { OnOk result (out.new ≡ out.old ++ Definitions.address_member notation ip) }
{
    let text = ip_text(alloc, ip)?;
    push_first(out, notation, b"address", &Value::Words(text.as_slice()))
}

/// Adds a moment on the clock of then.
fn push_iso(text: &mut Bytes, moment: SourceMoment) -> Result<(), AllocError>
    ensures { OnOk result (text.new ≡ text.old ++ iso_text moment.offset moment.at) }
{
    push_iso_at(text, moment.offset, moment.at)
}

/// The same, as a member.
fn push_moment(
    alloc: Global,
    out: &mut Bytes,
    notation: Notation,
    name: &[u8],
    moment: SourceMoment,
) -> Result<(), AllocError>
    ensures { OnOk result (out.new ≡ out.old ++ Definitions.moment_member notation name.now moment) }
{
    let mut text = Bytes::new(alloc);
    push_iso(&mut text, moment)?;
    push_further(out, notation, name, &Value::Words(text.as_slice()))
}

/// Adds the address, how many datagrams came from there, and how many of these were asked for a credential.
fn push_heard(
    alloc: Global,
    out: &mut Bytes,
    notation: Notation,
    source: &Source,
) -> Result<(), AllocError>
    ensures { OnOk result (out.new ≡ out.old ++ Definitions.heard_text notation source.now) }
{
    push_address(alloc, out, notation, source.ip)?;
    push_further(out, notation, b"heard", &Value::Number(source.heard))?;
    push_further(out, notation, b"asked", &Value::Number(source.challenged))
}

/// Adds how many were proven, gave a wrong credential, and how many names they tried.
fn push_proven(out: &mut Bytes, notation: Notation, source: &Source) -> Result<(), AllocError>
    ensures { OnOk result (out.new ≡ out.old ++ Definitions.proven_text notation source.now) }
{
    push_further(out, notation, b"proven", &Value::Number(source.proven))?;
    push_further(out, notation, b"wrong", &Value::Number(source.wrong))?;
    push_further(out, notation, b"names", &Value::Number(source.names))
}

/// Adds when the first and the last came, and the end.
fn push_times(
    alloc: Global,
    out: &mut Bytes,
    notation: Notation,
    source: &Source,
) -> Result<(), AllocError>
    ensures { OnOk result (out.new ≡ out.old ++ Definitions.times_text notation source.now) }
{
    push_moment(alloc, out, notation, b"first", source.first)?;
    push_moment(alloc, out, notation, b"last", source.last)?;
    push_end(out, notation)
}

/// Adds an address.
pub(crate) fn push_object(
    alloc: Global,
    out: &mut Bytes,
    notation: Notation,
    source: &Source,
) -> Result<(), AllocError>
    ensures { OnOk result (out.new ≡ out.old ++ Definitions.source_text notation source.now) }
{
    push_heard(alloc, out, notation, source)?;
    push_proven(out, notation, source)?;
    push_times(alloc, out, notation, source)
}
