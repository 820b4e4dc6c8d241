//! What the page says of a record.
ghost use Rattle.std.specs.Prelude.{◌≡◌, ◌++◌, OnOk};
ghost use Rattle.std.specs.List.{flat_map};
ghost use Rattle.hex.specs.Hex.{encode_lower};
ghost use Rattle.sipd_page_sections.specs.Sections as Definitions;

use crate::entries::Entry;
use crate::notes::Notes;
use crate::picture::put_picture;
use crate::told::FileTold;
use hex::encode_to_slice;
use sip_text::Bytes;
use sipd_calls::{Notation, Value, names_text, push_end, push_first, push_further};
use sipd_report::put_escaped;
use sipd_sources::columns_text;
use std::alloc::AllocError;

/// Adds which record it is.
fn put_heading(out: &mut Bytes, path: &[u8]) -> Result<(), AllocError>
    ensures { OnOk result (out.new ≡ out.old ++ Definitions.heading path.now) }
{
    out.extend(b"<h2>")?;
    put_escaped(out, path)?;
    out.extend(b"</h2>\n")
}

fn put_value(out: &mut Bytes, value: &[u8]) -> Result<(), AllocError>
    ensures { OnOk result (out.new ≡ out.old ++ Definitions.value_cell value.now) }
{
    out.extend(b"</th><td><code>")?;
    put_escaped(out, value)?;
    out.extend(b"</code></td></tr>\n")
}

/// Adds what is known of it, behind its name.
fn put_fact(out: &mut Bytes, name: &[u8], value: &[u8]) -> Result<(), AllocError>
    ensures { OnOk result (out.new ≡ out.old ++ Definitions.fact name.now value.now) }
{
    out.extend(b"<tr><th>")?;
    out.extend(name)?;
    put_value(out, value)
}

/// The digits of a digest.
fn digest_text(digest: &[u8; 32]) -> [u8; 64]
    ensures { result ≡ encode_lower digest.now }
{
    let mut text = [0u8; 64];
    let done = encode_to_slice(digest.as_slice(), &mut text);
    prove!(done.is_ok());
    text
}

/// Adds a digest behind its name.
fn put_digest(out: &mut Bytes, name: &[u8], digest: &[u8; 32]) -> Result<(), AllocError>
    ensures { OnOk result (out.new ≡ out.old ++ Definitions.fact name.now (encode_lower digest.now)) }
{
    let text = digest_text(digest);
    put_fact(out, name, text.as_slice())
}

/// Adds the digest of its end.
fn put_sealed(out: &mut Bytes, sealed: Option<[u8; 32]>) -> Result<(), AllocError>
    ensures { OnOk result (out.new ≡ out.old ++ Definitions.sealed_fact sealed) }
{
    match sealed {
        Some(digest) => put_digest(out, b"SHA-256 up to its last seal", &digest),
        None => put_fact(
            out,
            b"SHA-256 up to its last seal",
            b"none: its end is not sealed",
        ),
    }
}

fn put_facts(out: &mut Bytes, digest: &[u8; 32], sealed: Option<[u8; 32]>) -> Result<(), AllocError>
    ensures { OnOk result (out.new ≡ out.old ++ Definitions.facts digest.now sealed) }
{
    out.extend(b"<table>\n")?;
    put_sealed(out, sealed)?;
    put_digest(
        out,
        b"SHA-256 of the configuration with which it begins",
        digest,
    )?;
    out.extend(b"</table>\n")
}

/// Adds rows under the names of their columns, and the end of their table.
fn put_rows(out: &mut Bytes, names: &[u8], rows: &[u8]) -> Result<(), AllocError>
    ensures { OnOk result (out.new ≡ out.old ++ (names.now ++ rows.now ++ Definitions.table_end)) }
{
    out.extend(names)?;
    out.extend(rows)?;
    out.extend(b"</table>\n")
}

/// Adds a table of rows under its name.
fn put_table(out: &mut Bytes, name: &[u8], names: &[u8], rows: &[u8]) -> Result<(), AllocError>
    ensures { OnOk result (out.new ≡ out.old ++ Definitions.table name.now names.now rows.now) }
{
    out.extend(b"<h3>")?;
    out.extend(name)?;
    out.extend(b"</h3>\n<table>\n")?;
    put_rows(out, names, rows)
}

/// Adds how many requests a rule denied.
fn put_denial(out: &mut Bytes, row: &Entry) -> Result<(), AllocError>
    ensures { OnOk result (out.new ≡ out.old ++ Definitions.denial_row row.now) }
{
    push_first(
        out,
        Notation::Html,
        b"rule",
        &Value::Words(row.key.as_slice()),
    )?;
    push_further(out, Notation::Html, b"denied", &Value::Number(row.value))?;
    push_end(out, Notation::Html)
}

fn put_denial_rows(out: &mut Bytes, rows: &[Entry]) -> Result<(), AllocError>
    ensures { OnOk result (out.new ≡ out.old ++ flat_map Definitions.denial_row rows.now) }
{
    for row in rows {
        put_denial(out, row)?;
    }
    Ok(())
}

/// Adds how many requests each rule denied.
fn put_denials(out: &mut Bytes, rows: &[Entry]) -> Result<(), AllocError>
    ensures { OnOk result (out.new ≡ out.old ++ Definitions.denials rows.now) }
{
    out.extend(
        b"<h3>Denied, by rule (0: none matched)</h3>\n<table>\n<tr><th>rule</th><th>denied</th></tr>\n",
    )?;
    put_denial_rows(out, rows)?;
    out.extend(b"</table>\n")
}

/// Adds how many addresses had a live binding, under a heading.
fn put_registrations(
    out: &mut Bytes,
    offset: i16,
    at: Option<u64>,
    live: &[u64],
) -> Result<(), AllocError>
    ensures { OnOk result (out.new ≡ out.old ++ Definitions.registrations offset at live.now) }
{
    out.extend(b"<h3>Addresses of record with a live binding</h3>\n")?;
    put_picture(out, offset, at.unwrap_or(0), live)
}

/// Adds what is kept of a record.
fn put_kept(out: &mut Bytes, offset: i16, notes: &Notes) -> Result<(), AllocError>
    ensures { OnOk result (out.new ≡ out.old ++ Definitions.kept_text offset notes.now) }
{
    put_registrations(out, offset, notes.at, notes.live.as_slice())?;
    put_denials(out, notes.denied.as_slice())
}

/// Adds the table of calls.
pub fn put_calls(out: &mut Bytes, rows: &[u8]) -> Result<(), AllocError>
    ensures { OnOk result (out.new ≡ out.old ++ Definitions.calls_table rows.now) }
{
    put_table(out, b"Calls", names_text(Notation::Html), rows)
}

/// Adds that of addresses.
fn put_sources(out: &mut Bytes, sources: &[u8]) -> Result<(), AllocError>
    ensures { OnOk result (out.new ≡ out.old ++ Definitions.sources_table sources.now) }
{
    put_table(
        out,
        b"Addresses from which datagrams came",
        columns_text(Notation::Html),
        sources,
    )
}

/// Adds all that the page says of a record.
pub fn put_section(
    out: &mut Bytes,
    path: &[u8],
    told: &FileTold,
    sources: &[u8],
    notes: &Notes,
) -> Result<(), AllocError>
    ensures { OnOk result (out.new ≡ out.old
        ++ Definitions.section_text path.now told.now.digest told.now.sealed told.now.policy told.now.offset sources.now notes.now) }
{
    put_heading(out, path)?;
    put_facts(out, &told.digest, told.sealed)?;
    put_kept(out, told.offset, notes)?;
    put_sources(out, sources)?;
    out.extend(told.policy.as_slice())
}
