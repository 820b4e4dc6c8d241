//! A log held against the lines that records give.
ghost use Rattle.std.specs.Prelude.{◌≡◌, ◌++◌, OnOk};
ghost use Rattle.sipd_page_sections.specs.Log as Definitions;

use sip_text::{Bytes, same_bytes};
use sipd_matrix_forms::put_block;
use std::alloc::AllocError;

/// How many lines in front are the same.
#[tactic(auto, using(crate::proofs::Fronts::goes_on, crate::proofs::Fronts::stops, crate::proofs::Fronts::over))]
fn same_front(log: &[Bytes], lines: &[Bytes]) -> usize
    ensures { result ≡ Definitions.same_front log.now lines.now }
{
    let most = log.len().min(lines.len());
    for i in 0..most {
        if !same_bytes(log[i].as_slice(), lines[i].as_slice()) {
            return i;
        }
    }
    most
}

/// The line of a place.
fn line_at(lines: &[Bytes], place: usize) -> &[u8]
    ensures { result.now ≡ Definitions.line_at place lines.now }
{
    match lines.get(place) {
        Some(line) => line.as_slice(),
        None => b"(no line)",
    }
}

/// Says that all lines are the same.
fn put_same(out: &mut Bytes, count: u64) -> Result<(), AllocError>
    ensures { OnOk result (out.new ≡ out.old ++ Definitions.same_text count) }
{
    out.extend(
        b"<p class=\"allow\">The log comes out of the records again, byte for byte. Lines: ",
    )?;
    out.push_decimal(count)?;
    out.extend(b"</p>\n")
}

/// Says which is the first that isn't.
fn put_number(out: &mut Bytes, number: u64) -> Result<(), AllocError>
    ensures { OnOk result (out.new ≡ out.old ++ Definitions.number_text number) }
{
    out.extend(
        b"<p class=\"deny\">The log does not come out of the records again. The first line that differs: ",
    )?;
    out.push_decimal(number)?;
    out.extend(b"</p>\n")
}

/// Adds a line behind what it is of.
fn put_line(out: &mut Bytes, name: &[u8], line: &[u8]) -> Result<(), AllocError>
    ensures { OnOk result (out.new ≡ out.old ++ Definitions.line_text name.now line.now) }
{
    out.extend(name)?;
    put_block(out, line)
}

/// Says of a log where it differs.
fn put_other(out: &mut Bytes, number: u64, logged: &[u8], own: &[u8]) -> Result<(), AllocError>
    ensures { OnOk result (out.new ≡ out.old ++ Definitions.other_text number logged.now own.now) }
{
    put_number(out, number)?;
    put_line(out, b"<p>In the log:</p>\n", logged)?;
    put_line(out, b"<p>By the records:</p>\n", own)
}

/// Says whether so many lines in front are all.
fn put_verdict_at(
    out: &mut Bytes,
    same: usize,
    log: &[Bytes],
    lines: &[Bytes],
) -> Result<(), AllocError>
    ensures { OnOk result (out.new ≡ out.old ++ Definitions.verdict_at same log.now lines.now) }
{
    if same == log.len() && same == lines.len() {
        return put_same(out, same as u64);
    }
    let number = (same as u64).saturating_add(1);
    put_other(out, number, line_at(log, same), line_at(lines, same))
}

/// Says whether a log comes out of lines again, and where it doesn't.
pub fn put_verdict(out: &mut Bytes, log: &[Bytes], lines: &[Bytes]) -> Result<(), AllocError>
    ensures { OnOk result (out.new ≡ out.old ++ Definitions.verdict_text log.now lines.now) }
{
    put_verdict_at(out, same_front(log, lines), log, lines)
}
