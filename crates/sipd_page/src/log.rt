//! The lines of a log.
ghost use Rattle.std.specs.Prelude.{◌≡◌, IfOk, OnOk};
ghost use Rattle.sipd_page_sections.specs.Log as Definitions;

use sip_text::{Bytes, Items};
use std::alloc::{AllocError, Global};
use std::mem::replace;

/// Whether it is a line that the server writes on standard error, which a log may hold, too.
fn is_own(line: &[u8]) -> bool
    ensures { result ≡ Definitions.is_own line.now }
{
    line.starts_with(b"sipd: ")
}

/// Keeps a line, unless it is such a one.
fn keep_line(lines: &mut Items<Bytes>, line: Bytes) -> Result<(), AllocError>
    ensures { OnOk result (lines.new ≡ Definitions.with_line lines.old line) }
{
    let own = is_own(line.as_slice());
    if own {
        return Ok(());
    }
    lines.push(line)
}

/// Keeps what stands behind the last LF, if something does.
fn keep_last(lines: &mut Items<Bytes>, line: Bytes) -> Result<(), AllocError>
    ensures { OnOk result (lines.new ≡ Definitions.with_last lines.old line) }
{
    let size = line.as_slice().len();
    if size == 0 {
        return Ok(());
    }
    keep_line(lines, line)
}

/// Takes one byte more: LF ends a line.
fn take_byte(
    alloc: Global,
    lines: &mut Items<Bytes>,
    line: &mut Bytes,
    byte: u8,
) -> Result<(), AllocError>
    ensures lines { OnOk result (lines.new ≡ Definitions.lines_with byte lines.old line.old) }
    ensures line { OnOk result (line.new ≡ Definitions.line_with byte line.old) }
{
    if byte == b'\n' {
        let ended = replace(line, Bytes::new(alloc));
        return keep_line(lines, ended);
    }
    line.push(byte)
}

/// The lines of a log, but for those that the server writes on standard error.
#[tactic(auto, using(std::proofs::lemmas::List::at_drop_more, std::proofs::lemmas::List::drop_all))]
pub(crate) fn log_lines(alloc: Global, log: &[u8]) -> Result<Items<Bytes>, AllocError>
    ensures { IfOk result (λ lines. lines ≡ Definitions.log_lines log.now) }
{
    let mut lines = Items::new(alloc);
    let mut line = Bytes::new(alloc);
    for byte in log {
        take_byte(alloc, &mut lines, &mut line, *byte)?;
    }
    keep_last(&mut lines, line)?;
    Ok(lines)
}
