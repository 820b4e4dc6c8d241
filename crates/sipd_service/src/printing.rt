ghost use Rattle.std.specs.Prelude.{◌≡◌, IfErr, IfOk, OnOk};
ghost use Rattle.std.specs.Io.KnownBytes.{Appends};
ghost use Rattle.sip_loop.specs.Printing as Lines;
ghost use Rattle.sipd_exit.specs.Exits.{IsPrintFault};
ghost use Rattle.sipd_service.specs.Printing;

use sip_audit::{Record, line_of};
use sip_text::Bytes;
use sip_uri::{Addr, addr_text};
use sipd_exit::{Exit, print};
use std::alloc::{AllocError, Global};
use std::io::Write;

/// A record's line, with its end.
fn record_text(alloc: Global, record: &Record) -> Result<Bytes, AllocError>
    ensures { IfOk result (λ text. text ≡ Lines.record_text «record».now) }
{
    let Ok(mut line) = line_of(alloc, record) else {
        return Err(AllocError);
    };
    line.push(b'\n')?;
    Ok(line)
}

/// Prints a record's line.
fn print_record<W: Write>(alloc: Global, record: &Record, output: &mut W) -> Result<(), Exit>
    ensures printed { OnOk result (Appends (W.contents output.old) (W.contents output.new) (Lines.record_text «record».now)) }
    ensures refused { IfErr result IsPrintFault }
{
    let line = record_text(alloc, record)?;
    print(line.as_slice(), output)
}

/// Prints records, each in a line.
#[tactic(auto, using(crate::proofs::Printed::appends_none))]
pub fn print_records<W: Write>(
    alloc: Global,
    records: &[Record],
    output: &mut W,
) -> Result<(), Exit>
    ensures printed { OnOk result (Appends (W.contents output.old) (W.contents output.new) (Lines.lines_of records.now)) }
    ensures refused { IfErr result IsPrintFault }
{
    for record in records {
        print_record(alloc, record, output)?;
    }
    Ok(())
}

/// Where it serves, as a line.
pub fn serving_text(alloc: Global, address: Addr) -> Result<Bytes, AllocError>
    ensures { IfOk result (λ text. text ≡ Printing.serving_text address) }
{
    let mut text = Bytes::new(alloc);
    text.extend(b"sipd: serving ")?;
    text.extend(addr_text(alloc, address)?.as_slice())?;
    text.push(b'\n')?;
    Ok(text)
}

/// That so many turns are over, as a line.
pub fn turns_text(alloc: Global, turns: u32) -> Result<Bytes, AllocError>
    ensures { IfOk result (λ text. text ≡ Printing.turns_text turns) }
{
    let mut text = Bytes::new(alloc);
    text.extend(b"sipd: ")?;
    text.push_decimal(u64::from(turns))?;
    text.extend(b" turns\n")?;
    Ok(text)
}
