ghost use Rattle.std.specs.Prelude.{IfErr, OnOk};
ghost use Rattle.std.specs.Io.KnownBytes.{Appends};
ghost use Rattle.sipd_exit.specs.Exits.{IsPrintFault};

use crate::exit::Exit;
use std::io::Write;

/// Writes a text whole, and hands it on. Refusals: `Memory`, `Device`.
#[tactic(auto, using(crate::proofs::Faults::is_print_fault))]
pub fn print<W: Write>(text: &[u8], output: &mut W) -> Result<(), Exit>
    ensures printed { OnOk result (Appends (W.contents output.old) (W.contents output.new) text.now) }
    ensures refused { IfErr result IsPrintFault }
{
    output.write_all(text)?;
    Ok(output.flush()?)
}
