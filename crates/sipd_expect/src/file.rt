//! The lines of a file of expectations, held against the policy of a configuration one by one.
ghost use Rattle.std.specs.Prelude.{◌≡◌, ◌&&◌, IfOk, IfErr};
ghost use Rattle.sipd_ask.specs.Fronts;
ghost use Rattle.sip_text.specs.TextLines.{lines_of};
ghost use Rattle.sipd_expect.specs.File as Definitions;
ghost use Rattle.sipd_expect.specs.Line.{IsRefused};

use crate::error::LineError;
use crate::line::fault_of_line;
use sip_config_types::Config;
use sip_text::{Bytes, split_once, without_blanks};
use std::alloc::{AllocError, Global};

/// What is told of a file.
#[derive(Drop)]
pub struct ExpectationReport {
    /// A line for each line that fails: `line N: ` and the question that isn't decided so, with what is decided about it.
    pub text: Bytes,
    /// Whether none fails.
    pub holds: bool,
}

/// Why nothing is told of a file: this line of it isn't known to hold or to fail.
#[derive(Clone, Copy, Debug)]
pub struct FileError {
    /// Counted from 1.
    pub line: u64,
    pub why: LineError,
}

/// What stands before the first CR.
fn before_return(line: &[u8]) -> &[u8]
    ensures { result.now ≡ Fronts.front_before 13 line.now }
{
    match split_once(line, b'\r') {
        Some((front, _)) => front,
        None => line,
    }
}

fn put_line(text: &mut Bytes, number: u64, said: &[u8]) -> Result<(), AllocError> {
    text.extend(b"line ")?;
    text.push_decimal(number)?;
    text.extend(b": ")?;
    text.extend(said)
}

/// Adds what is told of a line, and says whether it holds.
fn tell_line(
    alloc: Global,
    config: &Config,
    number: u64,
    line: &[u8],
    text: &mut Bytes,
) -> Result<bool, LineError>
    ensures answer { IfOk result (Definitions.LineIs config.now line.now) }
    ensures refused { IfErr result (IsRefused config.now (Definitions.line_text line.now)) }
{
    match fault_of_line(alloc, config, without_blanks(before_return(line)))? {
        Some(said) => {
            put_line(text, number, said.as_slice())?;
            Ok(false)
        }
        None => Ok(true),
    }
}

/// Whether both hold.
fn both(one: bool, other: bool) -> bool
    ensures { result ≡ (one && other) }
{
    one && other
}

/// What is told of a file: a line for each one that fails, in their order, and whether none does. It stops at the first line that isn't known
/// to hold or to fail.
#[tactic(auto, using(crate::proofs::Files::leads_on, crate::proofs::Files::answered, crate::proofs::Files::refused_here, crate::proofs::Files::refused_last))]
pub fn told_of(alloc: Global, config: &Config, file: &[u8]) -> Result<ExpectationReport, FileError>
    ensures answer { IfOk result (λ told. Definitions.FileIs config.now (lines_of file.now) told.holds) }
    ensures refused { IfErr result (λ e. Definitions.SomeRefused config.now (lines_of file.now) e.why) }
{
    let mut text = Bytes::new(alloc);
    let mut holds = true;
    let mut rest = file;
    let mut number: u64 = 1;
    while let Some((line, behind)) = split_once(rest, b'\n') {
        match tell_line(alloc, config, number, line, &mut text) {
            Ok(is) => holds = both(holds, is),
            Err(why) => return Err(FileError { line: number, why }),
        }
        number = number.saturating_add(1);
        rest = behind;
    }
    match tell_line(alloc, config, number, rest, &mut text) {
        Ok(is) => Ok(ExpectationReport {
            text,
            holds: both(holds, is),
        }),
        Err(why) => Err(FileError { line: number, why }),
    }
}
