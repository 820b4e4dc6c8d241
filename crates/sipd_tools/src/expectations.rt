//! What is expected of a policy (`check --expect`): a file of lines, held against a configuration.
ghost use Rattle.std.specs.Prelude.{◌≡◌, is_some, IfErr, IfOk, OnOk, true};
ghost use Rattle.sipd_tools.specs.Checks.{EndsHolding, EndsHoldingLines, Holds, HoldsAs};
ghost use Rattle.sipd_tools.specs.Ends.{IsUnanswered};

use sip_config_types::Config;
use sip_text::Bytes;
use sipd_exit::{Exit, bytes_in, print};
use sipd_expect::{FileError, LineError, told_of};
use std::alloc::Global;
use std::io::Write;
use std::rt::Files;

/// How the program ends where a line isn't known to hold or to fail.
fn exit_of_line(alloc: Global, e: FileError) -> Exit
    ensures { IsUnanswered result }
{
    if e.why == LineError::NoMemory {
        return Exit::Memory;
    }
    let FileError { line, why } = e;
    match format!(in alloc; "of --expect line {line}: {why}") {
        Ok(text) => Exit::Question(text),
        Err(_) => Exit::Memory,
    }
}

/// The bytes of a file of such lines, if one is named; where they aren't read, that is complained of.
pub(crate) fn lines_in<R: Files + AllocGlobal, C: Write>(
    rt: &R,
    path: &Option<String>,
    complaints: &mut C,
) -> Result<Option<Bytes>, Exit>
    ensures { IfOk result (λ lines. is_some lines ≡ is_some path.now) }
{
    let Some(path) = path else {
        return Ok(None);
    };
    match bytes_in(rt, path.as_str()) {
        Ok(lines) => Ok(Some(lines)),
        Err(exit) => {
            let _ = writeln!(complaints, "sipd: of --expect");
            Err(exit)
        }
    }
}

/// Prints which of these lines the policy of a configuration isn't as, each with a question that is decided otherwise. `Unexpected` behind
/// that, where there is one.
#[tactic(auto, using(crate::proofs::Checked::held))]
fn hold_against<W: Write>(
    alloc: Global,
    lines: &[u8],
    config: &Config,
    output: &mut W,
) -> Result<(), Exit>
    ensures holds { OnOk result (HoldsAs config.now lines.now true (W.contents output.old) (W.contents output.new)) }
    ensures other { IfErr result (EndsHoldingLines config.now lines.now (W.contents output.old) (W.contents output.new)) }
{
    let told = match told_of(alloc, config, lines) {
        Ok(told) => told,
        Err(e) => return Err(exit_of_line(alloc, e)),
    };
    print(told.text.as_slice(), output)?;
    if told.holds {
        Ok(())
    } else {
        Err(Exit::Unexpected)
    }
}

/// The same, where lines are expected.
pub(crate) fn hold<W: Write>(
    alloc: Global,
    expected: &Option<Bytes>,
    config: &Config,
    output: &mut W,
) -> Result<(), Exit>
    ensures holds { OnOk result (Holds expected.now config.now (W.contents output.old) (W.contents output.new)) }
    ensures other { IfErr result (EndsHolding expected.now config.now (W.contents output.old) (W.contents output.new)) }
{
    match expected {
        Some(lines) => hold_against(alloc, lines.as_slice(), config, output),
        None => Ok(()),
    }
}
