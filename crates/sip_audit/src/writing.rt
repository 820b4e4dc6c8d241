ghost use Rattle.std.specs.Prelude.{◌≡◌, ◌++◌, codes, decimal, IfOk, IfErr, OnOk};
ghost use Rattle.sip_audit.specs.Lines as Definitions;
ghost use Rattle.sip_audit.specs.Lines.{who_text, target_text, operation_text, outcome_text};
ghost use Rattle.sip_audit.specs.declared.error.AuditError.TheVariants.{NoMemory};

use crate::decision::push_outcome;
use crate::error::AuditError;
use crate::record::{AuditOperation, Record};
use crate::target::push_target;
use sip_text::{Buffer, Bytes};
use std::alloc::{AllocError, Global};

/// The room for most lines, so that few grow.
const LINE_ROOM: usize = 160;

/// Adds a word and the space behind it.
#[inline(always)]
fn push_word(line: &mut Buffer, word: &[u8]) -> Result<(), AllocError>
    ensures { OnOk result (line.new ≡ line.old ++ word.now ++ codes " ") }
{
    line.extend(word)?;
    line.extend(b" ")
}

#[inline(always)]
fn push_number(line: &mut Buffer, number: u64) -> Result<(), AllocError>
    ensures { OnOk result (line.new ≡ line.old ++ decimal number ++ codes " ") }
{
    line.push_decimal(number)?;
    line.extend(b" ")
}

/// The name of the user that was proven, `-` for nobody.
pub fn who_word(who: &Option<Bytes>) -> &[u8]
    ensures { result.now ≡ who_text who.now }
{
    match who {
        Some(name) => name.as_slice(),
        None => b"-",
    }
}

/// The word of an operation.
pub fn operation_word(operation: AuditOperation) -> &'static [u8]
    ensures { result.now ≡ operation_text operation }
{
    match operation {
        AuditOperation::Register => b"register",
        AuditOperation::List => b"list",
        AuditOperation::Send => b"send",
    }
}

/// Adds what stands before the target: moment, number, method and user.
fn push_request(line: &mut Buffer, record: &Record) -> Result<(), AllocError>
    ensures { OnOk result (line.new ≡ line.old ++ decimal «record».now.at ++ codes " " ++ decimal «record».now.number ++ codes " "
        ++ «record».now.method ++ codes " " ++ who_text «record».now.who ++ codes " ") }
{
    push_number(line, record.at)?;
    push_number(line, record.number)?;
    push_word(line, record.method.as_slice())?;
    push_word(line, who_word(&record.who))
}

/// Adds the target, the operation, the rule and the outcome.
fn push_decision(line: &mut Buffer, record: &Record) -> Result<(), AllocError>
    ensures { OnOk result (line.new ≡ line.old ++ target_text «record».now.target ++ codes " " ++ operation_text «record».now.operation
        ++ codes " " ++ outcome_text «record».now.minute «record».now.outcome) }
{
    push_target(line, &record.target)?;
    line.extend(b" ")?;
    push_word(line, operation_word(record.operation))?;
    push_outcome(line, record.minute, record.outcome)
}

/// The line of a record, without its end. `NoMemory` is the only refusal.
pub fn line_of(alloc: Global, record: &Record) -> Result<Bytes, AuditError>
    ensures line { IfOk result (λ line. line ≡ Definitions.line_of «record».now) }
    ensures refused { IfErr result (λ e. e ≡ NoMemory) }
{
    let mut line = Buffer::with_room(alloc, LINE_ROOM)?;
    push_request(&mut line, record)?;
    push_decision(&mut line, record)?;
    Ok(line.into_bytes())
}
