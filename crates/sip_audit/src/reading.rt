ghost use Rattle.std.specs.Prelude.{◌≡◌, IfOk, Some, option_map};
ghost use Rattle.sip_audit.specs.Lines.{IsLineOf, IsInRange};
ghost use Rattle.sip_audit.specs.Parts.{seen};
ghost use Rattle.sip_audit.specs.Reading as Readings;
ghost use Rattle.sip_audit.specs.Reading.{Gives, with_user};

use crate::error::AuditError;
use crate::parts::{AuditLineParts, parts_of};
use crate::record::Record;
use crate::target::user_of;
use sip_text::Bytes;
use sip_uri::Aor;
use std::alloc::{AllocError, Global};

/// A text as a value's own, if there is one.
fn copy_name(alloc: Global, name: Option<&[u8]>) -> Result<Option<Bytes>, AllocError>
    ensures { IfOk result (λ copy. copy ≡ option_map (λ x. x.now) name.entry) }
{
    match name {
        Some(name) => Ok(Some(Bytes::copy(alloc, name)?)),
        None => Ok(None),
    }
}

/// The record of what a line says.
fn record_from(alloc: Global, parts: AuditLineParts<'_>) -> Result<Record, AuditError>
    ensures { Gives (λ r. r) result (with_user (seen parts.entry)) }
{
    let user = user_of(alloc, parts.user)?;
    let host = Bytes::copy(alloc, parts.host)?;
    let method = Bytes::copy(alloc, parts.method)?;
    let who = copy_name(alloc, parts.who)?;
    Ok(Record {
        at: parts.at,
        number: parts.number,
        method,
        who,
        target: Aor { user, host },
        operation: parts.operation,
        minute: parts.minute,
        outcome: parts.outcome,
    })
}

#[tactic(auto, unfolding(crate::specs::Reading::record_of))]
fn read_record(alloc: Global, line: &[u8]) -> Result<Record, AuditError>
    ensures { Gives (λ r. r) result (Readings.record_of line.now) }
{
    let parts = parts_of(line).ok_or(AuditError::BadLine)?;
    record_from(alloc, parts)
}

/// The record whose line this is, without its end. Refused `BadLine` where it is no record's, `NoMemory` where
/// memory runs out.
pub fn read_line(alloc: Global, line: &[u8]) -> Result<Record, AuditError>
    // The record, or that there is none.
    ensures exact { Gives (λ r. r) result (Readings.record_of line.now) }
    // A record of a request is read, whose line this is.
    ensures written { IfOk result (λ r. IsLineOf line.now r) }
    // Each record whose line this is is read.
    ensures only { (r : Record) → IsInRange r → IsLineOf line.now r → Gives (λ r. r) result (Some r) }
{
    read_record(alloc, line)
}
