ghost use Rattle.std.specs.Prelude.{◌≡◌, IfOk};
ghost use Rattle.sip_audit.specs.Reading.{record_of};
ghost use Rattle.sipd_report.specs.Entries as Definitions;

use sip_audit::{AuditError, Record, read_line};
use std::alloc::{AllocError, Global};

/// The most bytes that an audit line has.
const LONGEST_LINE: usize = 200_000;

/// What journalctl ends with what it writes in front of a line.
const MARK: &[u8] = b"]: ";

/// How each line begins that the server writes on standard error.
const OWN_FRONT: &[u8] = b"sipd: ";

/// The record that a line says, as it stands.
fn record_said(alloc: Global, line: &[u8]) -> Result<Option<Record>, AllocError>
    ensures { IfOk result (λ said. said ≡ record_of line.now) }
{
    match read_line(alloc, line) {
        Ok(record) => Ok(Some(record)),
        Err(AuditError::BadLine) => Ok(None),
        Err(AuditError::NoMemory) => Err(AllocError),
    }
}

/// The record of a line, if it is an audit line. `AllocError` is the only refusal.
pub fn entry_of(alloc: Global, line: &[u8]) -> Result<Option<Record>, AllocError>
    ensures { IfOk result (λ entry. entry ≡ Definitions.entry_of line.now) }
{
    if line.len() > LONGEST_LINE {
        return Ok(None);
    }
    record_said(alloc, line)
}

/// What stands behind the first `]: ` of a line, which ends what journalctl writes in front of it; nothing where none stands there.
fn behind_prefix(line: &[u8]) -> &[u8]
    ensures { result.now ≡ Definitions.behind_prefix line.now }
{
    let mut rest = line;
    while let Some((_, behind)) = rest.split_first() {
        if rest.starts_with(MARK) {
            return &rest[MARK.len()..];
        }
        rest = behind;
    }
    rest
}

/// The record that a line tells, as it stands or behind what journalctl writes in front of it. `AllocError` is the only refusal.
pub(crate) fn told_by(alloc: Global, line: &[u8]) -> Result<Option<Record>, AllocError>
    ensures { IfOk result (λ told. told ≡ Definitions.told_by line.now) }
{
    if line.len() > LONGEST_LINE {
        return Ok(None);
    }
    match record_said(alloc, line)? {
        Some(record) => Ok(Some(record)),
        None => record_said(alloc, behind_prefix(line)),
    }
}

/// Whether a line is one that the server writes on standard error, as it stands or behind what journalctl writes in front of it.
pub(crate) fn is_servers_own(line: &[u8]) -> bool
    ensures { result ≡ Definitions.is_servers_own line.now }
{
    if line.starts_with(OWN_FRONT) {
        return true;
    }
    behind_prefix(line).starts_with(OWN_FRONT)
}
