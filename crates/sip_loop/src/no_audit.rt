use crate::audit_log::{AuditFault, AuditLog};
use sip_audit::Record;

/// Nothing that lines are printed on: it prints none, tells nothing, and never fails.
#[derive(Clone, Copy, Drop)]
pub struct NoAudit;

impl AuditLog for NoAudit {
    ghost use Rattle.std.specs.Prelude.{Option, false};

    ghost printed = { λ _. Option.Some Option.None };

    ghost faulted = { λ _. false };

    fn print(&mut self, _records: &[Record]) -> Result<(), AuditFault> {
        Ok(())
    }
}
