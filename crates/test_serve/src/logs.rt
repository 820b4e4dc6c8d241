//! A log that fails, and one that keeps what was printed last.
use sip_audit::Record;
use sip_loop::{AuditFault, AuditLog};

/// A log that keeps the moment and the datagram's number of what was printed on it last, where that was one record.
#[derive(Clone, Copy, Drop)]
pub struct LastPrinted {
    pub one: Option<(u64, u64)>,
}

impl AuditLog for LastPrinted {
    ghost use Rattle.std.specs.Prelude.{Option, false};

    ghost printed = { λ _. Option.Some Option.None };

    ghost faulted = { λ _. false };

    fn print(&mut self, records: &[Record]) -> Result<(), AuditFault> {
        self.one = match records {
            [record] => Some((record.at, record.number)),
            _ => None,
        };
        Ok(())
    }
}

/// Nothing that lines can be printed on.
#[derive(Clone, Copy, Drop)]
pub struct Closed;

impl AuditLog for Closed {
    ghost use Rattle.std.specs.Prelude.{Option, true};

    ghost printed = { λ _. Option.None };

    ghost faulted = { λ _. true };

    fn print(&mut self, _records: &[Record]) -> Result<(), AuditFault> {
        Err(AuditFault::Device)
    }
}
