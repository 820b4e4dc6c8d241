ghost use Rattle.std.specs.Prelude.{◌≡◌, ℕ, Bool, true, false, List, Option, OnOk, OnErr};
ghost use Rattle.sip_loop.specs.Printing.{Prints};

use sip_audit::Record;

/// Lines of decisions that weren't printed.
#[derive(Clone, Copy, Debug, PartialEq, Eq)]
pub enum AuditFault {
    /// Memory ran out.
    NoMemory,
    /// What they are printed on failed.
    Device,
}

/// What the lines of decisions are printed on. Once it has failed it tells nothing any more, and says so at each call.
pub trait AuditLog: Drop {
    // the bytes that were printed on it, if it tells any; nothing where it has failed
    ghost printed: { Self → Option (Option (List ℕ)) };

    // whether it answers faults
    ghost faulted: { Self → Bool };

    /// Prints the line of each of these records, in their order, each with its LF, and hands them on before it answers.
    fn print(&mut self, records: &[Record]) -> Result<(), AuditFault>
        ensures printed { OnOk result (Prints (printed self.old) (printed self.new) records.now) }
        ensures failed { OnErr result (printed self.new ≡ Option.None) }
        ensures whole { OnOk result ((faulted self.old ≡ false) × (faulted self.new ≡ false)) }
        ensures said { OnErr result (faulted self.new ≡ true) };
}
