ghost use Rattle.std.specs.Prelude.{◌≡◌, ℕ, Bool, true, false, List, [], ◌∷◌, Option, OnOk, OnErr};
ghost use Rattle.sip_event.specs.declared.event.Event.TheVariants.{Datagram, Time, Fault};
ghost use Rattle.sip_journal.specs.Record.{Notes, NotesConfiguration};

use sip_event::Ticket;
use sip_uri::Addr;

/// An event that wasn't recorded.
#[derive(Clone, Copy, Debug, PartialEq, Eq)]
pub struct JournalFault;

/// What keeps a record of the events that a server takes, and of the configurations under which it takes them. A fault of it is its own: once it has failed it tells nothing, whether it
/// says so or not; and once it has said so, it says so at each call.
pub trait Journal: Drop {
    // the bytes that were written to it, if it tells any; nothing where it has failed
    ghost written: { Self → Option (Option (List ℕ)) };

    // whether it answers faults
    ghost faulted: { Self → Bool };

    /// A datagram was taken, at a moment in milliseconds, with its word.
    fn heard(&mut self, at: u64, word: u128, from: Addr, bytes: &[u8]) -> Result<(), JournalFault>
        ensures noted { OnOk result (Notes (written self.old) (written self.new) (Datagram at word from bytes.now ∷ [])) }
        ensures failed { OnErr result (written self.new ≡ Option.None) }
        ensures whole { OnOk result ((faulted self.old ≡ false) × (faulted self.new ≡ false)) }
        ensures said { OnErr result (faulted self.new ≡ true) };

    /// A moment in milliseconds was taken alone.
    fn passed(&mut self, at: u64) -> Result<(), JournalFault>
        ensures noted { OnOk result (Notes (written self.old) (written self.new) (Time at ∷ [])) }
        ensures failed { OnErr result (written self.new ≡ Option.None) }
        ensures whole { OnOk result ((faulted self.old ≡ false) × (faulted self.new ≡ false)) }
        ensures said { OnErr result (faulted self.new ≡ true) };

    /// The fault of a packet was taken, at a moment in milliseconds.
    fn failed(&mut self, at: u64, ticket: Ticket) -> Result<(), JournalFault>
        ensures noted { OnOk result (Notes (written self.old) (written self.new) (Fault at ticket ∷ [])) }
        ensures failed { OnErr result (written self.new ≡ Option.None) }
        ensures whole { OnOk result ((faulted self.old ≡ false) × (faulted self.new ≡ false)) }
        ensures said { OnErr result (faulted self.new ≡ true) };

    /// A configuration is in force from here on, whose file has these bytes.
    fn configured(&mut self, bytes: &[u8]) -> Result<(), JournalFault>
        ensures noted { OnOk result (NotesConfiguration (written self.old) (written self.new) bytes.now) }
        ensures failed { OnErr result (written self.new ≡ Option.None) }
        ensures whole { OnOk result ((faulted self.old ≡ false) × (faulted self.new ≡ false)) }
        ensures said { OnErr result (faulted self.new ≡ true) };
}
