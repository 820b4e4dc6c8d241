use crate::journal::{Journal, JournalFault};
use sip_event::Ticket;
use sip_uri::Addr;

/// No record: it writes nothing, tells nothing, and never fails.
#[derive(Clone, Copy, Drop)]
pub struct NoJournal;

impl Journal for NoJournal {
    ghost use Rattle.std.specs.Prelude.{Option, false};

    ghost written = { λ _. Option.Some Option.None };

    ghost faulted = { λ _. false };

    fn heard(
        &mut self,
        _at: u64,
        _word: u128,
        _from: Addr,
        _bytes: &[u8],
    ) -> Result<(), JournalFault> {
        Ok(())
    }

    fn passed(&mut self, _at: u64) -> Result<(), JournalFault> {
        Ok(())
    }

    /// Called only where a packet can't be sent, over a socket and without a record.
    fn failed(&mut self, _at: u64, _ticket: Ticket) -> Result<(), JournalFault> {
        Ok(())
    }

    fn configured(&mut self, _bytes: &[u8]) -> Result<(), JournalFault> {
        Ok(())
    }
}
