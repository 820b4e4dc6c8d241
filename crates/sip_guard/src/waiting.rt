ghost use Rattle.std.specs.Prelude.{◌≡◌};
ghost use Rattle.sip_transport.specs.Told.{GrewBy};
ghost use Rattle.sip_guard.specs.Waits;

use crate::guard::Guard;
use sip_transport::{Clock, Link};

/// The longest wait, in milliseconds.
const LONGEST: u64 = 1000;

/// How long to wait at a moment, in milliseconds: until something is due, at least one and at most a second.
fn wait_before(due: Option<u64>, now: u64) -> u64
    ensures { result ≡ Waits.wait_before due now }
{
    match due {
        Some(due) => due.saturating_sub(now).min(LONGEST).max(1),
        None => LONGEST,
    }
}

impl<L: Link, C: Clock> Guard<L, C> {
    /// Waits at a moment, in milliseconds, for something to hear: until something is due, at least one and at most a second.
    pub fn wait_until_due(&mut self, due: Option<u64>, now: u64)
        ensures waited { GrewBy (Waits.wait_before due now) self.old.link.waits self.new.link.waits }
        ensures allowances { self.new.allowances ≡ self.old.allowances }
        ensures readings { self.new.readings ≡ self.old.readings }
        ensures counted { self.new.receives ≡ self.old.receives }
        ensures failures { self.new.failures ≡ self.old.failures }
        ensures heard { self.new.link.heard ≡ self.old.link.heard }
        ensures aside { self.new.link.aside ≡ self.old.link.aside }
        ensures given { self.new.link.given ≡ self.old.link.given }
        ensures asked { self.new.link.receives ≡ self.old.link.receives }
        ensures whole { self.new.link.failures ≡ self.old.link.failures }
    {
        self.wait(wait_before(due, now));
    }
}
