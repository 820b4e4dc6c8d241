ghost use Rattle.std.specs.Prelude.{◌≡◌, ℕ, Bool, true, IfOk, IfSome, OnOk, OnErr, Option, List};
ghost use Rattle.sip_transport.specs.Told.{counted, heard_of, and_then, GrewBy, IsWritable, SetsAside};
ghost use Rattle.sip_transport.specs.declared.datagram.HeardDatagram.{HeardDatagram};
ghost use Rattle.sip_transport.specs.declared.datagram.Given.{Given};

use crate::datagram::{Instead, LinkFault, SendOutcome};
use sip_uri::Addr;
use std::alloc::AllocError;

/// What hears and sends datagrams. It counts how often it was asked for one, and how often that failed, and may tell
/// what it heard, what it was given and how long it was let wait, oldest first.
pub trait Link: Drop {
    ghost receives: { Self → ℕ };

    ghost failures: { Self → ℕ };

    ghost heard: { Self → Option (List (Option HeardDatagram)) };

    ghost given: { Self → Option (List Given) };

    ghost held: { Self → List ℕ };

    // whether it heard a datagram last, and not nothing
    ghost fresh: { Self → Bool };

    // the datagrams that were set aside, if it tells them
    ghost aside: { Self → Option (List HeardDatagram) };

    // how many milliseconds it was let wait, time by time, if it tells that
    ghost waits: { Self → Option (List ℕ) };

    /// The source of the next datagram, or nothing where there is none now. Doesn't wait. What nobody can be answered for (port 0,
    /// RFC 768) or is too long for a line of a record, it doesn't hear.
    fn receive(&mut self) -> Result<Option<Addr>, LinkFault>
        ensures counted { receives self.new ≡ counted (receives self.old) }
        ensures ok { OnOk result (failures self.new ≡ failures self.old) }
        ensures err { OnErr result (failures self.new ≡ counted (failures self.old)) }
        ensures tells { IfOk result (λ from. heard self.new ≡ and_then (heard self.old) (heard_of from (held self.new))) }
        ensures silent { OnErr result (heard self.new ≡ heard self.old) }
        ensures writable { IfOk result (λ from. IfSome from (λ source. IsWritable source (held self.new))) }
        ensures fresh { IfOk result (λ from. IfSome from (λ _. fresh self.new ≡ true)) }
        ensures given { given self.new ≡ given self.old }
        ensures aside { aside self.new ≡ aside self.old }
        ensures waits { waits self.new ≡ waits self.old };

    /// Sets aside the datagram that it heard last, whose source this is: it counts as one that wasn't heard, and the receive that heard
    /// it as one that heard nothing, or as none.
    fn set_aside(&mut self, from: Addr, instead: Instead)
        ensures aside { fresh self.old ≡ true
            → SetsAside (record { from = from; bytes = held self.old }) instead (heard self.old) (heard self.new) (aside self.old) (aside self.new) }
        ensures counted { receives self.new ≡ receives self.old }
        ensures failures { failures self.new ≡ failures self.old }
        ensures given { given self.new ≡ given self.old }
        ensures waits { waits self.new ≡ waits self.old };

    /// The bytes of the datagram that it heard last.
    fn bytes(&self) -> &[u8]
        ensures { result.now ≡ held self.now };

    /// Sends a datagram. Refused for want of memory alone, and then the datagram was not given to it.
    fn send(&mut self, to: Addr, bytes: &[u8]) -> Result<SendOutcome, AllocError>
        ensures counted { receives self.new ≡ receives self.old }
        ensures failures { failures self.new ≡ failures self.old }
        ensures heard { heard self.new ≡ heard self.old }
        ensures ok { IfOk result (λ sending. given self.new ≡ and_then (given self.old) (record { to = to; bytes = bytes.now; sending = sending })) }
        ensures err { OnErr result (given self.new ≡ given self.old) }
        ensures aside { aside self.new ≡ aside self.old }
        ensures waits { waits self.new ≡ waits self.old };

    /// Waits so many milliseconds at most for something to hear, which the next `receive` hears.
    fn wait(&mut self, milliseconds: u64)
        ensures waited { GrewBy milliseconds (waits self.old) (waits self.new) }
        ensures counted { receives self.new ≡ receives self.old }
        ensures failures { failures self.new ≡ failures self.old }
        ensures heard { heard self.new ≡ heard self.old }
        ensures aside { aside self.new ≡ aside self.old }
        ensures given { given self.new ≡ given self.old };
}
