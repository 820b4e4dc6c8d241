//! A link without a socket, for trials: it tells all that it heard and was given, which contracts speak of.
ghost use Rattle.std.specs.Prelude.{◌≡◌, ◌+◌, ◌<◌, ◌≤◌, ◌∷◌, ◌++◌, [], true, false, length, slice_set, slice_index_or, nat_eq, ◌↔◌, IsTrue, IfOk, IfSome, OnOk, OnErr, Some};
ghost use Rattle.std.specs.List.{list_any};
ghost use Rattle.sip_transport.specs.Told.{most, counted, heard_of, and_then, GrewBy, IsWritable, SetsAside};
ghost use Rattle.sip_transport.specs.declared.posted.Posted.{Posted};
ghost use Rattle.sip_transport.specs.MemoryLink.{first_from, hearing, next_answer, next_sending, received, silence_of};

use crate::datagram::{Given, HeardDatagram, Instead, LinkFault, MOST_BYTES, SendOutcome};
use crate::link::Link;
use crate::posted::Posted;
use sip_text::Bytes;
use sip_uri::Addr;
use std::alloc::{AllocError, Global};
use std::marker::Model;

/// A link over memory: it hears the datagrams of a list one after the other, then nothing, keeps what it was given and how long it was
/// let wait, and fails at the receives and sends whose numbers it was told, counted from 1.
#[derive(Drop)]
pub struct MemoryLink {
    alloc: Global,
    inbox: Vec<Posted>,
    /// How many of these it heard.
    taken: usize,
    /// How many receives heard nothing since the last of these.
    silent: u64,
    /// Whether the last receive heard one of these.
    fresh: bool,
    given: Vec<Given>,
    receives: u64,
    failures: u64,
    receive_fails: Vec<u64>,
    send_fails: Vec<u64>,
    /// How many milliseconds it was let wait, time by time; none once there was no memory for one more.
    waits: Option<Vec<u64>>,
}

impl Model for MemoryLink {
    ghost use Rattle.std.specs.Prelude.{◌≡◌, ◌≤◌, ◌++◌, [], true, length, take, drop, map, option_map};
    ghost use Rattle.sip_transport.specs.MemoryLink.{IsFresh, MemoryState, aside_by, heard_by, nothings, datagram_of, last_bytes};

    ghost Value = { MemoryState };

    ghost view = { λ l. record {
      waiting = map datagram_of (drop l.taken l.inbox.items);
      heard = heard_by (take l.taken l.inbox.items) ++ nothings l.silent;
      fresh = l.fresh;
      aside = aside_by (take l.taken l.inbox.items);
      given = l.given.items;
      held = last_bytes [] (take l.taken l.inbox.items);
      receives = l.receives;
      failures = l.failures;
      receive_fails = l.receive_fails.items;
      send_fails = l.send_fails.items;
      waits = option_map (λ waits. waits.items) l.waits;
    } };

    ghost invariant = { λ l. (l.taken ≤ length l.inbox.items) × (l.silent ≤ l.receives) × (l.failures ≤ l.receives)
        × (l.fresh ≡ true → IsFresh l.inbox.items l.taken × (l.silent ≡ 0) × (1 ≤ l.receives)) };
}

/// Whether the number is one of these.
fn is_among(numbers: &[u64], number: u64) -> bool
    ensures { result ≡ list_any (λ n. nat_eq n number) numbers.now }
{
    numbers.contains(&number)
}

/// Whether a datagram can be written as a line of a record.
fn is_writable(from: Addr, bytes: &[u8]) -> bool
    ensures { IsTrue result ↔ IsWritable from bytes.now }
{
    from.port != 0 && bytes.len() <= MOST_BYTES
}

/// Notes before one of the datagrams how many receives heard nothing, and that it wasn't set aside, and answers its source.
fn note_silence(inbox: &mut Vec<Posted>, place: usize, silent: u64) -> Addr
    requires { place < length inbox.old.items }
    ensures from { (d : Posted) → result ≡ (slice_index_or inbox.old.items place d).datagram.from }
    ensures noted { (d : Posted) → inbox.new.items ≡ slice_set inbox.old.items place
        (record (slice_index_or inbox.old.items place d) { silent = silent; is_aside = false }) }
{
    let posted = &mut inbox[place];
    posted.silent = silent;
    posted.is_aside = false;
    posted.datagram.from
}

/// How many receives heard nothing behind a datagram that was set aside.
fn silence(instead: Instead) -> u64
    ensures count { result ≡ silence_of instead }
    ensures few { result ≤ 1 }
{
    match instead {
        Instead::AskedAgain => 0,
        Instead::HeardNothing => 1,
    }
}

/// Notes that one of the datagrams was set aside.
fn put_aside(inbox: &mut Vec<Posted>, place: usize)
    requires { place < length inbox.old.items }
    ensures { (d : Posted) → inbox.new.items ≡ slice_set inbox.old.items place (record (slice_index_or inbox.old.items place d) { is_aside = true }) }
{
    inbox[place].is_aside = true;
}

impl MemoryLink {
    /// A link that hears nothing, and fails at the receives and sends of these numbers.
    pub fn new(alloc: Global, receive_fails: Vec<u64>, send_fails: Vec<u64>) -> Self
        ensures { result ≡ record {
          waiting = [];
          heard = [];
          fresh = false;
          aside = [];
          given = [];
          held = [];
          receives = 0;
          failures = 0;
          receive_fails =
              receive_fails.items;
          send_fails = send_fails.items;
          waits = Some [];
        } }
    {
        MemoryLink {
            alloc,
            inbox: Vec::new(alloc),
            taken: 0,
            silent: 0,
            fresh: false,
            given: Vec::new(alloc),
            receives: 0,
            failures: 0,
            receive_fails,
            send_fails,
            waits: Some(Vec::new(alloc)),
        }
    }

    /// Lets it hear a datagram behind those that it is yet to hear. One from port 0, or of more than 65,508 bytes, is passed over as
    /// if it had never come. Refused for want of memory alone.
    pub fn hear(&mut self, from: Addr, bytes: &[u8]) -> Result<(), AllocError>
        ensures posted { OnOk result (IsWritable from bytes.now
            → self.new ≡ record self.old { waiting = self.old.waiting ++ record { from = from; bytes = bytes.now } ∷ [] }) }
        ensures passed { OnOk result (¬ IsWritable from bytes.now → self.new ≡ self.old) }
        ensures err { OnErr result (self.new ≡ self.old) }
    {
        if !is_writable(from, bytes) {
            return Ok(());
        }
        let bytes = Bytes::copy(self.alloc, bytes)?;
        let datagram = HeardDatagram { from, bytes };
        self.inbox.push(Posted {
            silent: 0,
            is_aside: false,
            datagram,
        })?;
        Ok(())
    }

    /// What it was given, oldest first.
    pub fn given(&self) -> &[Given]
        ensures { result.now ≡ self.now.given }
    {
        self.given.as_slice()
    }

    /// Hears the next datagram, or nothing, and answers its source.
    #[tactic(auto, using(crate::proofs::Turns::first_none, crate::proofs::Turns::first_some))]
    fn hear_next(&mut self) -> Option<Addr>
        requires { self.old.receives < most }
        ensures from { result ≡ first_from self.old.waiting }
        ensures writable { IfSome result (λ source. IsWritable source self.new.held) }
        ensures heard { self.new ≡ record (hearing self.old.waiting self.old) { receives = self.old.receives + 1 } }
    {
        self.receives += 1;
        if self.taken == self.inbox.len() {
            self.silent += 1;
            self.fresh = false;
            return None;
        }
        let from = note_silence(&mut self.inbox, self.taken, self.silent);
        self.silent = 0;
        self.fresh = true;
        self.taken += 1;
        Some(from)
    }
}

impl Link for MemoryLink {
    ghost receives = { λ l. l.receives };

    ghost failures = { λ l. l.failures };

    ghost heard = { λ l. Some l.heard };

    ghost given = { λ l. Some l.given };

    ghost held = { λ l. l.held };

    ghost fresh = { λ l. l.fresh };

    ghost aside = { λ l. Some l.aside };

    ghost waits = { λ l. l.waits };

    fn receive(&mut self) -> Result<Option<Addr>, LinkFault>
        ensures counted { self.new.receives ≡ counted self.old.receives }
        ensures ok { OnOk result (self.new.failures ≡ self.old.failures) }
        ensures err { OnErr result (self.new.failures ≡ counted self.old.failures) }
        ensures tells { IfOk result (λ from. Some self.new.heard ≡ and_then (Some self.old.heard) (heard_of from self.new.held)) }
        ensures silent { OnErr result (Some self.new.heard ≡ Some self.old.heard) }
        ensures writable { IfOk result (λ from. IfSome from (λ source. IsWritable source self.new.held)) }
        ensures fresh { IfOk result (λ from. IfSome from (λ _. self.new.fresh ≡ true)) }
        ensures given { Some self.new.given ≡ Some self.old.given }
        ensures aside { self.new.aside ≡ self.old.aside }
        ensures waits { self.new.waits ≡ self.old.waits }
        ensures answer { result ≡ next_answer self.old }
        ensures behind { self.new ≡ received self.old }
    {
        if self.receives == u64::MAX {
            self.failures = self.failures.saturating_add(1);
            return Err(LinkFault);
        }
        if is_among(self.receive_fails.as_slice(), self.receives + 1) {
            self.receives += 1;
            self.failures += 1;
            return Err(LinkFault);
        }
        Ok(self.hear_next())
    }

    fn set_aside(&mut self, from: Addr, instead: Instead)
        ensures aside { self.old.fresh ≡ true
            → SetsAside (record { from = from; bytes = self.old.held }) instead (Some self.old.heard) (Some self.new.heard) (Some self.old.aside) (Some self.new.aside) }
        ensures kept { self.new ≡ record self.old { heard = self.new.heard; fresh = false; aside = self.new.aside } }
    {
        if self.fresh {
            self.fresh = false;
            put_aside(&mut self.inbox, self.taken - 1);
            self.silent = silence(instead);
        }
    }

    #[tactic(auto, using(crate::proofs::Turns::held_is))]
    fn bytes(&self) -> &[u8] {
        match self.taken.checked_sub(1) {
            None => &[],
            Some(place) => self.inbox[place].datagram.bytes.as_slice(),
        }
    }

    fn send(&mut self, to: Addr, bytes: &[u8]) -> Result<SendOutcome, AllocError>
        ensures counted { self.new.receives ≡ self.old.receives }
        ensures failures { self.new.failures ≡ self.old.failures }
        ensures heard { Some self.new.heard ≡ Some self.old.heard }
        ensures ok { IfOk result (λ sending. Some self.new.given
            ≡ and_then (Some self.old.given) (record { to = to; bytes = bytes.now; sending = sending })) }
        ensures err { OnErr result (Some self.new.given ≡ Some self.old.given) }
        ensures aside { self.new.aside ≡ self.old.aside }
        ensures waits { self.new.waits ≡ self.old.waits }
        ensures sending { IfOk result (λ sending. sending ≡ next_sending self.old) }
        ensures taken { OnOk result (self.new ≡ record self.old { given = self.new.given }) }
        ensures whole { OnErr result (self.new ≡ self.old) }
    {
        let bytes = Bytes::copy(self.alloc, bytes)?;
        let number = self.given.len() as u64 + 1;
        let sending = if is_among(self.send_fails.as_slice(), number) {
            SendOutcome::Failed
        } else {
            SendOutcome::Went
        };
        self.given.push(Given { to, bytes, sending })?;
        Ok(sending)
    }

    // Doesn't wait.
    fn wait(&mut self, milliseconds: u64)
        ensures waited { GrewBy milliseconds self.old.waits self.new.waits }
        ensures kept { self.new ≡ record self.old { waits = self.new.waits } }
    {
        if let Some(mut waits) = self.waits.take()
            && waits.push(milliseconds).is_ok()
        {
            self.waits = Some(waits);
        }
    }
}
