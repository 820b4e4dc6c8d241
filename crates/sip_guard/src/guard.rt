//! The link that a server asks in place of its socket: what is beyond a source's allowance is dropped before the engine hears of it.
//! What goes out isn't limited.
ghost use Rattle.std.specs.Prelude.{◌≡◌, true, None, IfOk, IfSome, OnOk, OnErr, option_map};
ghost use Rattle.sip_transport.specs.Told.{counted, heard_of, and_then, GrewBy, IsWritable, SetsAside};
ghost use Rattle.sip_guard.specs.Guard as Guarding;
ghost use Rattle.sip_guard.specs.Guard.{guard_over, hearing, told_all, IsBounded, Hears, Guards};

use crate::allowances::Allowances;
use crate::limit::Limit;
use crate::unheard::Unheard;
use sip_transport::{Clock, Instead, Link, LinkFault, SendOutcome};
use sip_uri::Addr;
use std::alloc::{AllocError, Global};
use std::marker::Model;

/// How many datagrams in a row are passed over at most.
const MOST_PASSED: u64 = 64;

/// A link over a link, which hands on what comes within the allowance of its source, an IP address, or from one of those that are
/// heard always, and counts the rest. It keeps 4,096 sources at most, none of those that are heard always; a datagram of one that
/// finds no room is handed on. Phones behind one address share its allowance.
pub struct Guard<L: Link, C: Clock> {
    link: L,
    clock: C,
    /// None where there is no limit.
    allowances: Option<Allowances>,
    receives: u64,
    failures: u64,
    /// Of whom the datagram is that the last receive handed on.
    last: Option<Addr>,
}

/// Written out, so that it is proved once and not wherever one is dropped.
impl<L: Link, C: Clock> Drop for Guard<L, C> {
    fn drop(self) {
        let Guard {
            link: _,
            clock: _,
            allowances: _,
            receives: _,
            failures: _,
            last: _,
        } = self;
    }
}

impl<L: Link, C: Clock> Model for Guard<L, C> {
    ghost use Rattle.sip_guard.specs.Guard.{GuardState};

    ghost Value = { GuardState };

    ghost view = { λ g. record {
      allowances = g.allowances;
      link = record {
        heard = L.heard g.link;
        fresh = L.fresh g.link;
        aside = L.aside g.link;
        given = L.given g.link;
        held = L.held g.link;
        waits = L.waits g.link;
        receives = L.receives g.link;
        failures = L.failures g.link;
      };
      readings = C.readings g.clock;
      receives = g.receives;
      failures = g.failures;
      last = g.last;
    } };
}

/// What becomes of the receive that heard the last of so many datagrams which were passed over: the link is asked again, unless they are
/// as many as may be.
fn instead_behind(passed: u64) -> Instead
    ensures { result ≡ Guarding.instead_behind passed }
{
    if passed < MOST_PASSED {
        Instead::AskedAgain
    } else {
        Instead::HeardNothing
    }
}

/// Of whom the datagram is that a receive answers.
fn handed_on(found: &Result<Option<Addr>, LinkFault>) -> Option<Addr>
    ensures { result ≡ Guarding.handed_on found.now }
{
    match found {
        Ok(from) => *from,
        Err(_) => None,
    }
}

/// Asks a link until it heard a datagram within its source's allowance, or nothing.
fn hear_within<L: Link>(
    link: &mut L,
    allowances: &mut Allowances,
) -> Result<Option<Addr>, LinkFault>
    requires { IsBounded allowances.old }
    ensures bounded { IsBounded allowances.new }
    ensures hears { Hears allowances.old allowances.new
        (record { heard = L.heard link.old; fresh = L.fresh link.old; aside = L.aside link.old; given = L.given link.old; held = L.held link.old; waits = L.waits link.old; receives = L.receives link.old; failures = L.failures link.old })
        (record { heard = L.heard link.new; fresh = L.fresh link.new; aside = L.aside link.new; given = L.given link.new; held = L.held link.new; waits = L.waits link.new; receives = L.receives link.new; failures = L.failures link.new })
        result }
    ensures tells { IfOk result (λ from. L.heard link.new ≡ and_then (L.heard link.old) (heard_of from (L.held link.new))) }
    ensures silent { OnErr result (L.heard link.new ≡ L.heard link.old) }
    ensures fresh { IfOk result (λ from. IfSome from (λ _. L.fresh link.new ≡ true)) }
    ensures given { L.given link.new ≡ L.given link.old }
    ensures waits { L.waits link.new ≡ L.waits link.old }
    ensures writable { IfOk result (λ from. IfSome from (λ source. IsWritable source (L.held link.new))) }
{
    let mut passed = 0;
    while passed < MOST_PASSED {
        let Some(from) = link.receive()? else {
            return Ok(None);
        };
        if allowances.admit(from.ip) {
            return Ok(Some(from));
        }
        passed += 1;
        link.set_aside(from, instead_behind(passed));
    }
    Ok(None)
}

impl<L: Link, C: Clock> Guard<L, C> {
    /// A guard of a link, which reads the moment from a clock. It hears so many datagrams a second from one IP address, by the limit of that rate;
    /// without a rate, or where a rate has no limit, it hands on all that the link hears. Of some IP addresses it hears always all, at whatever
    /// port. The keys are a secret, since who sends may choose the addresses that it sends from. `AllocError` is the only refusal; no other
    /// call takes memory.
    pub fn new(
        alloc: Global,
        keys: u128,
        link: L,
        clock: C,
        per_source: Option<u32>,
        always: Vec<[u8; 4]>,
    ) -> Result<Guard<L, C>, AllocError>
        ensures { IfOk result (λ guard. guard ≡ guard_over keys always.items per_source
            (record { heard = L.heard link; fresh = L.fresh link; aside = L.aside link; given = L.given link; held = L.held link; waits = L.waits link; receives = L.receives link; failures = L.failures link })
            (C.readings clock)) }
    {
        let limit = per_source.and_then(Limit::of_rate);
        let allowances = match limit {
            Some(limit) => Some(Allowances::new(alloc, keys, limit, always)?),
            None => None,
        };
        Ok(Guard {
            link,
            clock,
            allowances,
            receives: 0,
            failures: 0,
            last: None,
        })
    }

    /// The link under it.
    pub fn link(&self) -> &L
        ensures { self.now.link ≡ record { heard = L.heard result.now; fresh = L.fresh result.now; aside = L.aside result.now; given = L.given result.now; held = L.held result.now; waits = L.waits result.now; receives = L.receives result.now; failures = L.failures result.now } }
    {
        &self.link
    }

    /// Of whom the datagram is that the last receive handed on. None where it handed on none.
    pub fn last(&self) -> Option<Addr>
        ensures { result ≡ self.now.last }
    {
        self.last
    }

    /// How much of whom it didn't hand on since these counts began. None where there is no limit.
    pub fn unheard(&self) -> Option<&Unheard>
        ensures { option_map (λ unheard. unheard.now) result ≡ option_map (λ allowances. allowances.unheard) self.now.allowances }
    {
        match &self.allowances {
            Some(allowances) => Some(allowances.unheard()),
            None => None,
        }
    }

    /// These counts begin anew.
    pub fn clear_unheard(&mut self)
        ensures { self.new ≡ record self.old { allowances = option_map told_all self.old.allowances } }
    {
        if let Some(allowances) = &mut self.allowances {
            allowances.clear_unheard();
        }
    }

    /// Of these IP addresses it hears always all from now on, at whatever port, and of no others; each keeps the number that it has. Without a
    /// limit nothing changes. Takes no memory.
    pub fn hear_always(&mut self, always: Vec<[u8; 4]>)
        ensures { self.new ≡ record self.old { allowances = option_map (hearing always.items) self.old.allowances } }
    {
        if let Some(allowances) = &mut self.allowances {
            allowances.hear_always(always);
        }
    }

    /// The next datagram that is handed on.
    fn hear(&mut self) -> Result<Option<Addr>, LinkFault>
        ensures receives { self.new.receives ≡ self.old.receives }
        ensures failures { self.new.failures ≡ self.old.failures }
        ensures bounded { IfSome self.new.allowances IsBounded }
        ensures guards { Guards self.old.allowances self.old self.new result }
        ensures tells { IfOk result (λ from. self.new.link.heard ≡ and_then self.old.link.heard (heard_of from self.new.link.held)) }
        ensures silent { OnErr result (self.new.link.heard ≡ self.old.link.heard) }
        ensures fresh { IfOk result (λ from. IfSome from (λ _. self.new.link.fresh ≡ true)) }
        ensures given { self.new.link.given ≡ self.old.link.given }
        ensures waits { self.new.link.waits ≡ self.old.link.waits }
        ensures writable { IfOk result (λ from. IfSome from (λ source. IsWritable source self.new.link.held)) }
    {
        match &mut self.allowances {
            None => self.link.receive(),
            Some(allowances) => {
                allowances.reach(self.clock.now());
                hear_within(&mut self.link, allowances)
            }
        }
    }
}

impl<L: Link, C: Clock> Link for Guard<L, C> {
    ghost receives = { λ g. g.receives };

    ghost failures = { λ g. g.failures };

    ghost heard = { λ g. g.link.heard };

    ghost fresh = { λ g. g.link.fresh };

    ghost aside = { λ _. None };

    ghost given = { λ g. g.link.given };

    ghost held = { λ g. g.link.held };

    ghost waits = { λ g. g.link.waits };

    fn receive(&mut self) -> Result<Option<Addr>, LinkFault>
        ensures counted { self.new.receives ≡ counted self.old.receives }
        ensures ok { OnOk result (self.new.failures ≡ self.old.failures) }
        ensures err { OnErr result (self.new.failures ≡ counted self.old.failures) }
        ensures bounded { IfSome self.new.allowances IsBounded }
        ensures guards { Guards self.old.allowances self.old self.new result }
        ensures last { self.new.last ≡ Guarding.handed_on result }
        ensures tells { IfOk result (λ from. self.new.link.heard ≡ and_then self.old.link.heard (heard_of from self.new.link.held)) }
        ensures silent { OnErr result (self.new.link.heard ≡ self.old.link.heard) }
        ensures fresh { IfOk result (λ from. IfSome from (λ _. self.new.link.fresh ≡ true)) }
        ensures given { self.new.link.given ≡ self.old.link.given }
        ensures waits { self.new.link.waits ≡ self.old.link.waits }
        ensures writable { IfOk result (λ from. IfSome from (λ source. IsWritable source self.new.link.held)) }
    {
        self.receives = self.receives.saturating_add(1);
        let found = self.hear();
        self.last = handed_on(&found);
        if found.is_err() {
            self.failures = self.failures.saturating_add(1);
        }
        found
    }

    fn set_aside(&mut self, from: Addr, instead: Instead)
        ensures aside { self.old.link.fresh ≡ true
            → SetsAside (record { from = from; bytes = self.old.link.held }) instead self.old.link.heard self.new.link.heard self.old.link.aside self.new.link.aside }
        ensures allowances { self.new.allowances ≡ self.old.allowances }
        ensures readings { self.new.readings ≡ self.old.readings }
        ensures last { self.new.last ≡ self.old.last }
        ensures counted { self.new.receives ≡ self.old.receives }
        ensures failures { self.new.failures ≡ self.old.failures }
        ensures given { self.new.link.given ≡ self.old.link.given }
        ensures waits { self.new.link.waits ≡ self.old.link.waits }
    {
        self.link.set_aside(from, instead);
    }

    fn bytes(&self) -> &[u8] {
        self.link.bytes()
    }

    fn send(&mut self, to: Addr, bytes: &[u8]) -> Result<SendOutcome, AllocError>
        ensures receives { self.new.receives ≡ self.old.receives }
        ensures failures { self.new.failures ≡ self.old.failures }
        ensures allowances { self.new.allowances ≡ self.old.allowances }
        ensures readings { self.new.readings ≡ self.old.readings }
        ensures last { self.new.last ≡ self.old.last }
        ensures heard { self.new.link.heard ≡ self.old.link.heard }
        ensures asked { self.new.link.receives ≡ self.old.link.receives }
        ensures whole { self.new.link.failures ≡ self.old.link.failures }
        ensures sent { IfOk result (λ sending. self.new.link.given
            ≡ and_then self.old.link.given (record { to = to; bytes = bytes.now; sending = sending })) }
        ensures refused { OnErr result (self.new.link.given ≡ self.old.link.given) }
        ensures aside { self.new.link.aside ≡ self.old.link.aside }
        ensures waits { self.new.link.waits ≡ self.old.link.waits }
    {
        self.link.send(to, bytes)
    }

    fn wait(&mut self, milliseconds: u64)
        ensures waited { GrewBy milliseconds self.old.link.waits self.new.link.waits }
        ensures allowances { self.new.allowances ≡ self.old.allowances }
        ensures readings { self.new.readings ≡ self.old.readings }
        ensures last { self.new.last ≡ self.old.last }
        ensures counted { self.new.receives ≡ self.old.receives }
        ensures failures { self.new.failures ≡ self.old.failures }
        ensures heard { self.new.link.heard ≡ self.old.link.heard }
        ensures aside { self.new.link.aside ≡ self.old.link.aside }
        ensures given { self.new.link.given ≡ self.old.link.given }
        ensures asked { self.new.link.receives ≡ self.old.link.receives }
        ensures whole { self.new.link.failures ≡ self.old.link.failures }
    {
        self.link.wait(milliseconds);
    }
}
