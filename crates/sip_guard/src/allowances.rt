//! Whether a datagram is within the allowance of its source, and the count of those that aren't. `guard` asks it for each that comes.
ghost use Rattle.std.specs.Prelude.{◌≡◌, true, false, IfOk};
ghost use Rattle.sip_guard.specs.Guard.{allowances_of, hearing, is_among, reached, told_all, IsBounded, is_within, IsAdmitted};
ghost use Rattle.sip_guard.specs.Unheard.{noted};

use crate::limit::Limit;
use crate::sources::Sources;
use crate::unheard::Unheard;
use std::alloc::{AllocError, Global};
use std::marker::Model;

/// What each source used of its allowance, and how much of whom wasn't handed on.
#[derive(Drop)]
pub(crate) struct Allowances {
    limit: Limit,
    /// The IP addresses that are heard always: few, since they are gone through for each datagram.
    always: Vec<[u8; 4]>,
    /// The latest moment that is known, in milliseconds.
    present: u64,
    sources: Sources,
    unheard: Unheard,
}

impl Model for Allowances {
    ghost use Rattle.sip_guard.specs.Guard.{AllowanceState, IsBounded};

    ghost Value = { AllowanceState };

    ghost view = { λ a. record { limit = a.limit; always = a.always.items; present = a.present; sources = a.sources; unheard = a.unheard } };

    ghost invariant = { λ a. IsBounded (record { limit = a.limit; always = a.always.items; present = a.present; sources = a.sources; unheard = a.unheard }) };
}

/// Whether an IP address is among these.
fn is_among(always: &[[u8; 4]], ip: [u8; 4]) -> bool
    ensures { result ≡ is_among always.now ip }
{
    always.iter().any(|other| *other == ip)
}

impl Allowances {
    /// No source yet; what is kept of them is hashed under a secret of these keys. Makes room for all. `AllocError` is the only refusal.
    pub(crate) fn new(
        alloc: Global,
        keys: u128,
        limit: Limit,
        always: Vec<[u8; 4]>,
    ) -> Result<Allowances, AllocError>
        ensures { IfOk result (λ allowances. allowances ≡ allowances_of keys always.items limit) }
    {
        Ok(Allowances {
            limit,
            always,
            present: 0,
            sources: Sources::new(alloc, keys)?,
            unheard: Unheard::new(alloc)?,
        })
    }

    /// The clock says this, in milliseconds. It doesn't go back here.
    pub(crate) fn reach(&mut self, reading: u64)
        ensures reached { self.new ≡ reached self.old reading }
        ensures bounded { IsBounded self.new }
    {
        self.present = self.present.max(reading);
    }

    /// Whether a datagram of a source is handed on now: one that is heard always isn't charged. One that isn't handed on is counted as
    /// unheard.
    pub(crate) fn admit(&mut self, ip: [u8; 4]) -> bool
        ensures bounded { IsBounded self.new }
        ensures within { result ≡ is_within self.old ip }
        ensures beyond { result ≡ false → self.new ≡ record self.old { unheard = noted self.old.unheard ip } }
        ensures admitted { result ≡ true → IsAdmitted self.old ip self.new }
    {
        if is_among(self.always.as_slice(), ip) {
            return true;
        }
        let is_within = self.sources.admit(self.limit, ip, self.present);
        if !is_within {
            self.unheard.note(ip);
        }
        is_within
    }

    /// How much of whom wasn't handed on.
    pub(crate) fn unheard(&self) -> &Unheard
        ensures { result.now ≡ self.now.unheard }
    {
        &self.unheard
    }

    /// These IP addresses are heard always from now on, and no others.
    pub(crate) fn hear_always(&mut self, always: Vec<[u8; 4]>)
        ensures { self.new ≡ hearing always.items self.old }
    {
        self.always = always;
    }

    /// Counts of the unheard begin anew.
    pub(crate) fn clear_unheard(&mut self)
        ensures { self.new ≡ told_all self.old }
    {
        self.unheard.clear();
    }
}
