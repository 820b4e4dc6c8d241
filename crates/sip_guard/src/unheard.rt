//! How many datagrams weren't handed on, and whose, for the lines that the program prints of them (`sipd_service`).
ghost use Rattle.std.specs.Prelude.{◌≡◌, ◌≤◌, length, position, vec_capacity, IfOk};
ghost use Rattle.sip_transport.specs.Told.{counted};
ghost use Rattle.sip_guard.specs.Unheard.{most_sources, none_unheard, noted, is_of, sources_behind};

use std::alloc::{AllocError, Global};
use std::marker::Model;

/// How many sources are counted one by one.
const MOST_SOURCES: usize = 32;

/// How many datagrams of one IP address weren't handed on.
#[derive(Clone, Copy, Debug, PartialEq, Eq)]
pub struct UnheardSource {
    pub ip: [u8; 4],
    pub count: u64,
}

/// How many datagrams weren't handed on, in all and by source. Counts end at 2^64 - 1, and the first 32 sources are counted one
/// by one.
#[derive(Drop)]
pub struct Unheard {
    total: u64,
    sources: Vec<UnheardSource>,
}

impl Model for Unheard {
    ghost use Rattle.std.specs.Prelude.{◌≤◌, length, vec_capacity};
    ghost use Rattle.sip_guard.specs.Unheard.{UnheardCounts, most_sources};

    ghost Value = { UnheardCounts };

    ghost view = { λ u. record { total = u.total; sources = u.sources.items } };

    ghost invariant = { λ u. (most_sources ≤ vec_capacity u.sources) × (length u.sources.items ≤ most_sources) };
}

/// Where the count of a source is.
fn place_of(sources: &[UnheardSource], ip: [u8; 4]) -> Option<usize>
    ensures { result ≡ position (is_of ip) sources.now }
{
    sources.iter().position(|source| source.ip == ip)
}

/// One more of a source.
fn count_one(source: &mut UnheardSource)
    ensures { source.new ≡ record source.old { count = counted source.old.count } }
{
    source.count = source.count.saturating_add(1);
}

/// Counts one more datagram of a source, if there is room for that.
fn note_source(sources: &mut Vec<UnheardSource>, ip: [u8; 4])
    requires room { most_sources ≤ vec_capacity sources.old }
    requires few { length sources.old.items ≤ most_sources }
    ensures noted { sources.new.items ≡ sources_behind ip sources.old.items }
    ensures room { vec_capacity sources.new ≡ vec_capacity sources.old }
    ensures few { length sources.new.items ≤ most_sources }
{
    match place_of(sources.as_slice(), ip) {
        Some(place) => count_one(&mut sources[place]),
        None if sources.len() < MOST_SOURCES => {
            sources.push_reserved(UnheardSource { ip, count: 1 });
        }
        None => {}
    }
}

impl Unheard {
    /// None. Makes room for all sources. `AllocError` is the only refusal.
    pub(crate) fn new(alloc: Global) -> Result<Unheard, AllocError>
        ensures { IfOk result (λ unheard. unheard ≡ none_unheard) }
    {
        Ok(Unheard {
            total: 0,
            sources: Vec::with_capacity(alloc, MOST_SOURCES)?,
        })
    }

    /// How many in all.
    pub fn total(&self) -> u64
        ensures { result ≡ self.now.total }
    {
        self.total
    }

    /// Of whom how many.
    pub fn sources(&self) -> &[UnheardSource]
        ensures { result.now ≡ self.now.sources }
    {
        self.sources.as_slice()
    }

    /// Counts one more datagram of a source.
    pub(crate) fn note(&mut self, ip: [u8; 4])
        ensures noted { self.new ≡ noted self.old ip }
        ensures few { length self.new.sources ≤ most_sources }
    {
        self.total = self.total.saturating_add(1);
        note_source(&mut self.sources, ip);
    }

    /// Begins anew.
    pub(crate) fn clear(&mut self)
        ensures { self.new ≡ none_unheard }
    {
        self.total = 0;
        self.sources.clear();
    }
}
