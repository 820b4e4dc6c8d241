//! What each source has used of its allowance, for at most 4,096 sources, in constant time for each datagram and without memory.
//! How much a source may use is said in `limit`.
ghost use Rattle.std.specs.Prelude.{◌≡◌, ◌≤◌, ◌+◌, ℕ, List, [], true, false, length, is_some, IfOk, if◌then◌else◌};
ghost use Rattle.std.specs.HashMap.{hasher_of, spare};
ghost use Rattle.std.specs.Map.{lookup};
ghost use Rattle.sip_base.specs.KeyedHasher.{fed_first};
ghost use Rattle.sip_guard.specs.Allowance.{admits};
ghost use Rattle.sip_guard.specs.Sources.{no_sources, AreFew, half, same_ip, number_in, used_of, fits_in, IsPut, IsCharged};

use crate::limit::Limit;
use sip_base::KeyedHasher;
use std::alloc::{AllocError, Global};
use std::collections::HashMap;
use std::marker::Model;
use std::mem::swap;

/// How many sources each of the two tables has room for.
const HALF: usize = 2048;

/// The numbers of sources, hashed under a secret, since who sends may choose the addresses that it sends from.
type Numbers = HashMap<[u8; 4], u128, KeyedHasher>;

/// The numbers of 4,096 sources at most. Two tables take turns: one whose sources are all idle is cleared whole, so that no call
/// looks for idle ones, and none takes memory.
#[derive(Drop)]
pub(crate) struct Sources {
    recent: Numbers,
    earlier: Numbers,
    /// No number among those of late is greater.
    recent_until: u128,
    /// No number among the earlier ones is greater.
    earlier_until: u128,
}

impl Model for Sources {
    ghost use Rattle.std.specs.Prelude.{◌≡◌, ◌≤◌, ◌+◌, ℕ, List, length};
    ghost use Rattle.std.specs.HashMap.{hasher_of, spare};
    ghost use Rattle.sip_guard.specs.Sources.{SourceTable, half, number_in};

    ghost Value = { SourceTable };

    ghost view = { λ s. record {
      secret = hasher_of s.recent;
      recent = s.recent.entries;
      earlier = s.earlier.entries;
      recent_until = s.recent_until;
      earlier_until = s.earlier_until;
    } };

    ghost invariant = { λ s. (hasher_of s.earlier ≡ hasher_of s.recent) × (length s.recent.entries ≤ half) × (length s.earlier.entries ≤ half)
        × (half ≤ length s.recent.entries + spare s.recent) × (half ≤ length s.earlier.entries + spare s.earlier)
        × ((ip : List ℕ) → number_in ip s.recent.entries ≤ s.recent_until) × ((ip : List ℕ) → number_in ip s.earlier.entries ≤ s.earlier_until) };
}

/// An empty table with room for its sources, hashed under a secret of these keys.
fn table(alloc: Global, keys: u128) -> Result<Numbers, AllocError>
    ensures none { IfOk result (λ table. table.entries ≡ []) }
    ensures secret { IfOk result (λ table. hasher_of table ≡ fed_first keys) }
    ensures room { IfOk result (λ table. half ≤ spare table) }
{
    HashMap::with_capacity_and_hasher(alloc, HALF, KeyedHasher::new(keys))
}

/// The number of a source in a table.
fn number_in(table: &Numbers, ip: [u8; 4]) -> u128
    ensures { result ≡ number_in ip table.now.entries }
{
    match table.get(&ip) {
        Some(number) => *number,
        None => 0,
    }
}

/// Gives a source a number in a table, and says whether it found room there.
fn put(table: &mut Numbers, ip: [u8; 4], number: u128) -> bool
    requires room { half ≤ length table.old.entries + spare table.old }
    requires few { length table.old.entries ≤ half }
    ensures found { result ≡ fits_in ip table.old.entries }
    ensures full { result ≡ false → table.new ≡ table.old }
    ensures numbers { result ≡ true → (other : List ℕ) → number_in other table.new.entries
        ≡ (if same_ip ip other then number else number_in other table.old.entries) }
    ensures more { length table.new.entries
        ≤ (if is_some (lookup (same_ip ip) table.old.entries) then length table.old.entries else length table.old.entries + 1) }
    ensures room { half ≤ length table.new.entries + spare table.new }
    ensures secret { hasher_of table.new ≡ hasher_of table.old }
    ensures few { length table.new.entries ≤ half }
{
    if let Some(place) = table.get_mut(&ip) {
        *place = number;
        return true;
    }
    if table.len() >= HALF {
        return false;
    }
    let inserted: Result<_, _> = table.insert(ip, number);
    let _none = inserted.unwrap();
    true
}

impl Sources {
    /// No source, under a secret of these keys. Makes room for all that will be. `AllocError` is the only refusal.
    pub(crate) fn new(alloc: Global, keys: u128) -> Result<Sources, AllocError>
        ensures { IfOk result (λ sources. sources ≡ no_sources (fed_first keys)) }
    {
        Ok(Sources {
            recent: table(alloc, keys)?,
            earlier: table(alloc, keys)?,
            recent_until: 0,
            earlier_until: 0,
        })
    }

    /// The number of a source.
    fn used_of(&self, ip: [u8; 4]) -> u128
        ensures number { result ≡ used_of ip self.now }
        ensures few { AreFew self.now }
    {
        number_in(&self.recent, ip).max(number_in(&self.earlier, ip))
    }

    /// Those of late become the earlier ones, which are forgotten: only where half the table is full of sources.
    fn forget_earlier(&mut self)
        ensures { self.new ≡ record { secret = self.old.secret; recent = []; earlier = self.old.recent; recent_until = 0; earlier_until = self.old.recent_until } }
    {
        self.earlier.clear();
        swap(&mut self.recent, &mut self.earlier);
        self.earlier_until = self.recent_until;
        self.recent_until = 0;
    }

    /// Gives a source its number, if it finds room at a moment.
    fn charge(&mut self, ip: [u8; 4], number: u128, moment: u128)
        requires { used_of ip self.old ≤ number }
        ensures put { IsPut moment ip number self.old self.new }
        ensures few { AreFew self.new }
    {
        if put(&mut self.recent, ip, number) {
            self.recent_until = self.recent_until.max(number);
            return;
        }
        if self.earlier_until <= moment {
            self.forget_earlier();
            put(&mut self.recent, ip, number);
            self.recent_until = number;
        } else if put(&mut self.earlier, ip, number) {
            self.earlier_until = self.earlier_until.max(number);
        }
    }

    /// Whether a datagram of a source is within its allowance at a moment. If it is, it is counted.
    pub(crate) fn admit(&mut self, limit: Limit, ip: [u8; 4], now: u64) -> bool
        ensures few { AreFew self.new }
        ensures within { result ≡ admits limit (used_of ip self.old) now }
        ensures beyond { result ≡ false → self.new ≡ self.old }
        ensures charged { result ≡ true → IsCharged limit now ip self.old self.new }
    {
        match limit.number_behind(self.used_of(ip), now) {
            None => false,
            Some(number) => {
                self.charge(ip, number, limit.moment_of(now));
                true
            }
        }
    }
}
