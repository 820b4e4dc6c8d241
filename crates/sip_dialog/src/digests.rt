//! The digests of the dialogs' names, put in, moved and taken out with the rows. What is hashed, and under which secret, is in `rows`.
ghost use Rattle.std.specs.Prelude.{◌≡◌, ◌≤◌, ◌<◌, ◌+◌, ◌&&◌, ◌++◌, ◌∷◌, [], ℕ, Some, false, length, is_some, nat_eq, swap, swap_remove};
ghost use Rattle.std.specs.Prelude.{if◌then◌else◌, IsOk, OnOk, OnErr};
ghost use Rattle.std.specs.HashMap.{get, spare};
ghost use Rattle.sip_dialog.specs.Digests.{IsPlace};

use std::alloc::{AllocError, Global};
use std::collections::HashMap;
use std::marker::Model;

/// Digests of 64 bits in their order, each found in constant time. Seen as the list of them, whether two may be
/// equal, and how many more can be put in with no memory.
#[derive(Drop)]
pub(crate) struct Digests {
    list: Vec<u64>,
    places: HashMap<u64, usize>,
    /// Whether one was ever put in that stood already, which digests under a secret as good as never do: from then
    /// on the places say nothing.
    is_shared: bool,
}

impl Model for Digests {
    ghost use Rattle.sip_dialog.specs.Digests.{DigestList};

    ghost Value = { DigestList };

    ghost use Rattle.std.specs.Prelude.{◌≡◌, ◌-◌, ℕ, false, min, nat_eq, vec_len, vec_capacity};
    ghost use Rattle.std.specs.HashMap.{get, spare};
    ghost use Rattle.sip_dialog.specs.Digests.{AreFound};

    ghost view = { λ d. record {
      list = d.list.items;
      is_shared = d.is_shared;
      room = min (spare d.places) (vec_capacity d.list - vec_len d.list);
    } };

    ghost invariant = { λ d. d.is_shared ≡ false → AreFound d.list.items (λ digest. get nat_eq d.places digest) };
}

/// Says where a digest stands now, if it is found.
fn move_to(places: &mut HashMap<u64, usize>, digest: u64, at: usize)
    ensures places { (q : ℕ) → get nat_eq places.new q
        ≡ (if nat_eq digest q && is_some (get nat_eq places.old q) then Some at else get nat_eq places.old q) }
    ensures room { spare places.new ≡ spare places.old }
{
    if let Some(place) = places.get_mut(&digest) {
        *place = at;
    }
}

impl Digests {
    /// No digest.
    pub(crate) fn new(alloc: Global) -> Self
        ensures { result.list ≡ [] }
    {
        Digests {
            list: Vec::new(alloc),
            places: HashMap::new(alloc),
            is_shared: false,
        }
    }

    /// Makes room for one more digest.
    pub(crate) fn reserve(&mut self) -> Result<(), AllocError>
        ensures list { self.new.list ≡ self.old.list }
        ensures ok { OnOk result (1 ≤ self.new.room) }
        ensures room { self.old.room ≤ self.new.room }
    {
        self.list.reserve(1)?;
        self.places.reserve(1)
    }

    /// Whether two may be equal: none can be found then.
    pub(crate) fn is_shared(&self) -> bool
        ensures { result ≡ self.now.is_shared }
    {
        self.is_shared
    }

    /// Where a digest stands.
    pub(crate) fn find(&self, digest: u64) -> Option<usize>
        requires { self.now.is_shared ≡ false }
        ensures { IsPlace digest self.now.list result }
    {
        self.places.get(&digest).copied()
    }

    /// Puts a digest behind the others.
    pub(crate) fn push(&mut self, digest: u64) -> Result<(), AllocError>
        ensures ok { OnOk result (self.new.list ≡ self.old.list ++ digest ∷ []) }
        ensures err { OnErr result (self.new.list ≡ self.old.list) }
        ensures room { 1 ≤ self.old.room → IsOk result }
        ensures left { self.old.room ≤ self.new.room + 1 }
    {
        self.list.reserve(1)?;
        let before = self.places.insert(digest, self.list.len())?;
        self.list.push_reserved(digest);
        self.is_shared = self.is_shared || before.is_some();
        Ok(())
    }

    #[tactic(auto, using(crate::proofs::Finding::swap_self))]
    /// Two digests change places.
    pub(crate) fn swap(&mut self, a: usize, b: usize)
        requires a { a < length self.old.list }
        requires b { b < length self.old.list }
        ensures list { self.new.list ≡ swap self.old.list a b }
        ensures room { self.old.room ≤ self.new.room }
    {
        if a == b {
            return;
        }
        let (first, second) = (self.list[a], self.list[b]);
        self.list.swap(a, b);
        move_to(&mut self.places, first, b);
        move_to(&mut self.places, second, a);
    }

    /// Takes a digest out. The last one takes its place.
    pub(crate) fn swap_remove(&mut self, at: usize)
        requires { at < length self.old.list }
        ensures list { self.new.list ≡ swap_remove self.old.list at 0 }
        ensures room { self.old.room ≤ self.new.room }
    {
        let digest = self.list.swap_remove(at);
        let _place = self.places.remove(&digest);
        if at < self.list.len() {
            move_to(&mut self.places, self.list[at], at);
        }
    }
}
