//! Names of which no two are the same, as those of users and groups, gathered while a file is read.
ghost use Rattle.std.specs.Prelude.{◌≡◌, [], ◌∷◌, ◌++◌, length, not, if◌then◌else◌, IfOk, IfErr, OnErr};
ghost use Rattle.std.specs.List.{list_any};
ghost use Rattle.std.specs.Str.{bytes_eq};
ghost use Rattle.sip_config_values.specs.declared.refusal.Refusal.TheVariants.{NoMemory};
ghost use Rattle.sip_config_values.specs.InOrder.{texts_in_order, ArePlaced};

use crate::refusal::Refusal;
use std::alloc::Global;
use std::collections::HashMap;
use std::marker::Model;

/// Names in the order in which they came, no two of them the same. A name is found in constant time: names are
/// configured, so nobody who sends requests chooses where they fall.
#[derive(Drop)]
pub struct DistinctNames {
    /// Each name with its place in their order.
    places: HashMap<Vec<u8>, usize>,
}

impl Model for DistinctNames {
    ghost use Rattle.std.specs.Prelude.{ℕ, List};
    ghost use Rattle.sip_config_values.specs.InOrder.{texts_in_order, ArePlaced};

    ghost Value = { List (List ℕ) };

    ghost view = { λ n. texts_in_order n.places };

    ghost invariant = { λ n. ArePlaced n.places.entries };
}

/// Whether a name is among some, compared byte by byte.
fn is_among(places: &HashMap<Vec<u8>, usize>, name: &[u8]) -> bool
    requires { ArePlaced places.now.entries }
    ensures { result ≡ list_any (bytes_eq name.now) (texts_in_order places.now) }
{
    places.contains_key(name)
}

/// How many names there are.
fn count(places: &HashMap<Vec<u8>, usize>) -> usize
    requires { ArePlaced places.now.entries }
    ensures { result ≡ length (texts_in_order places.now) }
{
    places.len()
}

/// Adds a name behind those that are there, and says whether it wasn't among them.
fn add_to(alloc: Global, places: &mut HashMap<Vec<u8>, usize>, name: &[u8]) -> Result<bool, Refusal>
    requires { ArePlaced places.old.entries }
    ensures placed { ArePlaced places.new.entries }
    ensures new { IfOk result (λ new. new ≡ not (list_any (bytes_eq name.now) (texts_in_order places.old))) }
    ensures names { IfOk result (λ new. texts_in_order places.new
        ≡ (if new then texts_in_order places.old ++ name.now ∷ [] else texts_in_order places.old)) }
    ensures refused { IfErr result (λ e. e ≡ NoMemory) }
    ensures err { OnErr result (texts_in_order places.new ≡ texts_in_order places.old) }
{
    if is_among(places, name) {
        return Ok(false);
    }
    let copy = Vec::from_slice(alloc, name)?;
    let last = places.len();
    let _ = places.insert(copy, last)?;
    Ok(true)
}

impl DistinctNames {
    /// No names.
    pub fn new(alloc: Global) -> DistinctNames
        ensures { result ≡ [] }
    {
        DistinctNames {
            places: HashMap::new(alloc),
        }
    }

    /// Whether a name is among them, compared byte by byte. Takes constant time and no memory.
    pub fn has(&self, name: &[u8]) -> bool
        ensures { result ≡ list_any (bytes_eq name.now) self.now }
    {
        is_among(&self.places, name)
    }

    /// How many they are.
    pub fn len(&self) -> usize
        ensures { result ≡ length self.now }
    {
        count(&self.places)
    }

    /// Adds a name behind those that are there, and says whether it wasn't among them; where it was, nothing
    /// is added. NoMemory is the only refusal, after which the names are as they were.
    pub fn add(&mut self, alloc: Global, name: &[u8]) -> Result<bool, Refusal>
        ensures new { IfOk result (λ new. new ≡ not (list_any (bytes_eq name.now) self.old)) }
        ensures names { IfOk result (λ new. self.new ≡ (if new then self.old ++ name.now ∷ [] else self.old)) }
        ensures refused { IfErr result (λ e. e ≡ NoMemory) }
        ensures err { OnErr result (self.new ≡ self.old) }
    {
        add_to(alloc, &mut self.places, name)
    }
}
