ghost use Rattle.std.specs.Prelude.{◌≡◌, [], ◌∷◌, ◌++◌, not, if◌then◌else◌, IfOk, IfErr, OnErr};
ghost use Rattle.std.specs.List.{list_any};
ghost use Rattle.sip_text.specs.Words.{without_case};
ghost use Rattle.sip_config_values.specs.declared.refusal.Refusal.TheVariants.{NoMemory};
ghost use Rattle.sip_config_values.specs.InOrder.{places_in_order, ArePlaced};
ghost use Rattle.sip_config.specs.HostPorts.{is_place};

use sip_config_values::Refusal;
use sip_text::lower_case;
use std::alloc::Global;
use std::collections::HashMap;
use std::marker::Model;

/// The hosts and ports that rows are for, in their order, no two of them the same; the letters of a host are small
/// ones. A host and a port are found in constant time, however many others there are.
#[derive(Drop)]
pub(crate) struct HostPorts {
    /// Each host and port with its place in their order.
    places: HashMap<(Vec<u8>, u16), usize>,
}

impl Model for HostPorts {
    ghost use Rattle.std.specs.Prelude.{ℕ, List};
    ghost use Rattle.sip_config_values.specs.InOrder.{places_in_order, ArePlaced};

    ghost Value = { List (List ℕ × ℕ) };

    ghost view = { λ p. places_in_order p.places };

    ghost invariant = { λ p. ArePlaced p.places.entries };
}

/// Adds a host and a port behind those that are there, and says whether they weren't among them.
fn add_to(
    alloc: Global,
    places: &mut HashMap<(Vec<u8>, u16), usize>,
    host: &[u8],
    port: u16,
) -> Result<bool, Refusal>
    requires { ArePlaced places.old.entries }
    ensures placed { ArePlaced places.new.entries }
    ensures new { IfOk result (λ new. new ≡ not (list_any (is_place host.now port) (places_in_order places.old))) }
    ensures places { IfOk result (λ new. places_in_order places.new
        ≡ (if new then places_in_order places.old ++ (without_case host.now, port) ∷ [] else places_in_order places.old)) }
    ensures refused { IfErr result (λ e. e ≡ NoMemory) }
    ensures err { OnErr result (places_in_order places.new ≡ places_in_order places.old) }
{
    let lower = lower_case(alloc, host)?;
    let copy = Vec::from_slice(alloc, lower.as_slice())?;
    let place = (copy, port);
    if places.contains_key(&place) {
        return Ok(false);
    }
    let last = places.len();
    let _ = places.insert(place, last)?;
    Ok(true)
}

impl HostPorts {
    /// No places.
    pub(crate) fn new(alloc: Global) -> HostPorts
        ensures { result ≡ [] }
    {
        HostPorts {
            places: HashMap::new(alloc),
        }
    }

    /// Adds a host and a port behind those that are there, and says whether they weren't among them, the host
    /// compared without case; where they were, nothing is added. NoMemory is the only refusal,
    /// after which they are as they were.
    pub(crate) fn add(&mut self, alloc: Global, host: &[u8], port: u16) -> Result<bool, Refusal>
        ensures new { IfOk result (λ new. new ≡ not (list_any (is_place host.now port) self.old)) }
        ensures places { IfOk result (λ new. self.new ≡ (if new then self.old ++ (without_case host.now, port) ∷ [] else self.old)) }
        ensures refused { IfErr result (λ e. e ≡ NoMemory) }
        ensures err { OnErr result (self.new ≡ self.old) }
    {
        add_to(alloc, &mut self.places, host, port)
    }
}
