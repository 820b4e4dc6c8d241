ghost use Rattle.std.specs.Prelude.{◌≡◌, ℕ, ◌++◌, [], ◌∷◌, nat_eq, if◌then◌else◌, IfOk, OnOk};
ghost use Rattle.sip_policy_index.specs.Code.{is_of_operation, is_of_class};
ghost use Rattle.sip_policy_index.specs.Places.{filed, AreFiled};

use crate::code::{class_code, operation_code};
use sip_policy::Rule;
use sip_text::Items;
use std::alloc::{AllocError, Global};
use std::collections::HashMap;
use std::marker::Model;

/// Places of rules, rising, filed under codes. The codes come from what is configured, so nobody who sends requests
/// chooses where they fall.
#[derive(Drop)]
pub(crate) struct RulePlaces {
    by_code: HashMap<u64, Items<usize>>,
}

impl Model for RulePlaces {
    ghost use Rattle.std.specs.Prelude.{ℕ, List};

    ghost Value = { List (ℕ × List ℕ) };

    ghost view = { λ p. p.by_code.entries };
}

impl RulePlaces {
    /// None.
    fn new(alloc: Global) -> Self
        ensures { result ≡ [] }
    {
        RulePlaces {
            by_code: HashMap::new(alloc),
        }
    }

    /// The places under a code. Takes no memory.
    pub(crate) fn of(&self, code: u64) -> &[usize]
        ensures { result.now ≡ filed code self.now }
    {
        match self.by_code.get(&code) {
            Some(places) => places.as_slice(),
            None => &[],
        }
    }

    /// Files a place under a code, behind those that are there.
    fn file(&mut self, alloc: Global, code: u64, at: usize) -> Result<(), AllocError>
        ensures { OnOk result ((other : ℕ) → filed other self.new
            ≡ (if nat_eq code other then filed other self.old ++ at ∷ [] else filed other self.old)) }
    {
        if let Some(places) = self.by_code.get_mut(&code) {
            return places.push(at);
        }
        let mut places = Items::new(alloc);
        places.push(at)?;
        self.by_code.insert(code, places)?;
        Ok(())
    }

    /// Rules, filed under the codes of their operation patterns.
    pub(crate) fn by_operation(alloc: Global, rules: &[Rule]) -> Result<RulePlaces, AllocError>
        ensures { IfOk result (AreFiled is_of_operation rules.now) }
    {
        let mut places = RulePlaces::new(alloc);
        for (at, rule) in rules.iter().enumerate() {
            places.file(alloc, operation_code(&rule.operation), at)?;
        }
        Ok(places)
    }

    /// Rules, filed under the codes of their operation and user patterns.
    pub(crate) fn by_class(alloc: Global, rules: &[Rule]) -> Result<RulePlaces, AllocError>
        ensures { IfOk result (AreFiled is_of_class rules.now) }
    {
        let mut places = RulePlaces::new(alloc);
        for (at, rule) in rules.iter().enumerate() {
            places.file(
                alloc,
                class_code(operation_code(&rule.operation), &rule.who),
                at,
            )?;
        }
        Ok(places)
    }
}
