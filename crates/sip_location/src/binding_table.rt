//! Where the rows of each address of record stand: found by a code in constant time, however many addresses there are.
ghost use Rattle.std.specs.Prelude.{◌≡◌, ◌≤◌, ◌<◌, ◌-◌, ◌++◌, ◌==◌, ℕ, [], false, not, filter, nat_eq, vec_len, vec_capacity, OnOk};
ghost use Rattle.std.specs.Prelude.{◌≢◌, ◌∷◌, true, MatchOption, IfSome, option_to_list, if◌then◌else◌};
ghost use Rattle.std.specs.HashMap.{get, spare, values};
ghost use Rattle.std.specs.List.{AllByRecursion};
ghost use Rattle.std.specs.Option.{option_map_or};
ghost use Rattle.sip_uri.specs.declared.aor.Aor.{Aor};
ghost use Rattle.sip_location.specs.Alive.{lives, LivesAlike};
ghost use Rattle.sip_location.specs.Binding.{live};
ghost use Rattle.sip_location.specs.AorBindings.{bindings_of, is_filed_of, first_rows, with_rows, IsReplaced};
ghost use Rattle.sip_location.specs.Locations.{of_aor};

use crate::aor_bindings::AorBindings;
use crate::aor_ref::AorRef;
use crate::code::code_of;
use crate::read_binding::is_live_row;
use crate::row::BindingRow;
use sip_uri::Aor;
use std::alloc::{AllocError, Global};
use std::collections::HashMap;
use std::marker::Model;

/// The rows of addresses of record: each address's under its code, or, where that is the code of another address that has
/// rows, in a crowd, which is nearly always empty.
#[derive(Drop)]
pub(crate) struct BindingTable {
    by_code: HashMap<u64, AorBindings>,
    crowd: Vec<AorBindings>,
}

impl Model for BindingTable {
    ghost use Rattle.std.specs.Prelude.{◌-◌, min, nat_eq, vec_len, vec_capacity};
    ghost use Rattle.std.specs.HashMap.{get, spare};
    ghost use Rattle.sip_location.specs.AorBindings.{rows_in, AreFiled};
    ghost use Rattle.sip_location.specs.Locations.{LocationService};

    ghost Value = { LocationService };

    ghost view = { λ f. record {
      rows = rows_in (λ code. get nat_eq f.by_code code) f.crowd.items;
      room = min (spare f.by_code) (vec_capacity f.crowd - vec_len f.crowd);
    } };

    ghost invariant = { λ f. AreFiled (λ code. get nat_eq f.by_code code) f.crowd.items };
}

impl BindingTable {
    /// No rows. Takes no memory.
    pub(crate) fn new(alloc: Global) -> Self
        ensures { result.rows ≡ [] }
    {
        BindingTable {
            by_code: HashMap::new(alloc),
            crowd: Vec::new(alloc),
        }
    }

    pub(crate) fn alloc(&self) -> Global {
        *self.crowd.allocator()
    }

    /// What is kept of an address of record, expired bindings, too.
    pub(crate) fn rows_of(&self, aor: &Aor) -> &[BindingRow]
        ensures { bindings_of aor.now result.now ≡ of_aor aor.now self.now.rows }
    {
        self.rows_at(&AorRef::of(aor))
    }

    /// The same of an address of record that is lent.
    fn rows_at(&self, asked: &AorRef<'_>) -> &[BindingRow]
        ensures { bindings_of asked.now result.now ≡ of_aor asked.now self.now.rows }
    {
        if let Some(filed) = self.by_code.get(&code_of(asked)) {
            if filed.aor.is_same(asked) {
                return filed.rows.as_slice();
            }
        }
        rows_among(&self.crowd, asked)
    }

    /// Only where each address of record that has rows here has the same live ones in another filing, in their order. Takes no
    /// memory; a look-up for each.
    pub(crate) fn lives_in(&self, other: &BindingTable, now: u64) -> bool
        ensures { result ≡ true → (aor : Aor) → of_aor aor self.now.rows ≢ []
            → live aor now self.now.rows ≡ live aor now other.now.rows }
    {
        if !all_under_codes(&self.by_code, other, now) {
            return false;
        }
        all_in_crowd(self.crowd.as_slice(), other, now)
    }

    /// Makes room for one address more, whatever its code. `AllocError` is the only refusal.
    pub(crate) fn reserve_one(&mut self) -> Result<(), AllocError>
        ensures rows { self.new.rows ≡ self.old.rows }
        ensures ok { OnOk result (1 ≤ self.new.room) }
    {
        self.crowd.reserve(1)?;
        self.by_code.reserve(1)
    }

    /// Files rows under their address of record, in place of what is filed there. Without rows nothing is. Takes no memory.
    pub(crate) fn file(&mut self, filed: AorBindings)
        requires { 1 ≤ self.old.room }
        ensures { IsReplaced self.old.rows filed.aor filed.rows self.new.rows }
    {
        let aor = filed.aor.lent();
        let code = code_of(&aor);
        let is_taken = is_of_another(&self.by_code, code, &aor);
        leave(&mut self.crowd, &aor);
        if is_taken {
            join(&mut self.crowd, filed);
        } else {
            put(&mut self.by_code, code, filed);
        }
    }
}

/// The first row that lives, and those behind it.
fn next_live(rows: &[BindingRow], now: u64) -> Option<(&BindingRow, &[BindingRow])>
    ensures { MatchOption result (lives now rows.now ≡ []) (λ found. lives now rows.now ≡ found.0.now ∷ lives now found.1.now) }
{
    let mut rest = rows;
    while let Some((first, others)) = rest.split_first() {
        if is_live_row(first, now) {
            return Some((first, others));
        }
        rest = others;
    }
    None
}

/// What is left of some rows behind the first that lives, only where that is the same as another row; all, where that one doesn't
/// live.
fn behind_same<'a>(row: &BindingRow, rest: &'a [BindingRow], now: u64) -> Option<&'a [BindingRow]>
    ensures { IfSome result (λ left. lives now rest.now ≡ lives now (row.now ∷ []) ++ lives now left.now) }
{
    if !is_live_row(row, now) {
        return Some(rest);
    }
    let (first, others) = next_live(rest, now)?;
    if !row.is_same(first) {
        return None;
    }
    Some(others)
}

/// Only where of two lists of rows the same live, in their order.
fn live_alike(left: &[BindingRow], right: &[BindingRow], now: u64) -> bool
    ensures { result ≡ true → lives now left.now ≡ lives now right.now }
{
    let mut rest = right;
    for row in left {
        let Some(others) = behind_same(row, rest, now) else {
            return false;
        };
        rest = others;
    }
    match next_live(rest, now) {
        Some(_) => false,
        None => true,
    }
}

/// Only where the address of record of what is filed has the same live rows in a filing.
fn lives_alike(filed: &AorBindings, other: &BindingTable, now: u64) -> bool
    ensures { result ≡ true → LivesAlike other.now.rows now filed.now }
{
    let aor = filed.aor.lent();
    live_alike(filed.rows.as_slice(), other.rows_at(&aor), now)
}

/// Only where that is so of all that stands under codes.
fn all_under_codes(by_code: &HashMap<u64, AorBindings>, other: &BindingTable, now: u64) -> bool
    ensures { result ≡ true → AllByRecursion (LivesAlike other.now.rows now) (values by_code.now) }
{
    for filed in by_code.values() {
        if !lives_alike(filed, other, now) {
            return false;
        }
    }
    true
}

/// Only where that is so of each in a crowd.
fn all_in_crowd(crowd: &[AorBindings], other: &BindingTable, now: u64) -> bool
    ensures { result ≡ true → AllByRecursion (LivesAlike other.now.rows now) crowd.now }
{
    for filed in crowd {
        if !lives_alike(filed, other, now) {
            return false;
        }
    }
    true
}

/// The rows of an address of record in a crowd; where it has none, no rows.
#[tactic(auto, using(std::proofs::lemmas::List::at_drop_more, std::proofs::lemmas::List::drop_all))]
fn rows_among<'a>(crowd: &'a [AorBindings], aor: &AorRef<'_>) -> &'a [BindingRow]
    ensures { result.now ≡ first_rows (filter (is_filed_of aor.now) crowd.now) }
{
    for filed in crowd {
        if filed.aor.is_same(aor) {
            return filed.rows.as_slice();
        }
    }
    &[]
}

/// Whether the rows of another address of record stand under a code.
fn is_of_another(by_code: &HashMap<u64, AorBindings>, code: u64, aor: &AorRef<'_>) -> bool
    ensures { result ≡ option_map_or (λ filed. not (is_filed_of aor.now filed)) (get nat_eq by_code.now code) false }
{
    match by_code.get(&code) {
        Some(filed) => !filed.aor.is_same(aor),
        None => false,
    }
}

/// Takes an address of record out of a crowd.
fn leave(crowd: &mut Vec<AorBindings>, aor: &AorRef<'_>)
    ensures left { crowd.new.items ≡ filter (λ filed. not (is_filed_of aor.now filed)) crowd.old.items }
    ensures room { vec_capacity crowd.old - vec_len crowd.old ≤ vec_capacity crowd.new - vec_len crowd.new }
{
    crowd.retain(|filed| !filed.aor.is_same(aor));
}

/// Adds rows to a crowd, if there are any. Called only where two have one digest.
fn join(crowd: &mut Vec<AorBindings>, filed: AorBindings)
    requires { vec_len crowd.old < vec_capacity crowd.old }
    ensures { crowd.new.items ≡ crowd.old.items ++ option_to_list (with_rows filed) }
{
    if !filed.rows.as_slice().is_empty() {
        let pushed: Result<_, _> = crowd.push(filed);
        pushed.unwrap();
    }
}

/// Puts rows under a code, in place of what stands there. Without rows nothing is to stand there.
fn put(by_code: &mut HashMap<u64, AorBindings>, code: u64, filed: AorBindings)
    requires { 1 ≤ spare by_code.old }
    ensures { (other : ℕ) → get nat_eq by_code.new other ≡ (if code == other then with_rows filed else get nat_eq by_code.old other) }
{
    if filed.rows.as_slice().is_empty() {
        let _old = by_code.remove(&code);
    } else {
        let inserted: Result<_, _> = by_code.insert(code, filed);
        let _old = inserted.unwrap();
    }
}
