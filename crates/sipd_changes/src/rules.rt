//! What differs in the rules, for `differing`: texts, numbers that are used again, and the order of those that stay.
ghost use Rattle.std.specs.Prelude.{◌≡◌, ◌++◌, [], ◌∷◌, nat_eq, if◌then◌else◌, find, None, IfOk, OnOk};
ghost use Rattle.std.specs.List.{list_any};
ghost use Rattle.std.specs.Option.{option_copied};
ghost use Rattle.std.specs.Cmp.Lexicographic.{pointwise};
ghost use Rattle.std.specs.Str.{bytes_eq};
ghost use Rattle.sipd_ask.specs.Show.{patterns_text, rule_text};
ghost use Rattle.sipd_changes.specs.declared.difference.Revision.TheVariants as Revised;
ghost use Rattle.sipd_changes.specs.declared.difference.Difference.TheVariants as Changed;
ghost use Rattle.sipd_changes.specs.Changes as Definitions;

use crate::difference::{Difference, Revision};
use sip_config_types::Config;
use sip_hops::Hop;
use sip_policy::Rule;
use sip_text::{Bytes, Items, same_bytes};
use sipd_ask::{patterns_text, rule_text};
use std::alloc::{AllocError, Global};

fn is_number(id: u32, rule: &Rule) -> bool
    ensures { result ≡ Definitions.is_number id rule.now }
{
    rule.id == id
}

fn rule_of(rules: &[Rule], id: u32) -> Option<&Rule>
    ensures { option_copied result ≡ find (Definitions.is_number id) rules.now }
{
    rules.iter().find(|rule| is_number(id, rule))
}

fn has_rule(rules: &[Rule], id: u32) -> bool
    ensures { result ≡ list_any (Definitions.is_number id) rules.now }
{
    rules.iter().any(|rule| is_number(id, rule))
}

/// Adds a change of a rule.
fn push_rule(changes: &mut Items<Difference>, id: u32, revision: Revision) -> Result<(), AllocError>
    ensures { OnOk result (changes.new ≡ changes.old ++ Changed.Rule id revision ∷ []) }
{
    changes.push(Difference::Rule { id, revision })
}

/// Adds that a rule says something else, unless it says the same.
fn add_text(
    changes: &mut Items<Difference>,
    id: u32,
    before: Bytes,
    now: Bytes,
) -> Result<(), AllocError>
    ensures { OnOk result (changes.new ≡ changes.old ++ Definitions.unless (bytes_eq before now) (Changed.Rule id (Revised.Says before now))) }
{
    if same_bytes(before.as_slice(), now.as_slice()) {
        return Ok(());
    }
    push_rule(changes, id, Revision::Says { before, now })
}

/// Adds that a number is used again, unless the rule is for the same requests.
fn add_number(
    changes: &mut Items<Difference>,
    id: u32,
    before: &[u8],
    now: &[u8],
) -> Result<(), AllocError>
    ensures { OnOk result (changes.new ≡ changes.old ++ Definitions.unless (bytes_eq before.now now.now) (Changed.NumberAgain id)) }
{
    if same_bytes(before, now) {
        return Ok(());
    }
    changes.push(Difference::NumberAgain(id))
}

fn add_revised(
    alloc: Global,
    changes: &mut Items<Difference>,
    old_hops: &[Hop],
    new_hops: &[Hop],
    before: &Rule,
    now: &Rule,
) -> Result<(), AllocError>
    ensures { OnOk result (changes.new ≡ changes.old ++ Definitions.revised old_hops.now new_hops.now before.now now.now) }
{
    let text_before = rule_text(alloc, old_hops, before)?;
    let text_now = rule_text(alloc, new_hops, now)?;
    add_text(changes, now.id, text_before, text_now)?;
    let patterns_before = patterns_text(alloc, before)?;
    let patterns_now = patterns_text(alloc, now)?;
    add_number(
        changes,
        now.id,
        patterns_before.as_slice(),
        patterns_now.as_slice(),
    )
}

/// Adds what becomes of a rule behind another one, which was another one before, or wasn't there.
fn add_rule(
    alloc: Global,
    changes: &mut Items<Difference>,
    old: &Config,
    hops: &[Hop],
    behind: Option<u32>,
    now: &Rule,
) -> Result<(), AllocError>
    ensures { OnOk result (changes.new ≡ changes.old
        ++ Definitions.rule_now old.now.hops hops.now behind now.now (find (Definitions.is_number now.now.id) old.now.rules)) }
{
    if let Some(before) = rule_of(old.rules.as_slice(), now.id) {
        return add_revised(alloc, changes, old.hops.as_slice(), hops, before, now);
    }
    let text = rule_text(alloc, hops, now)?;
    push_rule(changes, now.id, Revision::Comes { behind, text })
}

fn add_rules_now(
    alloc: Global,
    changes: &mut Items<Difference>,
    old: &Config,
    hops: &[Hop],
    rules: &[Rule],
) -> Result<(), AllocError>
    ensures { OnOk result (changes.new ≡ changes.old ++ Definitions.rules_now old.now hops.now None rules.now) }
{
    let mut behind = None;
    for rule in rules {
        add_rule(alloc, changes, old, hops, behind, rule)?;
        behind = Some(rule.id);
    }
    Ok(())
}

/// Adds that a rule goes, unless its number stays.
fn add_gone_rule(
    alloc: Global,
    changes: &mut Items<Difference>,
    stays: bool,
    hops: &[Hop],
    rule: &Rule,
) -> Result<(), AllocError>
    ensures { OnOk result (changes.new ≡ changes.old
        ++ Definitions.unless stays (Changed.Rule rule.now.id (Revised.Goes (rule_text hops.now rule.now)))) }
{
    if stays {
        return Ok(());
    }
    let text = rule_text(alloc, hops, rule)?;
    push_rule(changes, rule.id, Revision::Goes(text))
}

fn add_rules_gone(
    alloc: Global,
    changes: &mut Items<Difference>,
    old: &Config,
    new: &[Rule],
) -> Result<(), AllocError>
    ensures { OnOk result (changes.new ≡ changes.old ++ Definitions.rules_gone old.now new.now) }
{
    let hops = old.hops.as_slice();
    let rules = old.rules.as_slice();
    for rule in rules {
        add_gone_rule(alloc, changes, has_rule(new, rule.id), hops, rule)?;
    }
    Ok(())
}

/// Adds a number, where it is wanted.
fn add_wanted(numbers: &mut Items<u32>, wanted: bool, number: u32) -> Result<(), AllocError>
    ensures { OnOk result (numbers.new ≡ numbers.old ++ (if wanted then number ∷ [] else [])) }
{
    if wanted { numbers.push(number) } else { Ok(()) }
}

/// The numbers of the rules that are in another list, too.
fn numbers_in(alloc: Global, others: &[Rule], rules: &[Rule]) -> Result<Items<u32>, AllocError>
    ensures { IfOk result (λ numbers. numbers ≡ Definitions.numbers_in others.now rules.now) }
{
    let mut numbers = Items::new(alloc);
    for rule in rules {
        add_wanted(&mut numbers, has_rule(others, rule.id), rule.id)?;
    }
    Ok(numbers)
}

fn same_numbers(left: &[u32], right: &[u32]) -> bool
    ensures { result ≡ pointwise nat_eq left.now right.now }
{
    left == right
}

/// Adds the order of the rules that stay, unless it stays.
fn add_order(
    alloc: Global,
    changes: &mut Items<Difference>,
    old: &[Rule],
    new: &[Rule],
) -> Result<(), AllocError>
    ensures { OnOk result (changes.new ≡ changes.old ++ Definitions.order_changes old.now new.now) }
{
    let before = numbers_in(alloc, new, old)?;
    let now = numbers_in(alloc, old, new)?;
    if same_numbers(before.as_slice(), now.as_slice()) {
        return Ok(());
    }
    changes.push(Difference::Order(now))
}

/// Adds what becomes of rules.
pub(crate) fn add_rules(
    alloc: Global,
    changes: &mut Items<Difference>,
    old: &Config,
    new: &Config,
) -> Result<(), AllocError>
    ensures { OnOk result (changes.new ≡ changes.old ++ Definitions.rule_changes old.now new.now) }
{
    let rules = new.rules.as_slice();
    add_rules_now(alloc, changes, old, new.hops.as_slice(), rules)?;
    add_rules_gone(alloc, changes, old, rules)?;
    add_order(alloc, changes, old.rules.as_slice(), rules)
}
