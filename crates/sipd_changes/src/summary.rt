//! What a change was in a few words, for the line that a serving program prints when another configuration comes into force.
ghost use Rattle.std.specs.Prelude.{◌≡◌, ◌++◌, codes, decimal, None, fold, IfOk, OnOk};
ghost use Rattle.std.specs.List.{flat_map, list_any};
ghost use Rattle.std.specs.Option.{option_copied};
ghost use Rattle.std.specs.Str.{bytes_eq};
ghost use Rattle.sipd_changes.specs.Summary as Definitions;

use crate::difference::{Difference, Revision};
use crate::fate::Fate;
use sip_text::{Bytes, Items, same_bytes};
use sipd_ask::put_number;
use std::alloc::{AllocError, Global};

/// How many numbers are named at most.
const MOST_NUMBERS: usize = 12;

// ---- users

fn who_comes(change: &Difference) -> Option<&[u8]>
    ensures { option_copied result ≡ Definitions.who_comes change.now }
{
    match change {
        Difference::UserComes(user) => Some(user.as_slice()),
        _ => None,
    }
}

fn who_goes(change: &Difference) -> Option<&[u8]>
    ensures { option_copied result ≡ Definitions.who_goes change.now }
{
    match change {
        Difference::UserGoes(user) => Some(user.as_slice()),
        _ => None,
    }
}

fn who_changes(change: &Difference) -> Option<&[u8]>
    ensures { option_copied result ≡ Definitions.who_changes change.now }
{
    match change {
        Difference::Digest { user, .. } => Some(user.as_slice()),
        Difference::Joins { user, .. } => Some(user.as_slice()),
        Difference::Leaves { user, .. } => Some(user.as_slice()),
        _ => None,
    }
}

/// The user of whom a change tells that this becomes of him.
fn user_of(fate: Fate, change: &Difference) -> Option<&[u8]>
    ensures { option_copied result ≡ Definitions.user_of fate change.now }
{
    match fate {
        Fate::More => who_comes(change),
        Fate::Fewer => who_goes(change),
        Fate::Changed => who_changes(change),
    }
}

/// How many users are one that wasn't named right before.
fn one_more(before: Option<&[u8]>, now: Option<&[u8]>) -> u64
    ensures { result ≡ Definitions.one_more (option_copied before.entry) (option_copied now.entry) }
{
    match (before, now) {
        (_, None) => 0,
        (None, Some(_)) => 1,
        (Some(before), Some(now)) => { if same_bytes(before, now) { 0 } else { 1 } }
    }
}

/// How many users this becomes of.
fn users_in(fate: Fate, changes: &[Difference]) -> u64
    ensures { result ≡ Definitions.users_in fate None changes.now }
{
    let mut count: u64 = 0;
    let mut before = None;
    for change in changes {
        let user = user_of(fate, change);
        count += one_more(before, user);
        before = user;
    }
    count
}

fn user_words(fate: Fate) -> &'static [u8]
    ensures { result.now ≡ Definitions.user_words fate }
{
    match fate {
        Fate::More => b" more",
        Fate::Fewer => b" fewer",
        Fate::Changed => b" changed",
    }
}

/// How users are counted, behind their number.
fn user_word(count: u64) -> &'static [u8]
    ensures { result.now ≡ Definitions.user_word count }
{
    if count == 1 { b" user" } else { b" users" }
}

/// That this becomes of so many users, if it does of any.
fn users_text(alloc: Global, fate: Fate, count: u64) -> Result<Bytes, AllocError>
    ensures { IfOk result (λ text. text ≡ Definitions.users_text fate count) }
{
    let mut text = Bytes::new(alloc);
    if count == 0 {
        return Ok(text);
    }
    text.push_decimal(count)?;
    text.extend(user_word(count))?;
    text.extend(user_words(fate))?;
    Ok(text)
}

// ---- rules

fn which_comes(change: &Difference) -> Option<u32>
    ensures { result ≡ Definitions.which_comes change.now }
{
    match change {
        Difference::Rule {
            id,
            revision: Revision::Comes { .. },
        } => Some(*id),
        _ => None,
    }
}

fn which_goes(change: &Difference) -> Option<u32>
    ensures { result ≡ Definitions.which_goes change.now }
{
    match change {
        Difference::Rule {
            id,
            revision: Revision::Goes(_),
        } => Some(*id),
        _ => None,
    }
}

/// Which rule says something else, or is for other requests.
fn which_changes(change: &Difference) -> Option<u32>
    ensures { result ≡ Definitions.which_changes change.now }
{
    match change {
        Difference::Rule {
            id,
            revision: Revision::Says { .. },
        } => Some(*id),
        Difference::NumberAgain(id) => Some(*id),
        _ => None,
    }
}

/// The number of the rule of which a change tells that this becomes of it.
fn rule_of(fate: Fate, change: &Difference) -> Option<u32>
    ensures { result ≡ Definitions.rule_of fate change.now }
{
    match fate {
        Fate::More => which_comes(change),
        Fate::Fewer => which_goes(change),
        Fate::Changed => which_changes(change),
    }
}

/// Adds a number that wasn't named right before.
fn add_id(ids: &mut Items<u32>, before: Option<u32>, now: Option<u32>) -> Result<(), AllocError>
    ensures { OnOk result (ids.new ≡ ids.old ++ Definitions.unless_same before now) }
{
    match (before, now) {
        (_, None) => Ok(()),
        (None, Some(id)) => ids.push(id),
        (Some(before), Some(id)) => { if before == id { Ok(()) } else { ids.push(id) } }
    }
}

/// The numbers of the rules that this becomes of.
fn rules_in(alloc: Global, fate: Fate, changes: &[Difference]) -> Result<Items<u32>, AllocError>
    ensures { IfOk result (λ ids. ids ≡ Definitions.rules_in fate None changes.now) }
{
    let mut ids = Items::new(alloc);
    let mut before = None;
    for change in changes {
        let id = rule_of(fate, change);
        add_id(&mut ids, before, id)?;
        before = id;
    }
    Ok(ids)
}

fn rule_words(fate: Fate) -> &'static [u8]
    ensures { result.now ≡ Definitions.rule_words fate }
{
    match fate {
        Fate::More => b" new",
        Fate::Fewer => b" gone",
        Fate::Changed => b" changed",
    }
}

/// What stands in front of a number that these come behind.
fn link_of(behind: &[u32]) -> &'static [u8]
    ensures { result.now ≡ Definitions.link_of behind.now }
{
    if behind.is_empty() { b" and " } else { b", " }
}

/// Adds a number behind a text.
fn put_linked(text: &mut Bytes, link: &[u8], id: u32) -> Result<(), AllocError>
    ensures { OnOk result (text.new ≡ text.old ++ (link.now ++ decimal id)) }
{
    text.extend(link)?;
    text.push_decimal(u64::from(id))
}

/// Adds numbers behind the first one.
fn put_further(text: &mut Bytes, ids: &[u32]) -> Result<(), AllocError>
    ensures { OnOk result (text.new ≡ text.old ++ Definitions.further_text ids.now) }
{
    let mut rest = ids;
    while let Some((id, behind)) = rest.split_first() {
        put_linked(text, link_of(behind), *id)?;
        rest = behind;
    }
    Ok(())
}

fn put_few(text: &mut Bytes, ids: &[u32]) -> Result<(), AllocError>
    ensures { OnOk result (text.new ≡ text.old ++ Definitions.few_text ids.now) }
{
    let Some((id, behind)) = ids.split_first() else {
        return Ok(());
    };
    text.push_decimal(u64::from(*id))?;
    put_further(text, behind)
}

/// Adds numbers, each behind a comma.
fn put_commas(text: &mut Bytes, ids: &[u32]) -> Result<(), AllocError>
    ensures { OnOk result (text.new ≡ text.old ++ flat_map (λ other. codes ", " ++ decimal other) ids.now) }
{
    for id in ids {
        put_linked(text, b", ", *id)?;
    }
    Ok(())
}

fn put_row(text: &mut Bytes, ids: &[u32]) -> Result<(), AllocError>
    ensures { OnOk result (text.new ≡ text.old ++ Definitions.row_text ids.now) }
{
    let Some((id, behind)) = ids.split_first() else {
        return Ok(());
    };
    text.push_decimal(u64::from(*id))?;
    put_commas(text, behind)
}

/// Adds numbers, the first of them and how many come behind them where they are many.
fn put_numbers(text: &mut Bytes, ids: &[u32]) -> Result<(), AllocError>
    ensures { OnOk result (text.new ≡ text.old ++ Definitions.numbers_text ids.now) }
{
    if ids.len() <= MOST_NUMBERS {
        return put_few(text, ids);
    }
    let (named, behind) = ids.split_at(MOST_NUMBERS);
    put_row(text, named)?;
    put_number(text, b" and ", behind.len() as u64, b" more")
}

fn rule_word(behind: &[u32]) -> &'static [u8]
    ensures { result.now ≡ Definitions.rule_word behind.now }
{
    if behind.is_empty() {
        b"rule "
    } else {
        b"rules "
    }
}

/// That this becomes of rules, if it does of any.
fn rules_text(alloc: Global, fate: Fate, ids: &[u32]) -> Result<Bytes, AllocError>
    ensures { IfOk result (λ text. text ≡ Definitions.rules_text fate ids.now) }
{
    let mut text = Bytes::new(alloc);
    let Some((_, behind)) = ids.split_first() else {
        return Ok(text);
    };
    text.extend(rule_word(behind))?;
    put_numbers(&mut text, ids)?;
    text.extend(rule_words(fate))?;
    Ok(text)
}

// ---- all else

/// What of the file a change is of, beside users and rules.
fn key_of(change: &Difference) -> &[u8]
    ensures { result.now ≡ Definitions.key_of change.now }
{
    match change {
        Difference::Frame(key) => key.name().as_bytes(),
        Difference::BoundPort { .. } => b"address",
        Difference::Offset { .. } => b"offset",
        Difference::Hop { .. } => b"hop",
        Difference::Host { .. } => b"host_address",
        Difference::Order(_) => b"order of rules",
        _ => b"",
    }
}

fn is_of(key: &[u8], change: &Difference) -> bool
    ensures { result ≡ bytes_eq (Definitions.key_of change.now) key.now }
{
    same_bytes(key_of(change), key)
}

fn is_changed(key: &[u8], changes: &[Difference]) -> bool
    ensures { result ≡ list_any (λ change. bytes_eq (Definitions.key_of change) key.now) changes.now }
{
    changes.iter().any(|change| is_of(key, change))
}

// ---- all

/// What stands between a text and what comes behind it.
fn comma_behind(text: &[u8]) -> &'static [u8]
    ensures { result.now ≡ Definitions.comma_behind text.now }
{
    if text.is_empty() { b"" } else { b", " }
}

/// Adds one more part, if that says something.
fn add_part(text: &mut Bytes, part: &[u8]) -> Result<(), AllocError>
    ensures { OnOk result (text.new ≡ Definitions.and_part text.old part.now) }
{
    if part.is_empty() {
        return Ok(());
    }
    text.extend(comma_behind(text.as_slice()))?;
    text.extend(part)
}

/// Adds that a key changed, if some change is of it.
fn add_key(
    alloc: Global,
    text: &mut Bytes,
    changes: &[Difference],
    key: &[u8],
) -> Result<(), AllocError>
    ensures { OnOk result (text.new ≡ Definitions.and_part text.old (Definitions.key_text changes.now key.now)) }
{
    if !is_changed(key, changes) {
        return Ok(());
    }
    let part = Bytes::joined(alloc, key, b" changed")?;
    add_part(text, part.as_slice())
}

/// Adds that this becomes of users, if it does of any.
fn add_users(
    alloc: Global,
    text: &mut Bytes,
    changes: &[Difference],
    fate: Fate,
) -> Result<(), AllocError>
    ensures { OnOk result (text.new ≡ Definitions.and_part text.old (Definitions.users_text fate (Definitions.users_in fate None changes.now))) }
{
    let part = users_text(alloc, fate, users_in(fate, changes))?;
    add_part(text, part.as_slice())
}

/// Adds that this becomes of rules, if it does of any.
fn add_rules(
    alloc: Global,
    text: &mut Bytes,
    changes: &[Difference],
    fate: Fate,
) -> Result<(), AllocError>
    ensures { OnOk result (text.new ≡ Definitions.and_part text.old (Definitions.rules_text fate (Definitions.rules_in fate None changes.now))) }
{
    let ids = rules_in(alloc, fate, changes)?;
    let part = rules_text(alloc, fate, ids.as_slice())?;
    add_part(text, part.as_slice())
}

fn add_user_parts(alloc: Global, text: &mut Bytes, changes: &[Difference]) -> Result<(), AllocError>
    ensures { OnOk result (text.new ≡ fold Definitions.and_part text.old (Definitions.user_parts changes.now)) }
{
    add_users(alloc, text, changes, Fate::More)?;
    add_users(alloc, text, changes, Fate::Fewer)?;
    add_users(alloc, text, changes, Fate::Changed)
}

fn add_rule_parts(alloc: Global, text: &mut Bytes, changes: &[Difference]) -> Result<(), AllocError>
    ensures { OnOk result (text.new ≡ fold Definitions.and_part text.old (Definitions.rule_parts changes.now)) }
{
    add_rules(alloc, text, changes, Fate::More)?;
    add_rules(alloc, text, changes, Fate::Fewer)?;
    add_rules(alloc, text, changes, Fate::Changed)
}

/// Adds which keys of the policy changed, beside users and rules.
fn add_policy_parts(
    alloc: Global,
    text: &mut Bytes,
    changes: &[Difference],
) -> Result<(), AllocError>
    ensures { OnOk result (text.new ≡ fold Definitions.and_part text.old (Definitions.key_parts Definitions.policy_keys changes.now)) }
{
    add_key(alloc, text, changes, b"order of rules")?;
    add_key(alloc, text, changes, b"offset")?;
    add_key(alloc, text, changes, b"hop")?;
    add_key(alloc, text, changes, b"host_address")
}

/// Adds which keys changed that can't while a server runs.
fn add_frame_parts(
    alloc: Global,
    text: &mut Bytes,
    changes: &[Difference],
) -> Result<(), AllocError>
    ensures { OnOk result (text.new ≡ fold Definitions.and_part text.old (Definitions.key_parts Definitions.fixed_keys changes.now)) }
{
    add_key(alloc, text, changes, b"host")?;
    add_key(alloc, text, changes, b"port")?;
    add_key(alloc, text, changes, b"address")?;
    add_key(alloc, text, changes, b"domains")?;
    add_key(alloc, text, changes, b"realm")
}

/// What changed in a few words, without an end of the line: users by how many they are, rules by their numbers, of which twelve are named
/// at most, and all else by its key; or that nothing differs. `AllocError` is the only refusal.
pub fn summed_up(alloc: Global, changes: &Items<Difference>) -> Result<Bytes, AllocError>
    ensures { IfOk result (λ text. text ≡ Definitions.summed_up changes.now) }
{
    let changes = changes.as_slice();
    let mut text = Bytes::new(alloc);
    if changes.is_empty() {
        text.extend(b"nothing differs")?;
        return Ok(text);
    }
    add_user_parts(alloc, &mut text, changes)?;
    add_rule_parts(alloc, &mut text, changes)?;
    add_policy_parts(alloc, &mut text, changes)?;
    add_frame_parts(alloc, &mut text, changes)?;
    Ok(text)
}
