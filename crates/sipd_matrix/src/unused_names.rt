//! Hops and groups that no rule names, under the cells.
ghost use Rattle.std.specs.Prelude.{◌≡◌, ◌++◌, OnOk};
ghost use Rattle.std.specs.List.{flat_map};
ghost use Rattle.std.specs.Option.{option_copied};
ghost use Rattle.sipd_matrix.specs.Unused as Definitions;

use crate::cells::hop_at;
use crate::words::put_both;
use sip_hops::Hop;
use sip_policy::{Rule, RuleVerdict, User, Who};
use sip_text::{Bytes, same_bytes};
use std::alloc::AllocError;

/// The name of a hop.
fn hop_name(hop: Option<&Hop>) -> &[u8]
    ensures { result.now ≡ Definitions.hop_name (option_copied hop.entry) }
{
    match hop {
        Some(hop) => hop.name.as_slice(),
        None => b"",
    }
}

/// Whether a verdict sends by a hop of this name.
fn sends_by(hops: &[Hop], name: &[u8], verdict: RuleVerdict) -> bool
    ensures { result ≡ Definitions.sends_by hops.now name.now verdict }
{
    match verdict {
        RuleVerdict::Allow | RuleVerdict::Deny => false,
        RuleVerdict::Via(place) => same_bytes(hop_name(hop_at(hops, place)), name),
    }
}

fn is_sent_by(hops: &[Hop], rules: &[Rule], name: &[u8]) -> bool
    ensures { result ≡ Definitions.is_sent_by hops.now rules.now name.now }
{
    rules.iter().any(|rule| sends_by(hops, name, rule.verdict))
}

/// Adds that no rule sends by a hop, unless one does.
fn put_hop(text: &mut Bytes, hops: &[Hop], rules: &[Rule], hop: &Hop) -> Result<(), AllocError>
    ensures { OnOk result (text.new ≡ text.old ++ Definitions.hop_line hops.now rules.now hop.now) }
{
    if is_sent_by(hops, rules, hop.name.as_slice()) {
        return Ok(());
    }
    put_both(text, b"no rule sends by hop ", hop.name.as_slice())?;
    text.push(b'\n')
}

pub(crate) fn put_hops(
    text: &mut Bytes,
    hops: &[Hop],
    rules: &[Rule],
    some: &[Hop],
) -> Result<(), AllocError>
    ensures { OnOk result (text.new ≡ text.old ++ flat_map (Definitions.hop_line hops.now rules.now) some.now) }
{
    for hop in some {
        put_hop(text, hops, rules, hop)?;
    }
    Ok(())
}

fn is_of_group(group: &[u8], who: &Who) -> bool
    ensures { result ≡ Definitions.is_of_group group.now who.now }
{
    match who {
        Who::Group(named) => same_bytes(group, named.as_slice()),
        Who::Anyone | Who::Proven | Who::User(_) => false,
    }
}

/// Whether some rule's users are those of a group.
pub(crate) fn is_named(rules: &[Rule], group: &[u8]) -> bool
    ensures { result ≡ Definitions.is_named rules.now group.now }
{
    rules.iter().any(|rule| is_of_group(group, &rule.who))
}

/// Adds two names, and what stands before, between and behind them.
fn put_names(
    text: &mut Bytes,
    before: &[u8],
    one: &[u8],
    between: &[u8],
    other: &[u8],
    behind: &[u8],
) -> Result<(), AllocError>
    ensures { OnOk result (text.new ≡ text.old ++ Definitions.names_text before.now one.now between.now other.now behind.now) }
{
    put_both(text, before, one)?;
    put_both(text, between, other)?;
    text.extend(behind)
}

/// Adds that no rule names a group of a user.
fn put_unnamed_group(text: &mut Bytes, name: &[u8], group: &[u8]) -> Result<(), AllocError>
    ensures { OnOk result (text.new ≡ text.old ++ Definitions.group_text name.now group.now) }
{
    put_names(text, b"no rule names group ", group, b" of ", name, b"\n")
}

/// Adds the same, unless one does.
fn put_group(text: &mut Bytes, rules: &[Rule], name: &[u8], group: &[u8]) -> Result<(), AllocError>
    ensures { OnOk result (text.new ≡ text.old ++ Definitions.group_line rules.now name.now group.now) }
{
    if is_named(rules, group) {
        Ok(())
    } else {
        put_unnamed_group(text, name, group)
    }
}

fn put_groups(
    text: &mut Bytes,
    rules: &[Rule],
    name: &[u8],
    groups: &[Bytes],
) -> Result<(), AllocError>
    ensures { OnOk result (text.new ≡ text.old ++ flat_map (Definitions.group_line rules.now name.now) groups.now) }
{
    for group in groups {
        put_group(text, rules, name, group.as_slice())?;
    }
    Ok(())
}

pub(crate) fn put_all_groups(
    text: &mut Bytes,
    rules: &[Rule],
    users: &[User],
) -> Result<(), AllocError>
    ensures { OnOk result (text.new ≡ text.old ++ flat_map (Definitions.user_lines rules.now) users.now) }
{
    for user in users {
        put_groups(text, rules, user.name.as_slice(), user.groups.as_slice())?;
    }
    Ok(())
}
