//! The tables `[[rule]]`: line by line through all rules, then numbers, hops and groups, refused at the first fault in this order.
//! The texts of a rule's keys are read in `sip_config_values`.
ghost use Rattle.std.specs.Prelude.{◌≡◌, ℕ, ◌==◌, ◌||◌, not, position, List, [], IfOk, IfErr, OnOk};
ghost use Rattle.std.specs.List.{list_any};
ghost use Rattle.std.specs.Str.{bytes_eq};
ghost use Rattle.toml.specs.View.{view, table_view, items_view};
ghost use Rattle.sip_config_values.specs.declared.key.ConfigKey.TheVariants as keys;
ghost use Rattle.sip_config_values.specs.declared.table_kind.TableKind.TheVariants as kinds;
ghost use Rattle.sip_config_values.specs.declared.refusal.Refusal.TheVariants.{NoMemory};
ghost use Rattle.sip_config_values.specs.Refusals.{Reads, ReadsAt, placed};
ghost use Rattle.sip_config_values.specs.Rows.{rows_after, all_pass};
ghost use Rattle.sip_config.specs.Rules as Definitions;

use sip_config_values::{
    ConfigError, ConfigKey, DistinctNames, Refusal, TableKind, confirm, find, is_verdict, needed,
    none_found, number_between, operation_of, passed, place_at, placed, table_in, target_of,
    text_of, verdict_of, who_of,
};
use sip_hops::Hop;
use sip_policy::{OperationPattern, Rule, RuleVerdict, TargetPattern, User, Users, Who, Window};
use sip_text::{Bytes, Items};
use std::alloc::Global;
use toml::{Table, Value};

/// The keys of a rule, in the order in which they are looked at.
#[derive(Clone, Copy)]
pub(crate) enum RuleLine {
    Id,
    WhoAsks,
    Operation,
    Target,
    Verdict,
    Minutes,
}

/// What a key of a rule is read as, refused at its place.
fn of_rule<T: Drop>(
    before: usize,
    key: ConfigKey,
    read: Result<T, ConfigError>,
) -> Result<T, Refusal>
    ensures { result ≡ placed kinds.Rule before key read }
{
    placed(TableKind::Rule, before, key, read)
}

/// A bad value of a key of a rule.
fn bad(before: usize, key: ConfigKey) -> Refusal
    ensures { result ≡ Definitions.bad before key }
{
    Refusal::At(
        ConfigError::BadValue,
        place_at(TableKind::Rule, before, key),
    )
}

fn id_at(table: &Table) -> Result<u32, ConfigError>
    ensures { Reads (λ id. id) result (Definitions.id_at (table_view table.now)) }
{
    number_between(needed(table, "id")?, 1, 999_999)
}

fn who_at(alloc: Global, users: &Users, table: &Table) -> Result<Who, ConfigError>
    ensures { Reads (λ who. who) result (Definitions.who_at users.now (table_view table.now)) }
{
    who_of(alloc, users, text_of(needed(table, "who")?)?)
}

fn placed_who(alloc: Global, users: &Users, before: usize, table: &Table) -> Result<Who, Refusal>
    ensures { ReadsAt (λ who. who) result (placed kinds.Rule before keys.WhoAsks (Definitions.who_at users.now (table_view table.now))) }
{
    of_rule(before, ConfigKey::WhoAsks, who_at(alloc, users, table))
}

fn operation_at(alloc: Global, table: &Table) -> Result<OperationPattern, ConfigError>
    ensures { Reads (λ operation. operation) result (Definitions.operation_at (table_view table.now)) }
{
    operation_of(alloc, text_of(needed(table, "op")?)?)
}

fn placed_operation(
    alloc: Global,
    before: usize,
    table: &Table,
) -> Result<OperationPattern, Refusal>
    ensures { ReadsAt (λ operation. operation) result (placed kinds.Rule before keys.Operation (Definitions.operation_at (table_view table.now))) }
{
    of_rule(before, ConfigKey::Operation, operation_at(alloc, table))
}

fn target_at(alloc: Global, table: &Table) -> Result<TargetPattern, ConfigError>
    ensures { Reads (λ target. target) result (Definitions.target_at (table_view table.now)) }
{
    target_of(alloc, text_of(needed(table, "target")?)?)
}

fn placed_target(alloc: Global, before: usize, table: &Table) -> Result<TargetPattern, Refusal>
    ensures { ReadsAt (λ target. target) result (placed kinds.Rule before keys.Target (Definitions.target_at (table_view table.now))) }
{
    of_rule(before, ConfigKey::Target, target_at(alloc, table))
}

fn verdict_text(table: &Table) -> Result<&[u8], ConfigError>
    ensures { Reads (λ text. text.now) result (Definitions.verdict_text (table_view table.now)) }
{
    text_of(needed(table, "verdict")?)
}

fn verdict_at(hops: &[Hop], table: &Table) -> Result<RuleVerdict, ConfigError>
    ensures { Reads (λ verdict. verdict) result (Definitions.verdict_at hops.now (table_view table.now)) }
{
    verdict_of(hops, verdict_text(table)?)
}

/// A minute of the day.
fn minute_of(value: &Value) -> Result<u16, ConfigError>
    ensures { result ≡ Definitions.minute_of (view value.now) }
{
    let minute = number_between(value, 0, 1439)?;
    Ok(minute as u16)
}

fn minute_at(before: usize, key: ConfigKey, value: &Value) -> Result<u16, Refusal>
    ensures { result ≡ placed kinds.Rule before key (Definitions.minute_of (view value.now)) }
{
    of_rule(before, key, minute_of(value))
}

/// The window between two minutes that differ.
fn window_between(before: usize, first: &Value, last: &Value) -> Result<Option<Window>, Refusal>
    ensures { ReadsAt (λ window. window) result (Definitions.window_between before (view first.now) (view last.now)) }
{
    let from = minute_at(before, ConfigKey::From, first)?;
    let until = minute_at(before, ConfigKey::Until, last)?;
    confirm(from != until, bad(before, ConfigKey::From))?;
    Ok(Some(Window { from, until }))
}

/// The window of a rule, which version 1 doesn't know.
fn window_at(version: u32, before: usize, table: &Table) -> Result<Option<Window>, Refusal>
    ensures { ReadsAt (λ window. window) result (Definitions.window_at version before (table_view table.now)) }
{
    if version == 1 {
        return Ok(None);
    }
    match (find(table, "from"), find(table, "until")) {
        (None, None) => Ok(None),
        (Some(first), Some(last)) => window_between(before, first, last),
        (Some(_), None) => Err(bad(before, ConfigKey::From)),
        (None, Some(_)) => Err(bad(before, ConfigKey::Until)),
    }
}

/// Whether a rule's verdict may stand: `via` only where the operation is one that is sent on.
fn check_verdict(alloc: Global, before: usize, table: &Table) -> Result<(), Refusal>
    ensures { ReadsAt (λ done. done) result (Definitions.verdict_line before (table_view table.now)) }
{
    let text = of_rule(before, ConfigKey::Verdict, verdict_text(table))?;
    let operation = placed_operation(alloc, before, table)?;
    confirm(
        is_verdict(&operation, text),
        bad(before, ConfigKey::Verdict),
    )
}

fn check_window(version: u32, before: usize, table: &Table) -> Result<(), Refusal>
    ensures { ReadsAt (λ done. done) result (Definitions.window_line version before (table_view table.now)) }
{
    let _ = window_at(version, before, table)?;
    Ok(())
}

/// Whether a rule passes a line.
fn check_rule(
    alloc: Global,
    version: u32,
    users: &Users,
    line: RuleLine,
    before: usize,
    table: &Table,
) -> Result<(), Refusal>
    ensures { ReadsAt (λ done. done) result (Definitions.rule_line version users.now line before (table_view table.now)) }
{
    match line {
        RuleLine::Id => passed(TableKind::Rule, before, ConfigKey::Id, id_at(table)),
        RuleLine::WhoAsks => passed(
            TableKind::Rule,
            before,
            ConfigKey::WhoAsks,
            who_at(alloc, users, table),
        ),
        RuleLine::Operation => passed(
            TableKind::Rule,
            before,
            ConfigKey::Operation,
            operation_at(alloc, table),
        ),
        RuleLine::Target => passed(
            TableKind::Rule,
            before,
            ConfigKey::Target,
            target_at(alloc, table),
        ),
        RuleLine::Verdict => check_verdict(alloc, before, table),
        RuleLine::Minutes => check_window(version, before, table),
    }
}

/// Whether each rule passes a line.
#[tactic(auto, using(crate::proofs::Rows::pass_step, crate::proofs::Rows::pass_end))]
fn check_each(
    alloc: Global,
    version: u32,
    users: &Users,
    line: RuleLine,
    items: &[Value],
) -> Result<(), Refusal>
    ensures { ReadsAt (λ done. done) result (all_pass keys.Rules (Definitions.rule_line version users.now line) 0 (items_view items.now)) }
{
    for (at, item) in items.iter().enumerate() {
        check_rule(
            alloc,
            version,
            users,
            line,
            at,
            table_in(ConfigKey::Rules, item)?,
        )?;
    }
    Ok(())
}

/// Whether all rules pass each line in turn.
pub(crate) fn check_rules(
    alloc: Global,
    version: u32,
    users: &Users,
    items: &[Value],
) -> Result<(), Refusal>
    ensures { ReadsAt (λ done. done) result (Definitions.rule_lines version users.now (items_view items.now)) }
{
    check_each(alloc, version, users, RuleLine::Id, items)?;
    check_each(alloc, version, users, RuleLine::WhoAsks, items)?;
    check_each(alloc, version, users, RuleLine::Operation, items)?;
    check_each(alloc, version, users, RuleLine::Target, items)?;
    check_each(alloc, version, users, RuleLine::Verdict, items)?;
    check_each(alloc, version, users, RuleLine::Minutes, items)
}

fn has_id(ids: &[u32], id: u32) -> bool
    ensures { result ≡ list_any (λ other. other == id) ids.now }
{
    ids.iter().any(|other| *other == id)
}

/// A number that no rule before has.
fn new_id(before: &[u32], table: &Table) -> Result<u32, Refusal>
    ensures { ReadsAt (λ id. id) result (Definitions.new_id before.now (table_view table.now)) }
{
    let at = before.len();
    let id = of_rule(at, ConfigKey::Id, id_at(table))?;
    let twice = Refusal::At(
        ConfigError::DuplicateRule,
        place_at(TableKind::Rule, at, ConfigKey::Id),
    );
    confirm(!has_id(before, id), twice)?;
    Ok(id)
}

/// The numbers of rules, no two the same.
#[tactic(auto, using(crate::proofs::Rows::rows_step, crate::proofs::Rows::rows_end))]
fn ids_of(alloc: Global, items: &[Value]) -> Result<Items<u32>, Refusal>
    ensures { ReadsAt (λ ids. ids) result (rows_after keys.Rules Definitions.new_id [] (items_view items.now)) }
{
    let mut ids = Items::new(alloc);
    for item in items {
        let id = new_id(ids.as_slice(), table_in(ConfigKey::Rules, item)?)?;
        ids.push(id)?;
    }
    Ok(ids)
}

fn rule_at(
    alloc: Global,
    version: u32,
    users: &Users,
    hops: &[Hop],
    before: &[Rule],
    table: &Table,
) -> Result<Rule, Refusal>
    ensures { ReadsAt (λ rule. rule) result (Definitions.rule_at version users.now hops.now before.now (table_view table.now)) }
{
    let at = before.len();
    let id = of_rule(at, ConfigKey::Id, id_at(table))?;
    let verdict = of_rule(at, ConfigKey::Verdict, verdict_at(hops, table))?;
    let window = window_at(version, at, table)?;
    let who = placed_who(alloc, users, at, table)?;
    let operation = placed_operation(alloc, at, table)?;
    let target = placed_target(alloc, at, table)?;
    Ok(Rule {
        id,
        who,
        operation,
        target,
        window,
        verdict,
    })
}

#[tactic(auto, using(crate::proofs::Rows::rows_step, crate::proofs::Rows::rows_end))]
fn rule_rows(
    alloc: Global,
    version: u32,
    users: &Users,
    hops: &[Hop],
    items: &[Value],
) -> Result<Items<Rule>, Refusal>
    ensures { ReadsAt (λ rules. rules) result (rows_after keys.Rules (Definitions.rule_at version users.now hops.now) [] (items_view items.now)) }
{
    let mut rules = Items::new(alloc);
    for item in items {
        let table = table_in(ConfigKey::Rules, item)?;
        let rule = rule_at(alloc, version, users, hops, rules.as_slice(), table)?;
        rules.push(rule)?;
    }
    Ok(rules)
}

/// Adds the names of groups to those that are there.
#[tactic(auto, using(crate::proofs::Groups::none_added, crate::proofs::Groups::added_more, crate::proofs::Groups::all_added))]
fn add_groups(alloc: Global, names: &mut DistinctNames, groups: &[Bytes]) -> Result<(), Refusal>
    ensures added { OnOk result ((group : List ℕ) → list_any (bytes_eq group) names.new
        ≡ (list_any (bytes_eq group) names.old || list_any (bytes_eq group) groups.now)) }
    ensures refused { IfErr result (λ e. e ≡ NoMemory) }
{
    for group in groups {
        let _ = names.add(alloc, group.as_slice())?;
    }
    Ok(())
}

/// The names of the groups that have a member.
#[tactic(auto, using(crate::proofs::Groups::no_members, crate::proofs::Groups::members_more, crate::proofs::Groups::all_members))]
fn groups_of(alloc: Global, users: &[User]) -> Result<DistinctNames, Refusal>
    ensures names { IfOk result (λ names. (group : List ℕ) → list_any (bytes_eq group) names ≡ Definitions.has_member users.now group) }
    ensures refused { IfErr result (λ e. e ≡ NoMemory) }
{
    let mut names = DistinctNames::new(alloc);
    for user in users {
        add_groups(alloc, &mut names, user.groups.as_slice())?;
    }
    Ok(names)
}

/// Whether the group that a rule names, if it names one, is among some.
fn is_listed(groups: &DistinctNames, rule: &Rule) -> bool
    ensures { result ≡ Definitions.is_listed groups.now rule.now.who }
{
    match &rule.who {
        Who::Group(group) => groups.has(group.as_slice()),
        _ => true,
    }
}

/// The place of the first rule whose group isn't among some.
fn unlisted(groups: &DistinctNames, rules: &[Rule]) -> Option<usize>
    ensures { result ≡ position (λ rule. not (Definitions.is_listed groups.now rule.who)) rules.now }
{
    rules.iter().position(|rule| !is_listed(groups, rule))
}

/// The place of the first rule that names a group without a member. The names of all groups are gathered once, so that this
/// takes the time of the users and of the rules, and not that of the users for each rule.
#[tactic(auto, using(crate::proofs::Groups::listed_same))]
fn unknown_group(alloc: Global, users: &Users, rules: &[Rule]) -> Result<Option<usize>, Refusal>
    ensures found { IfOk result (λ found. found ≡ position (λ rule. not (Definitions.names_known_group users.now rule)) rules.now) }
    ensures refused { IfErr result (λ e. e ≡ NoMemory) }
{
    let groups = groups_of(alloc, users.as_slice())?;
    Ok(unlisted(&groups, rules))
}

/// The rules of a list whose lines passed: first no number twice, then each hop known, then each group.
pub(crate) fn rules_of(
    alloc: Global,
    version: u32,
    users: &Users,
    hops: &[Hop],
    items: &[Value],
) -> Result<Items<Rule>, Refusal>
    ensures { ReadsAt (λ rules. rules) result (Definitions.rules_of version users.now hops.now (items_view items.now)) }
{
    let _ = ids_of(alloc, items)?;
    let rules = rule_rows(alloc, version, users, hops, items)?;
    let unknown = unknown_group(alloc, users, rules.as_slice())?;
    none_found(
        ConfigError::UnknownGroup,
        TableKind::Rule,
        ConfigKey::WhoAsks,
        unknown,
    )?;
    Ok(rules)
}
