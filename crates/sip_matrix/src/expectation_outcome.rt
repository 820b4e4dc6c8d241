//! How an expectation stands: each example of what it means is asked.
ghost use Rattle.std.specs.Prelude.{◌≡◌, ◌∷◌, ◌++◌, IfOk, OnOk};
ghost use Rattle.std.specs.Option.{option_copied};
ghost use Rattle.sip_matrix.specs.Expected as Definitions;
ghost use Rattle.sip_matrix.specs.Expected.{Finds, StandsSo};

use crate::column::Column;
use crate::column_examples::{are_plain, example_of, operations_of};
use crate::expectation::{Expectation, Fault, is_fault, window_of};
use crate::listing::columns_of_all;
use crate::pieces::pieces_of;
use sip_policy::{Operation, Rule, RuleVerdict, User, Users};
use sip_text::{Bytes, Items};
use sip_uri::Aor;
use std::alloc::{AllocError, Global};

/// How an expectation stands.
#[derive(Drop)]
pub enum ExpectationOutcome {
    /// Each question that it means is decided so.
    Holds,
    /// This one isn't.
    Fails(Fault),
    /// A text of a rule, a user's name or what is expected has a `*`, or a host is `elsewhere.invalid`: then that isn't known.
    Unsaid,
}

fn copy_operation(operation: &Operation) -> Result<Operation, AllocError>
    ensures { IfOk result (λ copy. copy ≡ operation.now) }
{
    match operation {
        Operation::Register => Ok(Operation::Register),
        Operation::List => Ok(Operation::List),
        Operation::Send(method) => Ok(Operation::Send(method.clone()?)),
    }
}

fn copy_name(alloc: Global, name: Option<&[u8]>) -> Result<Option<Bytes>, AllocError>
    ensures { IfOk result (λ copy. copy ≡ option_copied name.entry) }
{
    match name {
        Some(name) => Ok(Some(Bytes::copy(alloc, name)?)),
        None => Ok(None),
    }
}

fn fault_with(
    alloc: Global,
    proven: Option<&[u8]>,
    operation: &Operation,
    aor: &Aor,
    minute: u16,
) -> Result<Fault, AllocError>
    ensures { IfOk result (λ fault. fault ≡ Definitions.fault_with (option_copied proven.entry) operation.now aor.now minute) }
{
    let proven = copy_name(alloc, proven)?;
    let operation = copy_operation(operation)?;
    let aor = aor.clone()?;
    Ok(Fault {
        proven,
        operation,
        aor,
        minute,
    })
}

/// A fault at some minutes.
fn in_minutes(
    alloc: Global,
    rules: &[Rule],
    users: &Users,
    domains: &[Bytes],
    expectation: &Expectation,
    proven: Option<&[u8]>,
    operation: &Operation,
    aor: &Aor,
    minutes: &[u16],
) -> Result<Option<Fault>, AllocError>
    ensures { IfOk result (Finds (Definitions.is_fault_of rules.now users.now domains.now expectation.now)
        (Definitions.free_minutes rules.now users.now domains.now expectation.now (option_copied proven.entry) operation.now aor.now minutes.now)) }
{
    for minute in minutes {
        if is_fault(
            rules,
            users,
            domains,
            expectation,
            proven,
            operation,
            aor,
            *minute,
        ) {
            let fault = fault_with(alloc, proven, operation, aor, *minute)?;
            return Ok(Some(fault));
        }
    }
    Ok(None)
}

/// The same, whoever of some users asks.
fn in_users(
    alloc: Global,
    rules: &[Rule],
    users: &Users,
    domains: &[Bytes],
    expectation: &Expectation,
    operation: &Operation,
    aor: &Aor,
    minutes: &[u16],
    some: &[User],
) -> Result<Option<Fault>, AllocError>
    ensures { IfOk result (Finds (Definitions.is_fault_of rules.now users.now domains.now expectation.now)
        (Definitions.free_users rules.now users.now domains.now expectation.now operation.now aor.now minutes.now some.now)) }
{
    for user in some {
        let found = in_minutes(
            alloc,
            rules,
            users,
            domains,
            expectation,
            Some(user.name.as_slice()),
            operation,
            aor,
            minutes,
        )?;
        if let Some(fault) = found {
            return Ok(Some(fault));
        }
    }
    Ok(None)
}

/// The same, whoever asks.
fn in_askers(
    alloc: Global,
    rules: &[Rule],
    users: &Users,
    domains: &[Bytes],
    expectation: &Expectation,
    operation: &Operation,
    minutes: &[u16],
    aor: &Aor,
) -> Result<Option<Fault>, AllocError>
    ensures { IfOk result (Finds (Definitions.is_fault_of rules.now users.now domains.now expectation.now)
        (Definitions.free_askers rules.now users.now domains.now expectation.now operation.now minutes.now aor.now)) }
{
    let found = in_minutes(
        alloc,
        rules,
        users,
        domains,
        expectation,
        None,
        operation,
        aor,
        minutes,
    )?;
    if let Some(fault) = found {
        return Ok(Some(fault));
    }
    in_users(
        alloc,
        rules,
        users,
        domains,
        expectation,
        operation,
        aor,
        minutes,
        users.as_slice(),
    )
}

/// The same, for an example of a column.
fn in_column(
    alloc: Global,
    rules: &[Rule],
    users: &Users,
    domains: &[Bytes],
    expectation: &Expectation,
    operation: &Operation,
    minutes: &[u16],
    column: &Column,
) -> Result<Option<Fault>, AllocError>
    ensures { IfOk result (Finds (Definitions.is_fault_of rules.now users.now domains.now expectation.now)
        (Definitions.free_column rules.now users.now domains.now expectation.now operation.now minutes.now column.now)) }
{
    let aor = example_of(alloc, column)?;
    in_askers(
        alloc,
        rules,
        users,
        domains,
        expectation,
        operation,
        minutes,
        &aor,
    )
}

/// The same, for an example of each of some columns.
fn in_columns(
    alloc: Global,
    rules: &[Rule],
    users: &Users,
    domains: &[Bytes],
    expectation: &Expectation,
    minutes: &[u16],
    columns: &[Column],
    operation: &Operation,
) -> Result<Option<Fault>, AllocError>
    ensures { IfOk result (Finds (Definitions.is_fault_of rules.now users.now domains.now expectation.now)
        (Definitions.free_columns rules.now users.now domains.now expectation.now minutes.now columns.now operation.now)) }
{
    for column in columns {
        let found = in_column(
            alloc,
            rules,
            users,
            domains,
            expectation,
            operation,
            minutes,
            column,
        )?;
        if let Some(fault) = found {
            return Ok(Some(fault));
        }
    }
    Ok(None)
}

/// The same, by each of some operations.
fn in_operations(
    alloc: Global,
    rules: &[Rule],
    users: &Users,
    domains: &[Bytes],
    expectation: &Expectation,
    minutes: &[u16],
    columns: &[Column],
    operations: &[Operation],
) -> Result<Option<Fault>, AllocError>
    ensures { IfOk result (Finds (Definitions.is_fault_of rules.now users.now domains.now expectation.now)
        (Definitions.free_operations rules.now users.now domains.now expectation.now minutes.now columns.now operations.now)) }
{
    for operation in operations {
        let found = in_columns(
            alloc,
            rules,
            users,
            domains,
            expectation,
            minutes,
            columns,
            operation,
        )?;
        if let Some(fault) = found {
            return Ok(Some(fault));
        }
    }
    Ok(None)
}

/// The patterns of what is expected, as a rule's.
fn pattern_of(expectation: &Expectation) -> Result<Rule, AllocError>
    ensures { IfOk result (λ rule. rule ≡ Definitions.pattern_of expectation.now) }
{
    Ok(Rule {
        id: 0,
        who: expectation.who.clone()?,
        operation: expectation.operation.clone()?,
        target: expectation.target.clone()?,
        window: window_of(expectation.times),
        verdict: RuleVerdict::Deny,
    })
}

fn add_rules(list: &mut Items<Rule>, rules: &[Rule]) -> Result<(), AllocError>
    ensures { OnOk result (list.new ≡ list.old ++ rules.now) }
{
    for rule in rules {
        list.push(rule.clone()?)?;
    }
    Ok(())
}

/// Those patterns, and the rules.
fn told_apart_by(
    alloc: Global,
    rules: &[Rule],
    expectation: &Expectation,
) -> Result<Items<Rule>, AllocError>
    ensures { IfOk result (λ list. list ≡ Definitions.pattern_of expectation.now ∷ rules.now) }
{
    let mut list = Items::new(alloc);
    list.push(pattern_of(expectation)?)?;
    add_rules(&mut list, rules)?;
    Ok(list)
}

/// A fault at an example, where these patterns and the rules tell examples apart.
fn at_examples(
    alloc: Global,
    rules: &[Rule],
    users: &Users,
    domains: &[Bytes],
    expectation: &Expectation,
    told_apart: &[Rule],
) -> Result<Option<Fault>, AllocError>
    ensures { IfOk result (Finds (Definitions.is_fault_of rules.now users.now domains.now expectation.now)
        (Definitions.is_free_by told_apart.now rules.now users.now domains.now expectation.now)) }
{
    let minutes = pieces_of(alloc, told_apart)?;
    let columns = columns_of_all(alloc, told_apart, users, domains)?;
    let operations = operations_of(alloc, &expectation.operation, rules)?;
    in_operations(
        alloc,
        rules,
        users,
        domains,
        expectation,
        minutes.as_slice(),
        columns.as_slice(),
        operations.as_slice(),
    )
}

/// How an expectation stands of these rules, users and own domains. It holds exactly where each question that it means, of whatever user
/// or of nobody, by whatever operation, for whatever address and at whatever minute, is decided so; where it fails, a question is given that
/// isn't. `AllocError` is the only refusal.
#[tactic(auto, using(crate::proofs::Everywhere::no_fault))]
pub fn standing_of(
    alloc: Global,
    rules: &[Rule],
    users: &Users,
    domains: &[Bytes],
    expectation: &Expectation,
) -> Result<ExpectationOutcome, AllocError>
    ensures { IfOk result (StandsSo rules.now users.now domains.now expectation.now) }
{
    let told_apart = told_apart_by(alloc, rules, expectation)?;
    if !are_plain(told_apart.as_slice(), users, domains) {
        return Ok(ExpectationOutcome::Unsaid);
    }
    let found = at_examples(
        alloc,
        rules,
        users,
        domains,
        expectation,
        told_apart.as_slice(),
    )?;
    match found {
        Some(fault) => Ok(ExpectationOutcome::Fails(fault)),
        None => Ok(ExpectationOutcome::Holds),
    }
}
