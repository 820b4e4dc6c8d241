//! An address for each column, and each operation that rules tell apart; and whether texts of rules are such that these are examples.
ghost use Rattle.std.specs.Prelude.{◌≡◌, ◌++◌, IfOk, OnOk};
ghost use Rattle.std.specs.List.{flat_map, list_all, list_any};
ghost use Rattle.sip_matrix.specs.Address;
ghost use Rattle.sip_matrix.specs.Example as Definitions;

use crate::column::Column;
use sip_policy::{Operation, OperationPattern, Rule, TargetPattern, User, Users, is_own_domain};
use sip_text::{Bytes, Items, same_bytes, same_no_case};
use sip_uri::Aor;
use std::alloc::{AllocError, Global};

/// A host that no network has (RFC 2606 2).
const OTHER_HOST: &[u8] = b"elsewhere.invalid";

/// An address of a column.
pub(crate) fn example_of(alloc: Global, column: &Column) -> Result<Aor, AllocError>
    ensures { IfOk result (λ aor. aor ≡ Definitions.example_of column.now) }
{
    match column {
        Column::Named(aor) => aor.clone(),
        Column::Begins(aor) => {
            let user = Bytes::joined(alloc, aor.user.as_slice(), b"*")?;
            let host = aor.host.clone()?;
            Ok(Aor { user, host })
        }
        Column::Elsewhere => {
            let user = Bytes::copy(alloc, b"*")?;
            let host = Bytes::copy(alloc, OTHER_HOST)?;
            Ok(Aor { user, host })
        }
    }
}

/// Adds the method that a rule names.
fn add_named(
    operations: &mut Items<Operation>,
    pattern: &OperationPattern,
) -> Result<(), AllocError>
    ensures { OnOk result (operations.new ≡ operations.old ++ Definitions.named_by pattern.now) }
{
    match pattern {
        OperationPattern::Send(method) => operations.push(Operation::Send(method.clone()?)),
        OperationPattern::Register | OperationPattern::List | OperationPattern::SendAny => Ok(()),
    }
}

fn add_all_named(operations: &mut Items<Operation>, rules: &[Rule]) -> Result<(), AllocError>
    ensures { OnOk result (operations.new ≡ operations.old ++ flat_map (λ rule. Definitions.named_by rule.operation) rules.now) }
{
    for rule in rules {
        add_named(operations, &rule.operation)?;
    }
    Ok(())
}

/// The operations of a pattern, as far as rules tell them apart.
pub(crate) fn operations_of(
    alloc: Global,
    pattern: &OperationPattern,
    rules: &[Rule],
) -> Result<Items<Operation>, AllocError>
    ensures { IfOk result (λ operations. operations ≡ Definitions.operations_of pattern.now rules.now) }
{
    let mut operations = Items::new(alloc);
    match pattern {
        OperationPattern::Register => operations.push(Operation::Register)?,
        OperationPattern::List => operations.push(Operation::List)?,
        OperationPattern::Send(method) => operations.push(Operation::Send(method.clone()?))?,
        OperationPattern::SendAny => {
            operations.push(Operation::Send(Bytes::copy(alloc, b"*")?))?;
            add_all_named(&mut operations, rules)?;
        }
    }
    Ok(operations)
}

fn has_star(text: &[u8]) -> bool
    ensures { result ≡ Definitions.has_star text.now }
{
    text.iter().any(|byte| *byte == b'*')
}

fn is_plain_target(target: &TargetPattern) -> bool
    ensures { result ≡ Definitions.is_plain_target target.now }
{
    match target {
        TargetPattern::Exact { user, domain: _ } => !has_star(user.as_slice()),
        TargetPattern::Prefix { prefix, domain: _ } => !has_star(prefix.as_slice()),
        TargetPattern::SelfTarget | TargetPattern::Any => true,
    }
}

fn is_plain_operation(pattern: &OperationPattern) -> bool
    ensures { result ≡ Definitions.is_plain_operation pattern.now }
{
    match pattern {
        OperationPattern::Send(method) => !same_bytes(b"*", method.as_slice()),
        OperationPattern::Register | OperationPattern::List | OperationPattern::SendAny => true,
    }
}

fn names_host(host: &[u8], target: &TargetPattern) -> bool
    ensures { result ≡ Address.names_host host.now target.now }
{
    match target {
        TargetPattern::Exact { user: _, domain } => same_no_case(host, domain.as_slice()),
        TargetPattern::Prefix { prefix: _, domain } => same_no_case(host, domain.as_slice()),
        TargetPattern::SelfTarget | TargetPattern::Any => false,
    }
}

fn is_plain_rule(rule: &Rule) -> bool
    ensures { result ≡ Definitions.is_plain_rule rule.now }
{
    !names_host(OTHER_HOST, &rule.target)
        && (is_plain_target(&rule.target) && is_plain_operation(&rule.operation))
}

fn has_starred_user(users: &[User]) -> bool
    ensures { result ≡ list_any (λ user. Definitions.has_star user.name) users.now }
{
    users.iter().any(|user| has_star(user.name.as_slice()))
}

fn are_plain_rules(rules: &[Rule]) -> bool
    ensures { result ≡ list_all Definitions.is_plain_rule rules.now }
{
    rules.iter().all(|rule| is_plain_rule(rule))
}

/// Whether no text of a rule's target or of a user's name has a `*`, and no host is the one that stands for all others.
pub(crate) fn are_plain(rules: &[Rule], users: &Users, domains: &[Bytes]) -> bool
    ensures { result ≡ Definitions.are_plain rules.now users.now domains.now }
{
    !is_own_domain(domains, OTHER_HOST)
        && (!has_starred_user(users.as_slice()) && are_plain_rules(rules))
}
