//! Cells of the table, and the rule that decides in one.
ghost use Rattle.std.specs.Prelude.{◌≡◌};
ghost use Rattle.std.specs.Option.{option_copied};
ghost use Rattle.sip_matrix.specs.Cell as Definitions;

use crate::column::Column;
use sip_policy::{Operation, Rule, Users, holds};

/// Whether a rule applies in a cell.
fn applies_in(
    users: &Users,
    row: Option<&[u8]>,
    operation: &Operation,
    column: &Column,
    own: bool,
    piece: u16,
    rule: &Rule,
) -> bool
    ensures { result ≡ Definitions.applies_in users.now (option_copied row.entry) operation.now column.now own piece rule.now }
{
    holds(rule.window, piece)
        && rule.operation.matches(operation)
        && column.meets(own, &rule.target)
        && rule.who.matches(users, row)
}

/// The rule that decides in the cell of a row (a user's name, or nobody), a column and a piece of the day, where the addresses
/// are the asker's own or not. Takes no memory.
pub fn rule_in<'a>(
    rules: &'a [Rule],
    users: &Users,
    row: Option<&[u8]>,
    operation: &Operation,
    column: &Column,
    own: bool,
    piece: u16,
) -> Option<&'a Rule>
    ensures { option_copied result ≡ Definitions.rule_in rules.now users.now (option_copied row.entry) operation.now column.now own piece }
{
    for rule in rules {
        if applies_in(users, row, operation, column, own, piece, rule) {
            return Some(rule);
        }
    }
    None
}
