//! The first rule that applies, looked up by operation and by who asks: only classes of rules that may apply are gone through.
ghost use Rattle.std.specs.Prelude.{◌≡◌, ◌≤◌, Bool, ◌&&◌, List, Some, min, length};
ghost use Rattle.std.specs.Option.{option_copied};
ghost use Rattle.sip_policy.specs.declared.rule.Rule.{Rule};
ghost use Rattle.sip_policy_index.specs.Code.{is_of_class, is_of_classes, group_codes, class_codes};
ghost use Rattle.sip_policy_index.specs.Places as Definitions;
ghost use Rattle.sip_policy_index.specs.Places.{places_of, AreFiled};
ghost use Rattle.sip_policy_index.specs.RuleQuestion.{applies_to, is_looked_at, AreGroupsOfProven};
ghost use Rattle.sip_policy_index.specs.Index.{IsIndexOf};

use crate::code::{EACH_USER, GROUP, LIST, REGISTER, SEND, SEND_ANY, USER, text_code};
use crate::index::Index;
use crate::places::RulePlaces;
use crate::rule_question::RuleQuestion;
use sip_base::mixed;
use sip_policy::Operation;
use sip_text::Bytes;

/// Of some places those below `best` are looked at, up to the first whose rule applies: it, or `best` where none does.
/// Where they are the places of a class of rules, it is the first of the class that applies, if that is below `best`.
fn first_below(asked: &RuleQuestion<'_>, places: &[usize], best: usize) -> usize
    requires { best ≤ length asked.now.rules.now }
    ensures first { (class : Rule → Bool) → places.now ≡ places_of class asked.now.rules.now → result
        ≡ min best (Definitions.first_place (λ rule. class rule && applies_to asked.now rule) asked.now.rules.now) }
    ensures below { result ≤ best }
{
    for at in places {
        if *at >= best {
            return best;
        }
        if asked.is_for(&asked.rules[*at]) {
            return *at;
        }
    }
    best
}

/// The least of `best` and of the places of the rules for one of some groups that apply.
fn first_of_groups(
    by_class: &RulePlaces,
    asked: &RuleQuestion<'_>,
    groups: &[Bytes],
    operation: u64,
    best: usize,
) -> usize
    requires filed { AreFiled is_of_class asked.now.rules.now by_class.now }
    requires within { best ≤ length asked.now.rules.now }
    ensures { result ≡ min best
        (Definitions.first_place (λ rule. is_of_classes (group_codes operation groups.now) rule && applies_to asked.now rule) asked.now.rules.now) }
{
    let mut least = best;
    let start = mixed(operation, GROUP);
    for group in groups {
        let code = text_code(start, group.as_slice());
        least = first_below(asked, by_class.of(code), least);
    }
    least
}

/// The least of `best` and of the places of the rules of an operation pattern's code that are for a proven user and
/// apply.
fn first_of_user(
    by_class: &RulePlaces,
    asked: &RuleQuestion<'_>,
    name: &[u8],
    operation: u64,
    best: usize,
) -> usize
    requires filed { AreFiled is_of_class asked.now.rules.now by_class.now }
    requires within { best ≤ length asked.now.rules.now }
    ensures { result ≡ min best
        (Definitions.first_place (λ rule. is_of_classes (class_codes name.now asked.now.groups.now operation) rule
        && applies_to asked.now rule) asked.now.rules.now) }
{
    let each = mixed(operation, EACH_USER);
    let own = text_code(mixed(operation, USER), name);
    let best = first_below(asked, by_class.of(each), best);
    let best = first_below(asked, by_class.of(own), best);
    first_of_groups(by_class, asked, asked.groups, operation, best)
}

/// The least of `best` and of the places of the rules of an operation pattern's code that are for who asks and apply.
fn first_of_pattern(index: &Index, asked: &RuleQuestion<'_>, operation: u64, best: usize) -> usize
    requires index { IsIndexOf asked.now.rules.now index.now }
    requires within { best ≤ length asked.now.rules.now }
    ensures { result ≡ min best
        (Definitions.first_place (λ rule. is_looked_at (option_copied asked.now.proven) asked.now.groups.now operation rule
        && applies_to asked.now rule) asked.now.rules.now) }
{
    match asked.proven {
        Some(name) => first_of_user(&index.by_class, asked, name, operation, best),
        None => first_below(asked, index.by_operation.of(operation), best),
    }
}

/// The place of the first rule that applies, or the number of rules where none does. Takes no memory.
pub(crate) fn first_place(index: &Index, asked: &RuleQuestion<'_>) -> usize
    requires index { IsIndexOf asked.now.rules.now index.now }
    requires groups { AreGroupsOfProven asked.now.users.now (option_copied asked.now.proven) asked.now.groups.now }
    ensures { result ≡ Definitions.first_place (applies_to asked.now) asked.now.rules.now }
{
    let none = asked.rules.len();
    match asked.operation {
        Operation::Register => first_of_pattern(index, asked, REGISTER, none),
        Operation::List => first_of_pattern(index, asked, LIST, none),
        Operation::Send(method) => {
            let own = text_code(SEND, method.as_slice());
            let best = first_of_pattern(index, asked, own, none);
            first_of_pattern(index, asked, SEND_ANY, best)
        }
    }
}
