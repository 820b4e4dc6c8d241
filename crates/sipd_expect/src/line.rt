//! An expectation read of a line, and held against the policy of a configuration.
ghost use Rattle.std.specs.Prelude.{◌≡◌, IfOk, IfErr, Ok};
ghost use Rattle.sipd_expect.specs.Line as Definitions;
ghost use Rattle.sipd_expect.specs.Reads.{Reads};

use crate::error::LineError;
use crate::telling::fault_text;
use crate::times::times_of;
use sip_config_types::Config;
use sip_config_values::{ConfigError, target_of, verdict_of, who_of};
use sip_hops::Hop;
use sip_matrix::{
    Askers, Expectation, ExpectationOutcome, ExpectedDestination, Times, standing_of,
};
use sip_policy::{Operation, OperationPattern, RuleVerdict, TargetPattern, Users, Who};
use sip_text::{Bytes, same_bytes, split_word};
use sipd_ask::{QuestionError, operation_asked};
use std::alloc::{AllocError, Global};

/// Who is meant to ask, and which users.
#[derive(Drop)]
struct ExpectedAskers {
    askers: Askers,
    who: Who,
}

/// Whether a word has a name behind it.
fn is_named(word: &[u8]) -> bool
    ensures { result ≡ Definitions.is_named word.now }
{
    same_bytes(word, b"user") || same_bytes(word, b"group")
}

/// A word, a blank, and another word.
fn both(alloc: Global, word: &[u8], name: &[u8]) -> Result<Bytes, AllocError>
    ensures { IfOk result (λ text. text ≡ Definitions.both word.now name.now) }
{
    let mut text = Bytes::copy(alloc, word)?;
    text.extend(b" ")?;
    text.extend(name)?;
    Ok(text)
}

/// The words by which a line says who asks.
fn who_text(alloc: Global, line: &[u8]) -> Result<Bytes, AllocError>
    ensures { IfOk result (λ text. text ≡ Definitions.who_text line.now) }
{
    let (word, rest) = split_word(line);
    if !is_named(word) {
        return Bytes::copy(alloc, word);
    }
    let (name, _) = split_word(rest);
    both(alloc, word, name)
}

/// What stands behind them.
fn behind_who(line: &[u8]) -> &[u8]
    ensures { result.now ≡ Definitions.behind_who line.now }
{
    let (word, rest) = split_word(line);
    if !is_named(word) {
        return rest;
    }
    let (_, rest) = split_word(rest);
    rest
}

fn has_member(users: &Users, group: &[u8]) -> bool
    ensures { result ≡ Definitions.has_member users.now group.now }
{
    users.as_slice().iter().any(|user| user.is_in(group))
}

/// Who asks, where a rule is for these; none, where it is for nobody.
fn askers_for(users: &Users, who: &Who) -> Option<Askers>
    ensures { result ≡ Definitions.askers_for users.now who.now }
{
    match who {
        Who::Anyone => Some(Askers::Everybody),
        Who::Proven => Some(Askers::Users),
        Who::User(_) => Some(Askers::Users),
        Who::Group(group) => {
            if has_member(users, group.as_slice()) {
                Some(Askers::Users)
            } else {
                None
            }
        }
    }
}

/// Those whom a rule of these words is for.
fn asked_as(users: &Users, who: Who) -> Result<ExpectedAskers, LineError>
    ensures { Reads result (Definitions.asked_as users.now (Ok who)) }
{
    match askers_for(users, &who) {
        Some(askers) => Ok(ExpectedAskers { askers, who }),
        None => Err(LineError::UnknownGroup),
    }
}

/// `nobody`, or as in a rule.
fn asked_by(alloc: Global, users: &Users, text: &[u8]) -> Result<ExpectedAskers, LineError>
    ensures { Reads result (Definitions.asked_by users.now text.now) }
{
    if same_bytes(text, b"nobody") {
        let askers = Askers::Nobody;
        return Ok(ExpectedAskers {
            askers,
            who: Who::Anyone,
        });
    }
    match who_of(alloc, users, text) {
        Ok(who) => asked_as(users, who),
        Err(ConfigError::NoMemory) => Err(LineError::NoMemory),
        Err(
            ConfigError::BadToml
            | ConfigError::MissingKey
            | ConfigError::BadValue
            | ConfigError::DuplicateRule
            | ConfigError::UnknownHop
            | ConfigError::UnknownGroup
            | ConfigError::TooMany,
        ) => Err(LineError::BadWho),
    }
}

fn pattern_as(operation: Operation) -> OperationPattern
    ensures { Definitions.pattern_as (Ok operation) ≡ Ok result }
{
    match operation {
        Operation::Register => OperationPattern::Register,
        Operation::List => OperationPattern::List,
        Operation::Send(method) => OperationPattern::Send(method),
    }
}

/// `any` method, or what is asked of `decide`.
fn operation_by(alloc: Global, word: &[u8]) -> Result<OperationPattern, LineError>
    ensures { Reads result (Definitions.operation_by word.now) }
{
    if same_bytes(word, b"any") || same_bytes(word, b"*") {
        return Ok(OperationPattern::SendAny);
    }
    match operation_asked(alloc, word) {
        Ok(operation) => Ok(pattern_as(operation)),
        Err(QuestionError::NoMemory) => Err(LineError::NoMemory),
        Err(QuestionError::SmallLetter) => Err(LineError::SmallLetter),
        Err(
            QuestionError::BadMinute
            | QuestionError::BadMethod
            | QuestionError::UnknownUser
            | QuestionError::BadTarget
            | QuestionError::BadName
            | QuestionError::BadRealm
            | QuestionError::EmptyPassword
            | QuestionError::LongPassword
            | QuestionError::TakenName
            | QuestionError::OtherRealm,
        ) => Err(LineError::BadOperation),
    }
}

/// As in a rule.
fn target_by(alloc: Global, text: &[u8]) -> Result<TargetPattern, LineError>
    ensures { Reads result (Definitions.target_by text.now) }
{
    match target_of(alloc, text) {
        Ok(target) => Ok(target),
        Err(ConfigError::NoMemory) => Err(LineError::NoMemory),
        Err(
            ConfigError::BadToml
            | ConfigError::MissingKey
            | ConfigError::BadValue
            | ConfigError::DuplicateRule
            | ConfigError::UnknownHop
            | ConfigError::UnknownGroup
            | ConfigError::TooMany,
        ) => Err(LineError::BadTarget),
    }
}

/// The hop of a verdict.
fn place_as(verdict: RuleVerdict) -> Result<ExpectedDestination, LineError>
    ensures { Reads result (Definitions.place_as (Ok verdict)) }
{
    match verdict {
        RuleVerdict::Via(hop) => Ok(ExpectedDestination::Hop(hop)),
        RuleVerdict::Allow => Err(LineError::BadPlace),
        RuleVerdict::Deny => Err(LineError::BadPlace),
    }
}

/// Nothing, `bindings`, or `via HOP` as in a rule.
fn place_by(hops: &[Hop], text: &[u8]) -> Result<ExpectedDestination, LineError>
    ensures { Reads result (Definitions.place_by hops.now text.now) }
{
    if text.is_empty() {
        return Ok(ExpectedDestination::Anywhere);
    }
    if same_bytes(text, b"bindings") {
        return Ok(ExpectedDestination::Bindings);
    }
    match verdict_of(hops, text) {
        Ok(verdict) => place_as(verdict),
        Err(ConfigError::NoMemory) => Err(LineError::NoMemory),
        Err(ConfigError::UnknownHop) => Err(LineError::UnknownHop),
        Err(
            ConfigError::BadToml
            | ConfigError::MissingKey
            | ConfigError::BadValue
            | ConfigError::DuplicateRule
            | ConfigError::UnknownGroup
            | ConfigError::TooMany,
        ) => Err(LineError::BadPlace),
    }
}

/// Where it goes, which is said where it goes anywhere.
fn place_for(hops: &[Hop], times: Times, text: &[u8]) -> Result<ExpectedDestination, LineError>
    ensures { Reads result (Definitions.place_for hops.now times text.now) }
{
    match times {
        Times::Never => {
            if text.is_empty() {
                Ok(ExpectedDestination::Anywhere)
            } else {
                Err(LineError::BadPlace)
            }
        }
        Times::Always | Times::Within(_) => place_by(hops, text),
    }
}

/// An expectation.
fn expectation_of(
    alloc: Global,
    users: &Users,
    hops: &[Hop],
    line: &[u8],
) -> Result<Expectation, LineError>
    ensures { Reads result (Definitions.expectation_of users.now hops.now line.now) }
{
    let who = who_text(alloc, line)?;
    let ExpectedAskers { askers, who } = asked_by(alloc, users, who.as_slice())?;
    let (word, rest) = split_word(behind_who(line));
    let operation = operation_by(alloc, word)?;
    let (word, rest) = split_word(rest);
    let target = target_by(alloc, word)?;
    let (word, rest) = split_word(rest);
    let times = times_of(word)?;
    let place = place_for(hops, times, rest)?;
    Ok(Expectation {
        askers,
        who,
        operation,
        target,
        times,
        place,
    })
}

/// Whether a line says nothing.
fn is_remark(line: &[u8]) -> bool
    ensures { result ≡ Definitions.is_remark line.now }
{
    match line.split_first() {
        Some((byte, _)) => *byte == b'#',
        None => true,
    }
}

/// How an expectation stands of a configuration.
fn standing_for(
    alloc: Global,
    config: &Config,
    expectation: &Expectation,
) -> Result<ExpectationOutcome, AllocError>
    ensures { IfOk result (Definitions.StandsFor config.now expectation.now) }
{
    standing_of(
        alloc,
        config.rules.as_slice(),
        &config.users,
        config.own.domains.as_slice(),
        expectation,
    )
}

/// What is answered of an expectation: nothing where it holds, or a question that isn't decided so.
fn answer_to(
    alloc: Global,
    config: &Config,
    expectation: &Expectation,
) -> Result<Option<Bytes>, LineError>
    ensures answer { IfOk result (Definitions.AnswersFor config.now expectation.now) }
    ensures refused { IfErr result (Definitions.IsRefusedFor config.now expectation.now) }
{
    match standing_for(alloc, config, expectation)? {
        ExpectationOutcome::Holds => Ok(None),
        ExpectationOutcome::Fails(fault) => Ok(Some(fault_text(alloc, config, &fault)?)),
        ExpectationOutcome::Unsaid => Err(LineError::Unsaid),
    }
}

/// The text of a question that a line means and that isn't decided as it says, with what is decided about it; none exactly where each
/// question that it means, of each user and of nobody, for each address and at each minute of the day, is decided so, or where the line is
/// empty or a remark.
///
/// Refuses, in this order: BadWho or UnknownGroup, BadOperation or SmallLetter, BadTarget, BadTimes, BadPlace or UnknownHop; Unsaid. NoMemory
/// may come in place of any answer.
#[tactic(auto, using(crate::proofs::Lines::read_refused, crate::proofs::Lines::line_answered, crate::proofs::Lines::line_refused))]
pub fn fault_of_line(
    alloc: Global,
    config: &Config,
    line: &[u8],
) -> Result<Option<Bytes>, LineError>
    ensures answer { IfOk result (Definitions.Answers config.now line.now) }
    ensures refused { IfErr result (Definitions.IsRefused config.now line.now) }
{
    if is_remark(line) {
        return Ok(None);
    }
    let expectation = expectation_of(alloc, &config.users, config.hops.as_slice(), line)?;
    answer_to(alloc, config, &expectation)
}
