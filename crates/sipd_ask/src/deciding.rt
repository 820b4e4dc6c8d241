//! What a server with a configuration would answer to a request, in lines, for the command `decide`. No server runs for it.
ghost use Rattle.std.specs.Prelude.{◌≡◌, ◌++◌, false, IfOk, OnOk, Ok, Err};
ghost use Rattle.std.specs.Char.{is_ascii_graphic};
ghost use Rattle.std.specs.List.{list_all};
ghost use Rattle.std.specs.Option.{option_copied, option_map_or};
ghost use Rattle.sip_text.specs.Splits.{split_at_byte};
ghost use Rattle.sip_text.specs.Words.{is_same_text};
ghost use Rattle.sipd_ask.specs.Refusals.{Reads};
ghost use Rattle.sip_uri.specs.Reading.{reading_of};
ghost use Rattle.sip_uri.specs.declared.error.UriError.TheVariants.{Syntax};
ghost use Rattle.sip_validate.specs.Faults;
ghost use Rattle.sipd_ask.specs.Question.{shown};
ghost use Rattle.sipd_ask.specs.Answers;
ghost use Rattle.sipd_ask.specs.Decide as Definitions;

use crate::answer::Answer;
use crate::error::{QuestionError, confirm};
use crate::question::DecideQuestion;
use crate::question_texts::{is_configured, operation_asked, uri_text};
use crate::showing::{put_clock, put_rule_text};
use crate::telling::{line_by, put_number};
use sip_config_types::Config;
use sip_hops::Hop;
use sip_policy::{Operation, Rule, deciding_rule, ruling_by};
use sip_text::{Bytes, same_no_case, split_once};
use sip_uri::{Aor, Uri, UriError, aor_of, parse_uri};
use std::alloc::{AllocError, Global};

/// The minutes of a day.
const DAY: u16 = 1_440;

/// The rule that decides about a request for an address of record at a minute, if one does. Takes no memory.
pub fn rule_for<'c>(
    config: &'c Config,
    proven: Option<&[u8]>,
    operation: &Operation,
    aor: &Aor,
    minute: u16,
) -> Option<&'c Rule>
    ensures { option_copied result ≡ Definitions.rule_for config.now (option_copied proven.entry) operation.now aor.now minute }
{
    deciding_rule(
        config.rules.as_slice(),
        &config.users,
        config.own.domains.as_slice(),
        proven,
        operation,
        aor,
        minute,
    )
}

/// What the server decides of a request for an address of record at a minute, as a line. `AllocError` is the only refusal.
pub fn line_for(
    alloc: Global,
    config: &Config,
    proven: Option<&[u8]>,
    operation: &Operation,
    aor: &Aor,
    minute: u16,
) -> Result<Bytes, AllocError>
    ensures { IfOk result (λ line. line ≡ Definitions.line_for config.now (option_copied proven.entry) operation.now aor.now minute) }
{
    let rule = rule_for(config, proven, operation, aor, minute);
    let decision = ruling_by(rule, proven, minute).decision;
    line_by(alloc, config, operation, aor, rule, decision)
}

/// Adds what a rule says, on a line of its own.
fn put_ruling_line(text: &mut Bytes, hops: &[Hop], rule: &Rule) -> Result<(), AllocError>
    ensures { OnOk result (text.new ≡ text.old ++ Answers.ruling_line hops.now rule.now) }
{
    put_number(text, b"rule ", u64::from(rule.id), b": ")?;
    put_rule_text(text, hops, rule)?;
    text.push(b'\n')
}

/// Adds the rule that decides, if one does.
fn put_ruling(text: &mut Bytes, hops: &[Hop], rule: Option<&Rule>) -> Result<(), AllocError>
    ensures { OnOk result (text.new ≡ text.old ++ Answers.ruling_text hops.now (option_copied rule.entry)) }
{
    match rule {
        Some(rule) => put_ruling_line(text, hops, rule),
        None => Ok(()),
    }
}

/// Adds the minute that was taken.
fn put_minute(text: &mut Bytes, minute: u16) -> Result<(), AllocError>
    ensures { OnOk result (text.new ≡ text.old ++ Answers.minute_text minute) }
{
    put_number(text, b"minute ", u64::from(minute), b", ")?;
    put_clock(text, minute)?;
    text.push(b'\n')
}

/// What the rules decide of a request for an address of record at a minute.
fn ruled(
    alloc: Global,
    config: &Config,
    proven: Option<&[u8]>,
    operation: &Operation,
    aor: &Aor,
    minute: u16,
) -> Result<Answer, AllocError>
    ensures { IfOk result (λ answer. answer ≡ Answers.ruled config.now (option_copied proven.entry) operation.now aor.now minute) }
{
    let rule = rule_for(config, proven, operation, aor, minute);
    let decision = ruling_by(rule, proven, minute).decision;
    let mut text = line_by(alloc, config, operation, aor, rule, decision)?;
    put_ruling(&mut text, config.hops.as_slice(), rule)?;
    put_minute(&mut text, minute)?;
    Ok(Answer {
        text,
        decision: Some(decision),
    })
}

/// What a check of the server refuses before any rule is asked.
fn refused(alloc: Global, text: &[u8]) -> Result<Answer, AllocError>
    ensures { IfOk result (λ answer. answer ≡ Answers.refused text.now) }
{
    Ok(Answer {
        text: Bytes::copy(alloc, text)?,
        decision: None,
    })
}

/// Whether what stands before the first `:` is this scheme, in any case.
fn begins_with_scheme(scheme: &[u8], text: &[u8]) -> bool
    ensures { result ≡ option_map_or (λ x. is_same_text x.0 scheme.now) (split_at_byte 58 text.now) false }
{
    match split_once(text, b':') {
        Some((front, _)) => same_no_case(front, scheme),
        None => false,
    }
}

/// Whether a URI is `sip:`, as the server tests a Request-URI.
fn has_sip_scheme(uri: &[u8]) -> bool
    ensures { result ≡ Faults.has_sip_scheme uri.now }
{
    begins_with_scheme(b"sip", uri)
}

/// Whether a request that is sent on would go to another URI than `sip:`.
fn is_sent_elsewhere(operation: &Operation, text: &[u8]) -> bool
    ensures { result ≡ Definitions.is_sent_elsewhere operation.now text.now }
{
    match operation {
        Operation::Register | Operation::List => false,
        Operation::Send(_) => !has_sip_scheme(text),
    }
}

/// That a check of the server refuses what is asked before any rule is.
fn refusal_text(operation: &Operation) -> &'static [u8]
    ensures { result.now ≡ Definitions.refusal_text operation.now }
{
    match operation {
        Operation::Register => b"400 before any rule: To of a REGISTER is sip: or sips:\n",
        Operation::List => b"400 before any rule: To of a REGISTER is sip: or sips:\n",
        Operation::Send(_) => b"416 before any rule: a Request-URI is sip:\n",
    }
}

/// What the server answers to a request whose target means this SIP or SIPS URI, of this text.
fn answer_for(
    alloc: Global,
    config: &Config,
    question: &DecideQuestion<'_>,
    operation: &Operation,
    text: &[u8],
    uri: &Uri,
) -> Result<Answer, QuestionError>
    ensures { Reads (λ answer. answer) result (Answers.answer_by config.now (shown question.now) operation.now text.now (Ok uri.now)) }
{
    if is_sent_elsewhere(operation, text) {
        return Ok(refused(alloc, refusal_text(operation))?);
    }
    let aor = aor_of(alloc, uri)?;
    Ok(ruled(
        alloc,
        config,
        question.user,
        operation,
        &aor,
        question.minute,
    )?)
}

/// Whether a text has visible bytes alone, as a Request-URI has (RFC 3261 7.1).
fn is_one_word(text: &[u8]) -> bool
    ensures { result ≡ list_all is_ascii_graphic text.now }
{
    text.iter().all(|byte| byte.is_ascii_graphic())
}

/// Whether a text stands in one word behind a scheme, in any case.
fn is_of_scheme(scheme: &[u8], text: &[u8]) -> bool
    ensures { result ≡ Definitions.is_of_scheme scheme.now text.now }
{
    is_one_word(text) && begins_with_scheme(scheme, text)
}

/// That a request is a bad one.
fn bad_text(operation: &Operation) -> &'static [u8]
    ensures { result.now ≡ Definitions.bad_text operation.now }
{
    match operation {
        Operation::Register => b"400 before any rule: To of a REGISTER is no URI\n",
        Operation::List => b"400 before any rule: To of a REGISTER is no URI\n",
        Operation::Send(_) => b"400 before any rule: the Request-URI is no URI\n",
    }
}

/// The same of a text that is no URI: what a check of the server says of what begins as a SIP or SIPS URI.
fn unread_answer(
    alloc: Global,
    config: &Config,
    question: &DecideQuestion<'_>,
    operation: &Operation,
    text: &[u8],
) -> Result<Answer, QuestionError>
    ensures { Reads (λ answer. answer) result (Answers.answer_by config.now (shown question.now) operation.now text.now (Err Syntax)) }
{
    if is_sent_elsewhere(operation, text) && is_of_scheme(b"sips", text) {
        return Ok(refused(alloc, refusal_text(operation))?);
    }
    if is_of_scheme(b"sip", question.target) || is_of_scheme(b"sips", question.target) {
        return Ok(refused(alloc, bad_text(operation))?);
    }
    Err(QuestionError::BadTarget)
}

/// The same of this text, whatever it is.
fn answer_by(
    alloc: Global,
    config: &Config,
    question: &DecideQuestion<'_>,
    operation: &Operation,
    text: &[u8],
) -> Result<Answer, QuestionError>
    ensures { Reads (λ answer. answer) result (Answers.answer_by config.now (shown question.now) operation.now text.now (reading_of text.now)) }
{
    match parse_uri(alloc, text) {
        Ok(uri) => answer_for(alloc, config, question, operation, text, &uri),
        Err(UriError::Scheme) => Ok(refused(alloc, refusal_text(operation))?),
        Err(UriError::NoMemory) => Err(QuestionError::NoMemory),
        Err(UriError::Syntax) => unread_answer(alloc, config, question, operation, text),
    }
}

/// Who may call whom: the rule that decides, its verdict and where the request goes, by the definition by which a server with this
/// configuration decides (`decision_of` of `sip_policy`), what that rule says, and the minute. Where it goes is said as far as it is
/// known without bindings. What a check of the server refuses before any rule is asked is said so: for the scheme of the target's
/// URI, 416 or in a REGISTER 400, and 400 where what begins as a SIP or SIPS URI is none (RFC 3261 16.3, 10.3).
///
/// Refuses, in this order: BadMinute, BadMethod or SmallLetter, UnknownUser, BadTarget. NoMemory may come in place of any
/// answer.
pub fn answer_to(
    alloc: Global,
    config: &Config,
    question: &DecideQuestion<'_>,
) -> Result<Answer, QuestionError>
    ensures { Reads (λ answer. answer) result (Answers.answer_to config.now (shown question.now)) }
{
    confirm(question.minute < DAY, QuestionError::BadMinute)?;
    let operation = operation_asked(alloc, question.operation)?;
    confirm(
        is_configured(&config.users, question.user),
        QuestionError::UnknownUser,
    )?;
    let text = uri_text(alloc, question.target)?;
    answer_by(alloc, config, question, &operation, text.as_slice())
}
