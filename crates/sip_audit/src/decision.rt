//! The end of an audit line, written and read: the rule, the minute at which it decided, and what became of the request.
ghost use Rattle.std.specs.Prelude.{◌≡◌, ◌++◌, decimal, OnOk};
ghost use Rattle.sip_audit.specs.Lines.{rule_text, outcome_text};
ghost use Rattle.sip_audit.specs.Reading as Readings;
ghost use Rattle.sip_text.specs.Splits.{split_at_byte};

use crate::record::AuditOutcome;
use sip_text::{Buffer, plain_decimal_below, split_once};
use std::alloc::AllocError;

/// Adds the number of a rule and, behind `@`, the minute at which it decided, if it has a window.
#[inline(always)]
fn push_rule(line: &mut Buffer, rule: u32, minute: Option<u16>) -> Result<(), AllocError>
    ensures { OnOk result (line.new ≡ line.old ++ rule_text rule minute) }
{
    line.push_decimal(u64::from(rule))?;
    if let Some(minute) = minute {
        line.extend(b"@")?;
        line.push_decimal(u64::from(minute))?;
    }
    Ok(())
}

/// Adds a word and a number.
#[inline(always)]
fn push_count(line: &mut Buffer, word: &[u8], number: u64) -> Result<(), AllocError>
    ensures { OnOk result (line.new ≡ line.old ++ (word.now ++ decimal number)) }
{
    line.extend(word)?;
    line.push_decimal(number)
}

/// Adds the rule that decided, and what became of the request.
#[inline(always)]
pub(crate) fn push_outcome(
    line: &mut Buffer,
    minute: Option<u16>,
    outcome: AuditOutcome,
) -> Result<(), AllocError>
    ensures { OnOk result (line.new ≡ line.old ++ outcome_text minute outcome) }
{
    match outcome {
        AuditOutcome::Challenge { status } => push_count(line, b"- challenge ", u64::from(status)),
        AuditOutcome::Deny { rule } => {
            push_rule(line, rule, minute)?;
            line.extend(b" deny")
        }
        AuditOutcome::Sent { rule, targets } => {
            push_rule(line, rule, minute)?;
            push_count(line, b" sent ", u64::from(targets))
        }
        AuditOutcome::Answer { rule, status } => {
            push_rule(line, rule, minute)?;
            push_count(line, b" answer ", u64::from(status))
        }
    }
}

fn number_of(word: &[u8]) -> Option<u32>
    ensures { result ≡ Readings.number_of word.now }
{
    let number = plain_decimal_below(word, 1 << 32)?;
    Some(number as u32)
}

fn status_of(word: &[u8]) -> Option<u16>
    ensures { result ≡ Readings.status_of word.now }
{
    let status = plain_decimal_below(word, 1 << 16)?;
    Some(status as u16)
}

/// The minute of the day that a word writes.
fn minute_of(word: &[u8]) -> Option<u16>
    ensures { result ≡ Readings.minute_of word.now }
{
    let minute = plain_decimal_below(word, 1440)?;
    Some(minute as u16)
}

/// A rule that has a window, and the minute at which it decided. It isn't rule 0, which stands for none.
fn rule_within(rule: &[u8], minute: &[u8]) -> Option<(u32, Option<u16>)>
    ensures { result ≡ Readings.rule_from rule.now (Some (rule.now, minute.now)) }
{
    let rule = number_of(rule)?;
    let minute = minute_of(minute)?;
    if rule == 0 {
        return None;
    }
    Some((rule, Some(minute)))
}

/// The rule that a word names, and the minute behind its `@`, if there is one.
fn rule_in(word: &[u8]) -> Option<(u32, Option<u16>)>
    ensures { result ≡ Readings.rule_in word.now }
{
    match split_once(word, b'@') {
        Some((rule, minute)) => rule_within(rule, minute),
        None => Some((number_of(word)?, None)),
    }
}

/// What a rule let through: a word, and the number behind it.
fn counted(rule: u32, text: &[u8]) -> Option<AuditOutcome>
    ensures { result ≡ Readings.counted rule (split_at_byte 32 text.now) }
{
    let (word, number) = split_once(text, b' ')?;
    if word == b"sent".as_slice() {
        let targets = number_of(number)?;
        return Some(AuditOutcome::Sent { rule, targets });
    }
    if word == b"answer".as_slice() {
        let status = status_of(number)?;
        return Some(AuditOutcome::Answer { rule, status });
    }
    None
}

/// What became of a request by a rule.
fn decided(rule: u32, text: &[u8]) -> Option<AuditOutcome>
    ensures { result ≡ Readings.decided rule text.now }
{
    if text == b"deny".as_slice() {
        return Some(AuditOutcome::Deny { rule });
    }
    counted(rule, text)
}

/// That a request was challenged.
fn challenged(text: &[u8]) -> Option<AuditOutcome>
    ensures { result ≡ Readings.challenged text.now }
{
    let (word, status) = split_once(text, b' ')?;
    if word == b"challenge".as_slice() {
        let status = status_of(status)?;
        return Some(AuditOutcome::Challenge { status });
    }
    None
}

/// The minute and the outcome that the end of a line writes: a rule, or `-` for a challenge, and what became of
/// the request.
pub(crate) fn outcome_of(text: &[u8]) -> Option<(Option<u16>, AuditOutcome)>
    ensures { result ≡ Readings.outcome_of text.now }
{
    let (word, rest) = split_once(text, b' ')?;
    if word == b"-".as_slice() {
        return Some((None, challenged(rest)?));
    }
    let (rule, minute) = rule_in(word)?;
    let outcome = decided(rule, rest)?;
    Some((minute, outcome))
}
