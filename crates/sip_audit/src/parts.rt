//! An audit line taken apart in its order, word by word; its end is read in `decision`. `reading` makes a record of it.
ghost use Rattle.std.specs.Prelude.{◌≡◌, option_map};
ghost use Rattle.sip_text.specs.Numbers.{plain_decimal_of};
ghost use Rattle.sip_audit.specs.Reading as Readings;
ghost use Rattle.sip_audit.specs.Reading.{word_before};
ghost use Rattle.sip_audit.specs.Parts.{seen};

use crate::decision::outcome_of;
use crate::name::is_name;
use crate::record::{AuditOperation, AuditOutcome};
use crate::target::target_of;
use sip_text::{is_token, plain_decimal, split_once};

/// What a line says, in texts of that line, its user as it is written.
#[derive(Drop)]
pub(crate) struct AuditLineParts<'l> {
    pub at: u64,
    pub number: u64,
    pub method: &'l [u8],
    pub who: Option<&'l [u8]>,
    pub user: &'l [u8],
    pub host: &'l [u8],
    pub operation: AuditOperation,
    pub minute: Option<u16>,
    pub outcome: AuditOutcome,
}

fn number_before(text: &[u8]) -> Option<(u64, &[u8])>
    ensures { option_map (λ x. (x.0, x.1.now)) result ≡ word_before plain_decimal_of text.now }
{
    let (word, rest) = split_once(text, b' ')?;
    let number = plain_decimal(word)?;
    Some((number, rest))
}

fn method_before(text: &[u8]) -> Option<(&[u8], &[u8])>
    ensures { option_map (λ x. (x.0.now, x.1.now)) result ≡ word_before Readings.method_of text.now }
{
    let (word, rest) = split_once(text, b' ')?;
    if is_token(word) {
        Some((word, rest))
    } else {
        None
    }
}

/// The name of a user, or `-` for nobody.
fn who_of(word: &[u8]) -> Option<Option<&[u8]>>
    ensures { option_map (λ who. option_map (λ name. name.now) who) result ≡ Readings.who_of word.now }
{
    if word == b"-".as_slice() {
        return Some(None);
    }
    if is_name(word) {
        Some(Some(word))
    } else {
        None
    }
}

fn who_before(text: &[u8]) -> Option<(Option<&[u8]>, &[u8])>
    ensures { option_map (λ x. (option_map (λ name. name.now) x.0, x.1.now)) result ≡ word_before Readings.who_of text.now }
{
    let (word, rest) = split_once(text, b' ')?;
    let who = who_of(word)?;
    Some((who, rest))
}

fn target_before(text: &[u8]) -> Option<((&[u8], &[u8]), &[u8])>
    ensures { option_map (λ x. ((x.0.0.now, x.0.1.now), x.1.now)) result ≡ word_before Readings.target_of text.now }
{
    let (word, rest) = split_once(text, b' ')?;
    let target = target_of(word)?;
    Some((target, rest))
}

fn operation_of(word: &[u8]) -> Option<AuditOperation>
    ensures { result ≡ Readings.operation_of word.now }
{
    if word == b"register".as_slice() {
        return Some(AuditOperation::Register);
    }
    if word == b"list".as_slice() {
        return Some(AuditOperation::List);
    }
    if word == b"send".as_slice() {
        return Some(AuditOperation::Send);
    }
    None
}

fn operation_before(text: &[u8]) -> Option<(AuditOperation, &[u8])>
    ensures { option_map (λ x. (x.0, x.1.now)) result ≡ word_before Readings.operation_of text.now }
{
    let (word, rest) = split_once(text, b' ')?;
    let operation = operation_of(word)?;
    Some((operation, rest))
}

/// What a line says. Takes no memory.
#[tactic(auto, unfolding(crate::specs::Reading::parts_of))]
pub(crate) fn parts_of(line: &[u8]) -> Option<AuditLineParts<'_>>
    ensures { option_map seen result ≡ Readings.parts_of line.now }
{
    let (at, rest) = number_before(line)?;
    let (number, rest) = number_before(rest)?;
    let (method, rest) = method_before(rest)?;
    let (who, rest) = who_before(rest)?;
    let ((user, host), rest) = target_before(rest)?;
    let (operation, rest) = operation_before(rest)?;
    let (minute, outcome) = outcome_of(rest)?;
    Some(AuditLineParts {
        at,
        number,
        method,
        who,
        user,
        host,
        operation,
        minute,
        outcome,
    })
}
