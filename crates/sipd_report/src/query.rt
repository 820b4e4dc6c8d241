ghost use Rattle.std.specs.Prelude.{◌≡◌, IfOk, option_map};
ghost use Rattle.sipd_report.specs.Entries as Definitions;

use crate::chosen::{is_of_target, is_within};
use crate::times::shown_seconds;
use crate::zone::{Zone, offset_at};
use sip_audit::{AuditOutcome, Record};
use sip_text::{Bytes, same_bytes};
use std::alloc::{AllocError, Global};

/// The form of a report.
#[derive(Clone, Copy)]
pub enum Form {
    /// A table for people, with totals behind it.
    Table,
    /// Comma-separated values for programs (RFC 4180): the rows alone, under the names of the columns.
    Csv,
}

/// What a report is asked for: the records that meet all of what is given.
#[derive(Drop)]
pub struct Query<'q> {
    /// From this second on, of those since 1970 began, on the office's clock.
    pub since: Option<u64>,
    /// Before this second.
    pub until: Option<u64>,
    /// The name of the proven user.
    pub user: Option<&'q [u8]>,
    /// Whom it is for: `USER`, or `USER@HOST`, as an audit line writes them.
    pub target: Option<&'q [u8]>,
    /// The rule that decided; 0 is that none matched.
    pub rule: Option<u32>,
    /// Those alone that policy denied.
    pub denied: bool,
    /// The word of what became of a request, as its audit line has it; any but a challenge, where none is said.
    pub outcome: Option<&'q [u8]>,
    /// How many minutes the office's clock is ahead of UTC, where no zone began by then.
    pub offset: i16,
    /// To which offsets it was set, and from when on.
    pub zones: &'q [Zone],
    /// The form.
    pub form: Form,
}

impl Query<'_> {
    /// How many minutes the office's clock was ahead of UTC at a record's moment.
    pub(crate) fn offset_of(&self, record: &Record) -> i16
        ensures { result ≡ Definitions.offset_of self.now «record».now }
    {
        offset_at(self.zones, self.offset, record.at)
    }

    /// Whether a record is asked for.
    pub(crate) fn asks_for(&self, alloc: Global, record: &Record) -> Result<bool, AllocError>
        ensures { IfOk result (λ asked. asked ≡ Definitions.is_asked self.now «record».now) }
    {
        let met = self.is_met_by(alloc, record)?;
        Ok(met && is_of_outcome(self.outcome, record.outcome))
    }

    /// Whether a record is within the times that are asked for, on the office's clock of its moment.
    fn is_in_time(&self, record: &Record) -> bool
        ensures { result ≡ Definitions.is_in_time self.now «record».now }
    {
        let second = shown_seconds(record.at, self.offset_of(record));
        is_within(self.since, self.until, second)
    }

    /// Whether a record is of the user, by the rule and denied, as far as that is asked for.
    fn is_decided_so(&self, record: &Record) -> bool
        ensures { result ≡ Definitions.is_decided_so self.now «record».now }
    {
        is_of_user(self.user, &record.who)
            && is_by_rule(self.rule, ruling_of(record.outcome))
            && (!self.denied || is_denial(record.outcome))
    }

    /// Whether that is so, and it is of the times and for whom it is asked for.
    fn is_met_by(&self, alloc: Global, record: &Record) -> Result<bool, AllocError>
        ensures { IfOk result (λ met. met ≡ Definitions.meets self.now «record».now) }
    {
        if !(self.is_decided_so(record) && self.is_in_time(record)) {
            return Ok(false);
        }
        is_of_target(alloc, self.target, &record.target)
    }

    /// Whether a record is left out for being a challenge alone, where no outcome is asked for.
    pub(crate) fn leaves_out(&self, alloc: Global, record: &Record) -> Result<bool, AllocError>
        ensures { IfOk result (λ left. left ≡ Definitions.is_left_out self.now «record».now) }
    {
        let met = self.is_met_by(alloc, record)?;
        Ok(met && self.outcome.is_none() && is_challenge(record.outcome))
    }
}

/// Whether the proven user is the one that is asked for; anybody is, where none is.
pub fn is_of_user(wanted: Option<&[u8]>, who: &Option<Bytes>) -> bool
    ensures { result ≡ Definitions.is_of_user (option_map (λ name. name.now) wanted.entry) who.now }
{
    let Some(name) = wanted else {
        return true;
    };
    match who {
        Some(who) => same_bytes(who.as_slice(), name),
        None => false,
    }
}

/// The rule that decided, if one did.
pub(crate) fn ruling_of(outcome: AuditOutcome) -> Option<u32>
    ensures { result ≡ Definitions.ruling_of outcome }
{
    match outcome {
        AuditOutcome::Challenge { status: _ } => None,
        AuditOutcome::Deny { rule } => Some(rule),
        AuditOutcome::Sent { rule, targets: _ } => Some(rule),
        AuditOutcome::Answer { rule, status: _ } => Some(rule),
    }
}

fn is_by_rule(wanted: Option<u32>, ruling: Option<u32>) -> bool
    ensures { result ≡ Definitions.is_by_rule wanted ruling }
{
    let Some(wanted) = wanted else {
        return true;
    };
    match ruling {
        Some(rule) => rule == wanted,
        None => false,
    }
}

/// Whether a credential was asked for.
pub fn is_challenge(outcome: AuditOutcome) -> bool
    ensures { result ≡ Definitions.is_challenge outcome }
{
    match outcome {
        AuditOutcome::Challenge { status: _ } => true,
        AuditOutcome::Deny { rule: _ } => false,
        AuditOutcome::Sent {
            rule: _,
            targets: _,
        } => false,
        AuditOutcome::Answer { rule: _, status: _ } => false,
    }
}

/// The word of what became of a request, as its audit line has it.
fn outcome_word(outcome: AuditOutcome) -> &'static [u8]
    ensures { result.now ≡ Definitions.outcome_word outcome }
{
    match outcome {
        AuditOutcome::Challenge { status: _ } => b"challenge",
        AuditOutcome::Deny { rule: _ } => b"deny",
        AuditOutcome::Sent {
            rule: _,
            targets: _,
        } => b"sent",
        AuditOutcome::Answer { rule: _, status: _ } => b"answer",
    }
}

/// Whether an outcome has the word that is asked for; any but a challenge has, where none is.
fn is_of_outcome(wanted: Option<&[u8]>, outcome: AuditOutcome) -> bool
    ensures { result ≡ Definitions.is_of_outcome (option_map (λ word. word.now) wanted.entry) outcome }
{
    match wanted {
        Some(word) => same_bytes(outcome_word(outcome), word),
        None => !is_challenge(outcome),
    }
}

fn is_denial(outcome: AuditOutcome) -> bool
    ensures { result ≡ Definitions.is_denial outcome }
{
    match outcome {
        AuditOutcome::Challenge { status: _ } => false,
        AuditOutcome::Deny { rule: _ } => true,
        AuditOutcome::Sent {
            rule: _,
            targets: _,
        } => false,
        AuditOutcome::Answer { rule: _, status: _ } => false,
    }
}
