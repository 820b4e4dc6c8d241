//! The words of a call's cells.
ghost use Rattle.std.specs.Prelude.{◌≡◌, ◌<◌, ◌^◌, ◌++◌, Some, OnOk, IfOk};
ghost use Rattle.sip_audit.specs.Lines.{rule_text as rule_text_of};
ghost use Rattle.sip_days.specs.Results.{result_of};
ghost use Rattle.sipd_report.specs.Times.{offset_text};
ghost use Rattle.sipd_calls.specs.Moments;
ghost use Rattle.sipd_calls.specs.Choices;
ghost use Rattle.sipd_calls.specs.Words as Definitions;

use crate::moments::{push_length, push_short, seconds_of};
use sip_audit::AuditOutcome;
use sip_days::{Call, CallResult};
use sip_text::Bytes;
use sipd_report::{push_dated, push_offset, shown_seconds};
use std::alloc::{AllocError, Global};

/// Adds a result, in a word.
fn push_result(text: &mut Bytes, came: CallResult) -> Result<(), AllocError>
    ensures { OnOk result (text.new ≡ text.old ++ Definitions.result_text came) }
{
    match came {
        CallResult::Open => text.extend(b"open"),
        CallResult::Answered => text.extend(b"answered"),
        CallResult::Busy => text.extend(b"busy"),
        CallResult::NoAnswer => text.extend(b"no answer"),
        CallResult::Cancelled => text.extend(b"cancelled"),
        CallResult::Denied => text.extend(b"denied"),
        CallResult::Challenged => text.extend(b"unproven"),
        CallResult::Other(status) => text.push_decimal(u64::from(status)),
    }
}

/// Adds what came of a call, in a word.
pub(crate) fn push_came_of(text: &mut Bytes, call: &Call) -> Result<(), AllocError>
    ensures { OnOk result (text.new ≡ text.old ++ Definitions.result_text (result_of call.now)) }
{
    push_result(text, call.result())
}

/// Adds a rule's number, with the minute of the day where it has a window.
fn push_rule(text: &mut Bytes, rule: u32, minute: Option<u16>) -> Result<(), AllocError>
    ensures { OnOk result (text.new ≡ text.old ++ rule_text_of rule minute) }
{
    text.push_decimal(u64::from(rule))?;
    match minute {
        Some(minute) => {
            text.push(b'@')?;
            text.push_decimal(u64::from(minute))
        }
        None => Ok(()),
    }
}

/// Such a text.
fn rule_text(alloc: Global, rule: u32, minute: Option<u16>) -> Result<Option<Bytes>, AllocError>
    ensures { IfOk result (λ text. text ≡ Some (rule_text_of rule minute)) }
{
    let mut text = Bytes::new(alloc);
    push_rule(&mut text, rule, minute)?;
    Ok(Some(text))
}

/// The rule that decided; none at a challenge.
pub fn ruled_text(
    alloc: Global,
    outcome: AuditOutcome,
    minute: Option<u16>,
) -> Result<Option<Bytes>, AllocError>
    ensures { IfOk result (λ text. text ≡ Definitions.ruled_text outcome minute) }
{
    match outcome {
        AuditOutcome::Challenge { status: _ } => Ok(None),
        AuditOutcome::Deny { rule } => rule_text(alloc, rule, minute),
        AuditOutcome::Sent { rule, targets: _ } => rule_text(alloc, rule, minute),
        AuditOutcome::Answer { rule, status: _ } => rule_text(alloc, rule, minute),
    }
}

/// A side of a call.
pub(crate) fn side_text(by_caller: bool) -> &'static [u8]
    ensures { result.now ≡ Definitions.side_text by_caller }
{
    if by_caller { b"caller" } else { b"callee" }
}

/// When a call began, in seconds since 1970 began, on the office's clock.
pub(crate) fn began(call: &Call) -> u64
    ensures shown { result ≡ Choices.began call.now }
    ensures small { result < 2 ^ 60 }
{
    shown_seconds(call.decision.at, call.offset)
}

/// Adds when a call began, as 11-27 14:03:36.
pub(crate) fn push_start(text: &mut Bytes, call: &Call) -> Result<(), AllocError>
    ensures { OnOk result (text.new ≡ text.old ++ Moments.start_text call.now.offset call.now.decision.at) }
{
    push_short(text, began(call))
}

/// Adds how far a call's clock is ahead of UTC.
fn push_ahead(text: &mut Bytes, call: &Call) -> Result<(), AllocError>
    ensures { OnOk result (text.new ≡ text.old ++ offset_text call.now.offset) }
{
    push_offset(text, call.offset)
}

/// Adds when a call began, with year and offset (ISO 8601).
pub(crate) fn push_iso(text: &mut Bytes, call: &Call) -> Result<(), AllocError>
    ensures { OnOk result (text.new ≡ text.old ++ Moments.iso_text call.now.offset call.now.decision.at) }
{
    push_dated(text, b'T', began(call))?;
    push_ahead(text, call)
}

/// Adds how long a call was talked.
pub(crate) fn push_talk(text: &mut Bytes, talk: Option<u64>) -> Result<(), AllocError>
    ensures { OnOk result (text.new ≡ text.old ++ Definitions.talk_text talk) }
{
    match talk {
        Some(talk) => push_length(text, seconds_of(talk)),
        None => Ok(()),
    }
}

/// Adds how long it rang, in seconds.
pub(crate) fn push_ring(text: &mut Bytes, ring: Option<u64>) -> Result<(), AllocError>
    ensures { OnOk result (text.new ≡ text.old ++ Definitions.ring_text ring) }
{
    match ring {
        Some(ring) => text.push_decimal(seconds_of(ring)),
        None => Ok(()),
    }
}
