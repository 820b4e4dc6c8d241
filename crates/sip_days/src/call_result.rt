ghost use Rattle.std.specs.Prelude.{◌≡◌, ◌-◌, option_map};
ghost use Rattle.sip_days.specs.Calls as Definitions;
ghost use Rattle.sip_days.specs.Results;
ghost use Rattle.sip_days.specs.declared.call.Ending.{Ending};

use crate::call::{Answer, Call, Ending};
use sip_audit::AuditOutcome;

/// What came of a call.
#[derive(Clone, Copy)]
pub enum CallResult {
    /// No final answer was sent yet.
    Open,
    /// A 2xx.
    Answered,
    /// 486 or 600.
    Busy,
    /// 408.
    NoAnswer,
    /// 487.
    Cancelled,
    /// A rule denied it, or none matched.
    Denied,
    /// It was asked for a credential.
    Challenged,
    /// Another final answer, of this status.
    Other(u16),
}

/// Whether a status says that the call was taken (RFC 3261 21.2).
pub fn is_taken(status: u16) -> bool
    ensures { result ≡ Definitions.is_taken status }
{
    status > 199 && status < 300
}

/// What came of a call that a rule let through, by the status of its final answer.
fn result_by(status: u16) -> CallResult
    ensures { result ≡ Results.result_by status }
{
    if is_taken(status) {
        return CallResult::Answered;
    }
    if status == 486 {
        return CallResult::Busy;
    }
    if status == 600 {
        return CallResult::Busy;
    }
    if status == 408 {
        return CallResult::NoAnswer;
    }
    if status == 487 {
        return CallResult::Cancelled;
    }
    CallResult::Other(status)
}

fn result_with(answer: &Option<Answer>) -> CallResult
    ensures { result ≡ Results.result_with answer.now }
{
    match answer {
        Some(answer) => result_by(answer.status),
        None => CallResult::Open,
    }
}

/// How long a call was talked that was answered at a moment.
fn talk_since(at: u64, ending: &Option<Ending>) -> Option<u64>
    ensures { result ≡ option_map (λ (e : Ending). e.at - at) ending.now }
{
    match ending {
        Some(ending) => Some(ending.at.saturating_sub(at)),
        None => None,
    }
}

impl Call {
    /// What came of it: a denial and a challenge by the record, all else by the final answer.
    pub fn result(&self) -> CallResult
        ensures { result ≡ Results.result_of self.now }
    {
        match self.decision.outcome {
            AuditOutcome::Challenge { status: _ } => CallResult::Challenged,
            AuditOutcome::Deny { rule: _ } => CallResult::Denied,
            AuditOutcome::Sent {
                rule: _,
                targets: _,
            } => result_with(&self.answer),
            AuditOutcome::Answer { rule: _, status: _ } => result_with(&self.answer),
        }
    }

    /// How long it rang: from its INVITE up to the final answer, in milliseconds.
    pub fn ring(&self) -> Option<u64>
        ensures { result ≡ Results.ring_of self.now }
    {
        match &self.answer {
            Some(answer) => Some(answer.at.saturating_sub(self.decision.at)),
            None => None,
        }
    }

    /// How long it was talked: from the answer up to the BYE, in milliseconds.
    pub fn talk(&self) -> Option<u64>
        ensures { result ≡ Results.talk_of self.now }
    {
        match &self.answer {
            Some(answer) => talk_since(answer.at, &self.ending),
            None => None,
        }
    }
}
