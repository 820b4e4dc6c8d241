//! How a call stands that isn't over.
ghost use Rattle.std.specs.Prelude.{◌≡◌, Some, option_map};
ghost use Rattle.sipd_standing.specs.Standing as Definitions;
ghost use Rattle.sipd_standing.specs.declared.standing.Standing.TheVariants.{Talked};

use sip_audit::AuditOutcome;
use sip_days::{Answer, Call, CallResult, Ending};

/// How a call stands that isn't over.
#[derive(Clone, Copy)]
pub(crate) enum Standing {
    /// It was sent on, and has no final answer.
    Rings { since: u64 },
    /// It was answered, and no BYE came.
    Talked { since: u64 },
}

/// The moment of an answer, where no BYE came behind it.
fn talked_by(answer: &Answer, ending: &Option<Ending>) -> Option<u64>
    ensures { result ≡ Definitions.answered_at (Some answer.now) ending.now }
{
    match ending {
        Some(_) => None,
        None => Some(answer.at),
    }
}

/// The moment of the answer to a call of which no BYE came.
fn talked_since(call: &Call) -> Option<u64>
    ensures { result ≡ Definitions.talked_since call.now }
{
    match &call.answer {
        Some(answer) => talked_by(answer, &call.ending),
        None => None,
    }
}

/// Whether a call was sent on.
fn is_sent(outcome: AuditOutcome) -> bool
    ensures { result ≡ Definitions.is_sent outcome }
{
    match outcome {
        AuditOutcome::Challenge { status: _ } => false,
        AuditOutcome::Deny { rule: _ } => false,
        AuditOutcome::Sent {
            rule: _,
            targets: _,
        } => true,
        AuditOutcome::Answer { rule: _, status: _ } => false,
    }
}

/// How a call stands that has no final answer.
fn ringing(call: &Call) -> Option<Standing>
    ensures { result ≡ Definitions.ringing call.now }
{
    if !is_sent(call.decision.outcome) {
        return None;
    }
    Some(Standing::Rings {
        since: call.decision.at,
    })
}

/// How one stands that was answered.
fn talking(call: &Call) -> Option<Standing>
    ensures { result ≡ option_map Talked (Definitions.talked_since call.now) }
{
    match talked_since(call) {
        Some(since) => Some(Standing::Talked { since }),
        None => None,
    }
}

/// How a call stands, if it isn't over.
pub(crate) fn standing_of(call: &Call) -> Option<Standing>
    ensures { result ≡ Definitions.standing_of call.now }
{
    match call.result() {
        CallResult::Open => ringing(call),
        CallResult::Answered => talking(call),
        CallResult::Busy
        | CallResult::NoAnswer
        | CallResult::Cancelled
        | CallResult::Denied
        | CallResult::Challenged
        | CallResult::Other(_) => None,
    }
}
