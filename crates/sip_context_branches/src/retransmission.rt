//! Whether and when what a branch sends goes again: Timers A and E (RFC 3261 17.1.1.2, 17.1.2.2); and when an ACK goes again.
ghost use Rattle.std.specs.Prelude.{◌≡◌, ◌+◌, ◌<◌, ◌^◌, [], true, if◌then◌else◌};
ghost use Rattle.model_context.specs.state.declared.server.Server.{Server};
ghost use Rattle.model_context.specs.Branches;
ghost use Rattle.model_context.specs.Sending.{ack_packets};
ghost use Rattle.model_context.specs.Retransmission;
ghost use Rattle.sip_context_branches.specs.Refusals;

use crate::wait::resend_after;
use model_context::state::{Branch, OpenRequest, Phase, Resend, is_failure, is_invite};
use sip_timers::{T1, T2};

/// Whether the request of a branch to a target goes out again, by whether it is an INVITE.
fn is_sent_again(invite: bool, phase: Phase) -> bool
    ensures { result ≡ Retransmission.is_sent_again invite phase }
{
    match phase {
        Phase::Unheard { until: _ } => true,
        Phase::Heard { until: _ } => !invite,
        Phase::Cancelled { until: _ } => false,
        Phase::Done {
            until: _,
            status: _,
        } => false,
        Phase::Ended => false,
    }
}

/// Whether a CANCEL goes out again.
fn is_cancelled_again(phase: Phase) -> bool
    ensures { result ≡ Retransmission.is_cancelled_again phase }
{
    match phase {
        Phase::Unheard { until: _ } => true,
        Phase::Heard { until: _ } => true,
        Phase::Cancelled { until: _ } => false,
        Phase::Done {
            until: _,
            status: _,
        } => false,
        Phase::Ended => false,
    }
}

/// Whether nothing was heard of a branch.
fn is_unheard(phase: Phase) -> bool
    ensures { result ≡ Branches.is_unheard phase }
{
    match phase {
        Phase::Unheard { until: _ } => true,
        Phase::Heard { until: _ } => false,
        Phase::Cancelled { until: _ } => false,
        Phase::Done {
            until: _,
            status: _,
        } => false,
        Phase::Ended => false,
    }
}

/// Whether what a branch of an open request sends goes out again: an INVITE until a response comes, any other request
/// and a CANCEL until the final one comes (RFC 3261 17.1.1.2, 17.1.2.2). Takes no memory.
pub(crate) fn goes_again(request: &OpenRequest, branch: &Branch) -> bool
    ensures { result ≡ Retransmission.goes_again request.now branch.now }
{
    if branch.is_cancel {
        is_cancelled_again(branch.phase)
    } else {
        is_sent_again(is_invite(request), branch.phase)
    }
}

/// The moment in milliseconds at which what a branch of an open request sends goes again, if it does (RFC 3261
/// 17.1.1.2: Timer A; 17.1.2.2: Timer E). Takes no memory.
pub fn branch_due(request: &OpenRequest, branch: &Branch) -> Option<u64>
    ensures { result ≡ Retransmission.branch_due request.now branch.now }
{
    if goes_again(request, branch) {
        Some(branch.again.due)
    } else {
        None
    }
}

/// When what a branch of an open request sends goes again once it went: an INVITE after twice the wait, a CANCEL and any
/// other request after at most 4,000 ms, and after so much once they were heard (RFC 3261 17.1.1.2, 17.1.2.2).
pub(crate) fn branch_next(request: &OpenRequest, branch: &Branch) -> Resend
    requires { branch.now.again.due + 32000 < 2 ^ 64 }
    ensures { result ≡ Retransmission.branch_next request.now branch.now }
{
    if is_invite(request) && !branch.is_cancel {
        return resend_after(64 * T1, branch.again);
    }
    if is_unheard(branch.phase) {
        return resend_after(T2, branch.again);
    }
    Resend {
        due: branch.again.due + T2,
        wait: T2,
    }
}

/// Whether a branch's final answer was a 300 to 699.
fn was_refused(phase: Phase) -> bool
    ensures { result ≡ Refusals.was_refused phase }
{
    match phase {
        Phase::Done { until: _, status } => is_failure(status),
        Phase::Unheard { until: _ } => false,
        Phase::Heard { until: _ } => false,
        Phase::Cancelled { until: _ } => false,
        Phase::Ended => false,
    }
}

/// Whether a further final response with this status, which came for a branch of an open request, gets the ACK of its
/// first one again: where both are a 300 to 699 to an INVITE (RFC 3261 17.1.1.2). Takes no memory.
pub fn is_acked_again(request: &OpenRequest, branch: &Branch, status: u16) -> bool
    ensures { (server : Server) → Retransmission.acked_again server request.now branch.now status
        ≡ (if result then ack_packets server true request.now branch.now branch.now.final_to else []) }
{
    is_failure(status) && is_invite(request) && !branch.is_cancel && was_refused(branch.phase)
}
