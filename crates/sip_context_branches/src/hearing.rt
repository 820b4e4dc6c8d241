ghost use Rattle.std.specs.Prelude.{◌≡◌, ◌==◌, ◌+◌, ◌<◌, ◌^◌, if◌then◌else◌};
ghost use Rattle.model_context.specs.Branches as Contexts;
ghost use Rattle.sip_context_branches.specs.Early.{IsEarly};

use model_context::state::Phase;
use sip_timers::{TIMER_C, TIMER_C_PAST_B};

/// Until when a branch of an INVITE that is heard waits for its final answer: a 100 lets its wait run, 101 to 199 set
/// Timer C anew.
fn heard_until(now: u64, status: u16, running: u64) -> u64
    requires { now + 185000 < 2 ^ 64 }
    ensures { result ≡ (if status == 100 then running else now + 185000) }
{
    if status == 100 {
        running
    } else {
        now + TIMER_C
    }
}

/// The phase of a branch of an INVITE after a provisional response of a status at a moment: it is heard, and 101 to
/// 199 set Timer C anew (RFC 3261 16.7 step 2, 16.8).
#[tactic(auto, using(crate::proofs::EitherMoment::heard_either))]
pub fn invite_heard(now: u64, status: u16, phase: Phase) -> Phase
    requires now { now + 185000 < 2 ^ 64 }
    requires early { IsEarly phase }
    ensures { result ≡ Contexts.invite_heard now status phase }
{
    match phase {
        Phase::Unheard { until } => Phase::Heard {
            until: heard_until(now, status, until + TIMER_C_PAST_B),
        },
        Phase::Heard { until } => Phase::Heard {
            until: heard_until(now, status, until),
        },
        other => other,
    }
}

/// The phase of a branch of another request after a provisional response: its deadline stays (RFC 3261 17.1.2.2,
/// Timer F).
pub fn other_heard(phase: Phase) -> Phase
    ensures { result ≡ Contexts.other_heard phase }
{
    match phase {
        Phase::Unheard { until } => Phase::Heard { until },
        other => other,
    }
}
