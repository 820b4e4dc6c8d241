ghost use Rattle.std.specs.Prelude.{◌≡◌};
ghost use Rattle.sip_uas.specs.Asking as Asking;

use sip_targets::Targets;
use sip_verdict::PolicyOutcome;

/// Whether targets are nobody.
fn are_nobody(targets: &Targets) -> bool
    ensures { result ≡ Asking.are_nobody targets.now }
{
    match targets {
        Targets::Bindings(_) | Targets::Hop(_, _) => false,
        Targets::NotFound | Targets::Unavailable => true,
    }
}

/// Whether a request that policy decided so about is answered here, and isn't sent to targets. Takes no memory.
pub fn is_answered_here(outcome: &PolicyOutcome) -> bool
    ensures { result ≡ Asking.is_answered_here outcome.now }
{
    match outcome {
        PolicyOutcome::Challenge | PolicyOutcome::Deny(_) | PolicyOutcome::Register(_, _) => true,
        PolicyOutcome::Send(_, targets) => are_nobody(targets),
    }
}

/// The status for a request that goes to nobody: 404 without a user, 480 without a binding (RFC 3261 16.5).
pub(crate) fn nobody_status(targets: &Targets) -> u16
    ensures { result ≡ Asking.nobody_status targets.now }
{
    match targets {
        Targets::NotFound => 404,
        Targets::Bindings(_) | Targets::Hop(_, _) | Targets::Unavailable => 480,
    }
}
