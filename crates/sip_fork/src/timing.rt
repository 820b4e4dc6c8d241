ghost use Rattle.sip_fork.specs.Timing.{Timing};

use sip_request::transactions_model::machines::{branches_have_states, sides_have_states};
use sip_request::transactions_model::ties::{moments_are_named, timers_have_reasons};

/// Why the timers of open requests stand, and which moments they stand for.
pub(crate) fn timers_stand_for_moments()
    ensures { Timing }
{
    moments_are_named();
    timers_have_reasons();
    branches_have_states();
    sides_have_states();
}
