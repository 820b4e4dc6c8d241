ghost use Rattle.std.specs.Prelude.{◌≤◌, MatchOption, IfSome, IfNone};
ghost use Rattle.sip_proxy.specs.fork.Due.{IsFirst, IsNothingDue, IsOfFirst};
ghost use Rattle.sip_proxy.specs.steps_model.Step.{NoneBy, NoneAgainBy};
ghost use Rattle.sip_engine_request.specs.Next.{IsNext};

use sip_proxy::Proxy;
use sip_proxy::fork::FirstDue;
use sip_timers::Timers;

/// The next moment, in milliseconds, at which a deadline passes or something goes again. None exactly where no deadline
/// stands and nothing is to go again. Takes no memory.
pub fn next_due<T: Timers>(proxy: &Proxy<T>) -> Option<u64>
    ensures { MatchOption result (IsNothingDue proxy.now.state.requests) (IsNext proxy.now.state.requests) }
{
    match proxy.first_moment() {
        Some(due) => Some(due),
        None => None,
    }
}

/// What is due first, if it is due by a moment in milliseconds. Takes no memory.
pub(crate) fn due_by<T: Timers>(proxy: &Proxy<T>, now: u64) -> Option<FirstDue>
    ensures first { IfSome result (IsFirst proxy.now.state.requests) }
    ensures in_order { IfSome result (IsOfFirst proxy.now.timers proxy.now.state.requests) }
    ensures due { IfSome result (λ first. first.due ≤ now) }
    ensures none { IfNone result (NoneBy now proxy.now.state.requests) }
    ensures none_again { IfNone result (NoneAgainBy now proxy.now.state.requests) }
{
    let first = proxy.first()?;
    if first.due > now {
        return None;
    }
    Some(first)
}
