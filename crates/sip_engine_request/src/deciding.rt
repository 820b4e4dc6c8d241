ghost use Rattle.std.specs.Prelude.{◌≡◌, ℕ, List};
ghost use Rattle.sip_timers.specs.declared.timer.Timer.{Timer};
ghost use Rattle.sip_proxy.specs.fork.Firing.{KeepsOrder};
ghost use Rattle.sip_proxy.specs.Proxy.{with_bindings, with_nonces};
ghost use Rattle.sip_proxy.specs.verdict.Verdict.{HasRoomFor, plan_of};
ghost use Rattle.sip_location.specs.Sameness.{SameBindings};
ghost use Rattle.sip_location.specs.declared.binding.Binding.{Binding};
ghost use Rattle.sip_uas.specs.forwarding.Arrivals.{arrival_of};
ghost use Rattle.sip_uas.specs.Asking.{after_asking, after_outcome};
ghost use Rattle.sip_uas.specs.Drafts.{AreBound};

use sip_proxy::Proxy;
use sip_proxy::verdict::{Judged, PolicyOutcome};
use sip_timers::Timers;
use sip_uas::forwarding::Arrival;

/// A challenge issues the nonce of its datagram's word (RFC 3261 22.1). Takes no memory.
fn take_challenge<T: Timers>(proxy: &mut Proxy<T>, arrival: Arrival, outcome: &PolicyOutcome)
    ensures state { proxy.new.state ≡ with_nonces (after_outcome (arrival_of arrival) outcome.now proxy.old.state.nonces) proxy.old.state }
    ensures room { proxy.new.room ≡ proxy.old.room }
    ensures queue { (old : List Timer) → KeepsOrder old proxy.old.timers proxy.old.state.requests → KeepsOrder old proxy.new.timers proxy.new.state.requests }
    ensures secrets { proxy.new.secrets ≡ proxy.old.secrets }
{
    match outcome {
        PolicyOutcome::Challenge => proxy.issue(arrival.word, arrival.now),
        PolicyOutcome::Deny(_) | PolicyOutcome::Send(_, _) | PolicyOutcome::Register(_, _) => {}
    }
}

/// The bindings take the plan of what was decided, if it has one (RFC 3261 10.3). Takes no memory.
fn take_plan<T: Timers>(proxy: &mut Proxy<T>, outcome: PolicyOutcome)
    requires { HasRoomFor proxy.old.room outcome }
    ensures bound { (now : ℕ) (after : List Binding) → AreBound now (plan_of outcome) proxy.old.state.bindings after
        → SameBindings now proxy.new.state.bindings after }
    ensures rest { proxy.new.state ≡ with_bindings proxy.new.state.bindings proxy.old.state }
    ensures queue { (old : List Timer) → KeepsOrder old proxy.old.timers proxy.old.state.requests → KeepsOrder old proxy.new.timers proxy.new.state.requests }
    ensures secrets { proxy.new.secrets ≡ proxy.old.secrets }
{
    match outcome.into_plan() {
        Some(plan) => proxy.register(plan),
        None => {}
    }
}

/// What policy decided about a datagram's request is taken: a right credential is used up, whatever was decided, a challenge
/// issues its nonce, and a REGISTER makes its bindings (RFC 2617 3.2.2, RFC 3261 10.3, 22.1). Takes no memory.
pub(crate) fn take_decision<T: Timers>(proxy: &mut Proxy<T>, arrival: Arrival, judged: Judged<'_>)
    requires { HasRoomFor proxy.old.room judged.outcome }
    ensures bound { (now : ℕ) (after : List Binding) → AreBound now (plan_of judged.entry.outcome) proxy.old.state.bindings after
        → SameBindings now proxy.new.state.bindings after }
    ensures rest { proxy.new.state ≡ with_nonces (after_asking (arrival_of arrival) judged.entry proxy.old.state.nonces)
        (with_bindings proxy.new.state.bindings proxy.old.state) }
    ensures queue { (old : List Timer) → KeepsOrder old proxy.old.timers proxy.old.state.requests → KeepsOrder old proxy.new.timers proxy.new.state.requests }
    ensures secrets { proxy.new.secrets ≡ proxy.old.secrets }
{
    proxy.spend(&judged.question.proof, arrival.now);
    take_challenge(proxy, arrival, &judged.outcome);
    take_plan(proxy, judged.into_outcome());
}
