ghost use Rattle.std.specs.Prelude.{◌≡◌, ◌≤◌, ◌<◌, ◌^◌, ◌⊎◌, ℕ, IsOk, IfOk, OnOk, OnErr};
ghost use Rattle.sip_proxy.specs.fork.Firing.{KeepsOrder};
ghost use Rattle.sip_proxy.specs.fork.Due.{IsFirst, IsOfFirst};
ghost use Rattle.sip_proxy.specs.steps_model.Step.{IsDeadline, IsResend, IsStep, IsTime, NoneAgainBefore, NoneAgainBy, NoneBefore, NoneBy, Passing};
ghost use Rattle.sip_engine_request.specs.Next.{IsNext};
ghost use Rattle.sip_engine_request.specs.Timers.{IsFiredFirst};

use crate::drafting::{draft_first, quiet_end};
use crate::next::due_by;
use crate::stepping::{change, end, pass};
use sip_event::StepOut;
use sip_proxy::fork::FirstDue;
use sip_proxy::{Configured, Proxy};
use sip_timers::Timers;
use std::alloc::{AllocError, Global};

/// What is due first happens, at its own moment: a deadline passes, or something goes again. `AllocError` is the only
/// refusal; nothing is changed then.
fn fire_first<T: Timers>(
    alloc: Global,
    configured: &Configured<'_>,
    proxy: &mut Proxy<T>,
    first: FirstDue,
) -> Result<StepOut, AllocError>
    requires first { IsFirst proxy.old.state.requests first }
    requires in_order { IsOfFirst proxy.old.timers proxy.old.state.requests first }
    requires later { proxy.old.state.moment ≤ first.due }
    requires small { first.due < 2 ^ 62 }
    ensures step { IfOk result (λ out. (now : ℕ) → first.due ≤ now
        → IsFiredFirst configured.now.server.now proxy.old.timers proxy.old.state now out proxy.new.state) }
    ensures at_first { IfOk result (λ out. out.at ≡ first.due) }
    ensures at_moment { IfOk result (λ out. out.at ≡ proxy.new.state.moment) }
    ensures next_stays { IfOk result (λ out. proxy.new.state.next ≡ proxy.old.state.next) }
    ensures unchanged { OnErr result (proxy.new.state ≡ proxy.old.state) }
    ensures timers { OnErr result (proxy.new.timers ≡ proxy.old.timers) }
    ensures queue { OnOk result (KeepsOrder proxy.old.timers proxy.new.timers proxy.new.state.requests) }
    ensures secrets { proxy.new.secrets ≡ proxy.old.secrets }
{
    if let Some(transaction) = quiet_end(proxy, first) {
        return Ok(end(alloc, proxy, first.due, first.place, transaction));
    }
    let draft = draft_first(alloc, configured, proxy, first)?;
    change(alloc, proxy, first.due, first.place, draft)
}

/// What is due first by a moment in milliseconds happens, in a step at its own moment: a deadline of the answering side or
/// of a branch passes, or the last answer, or what a branch sends, goes again (RFC 3261 17, 16.8); of what is due at one
/// moment, what a timer was set for first. Where nothing is due by then, time passes up to that moment, and no memory is
/// taken. `AllocError` is the only refusal; nothing is changed then.
pub fn fire<T: Timers>(
    alloc: Global,
    configured: &Configured<'_>,
    proxy: &mut Proxy<T>,
    now: u64,
) -> Result<StepOut, AllocError>
    requires later { proxy.old.state.moment ≤ now }
    requires small { now < 2 ^ 62 }
    requires none_before { NoneBefore proxy.old.state.moment proxy.old.state.requests }
    requires none_again { NoneAgainBefore proxy.old.state.moment proxy.old.state.requests }
    ensures step { IfOk result (λ out. IsStep configured.now.server.now proxy.old.state (Passing now) out proxy.new.state) }
    ensures waited { NoneBy now proxy.old.state.requests → NoneAgainBy now proxy.old.state.requests
        → IfOk result (λ out. IsTime configured.now.server.now proxy.old.state now out proxy.new.state) }
    ensures never_refused { NoneBy now proxy.old.state.requests → NoneAgainBy now proxy.old.state.requests → IsOk result }
    ensures happens { (due : ℕ) → IsNext proxy.old.state.requests due → due ≤ now
        → IfOk result (λ out. IsDeadline configured.now.server.now proxy.old.state now out proxy.new.state
        ⊎ IsResend configured.now.server.now proxy.old.state now out proxy.new.state) }
    ensures in_order { (due : ℕ) → IsNext proxy.old.state.requests due → due ≤ now
        → IfOk result (λ out. IsFiredFirst configured.now.server.now proxy.old.timers proxy.old.state now out proxy.new.state) }
    ensures fired { (due : ℕ) → IsNext proxy.old.state.requests due → due ≤ now → IfOk result (λ out. out.at ≡ due) }
    ensures at_moment { IfOk result (λ out. out.at ≡ proxy.new.state.moment) }
    ensures no_earlier { IfOk result (λ out. proxy.old.state.moment ≤ out.at) }
    ensures in_time { IfOk result (λ out. out.at ≤ now) }
    ensures next_stays { IfOk result (λ out. proxy.new.state.next ≡ proxy.old.state.next) }
    ensures unchanged { OnErr result (proxy.new.state ≡ proxy.old.state) }
    ensures timers { OnErr result (proxy.new.timers ≡ proxy.old.timers) }
    ensures queue { OnOk result (KeepsOrder proxy.old.timers proxy.new.timers proxy.new.state.requests) }
    ensures secrets { proxy.new.secrets ≡ proxy.old.secrets }
{
    if let Some(first) = due_by(proxy, now) {
        return fire_first(alloc, configured, proxy, first);
    }
    Ok(pass(alloc, proxy, now))
}
