//! The steps behind the calls of `Engine`: moment and number are looked at, then one step is taken, whole or not at all.
ghost use Rattle.std.specs.Prelude.{◌≡◌, ◌≤◌, ◌<◌, ◌^◌, ◌⊎◌, ℕ, false, None, Err, IsOk, IfOk, IfErr, IfSome, OnOk, OnErr};
ghost use Rattle.sip_engine_request.specs.fork.Firing.{KeepsOrder};
ghost use Rattle.sip_event.specs.declared.event.Event.TheVariants.{Datagram, Fault};
ghost use Rattle.sip_engine_request.specs.Faults.{failed_of};
ghost use Rattle.sip_engine_request.specs.Next.{IsNext};
ghost use Rattle.sip_engine_request.specs.Timers.{IsFiredFirst};
ghost use Rattle.sip_model.specs.steps_model.Step.{Given, Passing, IsDeadline, IsResend, IsStep, IsTime, NoneAgainBefore, NoneAgainBy};
ghost use Rattle.sip_model.specs.steps_model.Step.{NoneBefore, NoneBy, moment_of};
ghost use Rattle.sip_engine.specs.Engine.{IsReached};
ghost use Rattle.sip_engine.specs.StepError.{is_too_large, refusal_at, refusal_of};
ghost use Rattle.sip_engine.specs.declared.error.StepError.TheVariants.{NoMemory};

use crate::error::StepError;
use crate::histories::reached_states_are_sound;
use crate::take_datagram;
use sip_engine_request::forwarding::Arrival;
use sip_engine_request::proxy::{Configured, Proxy};
use sip_event::{StepOut, Ticket};
use sip_policy::Rules;
use sip_timers::Timers;
use sip_uri::Addr;
use sip_verdict::Judge;
use std::alloc::Global;

/// The first moment, and the first number of a datagram, that is too large.
const TOO_LARGE: u64 = 0x4000_0000_0000_0000;

/// Whether a moment, or the number of a datagram, is too large.
fn is_too_large(n: u64) -> bool
    ensures value { result ≡ is_too_large n }
    ensures small { result ≡ false → n < 2 ^ 62 }
{
    TOO_LARGE <= n
}

/// The moment at which a step stands: one that goes back counts as the last one.
fn moment_of<T: Timers>(proxy: &Proxy<T>, at: u64) -> u64
    requires { at < 2 ^ 62 }
    ensures value { result ≡ moment_of proxy.now.state at }
    ensures later { proxy.now.state.moment ≤ result }
    ensures small { result < 2 ^ 62 }
{
    proxy.moment().max(at)
}

/// Does the first that is due by a moment; with nothing due the moment comes alone.
pub(crate) fn fire<T: Timers, R: Rules>(
    alloc: Global,
    judge: &Judge<R>,
    proxy: &mut Proxy<T>,
    at: u64,
) -> Result<StepOut, StepError>
    requires { IsReached judge.now proxy.old.state }
    ensures refused { IfSome (refusal_at at) (λ e. result ≡ Err e) }
    ensures otherwise { refusal_at at ≡ None → IfErr result (λ e. e ≡ NoMemory) }
    ensures never_refused { refusal_at at ≡ None → NoneBy (moment_of proxy.old.state at) proxy.old.state.requests
        → NoneAgainBy (moment_of proxy.old.state at) proxy.old.state.requests → IsOk result }
    ensures unchanged { OnErr result (proxy.new.state ≡ proxy.old.state) }
    ensures timers { OnErr result (proxy.new.timers ≡ proxy.old.timers) }
    ensures queue { OnOk result (KeepsOrder proxy.old.timers proxy.new.timers proxy.new.state.requests) }
    ensures step { IfOk result (λ out. IsStep judge.now proxy.old.state (Passing at) out proxy.new.state) }
    ensures waited { NoneBy (moment_of proxy.old.state at) proxy.old.state.requests
        → NoneAgainBy (moment_of proxy.old.state at) proxy.old.state.requests
        → IfOk result (λ out. IsTime judge.now proxy.old.state at out proxy.new.state) }
    ensures happens { (due : ℕ) → IsNext proxy.old.state.requests due → due ≤ moment_of proxy.old.state at
        → IfOk result (λ out. IsDeadline judge.now proxy.old.state at out proxy.new.state
        ⊎ IsResend judge.now proxy.old.state at out proxy.new.state) }
    ensures in_order { (due : ℕ) → IsNext proxy.old.state.requests due → due ≤ moment_of proxy.old.state at
        → IfOk result (λ out. IsFiredFirst judge.now proxy.old.timers proxy.old.state at out proxy.new.state) }
    ensures at_first { (due : ℕ) → IsNext proxy.old.state.requests due → due ≤ moment_of proxy.old.state at → IfOk result (λ out. out.at ≡ due) }
    ensures at_moment { IfOk result (λ out. out.at ≡ proxy.new.state.moment) }
    ensures in_time { IfOk result (λ out. out.at ≤ moment_of proxy.old.state at) }
    ensures secrets { proxy.new.secrets ≡ proxy.old.secrets }
{
    if is_too_large(at) {
        return Err(StepError::MomentTooLarge);
    }
    reached_states_are_sound();
    let now = moment_of(proxy, at);
    let server = judge.server();
    let hops = judge.hops();
    let configured = Configured { server, hops };
    let out = sip_engine_request::fire(alloc, &configured, proxy, now)?;
    Ok(out)
}

/// A datagram as it is handed in: when it came, in milliseconds, the word that makes the nonce of a challenge, its source, and
/// its bytes.
#[derive(Drop)]
pub(crate) struct Coming<'a> {
    pub(crate) at: u64,
    pub(crate) word: u128,
    pub(crate) from: Addr,
    pub(crate) bytes: &'a [u8],
}

/// Takes a datagram that came from an address.
pub(crate) fn deliver<T: Timers, R: Rules>(
    alloc: Global,
    judge: &Judge<R>,
    proxy: &mut Proxy<T>,
    coming: &Coming<'_>,
) -> Result<StepOut, StepError>
    requires reached { IsReached judge.now proxy.old.state }
    requires none_due { coming.now.at < 2 ^ 62 → NoneBy (moment_of proxy.old.state coming.now.at) proxy.old.state.requests
        × NoneAgainBy (moment_of proxy.old.state coming.now.at) proxy.old.state.requests }
    ensures refused { IfSome (refusal_of proxy.old.state coming.now.at) (λ e. result ≡ Err e) }
    ensures otherwise { refusal_of proxy.old.state coming.now.at ≡ None → IfErr result (λ e. e ≡ NoMemory) }
    ensures unchanged { OnErr result (proxy.new.state ≡ proxy.old.state) }
    ensures timers { OnErr result (proxy.new.timers ≡ proxy.old.timers) }
    ensures queue { OnOk result (KeepsOrder proxy.old.timers proxy.new.timers proxy.new.state.requests) }
    ensures step { IfOk result (λ out. IsStep judge.now proxy.old.state (Given (Datagram coming.now.at coming.now.word coming.now.from coming.now.bytes.now)) out proxy.new.state) }
    ensures secrets { proxy.new.secrets ≡ proxy.old.secrets }
{
    if is_too_large(coming.at) {
        return Err(StepError::MomentTooLarge);
    }
    if is_too_large(proxy.next()) {
        return Err(StepError::Worn);
    }
    reached_states_are_sound();
    let number = proxy.next();
    let now = moment_of(proxy, coming.at);
    let arrival = Arrival {
        number,
        now,
        word: coming.word,
        from: coming.from,
    };
    let out = take_datagram(alloc, judge, proxy, arrival, coming.bytes)?;
    Ok(out)
}

/// Hears that the packet of a ticket could not be sent.
pub(crate) fn fault<T: Timers, R: Rules>(
    alloc: Global,
    judge: &Judge<R>,
    proxy: &mut Proxy<T>,
    at: u64,
    ticket: Ticket,
) -> Result<StepOut, StepError>
    requires reached { IsReached judge.now proxy.old.state }
    requires none_due { at < 2 ^ 62 → NoneBefore (moment_of proxy.old.state at) proxy.old.state.requests
        × NoneAgainBefore (moment_of proxy.old.state at) proxy.old.state.requests }
    ensures refused { IfSome (refusal_at at) (λ e. result ≡ Err e) }
    ensures otherwise { refusal_at at ≡ None → IfErr result (λ e. e ≡ NoMemory) }
    ensures never_refused { refusal_at at ≡ None → failed_of ticket proxy.old.state.requests ≡ None → IsOk result }
    ensures unchanged { OnErr result (proxy.new.state ≡ proxy.old.state) }
    ensures timers { OnErr result (proxy.new.timers ≡ proxy.old.timers) }
    ensures queue { OnOk result (KeepsOrder proxy.old.timers proxy.new.timers proxy.new.state.requests) }
    ensures step { IfOk result (λ out. IsStep judge.now proxy.old.state (Given (Fault at ticket)) out proxy.new.state) }
    ensures secrets { proxy.new.secrets ≡ proxy.old.secrets }
{
    if is_too_large(at) {
        return Err(StepError::MomentTooLarge);
    }
    let now = moment_of(proxy, at);
    let server = judge.server();
    let hops = judge.hops();
    let configured = Configured { server, hops };
    let out = sip_engine_request::fault(alloc, &configured, proxy, now, ticket)?;
    Ok(out)
}
