ghost use Rattle.std.specs.Prelude.{◌≡◌, None, IsOk, IfOk, IfErr, OnOk, OnErr};
ghost use Rattle.sip_engine.specs.model.TimerOrder.{IsQueueAfter};
ghost use Rattle.sip_engine.specs.model.Run.{event_moment};
ghost use Rattle.sip_engine.specs.steps_model.Step.{Given, IsStep, moment_of};
ghost use Rattle.sip_event.specs.declared.event.Event.TheVariants.{Datagram};
ghost use Rattle.sip_run.specs.Due.{NothingDueBy, standing_of};
ghost use Rattle.sip_run.specs.Refusals.{NeedsNoMemory, RefusesStep, refusal_of_event};

use sip_engine::{Engine, StepError};
use sip_event::{Event, StepOut};
use sip_policy::Rules;
use sip_timers::Timers;
use sip_uri::Addr;

/// The moment of an event.
pub fn event_moment(event: &Event) -> u64
    ensures { result ≡ event_moment event.now }
{
    match event {
        Event::Datagram { at, .. } => *at,
        Event::Time { at } => *at,
        Event::Fault { at, .. } => *at,
    }
}

/// An event's own step, where nothing is due by its moment. Refused with `MomentTooLarge` from 2^62, with `Worn` where a
/// datagram's number would be 2^62 or more, and with `NoMemory`, in this order; nothing is changed then. Time that passes, and the
/// fault of a packet that no open request waits for, need no memory.
#[tactic(auto, using(crate::proofs::Refusing::refused_as, crate::proofs::Refusing::not_refused))]
pub fn take_event<T: Timers, R: Rules>(
    engine: &mut Engine<T, R>,
    event: &Event,
) -> Result<StepOut, StepError>
    requires { NothingDueBy (moment_of engine.old.state (event_moment event.now)) engine.old.state }
    ensures server { engine.new.server ≡ engine.old.server }
    ensures step { IfOk result (λ out. IsStep engine.old.server engine.old.state (Given event.now) out engine.new.state) }
    ensures queue { OnOk result (IsQueueAfter (standing_of engine.old) (standing_of engine.new)) }
    ensures not_refused { OnOk result (refusal_of_event engine.old.state event.now ≡ None) }
    ensures never_refused { NeedsNoMemory engine.old.state event.now → refusal_of_event engine.old.state event.now ≡ None → IsOk result }
    ensures unchanged { OnErr result (engine.new ≡ engine.old) }
    ensures refused { IfErr result (RefusesStep (refusal_of_event engine.old.state event.now)) }
    ensures secrets { engine.new.secrets ≡ engine.old.secrets }
{
    match event {
        Event::Datagram {
            at,
            word,
            from,
            bytes,
        } => take_datagram(engine, *at, *word, *from, bytes.as_slice()),
        Event::Time { at } => engine.fire(*at),
        Event::Fault { at, ticket } => engine.fault(*at, *ticket),
    }
}

/// The same of a datagram, whose bytes may stand anywhere.
#[tactic(auto, using(crate::proofs::Refusing::refused_as, crate::proofs::Refusing::not_refused))]
pub fn take_datagram<T: Timers, R: Rules>(
    engine: &mut Engine<T, R>,
    at: u64,
    word: u128,
    from: Addr,
    bytes: &[u8],
) -> Result<StepOut, StepError>
    requires { NothingDueBy (moment_of engine.old.state at) engine.old.state }
    ensures server { engine.new.server ≡ engine.old.server }
    ensures step { IfOk result (λ out. IsStep engine.old.server engine.old.state (Given (Datagram at word from bytes.now)) out engine.new.state) }
    ensures queue { OnOk result (IsQueueAfter (standing_of engine.old) (standing_of engine.new)) }
    ensures not_refused { OnOk result (refusal_of_event engine.old.state (Datagram at word from bytes.now) ≡ None) }
    ensures unchanged { OnErr result (engine.new ≡ engine.old) }
    ensures refused { IfErr result (RefusesStep (refusal_of_event engine.old.state (Datagram at word from bytes.now))) }
    ensures secrets { engine.new.secrets ≡ engine.old.secrets }
{
    engine.deliver(at, word, from, bytes)
}
