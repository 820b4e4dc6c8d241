//! The public calls of the server, and what each of them promises. The steps behind them are taken in `stepping`.
ghost use Rattle.std.specs.Prelude.{◌≡◌, ◌≤◌, ◌<◌, ◌^◌, ◌⊎◌, ℕ, true, [], length, None, Some, Err, MatchOption, IsOk, IfOk, IfErr, IfSome, OnErr, OnOk};
ghost use Rattle.sip_event.specs.declared.event.Event.TheVariants.{Datagram, Fault};
ghost use Rattle.sip_engine_request.specs.Faults.{failed_of};
ghost use Rattle.sip_engine_request.specs.Next.{IsNext};
ghost use Rattle.sip_engine_request.specs.fork.Due.{IsNothingDue};
ghost use Rattle.sip_engine_request.specs.proxy.Proxy.{secrets_of};
ghost use Rattle.sip_engine_request.specs.fork.request.Queued.{entries};
ghost use Rattle.sip_engine_request.specs.fork.request.transactions_model.Queue.{entries_of, queue_after};
ghost use Rattle.sip_model.specs.TimerOrder.{IsFirstOf};
ghost use Rattle.sip_location.specs.Binding.{live};
ghost use Rattle.sip_model.specs.SameAhead.{SameAhead};
ghost use Rattle.sip_model.specs.steps_model.Step.{Given, Passing, IsDeadline, IsResend, IsStep, IsTime, NoneAgainBefore, NoneAgainBy};
ghost use Rattle.sip_model.specs.steps_model.Step.{NoneBefore, NoneBy, moment_of};
ghost use Rattle.sip_verdict.specs.state.State.{first_state};
ghost use Rattle.sip_engine.specs.Engine.{IsReached};
ghost use Rattle.sip_engine.specs.StepError.{refusal_at, refusal_of};
ghost use Rattle.sip_config_change.specs.Frame.{frame_key_of};
ghost use Rattle.sip_model.specs.Run.{under};
ghost use Rattle.sip_engine.specs.declared.change_error.ChangeError.TheVariants as Unchanged;
ghost use Rattle.sip_engine.specs.declared.error.StepError.TheVariants.{NoMemory};

use crate::change_error::ChangeError;
use crate::error::StepError;
use crate::histories::reached_states_are_sound;
use crate::stepping::{self, Coming};
use sip_config_change::frame_key;
use sip_config_change::laws::policy_in_the_old_frame_is_new;
use sip_config_types::Config;
use sip_engine_request::proxy::Proxy;
use sip_event::{Boot, StepOut, Ticket};
use sip_location::LiveBindings;
use sip_model::periods::histories_are_under_each;
use sip_policy::Rules;
use sip_timers::Timers;
use sip_uri::{Addr, Aor};
use sip_verdict::Judge;
use sip_verdict::state::Server;
use std::alloc::{AllocError, Global};
use std::marker::Model;

/// The server. Each call takes one step, or another configuration, or is refused and changes nothing.
pub struct Engine<T: Timers, R: Rules> {
    alloc: Global,
    judge: Judge<R>,
    proxy: Proxy<T>,
}

/// Written out, so that it is proved once and not wherever one is dropped.
impl<T: Timers, R: Rules> Drop for Engine<T, R> {
    fn drop(self) {
        let Engine {
            alloc: _,
            judge: _,
            proxy: _,
        } = self;
    }
}

impl<T: Timers, R: Rules> Model for Engine<T, R> {
    ghost use Rattle.sip_engine.specs.Engine.{Engine, IsReached};

    ghost Value = { Engine };

    ghost view = { λ e. record { server = e.judge; state = e.proxy.state; timers = e.proxy.timers; secrets = e.proxy.secrets } };

    ghost invariant = { λ e. IsReached e.judge e.proxy.state };
}

impl<T: Timers, R: Rules> Engine<T, R> {
    /// A server of a configuration that knows nothing yet; its tables whose keys peers choose are hashed under the secret `boot.keys`.
    /// `AllocError` is the only refusal.
    pub fn open(alloc: Global, config: Config, boot: Boot) -> Result<Self, AllocError>
        ensures server { IfOk result (λ engine. engine.server ≡ record { config = config; word = boot.word }) }
        ensures state { IfOk result (λ engine. engine.state ≡ first_state boot.first) }
        ensures timers { IfOk result (λ engine. engine.timers ≡ []) }
        ensures secrets { IfOk result (λ engine. engine.secrets ≡ secrets_of boot.keys) }
    {
        let server = Server {
            config,
            word: boot.word,
        };
        let judge = Judge::new(alloc, server)?;
        let proxy = Proxy::new(alloc, boot.keys, boot.first)?;
        Ok(Engine {
            alloc,
            judge,
            proxy,
        })
    }

    /// Is under another configuration from now on: the next step judges by it. No step is taken: what is open goes on as it was
    /// judged, what stands stays, nothing is sent or recorded. Refused with `OtherFrame` where it says of itself something else than
    /// before, by the first such key (host, port, IP address, own domains, realm); and with `NoMemory`; nothing is changed then.
    pub fn change(&mut self, config: Config) -> Result<(), ChangeError>
        ensures refused { IfSome (frame_key_of self.old.server.config config) (λ key. result ≡ Err (Unchanged.OtherFrame key)) }
        ensures otherwise { frame_key_of self.old.server.config config ≡ None → IfErr result (λ e. e ≡ Unchanged.NoMemory) }
        ensures unchanged { OnErr result (self.new ≡ self.old) }
        ensures server { OnOk result (self.new.server ≡ record { config = config; word = self.old.server.word }) }
        ensures under { OnOk result (self.new.server ≡ under self.old.server config) }
        ensures state { OnOk result (self.new.state ≡ self.old.state) }
        ensures timers { OnOk result (self.new.timers ≡ self.old.timers) }
        ensures secrets { self.new.secrets ≡ self.old.secrets }
    {
        histories_are_under_each();
        policy_in_the_old_frame_is_new();
        let old = self.judge.server();
        if let Some(key) = frame_key(&old.config, &config) {
            return Err(ChangeError::OtherFrame(key));
        }
        let word = old.word;
        self.judge = Judge::new(self.alloc, Server { config, word })?;
        Ok(())
    }

    /// Its state is one that steps of the model lead to, so that whatever is proved of every history holds here. Does nothing.
    pub fn is_reached(&self)
        ensures { IsReached self.now.server self.now.state }
    {
        let _judge = &self.judge;
    }

    /// The configuration in force.
    pub fn config(&self) -> &Config
        ensures { result.now ≡ self.now.server.config }
    {
        let _proxy = &self.proxy;
        &self.judge.server().config
    }

    /// The number of the next datagram.
    pub fn next_number(&self) -> u64
        ensures { result ≡ self.now.state.next }
    {
        let _judge = &self.judge;
        self.proxy.next()
    }

    /// The last moment, in milliseconds.
    pub fn moment(&self) -> u64
        ensures value { result ≡ self.now.state.moment }
        ensures small { result < 2 ^ 62 }
    {
        let _judge = &self.judge;
        self.proxy.moment()
    }

    /// The first moment, in milliseconds, at which something is due: a deadline passes, or something goes again. None where
    /// nothing is. Takes no memory.
    pub fn next_due(&self) -> Option<u64>
        ensures first { MatchOption result (IsNothingDue self.now.state.requests) (IsNext self.now.state.requests) }
        ensures later { IfSome result (λ due. self.now.state.moment ≤ due) }
        ensures none_by { (m : ℕ) → ((due : ℕ) → result ≡ Some due → m < due) → NoneBy m self.now.state.requests
            × NoneAgainBy m self.now.state.requests }
    {
        reached_states_are_sound();
        sip_engine_request::open_laws::next_moment_is_first();
        let _judge = &self.judge;
        sip_engine_request::next_due(&self.proxy)
    }

    /// Only where another server has the same word, and goes on as this one does under the same configuration: whatever comes,
    /// the same is sent and recorded (`runs_same` of `sip_model`). What one of them may hold and the other not is never asked for
    /// again: dead nonces, expired bindings, dialogs that aren't known, the order of the known ones, and which INVITE began those
    /// with a 2xx. Takes no memory, and costs by what stands in both.
    pub fn is_same(&self, other: &Engine<T, R>) -> bool
        ensures word { result ≡ true → self.now.server.word ≡ other.now.server.word }
        ensures ahead { result ≡ true → SameAhead self.now.state other.now.state }
    {
        if self.judge.server().word != other.judge.server().word {
            return false;
        }
        self.is_same_ahead(other)
    }

    /// Only where another server's state is the same ahead.
    fn is_same_ahead(&self, other: &Engine<T, R>) -> bool
        ensures { result ≡ true → SameAhead self.now.state other.now.state }
    {
        let _judge = &self.judge;
        let _other = &other.judge;
        self.proxy.is_same(&other.proxy)
    }

    /// The live bindings of an address of record at the last moment, in their order, lent. Takes no memory.
    pub fn bindings<'a>(&'a self, aor: &'a Aor) -> LiveBindings<'a>
        ensures { result ≡ live aor.now self.now.state.moment self.now.state.bindings }
    {
        let _judge = &self.judge;
        self.proxy.bindings(aor)
    }

    /// How many requests are open: at most 1,024.
    pub fn open_count(&self) -> usize
        ensures value { result ≡ length self.now.state.requests }
        ensures few { result ≤ 1024 }
    {
        let _judge = &self.judge;
        self.proxy.len()
    }

    /// How many dialogs stand in its table, those counted that aren't known any more: at most 4,096.
    pub fn dialog_count(&self) -> usize
        ensures value { result ≡ length self.now.state.dialogs }
        ensures few { result ≤ 4096 }
    {
        let _judge = &self.judge;
        self.proxy.dialog_count()
    }

    /// Does the first that is due by a moment in milliseconds, in a step at its own moment: a deadline passes, or something
    /// goes again; of what is due at one moment, what a timer was set for first. With nothing due the moment comes alone, and
    /// no memory is asked for. A moment that goes back counts as the last one. Refused with `MomentTooLarge` from
    /// 2^62, and with `NoMemory`; nothing is changed then.
    pub fn fire(&mut self, at: u64) -> Result<StepOut, StepError>
        ensures refused { IfSome (refusal_at at) (λ e. result ≡ Err e) }
        ensures otherwise { refusal_at at ≡ None → IfErr result (λ e. e ≡ NoMemory) }
        ensures never_refused { refusal_at at ≡ None → NoneBy (moment_of self.old.state at) self.old.state.requests
            → NoneAgainBy (moment_of self.old.state at) self.old.state.requests → IsOk result }
        ensures unchanged { OnErr result (self.new ≡ self.old) }
        ensures server { self.new.server ≡ self.old.server }
        ensures queue { OnOk result (entries self.new.timers ≡ queue_after (entries self.old.timers) (entries_of self.new.state.requests)) }
        ensures step { IfOk result (λ out. IsStep self.old.server self.old.state (Passing at) out self.new.state) }
        ensures waited { NoneBy (moment_of self.old.state at) self.old.state.requests
            → NoneAgainBy (moment_of self.old.state at) self.old.state.requests
            → IfOk result (λ out. IsTime self.old.server self.old.state at out self.new.state) }
        ensures happens { (due : ℕ) → IsNext self.old.state.requests due → due ≤ moment_of self.old.state at
            → IfOk result (λ out. IsDeadline self.old.server self.old.state at out self.new.state
            ⊎ IsResend self.old.server self.old.state at out self.new.state) }
        ensures in_order { (due : ℕ) → IsNext self.old.state.requests due → due ≤ moment_of self.old.state at
            → IfOk result (λ out. IsFirstOf self.old.server (entries self.old.timers) self.old.state at out self.new.state) }
        ensures at_first { (due : ℕ) → IsNext self.old.state.requests due → due ≤ moment_of self.old.state at → IfOk result (λ out. out.at ≡ due) }
        ensures at_moment { IfOk result (λ out. out.at ≡ self.new.state.moment) }
        ensures in_time { IfOk result (λ out. out.at ≤ moment_of self.old.state at) }
        ensures secrets { self.new.secrets ≡ self.old.secrets }
    {
        stepping::fire(self.alloc, &self.judge, &mut self.proxy, at)
    }

    /// Takes a datagram that came from an address; the word makes the nonce of a challenge. A moment that goes back counts as
    /// the last one; nothing is due by it. Refused with `MomentTooLarge` from 2^62, with `Worn` where the datagram's number
    /// would be 2^62 or more, and with `NoMemory`, in this order; nothing is changed then.
    pub fn deliver(
        &mut self,
        at: u64,
        word: u128,
        from: Addr,
        bytes: &[u8],
    ) -> Result<StepOut, StepError>
        requires { at < 2 ^ 62 → NoneBy (moment_of self.old.state at) self.old.state.requests
            × NoneAgainBy (moment_of self.old.state at) self.old.state.requests }
        ensures refused { IfSome (refusal_of self.old.state at) (λ e. result ≡ Err e) }
        ensures otherwise { refusal_of self.old.state at ≡ None → IfErr result (λ e. e ≡ NoMemory) }
        ensures unchanged { OnErr result (self.new ≡ self.old) }
        ensures server { self.new.server ≡ self.old.server }
        ensures queue { OnOk result (entries self.new.timers ≡ queue_after (entries self.old.timers) (entries_of self.new.state.requests)) }
        ensures step { IfOk result (λ out. IsStep self.old.server self.old.state (Given (Datagram at word from bytes.now)) out self.new.state) }
        ensures secrets { self.new.secrets ≡ self.old.secrets }
    {
        let coming = Coming {
            at,
            word,
            from,
            bytes,
        };
        stepping::deliver(self.alloc, &self.judge, &mut self.proxy, &coming)
    }

    /// Hears that the packet of a ticket could not be sent (RFC 3261 16.9): an unheard branch has failed; any other packet is
    /// as lost on its way. A moment that goes back counts as the last one; nothing is due before it. Refused with
    /// `MomentTooLarge` from 2^62, and with `NoMemory`; nothing is changed then.
    pub fn fault(&mut self, at: u64, ticket: Ticket) -> Result<StepOut, StepError>
        requires { at < 2 ^ 62 → NoneBefore (moment_of self.old.state at) self.old.state.requests
            × NoneAgainBefore (moment_of self.old.state at) self.old.state.requests }
        ensures refused { IfSome (refusal_at at) (λ e. result ≡ Err e) }
        ensures otherwise { refusal_at at ≡ None → IfErr result (λ e. e ≡ NoMemory) }
        ensures never_refused { refusal_at at ≡ None → failed_of ticket self.old.state.requests ≡ None → IsOk result }
        ensures unchanged { OnErr result (self.new ≡ self.old) }
        ensures server { self.new.server ≡ self.old.server }
        ensures queue { OnOk result (entries self.new.timers ≡ queue_after (entries self.old.timers) (entries_of self.new.state.requests)) }
        ensures step { IfOk result (λ out. IsStep self.old.server self.old.state (Given (Fault at ticket)) out self.new.state) }
        ensures secrets { self.new.secrets ≡ self.old.secrets }
    {
        stepping::fault(self.alloc, &self.judge, &mut self.proxy, at, ticket)
    }
}
