ghost use Rattle.std.specs.Prelude.{◌≡◌};
ghost use Rattle.sip_proxy.specs.fork.Firing.{KeepsOrder};
ghost use Rattle.sip_proxy.specs.Proxy.{IsComing};
ghost use Rattle.sip_message_form.specs.declared.message.Message.{Message};
ghost use Rattle.sip_proxy.specs.steps_model.Effect.{counted, effect_of, nothing};
ghost use Rattle.sip_proxy.specs.steps_model.Step.{Does};
ghost use Rattle.sip_proxy.specs.forwarding.Arrivals.{arrival_of};
ghost use Rattle.sip_dialog_updates.specs.state.declared.server.Server.{Server};
ghost use Rattle.sip_proxy.specs.verdict.verdict_model.Verdict.{Drop};

use crate::counting::pass;
use sip_event::StepOut;
use sip_proxy::Proxy;
use sip_proxy::forwarding::Arrival;
use sip_text::Items;
use sip_timers::Timers;
use std::alloc::Global;

/// The step of a datagram that says no message, or whose message is dropped: its number is taken, and nothing is sent (RFC
/// 3261 18.3, in this project's profile). Never refused; takes no memory.
pub fn take_dropped<T: Timers>(alloc: Global, proxy: &mut Proxy<T>, arrival: Arrival) -> StepOut
    requires { IsComing proxy.old.state arrival }
    ensures says_none { (server : Server) → Does server proxy.old.state arrival.now (nothing (counted (arrival_of arrival) proxy.old.state))
        result proxy.new.state }
    ensures drops { (server : Server) (m : Message) → Does server proxy.old.state arrival.now
        (effect_of server (arrival_of arrival) m Drop (counted (arrival_of arrival) proxy.old.state)) result proxy.new.state }
    ensures timers { proxy.new.timers ≡ proxy.old.timers }
    ensures queue { KeepsOrder proxy.old.timers proxy.new.timers proxy.new.state.requests }
    ensures secrets { proxy.new.secrets ≡ proxy.old.secrets }
{
    pass(alloc, proxy, arrival, Items::new(alloc))
}
