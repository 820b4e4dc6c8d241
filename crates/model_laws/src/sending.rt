ghost use Rattle.std.specs.Prelude.{◌≡◌, ◌∷◌, ℕ, List, codes};
ghost use Rattle.sip_uri.specs.declared.addr.Addr.{Addr};
ghost use Rattle.sip_message_form.specs.declared.message.Start.TheVariants.{Request};
ghost use Rattle.sip_message_form.specs.declared.message.Message.{Message};
ghost use Rattle.sip_header.specs.declared.core_fields.CoreFields.{CoreFields};
ghost use Rattle.sip_targets.specs.declared.target.Target.{Target};
ghost use Rattle.sip_event.specs.declared.event.Event.TheVariants.{Datagram};
ghost use Rattle.sip_model.specs.state.declared.server.Server.{Server};
ghost use Rattle.sip_model.specs.state.declared.proxy_state.ProxyState.{ProxyState};
ghost use Rattle.sip_model.specs.state.State.{first_state};
ghost use Rattle.sip_model.specs.state.Arrival.{Arrival};
ghost use Rattle.sip_model.specs.steps_model.Step.{Given, moment_of};
ghost use Rattle.sip_model.specs.Run.{Link, IsChain, under};
ghost use Rattle.sip_model.specs.Bindings.{bindings_after};
ghost use Rattle.sip_model.specs.Access.{IsNewRequest, targets_on, requests_to, branch_originals};
ghost use Rattle.model_laws.specs.Packets.{GoToTargets};

use sip_model::laws::every_history_has_access;

/// The packets of a request's branches go to its targets, read off the packets: exactly one to each target that has an
/// address, in their order; it goes to that address, begins with the method, the text of the target's URI and
/// `SIP/2.0`, and its ticket has the number of the request's datagram and the place of the target. So over every
/// history does all that a valid new request is sent on by, to the targets that policy, by the configuration of its step, gives it over
/// the bindings of the history: the contacts of the live bindings, or a configured hop (`targets_are_bindings_or_hop` of `sip_model`).
pub fn packets_go_to_the_bindings()
    ensures targets { (server : Server) (a : Arrival) (m : Message) (method uri : List ℕ) (targets : List Target) → m.start
        ≡ Request method uri (codes "SIP/2.0")
        → GoToTargets a.number method 1 targets (requests_to server a m targets) }
    ensures steps { (server : Server) (first : ℕ) (link : Link) (history : List Link) (last : ProxyState)
        → IsChain server (first_state first) (link ∷ history) last
        → (at word : ℕ) (from : Addr) (bytes : List ℕ) → link.act ≡ Given (Datagram at word from bytes)
        → (m : Message) (method : List ℕ) (core : CoreFields)
        → IsNewRequest (under server link.config) link.before bytes m method core
        → GoToTargets link.before.next method 1 (targets_on (under server link.config) (bindings_after server history) link.before
        (moment_of link.before at) m method core)
        (branch_originals link.out.packets) }
{
    every_history_has_access();
}
