ghost use Rattle.std.specs.Prelude.{◌⊎◌, ◌∷◌, ℕ, Bool, List, Contains};
ghost use Rattle.sip_message_fields.specs.declared.field.Field.{Field};
ghost use Rattle.sip_message_form.specs.declared.message.Message.{Message};
ghost use Rattle.sip_model.specs.state.declared.server.Server.{Server};
ghost use Rattle.sip_model.specs.state.declared.proxy_state.ProxyState.{ProxyState};
ghost use Rattle.sip_model.specs.state.State.{first_state};
ghost use Rattle.sip_model.specs.state.Arrival.{Arrival};
ghost use Rattle.sip_model.specs.steps_model.Step.{originals};
ghost use Rattle.sip_model.specs.Run.{Link, IsChain, under};
ghost use Rattle.sip_model.specs.Access.{IsSaidAt};
ghost use Rattle.model_laws.specs.Successes.{answer_here, IsRegistered, IsCancelling};

use sip_model::order::numbers_differ;

/// No 200 is made here but two: the one to a REGISTER that is valid and let through by the configuration of its step, which is all that is sent and
/// lists the live bindings of its address; and the one to a CANCEL that names an open request. Every other 200 came from
/// elsewhere (RFC 3261 9.2, 10.3 step 8, 16.7).
pub fn made_ok_is_a_list_or_a_cancels()
    ensures { (server : Server) (first : ℕ) (link : Link) (history : List Link) (last : ProxyState)
        → IsChain server (first_state first) (link ∷ history) last
        → (a : Arrival) (bytes : List ℕ) (m : Message) (short : Bool) (extras : List Field) → IsSaidAt link.before link.act a bytes m short
        → Contains (originals link.out.packets) (answer_here server a m 200 extras)
        → IsRegistered (under server link.config) link.before a m short (originals link.out.packets)
        ⊎ IsCancelling (under server link.config) link.before a m (originals link.out.packets) }
{
    numbers_differ();
}
