ghost use Rattle.std.specs.Prelude.{ℕ, List, Option};
ghost use Rattle.sip_event.specs.declared.event.Event.{Event};
ghost use Rattle.sip_event.specs.declared.event.StepOut.{StepOut};
ghost use Rattle.sip_model.specs.state.declared.server.Server.{Server};
ghost use Rattle.sip_model.specs.state.declared.proxy_state.ProxyState.{ProxyState};
ghost use Rattle.sip_model.specs.state.State.{first_state};
ghost use Rattle.sip_model.specs.Run.{Link, IsChain, IsRun};
ghost use Rattle.sip_model.specs.Access.{Access};
ghost use Rattle.model_laws.specs.Headline.{Headline};
ghost use Rattle.model_laws.specs.Proven.{by_digest};

use sip_model::laws::{allowed_registers_are_allowed, every_history_has_access};

/// The headline of the law, as its reader may read it, with no definition of what is made here but its start line, a Warning and a
/// list of Contacts, follows from the law; so every history keeps it, and every run of every list of datagrams, timer moments and
/// send faults. Who is proven is told by Digest.
pub fn access_is_the_headline()
    ensures follows { (server : Server) (history : List Link) → Access server history
        → Headline by_digest server history }
    ensures histories { (server : Server) (first : ℕ) (history : List Link) (last : ProxyState) → IsChain server (first_state first) history last
        → Headline by_digest server history }
    ensures runs { (server : Server) (first : ℕ) (events : List Event) (until : Option ℕ) (steps : List StepOut) (history : List Link)
        (last : ProxyState)
        → IsRun server (first_state first) events until steps history last → Headline by_digest server history }
{
    allowed_registers_are_allowed();
    every_history_has_access();
}
