//! What stands for datagrams that a shorter list of events leaves out.
ghost use Rattle.std.specs.Prelude.{◌≡◌, ◌+◌, ◌∷◌, [], ℕ, List, None, replicate};
ghost use Rattle.sip_message.specs.Reading.{reading_of};
ghost use Rattle.sip_model.specs.Run.{IsRun, Link};
ghost use Rattle.model_steps.specs.state.declared.proxy_state.ProxyState.{ProxyState};
ghost use Rattle.model_steps.specs.state.declared.server.Server.{Server};
ghost use Rattle.model_steps.specs.Step.{NoneAgainBy, NoneBy};
ghost use Rattle.model_steps.specs.verdict_model.Verdict.{message_in};
ghost use Rattle.sip_model.specs.LeftOut.{left_out, silent};

/// A byte 0 says no message; and so many datagrams of one such byte each are a run from each state in which nothing is due, which hands
/// out and records nothing, at the state's moment, and leaves that state with its next number so much larger (RFC 3261 7).
pub fn left_out_take_their_numbers()
    ensures nothing { message_in (reading_of (0 ∷ [])) ≡ None }
    ensures run { (server : Server) (state : ProxyState) (count : ℕ) → NoneBy state.moment state.requests
        → NoneAgainBy state.moment state.requests
        → (history : List Link) × IsRun server state (replicate count left_out) None (replicate count (silent state.moment)) history
        (record state { next = state.next + count }) }
{}
