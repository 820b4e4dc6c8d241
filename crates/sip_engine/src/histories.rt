ghost use Rattle.std.specs.Prelude.{◌<◌};
ghost use Rattle.std.specs.List.{All};
ghost use Rattle.sip_model.specs.steps_model.Step.{NoneAgainBefore, NoneBefore};
ghost use Rattle.sip_verdict.specs.state.declared.open_request.OpenRequest.{OpenRequest};
ghost use Rattle.sip_verdict.specs.state.declared.proxy_state.ProxyState.{ProxyState};
ghost use Rattle.sip_verdict.specs.state.declared.server.Server.{Server};
ghost use Rattle.sip_engine.specs.Engine.{IsReached};

use sip_model::order::{no_deadline_passed, numbers_differ};

/// In a state that steps lead to no deadline stands before its moment, nothing is to go again before it, and all open requests
/// have numbers below the next.
pub(crate) fn reached_states_are_sound()
    ensures none_before { (server : Server) (state : ProxyState) → IsReached server state → NoneBefore state.moment state.requests }
    ensures none_again { (server : Server) (state : ProxyState) → IsReached server state → NoneAgainBefore state.moment state.requests }
    ensures below { (server : Server) (state : ProxyState) → IsReached server state
        → All (λ (r : OpenRequest). r.number < state.next) state.requests }
{
    no_deadline_passed();
    numbers_differ();
}
