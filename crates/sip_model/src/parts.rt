ghost use Rattle.sip_event.specs.declared.event.StepOut.{StepOut};
ghost use Rattle.model_steps.specs.state.declared.server.Server.{Server};
ghost use Rattle.model_steps.specs.state.declared.proxy_state.ProxyState.{ProxyState};
ghost use Rattle.model_steps.specs.Step.{Act, IsStep};
ghost use Rattle.sip_model.specs.Parts.{HasParts};

/// Each step has its parts: what it makes of the open requests, with what it sends for that. Who holds
/// something of each open request, over every history, goes through these.
pub fn steps_have_parts()
    ensures { (server : Server) (old : ProxyState) (act : Act) (out : StepOut) (new : ProxyState) → IsStep server old act out new
        → HasParts server old act out new }
{}
