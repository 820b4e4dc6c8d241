ghost use Rattle.std.specs.Prelude.{◌≡◌, ◌≤◌, ◌<◌, ℕ, []};
ghost use Rattle.std.specs.List.{AllByRecursion};
ghost use Rattle.sip_event.specs.declared.event.StepOut.{StepOut};
ghost use Rattle.model_verdict.specs.state.SameState.{SameState};
ghost use Rattle.model_verdict.specs.state.State.{deadlines};
ghost use Rattle.model_verdict.specs.state.declared.proxy_state.ProxyState.{ProxyState};
ghost use Rattle.model_verdict.specs.state.declared.server.Server.{Server};
ghost use Rattle.model_verdict.specs.context_model.Retransmission.{resends};
ghost use Rattle.model_steps.specs.Effect.{replaced};
ghost use Rattle.model_steps.specs.Step.{IsQuiet, IsResend, IsTime, moment_of, originals};

/// A step in which something goes again sends nothing for the first time, records nothing, and leaves all that a proxy
/// knows but that request and the moment.
pub fn what_goes_again_is_no_first()
    ensures firsts { (server : Server) (old : ProxyState) (at : ℕ) (out : StepOut) (new : ProxyState) → IsResend server old at out new
        → originals out.packets ≡ [] }
    ensures records { (server : Server) (old : ProxyState) (at : ℕ) (out : StepOut) (new : ProxyState) → IsResend server old at out new
        → out.records ≡ [] }
    ensures state { (server : Server) (old : ProxyState) (at : ℕ) (out : StepOut) (new : ProxyState) (resend : IsResend server old at out new)
        → SameState new (record old { moment = out.at; requests = replaced resend.next old.requests }) }
{}

/// Where nothing but time passes, no deadline is passed over, and nothing that goes again; and by the moment that was handed
/// in nothing is left of either.
pub fn time_passes_over_nothing()
    ensures quiet { (server : Server) (old : ProxyState) (at : ℕ) (out : StepOut) (new : ProxyState) → IsQuiet server old at out new
        → AllByRecursion (λ due. out.at ≤ due) (deadlines old.requests) × AllByRecursion (λ due. out.at ≤ due) (resends old.requests) }
    ensures time { (server : Server) (old : ProxyState) (at : ℕ) (out : StepOut) (new : ProxyState) → IsTime server old at out new
        → AllByRecursion (λ due. moment_of old at < due) (deadlines old.requests)
        × AllByRecursion (λ due. moment_of old at < due) (resends old.requests) }
{}
