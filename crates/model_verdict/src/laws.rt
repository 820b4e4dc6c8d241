ghost use Rattle.std.specs.Prelude.{◌≡◌, ◌≤◌, ℕ, List};
ghost use Rattle.model_context.specs.state.declared.server.Server.{Server};
ghost use Rattle.sip_message_form.specs.declared.message.Message.{Message};
ghost use Rattle.sip_header.specs.declared.core_fields.CoreFields.{CoreFields};
ghost use Rattle.sip_policy.specs.declared.decision.Decision.{Decision};
ghost use Rattle.sip_location.specs.declared.binding.Binding.{Binding};
ghost use Rattle.sip_location.specs.Sameness.{SameBindings};
ghost use Rattle.model_context.specs.state.declared.proxy_state.ProxyState.{ProxyState};
ghost use Rattle.model_context.specs.state.SameState.{SameState};
ghost use Rattle.model_verdict.specs.Sameness.{SameRegistered, SameSaid};
ghost use Rattle.model_context.specs.state.Arrival.{Arrival};
ghost use Rattle.model_verdict.specs.declared.question.Question.{Question};
ghost use Rattle.model_verdict.specs.Verdict.{request_targets, registration_by, verdict_of};

/// A request has the same targets over rows that say the same (RFC 3261 16.5).
pub fn request_targets_same()
    ensures { (server : Server) (left right : List Binding) (now : ℕ) (m : Message) (q : Question) (decision : Decision) → SameBindings now left right
        → request_targets server left now m q decision ≡ request_targets server right now m q decision }
{}

/// A REGISTER comes to the same over rows that say the same (RFC 3261 10.3).
pub fn registration_same()
    ensures { (server : Server) (left right : List Binding) (now : ℕ) (m : Message) (core : CoreFields) → SameBindings now left right
        → SameRegistered now (registration_by server left now m core) (registration_by server right now m core) }
{}

/// The verdict on a datagram is the same in states that are the same, where it comes at their moment or later:
/// no verdict tells by the order of rows or dialogs, by a row that has expired, or by a dialog that was
/// forgotten.
pub fn verdicts_same()
    ensures { (server : Server) (left right : ProxyState) (a : Arrival) (bytes : List ℕ) → SameState left right → left.moment ≤ a.now
        → SameSaid a.now (verdict_of server left a bytes) (verdict_of server right a bytes) }
{}
