ghost use Rattle.std.specs.Prelude.{◌≤◌, ℕ, length, count_by};
ghost use Rattle.sip_dialog_updates.specs.state.declared.open_request.OpenRequest.{OpenRequest};
ghost use Rattle.sip_dialog_updates.specs.state.declared.server.Server.{Server};
ghost use Rattle.model_steps.specs.context_model.Opening.{opening};
ghost use Rattle.sip_context.specs.declared.input.Input.{Input};
ghost use Rattle.sip_context.specs.Inputs.{outcome_of};
ghost use Rattle.sip_dialog_updates.specs.Telling.{is_early_or_success};
ghost use Rattle.sip_fork.specs.Keeping.{IsOf};

/// One answer at most goes to the caller with each input of a request, and one behind the 100 as it is opened: while a
/// provisional response goes up its branch has no final answer, and behind a final answer no best one goes (RFC 3261
/// 16.7 steps 5 and 6).
pub fn one_answer_goes_up()
    ensures input { (server : Server) (now : ℕ) (r : OpenRequest) (input : Input) → IsOf r now input
        → length (outcome_of server now r input).upward ≤ 1 }
    ensures opening { (server : Server) (now : ℕ) (r : OpenRequest) → length (opening server now r).upward ≤ 1 }
{}

/// So one dialog at most begins with it (RFC 3261 12.1).
pub fn changes_begin_once()
    ensures input { (server : Server) (now : ℕ) (r : OpenRequest) (input : Input) → IsOf r now input
        → count_by is_early_or_success (outcome_of server now r input).upward ≤ 1 }
    ensures opening { (server : Server) (now : ℕ) (r : OpenRequest) → count_by is_early_or_success (opening server now r).upward ≤ 1 }
{}
