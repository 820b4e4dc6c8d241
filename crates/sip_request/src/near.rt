ghost use Rattle.std.specs.Prelude.{◌≤◌, ℕ};
ghost use Rattle.model_transactions.specs.state.declared.open_request.OpenRequest.{OpenRequest};
ghost use Rattle.sip_request.specs.Near.{IsNear};

/// What is near a bound is near every later one.
pub fn near_later()
    ensures { (bound later : ℕ) (r : OpenRequest) → bound ≤ later → IsNear bound r → IsNear later r }
{}
