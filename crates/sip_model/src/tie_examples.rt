ghost use Rattle.std.specs.Prelude.{◌≡◌, [], ◌∷◌, codes};
ghost use Rattle.model_steps.specs.state.State.{deadlines};
ghost use Rattle.model_steps.specs.Examples.{first_lines};
ghost use Rattle.sip_model.specs.TieExample.{cancelled_at_once, ends};

/// Which of two deadlines at one moment passes first can be heard. Of a call's two branches one was sent its CANCEL in the
/// millisecond in which the call came, and nothing was heard of the other; 32 seconds later, when their CANCEL and the caller's end,
/// too, one counts as 487 and the other as 408, and the caller gets the one that was first. So from a tie on two runs may differ in
/// more than an order.
pub fn order_is_heard()
    ensures tied { deadlines cancelled_at_once.requests ≡ 94000 ∷ 94000 ∷ 94000 ∷ 94000 ∷ [] }
    ensures cancelled_first { first_lines (ends (ends cancelled_at_once 1).state 2) ≡ codes "SIP/2.0 487 Request Terminated" ∷ [] }
    ensures unheard_first { first_lines (ends (ends cancelled_at_once 2).state 1) ≡ codes "SIP/2.0 408 Request Timeout" ∷ [] }
{}
