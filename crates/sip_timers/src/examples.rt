ghost use Rattle.std.specs.Prelude.{◌≡◌, ◌+◌, ◌^◌, [], ◌∷◌, Some, None};
ghost use Rattle.sip_timers.specs.Timers.{first_due, first_named, popped, without, IsTooFar};
ghost use Rattle.sip_timers.specs.Setting.{all_placed};
ghost use Rattle.sip_timers.specs.Examples.{timer_a, timer_b, timer_c, three_timers};

/// Of timers that are set for 10, 5 and 5, the second and the third fire at 5, in this order, and then
/// none; when the first is cancelled, none stands. Set anew in one order, they stand in it. After `pop_due` at 5 none is set for 2^30 ms later.
pub fn timer_order()
    ensures next { first_due three_timers ≡ Some 5 }
    ensures named { first_named three_timers ≡ Some (timer_b.due, timer_b.name) }
    ensures first { popped 5 three_timers ≡ (Some timer_b, timer_c ∷ timer_a ∷ []) }
    ensures second { popped 5 (timer_c ∷ timer_a ∷ []) ≡ (Some timer_c, timer_a ∷ []) }
    ensures none_due { popped 5 (timer_a ∷ []) ≡ (None, timer_a ∷ []) }
    ensures cancelled { first_due (without timer_a.key (timer_a ∷ [])) ≡ None }
    ensures set { all_placed (timer_a ∷ []) (timer_c ∷ timer_b ∷ []) ≡ timer_c ∷ timer_b ∷ timer_a ∷ [] }
    ensures too_far { IsTooFar 5 (5 + 2 ^ 30) }
    ensures near { ¬ IsTooFar 5 (4 + 2 ^ 30) }
{}
