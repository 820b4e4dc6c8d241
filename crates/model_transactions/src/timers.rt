ghost use Rattle.std.specs.Prelude.{◌≡◌, ◌≤◌, ◌<◌, ◌+◌, ◌^◌, ℕ, nat_lt, List, count_by};
ghost use Rattle.std.specs.List.{AllByRecursion};
ghost use Rattle.sip_timers.specs.declared.letter.Letter.{Letter};
ghost use Rattle.sip_timers.specs.declared.timer.Timer.{Timer};
ghost use Rattle.sip_context_branches.specs.state.declared.branch.Branch.{Branch};
ghost use Rattle.sip_context_branches.specs.state.declared.open_request.OpenRequest.{OpenRequest};
ghost use Rattle.model_transactions.specs.Ties.{branch_timers, side_timers, timers_of};
ghost use Rattle.model_transactions.specs.declared.timer_keys.TimerKeys.{TimerKeys};
ghost use Rattle.model_transactions.specs.Near.{IsNear, IsBranchWithin, IsWithin};

/// Each timer that a request names is due at a near moment, none later.
pub fn timers_are_near()
    ensures side { (bound : ℕ) (r : OpenRequest) → IsWithin bound r → AllByRecursion (λ (t : Letter × ℕ). IsNear bound t.1) (side_timers r) }
    ensures branch { (bound : ℕ) (r : OpenRequest) (b : Branch) → IsBranchWithin bound b
        → AllByRecursion (λ (t : Letter × ℕ). IsNear bound t.1) (branch_timers r b) }
    ensures whole { (bound : ℕ) (r : OpenRequest) (side : TimerKeys) (keys : List TimerKeys) → IsWithin bound r
        → AllByRecursion (λ (t : Timer). IsNear bound t.due) (timers_of r side keys) }
    ensures none_later { (bound : ℕ) (r : OpenRequest) (side : TimerKeys) (keys : List TimerKeys) → IsWithin bound r
        → count_by (λ (t : Timer). nat_lt (bound + 185000) t.due) (timers_of r side keys) ≡ 0 }
{}

/// So none of them is too far ahead to be set, where timers were asked for by the millisecond before the bound.
pub fn timers_can_be_set()
    ensures near { (bound reached due : ℕ) → bound ≤ reached + 1 → IsNear bound due → due < reached + 2 ^ 30 }
    ensures whole { (bound reached : ℕ) (r : OpenRequest) (side : TimerKeys) (keys : List TimerKeys) → bound ≤ reached + 1 → IsWithin bound r
        → AllByRecursion (λ (t : Timer). t.due < reached + 2 ^ 30) (timers_of r side keys) }
{}
