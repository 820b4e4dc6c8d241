ghost use Rattle.std.specs.Prelude.{◌≡◌, ◌≤◌, ◌<◌, ◌^◌, ℕ, Bool, true, List, Contains, find, is_some, IfSome};
ghost use Rattle.std.specs.List.{AllByRecursion};
ghost use Rattle.sip_targets.specs.declared.target.Target.{Target};
ghost use Rattle.sip_context_branches.specs.state.declared.branch.Branch.{Branch};
ghost use Rattle.sip_context_branches.specs.state.declared.open_request.OpenRequest.{OpenRequest};
ghost use Rattle.sip_context_branches.specs.state.State.{deadlines_of};
ghost use Rattle.sip_context_branches.specs.context_model.Opening.{branch_to};
ghost use Rattle.sip_context_branches.specs.context_model.Retransmission.{resends_of};
ghost use Rattle.sip_context_branches.specs.Early.{IsEarly};
ghost use Rattle.model_transactions.specs.Near.{IsNear, IsBranchWithin, IsWithin};

/// What is near a moment is near every later one.
pub fn time_passes()
    ensures branch { (bound later : ℕ) (b : Branch) → bound ≤ later → IsBranchWithin bound b → IsBranchWithin later b }
    ensures request { (bound later : ℕ) (r : OpenRequest) → bound ≤ later → IsWithin bound r → IsWithin later r }
    ensures all { (bound later : ℕ) (requests : List OpenRequest) → bound ≤ later → AllByRecursion (IsWithin bound) requests
        → AllByRecursion (IsWithin later) requests }
{}

/// Each branch of a request is within what lies near the request's bound, and so is the first one that passes a test.
pub fn branches_are_within()
    ensures each { (bound : ℕ) (r : OpenRequest) (b : Branch) → IsWithin bound r → Contains r.branches b → IsBranchWithin bound b }
    ensures found { (bound : ℕ) (r : OpenRequest) (test : Branch → Bool) → IsWithin bound r → IfSome (find test r.branches) (IsBranchWithin bound) }
{}

/// The deadlines of a request are near, and the moments at which something of it goes again.
pub fn moments_are_near()
    ensures deadlines { (bound : ℕ) (r : OpenRequest) → IsWithin bound r → AllByRecursion (IsNear bound) (deadlines_of r) }
    ensures resends { (bound : ℕ) (r : OpenRequest) → IsWithin bound r → AllByRecursion (IsNear bound) (resends_of r) }
{}

/// Of a bound below 2^62, Timer C of each branch is a moment of 64 bits.
pub fn leaves_room()
    ensures branch { (bound : ℕ) (b : Branch) → bound < 2 ^ 62 → IsBranchWithin bound b → IsEarly b.phase }
    ensures request { (bound : ℕ) (r : OpenRequest) → bound < 2 ^ 62 → IsWithin bound r
        → AllByRecursion (λ (b : Branch). IsEarly b.phase) r.branches }
{}

/// Nothing less would do: a branch that is sent to its target at a moment is within no earlier bound.
pub fn is_least()
    ensures { (bound now number : ℕ) (t : Target) → is_some t.address ≡ true → IsBranchWithin bound (branch_to now number t) → now ≤ bound }
{}
