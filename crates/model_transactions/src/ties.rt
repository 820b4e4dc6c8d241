ghost use Rattle.std.specs.Prelude.{◌≡◌, ◌≤◌, ◌+◌, ◌&&◌, ℕ, not, Bool, true, false, List, ◌∷◌, count_by, Some};
ghost use Rattle.std.specs.List.{AllByRecursion};
ghost use Rattle.sip_timers.specs.declared.letter.Letter.{Letter};
ghost use Rattle.sip_timers.specs.declared.timer.Timer.{Timer};
ghost use Rattle.sip_timers.specs.declared.timer.Owner.{Owner};
ghost use Rattle.sip_timers.specs.declared.timer.Owner.TheVariants as Of;
ghost use Rattle.sip_transactions.specs.declared.client_other.ClientOther.{ClientOther};
ghost use Rattle.sip_transactions.specs.declared.server_other.ServerOther.{ServerOther};
ghost use Rattle.sip_context_branches.specs.state.declared.branch.Branch.{Branch};
ghost use Rattle.sip_context_branches.specs.state.declared.open_request.OpenRequest.{OpenRequest};
ghost use Rattle.sip_context_branches.specs.state.State.{is_invite, phase_deadline, side_deadline};
ghost use Rattle.sip_context_branches.specs.context_model.Retransmission.{branch_due, answer_due};
ghost use Rattle.model_transactions.specs.OtherClient.{RunsOtherClient};
ghost use Rattle.model_transactions.specs.OtherServer.{RunsOtherServer};
ghost use Rattle.model_transactions.specs.Ties.{branch_timers, side_timers, branches_timers, part_timers, named, owner_of, due_at, timers_of, IsFor};
ghost use Rattle.model_transactions.specs.declared.timer_keys.TimerKeys.{TimerKeys};

/// The deadline of a part, and the moment at which it goes again, are moments of timers that it names.
pub fn moments_are_named()
    ensures invite { (r : OpenRequest) (b : Branch) (due : ℕ) → (is_invite r && not b.is_cancel) ≡ true → phase_deadline b.phase ≡ Some due
        → 1 ≤ due_at due (branch_timers r b) }
    ensures other { (r : OpenRequest) (b : Branch) (due : ℕ) (state : ClientOther) → (is_invite r && not b.is_cancel) ≡ false
        → RunsOtherClient b.phase b.again state → phase_deadline b.phase ≡ Some due
        → 1 ≤ due_at due (branch_timers r b) }
    ensures branch_again { (r : OpenRequest) (b : Branch) (due : ℕ) → branch_due r b ≡ Some due → 1 ≤ due_at due (branch_timers r b) }
    ensures invite_side { (r : OpenRequest) (due : ℕ) → is_invite r ≡ true → side_deadline r.side ≡ Some due → 1 ≤ due_at due (side_timers r) }
    ensures other_side { (r : OpenRequest) (due : ℕ) (state : ServerOther) → is_invite r ≡ false → RunsOtherServer r.side r.answer state
        → side_deadline r.side ≡ Some due → 1 ≤ due_at due (side_timers r) }
    ensures answer_again { (r : OpenRequest) (due : ℕ) → answer_due r ≡ Some due → 1 ≤ due_at due (side_timers r) }
{}

/// A timer that a part names is for its deadline, or for what goes again; or it is Timer C of an INVITE that wasn't
/// heard, which fires behind the deadline alone.
pub fn timers_have_reasons()
    ensures branch { (r : OpenRequest) (b : Branch) → AllByRecursion (IsFor (branch_due r b) (phase_deadline b.phase)) (branch_timers r b) }
    ensures side { (r : OpenRequest) → AllByRecursion (IsFor (answer_due r) (side_deadline r.side)) (side_timers r) }
{}

/// The timers of a request are those of its parts, for each test as many.
pub fn timers_add_up()
    ensures part { (p : Timer → Bool) (number : ℕ) (owner : Owner) (keys : TimerKeys) (ts : List (Letter × ℕ))
        → count_by p (part_timers number owner keys ts) ≡ count_by (λ (t : Letter × ℕ). p (named number owner keys t)) ts }
    ensures whole { (p : Timer → Bool) (r : OpenRequest) (side : TimerKeys) (keys : List TimerKeys)
        → count_by p (timers_of r side keys) ≡ count_by p (part_timers r.number Of.Server side (side_timers r))
        + count_by p (branches_timers r r.branches keys) }
    ensures first { (p : Timer → Bool) (r : OpenRequest) (b : Branch) (bs : List Branch) (key : TimerKeys) (keys : List TimerKeys)
        → count_by p (branches_timers r (b ∷ bs) (key ∷ keys)) ≡ count_by p (part_timers r.number (owner_of b) key (branch_timers r b))
        + count_by p (branches_timers r bs keys) }
{}
