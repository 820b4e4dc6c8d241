ghost use Rattle.std.specs.Prelude.{◌≡◌, ◌≤◌, ◌<◌, ◌+◌, ◌&&◌, ℕ, not, map, true, false, [], ◌∷◌};
ghost use Rattle.std.specs.List.{list_all};
ghost use Rattle.sip_timers.specs.Machine.{IsOneOf};
ghost use Rattle.sip_timers.specs.declared.letter.Letter.{Letter};
ghost use Rattle.sip_timers.specs.declared.letter.Letter.TheVariants as By;
ghost use Rattle.sip_transactions.specs.ClientOther.{client_other, start, other_machine, runs};
ghost use Rattle.sip_transactions.specs.declared.client_actions.ClientAction.TheVariants.{Send, SendAgain, Up, Start};
ghost use Rattle.sip_transactions.specs.declared.client_actions.Report.TheVariants.{Response, Timeout, Unavailable};
ghost use Rattle.sip_transactions.specs.declared.client_other.ClientOther.{ClientOther};
ghost use Rattle.sip_transactions.specs.declared.client_other.ClientOtherInput.TheVariants.{Received, Fired, Fault};
ghost use Rattle.sip_context_branches.specs.state.State.{first_resend, is_invite, is_final, is_provisional};
ghost use Rattle.sip_context_branches.specs.state.declared.branch.Branch.{Branch};
ghost use Rattle.sip_context_branches.specs.state.declared.branch.Phase.{Phase};
ghost use Rattle.sip_context_branches.specs.state.declared.branch.Phase.TheVariants.{Unheard, Heard, Done, Ended};
ghost use Rattle.sip_context_branches.specs.state.declared.open_request.OpenRequest.{OpenRequest};
ghost use Rattle.sip_context_branches.specs.state.declared.resend.Resend.{Resend};
ghost use Rattle.sip_context_branches.specs.context_model.Branches.{other_heard, is_unheard};
ghost use Rattle.sip_context_branches.specs.context_model.Retransmission.{goes_again, branch_next, resend_after};
ghost use Rattle.model_transactions.specs.Steps.{Steps};
ghost use Rattle.model_transactions.specs.OtherClient.{RunsOtherClient, other_timers, heard_actions, steady};

/// A request, or a CANCEL, that is sent at a moment (RFC 3261 16.6, 9.1, 17.1.2.2).
pub fn begins()
    ensures { (now : ℕ) → Steps other_machine now start (RunsOtherClient (Unheard (now + 32000)) (first_resend now))
        (Send ∷ Start By.E 500 ∷ Start By.F 32000 ∷ []) [] (other_timers (Unheard (now + 32000)) (first_resend now)) }
{}

/// A response: a provisional one, which moves no timer, the first final one, and a further final one, of 100 to 699
/// (RFC 3261 17.1.2.2).
pub fn hears()
    ensures provisional { (now status : ℕ) (phase : Phase) (again : Resend) (state : ClientOther) → RunsOtherClient phase again state → 100
        ≤ status → is_provisional status ≡ true
        → Steps other_machine now (client_other state (Received status)) (RunsOtherClient (other_heard phase) again) (heard_actions phase)
        (other_timers phase again) (other_timers (other_heard phase) again) }
    ensures first { (now status : ℕ) (phase : Phase) (again : Resend) (state : ClientOther) → RunsOtherClient phase again state → status
        < 700 → is_provisional status ≡ false → is_final phase ≡ false
        → Steps other_machine now (client_other state (Received status)) (RunsOtherClient (Done (now + 5000) status) again)
        (Up Response ∷ Start By.K 5000 ∷ [])
        (other_timers phase again) (other_timers (Done (now + 5000) status) again) }
    ensures further { (now status : ℕ) (phase : Phase) (again : Resend) (state : ClientOther) → RunsOtherClient phase again state → status
        < 700 → is_provisional status ≡ false → is_final phase ≡ true
        → Steps other_machine now (client_other state (Received status)) (RunsOtherClient phase again) [] (other_timers phase again)
        (other_timers phase again) }
{}

/// Timer E: the request goes again, and next after twice the wait, at most 4,000 ms, or after so much once it was
/// heard (RFC 3261 17.1.2.2).
pub fn sends_again()
    ensures unheard { (until : ℕ) (again : Resend) (state : ClientOther) → RunsOtherClient (Unheard until) again state
        → Steps other_machine again.due (client_other state (Fired By.E)) (RunsOtherClient (Unheard until) (resend_after 4000 again))
        (SendAgain ∷ Start By.E (resend_after 4000 again).wait ∷ []) ((By.F, until) ∷ []) (other_timers (Unheard until) (resend_after 4000 again)) }
    ensures heard { (until : ℕ) (again : Resend) (state : ClientOther) → RunsOtherClient (Heard until) again state
        → Steps other_machine again.due (client_other state (Fired By.E)) (RunsOtherClient (Heard until) (steady again))
        (SendAgain ∷ Start By.E 4000 ∷ []) ((By.F, until) ∷ []) (other_timers (Heard until) (steady again)) }
{}

/// The transaction ends: by Timer F without a final response; by Timer K behind one; by a fault while no response
/// came. A later fault changes nothing (RFC 3261 17.1.2.2, 16.9).
pub fn ends()
    ensures unanswered { (now : ℕ) (phase : Phase) (again : Resend) (state : ClientOther) → RunsOtherClient phase again state → is_final phase ≡ false
        → Steps other_machine now (client_other state (Fired By.F)) (RunsOtherClient Ended again) (Up Timeout ∷ []) (other_timers phase again) [] }
    ensures over { (now until status : ℕ) (again : Resend) (state : ClientOther) → RunsOtherClient (Done until status) again state
        → Steps other_machine now (client_other state (Fired By.K)) (RunsOtherClient Ended again) [] (other_timers (Done until status) again) [] }
    ensures unsent { (now until : ℕ) (again : Resend) (state : ClientOther) → RunsOtherClient (Unheard until) again state
        → Steps other_machine now (client_other state Fault) (RunsOtherClient Ended again) (Up Unavailable ∷ [])
        (other_timers (Unheard until) again) [] }
    ensures late_fault { (now : ℕ) (phase : Phase) (again : Resend) (state : ClientOther) → RunsOtherClient phase again state
        → is_unheard phase ≡ false
        → Steps other_machine now (client_other state Fault) (RunsOtherClient phase again) [] (other_timers phase again) (other_timers phase again) }
{}

/// The timers of a branch are those that run in the state.
pub fn has_timers()
    ensures run { (phase : Phase) (again : Resend) (state : ClientOther) → RunsOtherClient phase again state
        → list_all (λ (t : Letter × ℕ). runs state t.0) (other_timers phase again) ≡ true }
    ensures all { (phase : Phase) (again : Resend) (state : ClientOther) (letter : Letter) → RunsOtherClient phase again state
        → runs state letter ≡ true → IsOneOf (map (λ (t : Letter × ℕ). t.0) (other_timers phase again)) letter }
{}

/// A phase has one state.
pub fn is_one()
    ensures { (phase : Phase) (again : Resend) (state other : ClientOther) → RunsOtherClient phase again state
        → RunsOtherClient phase again other → state ≡ other }
{}

/// What is sent again is what the actions say: a request that isn't an INVITE, and a CANCEL, goes again while Timer
/// E runs (RFC 3261 17.1.2.2).
pub fn is_carried_out()
    ensures again { (r : OpenRequest) (b : Branch) (state : ClientOther) → (is_invite r && not b.is_cancel) ≡ false
        → RunsOtherClient b.phase b.again state → goes_again r b ≡ runs state By.E }
    ensures next_unheard { (r : OpenRequest) (b : Branch) → (is_invite r && not b.is_cancel) ≡ false → is_unheard b.phase ≡ true
        → branch_next r b ≡ resend_after 4000 b.again }
    ensures next_heard { (r : OpenRequest) (b : Branch) → (is_invite r && not b.is_cancel) ≡ false → is_unheard b.phase ≡ false
        → branch_next r b ≡ steady b.again }
{}
