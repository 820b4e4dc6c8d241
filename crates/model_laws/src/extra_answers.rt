ghost use Rattle.std.specs.Prelude.{◌≡◌, false, codes, List, [], ◌∷◌};
ghost use Rattle.sip_model.specs.state.declared.proxy_state.ProxyState.{ProxyState};
ghost use Rattle.sip_model.specs.context_model.Calls.{first_branch, one_target};
ghost use Rattle.sip_model.specs.context_model.Sending.{branch_packets};
ghost use Rattle.sip_model.specs.steps_model.Examples.{sample, knowing};
ghost use Rattle.sip_model.specs.Run.{Link};
ghost use Rattle.sip_model.specs.Access.{sent_for, Access};
ghost use Rattle.model_laws.specs.WrongAnswers;

/// A REGISTER that was denied gets no 200 later, which would say that a contact is bound, and no 401 with a nonce
/// that nobody issued: once its final answer went, nothing but a copy of that goes to its caller.
pub fn denied_register_gets_no_other_answer()
    ensures accepted { (known after : ProxyState) (earlier : List Link)
        → Access sample (WrongAnswers.answered_later 200 WrongAnswers.false_contact known after ∷ earlier) → ⊥ }
    ensures challenged { (known after : ProxyState) (earlier : List Link)
        → Access sample (WrongAnswers.answered_later 401 WrongAnswers.false_challenge known after ∷ earlier) → ⊥ }
{}

/// An INVITE gets no 200 that no target sent, beside what it gets: its 100, and its request to the binding.
pub fn invite_gets_no_made_200()
    ensures gets { sent_for sample (WrongAnswers.before_call (knowing (codes "5082" ∷ []))) WrongAnswers.invite_comes
        ≡ WrongAnswers.answer_to_invite 100 ∷ branch_packets sample false one_target first_branch }
    ensures refused { (known after : ProxyState) (earlier : List Link) → Access sample (WrongAnswers.accepted_at_once known after ∷ earlier) → ⊥ }
{}

/// A 486 of one target doesn't go to the caller while another one rings.
pub fn lost_answer_stays()
    ensures { (known after : ProxyState) (earlier : List Link) → Access sample (WrongAnswers.lost_goes_up known after ∷ earlier) → ⊥ }
{}

/// A 180 doesn't go to a caller who has a final answer.
pub fn late_ringing_stays()
    ensures { (known after : ProxyState) (earlier : List Link) → Access sample (WrongAnswers.late_ringing known after ∷ earlier) → ⊥ }
{}

/// A 100 of a target never goes to the caller.
pub fn trying_stays()
    ensures { (known after : ProxyState) (earlier : List Link) → Access sample (WrongAnswers.passed_100 known after ∷ earlier) → ⊥ }
{}
