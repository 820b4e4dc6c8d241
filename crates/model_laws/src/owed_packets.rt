ghost use Rattle.std.specs.Prelude.{List, ◌∷◌};
ghost use Rattle.sip_model.specs.state.declared.proxy_state.ProxyState.{ProxyState};
ghost use Rattle.sip_model.specs.steps_model.Examples.{sample};
ghost use Rattle.sip_model.specs.Run.{Link};
ghost use Rattle.sip_model.specs.Access.{Access};
ghost use Rattle.model_laws.specs.WrongSilence;

/// A 180 of a target doesn't stay here: it goes to the caller.
pub fn ringing_is_told()
    ensures { (known after : ProxyState) (earlier : List Link) → Access sample (WrongSilence.ringing_untold known after ∷ earlier) → ⊥ }
{}

/// A 486 of a target gets its ACK, also while another one rings.
pub fn busy_is_acknowledged()
    ensures { (known after : ProxyState) (earlier : List Link) → Access sample (WrongSilence.busy_unacknowledged known after ∷ earlier) → ⊥ }
{}

/// A 486 of the last target goes to the caller.
pub fn busy_is_told()
    ensures { (known after : ProxyState) (earlier : List Link) → Access sample (WrongSilence.busy_untold known after ∷ earlier) → ⊥ }
{}

/// A target that was given up before it was heard gets its CANCEL once it rings.
pub fn cancel_is_sent()
    ensures { (known after : ProxyState) (earlier : List Link) → Access sample (WrongSilence.cancel_withheld known after ∷ earlier) → ⊥ }
{}

/// A copy of a request that was answered gets its answer again.
pub fn copy_is_answered()
    ensures { (known after : ProxyState) (earlier : List Link) → Access sample (WrongSilence.copy_unanswered known after ∷ earlier) → ⊥ }
{}

/// No call ends in silence: where the last target ends by its deadline, the caller gets its 408; an INVITE whose
/// moment is over went at it; and no step passes a deadline over.
pub fn time_is_kept()
    ensures silent { (known : ProxyState) (earlier : List Link) → Access sample (WrongSilence.silence_untold known ∷ earlier) → ⊥ }
    ensures copied { (known : ProxyState) (earlier : List Link) → Access sample (WrongSilence.copy_withheld known ∷ earlier) → ⊥ }
    ensures passed { (known after : ProxyState) (earlier : List Link) → Access sample (WrongSilence.deadline_passed known after ∷ earlier) → ⊥ }
{}
