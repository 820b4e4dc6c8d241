ghost use Rattle.std.specs.Prelude.{◌≡◌, List, [], ◌∷◌};
ghost use Rattle.sip_model.specs.state.declared.proxy_state.ProxyState.{ProxyState};
ghost use Rattle.sip_model.specs.steps_model.Examples.{sample, in_call};
ghost use Rattle.sip_model.specs.Run.{Link};
ghost use Rattle.sip_model.specs.Access.{sent_for, WasGivenUp, Access};
ghost use Rattle.model_laws.specs.WrongRequests;

/// A BYE goes on once in its step: what it gets is that it goes to where its dialog holds, and no more.
pub fn bye_goes_once()
    ensures gets { sent_for sample (WrongRequests.before_bye in_call) WrongRequests.bye_comes ≡ WrongRequests.onward_bye 6 ∷ [] }
    ensures refused { (known after : ProxyState) (earlier : List Link) → Access sample (WrongRequests.sent_twice known after ∷ earlier) → ⊥ }
{}

/// A copy of a BYE that is open doesn't go on as a request of its own.
pub fn copy_stays()
    ensures { (known after : ProxyState) (earlier : List Link) → Access sample (WrongRequests.copy_goes_on known after ∷ earlier) → ⊥ }
{}

/// A target that rings is sent no CANCEL before Timer C, unless its call was given up; and an INVITE and its 180
/// give nothing up.
pub fn ringing_goes_on()
    ensures nobody { WasGivenUp sample (WrongRequests.ringing_came ∷ WrongRequests.invite_came ∷ []) 4 → ⊥ }
    ensures refused { (known after : ProxyState) (earlier : List Link) → (WasGivenUp sample earlier 4 → ⊥)
        → Access sample (WrongRequests.unwanted_cancel known after ∷ earlier) → ⊥ }
{}

/// The ACK of a 486 goes for the first time once.
pub fn ack_goes_once()
    ensures { (known after : ProxyState) (earlier : List Link) → Access sample (WrongRequests.acknowledged_twice known after ∷ earlier) → ⊥ }
{}

/// A refusal of a CANCEL gets no ACK.
pub fn refused_cancel_gets_no_ack()
    ensures { (known after : ProxyState) (earlier : List Link) → Access sample (WrongRequests.acknowledged_cancel known after ∷ earlier) → ⊥ }
{}
